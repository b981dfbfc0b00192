// When the interrupt line is asserted next, on a state that is bytes: the answer in one number.
#![tactic(auto)]

ghost use Rattle.std.specs.Prelude.{◌≡◌};
ghost use Rattle.run_interrupt.specs.Next.{next_interrupt};
ghost use Rattle.c_state.specs.Bytes.{state_in};
ghost use Rattle.c_interrupt.specs.Packed.{asked_of, found_flag, rise_packed};

use run_interrupt::{Asked, Rise};

fn asked_of(which: u8) -> Asked
    ensures { result ≡ asked_of which }
{
    if which == 1 {
        return Asked::Frame;
    }
    if which == 2 {
        return Asked::Dmc;
    }
    Asked::Line
}

// 1 where there is such a clock.
fn found_flag(r: Rise) -> u8
    ensures { result ≡ found_flag r }
{
    match r {
        Rise::At(_) => 1,
        Rise::Never => 0,
        Rise::Refused(_) => 0,
    }
}

// An answer in one number.
fn pack_rise(r: Rise) -> u64
    ensures { result ≡ rise_packed r }
{
    let number = run_interrupt::number(r);
    let found = found_flag(r);
    let clocks = run_interrupt::clocks(r);
    number as u64 + 256 * found as u64 + 4294967296 * clocks as u64
}

// The least number of clocks from 0 to the count after which the line is asserted (which = 1: the frame's flag is set, 2: the DMC's), or that there is
// none. Refused: 1, 2, 3.
pub fn next_interrupt(state: &[u8], memory: &[u8], count: u64, which: u8) -> u64
    ensures { result ≡ rise_packed (next_interrupt (asked_of which) memory.now (state_in state.now) count) }
{
    let s = c_state_read::state_in(state);
    let asked = asked_of(which);
    let r = run_interrupt::next_interrupt(s, memory, count, asked);
    pack_rise(r)
}
