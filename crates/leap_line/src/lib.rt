// The clocks up to the one that sets the frame's flag or the DMC's, or asserts the interrupt line, with no access between; 0 where none does. That each
// goes by them is proved beside (proofs/LineLaws).
#![tactic(auto)]

ghost use Rattle.std.specs.Prelude.{◌≡◌, ◌+◌, ◌-◌, ◌*◌};
ghost use Rattle.leap_line.specs.Until.{frame_until, takes_in, last_fetch, dmc_until, sooner, frame_flag_until, dmc_flag_until, line_until};

use chip::State;
use chip_dmc::Dmc;
use chip_dmc_output::Output;
use chip_frame::{Frame, Times};

// The clocks up to the frame's flag.
#[tactic(auto, unfolding(crate::specs::Until::frame_until))]
fn frame_until(f: Frame, t: Times) -> u64
    ensures { result ≡ frame_until t f }
{
    if f.mode || f.disable {
        0
    } else if f.clock < t.fourth {
        u64::from(t.fourth - f.clock)
    } else {
        u64::from(t.fourth) + 1
    }
}

// The clocks up to the one in which the buffer's byte is taken.
#[tactic(auto, unfolding(crate::specs::Until::takes_in))]
fn takes_in(o: Output, period: u16) -> u32
    ensures { result ≡ takes_in period o }
{
    u32::from(o.timer) + u32::from(o.bits.saturating_sub(1)) * u32::from(period)
}

// The clocks up to the last of the fetches behind a first one.
fn fetches_in(first: u32, bytes: u16, period: u16) -> u64
    ensures { result ≡ first + bytes * (8 * period) }
{
    u64::from(first) + u64::from(bytes) * (8 * u64::from(period))
}

// The clocks up to the fetch of the last byte.
#[tactic(auto, unfolding(crate::specs::Until::last_fetch))]
fn last_fetch(period: u16, full: bool, taken: u32, bytes: u16) -> u64
    ensures { result ≡ last_fetch period full taken bytes }
{
    if full {
        fetches_in(taken, bytes.saturating_sub(1), period)
    } else if bytes == 1 {
        1
    } else if taken == 1 {
        fetches_in(1, bytes.saturating_sub(1), period)
    } else {
        fetches_in(taken, bytes.saturating_sub(2), period)
    }
}

// The clocks up to the DMC's flag.
#[tactic(auto, unfolding(crate::specs::Until::dmc_until))]
fn dmc_until(d: Dmc, period: u16) -> u64
    ensures { result ≡ dmc_until period d }
{
    if d.registers.enable && !d.registers.looped && 0 < d.reader.remaining {
        let taken = takes_in(d.output, period);
        last_fetch(period, d.reader.full, taken, d.reader.remaining)
    } else {
        0
    }
}

// The sooner of two, 0 being never.
#[tactic(auto, unfolding(crate::specs::Until::sooner))]
fn sooner_of(a: u64, b: u64) -> u64
    ensures { result ≡ sooner a b }
{
    if a == 0 {
        b
    } else if b == 0 {
        a
    } else {
        a.min(b)
    }
}

// The clocks up to the one that sets the frame's flag.
#[tactic(auto, unfolding(crate::specs::Until::frame_flag_until))]
pub fn until_frame(s: State) -> u64
    ensures { result ≡ frame_flag_until s }
{
    let times = chip_tables::frame_times(s.pal);
    frame_until(s.frame, times)
}

// The clocks up to the one that sets the DMC's flag.
#[tactic(auto, unfolding(crate::specs::Until::dmc_flag_until))]
pub fn until_dmc(s: State) -> u64
    ensures { result ≡ dmc_flag_until s }
{
    let period = chip_tables::dmc_period(s.pal, s.dmc.registers.index);
    dmc_until(s.dmc, period)
}

// The clocks up to the one that asserts the line.
#[tactic(auto, unfolding(crate::specs::Until::line_until))]
pub fn until(s: State) -> u64
    ensures { result ≡ line_until s }
{
    let frame = until_frame(s);
    let dmc = until_dmc(s);
    sooner_of(frame, dmc)
}
