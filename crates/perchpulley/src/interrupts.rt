// What C and Rust ask about interrupts: when the line is asserted next, or one of the two flags is set.
ghost use Rattle.std.specs.Prelude.{◌≡◌};
ghost use Rattle.run_interrupt.specs.Next.{next_interrupt};
ghost use Rattle.c_state.specs.Bytes.{state_in};
ghost use Rattle.c_interrupt.specs.Packed.{asked_of, rise_packed};

// The least number of clocks from 0 to the count after which the line is asserted (which = 1: the frame's flag is set, 2: the DMC's), or that there is
// none, with no access between. The answer is number + 2^8 x whether there is one + 2^32 x clocks. Refused: 1, 2, 3.
#[unsafe(no_mangle)]
pub extern "C" fn perch_next_interrupt(state: &[u8], memory: &[u8], count: u64, which: u8) -> u64
    ensures { result ≡ rise_packed (next_interrupt (asked_of which) memory.now (state_in state.now) count) }
{
    c_interrupt::next_interrupt(state, memory, count, which)
}
