// The chip's clock by itself, for the benchmark: many clocks, with no level and no range test.
#![tactic(auto)]

ghost use Rattle.std.specs.Prelude.{◌≡◌};
ghost use Rattle.arith.specs.Iterate.{iterate};
ghost use Rattle.chip.specs.Clock.{chip_clock};
ghost use Rattle.c_state.specs.Bytes.{state_of};
ghost use Rattle.c_state.specs.Encoded.{encoded};

use chip::State;

// n clocks, one after the other.
fn work(s: State, memory: &[u8], n: u64) -> State
    ensures { result ≡ iterate (chip_clock memory.now) n s }
{
    let mut state = s;
    for _ in 0..n {
        state = state.clocked(memory);
    }
    state
}

// Works n clocks on the state that the bytes stand for, whatever they are. Other bytes than a state's stay as they are.
#[unsafe(no_mangle)]
pub extern "C" fn pace_clocks(state: &mut [u8], memory: &[u8], n: u64)
    ensures { state.new ≡ encoded (iterate (chip_clock memory.now) n (state_of state.old)) state.old }
{
    let s = c_state_read::decode(state);
    let t = work(s, memory, n);
    c_state_write::encode(t, state);
}
