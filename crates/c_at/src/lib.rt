// The state at a clock of a log, as bytes lent in place (crate `c_state`). The answer is one number: its number, its place
// and its value.
#![tactic(auto)]

ghost use Rattle.std.specs.Prelude.{◌≡◌, ◌≤◌};
ghost use Rattle.c_log.specs.Logs.{log_packed};
ghost use Rattle.c_at.specs.Packed.{at_answer, at_packed, at_bytes};

// An answer in one number.
fn pack_at(number: u8, place: usize, clock: u64) -> u64
    requires { (place ≤ 524288) × (clock ≤ 2000000000) }
    ensures { result ≡ log_packed number place clock }
{
    number as u64 + 256 * place as u64 + 4294967296 * clock
}

// Makes the bytes the state at a clock of a log, whatever they held, all accesses stamped up to that clock done; at the log's end where that comes
// before. The value is the clock reached. Refused, and the bytes stay: 1; 2, for another length; as the log.
pub fn state_at(state: &mut [u8], log: &[u8], memory: &[u8], clock: u64) -> u64
    ensures value { result ≡ at_packed (at_answer log.now memory.now clock state.old) }
    ensures state_after { state.new ≡ at_bytes (at_answer log.now memory.now clock state.old) state.old }
{
    if state.len() != c_state::SIZE {
        return u64::from(c_chip::other_length(memory));
    }
    let a = play_at::state_at(log, memory, clock);
    let s = a.state;
    c_chip::store(a.number, s, state);
    pack_at(a.number, a.place, a.clock)
}
