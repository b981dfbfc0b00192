// One bus access to the chip: a register written or the status read. It has an answer for every state and every register; the
// customers' operation, which refuses, is `chip_api::access`.
#![tactic(auto)]

mod registers;

ghost use Rattle.std.specs.Prelude.{true, ◌≡◌};
ghost use Rattle.chip.specs.Range.{in_range};
ghost use Rattle.chip_access.specs.Access.{accessed};

use bus::Access;
use chip::State;

// The byte read, 0 for a write, and the state after the access.
#[derive(Clone, Copy)]
pub struct Outcome {
    pub byte: u8,
    pub state: State,
}

// One access. A state in range stays in range.
pub fn accessed(s: State, x: Access) -> Outcome
    ensures value { result ≡ accessed x s }
    ensures state_value { in_range s ≡ true → in_range result.state ≡ true }
{
    match x {
        Access::Write(register, value) => {
            let state = registers::register_written(s, register, value);
            Outcome { byte: 0, state }
        }
        Access::Read => {
            let state = registers::status_read(s);
            Outcome {
                byte: registers::status_byte(s),
                state,
            }
        }
    }
}
