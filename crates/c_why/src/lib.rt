// Why a channel is silent, asked of a state that is bytes (crate `c_state`). The answer is one number: its number, and above its low
// byte its value.
#![tactic(auto)]

ghost use Rattle.std.specs.Prelude.{◌≡◌};
ghost use Rattle.chip_why.specs.Why.{why_answer};
ghost use Rattle.c_state.specs.Bytes.{state_in};
ghost use Rattle.c_why.specs.Packed.{value_of, why_packed};

use chip_why::Reason;

// The value as C has it.
fn value_of(r: Reason) -> u16
    ensures { result ≡ value_of r }
{
    match r {
        Reason::Refused(_) => 0,
        Reason::NotEnabled => 1,
        Reason::LengthZero => 2,
        Reason::PeriodLow => 3,
        Reason::TargetHigh => 4,
        Reason::StepLow => 5,
        Reason::VolumeZero => 6,
        Reason::Sounds(n) => 16 + u16::from(n),
    }
}

// Why a channel is silent: 0 is square 1, 1 square 2, 3 the noise. The value is a reason from 1 to 6, or 16 + the number that the
// channel gives. Refused: 2, 24.
pub fn why(state: &[u8], channel: u64) -> u64
    ensures { result ≡ why_packed (why_answer channel (state_in state.now)) }
{
    let s = c_state_read::state_in(state);
    let r = chip_why::why(s, channel);
    c_chip::pack(chip_why::number_of(r), value_of(r))
}
