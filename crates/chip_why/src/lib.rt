// Why a channel is silent: the first true reason, or that it sounds, for any state and any channel number.
#![tactic(auto)]

ghost use Rattle.std.specs.Prelude.{◌≡◌};
ghost use Rattle.chip_why.specs.Why.{first_reason, square_why, noise_why, channel_why, why_answer};
ghost use Rattle.chip_why.specs.Value.{reason_number, reason_value, why_number, why_value};

use chip::State;
use chip_noise::Noise;
use chip_square::Square;

// The reasons in the order in which they are asked for; `StepLow` is a square's duty step, or bit 0 of the noise. What sounds has
// the number that the channel gives.
// No Result: request 6 names the reasons, and `why_answer` the refusal among them.
#[derive(Clone, Copy)]
pub enum Reason {
    Refused(u8),
    NotEnabled,
    LengthZero,
    PeriodLow,
    TargetHigh,
    StepLow,
    VolumeZero,
    Sounds(u8),
}

// The reason of the first test that is true; where none is, the channel sounds with what it gives.
#[tactic(auto, unfolding(crate::specs::Why::first_reason))]
fn first_of(
    off: bool,
    short: bool,
    low: bool,
    high: bool,
    still: bool,
    quiet: bool,
    given: u8,
) -> Reason
    ensures { result ≡ first_reason off short low high still quiet given }
{
    if off {
        return Reason::NotEnabled;
    }
    if short {
        return Reason::LengthZero;
    }
    if low {
        return Reason::PeriodLow;
    }
    if high {
        return Reason::TargetHigh;
    }
    if still {
        return Reason::StepLow;
    }
    if quiet {
        return Reason::VolumeZero;
    }
    Reason::Sounds(given)
}

// Why a square is silent; `second` says that it is square 2.
#[tactic(auto, unfolding(crate::specs::Why::square_why))]
fn square_why(s: Square, second: bool) -> Reason
    ensures { result ≡ square_why second s }
{
    let period = s.sequencer.timer.period;
    let off = !s.length.enabled;
    let short = s.length.count == 0;
    let low = chip_sweep::is_low(period);
    let high = s.sweep.is_high(second, period);
    let bit = chip_square::duty_bit(s.duty, s.sequencer.position);
    let volume = s.envelope.volume_of();
    let given = s.output(second);
    first_of(off, short, low, high, bit == 0, volume == 0, given)
}

// Why the noise is silent: it has no sweep.
#[tactic(auto, unfolding(crate::specs::Why::noise_why))]
fn noise_why(c: Noise) -> Reason
    ensures { result ≡ noise_why c }
{
    let off = !c.length.enabled;
    let short = c.length.count == 0;
    let set = c.shifter.register % 2 == 1;
    let volume = c.envelope.volume_of();
    let given = c.output();
    first_of(off, short, false, false, set, volume == 0, given)
}

// Why a channel of a state in range is silent.
#[tactic(auto, unfolding(crate::specs::Why::channel_why))]
fn channel_why(s: State, channel: u64) -> Reason
    ensures { result ≡ channel_why channel s }
{
    match channel {
        0 => square_why(s.square1, false),
        1 => square_why(s.square2, true),
        3 => noise_why(s.noise),
        _ => Reason::Refused(24),
    }
}

// Why a channel is silent: 0 is square 1, 1 square 2, 3 the noise. Refused: 2, 24.
pub fn why(s: State, channel: u64) -> Reason
    ensures value { result ≡ why_answer channel s }
    ensures result_value { reason_number result ≡ why_number channel s }
    ensures result_value_2 { reason_value result ≡ why_value channel s }
{
    if s.in_range() {
        channel_why(s, channel)
    } else {
        Reason::Refused(2)
    }
}

// The number that an answer carries.
pub fn number_of(r: Reason) -> u8
    ensures { result ≡ reason_number r }
{
    match r {
        Reason::Refused(n) => n,
        _ => 0,
    }
}

// The value that an answer carries beside its number: of a reason its place in the order, of what sounds its number.
pub fn value_of(r: Reason) -> u8
    ensures { result ≡ reason_value r }
{
    match r {
        Reason::Refused(_) => 0,
        Reason::NotEnabled => 1,
        Reason::LengthZero => 2,
        Reason::PeriodLow => 3,
        Reason::TargetHigh => 4,
        Reason::StepLow => 5,
        Reason::VolumeZero => 6,
        Reason::Sounds(n) => n,
    }
}
