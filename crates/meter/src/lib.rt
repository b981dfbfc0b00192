// A meter for a stretch: whether a list of levels is silent, steady or moving, and between which levels. Here over a lent list; over the
// records of a run in `records`.
#![tactic(auto)]

ghost use Rattle.std.specs.Prelude.{◌≡◌, [], ◌∷◌};
ghost use Rattle.meter.specs.Measure.{measured_levels, meter_number, meter_levels, MeasuredIs, measure_of};
ghost use Rattle.meter.specs.Meter.{metered_number, values_of, fractions, MeteredIs, in_fractions, meter_of};
ghost use Rattle.meter.specs.Spans.{span_at, span_over, span_from, told_of, SpanIs};

pub mod records;

// What a list of levels is: refused by a number, or with its levels, each as an L.
// No Result: request 11 names the cases, and `measure_of` the refusal among them.
#[derive(Clone, Copy)]
pub enum Metering<L> {
    Refused(u8),
    NoLevels,
    Silent,
    Steady(L),
    // The lowest and the highest.
    Moving(L, L),
}

// It in whole levels out of 32,768.
pub type Measured = Metering<u16>;

// It with every level as the exact fraction of 32,768.
pub type Metered = Metering<f32>;

// The lowest and the highest of some levels.
#[derive(Clone, Copy)]
pub struct Span {
    pub low: u32,
    pub high: u32,
}

// The lowest and the highest of one level.
pub fn at_level(x: u32) -> Span
    ensures { result ≡ span_at x }
{
    Span { low: x, high: x }
}

// Those of some levels and one more.
#[tactic(auto, unfolding(crate::specs::Levels::lowest, crate::specs::Levels::highest))]
pub fn with_level(s: Span, x: u32) -> Span
    ensures { result ≡ span_over s (x ∷ []) }
{
    Span {
        low: s.low.min(x),
        high: s.high.max(x),
    }
}

// The lowest and the highest of x and the levels. The loop tests nothing, so that it runs in wide steps.
#[tactic(auto, using(crate::proofs::Steps::low_step, crate::proofs::Steps::high_step, crate::proofs::Steps::low_over, crate::proofs::Steps::high_over))]
fn span_of(levels: &[u32], x: u32) -> Span
    ensures { result ≡ span_from x levels.now }
{
    let mut low = x;
    let mut high = x;
    for y in levels {
        low = low.min(*y);
        high = high.max(*y);
    }
    Span { low, high }
}

// What levels are, by the lowest and the highest of them. A level is above 32,767 exactly where the highest is.
#[tactic(auto, unfolding(crate::specs::Spans::told_of, crate::specs::Spans::span_number, crate::specs::Spans::span_levels))]
pub fn told(s: Span) -> Measured
    ensures value { result ≡ told_of s.low s.high }
    ensures span_is { SpanIs s result }
{
    if 32767 < s.high {
        return Measured::Refused(29);
    }
    if s.low < s.high {
        return Measured::Moving(s.low as u16, s.high as u16);
    }
    if s.high == 0 {
        return Measured::Silent;
    }
    Measured::Steady(s.high as u16)
}

// What a list of levels is, in whole levels. Refused: 29.
#[tactic(auto, using(crate::proofs::Answers::told_rest, crate::proofs::Answers::empty, crate::proofs::Numbers::measured_number_lem, crate::proofs::Numbers::measured_levels_lem))]
pub fn measure(levels: &[u32]) -> Measured
    ensures value { result ≡ measure_of levels.now }
    ensures measured_is { MeasuredIs levels.now result }
{
    let [first, rest @ ..] = levels else {
        return Measured::NoLevels;
    };
    told(span_of(rest, *first))
}

// Document 01's number of an answer: 0, or that of a refusal.
pub fn number_of(m: Metered) -> u8
    ensures { result ≡ metered_number m }
{
    match m {
        Metered::Refused(number) => number,
        Metered::NoLevels | Metered::Silent | Metered::Steady(_) | Metered::Moving(_, _) => 0,
    }
}

// An answer with every level as the exact fraction of 32,768. No `map` with a closure: its contract would be longer than these cases, for this one caller.
pub fn in_fractions(m: Measured) -> Metered
    ensures value { result ≡ in_fractions m }
    ensures metered_is { MeteredIs m result }
{
    match m {
        Measured::Refused(number) => Metered::Refused(number),
        Measured::NoLevels => Metered::NoLevels,
        Measured::Silent => Metered::Silent,
        Measured::Steady(level) => Metered::Steady(chip_mixer::fraction(level)),
        Measured::Moving(low, high) => {
            Metered::Moving(chip_mixer::fraction(low), chip_mixer::fraction(high))
        }
    }
}

// What a list of levels is. Refused: 29.
pub fn meter(levels: &[u32]) -> Metered
    ensures value { result ≡ meter_of levels.now }
    ensures result_value { metered_number result ≡ meter_number levels.now }
    ensures result_value_2 { values_of result ≡ fractions (measured_levels (measure_of levels.now)) }
    ensures levels_value { values_of result ≡ fractions (meter_levels levels.now) }
{
    in_fractions(measure(levels))
}
