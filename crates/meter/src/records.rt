// The meter over records of a run, whose words are clock and level in turn, so that nobody has to copy the levels out of them.
ghost use Rattle.std.specs.Prelude.{◌≡◌, ◌+◌, min};
ghost use Rattle.meter.specs.Measure.{measured_levels, meter_number, meter_levels, MeasuredIs, measure_of};
ghost use Rattle.meter.specs.Meter.{metered_number, values_of, fractions, meter_of};
ghost use Rattle.meter.specs.Records.{record_levels, levels_heard};
ghost use Rattle.meter.specs.Spans.{span_over, span_from};

use super::{Measured, Metered, Span};

// The place behind the last of `count` records from `start` on, of those that are there.
fn end_of(start: usize, count: usize, all: usize) -> usize
    ensures { result ≡ min (start + count) all }
{
    start.saturating_add(count).min(all)
}

// The lowest and the highest of some levels and the records' levels.
#[tactic(auto, using(crate::proofs::Steps::there_low, crate::proofs::Steps::there_high, crate::proofs::Steps::there_is, crate::proofs::Steps::there_length, crate::proofs::Steps::low_over, crate::proofs::Steps::high_over))]
pub fn with_records(s: Span, words: &[u32], start: usize, count: usize) -> Span
    ensures { result ≡ span_over s (record_levels start count words.now) }
{
    let end = end_of(start, count, words.len() / 2);
    let mut low = s.low;
    let mut high = s.high;
    for i in start..end {
        let y = words[2 * i + 1];
        low = low.min(y);
        high = high.max(y);
    }
    Span { low, high }
}

// The lowest and the highest of x and the records' levels.
fn span_of(words: &[u32], start: usize, count: usize, x: u32) -> Span
    ensures { result ≡ span_from x (record_levels start count words.now) }
{
    with_records(super::at_level(x), words, start, count)
}

// What the records' levels are by themselves.
#[tactic(auto, using(crate::proofs::Answers::told_first, crate::proofs::Answers::empty, crate::proofs::Steps::there_none, crate::proofs::Steps::there_some, crate::proofs::Steps::there_first))]
fn alone(words: &[u32], start: usize, count: usize) -> Measured
    ensures { result ≡ measure_of (record_levels start count words.now) }
{
    let end = end_of(start, count, words.len() / 2);
    if end <= start {
        return Measured::NoLevels;
    }
    super::told(span_of(words, start, count, words[2 * start + 1]))
}

// What the levels of `count` records from record `start` on are, of those that are there, with the level before them where it counts. Refused: 29.
#[tactic(auto, using(crate::proofs::Answers::told_is, crate::proofs::Numbers::measured_number_lem, crate::proofs::Numbers::measured_levels_lem))]
pub fn measure(before: Option<u32>, words: &[u32], start: usize, count: usize) -> Measured
    ensures value { result ≡ measure_of (levels_heard before (record_levels start count words.now)) }
    ensures measured_is { MeasuredIs (levels_heard before (record_levels start count words.now)) result }
{
    match before {
        None => alone(words, start, count),
        Some(x) => super::told(span_of(words, start, count, x)),
    }
}

// The same, every level as the exact fraction of 32,768.
pub fn meter(before: Option<u32>, words: &[u32], start: usize, count: usize) -> Metered
    ensures value { result ≡ meter_of (levels_heard before (record_levels start count words.now)) }
    ensures result_value { metered_number result ≡ meter_number (levels_heard before (record_levels start count words.now)) }
    ensures result_value_2 { values_of result ≡ fractions (measured_levels (measure_of (levels_heard before (record_levels start count words.now)))) }
    ensures levels_value { values_of result ≡ fractions (meter_levels (levels_heard before (record_levels start count words.now))) }
{
    super::in_fractions(measure(before, words, start, count))
}
