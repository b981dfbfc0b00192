// The meter of what a log sounds like, as a whole; of each of its waits in `waits`.
#![tactic(auto)]

ghost use Rattle.std.specs.Prelude.{◌≡◌, true, false, ◌≤◌, length};
ghost use Rattle.chip.specs.Range.{in_range};
ghost use Rattle.recording.specs.Whole.{machine_of};
ghost use Rattle.log_rules.specs.Tree.{acts};
ghost use Rattle.recording.specs.Whole.{tree_of, check_of};
ghost use Rattle.play_meter.specs.Meters.{acts_meter, refused_answer, log_meter};
ghost use Rattle.play_meter.specs.Walking.{heard_of, clocks_on, heard_by, met_on};

use chip::State;
use meter::{Measured, Span};
use play_walk::Met;

pub mod waits;

// The answer: the meter; refused, a number and its place, and no levels.
// Flat, with the number first, as document 01 has it: "a refusal returns its number and place, the state as given, 0 or no for the rest" (`refused_answer`).
#[derive(Clone, Copy)]
pub struct Answer {
    pub number: u8,
    pub place: usize,
    pub meter: Measured,
}

// A state of a log, the lowest and the highest level so far, and whether the log is over.
#[derive(Clone, Copy)]
pub struct Heard {
    pub over: bool,
    pub state: State,
    pub span: Span,
}

fn heard_of(over: bool, s: State, span: Span) -> Heard
    ensures { result ≡ heard_of over s span }
{
    Heard {
        over,
        state: s,
        span,
    }
}

fn refused(number: u8, place: usize) -> Answer
    ensures { result ≡ refused_answer number place }
{
    Answer {
        number,
        place,
        meter: Measured::NoLevels,
    }
}

// n clocks, run by run, with the levels of their records: a run ends early where the words are full, and does a clock at least.
fn clocks_on(s: State, span: Span, memory: &[u8], n: u64, words: &mut [u32]) -> Heard
    requires memory_len { (length memory.now ≡ 32768) × (in_range s ≡ true) }
    requires in_bounds { 2 ≤ length words.old }
    ensures value { result ≡ clocks_on memory.now n s span }
    ensures state_value { in_range result.state ≡ true }
{
    let mut state = s;
    let mut heard = span;
    let mut left = n;
    while 0 < left {
        let r = run::uncounted(state, memory, left.min(1000000), words);
        heard = meter::records::with_records(heard, words, 0, r.records as usize);
        left -= u64::from(r.done);
        state = r.state;
    }
    heard_of(false, state, heard)
}

// With the level after an access, where it differs from that before.
#[tactic(auto, unfolding(crate::specs::Walking::heard_by))]
fn heard_by(span: Span, before: u16, after: u16) -> Span
    ensures { result ≡ heard_by span before after }
{
    if after == before {
        span
    } else {
        meter::with_level(span, u32::from(after))
    }
}

// What a step of the walk met; s is the state behind it.
#[tactic(auto, unfolding(crate::specs::Walking::met_on))]
fn met_on(x: Met, s: State, span: Span, memory: &[u8], words: &mut [u32]) -> Heard
    requires memory_len { (length memory.now ≡ 32768) × (in_range s ≡ true) }
    requires in_bounds { 2 ≤ length words.old }
    ensures value { result ≡ met_on memory.now x s span }
    ensures state_value { in_range result.state ≡ true }
{
    match x {
        Met::Moved => heard_of(false, s, span),
        Met::Access(_, before, after) => heard_of(false, s, heard_by(span, before, after)),
        Met::Wait(n) => clocks_on(s, span, memory, u64::from(n), words),
        Met::End | Met::Refused(_, _) => heard_of(true, s, span),
    }
}

// A log that passes, from its beginning to its end, on its machine, within as many steps as the cursor takes at most.
fn walk(log: &[u8], memory: &[u8], words: &mut [u32]) -> Measured
    requires log_value { ((check_of log.now).number ≡ 0) × (length memory.now ≡ 32768) }
    requires in_bounds { 2 ≤ length words.old }
    ensures { result ≡ acts_meter (machine_of log.now) memory.now (acts (tree_of log.now)) }
{
    let mut m = play_walk::start(log);
    let mut span = meter::at_level(u32::from(m.state.level()));
    for _ in 0..2000002u32 {
        let w = play_walk::step(log, m);
        let here = w.moment;
        let h = met_on(w.met, here.state, span, memory, words);
        span = h.span;
        if h.over {
            return meter::told(span);
        }
        m = play_walk::moment_of(here.cursor, h.state, here.time);
    }
    meter::told(span)
}

// The meter of what a log sounds like, from power-on of its machine. Refused: 1 at 0, and then what the log's check refuses.
pub fn whole(log: &[u8], memory: &[u8]) -> Answer
    ensures { result ≡ log_meter log.now memory.now }
{
    if memory.len() != 32768 {
        return refused(1, 0);
    }
    let k = recording::check(log);
    if k.number != 0 {
        return refused(k.number, k.place);
    }
    let mut words = [0u32; 2048];
    Answer {
        number: 0,
        place: 0,
        meter: walk(log, memory, &mut words),
    }
}
