// The meter of each wait of a log, one after the other.
ghost use Rattle.std.specs.Prelude.{◌≡◌, true, ◌≤◌, length};
ghost use Rattle.chip.specs.Range.{in_range};
ghost use Rattle.play_walk.specs.Walk.{walk_start};
ghost use Rattle.play_meter.specs.Passing.{passed_of, met_pass, pass_of, passed, NextIs};

use meter::Measured;
use play_walk::{Met, Moment};

// What a step brings: the end; nothing; a wait, the clock at which it begins, its clocks and its meter; or a refusal's number and place.
// One flat answer and no Result: a step gives its place back in every case, so that `?` has nothing to hand on.
#[derive(Clone, Copy)]
pub enum Next {
    Over,
    Moved,
    Wait(u64, u32, Measured),
    Refused(u8, usize),
}

// It, and the moment behind the step.
#[derive(Clone, Copy)]
pub struct Passed {
    pub next: Next,
    pub moment: Moment,
}

fn passed_of(n: Next, m: Moment) -> Passed
    ensures { result ≡ passed_of n m }
{
    Passed { next: n, moment: m }
}

// At a log's beginning, on its machine.
pub fn start(log: &[u8]) -> Moment
    ensures { result ≡ walk_start log.now }
{
    play_walk::start(log)
}

// The meter of n clocks, and the moment behind them.
fn pass_wait(m: Moment, memory: &[u8], n: u32, words: &mut [u32]) -> Passed
    requires memory_len { (length memory.now ≡ 32768) × (in_range m.state ≡ true) × (m.time ≤ 2000000000) }
    requires in_bounds { 2 ≤ length words.old }
    ensures { result ≡ passed (met_pass memory.now (Met.Wait n) m) }
{
    let wait = u64::from(n);
    let first = meter::at_level(u32::from(m.state.level()));
    let h = super::clocks_on(m.state, first, memory, wait, words);
    passed_of(
        Next::Wait(m.time, n, meter::told(h.span)),
        play_walk::moment_of(m.cursor, h.state, m.time + wait),
    )
}

// What a step of the walk met, and the moment behind it.
#[tactic(auto, unfolding(crate::specs::Passing::met_pass))]
fn pass_met(x: Met, m: Moment, memory: &[u8], words: &mut [u32]) -> Passed
    requires memory_len { (length memory.now ≡ 32768) × (in_range m.state ≡ true) × (m.time ≤ 2000000000) }
    requires in_bounds { 2 ≤ length words.old }
    ensures { result ≡ passed (met_pass memory.now x m) }
{
    match x {
        Met::Moved | Met::Access(_, _, _) => passed_of(Next::Moved, m),
        Met::Wait(n) => pass_wait(m, memory, n, words),
        Met::End => passed_of(Next::Over, m),
        Met::Refused(k, p) => passed_of(Next::Refused(k, p), m),
    }
}

// One step of the log, and the wait that it brings with its meter. Refused: 1, 2 and 9 at 0, and then a line at fault.
pub fn pass(m: Moment, log: &[u8], memory: &[u8]) -> Passed
    ensures value { result ≡ passed (pass_of log.now memory.now m) }
    ensures next_is { NextIs (pass_of log.now memory.now m).said result.next }
{
    if memory.len() != 32768 {
        return passed_of(Next::Refused(1, 0), m);
    }
    if !m.state.in_range() {
        return passed_of(Next::Refused(2, 0), m);
    }
    if 2000000000 < m.time {
        return passed_of(Next::Refused(9, 0), m);
    }
    let w = play_walk::step(log, m);
    let mut words = [0u32; 512];
    pass_met(w.met, w.moment, memory, &mut words)
}
