// The changes of the two interrupt flags and of the line over a log, one after the other. A wait costs a leap for each change that it brings, two at
// most, since the line changes only with a flag, and one for its end.
#![tactic(auto)]

ghost use Rattle.std.specs.Prelude.{◌≡◌, true, ◌≤◌, length};
ghost use Rattle.chip.specs.Range.{in_range};
ghost use Rattle.play_walk.specs.Walk.{walk_step};
ghost use Rattle.play_interrupts.specs.Changes.{flags_of, same, same_flags, changed};
ghost use Rattle.play_interrupts.specs.Closed.{rise_or, least_rise};
ghost use Rattle.play_interrupts.specs.Stepping.{place_of, place_start, until_change, change_said, clocks_step, met_step, place_step};
ghost use Rattle.play_interrupts.specs.Stepping.{step_of, next_of, passed_of, passed, NextIs};

use chip::State;
use play_walk::{Met, Moment};
use run_interrupt::{Asked, Rise};

// The frame's flag, the DMC's, and the line.
#[derive(Clone, Copy)]
pub struct Flags {
    pub frame: bool,
    pub dmc: bool,
    pub line: bool,
}

// A clock of the log, and the flags before and after what happened there.
#[derive(Clone, Copy)]
pub struct Change {
    pub time: u64,
    pub before: Flags,
    pub after: Flags,
}

// A moment of a log, and the clocks of its wait that are still to be worked.
#[derive(Clone, Copy)]
pub struct Place {
    pub moment: Moment,
    pub left: u32,
}

// What a step brings: the end, at its clock; nothing; a change; or a refusal's number and place.
// One flat answer and no Result: a step gives its place back in every case, so that `?` has nothing to hand on.
#[derive(Clone, Copy)]
pub enum Next {
    Over(u64),
    Moved,
    Changed(Change),
    Refused(u8, usize),
}

// It, and the place behind the step.
#[derive(Clone, Copy)]
pub struct Passed {
    pub next: Next,
    pub place: Place,
}

// The flags of a state.
pub fn flags_of(s: State) -> Flags
    ensures { result ≡ flags_of s }
{
    let line = s.asserts();
    Flags {
        frame: s.frame.interrupt,
        dmc: s.dmc.reader.interrupt,
        line,
    }
}

// Two flags alike.
pub fn same_flag(a: bool, b: bool) -> bool
    ensures { result ≡ same a b }
{
    a == b
}

#[tactic(auto, unfolding(crate::specs::Changes::same_flags))]
fn same_flags(a: Flags, b: Flags) -> bool
    ensures { result ≡ same_flags a b }
{
    same_flag(a.frame, b.frame) && same_flag(a.dmc, b.dmc) && same_flag(a.line, b.line)
}

fn place_of(m: Moment, left: u32) -> Place
    ensures { result ≡ place_of m left }
{
    Place { moment: m, left }
}

fn passed_of(n: Next, p: Place) -> Passed
    ensures { result ≡ passed_of n p }
{
    Passed { next: n, place: p }
}

// At a log's beginning, on its machine.
pub fn start(log: &[u8]) -> Place
    ensures { result ≡ place_start log.now }
{
    let m = play_walk::start(log);
    place_of(m, 0)
}

// The change from one state to another, or nothing.
fn change_next(time: u64, s: State, next: State) -> Next
    ensures { result ≡ next_of (change_said (changed time s next)) time }
{
    let before = flags_of(s);
    let after = flags_of(next);
    if same_flags(before, after) {
        return Next::Moved;
    }
    Next::Changed(Change {
        time,
        before,
        after,
    })
}

// The clocks of an answer; all of them where it holds now, which no clock changes, or where it isn't within them.
#[tactic(auto, unfolding(crate::specs::Closed::rise_or))]
fn rise_or(r: Rise, left: u32) -> u32
    ensures { result ≡ rise_or r left }
{
    match r {
        Rise::At(k) => { if k == 0 { left } else { k } }
        Rise::Never | Rise::Refused(_) => left,
    }
}

// The clocks to the next of the three, at most `left`.
fn until(s: State, memory: &[u8], left: u32) -> u32
    ensures { result ≡ least_rise memory.now left s }
{
    let n = u64::from(left);
    let frame = rise_or(
        run_interrupt::next_interrupt(s, memory, n, Asked::Frame),
        left,
    );
    let dmc = rise_or(
        run_interrupt::next_interrupt(s, memory, n, Asked::Dmc),
        left,
    );
    let line = rise_or(
        run_interrupt::next_interrupt(s, memory, n, Asked::Line),
        left,
    );
    frame.min(dmc).min(line)
}

// The rest of a wait up to the next change, or to its end.
fn clocks_step(p: Place, memory: &[u8]) -> Passed
    requires { (length memory.now ≡ 32768) × (in_range p.moment.state ≡ true) × (p.moment.time ≤ 2000000000) × (p.left ≤ 1000000) }
    ensures { result ≡ passed (clocks_step memory.now (until_change memory.now p.left p.moment.state) p) }
{
    let m = p.moment;
    let c = m.cursor;
    let s = m.state;
    let k = until(s, memory, p.left);
    let clocks = u64::from(k);
    let far = play_walk::clocks_on(s, memory, clocks);
    let time = m.time + clocks;
    let n = change_next(time, s, far);
    let here = play_walk::moment_of(c, far, time);
    let q = place_of(here, p.left.saturating_sub(k));
    passed_of(n, q)
}

// What a step of the walk met, from the state s, and the moment behind it.
fn met_step(s: State, x: Met, m: Moment) -> Passed
    ensures { result ≡ passed (met_step s x m) }
{
    let after = m.state;
    match x {
        Met::Moved => passed_of(Next::Moved, place_of(m, 0)),
        Met::Access(_, _, _) => passed_of(change_next(m.time, s, after), place_of(m, 0)),
        Met::Wait(n) => passed_of(Next::Moved, place_of(m, n)),
        Met::End => passed_of(Next::Over(m.time), place_of(m, 0)),
        Met::Refused(k, q) => passed_of(Next::Refused(k, q), place_of(m, 0)),
    }
}

// A step of the log.
fn log_step(m: Moment, log: &[u8]) -> Passed
    ensures { result ≡ passed (met_step m.state (walk_step log.now m).met (walk_step log.now m).moment) }
{
    let s = m.state;
    let w = play_walk::step(log, m);
    let met = w.met;
    let here = w.moment;
    met_step(s, met, here)
}

// The rest of a wait up to the next change; where none is under way a step of the log.
fn place_step(p: Place, log: &[u8], memory: &[u8]) -> Passed
    requires { (length memory.now ≡ 32768) × (in_range p.moment.state ≡ true) × (p.moment.time ≤ 2000000000) }
    ensures { result ≡ passed (place_step log.now memory.now p) }
{
    let m = p.moment;
    if p.left == 0 {
        return log_step(m, log);
    }
    if 1000000 < p.left {
        return passed_of(Next::Refused(3, 0), p);
    }
    clocks_step(p, memory)
}

// One step, and the change that it brings. Refused: 1, 2, 9 and 3 at 0, and a line at fault.
pub fn step(p: Place, log: &[u8], memory: &[u8]) -> Passed
    ensures value { result ≡ passed (step_of log.now memory.now p) }
    ensures next_is { NextIs (step_of log.now memory.now p).said result.next }
{
    let m = p.moment;
    let s = m.state;
    if memory.len() != 32768 {
        return passed_of(Next::Refused(1, 0), p);
    }
    if !s.in_range() {
        return passed_of(Next::Refused(2, 0), p);
    }
    if 2000000000 < m.time {
        return passed_of(Next::Refused(9, 0), p);
    }
    place_step(p, log, memory)
}
