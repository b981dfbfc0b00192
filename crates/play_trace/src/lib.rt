// A window of a log, event by event: what is seen where it begins, each change and each access in it, and where it ends. The way to the window is leapt over;
// in it every clock is worked.
#![tactic(auto)]

ghost use Rattle.std.specs.Prelude.{◌≡◌, true, false, ◌+◌, ◌-◌, ◌≤◌, ◌<◌, min, length};
ghost use Rattle.arith.specs.Iterate.{iterate};
ghost use Rattle.chip.specs.Clock.{chip_clock};
ghost use Rattle.chip.specs.Range.{in_range};
ghost use Rattle.play_walk.specs.Walk.{moment_of, walk_step};
ghost use Rattle.play_trace.specs.Window.{point_of, shown_at, bus_of, clock_event};
ghost use Rattle.play_trace.specs.Stepping.{place_of, place_start, begins_at, clocks_past, approach, outside_step, until_seen, event_said, clocks_step};
ghost use Rattle.play_trace.specs.Stepping.{met_step, inside_step, refusal_of, step_of, next_of, passed_of, passed, NextIs};

use bus::Access;
use chip::State;
use chip_seen::Seen;
use play_walk::{Met, Moment};

// What an access shows on the bus: its register, the value written or read, and 1 for a read.
#[derive(Clone, Copy)]
pub struct Bus {
    pub register: u16,
    pub value: u8,
    pub read: u8,
}

// A moment of a trace: its nanoseconds, its clock, and what is seen then.
#[derive(Clone, Copy)]
pub struct Point {
    pub time: u64,
    pub clock: u64,
    pub seen: Seen,
}

// What is shown: where the window begins; a clock after which something seen differs from before; an access, with what was seen before it.
#[derive(Clone, Copy)]
pub enum Event {
    Begins(Point),
    Clocked(Seen, Point),
    Accessed(Seen, Point, Bus),
}

// A moment of a log, the clocks of its wait that are still to be worked, the accesses done at its clock (at most 500 are counted), and whether the window
// has begun.
#[derive(Clone, Copy)]
pub struct Place {
    pub moment: Moment,
    pub left: u32,
    pub done: u16,
    pub begun: bool,
}

// What a step brings: the end, at its nanoseconds; nothing; an event; or a refusal's number and place.
// One flat answer and no Result: a step gives its place back in every case, so that `?` has nothing to hand on.
#[derive(Clone, Copy)]
pub enum Next {
    Over(u64),
    Moved,
    Shown(Event),
    Refused(u8, usize),
}

// It, and the place behind the step.
#[derive(Clone, Copy)]
pub struct Passed {
    pub next: Next,
    pub place: Place,
}

// Clocks worked one by one: how many, and the state behind them.
#[derive(Clone, Copy)]
struct Span {
    clocks: u32,
    state: State,
}

fn point_of(time: u64, clock: u64, seen: Seen) -> Point
    ensures { result ≡ point_of time clock seen }
{
    Point { time, clock, seen }
}

fn place_of(m: Moment, left: u32, done: u16, begun: bool) -> Place
    ensures { result ≡ place_of m left done begun }
{
    Place {
        moment: m,
        left,
        done,
        begun,
    }
}

fn passed_of(n: Next, p: Place) -> Passed
    ensures { result ≡ passed_of n p }
{
    Passed { next: n, place: p }
}

// What a step brings, and the place behind it by its parts.
fn passed_at(n: Next, m: Moment, left: u32, done: u16, begun: bool) -> Passed
    ensures { result ≡ passed_of n (place_of m left done begun) }
{
    let p = place_of(m, left, done, begun);
    passed_of(n, p)
}

// At a log's beginning, on its machine.
pub fn start(log: &[u8]) -> Place
    ensures { result ≡ place_start log.now }
{
    let m = play_walk::start(log);
    place_of(m, 0, 0, false)
}

// The nanoseconds of a clock behind k accesses.
fn shown_time(s: State, clock: u64, k: u64) -> u64
    requires { clock ≤ 4000000000 }
    ensures { result ≡ (shown_at s clock k).time }
{
    clock_rate::clock_time(s.pal, clock as u32) + k.min(500)
}

// A clock as it is shown behind k accesses.
fn shown_at(s: State, clock: u64, k: u64) -> Point
    requires { clock ≤ 4000000000 }
    ensures { result ≡ shown_at s clock k }
{
    let time = shown_time(s, clock, k);
    let seen = chip_seen::seen_of(s);
    point_of(time, clock, seen)
}

// What an access shows on the bus, from the state before it.
fn bus_of(x: Access, s: State) -> Bus
    ensures { result ≡ bus_of x s }
{
    match x {
        Access::Write(register, value) => Bus {
            register,
            value,
            read: 0,
        },
        Access::Read => {
            let o = chip_access::accessed(s, Access::Read);
            Bus {
                register: 0x4015,
                value: o.byte,
                read: 1,
            }
        }
    }
}

// The window begins here.
fn begins_at(p: Place) -> Passed
    requires { p.moment.time ≤ 4000000000 }
    ensures { result ≡ passed (begins_at p) }
{
    let m = p.moment;
    let s = m.state;
    let point = shown_at(s, m.time, 0);
    passed_at(Next::Shown(Event::Begins(point)), m, p.left, 0, true)
}

// The place behind k clocks of a wait that led to a state.
fn clocks_past(p: Place, k: u32, s: State) -> Place
    requires { p.moment.time ≤ 4000000000 }
    ensures { result ≡ place_of (moment_of p.moment.cursor s (p.moment.time + k)) (p.left - k) 0 p.begun }
{
    let m = p.moment;
    let c = m.cursor;
    let here = play_walk::moment_of(c, s, m.time + u64::from(k));
    place_of(here, p.left.saturating_sub(k), 0, p.begun)
}

// What a step of the walk met on the way to the window, and the moment behind it.
#[tactic(auto, unfolding(crate::specs::Stepping::approach))]
fn approach(p: Place, x: Met, m: Moment) -> Passed
    requires { p.moment.time ≤ 4000000000 }
    ensures { result ≡ passed (approach p x m) }
{
    match x {
        Met::Moved | Met::Access(_, _, _) => passed_at(Next::Moved, m, 0, 0, false),
        Met::Wait(n) => passed_at(Next::Moved, m, n, 0, false),
        Met::End => begins_at(p),
        Met::Refused(k, q) => passed_at(Next::Refused(k, q), m, 0, 0, false),
    }
}

// A step of the log on the way to the window.
fn far_step(p: Place, log: &[u8]) -> Passed
    requires { p.moment.time ≤ 2000000000 }
    ensures { result ≡ passed (approach p (walk_step log.now p.moment).met (walk_step log.now p.moment).moment) }
{
    let m = p.moment;
    let w = play_walk::step(log, m);
    let met = w.met;
    let here = w.moment;
    approach(p, met, here)
}

// Clocks of a wait in one leap, at most up to the window.
fn leap_step(p: Place, memory: &[u8], from: u64) -> Passed
    requires { (length memory.now ≡ 32768) × (in_range p.moment.state ≡ true) × (p.moment.time ≤ 2000000000) × (p.moment.time < from) }
    ensures { result ≡ passed_of Next.Moved (clocks_past memory.now (min p.left (from - p.moment.time)) p) }
{
    let m = p.moment;
    let s = m.state;
    let k = u64::from(p.left).min(from - m.time);
    let far = play_walk::clocks_on(s, memory, k);
    passed_of(Next::Moved, clocks_past(p, k as u32, far))
}

// Before the window: its beginning, a step of the log, or clocks of a wait.
fn outside_step(p: Place, log: &[u8], memory: &[u8], from: u64) -> Passed
    requires { (length memory.now ≡ 32768) × (in_range p.moment.state ≡ true) × (p.moment.time ≤ 2000000000) }
    ensures { result ≡ passed (outside_step log.now memory.now from p) }
{
    let m = p.moment;
    if from <= m.time {
        return begins_at(p);
    }
    if p.left == 0 {
        return far_step(p, log);
    }
    leap_step(p, memory, from)
}

// The clocks, at most n, up to the first after which something seen differs from now, and the state behind them.
fn until_seen(s: State, memory: &[u8], n: u32) -> Span
    ensures clocks_value { result.clocks ≡ until_seen memory.now n s }
    ensures state_value { result.state ≡ iterate (chip_clock memory.now) result.clocks s }
{
    let seen = chip_seen::seen_of(s);
    let mut state = s;
    for k in 0..n {
        state = state.clocked(memory);
        let now = chip_seen::seen_of(state);
        if !chip_seen::same_seen(seen, now) {
            return Span {
                clocks: k + 1,
                state,
            };
        }
    }
    Span { clocks: n, state }
}

// What there is to say of a clock that led from one state to another.
fn clock_next(clock: u64, s: State, next: State) -> Next
    requires { clock ≤ 4000000000 }
    ensures { result ≡ next_of (event_said (clock_event clock s next)) clock }
{
    let before = chip_seen::seen_of(s);
    let point = shown_at(next, clock, 0);
    let seen = point.seen;
    if chip_seen::same_seen(before, seen) {
        return Next::Moved;
    }
    Next::Shown(Event::Clocked(before, point))
}

// The rest of a wait up to the next change, or to its end or the window's.
fn clocks_step(p: Place, memory: &[u8], until: u64) -> Passed
    requires { (p.moment.time ≤ 2000000000) × (p.left ≤ 1000000) × (p.moment.time ≤ until) }
    ensures { result ≡ passed (clocks_step memory.now (until_seen memory.now (min p.left (until - p.moment.time)) p.moment.state) p) }
{
    let m = p.moment;
    let s = m.state;
    let n = u64::from(p.left).min(until - m.time);
    let span = until_seen(s, memory, n as u32);
    let far = span.state;
    let next = clock_next(m.time + u64::from(span.clocks), s, far);
    passed_of(next, clocks_past(p, span.clocks, far))
}

// An access in the window, and the moment behind it.
fn access_met(p: Place, x: Access, m: Moment) -> Passed
    requires { p.moment.time ≤ 4000000000 }
    ensures { result ≡ passed (met_step p (Met.Access x 0 0) m) }
{
    let before = p.moment;
    let s = before.state;
    let after = m.state;
    let seen = chip_seen::seen_of(s);
    let k = p.done as u64 + 1;
    let point = shown_at(after, before.time, k);
    let bus = bus_of(x, s);
    let done = k.min(500) as u16;
    passed_at(
        Next::Shown(Event::Accessed(seen, point, bus)),
        m,
        0,
        done,
        true,
    )
}

// What a step of the walk met in the window, and the moment behind it.
fn met_step(p: Place, x: Met, m: Moment) -> Passed
    requires { (p.moment.time ≤ 2000000000) × (m.time ≤ 4000000000) }
    ensures { result ≡ passed (met_step p x m) }
{
    let s = m.state;
    match x {
        Met::Moved => passed_at(Next::Moved, m, 0, p.done, true),
        Met::Access(a, _, _) => access_met(p, a, m),
        Met::Wait(n) => passed_at(Next::Moved, m, n, 0, true),
        Met::End => passed_at(
            Next::Over(shown_time(s, m.time, p.done as u64)),
            m,
            0,
            p.done,
            true,
        ),
        Met::Refused(k, q) => passed_at(Next::Refused(k, q), m, 0, p.done, true),
    }
}

// A step of the log.
fn log_step(p: Place, log: &[u8]) -> Passed
    requires { p.moment.time ≤ 2000000000 }
    ensures { result ≡ passed (met_step p (walk_step log.now p.moment).met (walk_step log.now p.moment).moment) }
{
    let m = p.moment;
    let w = play_walk::step(log, m);
    let met = w.met;
    let here = w.moment;
    met_step(p, met, here)
}

// In the window: a step of the log, or clocks of a wait one by one.
fn inside_step(p: Place, log: &[u8], memory: &[u8], until: u64) -> Passed
    requires { (p.moment.time ≤ 2000000000) × (p.left ≤ 1000000) }
    ensures { result ≡ passed (inside_step log.now memory.now until p) }
{
    let m = p.moment;
    if until <= m.time {
        let s = m.state;
        return passed_of(Next::Over(shown_time(s, m.time, p.done as u64)), p);
    }
    if p.left == 0 {
        return log_step(p, log);
    }
    clocks_step(p, memory, until)
}

// What refuses a place.
fn refusal_of(p: Place, memory: &[u8]) -> u8
    ensures { result ≡ refusal_of memory.now p }
{
    let m = p.moment;
    let s = m.state;
    if memory.len() != 32768 {
        return 1;
    }
    if !s.in_range() {
        return 2;
    }
    if 1000000 < p.left {
        return 3;
    }
    if 2000000000 < m.time {
        return 9;
    }
    0
}

// One step towards the window of the clocks `from` to `until`, or in it. Refused: 1, 2, 3 and 9 at 0, and a line at fault.
pub fn step(p: Place, log: &[u8], memory: &[u8], from: u64, until: u64) -> Passed
    ensures value { result ≡ passed (step_of log.now memory.now from until p) }
    ensures next_is { NextIs (step_of log.now memory.now from until p).said result.next }
{
    let k = refusal_of(p, memory);
    if k != 0 {
        return passed_of(Next::Refused(k, 0), p);
    }
    if p.begun {
        return inside_step(p, log, memory, until);
    }
    outside_step(p, log, memory, from)
}
