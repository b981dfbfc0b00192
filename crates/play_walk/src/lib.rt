// The walk of a log, act by act: a moment by value, and a step that meets an access, which it does, a wait, which is left to the caller, the end, or a
// refusal. Everything that goes through a log goes by it.
#![tactic(auto)]

ghost use Rattle.std.specs.Prelude.{◌≡◌, true, ◌≤◌, length};
ghost use Rattle.arith.specs.Iterate.{iterate};
ghost use Rattle.chip.specs.Clock.{chip_clock};
ghost use Rattle.chip.specs.Range.{in_range};
ghost use Rattle.recording_cursor.specs.Stepping.{step_of};
ghost use Rattle.play_walk.specs.Walk.{moment_of, walk_start, act_met, act_state, walked_to, given_met, walk_step, MetIs, clocks_on};

use bus::Access;
use chip::State;
use log_cursor::Given;
use log_line::Act;
use recording_cursor::Cursor;

// A moment of a log: the place in it, the state there, and the clocks done.
#[derive(Clone, Copy)]
pub struct Moment {
    pub cursor: Cursor,
    pub state: State,
    pub time: u64,
}

// What a step meets: nothing, the place moved; an access, with the level before it and after it; a wait, its clocks; the log's end; or a refusal's
// number and place.
// One flat answer and no Result: a step gives its place back in every case, so that `?` has nothing to hand on.
#[derive(Clone, Copy)]
pub enum Met {
    Moved,
    Access(Access, u16, u16),
    Wait(u32),
    End,
    Refused(u8, usize),
}

// It, and the moment behind the step: an access has acted, a wait's clocks are still to be worked.
#[derive(Clone, Copy)]
pub struct Walked {
    pub met: Met,
    pub moment: Moment,
}

// The place in a log, the state there, and the clocks done.
pub fn moment_of(c: Cursor, s: State, time: u64) -> Moment
    ensures { result ≡ moment_of c s time }
{
    Moment {
        cursor: c,
        state: s,
        time,
    }
}

// At a log's beginning, on its machine.
pub fn start(log: &[u8]) -> Moment
    ensures { result ≡ walk_start log.now }
{
    let s = chip::power_on(recording::is_pal(log));
    let c = recording_cursor::start();
    moment_of(c, s, 0)
}

fn walked_to(x: Met, c: Cursor, s: State, time: u64) -> Walked
    ensures { result ≡ walked_to x c s time }
{
    let m = moment_of(c, s, time);
    Walked { met: x, moment: m }
}

// An access, done.
fn access_met(m: Moment, c: Cursor, x: Access) -> Walked
    ensures value { result ≡ walked_to (act_met (Act.Access x) m.state) c (act_state (Act.Access x) m.state) m.time }
    ensures state_value { in_range m.state ≡ true → in_range result.moment.state ≡ true }
{
    let s = m.state;
    let a = chip_access::accessed(s, x);
    let after = a.state;
    walked_to(Met::Access(x, s.level(), after.level()), c, after, m.time)
}

// An act of the log.
fn act_met(m: Moment, c: Cursor, a: Act) -> Walked
    ensures value { result ≡ walked_to (act_met a m.state) c (act_state a m.state) m.time }
    ensures state_value { in_range m.state ≡ true → in_range result.moment.state ≡ true }
{
    let s = m.state;
    match a {
        Act::Wait(n) => walked_to(Met::Wait(n), c, s, m.time),
        Act::Access(x) => access_met(m, c, x),
    }
}

// What the cursor's step gave.
fn given_met(g: Given, m: Moment, c: Cursor) -> Walked
    ensures value { result ≡ given_met g m c }
    ensures state_value { in_range m.state ≡ true → in_range result.moment.state ≡ true }
{
    let s = m.state;
    match g {
        Given::Act(a) => act_met(m, c, a),
        Given::Moved => walked_to(Met::Moved, c, s, m.time),
        Given::End => walked_to(Met::End, c, s, m.time),
        Given::Refused(k, p) => walked_to(Met::Refused(k, p), c, s, m.time),
    }
}

// One step: at most one line of the log.
pub fn step(log: &[u8], m: Moment) -> Walked
    ensures value { result ≡ walk_step log.now m }
    ensures met_is { MetIs (step_of log.now m.cursor).said result.met }
    ensures state_value { in_range m.state ≡ true → in_range result.moment.state ≡ true }
{
    let c = m.cursor;
    let t = recording_cursor::step(log, c);
    let given = t.found;
    let next = t.cursor;
    given_met(given, m, next)
}

// The state n clocks on, run by run: a run ends early where the words are full, and does a clock at least.
fn runs_on(s: State, memory: &[u8], n: u64, words: &mut [u32]) -> State
    requires memory_len { (length memory.now ≡ 32768) × (in_range s ≡ true) }
    requires in_bounds { 2 ≤ length words.old }
    ensures value { result ≡ iterate (chip_clock memory.now) n s }
    ensures result_value { in_range result ≡ true }
{
    let mut state = s;
    let mut left = n;
    while 0 < left {
        let r = run::uncounted(state, memory, left.min(1000000), words);
        left -= u64::from(r.done);
        state = r.state;
    }
    state
}

// The state n clocks on, leaping; where 1 or 2 holds no clock is worked.
pub fn clocks_on(s: State, memory: &[u8], n: u64) -> State
    ensures value { result ≡ clocks_on memory.now n s }
    ensures result_value { in_range s ≡ true → in_range result ≡ true }
{
    if memory.len() != 32768 || !s.in_range() {
        return s;
    }
    let mut words = [0u32; 2048];
    runs_on(s, memory, n, &mut words)
}
