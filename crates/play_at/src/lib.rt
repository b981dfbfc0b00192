// The state of the chip at a clock of a log.
#![tactic(auto)]

ghost use Rattle.std.specs.Prelude.{◌≡◌, true, length};
ghost use Rattle.chip.specs.Range.{in_range, power_on};
ghost use Rattle.recording.specs.Whole.{machine_of};
ghost use Rattle.log_rules.specs.Tree.{acts};
ghost use Rattle.recording.specs.Whole.{tree_of, check_of};
ghost use Rattle.play_at.specs.Reached.{at_of, refused_at, reached, state_at};
ghost use Rattle.play_at.specs.Walking.{stand_of, wait_to, met_to, Fine};

use chip::State;
use play_walk::{Met, Moment};

// The answer: the clock that was reached, and the state there; refused, a number and its place, clock 0 and the state at power-on (NTSC's).
// Flat, with the number first, as document 01 has it: "a refusal returns its number and place, the state as given, 0 or no for the rest" (`refused_at`).
#[derive(Clone, Copy)]
pub struct At {
    pub number: u8,
    pub place: usize,
    pub clock: u64,
    pub state: State,
}

// A moment of a log, and whether it is the one that was asked for.
#[derive(Clone, Copy)]
pub struct Stand {
    pub over: bool,
    pub moment: Moment,
}

fn stand_of(over: bool, m: Moment) -> Stand
    ensures { result ≡ stand_of over m }
{
    Stand { over, moment: m }
}

fn at_of(time: u64, s: State) -> At
    ensures { result ≡ at_of time s }
{
    At {
        number: 0,
        place: 0,
        clock: time,
        state: s,
    }
}

fn refused_at(number: u8, place: usize) -> At
    ensures { result ≡ refused_at number place }
{
    At {
        number,
        place,
        clock: 0,
        state: chip::power_on(false),
    }
}

// A wait, cut at the clock.
fn wait_to(m: Moment, memory: &[u8], clock: u64, n: u32) -> Stand
    requires { (length memory.now ≡ 32768) × Fine clock m }
    ensures value { result ≡ wait_to memory.now clock n m }
    ensures fine { Fine clock result.moment }
{
    let s = m.state;
    let c = m.cursor;
    let left = clock - m.time;
    let wait = u64::from(n);
    if left < wait {
        let cut = play_walk::clocks_on(s, memory, left);
        return stand_of(true, play_walk::moment_of(c, cut, clock));
    }
    let next = play_walk::clocks_on(s, memory, wait);
    stand_of(false, play_walk::moment_of(c, next, m.time + wait))
}

// What a step of the walk met, and the moment behind it.
#[tactic(auto, unfolding(crate::specs::Walking::met_to))]
fn met_to(x: Met, m: Moment, memory: &[u8], clock: u64) -> Stand
    requires { (length memory.now ≡ 32768) × Fine clock m }
    ensures value { result ≡ met_to memory.now clock x m }
    ensures fine { Fine clock result.moment }
{
    match x {
        Met::Moved | Met::Access(_, _, _) => stand_of(false, m),
        Met::Wait(n) => wait_to(m, memory, clock, n),
        Met::End | Met::Refused(_, _) => stand_of(true, m),
    }
}

// A log that passes, from its beginning, on its machine, to the clock or its end, within as many steps as the cursor takes at most.
fn walk(log: &[u8], memory: &[u8], clock: u64) -> At
    requires { ((check_of log.now).number ≡ 0) × (length memory.now ≡ 32768) }
    ensures value { result ≡ reached memory.now clock (acts (tree_of log.now)) 0 (power_on (machine_of log.now)) }
    ensures state_value { in_range result.state ≡ true }
{
    let mut m = play_walk::start(log);
    for _ in 0..2000002u32 {
        let w = play_walk::step(log, m);
        let t = met_to(w.met, w.moment, memory, clock);
        m = t.moment;
        if t.over {
            return at_of(m.time, m.state);
        }
    }
    at_of(m.time, m.state)
}

// The state at a clock of a log, all accesses stamped up to that clock done; at the log's end where that comes before. Refused: 1 at 0, and
// then what the log's check refuses.
pub fn state_at(log: &[u8], memory: &[u8], clock: u64) -> At
    ensures value { result ≡ state_at log.now memory.now clock }
    ensures state_value { in_range result.state ≡ true }
{
    if memory.len() != 32768 {
        return refused_at(1, 0);
    }
    let k = recording::check(log);
    if k.number != 0 {
        return refused_at(k.number, k.place);
    }
    walk(log, memory, clock)
}
