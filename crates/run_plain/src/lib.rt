// The run that works every clock.
#![tactic(auto)]

ghost use Rattle.std.specs.Prelude.{◌≡◌, true, ◌+◌, ◌-◌, ◌≤◌, ◌<◌, ltb, eqb, length, get_or};
ghost use Rattle.arith.specs.Pick.{pick, both};
ghost use Rattle.arith.specs.Over.{over};
ghost use Rattle.reading.specs.Counting.{raise};
ghost use Rattle.chip.specs.Level.{state_level};
ghost use Rattle.chip.specs.Range.{in_range};
ghost use Rattle.run_answer.specs.Run.{flat, stored};
ghost use Rattle.run_dwell.specs.Dwell.{dwell_limit, dwell_place, counts_within, dwell_by, run_answered, run_answer, run_lent};
ghost use Rattle.run_plain.specs.Calm.{is_calm, calm_clock};
ghost use Rattle.run_plain.specs.Heard.{given_of, mixed_of, heard_of, silence};
ghost use Rattle.run_plain.specs.Going.{Begun, Spare, Stretched, Ended};

use chip::State;
use run_answer::Ran;
use run_dwell::Counted;

// What the five channels give.
#[derive(Clone, Copy, PartialEq, Eq)]
pub struct Given {
    pub square1: u8,
    pub square2: u8,
    pub triangle: u8,
    pub noise: u8,
    pub dmc: u8,
}

// What was given, and the level that it is mixed to.
#[derive(Clone, Copy)]
pub struct Heard {
    pub given: Given,
    pub level: u16,
}

// Where a run stands between two clocks: the clocks done, the records written and the level.
#[derive(Clone, Copy)]
pub struct Stand {
    pub state: State,
    pub done: u32,
    pub records: u32,
    pub level: u16,
}

#[tactic(auto, unfolding(crate::specs::Heard::given_of))]
fn given_of(s: State) -> Given
    ensures { result ≡ given_of s }
{
    Given {
        square1: s.square1.output(false),
        square2: s.square2.output(true),
        triangle: s.triangle.output(),
        noise: s.noise.output(),
        dmc: s.dmc.output_of(),
    }
}

// The level that it is mixed to.
#[tactic(auto, unfolding(crate::specs::Heard::mixed_of))]
fn mixed_of(g: Given) -> u16
    ensures { result ≡ mixed_of g }
{
    chip_mixer::mix(
        u32::from(g.square1),
        u32::from(g.square2),
        u32::from(g.triangle),
        u32::from(g.noise),
        u32::from(g.dmc),
    )
}

// Nothing given.
fn silent() -> Heard
    ensures { result ≡ silence }
{
    let none = Given {
        square1: 0,
        square2: 0,
        triangle: 0,
        noise: 0,
        dmc: 0,
    };
    Heard {
        given: none,
        level: 0,
    }
}

// What a state gives and its level, mixed anew only where something else is given.
#[tactic(auto, unfolding(crate::specs::Heard::heard_of), using(crate::proofs::HeardLaws::level_given, crate::proofs::HeardLaws::heard_same))]
fn heard_of(h: Heard, s: State) -> Heard
    requires { h.level ≡ mixed_of h.given }
    ensures { result ≡ heard_of s }
{
    let given = given_of(s);
    if given == h.given {
        return h;
    }
    Heard {
        given,
        level: mixed_of(given),
    }
}

// Whether the next clock brings no frame step.
#[tactic(auto, unfolding(crate::specs::Calm::is_calm))]
fn is_calm(s: State) -> bool
    ensures { result ≡ is_calm s }
{
    let times = chip_tables::frame_times(s.pal);
    s.frame.next_step(times) == 0
}

// A clock that brings no frame step, by itself: in a loop of such clocks all that only a step changes stands still.
fn calm_clocked(s: State, memory: &[u8]) -> State
    ensures { result ≡ calm_clock memory.now s }
{
    let noise_period = chip_tables::noise_period(s.pal, s.noise.index);
    let dmc_period = chip_tables::dmc_period(s.pal, s.dmc.registers.index);
    let times = chip_tables::frame_times(s.pal);
    let timed = s.dmc.timed(dmc_period);
    let mut dmc = timed;
    dmc.reader = timed.reader.clocked(memory, timed.registers);
    let mut c = s;
    c.square1 = s.square1.timed();
    c.square2 = s.square2.timed();
    c.triangle = s.triangle.timed();
    c.noise = s.noise.timed(noise_period);
    c.dmc = dmc;
    c.frame = s.frame.moved(times);
    c
}

// Whether a clock is left before `until` and room for its record.
fn goes(done: u32, until: u32, n: u32, room: usize) -> bool
    ensures { result ≡ both (ltb done until) (ltb n room) }
{
    done < until && (n as usize) < room
}

// Up to which clock no count can pass its limit: all clocks, or none.
fn free_until(counts: [u32; 128], count: u32) -> u32
    requires { count ≤ 1000000 }
    ensures { result ≡ pick (counts_within (dwell_limit - count) counts) count 0 }
{
    if run_dwell::within(counts, 4000000000 - count) {
        return count;
    }
    0
}

// What a clock done leaves: one more at its place in the table, and its record where the level is another; the records then.
fn note(
    s: State,
    clock: u32,
    level: u16,
    was: u16,
    n: u32,
    table: &mut [u32],
    words: &mut [u32],
) -> u32
    requires n_bound { n ≤ 1000000 }
    requires s_bound { (dwell_place s ≤ 127) × (length table.old ≡ 128) }
    requires s_bound_2 { get_or table.old (dwell_place s) 0 < dwell_limit }
    ensures value { result ≡ pick (eqb level was) n (n + 1) }
    ensures words_after { words.new ≡ pick (eqb level was) words.old (stored words.old n clock level) }
    ensures table_after { table.new ≡ raise (dwell_place s) 1 table.old }
{
    let place = s.dmc.output.level as usize;
    let dwelt = table[place];
    table[place] = dwelt + 1;
    if level == was {
        return n;
    }
    run_answer::put(words, n as usize, clock, u32::from(level));
    n + 1
}

// Clocks up to the next frame step, to `until`, or until the room is used up. No count stops one of them, so that the state before a clock is not kept.
fn stretch(first: Stand, memory: &[u8], until: u32, table: &mut [u32], words: &mut [u32]) -> Stand
    requires begun { Begun memory.now words.old table.old first.state first.done first.records }
    requires done_le_until { (first.done ≤ until) × (until ≤ 1000000) × (first.level ≡ state_level first.state) }
    requires spare { Spare until first.done table.old }
    ensures { Stretched memory.now until first words.old table.old words.new table.new result }
{
    let room = words.len() / 2;
    let mut state = first.state;
    let mut heard = silent();
    let mut level = first.level;
    let mut done = first.done;
    let mut n = first.records;
    while goes(done, until, n, room) && is_calm(state) {
        let next = calm_clocked(state, memory);
        let after = heard_of(heard, next);
        n = note(next, done + 1, after.level, level, n, table, words);
        done += 1;
        state = next;
        level = after.level;
        heard = after;
    }
    Stand {
        state,
        done,
        records: n,
        level,
    }
}

// The clocks that are left, the state before each kept: a count or the want of room may stop the run there.
fn rest(
    s: State,
    memory: &[u8],
    counts: [u32; 128],
    count: u32,
    words: &mut [u32],
    from: u32,
    records: u32,
) -> Counted
    requires begun { Begun memory.now words.old counts s from records }
    requires from_le_count { (from ≤ count) × (count ≤ 1000000) }
    ensures { Ended memory.now count words.old counts s from records words.new result }
{
    let room = words.len() / 2;
    let mut table = counts;
    let mut state = s;
    let mut level = s.level();
    let mut done = from;
    let mut n = records;
    while done < count {
        let next = state.clocked(memory);
        let place = next.dmc.output.level as usize;
        let dwelt = table[place];
        if 4000000000 <= dwelt {
            let full = Ran {
                number: 0,
                state,
                done,
                records: n,
            };
            return Counted {
                ran: full,
                counts: table,
            };
        }
        let after = next.level();
        if after == level {
            table[place] = dwelt + 1;
            state = next;
            done += 1;
        } else {
            let at = n as usize;
            if room <= at {
                let early = Ran {
                    number: 0,
                    state,
                    done,
                    records: n,
                };
                return Counted {
                    ran: early,
                    counts: table,
                };
            }
            run_answer::put(words, at, done + 1, u32::from(after));
            table[place] = dwelt + 1;
            state = next;
            level = after;
            done += 1;
            n += 1;
        }
    }
    let last = Ran {
        number: 0,
        state,
        done,
        records: n,
    };
    Counted {
        ran: last,
        counts: table,
    }
}

// Every clock worked and counted: from frame step to frame step while no count can pass its limit and there is room, then one by one.
fn work(s: State, memory: &[u8], counts: [u32; 128], count: u32, words: &mut [u32]) -> Counted
    requires s_value { in_range s ≡ true }
    requires count_bound { count ≤ 1000000 }
    ensures value { result ≡ run_answered 0 s counts (dwell_by memory.now s counts count words.old) }
    ensures words_after { words.new ≡ over (flat (dwell_by memory.now s counts count words.old).marks) words.old }
{
    let room = words.len() / 2;
    let until = free_until(counts, count);
    let mut table = counts;
    let mut state = s;
    let mut level = s.level();
    let mut done: u32 = 0;
    let mut n: u32 = 0;
    while goes(done, until, n, room) {
        let next = state.clocked(memory);
        let after = next.level();
        let m = note(next, done + 1, after, level, n, &mut table, words);
        let first = Stand {
            state: next,
            done: done + 1,
            records: m,
            level: after,
        };
        let last = stretch(first, memory, until, &mut table, words);
        state = last.state;
        done = last.done;
        n = last.records;
        level = last.level;
    }
    rest(state, memory, table, count, words, done, n)
}

// A run, clock by clock.
pub fn run_plain(
    s: State,
    memory: &[u8],
    counts: [u32; 128],
    count: u64,
    words: &mut [u32],
) -> Counted
    ensures value { result ≡ run_answer memory.now s counts count words.old }
    ensures words_after { words.new ≡ run_lent memory.now s counts count words.old }
{
    let number = run_dwell::number_of(s, memory, counts, count);
    if number != 0 {
        return run_dwell::refuse(number, s, counts);
    }
    work(s, memory, counts, count as u32, words)
}
