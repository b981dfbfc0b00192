// The leaping run: from frame step to frame step, each channel brought up only when what it gives may change.
//
// A run goes stretch by stretch (`run_on`): the clocks before the next frame step, or all that are left but the last (`next_stretch`). In a stretch only timers
// move, and what hangs on them, so for each channel the clock of its next event, at which what it gives may change, has a closed form. `stretch_on` goes from
// event to event. Whoever is due is brought up to its clock, the level is mixed anew, and where it differs a record is written.
//
// Most events are of squares and triangle, so three loops stand one in the other: `voices_on` has those events, `sounds_on` the noise's around them, and
// `stretch_on` the DMC's. An inner loop ends where an outer channel is due, at the stretch's end, or before an event for whose record there may be no room.
// What the inner loop keeps stands in registers. Each loop has one caller, so that the compiler makes one function of them.
//
// At its end the whole state is made by closed forms: a stretch without an event is passed in one leap, by the law of the leap. The clock behind it, which may
// bring a frame step, is worked as it stands; its record is written where the next stretch begins, which finds that level anyway. The dwell table is settled at
// the DMC's events and at a stretch's end, since its level stands in between. Only where a count might reach its limit the DMC is walked first (`walk`), for the
// clocks that no count stops.
#![tactic(auto)]

ghost use Rattle.std.specs.Prelude.{◌≡◌, true, false, not, ℕ, ◌+◌, ◌-◌, ◌/◌, ◌≤◌, ◌<◌, eqb, ltb, length, get_or};
ghost use Rattle.arith.specs.Pick.{pick};
ghost use Rattle.leap_law.specs.Frame.{before_step};
ghost use Rattle.chip.specs.Level.{state_level};
ghost use Rattle.chip.specs.Range.{in_range};
ghost use Rattle.arith.specs.Over.{over};
ghost use Rattle.reading.specs.Counting.{raise};
ghost use Rattle.reading.proofs.CountingLaws.{tallied};
ghost use Rattle.run_answer.specs.Run.{uncounted_answer, answered, uncounted_lent, read_by, flat, stored};
ghost use Rattle.run_dwell.specs.Dwell.{dwell_limit, counts_within, dwell_by, run_answered, run_answer, run_lent};
ghost use Rattle.run_dwell.specs.Kept.{dwell_places};
ghost use Rattle.run_walk.specs.Walk.{Open};
ghost use Rattle.run_walk.specs.Settle.{Roomy};
ghost use Rattle.run_loops.specs.Leap.{stretch_end, marked_records, marked_words};
ghost use Rattle.run_loops.specs.Stretch.{Standing, Worked, Stretched};

use chip::State;
use leap_stretch::Lags;
use run_answer::Ran;
use run_dwell::Counted;
use run_loops::Stretch;

// The channels after some events, and the records written so far.
#[derive(Clone, Copy)]
pub struct Part {
    pub lags: Lags,
    pub records: u32,
}

// Record n, where the level is another than it was; the records then.
fn mark(words: &mut [u32], n: u32, clock: u32, level: u16, was: u16) -> u32
    requires { n ≤ 1000000 }
    ensures value { result ≡ pick (eqb level was) n (n + 1) }
    ensures words_after { words.new ≡ pick (eqb level was) words.old (stored words.old n clock level) }
{
    if level == was {
        return n;
    }
    run_answer::put(words, n as usize, clock, u32::from(level));
    n + 1
}

// Where the triangle stands for at most so many clocks, most events are its own.
const SOON: u32 = 64;

// Events of squares and triangle alone: this loop keeps nothing else, so what it keeps stands in registers. Squares are looked at at each event, but
// where the triangle changes so soon that they seldom are due: then only where one is.
fn voices_on(
    s: State,
    memory: &[u8],
    first: Lags,
    end: u32,
    base: u32,
    words: &mut [u32],
    records: u32,
) -> Part
    requires { Standing memory.now s end base words.old first records }
    ensures worked { Worked memory.now s end base first.now records words.old words.new result.lags result.records }
    ensures dmc_value { result.lags.dmc ≡ first.dmc }
{
    let room = words.len() / 2;
    let until = run_loops::voices_until(first, end);
    let others = leap_stretch::others_of(first);
    let each = SOON < first.triangle.still;
    let mut v = leap_stretch::voices_of(first);
    let mut level = first.level;
    let mut n = records;
    while run_loops::goes(v.next, until, n, room) {
        let e = v.next as u32;
        let r = v.renewed(each, e);
        let after = r.level(others);
        n = mark(words, n, base + e, after, level);
        v = r;
        level = after;
    }
    let l = leap_stretch::lags_with(first, v, level);
    Part {
        lags: l,
        records: n,
    }
}

// Events at which the DMC is not due.
fn sounds_on(
    s: State,
    memory: &[u8],
    first: Lags,
    end: u32,
    base: u32,
    words: &mut [u32],
    records: u32,
) -> Part
    requires { Standing memory.now s end base words.old first records }
    ensures worked { Worked memory.now s end base first.now records words.old words.new result.lags result.records }
    ensures dmc_value { result.lags.dmc ≡ first.dmc }
{
    let room = words.len() / 2;
    let mut l = first;
    let mut n = records;
    while run_loops::goes(l.next, run_loops::sounds_until(l, end), n, room) {
        let e = l.next as u32;
        let r = leap_stretch::renew_sounds(l, e);
        let m = mark(words, n, base + e, r.level, l.level);
        let p = voices_on(s, memory, r, end, base, words, m);
        l = p.lags;
        n = p.records;
    }
    Part {
        lags: l,
        records: n,
    }
}

// The last clock up to `end` that is before `next`.
fn brink(end: u32, next: u64) -> u32
    requires { 1 ≤ next }
    ensures upper_bound { (result ≤ end) × (result < next) }
    ensures by_index { (k : ℕ) → k ≤ end → k < next → k ≤ result }
{
    if next <= u64::from(end) {
        return (next - 1) as u32;
    }
    end
}

// The table with so many clocks more at one level of the DMC.
fn settle(table: &mut [u32; 128], level: u8, clocks: u32)
    requires level_bound { level ≤ 127 }
    requires clocks_bound { get_or table.old level 0 + clocks ≤ dwell_limit }
    ensures { table.new ≡ raise level clocks table.old }
{
    let place = level as usize;
    let dwelt = table[place];
    table[place] = dwelt + clocks;
}

// The clocks up to `end`, none of which brings a frame step, event by event. The DMC's level stands from event to event of its own, so the table is
// settled there: `settled` clocks are counted. Before the stretch the level was `was`; where it begins with another, that clock's record comes first.
fn stretch_on(
    s: State,
    memory: &[u8],
    was: u16,
    end: u32,
    base: u32,
    words: &mut [u32],
    records: u32,
    table: &mut [u32; 128],
) -> Stretch
    requires s_value { in_range s ≡ true }
    requires end_bound { end ≤ before_step s }
    requires end_bound_2 { base + end ≤ 1000000 }
    requires was_bound { (marked_records records (state_level s) was ≤ base) × (marked_records records (state_level s) was ≤ length words.old / 2) }
    requires roomy { Roomy memory.now s table.old end }
    ensures stretched { Stretched memory.now s end base (marked_records records (state_level s) was) (marked_words words.old records base (state_level s) was) words.new result }
    ensures table_after { table.new ≡ tallied (dwell_places memory.now s) result.clocks table.old }
{
    let mut l = leap_stretch::lags_of(s);
    let mut n = mark(words, records, base, l.level, was);
    let room = words.len() / 2;
    let mut settled: u32 = 0;
    while run_loops::goes(l.next, u64::from(end) + 1, n, room) {
        let e = l.next as u32;
        settle(table, l.dmc.out, e - 1 - settled);
        settled = e - 1;
        let r = leap_stretch::renew(l, memory, e);
        let m = mark(words, n, base + e, r.level, l.level);
        let p = sounds_on(s, memory, r, end, base, words, m);
        l = p.lags;
        n = p.records;
    }
    let stop = brink(end, l.next);
    settle(table, l.dmc.out, stop - settled);
    let last = leap_stretch::state_at(s, l, stop);
    Stretch {
        state: last,
        clocks: stop,
        records: n,
        level: l.level,
    }
}

// The record of the clock before, where it is owed, and the clocks before the next frame step, or all that are left but the last, which `run_on` works by
// itself.
fn next_stretch(
    s: State,
    memory: &[u8],
    was: u16,
    left: u32,
    base: u32,
    words: &mut [u32],
    records: u32,
    table: &mut [u32; 128],
) -> Stretch
    requires s_value { in_range s ≡ true }
    requires le_left { (1 ≤ left) × (base + left ≤ 1000000) }
    requires was_bound { (marked_records records (state_level s) was ≤ base) × (marked_records records (state_level s) was ≤ length words.old / 2) }
    requires roomy { Roomy memory.now s table.old left }
    ensures stretched { Stretched memory.now s (stretch_end left s) base (marked_records records (state_level s) was) (marked_words words.old records base (state_level s) was) words.new result }
    ensures table_after { table.new ≡ tallied (dwell_places memory.now s) result.clocks table.old }
{
    let end = (left - 1).min(leap_law::before_step(s));
    stretch_on(s, memory, was, end, base, words, records, table)
}

// Whether a clock after which the state is `next` brings another level and there is no room for its record.
fn stuck(next: State, level: u16, n: u32, room: usize) -> bool
    ensures { result ≡ pick (ltb n room) false (not (eqb (state_level next) level)) }
{
    if (n as usize) < room {
        return false;
    }
    let after = next.level();
    after != level
}

// A run that nothing refuses, with its counts: stretch by stretch, and the clock behind each, which may bring a frame step, by itself. Its record is
// written where the next stretch begins, whose channels give its level: `level` is that before it.
fn run_on(s: State, memory: &[u8], count: u32, words: &mut [u32], table: &mut [u32; 128]) -> Ran
    requires s_value { in_range s ≡ true }
    requires count_bound { count ≤ 1000000 }
    requires roomy { Roomy memory.now s table.old count }
    ensures value { result ≡ answered 0 s (read_by memory.now s count words.old) }
    ensures words_after { words.new ≡ over (flat (read_by memory.now s count words.old).marks) words.old }
    ensures table_after { table.new ≡ tallied (dwell_places memory.now s) result.done table.old }
{
    let room = words.len() / 2;
    let mut state = s;
    let mut level = s.level();
    let mut done: u32 = 0;
    let mut n: u32 = 0;
    while done < count {
        let g = next_stretch(state, memory, level, count - done, done, words, n, table);
        let from = g.state;
        let at = done + g.clocks;
        let m = g.records;
        let next = from.clocked(memory);
        let full = stuck(next, g.level, m, room);
        if full {
            return Ran {
                number: 0,
                state: from,
                done: at,
                records: m,
            };
        }
        settle(table, next.dmc.output.level, 1);
        state = next;
        level = g.level;
        done = at + 1;
        n = m;
    }
    let after = state.level();
    let written = mark(words, n, done, after, level);
    Ran {
        number: 0,
        state,
        done,
        records: written,
    }
}

// A run whose counts nobody asks for, leaping wherever nothing can change: by the chip without counts. Its table is dropped.
pub fn uncounted(s: State, memory: &[u8], count: u64, words: &mut [u32]) -> Ran
    ensures value { result ≡ uncounted_answer memory.now s count words.old }
    ensures words_after { words.new ≡ uncounted_lent memory.now s count words.old }
{
    let number = run_answer::number_of(s, memory, count);
    if number != 0 {
        return run_answer::refuse(number, s);
    }
    let mut table = [0u32; 128];
    run_on(s, memory, count as u32, words, &mut table)
}

// The clocks before one that a count stops, or all: the DMC goes by itself, and its level stands from change to change.
fn walk(s: State, memory: &[u8], counts: [u32; 128], count: u32) -> u32
    requires s_value { in_range s ≡ true }
    requires count_bound { count ≤ 1000000 }
    requires counts_value { counts_within dwell_limit counts ≡ true }
    ensures { Open memory.now s counts count result }
{
    let period = chip_tables::dmc_period(s.pal, s.dmc.registers.index);
    let mut table = counts;
    let mut d = s.dmc;
    let mut at: u32 = 0;
    let mut walked: u32 = 0;
    while walked < count {
        let place = d.output.level as usize;
        let last = run_walk::last_at(at, leap_dmc::still_for(d, period), count);
        let left = last - walked;
        let dwelt = table[place];
        let g = left.min(4000000000 - dwelt);
        table[place] = dwelt + g;
        walked += g;
        if g < left {
            return walked;
        }
        let brink = leap_dmc::at_brink(d);
        let timed = brink.timed(period);
        d = timed.fed(memory);
        at = last + 1;
    }
    walked
}

// The clocks of a run that no count stops: all of them where no count can reach the limit.
fn open_clocks(s: State, memory: &[u8], counts: [u32; 128], count: u32) -> u32
    requires s_value { in_range s ≡ true }
    requires count_bound { count ≤ 1000000 }
    requires counts_value { counts_within dwell_limit counts ≡ true }
    ensures { Open memory.now s counts count result }
{
    if run_dwell::within(counts, 4000000000 - count) {
        return count;
    }
    walk(s, memory, counts, count)
}

// A run with its counts that nothing refuses: the clocks that no count stops, and the table after those that were done.
fn run_counted(
    s: State,
    memory: &[u8],
    counts: [u32; 128],
    count: u32,
    words: &mut [u32],
) -> Counted
    requires s_value { in_range s ≡ true }
    requires count_bound { count ≤ 1000000 }
    requires counts_value { counts_within dwell_limit counts ≡ true }
    ensures value { result ≡ run_answered 0 s counts (dwell_by memory.now s counts count words.old) }
    ensures words_after { words.new ≡ over (flat (dwell_by memory.now s counts count words.old).marks) words.old }
{
    let most = open_clocks(s, memory, counts, count);
    let mut table = counts;
    let ran = run_on(s, memory, most, words, &mut table);
    Counted { ran, counts: table }
}

// A run with its dwell table, leaping wherever nothing can change.
pub fn run(s: State, memory: &[u8], counts: [u32; 128], count: u64, words: &mut [u32]) -> Counted
    ensures value { result ≡ run_answer memory.now s counts count words.old }
    ensures words_after { words.new ≡ run_lent memory.now s counts count words.old }
{
    let number = run_dwell::number_of(s, memory, counts, count);
    if number != 0 {
        return run_dwell::refuse(number, s, counts);
    }
    run_counted(s, memory, counts, count as u32, words)
}
