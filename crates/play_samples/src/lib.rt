// A log as sound, step by step: the samples of its clocks, exact to the clock, as two bytes each in lent memory.
#![tactic(auto)]

ghost use Rattle.std.specs.Prelude.{◌≡◌, true, ◌+◌, ◌-◌, ◌*◌, ◌/◌, ◌≤◌, ◌<◌, leb, length};
ghost use Rattle.std.proofs.lemmas.List.Edits.{sets};
ghost use Rattle.arith.specs.Iterate.{iterate};
ghost use Rattle.arith.specs.Over.{over};
ghost use Rattle.arith.specs.Pick.{pick};
ghost use Rattle.chip.specs.Clock.{chip_clock};
ghost use Rattle.chip.specs.Range.{in_range};
ghost use Rattle.run_levels.specs.Levels.{clocks_levels};
ghost use Rattle.wav_sample.specs.Samples.{rate_right, clocks_before};
ghost use Rattle.wav_sample.specs.Sampler.{in_order};
ghost use Rattle.wav_sample.specs.Closed.{over_before};
ghost use Rattle.c_bytes.specs.Numbers.{wide_bytes};
ghost use Rattle.wav_write.specs.Bytes.{sample_bytes};
ghost use Rattle.play_walk.specs.Walk.{moment_of, walk_step};
ghost use Rattle.play_samples.specs.Writing.{Fit, size_of, Writes, word_levels, Recorded};
ghost use Rattle.play_samples.specs.Pens.{pace_of, pen_fresh, pen_next, pen_within, pen_mean, written_by, PenAt, Slow, Bounded, Fresh, Roomy, Draws};
ghost use Rattle.play_samples.specs.Stepping.{place_of, place_start, sampler_at, clocks_in, clocks_step, met_step, refusal_of, step_of, heard, passed_of, passed, NextIs};

use chip::State;
use play_walk::{Met, Moment};
use wav_sample::Sampler;

// A moment of a log, the clocks of its wait that are still to be worked, the sample under way, and its levels so far added up.
#[derive(Clone, Copy)]
pub struct Place {
    pub moment: Moment,
    pub left: u32,
    pub sample: u64,
    pub sum: u64,
}

// What a step brings: the end; nothing; so many samples; or a refusal's number and place.
// One flat answer and no Result: a step gives its place back in every case, so that `?` has nothing to hand on.
#[derive(Clone, Copy)]
pub enum Next {
    Over,
    Moved,
    Heard(u32),
    Refused(u8, usize),
}

// It, and the place behind the step.
#[derive(Clone, Copy)]
pub struct Passed {
    pub next: Next,
    pub place: Place,
}

// How samples follow each other on a machine at a rate: f / rate, the clocks that each has at least; f % rate, what is left over with each; and what that lacks of
// the rate, with which a clock more would be full.
#[derive(Clone, Copy)]
struct Pace {
    pal: bool,
    rate: u32,
    quotient: u32,
    remainder: u32,
    lack: u32,
}

// Between two records: the place behind the samples written, the clocks that the sample under way still lacks, those it has in all, its levels so far added up,
// and what is left over by its end: the end, times the rate, is so much below its number + 1, times f.
#[derive(Clone, Copy)]
struct Pen {
    place: usize,
    left: u32,
    whole: u32,
    sum: u32,
    part: u32,
}

// The place behind samples written, and the sampler then.
#[derive(Clone, Copy)]
struct Written {
    place: usize,
    sampler: Sampler,
}

// The clocks worked, the state behind them, the place behind their samples, and the sampler then.
#[derive(Clone, Copy)]
struct Worked {
    done: u32,
    state: State,
    place: usize,
    sampler: Sampler,
}

fn place_of(m: Moment, left: u32, sample: u64, sum: u64) -> Place
    ensures { result ≡ place_of m left sample sum }
{
    Place {
        moment: m,
        left,
        sample,
        sum,
    }
}

fn passed_of(n: Next, p: Place) -> Passed
    ensures { result ≡ passed_of n p }
{
    Passed { next: n, place: p }
}

// What a step brings that meets no clock, and the place behind it.
fn passed_at(n: Next, p: Place, m: Moment, left: u32) -> Passed
    ensures { result ≡ passed_of n (place_of m left p.sample p.sum) }
{
    let q = place_of(m, left, p.sample, p.sum);
    passed_of(n, q)
}

// At a log's beginning, on its machine.
pub fn start(log: &[u8]) -> Place
    ensures { result ≡ place_start log.now }
{
    let m = play_walk::start(log);
    place_of(m, 0, 0, 0)
}

// The sampler of a place.
fn sampler_at(p: Place) -> Sampler
    ensures { result ≡ sampler_at p }
{
    let m = p.moment;
    Sampler {
        clock: m.time,
        sample: p.sample,
        sum: p.sum,
    }
}

// The clocks before a sample.
fn clocks_before(pal: bool, rate: u64, sample: u64) -> u64
    requires { (rate_right rate ≡ true) × (sample ≤ 500000000) }
    ensures { result ≡ clocks_before pal rate sample }
{
    sample * clock_rate::clock_rate(pal) / rate
}

// The clocks up to an end; none where it is passed.
fn reach(end: u64, time: u64) -> u64
    ensures { result ≡ end - time }
{
    if end < time { 0 } else { end - time }
}

// The clocks of a wait that one step works. Room for more than 2,000,000 samples is room for any wait.
fn clocks_in(p: Place, rate: u32, room: usize) -> u32
    requires { Fit p.moment.state.pal rate (sampler_at p) p.left }
    ensures { result ≡ clocks_in rate room p }
{
    let m = p.moment;
    let s = m.state;
    let few = room.min(2000000) as u64;
    let end = clocks_before(s.pal, u64::from(rate), p.sample + few);
    u64::from(p.left).min(reach(end, m.time)) as u32
}

// How samples follow each other on a machine at a rate.
fn pace_of(pal: bool, rate: u32) -> Pace
    requires { rate_right rate ≡ true }
    ensures { result ≡ pace_of pal rate }
{
    let f = clock_rate::clock_rate(pal) as u32;
    Pace {
        pal,
        rate,
        quotient: f / rate,
        remainder: f % rate,
        lack: rate - f % rate,
    }
}

// What is left over where a sample begins.
fn over_before(pal: bool, rate: u64, sample: u64) -> u64
    requires { (rate_right rate ≡ true) × (sample ≤ 500000000) }
    ensures { result ≡ over_before pal rate sample }
{
    sample * clock_rate::clock_rate(pal) % rate
}

// The pen of a sampler, from a place on.
fn pen_of(a: Sampler, pal: bool, rate: u32, at: usize) -> Pen
    requires { (rate_right rate ≡ true) × (in_order pal rate a ≡ true) }
    ensures { (result.place ≡ at) × PenAt (pace_of pal rate) a result }
{
    let w = u64::from(rate);
    let begin = clocks_before(pal, w, a.sample);
    let end = clocks_before(pal, w, a.sample + 1);
    let part = over_before(pal, w, a.sample + 1);
    Pen {
        place: at,
        left: (end - a.clock) as u32,
        whole: (end - begin) as u32,
        sum: a.sum as u32,
        part: part as u32,
    }
}

// At a sample's beginning.
fn fresh(place: usize, whole: u32, part: u32) -> Pen
    ensures { result ≡ pen_fresh place whole part }
{
    Pen {
        place,
        left: whole,
        whole,
        sum: 0,
        part,
    }
}

// At the beginning of the sample behind one by whose end so much is left over. Where that makes a clock full, the sample has it.
fn next_pen(place: usize, part: u32, c: Pace) -> Pen
    requires { Slow c }
    ensures { result ≡ pen_next c place part }
{
    if part < c.lack {
        fresh(place, c.quotient, part + c.remainder)
    } else {
        fresh(place, c.quotient + 1, part - c.lack)
    }
}

// A level for some clocks.
fn weighed(v: u16, clocks: u32) -> u32
    requires { clocks ≤ 224 }
    ensures value { result ≡ v * clocks }
    ensures upper_bound { result ≤ 65535 * clocks }
{
    (v as u32) * clocks
}

// The mean of levels, rounded down.
fn mean(total: u32, clocks: u32) -> u32
    requires { (0 < clocks) × (clocks ≤ 224) × (total ≤ 65535 * clocks) }
    ensures { result ≡ total / clocks }
{
    total / clocks
}

// A sample from a place on.
fn put_sample(out: &mut [u8], at: usize, v: u16)
    requires { at + 2 ≤ length out.old }
    ensures { out.new ≡ sets out.old at (wide_bytes 2 v) }
{
    out[at] = (v % 256) as u8;
    out[at + 1] = (v / 256) as u8;
}

// A level held within the sample under way.
fn within(p: Pen, v: u16, clocks: u32) -> Pen
    requires { Bounded p × (clocks ≤ p.left) }
    ensures { result ≡ pen_within v clocks p }
{
    let own = weighed(v, clocks);
    Pen {
        place: p.place,
        left: p.left - clocks,
        whole: p.whole,
        sum: p.sum + own,
        part: p.part,
    }
}

// The sample under way, made whole by one level and written.
fn ended(out: &mut [u8], p: Pen, c: Pace, v: u16) -> Pen
    requires { Bounded p × Slow c × (p.place + 2 ≤ length out.old) }
    ensures value { result ≡ pen_next c (p.place + 2) p.part }
    ensures out_after { out.new ≡ sets out.old p.place (wide_bytes 2 (pen_mean v p)) }
{
    let at = p.place;
    let own = weighed(v, p.left);
    let m = mean(p.sum + own, p.whole);
    put_sample(out, at, m as u16);
    next_pen(at + 2, p.part, c)
}

// One level from a sample's beginning on: whole samples of it, and the rest of its clocks in the sample behind them.
fn filled(out: &mut [u8], p: Pen, c: Pace, v: u16, clocks: u32) -> Pen
    requires { Roomy c p v clocks (length out.old) × Fresh p }
    ensures { Draws c out.old p v clocks out.new result }
{
    let mut pen = p;
    let mut left = clocks;
    while pen.whole <= left {
        let at = pen.place;
        put_sample(out, at, v);
        left -= pen.whole;
        pen = next_pen(at + 2, pen.part, c);
    }
    within(pen, v, left)
}

// A level held for some clocks, its samples written from the pen's place on.
fn held_on(out: &mut [u8], p: Pen, c: Pace, v: u16, clocks: u32) -> Pen
    requires { Roomy c p v clocks (length out.old) }
    ensures { Draws c out.old p v clocks out.new result }
{
    if clocks < p.left {
        return within(p, v, clocks);
    }
    let q = ended(out, p, c, v);
    filled(out, q, c, v, clocks - p.left)
}

// What is written from a place on by a pen, so many clocks behind a sampler.
fn written_by(a: Sampler, at: usize, p: Pen, done: u32) -> Written
    requires { (a.clock ≤ 2000000000) × (a.sample ≤ 400000000) × (at ≤ p.place) }
    ensures { result ≡ written_by a at p done }
{
    let more = (p.place - at) / 2;
    let s = Sampler {
        clock: a.clock + u64::from(done),
        sample: a.sample + more as u64,
        sum: u64::from(p.sum),
    };
    Written {
        place: p.place,
        sampler: s,
    }
}

// The levels that the records of a run hold, from one level on, their samples written from a place on.
fn records_on(
    out: &mut [u8],
    at: usize,
    a: Sampler,
    pal: bool,
    rate: u32,
    level: u16,
    words: &[u32],
    n: usize,
    done: u32,
) -> Written
    requires fit { Fit pal rate a done }
    requires recorded { Recorded words.now n done }
    requires done_in_bounds { at + size_of pal rate a (word_levels level n words.now done) ≤ length out.old }
    ensures { Writes pal rate out.old at a (word_levels level n words.now done) out.new result.place result.sampler }
{
    let c = pace_of(pal, rate);
    let mut pen = pen_of(a, pal, rate, at);
    let mut v = level;
    let mut from: u32 = 0;
    for i in 0..n {
        let k = 2 * i;
        let j = k + 1;
        let clock = words[k] - 1;
        pen = held_on(out, pen, c, v, clock - from);
        v = words[j] as u16;
        from = clock;
    }
    let last = held_on(out, pen, c, v, done - from);
    written_by(a, at, last, done)
}

// One run: its clocks' samples written from a place on. It ends early where the words are full, and does a clock at least.
fn run_on(
    s: State,
    memory: &[u8],
    left: u32,
    words: &mut [u32],
    out: &mut [u8],
    at: usize,
    a: Sampler,
    pal: bool,
    rate: u32,
) -> Worked
    requires memory_len { (length memory.now ≡ 32768) × (in_range s ≡ true) × (2 ≤ length words.old) × (0 < left) }
    requires fit { Fit pal rate a left }
    requires s_in_bounds { at + size_of pal rate a (clocks_levels memory.now left s) ≤ length out.old }
    ensures done_nonzero { (0 < result.done) × (result.done ≤ left) × (in_range result.state ≡ true) }
    ensures state_value { result.state ≡ iterate (chip_clock memory.now) result.done s }
    ensures writes { Writes pal rate out.old at a (clocks_levels memory.now result.done s) out.new result.place result.sampler }
{
    let v = s.level();
    let r = run::uncounted(s, memory, u64::from(left).min(1000000), words);
    let w = records_on(out, at, a, pal, rate, v, words, r.records as usize, r.done);
    let far = r.state;
    let behind = w.sampler;
    Worked {
        done: r.done,
        state: far,
        place: w.place,
        sampler: behind,
    }
}

// k clocks, run by run, their samples written over the lent bytes.
fn runs_on(
    s: State,
    memory: &[u8],
    k: u32,
    words: &mut [u32],
    out: &mut [u8],
    a: Sampler,
    rate: u32,
) -> Worked
    requires memory_len { (length memory.now ≡ 32768) × (in_range s ≡ true) × (2 ≤ length words.old) }
    requires fit { Fit s.pal rate a k }
    requires s_in_bounds { size_of s.pal rate a (clocks_levels memory.now k s) ≤ length out.old }
    ensures state_value { result.state ≡ iterate (chip_clock memory.now) k s }
    ensures writes { Writes s.pal rate out.old 0 a (clocks_levels memory.now k s) out.new result.place result.sampler }
{
    let pal = s.pal;
    let mut state = s;
    let mut left = k;
    let mut place = 0;
    let mut sampler = a;
    while 0 < left {
        let w = run_on(state, memory, left, words, out, place, sampler, pal, rate);
        left -= w.done;
        state = w.state;
        place = w.place;
        sampler = w.sampler;
    }
    Worked {
        done: k,
        state,
        place,
        sampler,
    }
}

// The place behind k clocks of a wait that led to a state and a sampler.
fn clocks_past(p: Place, k: u32, w: Worked) -> Place
    requires { p.moment.time ≤ 4000000000 }
    ensures { result ≡ place_of (moment_of p.moment.cursor w.state (p.moment.time + k)) (p.left - k) w.sampler.sample w.sampler.sum }
{
    let m = p.moment;
    let c = m.cursor;
    let s = w.state;
    let a = w.sampler;
    let here = play_walk::moment_of(c, s, m.time + u64::from(k));
    place_of(here, p.left.saturating_sub(k), a.sample, a.sum)
}

// Clocks of a wait, as many as there is room for.
fn clocks_step(p: Place, memory: &[u8], rate: u32, out: &mut [u8]) -> Passed
    requires memory_len { (length memory.now ≡ 32768) × (in_range p.moment.state ≡ true) }
    requires fit { Fit p.moment.state.pal rate (sampler_at p) p.left }
    ensures value { result ≡ passed (clocks_step memory.now rate (clocks_in rate (length out.old / 2) p) p) }
    ensures out_after { out.new ≡ over (sample_bytes (heard (clocks_step memory.now rate (clocks_in rate (length out.old / 2) p) p).said)) out.old }
{
    let m = p.moment;
    let s = m.state;
    let k = clocks_in(p, rate, out.len() / 2);
    let a = sampler_at(p);
    let mut words = [0u32; 2048];
    let w = runs_on(s, memory, k, &mut words, out, a, rate);
    let count = (w.place / 2) as u32;
    passed_of(Next::Heard(count), clocks_past(p, k, w))
}

// What a step of the walk met, and the moment behind it.
#[tactic(auto, unfolding(crate::specs::Stepping::met_step))]
fn met_step(p: Place, x: Met, m: Moment) -> Passed
    ensures { result ≡ passed (met_step p x m) }
{
    match x {
        Met::Moved | Met::Access(_, _, _) => passed_at(Next::Moved, p, m, 0),
        Met::Wait(n) => passed_at(Next::Moved, p, m, n),
        Met::End => passed_at(Next::Over, p, m, 0),
        Met::Refused(k, q) => passed_at(Next::Refused(k, q), p, m, 0),
    }
}

// A step of the log.
fn log_step(p: Place, log: &[u8]) -> Passed
    ensures { result ≡ passed (met_step p (walk_step log.now p.moment).met (walk_step log.now p.moment).moment) }
{
    let m = p.moment;
    let w = play_walk::step(log, m);
    let met = w.met;
    let here = w.moment;
    met_step(p, met, here)
}

// Whether the clocks done and those of the wait are no more than a log has.
fn early(time: u64, left: u32) -> bool
    ensures { result ≡ leb (time + left) 2000000000 }
{
    if 2000000000 < time {
        return false;
    }
    time + u64::from(left) <= 2000000000
}

// What refuses a rate or the sample under way.
fn sample_refusal(p: Place, rate: u32) -> u8
    ensures { result ≡ pick (rate_right rate) (pick (in_order p.moment.state.pal rate (sampler_at p)) 0 2) 33 }
{
    let m = p.moment;
    let s = m.state;
    let a = sampler_at(p);
    if !wav_sample::rate_right(rate) {
        return 33;
    }
    if !wav_sample::in_order(a, s.pal, rate) {
        return 2;
    }
    0
}

// What refuses a place or a rate: 1, 2, 3, 9 or 33; 0 where nothing does.
pub fn refusal_of(p: Place, memory: &[u8], rate: u32) -> u8
    ensures { result ≡ refusal_of memory.now rate p }
{
    let m = p.moment;
    let s = m.state;
    if memory.len() != 32768 {
        return 1;
    }
    if !s.in_range() {
        return 2;
    }
    if 1000000 < p.left {
        return 3;
    }
    if !early(m.time, p.left) {
        return 9;
    }
    sample_refusal(p, rate)
}

// One step: a line of the log, or clocks of a wait, their samples written over the first of the lent bytes, at most as many as these have room for. Refused: 1,
// 2, 3, 9 and 33 at 0, and a line at fault.
pub fn step(p: Place, log: &[u8], memory: &[u8], rate: u32, out: &mut [u8]) -> Passed
    ensures value { result ≡ passed (step_of log.now memory.now rate (length out.old / 2) p) }
    ensures next_is { NextIs (step_of log.now memory.now rate (length out.old / 2) p).said result.next }
    ensures out_after { out.new ≡ over (sample_bytes (heard (step_of log.now memory.now rate (length out.old / 2) p).said)) out.old }
{
    let k = refusal_of(p, memory, rate);
    if k != 0 {
        return passed_of(Next::Refused(k, 0), p);
    }
    if p.left == 0 {
        return log_step(p, log);
    }
    clocks_step(p, memory, rate, out)
}
