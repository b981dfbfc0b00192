// The log that a stream is to be brought in as, measured: its totals and its length, or the refusal. Nothing is written.
#![tactic(auto)]

ghost use Rattle.std.specs.Prelude.{◌≡◌, [], ◌+◌, ◌-◌, ◌*◌, ◌/◌, ◌%◌, ◌≤◌, ◌<◌, length};
ghost use Rattle.vgm_stream.specs.Stream.{Stream};
ghost use Rattle.vgm_stream.specs.Steps.{stopped_at};
ghost use Rattle.log_rules.specs.Head.{head_text};
ghost use Rattle.vgm_measure.specs.Import.{stood, import_for, tally_of};
ghost use Rattle.vgm_measure.specs.Measure.{gap_text, gap_turns, heavy_at, count_write, count_said, count_step, Counted, Light, sum_refusal, sum_weighed, sum_from, sum_of, fitted};

use log_line::{Act, Line};
use vgm_stream::{Await, Said, Step};

// The answer: number and place of a refusal, or the length of the log that was written.
// Flat, with the number first, as document 01 has it: "a refusal returns its number and place, the state as given, 0 or no for the rest" (`import_refusal`).
#[derive(Clone, Copy)]
pub struct Imported {
    pub number: u8,
    pub place: usize,
    pub length: usize,
}

// The totals of a stream's log, of any length: its clocks and its turns, or number and place of a refusal.
// Flat for the same reason: the counts go on behind a fault too.
#[derive(Clone, Copy)]
pub struct Tally {
    pub number: u8,
    pub place: usize,
    pub clocks: u64,
    pub turns: u64,
}

// The same with its bytes.
#[derive(Clone, Copy)]
pub struct Sum {
    pub tally: Tally,
    pub length: usize,
}

// How far the measuring has come: the samples so far, the clock of the last access, and the turns and the bytes of the log so far.
#[derive(Clone, Copy)]
pub struct Count {
    pub samples: usize,
    pub clock: usize,
    pub turns: usize,
    pub length: usize,
}

// The clock at which the log stands after so many samples, by the clocks a second of its machine.
pub fn clocks_of(pal: bool, s: u32) -> usize
    ensures { result ≡ stood pal s }
{
    let rate = clock_rate::clock_rate(pal) as usize;
    s as usize * rate / 44100
}

// How many bytes the head of a log is: a PAL log has a line more.
fn head_length(pal: bool) -> usize
    ensures { (result ≡ length (head_text pal)) × (result ≤ 18) }
{
    if pal { 18 } else { 6 }
}

// How many lines a gap is.
fn gap_turns(g: usize) -> usize
    requires { g ≤ 3000000000 }
    ensures { (result ≡ gap_turns g) × (result ≤ 3001) }
{
    if g % 1000000 == 0 {
        g / 1000000
    } else {
        g / 1000000 + 1
    }
}

// How many bytes they are.
fn gap_length(g: usize) -> usize
    requires { g ≤ 3000000000 }
    ensures { (result ≡ length (gap_text g)) × (result ≤ 16 * gap_turns g) }
{
    let left = g % 1000000;
    let m = 13 * (g / 1000000);
    if left == 0 {
        m
    } else {
        m + log_writer::line_length(Line::One(Act::Wait(left as u32)))
    }
}

// Whether a count is over the totals of refusal 9 already.
#[tactic(auto, unfolding(crate::specs::Measure::heavy_at))]
fn heavy_at(pal: bool, k: Count) -> bool
    requires { Counted pal k }
    ensures { result ≡ heavy_at pal k }
{
    2000000000 < clocks_of(pal, k.samples as u32) || 1000000 < k.turns
}

// The gap before a write, and the write.
fn count_write(pal: bool, k: Count) -> Count
    requires { Counted pal k × Light pal k }
    ensures { (result ≡ count_write pal k) × Counted pal result }
{
    let c = clocks_of(pal, k.samples as u32);
    let g = c - k.clock;
    let t = gap_turns(g);
    let n = gap_length(g);
    Count {
        samples: k.samples,
        clock: c,
        turns: k.turns + t + 1,
        length: k.length + n + 14,
    }
}

fn count_said(pal: bool, k: Count, s: Said) -> Count
    requires { Counted pal k × Light pal k }
    ensures { (result ≡ count_said pal k s) × Counted pal result }
{
    match s {
        Said::Wait(n) => Count {
            samples: k.samples + n as usize,
            ..k
        },
        Said::Write(_, _) => count_write(pal, k),
    }
}

#[tactic(auto, using(crate::proofs::BoundLaws::light_of), unfolding(crate::specs::Measure::count_step))]
fn count_light(pal: bool, k: Count, s: Said) -> Count
    requires { Counted pal k }
    ensures { (result ≡ count_step pal k (Step.Says s)) × Counted pal result }
{
    if heavy_at(pal, k) {
        k
    } else {
        count_said(pal, k, s)
    }
}

// A count behind a step. One that is over the totals stays as it is, so that nothing wraps and a fault further on is still found.
#[tactic(auto, unfolding(crate::specs::Measure::count_step))]
fn count_step(pal: bool, k: Count, s: Step) -> Count
    requires { Counted pal k }
    ensures { (result ≡ count_step pal k s) × Counted pal result }
{
    match s {
        Step::End | Step::Fault(_) | Step::Next(_) => k,
        Step::Says(x) => count_light(pal, k, x),
    }
}

// A refusal.
fn refused(number: u8, place: usize) -> Sum
    ensures { result ≡ sum_refusal number place }
{
    Sum {
        tally: Tally {
            number,
            place,
            clocks: 0,
            turns: 0,
        },
        length: 0,
    }
}

// A log of c clocks, t turns and n bytes.
#[tactic(auto, unfolding(crate::specs::Measure::sum_weighed))]
fn weigh(c: usize, t: usize, n: usize) -> Sum
    ensures { result ≡ sum_weighed c t n }
{
    if 2000000000 < c || 1000000 < t {
        return refused(9, 0);
    }
    Sum {
        tally: Tally {
            number: 0,
            place: 0,
            clocks: c as u64,
            turns: t as u64,
        },
        length: n,
    }
}

// The sum at the end of a stream.
fn closed(pal: bool, k: Count) -> Sum
    requires { Counted pal k }
    ensures { result ≡ sum_from pal k (Stream.ended []) }
{
    let c = clocks_of(pal, k.samples as u32);
    let g = c - k.clock;
    let t = gap_turns(g);
    let n = gap_length(g);
    let e = log_writer::line_length(Line::Stop(c as u32));
    weigh(c, k.turns + t, k.length + n + e)
}

// The sum where a byte ends the reading.
#[tactic(auto, unfolding(vgm_stream::specs::Steps::stopped_at, crate::specs::Measure::sum_from))]
fn stopped(pal: bool, s: Step, at: usize, k: Count) -> Sum
    requires { Counted pal k }
    ensures { result ≡ sum_from pal k (stopped_at s at) }
{
    match s {
        Step::Fault(q) => refused(q, at),
        Step::End | Step::Next(_) | Step::Says(_) => closed(pal, k),
    }
}

// The sum for a machine and a stream.
fn sum_of(pal: bool, stream: &[u8]) -> Sum
    ensures { result ≡ sum_of pal stream.now }
{
    let mut w = Await::Command;
    let mut k = Count {
        samples: 0,
        clock: 0,
        turns: 0,
        length: head_length(pal),
    };
    for (i, &b) in stream.iter().enumerate() {
        let s = vgm_stream::step_of(w, b);
        if vgm_stream::stops(s) {
            return stopped(pal, s, i, k);
        }
        w = vgm_stream::awaits(s);
        k = count_step(pal, k, s);
    }
    refused(27, stream.len())
}

// The totals of the log of a stream, for a machine. Refused, at the first byte at fault: 25, 26, 27; then, at 0: 9.
pub fn totals(pal: bool, stream: &[u8]) -> Tally
    ensures { result ≡ tally_of pal stream.now }
{
    sum_of(pal, stream).tally
}

// The answer by a sum, for a buffer of so many bytes.
#[tactic(auto, unfolding(crate::specs::Measure::fitted))]
fn fit(s: Sum, room: usize) -> Imported
    ensures { result ≡ fitted room s }
{
    let number = s.tally.number;
    if number != 0 {
        return Imported {
            number,
            place: s.tally.place,
            length: 0,
        };
    }
    let n = s.length;
    if room < n || 60000 < n {
        return Imported {
            number: 28,
            place: 0,
            length: 0,
        };
    }
    Imported {
        number: 0,
        place: 0,
        length: n,
    }
}

// The answer for a machine, a stream, and a buffer of so many bytes.
pub fn measure(pal: bool, stream: &[u8], room: usize) -> Imported
    ensures { result ≡ import_for pal stream.now room }
{
    fit(sum_of(pal, stream), room)
}
