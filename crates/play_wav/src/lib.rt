// A log as a WAV file, in pieces of any size.
#![tactic(auto)]

ghost use Rattle.std.specs.Prelude.{◌≡◌, false, ◌+◌, ◌*◌, ◌≤◌, ◌<◌, eqb, leb, length};
ghost use Rattle.arith.specs.Pick.{pick};
ghost use Rattle.wav_rules.specs.Turns.{wav_of, wav_start};
ghost use Rattle.play_wav.specs.Loop.{taken_of, taken_by, Took, count_of, is_on, goes_on, piece_of, answer_by};
ghost use Rattle.play_wav.specs.Pieces.{begun_of, sounded_of, Headed, Answered, WrittenOn};

mod head;

use play_samples::{Next, Place};
use wav_rules::Wav;

// The answer of `begin`: the bytes of the whole file, and the file at its beginning.
// Flat, with the number first, as document 01 has it: "a refusal returns its number and place, the state as given, 0 or no for the rest".
#[derive(Clone, Copy)]
pub struct Begun {
    pub number: u8,
    pub place: usize,
    pub size: u64,
    pub wav: Wav,
}

// The answer of `wav_on`: the file behind the bytes written, how many they are, and whether all is over.
// Flat for the same reason.
#[derive(Clone, Copy)]
pub struct Sounded {
    pub number: u8,
    pub place: usize,
    pub wav: Wav,
    pub length: usize,
    pub over: bool,
}

// Between two steps: what the last one brought, the place in the log, and the bytes written.
#[derive(Clone, Copy)]
struct Taken {
    next: Next,
    place: Place,
    length: usize,
}

fn wav_of(rate: u32, count: u32, begun: bool, p: Place) -> Wav
    ensures { result ≡ wav_of rate count begun p }
{
    Wav {
        rate,
        count,
        begun,
        place: p,
    }
}

fn sounded_of(number: u8, place: usize, w: Wav, length: usize, over: bool) -> Sounded
    ensures { result ≡ sounded_of number place w length over }
{
    Sounded {
        number,
        place,
        wav: w,
        length,
        over,
    }
}

fn taken_of(n: Next, p: Place, length: usize) -> Taken
    ensures { result ≡ taken_of n p length }
{
    Taken {
        next: n,
        place: p,
        length,
    }
}

// What a step brought, and the place behind it.
fn taken_by(t: Taken, n: Next, q: Place) -> Taken
    requires { t.length + 2 * count_of n < 18446744073709551616 }
    ensures { result ≡ taken_by t n q }
{
    let p = t.place;
    match n {
        Next::Over => taken_of(Next::Over, p, t.length),
        Next::Moved => taken_of(Next::Moved, q, t.length),
        Next::Heard(k) => taken_of(Next::Heard(k), q, t.length + 2 * k as usize),
        Next::Refused(k, r) => taken_of(Next::Refused(k, r), p, t.length),
    }
}

// A step, its samples behind the bytes written so far.
fn step_on(t: Taken, log: &[u8], memory: &[u8], rate: u32, out: &mut [u8]) -> Taken
    requires { t.length ≤ length out.old }
    ensures { Took log.now memory.now rate t out.old out.new result }
{
    let p = t.place;
    let at = t.length;
    let s = play_samples::step(p, log, memory, rate, &mut out[at..]);
    let n = s.next;
    let q = s.place;
    taken_by(t, n, q)
}

// Whether a step was neither over nor refused.
fn is_on(n: Next) -> bool
    ensures { result ≡ is_on n }
{
    matches!(n, Next::Moved | Next::Heard(_))
}

// Whether two bytes are left.
fn has_room(at: usize, size: usize) -> bool
    ensures { result ≡ leb (at + 2) size }
{
    if size < at {
        return false;
    }
    2 <= size - at
}

// Whether the loop goes on: neither over nor refused, two bytes left, and fewer than 4,000,010 steps.
#[tactic(auto, unfolding(crate::specs::Loop::goes_on))]
fn goes_on(t: Taken, size: usize, count: u32) -> bool
    ensures { result ≡ goes_on t size count }
{
    is_on(t.next) && has_room(t.length, size) && count < 4000010
}

// The samples written.
fn piece_of(w: Wav, t: Taken, over: bool) -> Sounded
    ensures { result ≡ piece_of w t over }
{
    let p = t.place;
    let v = wav_of(w.rate, w.count, true, p);
    sounded_of(0, 0, v, t.length, over)
}

// A refusal, where there was no sample before it; else the samples.
fn refused_by(w: Wav, t: Taken, number: u8, place: usize) -> Sounded
    ensures { result ≡ pick (eqb t.length 0) (sounded_of number place w 0 false) (piece_of w t false) }
{
    if t.length == 0 {
        return sounded_of(number, place, w, 0, false);
    }
    piece_of(w, t, false)
}

// What the loop came to.
#[tactic(auto, unfolding(crate::specs::Loop::answer_by))]
fn answer(w: Wav, t: Taken) -> Sounded
    ensures { result ≡ answer_by w t t.next }
{
    let n = t.next;
    match n {
        Next::Over => piece_of(w, t, true),
        Next::Moved | Next::Heard(_) => piece_of(w, t, false),
        Next::Refused(k, r) => refused_by(w, t, k, r),
    }
}

// Whole samples, while two bytes are left.
fn samples_on(w: Wav, log: &[u8], memory: &[u8], out: &mut [u8]) -> Sounded
    ensures { Answered log.now memory.now w out.old out.new result }
{
    let p = w.place;
    let mut t = taken_of(Next::Moved, p, 0);
    let mut count: u32 = 0;
    while goes_on(t, out.len(), count) {
        t = step_on(t, log, memory, w.rate, out);
        count += 1;
    }
    answer(w, t)
}

// The head, where there are 44 bytes for it.
fn head_on(w: Wav, out: &mut [u8]) -> Sounded
    ensures { Headed w out.old out.new result }
{
    if out.len() < 44 {
        return sounded_of(0, 0, w, 0, false);
    }
    head::put(w.rate, w.count, out);
    let p = w.place;
    let v = wav_of(w.rate, w.count, true, p);
    sounded_of(0, 0, v, 44, false)
}

// The next bytes of the file: its head, or as many whole samples as there is room for; the bytes behind them stay.
pub fn wav_on(w: Wav, log: &[u8], memory: &[u8], out: &mut [u8]) -> Sounded
    ensures { WrittenOn log.now memory.now w out.old out.new result }
{
    let p = w.place;
    let k = play_samples::refusal_of(p, memory, w.rate);
    if k != 0 {
        return sounded_of(k, 0, w, 0, false);
    }
    if w.begun {
        return samples_on(w, log, memory, out);
    }
    head_on(w, out)
}

// Refused: no bytes, and a file at the rate 0, which every call refuses.
fn refuse(number: u8, place: usize, log: &[u8]) -> Begun
    ensures { result ≡ record { number = number; place = place; size = 0; wav = wav_start log.now 0 0 } }
{
    let p = play_samples::start(log);
    let w = wav_of(0, 0, false, p);
    Begun {
        number,
        place,
        size: 0,
        wav: w,
    }
}

// A file of so many samples at its beginning, and its bytes.
fn opening(log: &[u8], rate: u32, count: u32) -> Begun
    ensures { result ≡ record { number = 0; place = 0; size = 44 + 2 * count; wav = wav_start log.now rate count } }
{
    let p = play_samples::start(log);
    let w = wav_of(rate, count, false, p);
    Begun {
        number: 0,
        place: 0,
        size: 44 + 2 * count as u64,
        wav: w,
    }
}

// Whether a log, a sample memory and a rate make a file, with its size and the file at its beginning. Refused: as the player, then 33.
pub fn begin(log: &[u8], memory: &[u8], rate: u32) -> Begun
    ensures { result ≡ begun_of log.now memory.now rate }
{
    if memory.len() != 32768 {
        return refuse(1, 0, log);
    }
    let c = recording::check(log);
    if c.number != 0 {
        return refuse(c.number, c.place, log);
    }
    if !wav_sample::rate_right(rate) {
        return refuse(33, 0, log);
    }
    let count = wav_sample::count(c.pal, rate, c.clocks as u32);
    opening(log, rate, count)
}
