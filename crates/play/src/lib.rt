// The player: what a log sounds like, as lines of text, in pieces of any size.
#![tactic(auto)]

ghost use Rattle.std.specs.Prelude.{◌≡◌, true, false, ◌+◌, ◌-◌, ◌≤◌, ◌<◌, length};
ghost use Rattle.chip.specs.Range.{in_range};
ghost use Rattle.play.specs.Loop.{answer_of};
ghost use Rattle.play.specs.Playing.{Answered, PlayedOn};

use play_rules::Player;
use play_step::Taken;

// The answer of `play_on`: the player behind the lines, their bytes, and whether all is over.
// Flat, with the number first, as document 01 has it: "a refusal returns its number and place, the state as given, 0 or no for the rest" (`answer_of`).
#[derive(Clone, Copy)]
pub struct Played {
    pub number: u8,
    pub place: usize,
    pub player: Player,
    pub length: usize,
    pub over: bool,
}

// A refusal: the player as it came.
fn refuse(p: Player, number: u8, place: usize) -> Played
    ensures { result ≡ record { number = number; place = place; player = p; length = 0; over = false } }
{
    Played {
        number,
        place,
        player: p,
        length: 0,
        over: false,
    }
}

// What the loop came to: the refusal, where no line was written before it; else the lines.
fn answer(p: Player, t: Taken) -> Played
    ensures { result ≡ answer_of p t }
{
    if t.kind == play_step::REFUSED && t.at == 0 {
        return refuse(p, t.number, t.place);
    }
    let q = t.player;
    Played {
        number: 0,
        place: 0,
        player: q,
        length: t.at,
        over: t.kind == play_step::OVER,
    }
}

// Whether the loop goes on: neither over nor refused, 23 bytes left, and fewer than 4,000,010 steps.
fn goes_on(kind: u8, size: usize, at: usize, count: u32) -> bool
    ensures { (result ≡ true → (kind ≡ 0) × (at + 23 ≤ size) × (count < 4000010)) × (result ≡ false → kind ≡ 0 → count < 4000010 → size < at + 23) }
{
    if kind != play_step::ON {
        return false;
    }
    if size < at {
        return false;
    }
    if size - at < 23 {
        return false;
    }
    count < 4000010
}

// Whole lines, while 23 bytes are left.
fn play_lines(p: Player, log: &[u8], memory: &[u8], out: &mut [u8]) -> Played
    requires { (length memory.now ≡ 32768) × (in_range p.state ≡ true) }
    ensures { Answered log.now memory.now p out.old out.new result }
{
    let mut t = play_step::outcome(play_step::ON, 0, 0, p, 0);
    let mut count: u32 = 0;
    while goes_on(t.kind, out.len(), t.at, count) {
        let q = t.player;
        let at = t.at;
        t = play_step::step(q, log, memory, out, at);
        count += 1;
    }
    answer(p, t)
}

// Whole lines into the buffer; the bytes behind them stay.
pub fn play_on(p: Player, log: &[u8], memory: &[u8], out: &mut [u8]) -> Played
    ensures { PlayedOn log.now memory.now p out.old out.new result }
{
    if memory.len() != 32768 {
        return refuse(p, 1, 0);
    }
    let s = p.state;
    if !s.in_range() {
        return refuse(p, 2, 0);
    }
    play_lines(p, log, memory, out)
}
