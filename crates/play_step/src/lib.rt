// A step of the player over lent bytes: a turn's line, or a portion of a wait as lines.
#![tactic(auto)]

ghost use Rattle.std.specs.Prelude.{◌≡◌, true, ◌+◌, ◌-◌, ◌*◌, ◌/◌, ◌≤◌, ◌<◌, eqb, length, get_or};
ghost use Rattle.arith.specs.Pick.{pick};
ghost use Rattle.std.proofs.lemmas.List.Edits.{sets};
ghost use Rattle.chip.specs.Range.{in_range};
ghost use Rattle.play_rules.specs.Turns.{player_of};
ghost use Rattle.play_step.specs.Steps.{taken_of, taken_bytes, room_for, last_in, wait_number, wait_taken, wait_text, step_taken, step_bytes};

use chip::State;
use play_rules::Player;
use play_turn::{Told, Went};

// The kinds of what a step comes to: gone on, over, refused.
pub const ON: u8 = 0;

pub const OVER: u8 = 1;

pub const REFUSED: u8 = 2;

// What a step comes to: its kind, a refusal's number and place, the player and the bytes written.
#[derive(Clone, Copy)]
pub struct Taken {
    pub kind: u8,
    pub number: u8,
    pub place: usize,
    pub player: Player,
    pub at: usize,
}

// What a step came to.
pub fn outcome(kind: u8, number: u8, place: usize, p: Player, at: usize) -> Taken
    ensures { result ≡ record { kind = kind; number = number; place = place; player = p; at = at } }
{
    Taken {
        kind,
        number,
        place,
        player: p,
        at,
    }
}

// A turn's line in the buffer.
fn take(w: Went, out: &mut [u8], at: usize) -> Taken
    ensures value { result ≡ taken_of out.old at w.told w.player }
    ensures out_after { out.new ≡ taken_bytes out.old at w.told }
{
    let told = w.told;
    let p = w.player;
    match told {
        Told::Over => outcome(OVER, 0, 0, p, at),
        Told::On => outcome(ON, 0, 0, p, at),
        Told::Says(n) => {
            let next = play_text::put(out, at, n);
            outcome(ON, 0, 0, p, next)
        }
        Told::Refused(k, q) => outcome(REFUSED, k, q, p, at),
    }
}

// The last of n levels, or the one before them.
fn last_level(last: u16, words: &[u32], n: usize) -> u16
    requires n_in_bounds { 2 * n ≤ length words.now }
    requires n_bound { 0 < n → get_or words.now (2 * n - 1) 0 ≤ 65535 }
    ensures { result ≡ last_in last n words.now }
{
    if n == 0 {
        return last;
    }
    let j = 2 * n - 1;
    words[j] as u16
}

// The player behind a portion of its wait.
fn behind(p: Player, done: u32, last: u16, s: State) -> Player
    requires { (done ≤ p.wait) × (p.time + done ≤ 2000000000) }
    ensures { result ≡ player_of p.phase (p.wait - done) (p.time + done) last s p.cursor }
{
    let mut q = p;
    q.wait = p.wait - done;
    q.time = p.time + done;
    q.last = last;
    q.state = s;
    q
}

// How many records surely fit as lines, at most 256.
fn room(size: usize, at: usize) -> usize
    ensures { result ≡ room_for size at }
{
    if size < at {
        return 0;
    }
    let n = (size - at) / 23;
    if n < 256 { n } else { 256 }
}

// What a run's number makes of its step.
fn kind_of(number: u8) -> u8
    ensures { result ≡ pick (eqb number 0) 0 2 }
{
    if number == 0 { ON } else { REFUSED }
}

// A portion of a wait, as many records as surely fit, or the refusal of its run, which leaves the player as it was.
fn waited(p: Player, memory: &[u8], out: &mut [u8], at: usize, words: &mut [u32]) -> Taken
    requires { (p.time + p.wait ≤ 2000000000) × (length words.old ≡ 512) }
    ensures value { result ≡ wait_taken memory.now (room_for (length out.old) at) p at }
    ensures out_after { out.new ≡ sets out.old at (wait_text memory.now (room_for (length out.old) at) p) }
{
    let end = 2 * room(out.len(), at);
    let s = p.state;
    let ran = run::uncounted(s, memory, u64::from(p.wait), &mut words[..end]);
    let n = ran.records as usize;
    let next = play_levels::level_lines(out, at, p.time, words, n);
    let last = last_level(p.last, words, n);
    let after = ran.state;
    let kind = kind_of(ran.number);
    outcome(kind, ran.number, 0, behind(p, ran.done, last, after), next)
}

// The number of a wait that leads past 2,000,000,000 clocks: its run's own, else 9.
fn late_number(p: Player, memory: &[u8]) -> u8
    requires { 2000000000 < p.time + p.wait }
    ensures { result ≡ wait_number memory.now p }
{
    let s = p.state;
    let number = run_answer::number_of(s, memory, u64::from(p.wait));
    if number == 0 { 9 } else { number }
}

// A wait. Refused: as its run; 9: over 2,000,000,000 clocks in all.
fn wait_step(p: Player, memory: &[u8], out: &mut [u8], at: usize) -> Taken
    ensures value { result ≡ wait_taken memory.now (room_for (length out.old) at) p at }
    ensures out_after { out.new ≡ sets out.old at (wait_text memory.now (room_for (length out.old) at) p) }
{
    if 2000000000 < u64::from(p.time) + u64::from(p.wait) {
        return outcome(REFUSED, late_number(p, memory), 0, p, at);
    }
    let mut words = [0u32; 512];
    waited(p, memory, out, at, &mut words)
}

// A turn of the player, or as many as a portion of a wait has. Refused: a wait as its run is, then 9; a line of the log with its own number and place.
pub fn step(p: Player, log: &[u8], memory: &[u8], out: &mut [u8], at: usize) -> Taken
    ensures value { result ≡ step_taken log.now memory.now p out.old at }
    ensures out_after { out.new ≡ step_bytes log.now memory.now p out.old at }
    ensures state_value { in_range p.state ≡ true → in_range result.player.state ≡ true }
{
    if p.phase == play_rules::ACTING && p.wait != 0 {
        return wait_step(p, memory, out, at);
    }
    take(play_turn::turn(log, p), out, at)
}
