// The player at the beginning of a log: what of a log and a sample memory is refused, and where playing begins.
#![tactic(auto)]

ghost use Rattle.std.specs.Prelude.{◌≡◌, eqb};
ghost use Rattle.arith.specs.Pick.{pick};
ghost use Rattle.play_rules.specs.Turns.{fresh_player, ended_player};
ghost use Rattle.play_begin.specs.Whole.{begun_of};

use play_rules::Player;

// The answer of `begin`.
// Flat, with the number first, as document 01 has it: "a refusal returns its number and place, the state as given, 0 or no for the rest" (`begun_of`).
#[derive(Clone, Copy)]
pub struct Begun {
    pub number: u8,
    pub place: usize,
    pub player: Player,
}

// The player at the beginning of a log for a machine.
fn fresh(pal: bool) -> Player
    ensures { result ≡ fresh_player pal }
{
    let s = chip::power_on(pal);
    let c = recording_cursor::start();
    Player {
        phase: play_rules::OPENING,
        wait: 0,
        time: 0,
        last: 0,
        state: s,
        cursor: c,
    }
}

// A player with nothing to play.
fn ended() -> Player
    ensures { result ≡ ended_player }
{
    let mut p = fresh(false);
    p.phase = play_rules::OVER;
    p
}

// The player that a log for a machine begins with: at its beginning where it can be played, else one with nothing to play.
fn first(passes: bool, pal: bool) -> Player
    ensures { result ≡ pick passes (fresh_player pal) ended_player }
{
    if passes { fresh(pal) } else { ended() }
}

// A number and a place, with the player at the beginning of a log for a machine; refused, a player that is over.
fn opening(number: u8, place: usize, pal: bool) -> Begun
    ensures { result ≡ record { number = number; place = place; player = pick (eqb number 0) (fresh_player pal) ended_player } }
{
    let p = first(number == 0, pal);
    Begun {
        number: number,
        place: place,
        player: p,
    }
}

// Whether the log and the memory can be played, with the player at the beginning, on the log's machine; refused, a player that is over.
pub fn begin(log: &[u8], memory: &[u8]) -> Begun
    ensures { result ≡ begun_of log.now memory.now }
{
    if memory.len() != 32768 {
        return opening(1, 0, false);
    }
    let k = recording::check(log);
    opening(k.number, k.place, k.pal)
}
