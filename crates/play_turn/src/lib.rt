// The turns of a player that waits for nothing: the opening lines, the log's next line, the end.
#![tactic(auto)]

ghost use Rattle.std.specs.Prelude.{◌≡◌, eqb};
ghost use Rattle.arith.specs.Pick.{pick};
ghost use Rattle.reading.specs.Saying.{says};
ghost use Rattle.play_rules.specs.Turns.{player_of, go, level_told, acted, step_said, cursor_turn, phase_turn};
ghost use Rattle.play_turn.specs.Turned.{went, found_said, Keeps, ToldIs};

use bus::Access;
use chip::State;
use log_cursor::Given;
use log_line::Act;
use play_rules::Player;
use play_text::Entry;
use recording_cursor::Cursor;

// What a turn says: that all is over; nothing; a line; or a refusal's number and place.
// One flat answer and no Result: a step gives its place back in every case, so that `?` has nothing to hand on.
#[derive(Clone, Copy)]
pub enum Told {
    Over,
    On,
    Says(Entry),
    Refused(u8, usize),
}

// What a turn says, and the player behind it.
#[derive(Clone, Copy)]
pub struct Went {
    pub told: Told,
    pub player: Player,
}

// Behind an access that led to the state s.
fn heard_at(p: Player, s: State, c: Cursor) -> Went
    ensures { result ≡ went (level_told p s c) }
{
    let level = s.level();
    if level == p.last {
        return Went {
            told: Told::On,
            player: Player {
                phase: play_rules::ACTING,
                wait: 0,
                time: p.time,
                last: p.last,
                state: s,
                cursor: c,
            },
        };
    }
    Went {
        told: Told::Says(Entry::Level(p.time, level)),
        player: Player {
            phase: play_rules::ACTING,
            wait: 0,
            time: p.time,
            last: level,
            state: s,
            cursor: c,
        },
    }
}

// Behind a read of a byte that led to the state s, which leaves the level.
fn read_at(p: Player, byte: u8, s: State, c: Cursor) -> Went
    ensures { result ≡ went (go (says (Entry.Read p.time byte)) (player_of 2 0 p.time p.last s c)) }
{
    Went {
        told: Told::Says(Entry::Read(p.time, byte)),
        player: Player {
            phase: play_rules::ACTING,
            wait: 0,
            time: p.time,
            last: p.last,
            state: s,
            cursor: c,
        },
    }
}

// An access of the log.
fn at_access(p: Player, x: Access, c: Cursor) -> Went
    ensures value { result ≡ went (acted p (Act.Access x) c) }
    ensures keeps { Keeps p result }
{
    let s = p.state;
    let a = chip_access::accessed(s, x);
    let next = a.state;
    match x {
        Access::Write(_, _) => heard_at(p, next, c),
        Access::Read => read_at(p, a.byte, next, c),
    }
}

// An act of the log.
fn at_act(p: Player, a: Act, c: Cursor) -> Went
    ensures value { result ≡ went (acted p a c) }
    ensures keeps { Keeps p result }
{
    match a {
        Act::Wait(n) => {
            let s = p.state;
            Went {
                told: Told::On,
                player: Player {
                    phase: play_rules::ACTING,
                    wait: n,
                    time: p.time,
                    last: p.last,
                    state: s,
                    cursor: c,
                },
            }
        }
        Act::Access(x) => at_access(p, x, c),
    }
}

// The player at another place of the log.
fn at_cursor(p: Player, phase: u8, c: Cursor) -> Player
    ensures { result ≡ player_of phase 0 p.time p.last p.state c }
{
    let s = p.state;
    Player {
        phase: phase,
        wait: 0,
        time: p.time,
        last: p.last,
        state: s,
        cursor: c,
    }
}

// What a step of the cursor found.
fn stepped_to(p: Player, f: Given, c: Cursor) -> Went
    ensures value { result ≡ went (step_said p (found_said f) c) }
    ensures keeps { Keeps p result }
{
    match f {
        Given::Act(a) => at_act(p, a, c),
        Given::Moved => Went {
            told: Told::On,
            player: at_cursor(p, 2, c),
        },
        Given::End => Went {
            told: Told::Says(Entry::Stop(p.time)),
            player: at_cursor(p, 3, c),
        },
        Given::Refused(k, q) => Went {
            told: Told::Refused(k, q),
            player: p,
        },
    }
}

// The log's next line.
fn cursor_turn(log: &[u8], p: Player) -> Went
    ensures value { result ≡ went (cursor_turn log.now p) }
    ensures keeps { Keeps p result }
{
    let c = p.cursor;
    let s = recording_cursor::step(log, c);
    let f = s.found;
    let next = s.cursor;
    stepped_to(p, f, next)
}

// The first two lines, and the end.
fn phase_turn(p: Player) -> Went
    ensures value { result ≡ went (phase_turn p) }
    ensures keeps { Keeps p result }
{
    let mut q = p;
    if p.phase == play_rules::OPENING {
        q.phase = play_rules::FIRST;
        return Went {
            told: Told::Says(Entry::Play),
            player: q,
        };
    }
    if p.phase == play_rules::FIRST {
        let s = p.state;
        let level = s.level();
        q.phase = play_rules::ACTING;
        q.last = level;
        return Went {
            told: Told::Says(Entry::Level(p.time, level)),
            player: q,
        };
    }
    Went {
        told: Told::Over,
        player: p,
    }
}

// A turn of a player that waits for nothing.
pub fn turn(log: &[u8], p: Player) -> Went
    ensures value { result ≡ went (pick (eqb p.phase 2) (cursor_turn log.now p) (phase_turn p)) }
    ensures told_is { ToldIs (pick (eqb p.phase 2) (cursor_turn log.now p) (phase_turn p)).said result.told }
    ensures keeps { Keeps p result }
{
    if p.phase == play_rules::ACTING {
        return cursor_turn(log, p);
    }
    phase_turn(p)
}
