// The player as a teller that says lines: definitions and laws, no code but its phases.
#![tactic(auto)]

use chip::State;
use recording_cursor::Cursor;

// The phases of a player: `play=1` is due; the first level is; the log's acts go on; from `OVER` on all is over.
// A byte and no enum: C lends a player as bytes and gets each of the 256 phases back as it lent it (`c_player`, `player_in`).
pub const OPENING: u8 = 0;

pub const FIRST: u8 = 1;

pub const ACTING: u8 = 2;

pub const OVER: u8 = 3;

// How far the playing of a log is: its phase, what is left of a wait, the clocks since the log's start, the last level written, the chip and the
// place in the log.
#[derive(Clone, Copy)]
pub struct Player {
    pub phase: u8,
    pub wait: u32,
    pub time: u32,
    pub last: u16,
    pub state: State,
    pub cursor: Cursor,
}
