// A player as bytes, for callers in other languages: its fields in their order, low byte first, the cursor as the crate `c_recording` has it, and
// last the state as the crate `c_state` has it.
#![tactic(auto)]

ghost use Rattle.std.specs.Prelude.{◌≡◌};
ghost use Rattle.c_player.specs.Player.{player_size, player_at, is_player, player_in, player_encoded};

mod reader;
mod writer;

use c_bytes::number;
use play_rules::Player;

// Where the cursor and the state begin, and how many bytes a player is.
pub(crate) const CURSOR: usize = 11;

pub(crate) const STATE: usize = CURSOR + c_recording::SIZE;

pub const SIZE: usize = STATE + c_state::SIZE;

// How many bytes a player is.
pub fn size() -> usize
    ensures { result ≡ player_size }
{
    SIZE
}

// Whether bytes are a player's: read and written back they are as they were. So are as many as a player is whose state's bytes are a state's, and
// no others.
pub fn is_player(b: &[u8]) -> bool
    ensures { result ≡ is_player b.now }
{
    b.len() == SIZE && c_state::is_state(reader::state_part(b))
}

// The player read from bytes, whatever they are.
#[tactic(auto, unfolding(crate::specs::Player::player_at))]
pub fn decode(b: &[u8]) -> Player
    ensures { result ≡ player_at b.now }
{
    Player {
        phase: number::u8_at(b, 0),
        wait: number::u32_at(b, 1),
        time: number::u32_at(b, 5),
        last: number::u16_at(b, 9),
        state: c_state_read::decode(reader::state_part(b)),
        cursor: c_recording::decode(reader::cursor_part(b)),
    }
}

// The player that bytes stand for; bytes that are no player's stand for one whose state is out of range.
#[tactic(auto, unfolding(crate::specs::Player::player_in, crate::specs::Player::outside_player, c_state::specs::Bytes::outside))]
pub fn player_in(b: &[u8]) -> Player
    ensures { result ≡ player_in b.now }
{
    if is_player(b) {
        return decode(b);
    }
    Player {
        phase: 0,
        wait: 0,
        time: 0,
        last: 0,
        state: c_state_read::decode(b"\xff"),
        cursor: c_recording::decode(b""),
    }
}

// Writes a player to bytes. Other than so many bytes stay as they are.
pub fn encode(p: Player, b: &mut [u8])
    ensures { b.new ≡ player_encoded p b.old }
{
    if b.len() == SIZE {
        writer::put_numbers(p.phase, p.wait, p.time, p.last, b);
        writer::put_cursor(p.cursor, b);
        writer::put_state(p.state, b);
    }
}
