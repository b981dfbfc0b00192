// The parts of a player, written to their place.
ghost use Rattle.std.specs.Prelude.{◌≡◌, ◌++◌, length};
ghost use Rattle.std.proofs.lemmas.List.Edits.{sets};
ghost use Rattle.c_state.specs.Bytes.{state_bytes};
ghost use Rattle.c_bytes.specs.Numbers.{wide_bytes};
ghost use Rattle.c_recording.specs.Cursors.{cursor_size, cursor_bytes};
ghost use Rattle.c_player.specs.Player.{cursor_place, state_place, player_size};

use super::{CURSOR, STATE};
use c_bytes::number;
use chip::State;
use recording_cursor::Cursor;

// Phase, wait, time and last.
pub(crate) fn put_numbers(phase: u8, wait: u32, time: u32, last: u16, b: &mut [u8])
    ensures { b.new ≡ sets b.old 0 (wide_bytes 1 phase ++ (wide_bytes 4 wait ++ (wide_bytes 4 time ++ wide_bytes 2 last))) }
{
    number::put_wide(b, 0, 1, u64::from(phase));
    number::put_wide(b, 1, 4, u64::from(wait));
    number::put_wide(b, 5, 4, u64::from(time));
    number::put_wide(b, 9, 2, u64::from(last));
}

// The cursor, as the crate `c_recording` writes it.
pub(crate) fn put_cursor(c: Cursor, b: &mut [u8])
    requires { length b.old ≡ player_size }
    ensures b_after { b.new ≡ sets b.old cursor_place (cursor_bytes c) }
    ensures c_len { length (cursor_bytes c) ≡ cursor_size }
{
    c_recording::encode(c, &mut b[CURSOR..STATE]);
}

// The state, as the crate `c_state` writes it.
pub(crate) fn put_state(s: State, b: &mut [u8])
    requires { length b.old ≡ player_size }
    ensures { b.new ≡ sets b.old state_place (state_bytes s) }
{
    c_state_write::encode(s, &mut b[STATE..]);
}
