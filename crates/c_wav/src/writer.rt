// The parts of a file under way, written to their place.
ghost use Rattle.std.specs.Prelude.{◌≡◌, length};
ghost use Rattle.std.proofs.lemmas.List.Edits.{sets};
ghost use Rattle.c_state.specs.Bytes.{state_bytes};
ghost use Rattle.c_recording.specs.Cursors.{cursor_size, cursor_bytes};
ghost use Rattle.c_wav.specs.Wavs.{cursor_place, state_place, wav_size, file_bytes, place_bytes};

use super::{CURSOR, STATE};
use c_bytes::{field, number};
use chip::State;
use play_samples::Place;
use recording_cursor::Cursor;

// The flag, the rate and the samples in all.
pub(crate) fn put_file(begun: bool, rate: u32, count: u32, b: &mut [u8])
    ensures { b.new ≡ sets b.old 0 (file_bytes begun rate count) }
{
    number::put_wide(b, 0, 1, field::flag_byte(begun) as u64);
    number::put_wide(b, 1, 4, rate as u64);
    number::put_wide(b, 5, 4, count as u64);
}

// The numbers of the place.
pub(crate) fn put_place(p: Place, b: &mut [u8])
    ensures { b.new ≡ sets b.old 9 (place_bytes p) }
{
    let m = p.moment;
    number::put_wide(b, 9, 4, p.left as u64);
    number::put_wide(b, 13, 8, p.sample);
    number::put_wide(b, 21, 8, p.sum);
    number::put_wide(b, 29, 8, m.time);
}

// The cursor, as the crate `c_recording` writes it.
pub(crate) fn put_cursor(c: Cursor, b: &mut [u8])
    requires { length b.old ≡ wav_size }
    ensures b_after { b.new ≡ sets b.old cursor_place (cursor_bytes c) }
    ensures c_len { length (cursor_bytes c) ≡ cursor_size }
{
    c_recording::encode(c, &mut b[CURSOR..STATE]);
}

// The state, as the crate `c_state` writes it.
pub(crate) fn put_state(s: State, b: &mut [u8])
    requires { length b.old ≡ wav_size }
    ensures { b.new ≡ sets b.old state_place (state_bytes s) }
{
    c_state_write::encode(s, &mut b[STATE..]);
}
