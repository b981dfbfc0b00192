// A cursor over a recording as 96 bytes, for callers in other languages: its fields in their order, low byte first. Any 96 bytes are a cursor.
#![tactic(auto)]

ghost use Rattle.std.specs.Prelude.{◌≡◌, length, take};
ghost use Rattle.std.proofs.lemmas.List.Edits.{sets};
ghost use Rattle.c_cursor.specs.Cursors.{cursor_size, cursor_bytes};
ghost use Rattle.c_recording.specs.Cursors.{cursor_of, cursor_encoded};

use c_bytes::number;
use recording_cursor::Cursor;

// How many bytes a cursor is.
pub const SIZE: usize = c_cursor::SIZE + 8;

// The bytes of the log's cursor, as far as there are any.
fn front(b: &[u8]) -> &[u8]
    ensures { result.now ≡ take cursor_size b.now }
{
    if b.len() < 88 {
        return b;
    }
    &b[..88]
}

// The cursor that bytes stand for.
#[tactic(auto, unfolding(crate::specs::Cursors::cursor_of))]
pub fn decode(b: &[u8]) -> Cursor
    ensures { result ≡ cursor_of b.now }
{
    Cursor {
        log: c_cursor::decode(front(b)),
        samples: number::u32_at(b, 88),
        clock: number::u32_at(b, 92),
    }
}

// The log's cursor, over the first of the bytes.
fn put_log(c: log_cursor::Cursor, b: &mut [u8])
    requires { length b.old ≡ 96 }
    ensures b_after { b.new ≡ sets b.old 0 (cursor_bytes c) }
    ensures c_len { length (cursor_bytes c) ≡ cursor_size }
{
    c_cursor::encode(c, &mut b[..88]);
}

// Writes a cursor to bytes. Other than so many bytes stay as they are.
pub fn encode(c: Cursor, b: &mut [u8])
    ensures { b.new ≡ cursor_encoded c b.old }
{
    if b.len() == SIZE {
        put_log(c.log, b);
        number::put_wide(b, 88, 4, u64::from(c.samples));
        number::put_wide(b, 92, 4, u64::from(c.clock));
    }
}
