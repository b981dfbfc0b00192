// A cursor over a log as 88 bytes, for callers in other languages: its fields in their order, low byte first. Any 88 bytes are a cursor.
#![tactic(auto)]

ghost use Rattle.std.specs.Prelude.{◌≡◌};
ghost use Rattle.arith.specs.Pick.{pick};
ghost use Rattle.log_cursor.specs.Stepping.{is_refused};
ghost use Rattle.c_cursor.specs.Cursors.{cursor_size, cursor_of, cursor_encoded};
ghost use Rattle.c_cursor.specs.Next.{start_packed, start_bytes, next_packed, next_bytes};

mod found;
mod reader;
mod writer;

use c_bytes::number;
use log_cursor::{Cursor, Given};

// How many bytes a cursor is.
pub const SIZE: usize = 88;

// How many bytes a cursor is.
pub fn size() -> usize
    ensures { result ≡ cursor_size }
{
    SIZE
}

// The cursor that bytes stand for.
#[tactic(auto, unfolding(crate::specs::Cursors::cursor_of))]
pub fn decode(b: &[u8]) -> Cursor
    ensures { result ≡ cursor_of b.now }
{
    Cursor {
        at: number::usize_at(b, 0),
        depth: number::usize_at(b, 8),
        starts: reader::starts_at(b),
        left: reader::left_at(b),
    }
}

// Writes a cursor to bytes. Other than so many bytes stay as they are.
pub fn encode(c: Cursor, b: &mut [u8])
    ensures { b.new ≡ cursor_encoded c b.old }
{
    if b.len() == SIZE {
        number::put_wide(b, 0, 8, c.at as u64);
        number::put_wide(b, 8, 8, c.depth as u64);
        writer::put_loops(&c.starts, &c.left, b);
    }
}

// Makes the bytes a cursor at a log's beginning, whatever they held. Refused: 2, for another length.
pub fn start(cursor: &mut [u8]) -> u64
    ensures value { result ≡ start_packed cursor.old }
    ensures cursor_after { cursor.new ≡ start_bytes cursor.old }
{
    if cursor.len() == SIZE {
        encode(log_cursor::start(), cursor);
        0
    } else {
        2
    }
}

// The cursor written to the bytes, unless what was found is a refusal.
fn store(f: Given, c: Cursor, b: &mut [u8])
    ensures { b.new ≡ pick (is_refused f) b.old (cursor_encoded c b.old) }
{
    if !found::is_refused(f) {
        encode(c, b);
    }
}

// The next item of a log, its value the act's, and the cursor moved behind it; value 0 at the log's end; 4 x 2^24 where 2,000,002 steps
// came to no item. Refused: 2, for another length; then as the line that the cursor comes to, with its place in the log.
pub fn next(cursor: &mut [u8], log: &[u8]) -> u64
    ensures value { result ≡ next_packed log.now cursor.old }
    ensures cursor_after { cursor.new ≡ next_bytes log.now cursor.old }
{
    if cursor.len() != SIZE {
        return 2;
    }
    let s = found::find(log, decode(cursor));
    store(s.found, s.cursor, cursor);
    found::pack(s.found)
}
