// A cursor over a log for C and Rust: bytes lent in place (crate `c_cursor`), which the caller keeps between two items.
ghost use Rattle.std.specs.Prelude.{◌≡◌};
ghost use Rattle.c_cursor.specs.Cursors.{cursor_size};
ghost use Rattle.c_cursor.specs.Next.{start_packed, start_bytes, next_packed, next_bytes};

// How many bytes a cursor is.
#[unsafe(no_mangle)]
pub extern "C" fn perch_cursor_size() -> usize
    ensures { result ≡ cursor_size }
{
    c_cursor::size()
}

// Makes the bytes a cursor at a log's beginning, whatever they held. Refused: 2, for another length.
#[unsafe(no_mangle)]
pub extern "C" fn perch_cursor_start(cursor: &mut [u8]) -> u64
    ensures value { result ≡ start_packed cursor.old }
    ensures cursor_after { cursor.new ≡ start_bytes cursor.old }
{
    c_cursor::start(cursor)
}

// The next item of a log, its value the act's, and the cursor moved behind it; value 0 at the log's end; 4 x 2^24 where 2,000,002 steps
// came to no item. Refused: 2, for another length; then as the line that the cursor comes to, with its place in the log.
#[unsafe(no_mangle)]
pub extern "C" fn perch_cursor_next(cursor: &mut [u8], log: &[u8]) -> u64
    ensures value { result ≡ next_packed log.now cursor.old }
    ensures cursor_after { cursor.new ≡ next_bytes log.now cursor.old }
{
    c_cursor::next(cursor, log)
}
