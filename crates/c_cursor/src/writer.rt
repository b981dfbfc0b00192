// The parts of a cursor, written to their place.
ghost use Rattle.std.specs.Prelude.{◌≡◌, ◌++◌, ◌+◌, ◌*◌, ◌≤◌, length};
ghost use Rattle.std.proofs.lemmas.List.Edits.{sets};
ghost use Rattle.c_bytes.specs.Numbers.{wides_bytes};
ghost use Rattle.c_cursor.specs.Cursors.{cursor_size};

use c_bytes::number;

// The starts of loops, eight bytes each, from `at` on.
fn put_starts(b: &mut [u8], at: usize, starts: &[usize])
    requires { at + 8 * length starts.now ≤ length b.old }
    ensures { b.new ≡ sets b.old at (wides_bytes 8 starts.now) }
{
    for k in 0..starts.len() {
        number::put_wide(b, at + 8 * k, 8, starts[k] as u64);
    }
}

// The turns that are left, a byte each, from `at` on.
fn put_left(b: &mut [u8], at: usize, left: &[u8])
    requires { at + length left.now ≤ length b.old }
    ensures { b.new ≡ sets b.old at (wides_bytes 1 left.now) }
{
    for k in 0..left.len() {
        number::put_wide(b, at + k, 1, u64::from(left[k]));
    }
}

// The open loops.
pub(crate) fn put_loops(starts: &[usize; 8], left: &[u8; 8], b: &mut [u8])
    requires { length b.old ≡ cursor_size }
    ensures b_after { b.new ≡ sets b.old 16 (wides_bytes 8 starts.now ++ wides_bytes 1 left.now) }
    ensures starts_len { (length starts.now ≡ 8) × (length left.now ≡ 8) }
{
    put_starts(b, 16, starts);
    put_left(b, 80, left);
}
