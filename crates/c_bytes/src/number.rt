// Numbers of up to eight bytes, low byte first. Past the bytes' end everything is 0, and nothing is stored.
ghost use Rattle.std.specs.Prelude.{◌≡◌, ◌+◌, ◌^◌, ◌≤◌, ◌<◌, set};
ghost use Rattle.std.proofs.lemmas.List.Edits.{sets};
ghost use Rattle.c_bytes.specs.Numbers.{wide_bytes, wide_of};

// The number in the n bytes from `at` on.
fn wide_at(b: &[u8], at: usize, n: usize) -> u64
    requires { n ≤ 8 }
    ensures { (result ≡ wide_of b.now at n) × (result < 256 ^ n) }
{
    let mut r = 0;
    for i in (0..n).rev() {
        r = u64::from(super::field::byte_after(b, at, i)) + 256 * r;
    }
    r
}

// The same in the types of fields, each a narrowing cast of `wide_at`, since no trait of the library narrows without a test.
pub fn u8_at(b: &[u8], at: usize) -> u8
    ensures { result ≡ wide_of b.now at 1 }
{
    wide_at(b, at, 1) as u8
}

// A number in two bytes, low first.
pub fn u16_at(b: &[u8], at: usize) -> u16
    ensures { result ≡ wide_of b.now at 2 }
{
    wide_at(b, at, 2) as u16
}

// A number in four bytes, low first.
pub fn u32_at(b: &[u8], at: usize) -> u32
    ensures { result ≡ wide_of b.now at 4 }
{
    wide_at(b, at, 4) as u32
}

// A number in eight bytes, low first.
pub fn usize_at(b: &[u8], at: usize) -> usize
    ensures { result ≡ wide_of b.now at 8 }
{
    wide_at(b, at, 8) as usize
}

// Stores a byte k places after `at`, where there is one.
fn put_after(b: &mut [u8], at: usize, k: usize, x: u8)
    ensures { b.new ≡ set b.old (at + k) x }
{
    if at < b.len() && k < b.len() - at {
        b[at + k] = x;
    }
}

// Writes a number in n bytes from `at` on.
pub fn put_wide(b: &mut [u8], at: usize, n: usize, x: u64)
    ensures { b.new ≡ sets b.old at (wide_bytes n x) }
{
    let mut rest = x;
    for i in 0..n {
        put_after(b, at, i, (rest % 256) as u8);
        rest /= 256;
    }
}
