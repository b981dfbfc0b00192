// Single fields: a byte, a flag, and a number of two bytes, low first. Past the bytes' end everything is 0.
ghost use Rattle.std.specs.Prelude.{◌≡◌, ◌+◌, ◌*◌};
ghost use Rattle.c_bytes.specs.Fields.{flag_byte, low, high, byte_of, flag_of, pair_of};

// A byte; 0 past the end.
pub fn byte_at(b: &[u8], i: usize) -> u8
    ensures { result ≡ byte_of b.now i }
{
    if i < b.len() { b[i] } else { 0 }
}

// A flag: whether the byte is 1.
pub fn flag_at(b: &[u8], i: usize) -> bool
    ensures { result ≡ flag_of b.now i }
{
    byte_at(b, i) == 1
}

// The byte k places after `at`.
pub fn byte_after(b: &[u8], at: usize, k: usize) -> u8
    ensures { result ≡ byte_of b.now (at + k) }
{
    if at < b.len() && k < b.len() - at {
        b[at + k]
    } else {
        0
    }
}

// A flag k bytes behind a place.
pub fn flag_after(b: &[u8], at: usize, k: usize) -> bool
    ensures { result ≡ flag_of b.now (at + k) }
{
    byte_after(b, at, k) == 1
}

// The number whose low byte stands k places after `at`.
pub fn pair_after(b: &[u8], at: usize, k: u8) -> u16
    ensures { result ≡ pair_of b.now (at + k) }
{
    let i = usize::from(k);
    let first = byte_after(b, at, i);
    let second = byte_after(b, at, i + 1);
    u16::from(first) + 256 * u16::from(second)
}

// A flag as a byte, 0 or 1.
pub fn flag_byte(on: bool) -> u8
    ensures { result ≡ flag_byte on }
{
    u8::from(on)
}

// The low byte of a pair.
pub fn low_byte(x: u16) -> u8
    ensures { result ≡ low x }
{
    (x % 256) as u8
}

// The high byte of a pair.
pub fn high_byte(x: u16) -> u8
    ensures { result ≡ high x }
{
    (x / 256) as u8
}
