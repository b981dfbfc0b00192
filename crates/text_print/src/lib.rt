// Text in bytes, written over lent bytes: a fixed text, decimals, two or four hex digits.
#![tactic(auto)]

ghost use Rattle.std.specs.Prelude.{◌≡◌, ◌+◌, ◌/◌, ◌%◌, ◌≤◌, ◌<◌, leb, length, set};
ghost use Rattle.std.proofs.lemmas.List.Edits.{sets};
ghost use Rattle.text.specs.Decimal.{decimal_text};
ghost use Rattle.text.specs.Hex.{hex_byte, hex_text};
ghost use Rattle.text_print.specs.Printed.{printed, placed, digits_in};

// Whether n bytes fit from a place on.
pub fn fits(size: usize, at: usize, n: usize) -> bool
    ensures { result ≡ leb (at + n) size }
{
    at <= size && n <= size - at
}

// A fixed text where it fits, and the place behind it.
pub fn fixed(out: &mut [u8], at: usize, text: &[u8]) -> usize
    ensures value { result ≡ placed out.old at text.now }
    ensures out_after { out.new ≡ printed out.old at text.now }
{
    if !fits(out.len(), at, text.len()) {
        return at;
    }
    // Byte by byte: a copy by the library becomes a call of memmove, which the archive for C would then need from outside.
    for (i, &c) in text.iter().enumerate() {
        out[at + i] = c;
    }
    at + text.len()
}

// The digits of a number below 100,000, the longest first.
fn short_width(n: u64) -> usize
    requires { n < 100000 }
    ensures value { result ≡ length (decimal_text n) }
    ensures upper_bound { (result ≤ 10) × (decimal_text n ≡ digits_in result n) }
{
    if 10000 <= n {
        return 5;
    }
    if 1000 <= n {
        return 4;
    }
    if 100 <= n {
        return 3;
    }
    if 10 <= n {
        return 2;
    }
    1
}

// The digits of a number from 100,000 on, at most ten.
fn long_width(n: u64) -> usize
    requires { 100000 ≤ n }
    ensures value { result ≡ length (decimal_text n) }
    ensures upper_bound { (result ≤ 10) × (decimal_text n ≡ digits_in result n) }
{
    if 1000000000 <= n {
        return 10;
    }
    if 100000000 <= n {
        return 9;
    }
    if 10000000 <= n {
        return 8;
    }
    if 1000000 <= n {
        return 7;
    }
    6
}

// How many digits a number has in decimal, at most ten.
pub fn width(n: u64) -> usize
    ensures value { result ≡ length (decimal_text n) }
    ensures upper_bound { (result ≤ 10) × (decimal_text n ≡ digits_in result n) }
{
    if n < 100000 {
        return short_width(n);
    }
    long_width(n)
}

// The last digit of a number.
fn last_digit(n: u64) -> u8
    ensures { result ≡ 48 + n % 10 }
{
    48 + (n % 10) as u8
}

// The last two digits of a number from a place on, the last one first.
fn pair(out: &mut [u8], at: usize, n: u64)
    requires { at + 2 ≤ length out.old }
    ensures { out.new ≡ set (set out.old (at + 1) (48 + n % 10)) at (48 + n / 10 % 10) }
{
    out[at + 1] = last_digit(n);
    out[at] = last_digit(n / 10);
}

// The last digit of a number from a place on, or none.
fn single(out: &mut [u8], at: usize, k: usize, n: u64)
    requires { (at + k ≤ length out.old) × (k ≤ 1) }
    ensures { out.new ≡ sets out.old at (digits_in k n) }
{
    if 0 < k {
        out[at] = last_digit(n);
    }
}

// The last k digits of a number from a place on, the last two first.
fn digits(out: &mut [u8], at: usize, k: usize, n: u64)
    requires { at + k ≤ length out.old }
    ensures { out.new ≡ sets out.old at (digits_in k n) }
{
    let mut i = k;
    let mut left = n;
    while 1 < i {
        i -= 2;
        pair(out, at + i, left % 100);
        left /= 100;
    }
    single(out, at, i, left);
}

// A number below 10,000,000,000 in decimal where it fits, and the place behind it.
pub fn decimal(out: &mut [u8], at: usize, n: u64) -> usize
    ensures value { result ≡ placed out.old at (decimal_text n) }
    ensures out_after { out.new ≡ printed out.old at (decimal_text n) }
{
    let k = width(n);
    if !fits(out.len(), at, k) {
        return at;
    }
    digits(out, at, k, n);
    at + k
}

// A hex digit.
fn hex_digit(d: u8) -> u8
    requires { d < 16 }
    ensures { result ≡ hex_byte d }
{
    if d < 10 { 48 + d } else { 87 + d }
}

// Two hex digits from a place on.
fn two(out: &mut [u8], at: usize, v: u8)
    requires { at + 2 ≤ length out.old }
    ensures { out.new ≡ sets out.old at (hex_text 2 v) }
{
    out[at] = hex_digit(v / 16);
    out[at + 1] = hex_digit(v % 16);
}

// A byte in two hex digits where they fit, and the place behind them.
pub fn hex(out: &mut [u8], at: usize, v: u8) -> usize
    ensures value { result ≡ placed out.old at (hex_text 2 v) }
    ensures out_after { out.new ≡ printed out.old at (hex_text 2 v) }
{
    if !fits(out.len(), at, 2) {
        return at;
    }
    two(out, at, v);
    at + 2
}

// Four hex digits from a place on.
fn four(out: &mut [u8], at: usize, v: u16)
    requires { at + 4 ≤ length out.old }
    ensures { out.new ≡ sets out.old at (hex_text 4 v) }
{
    two(out, at, (v / 256) as u8);
    two(out, at + 2, (v % 256) as u8);
}

// A number below 65,536 in four hex digits where they fit, and the place behind them. (One function for two and four digits would need a loop: no plainer.)
pub fn hex_four(out: &mut [u8], at: usize, v: u16) -> usize
    ensures value { result ≡ placed out.old at (hex_text 4 v) }
    ensures out_after { out.new ≡ printed out.old at (hex_text 4 v) }
{
    if !fits(out.len(), at, 4) {
        return at;
    }
    four(out, at, v);
    at + 4
}
