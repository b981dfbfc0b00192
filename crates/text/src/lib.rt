// Text in bytes: keys, decimals and hex, read.
#![tactic(auto)]

ghost use Rattle.std.specs.Prelude.{◌≡◌, ◌≤◌, Some, None, length, drop};
ghost use Rattle.arith.specs.Pick.{pick};
ghost use Rattle.text.specs.Key.{starts_with, exactly};
ghost use Rattle.text.specs.Numbers.{within, capped};
ghost use Rattle.text.specs.Decimal.{decimal, digits, digit, formed};
ghost use Rattle.text.specs.Hex.{hex, hex_digits, hex_digit, hex_value};

// Whether s starts with the bytes of key.
#[tactic(auto, using(crate::proofs::KeyLaws::starts_is))]
pub fn starts(s: &[u8], key: &[u8]) -> bool
    ensures { result ≡ starts_with key.now s.now }
{
    s.starts_with(key)
}

// Whether s is the bytes of text and nothing else.
#[tactic(auto, using(crate::proofs::KeyLaws::exactly_same))]
pub fn exact(s: &[u8], text: &[u8]) -> bool
    ensures { result ≡ exactly text.now s.now }
{
    s == text
}

// Whether a byte is a decimal digit.
#[tactic(auto, unfolding(crate::specs::Decimal::digit))]
pub fn is_digit(c: u8) -> bool
    ensures { result ≡ digit c }
{
    matches!(c, b'0'..=b'9')
}

// The number that the digits of s say, cut off at 2^32, which no number in range reaches; that too where s holds anything else.
#[tactic(auto, unfolding(crate::specs::Numbers::capped), using(crate::proofs::DecimalLaws::digit_steps))]
fn value(s: &[u8]) -> u64
    ensures { result ≡ capped (digits 0 s.now) }
{
    let mut n: u64 = 0;
    for &c in s {
        if !is_digit(c) {
            return 4294967296;
        }
        n = (n * 10 + u64::from(c - b'0')).min(4294967296);
    }
    n
}

// Whether s has a byte, and of several the first is no zero.
#[tactic(auto, unfolding(crate::specs::Decimal::formed))]
pub fn leads(s: &[u8]) -> bool
    ensures { result ≡ formed s.now }
{
    match s {
        [] => false,
        [_] => true,
        [first, ..] => *first != b'0',
    }
}

// A number if it is from lo to hi.
#[tactic(auto, unfolding(crate::specs::Numbers::within))]
fn ranged(n: u64, lo: u32, hi: u32) -> Option<u32>
    ensures { result ≡ within lo hi (Some n) }
{
    if u64::from(lo) <= n && n <= u64::from(hi) {
        Some(n as u32)
    } else {
        None
    }
}

// The number that s says in decimal with no leading zero, if it is from lo to hi.
#[tactic(auto, unfolding(crate::specs::Decimal::decimal, crate::specs::Numbers::within), using(crate::proofs::NumberLaws::within_capped))]
pub fn decimal_in(s: &[u8], lo: u32, hi: u32) -> Option<u32>
    ensures { result ≡ within lo hi (decimal s.now) }
{
    if leads(s) {
        ranged(value(s), lo, hi)
    } else {
        None
    }
}

// What a byte says as a lower-case hex digit.
#[tactic(auto, unfolding(crate::specs::Hex::hex_digit, crate::specs::Hex::hex_value, crate::specs::Decimal::digit))]
fn nibble(c: u8) -> Option<u8>
    ensures { result ≡ pick (hex_digit c) (Some (hex_value c)) None }
{
    match c {
        b'0'..=b'9' => Some(c - b'0'),
        b'a'..=b'f' => Some(c - b'a' + 10),
        _ => None,
    }
}

// Whether a byte is a lower-case hex digit.
pub fn is_hex(c: u8) -> bool
    ensures { result ≡ hex_digit c }
{
    nibble(c).is_some()
}

// The number that at most four hex digits say.
#[tactic(auto, using(crate::proofs::HexLaws::hex_steps))]
fn hexed(s: &[u8]) -> Option<u32>
    requires { length s.now ≤ 4 }
    ensures { result ≡ hex_digits 0 s.now }
{
    let mut n: u32 = 0;
    for &c in s {
        n = n * 16 + u32::from(nibble(c)?);
    }
    Some(n)
}

// The number that s says in two hex digits.
#[tactic(auto, unfolding(crate::specs::Hex::hex))]
pub fn hex2(s: &[u8]) -> Option<u32>
    ensures { result ≡ hex 2 s.now }
{
    if s.len() == 2 { hexed(s) } else { None }
}

// The number that s says in four hex digits.
#[tactic(auto, unfolding(crate::specs::Hex::hex))]
pub fn hex4(s: &[u8]) -> Option<u32>
    ensures { result ≡ hex 4 s.now }
{
    if s.len() == 4 { hexed(s) } else { None }
}

// The part of s behind its first k bytes.
pub fn behind(s: &[u8], k: usize) -> &[u8]
    ensures { result.now ≡ drop k s.now }
{
    &s[k.min(s.len())..]
}
