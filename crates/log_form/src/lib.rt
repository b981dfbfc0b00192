// How far the bytes of a line go along a form: a key, hex digits, a decimal in its range.
#![tactic(auto)]

ghost use Rattle.std.specs.Prelude.{◌≡◌, ◌+◌, ◌-◌, ◌*◌, ◌≤◌, min, ltb, leb, Some, None};
ghost use Rattle.arith.specs.Pick.{pick, both};
ghost use Rattle.text.specs.Decimal.{digit};
ghost use Rattle.log_form.specs.Forms.{suits, along, goes_on, begins_number, reach};
ghost use Rattle.log_form.specs.Matching.{common};

// Whether a byte is one that a form asks for: # stands for any hex digit.
#[tactic(auto, unfolding(crate::specs::Forms::suits))]
fn suits_form(f: u8, c: u8) -> bool
    ensures { result ≡ suits f c }
{
    if f == b'#' { text::is_hex(c) } else { c == f }
}

// How many bytes of l suit a form, from the front.
#[tactic(auto, using(crate::proofs::ScanLaws::form_steps))]
pub fn common_bytes(l: &[u8], form: &[u8]) -> usize
    ensures { result ≡ common form.now l.now }
{
    for (i, &f) in form.iter().enumerate() {
        if l.len() <= i || !suits_form(f, l[i]) {
            return i;
        }
    }
    form.len()
}

// The number that a decimal's first digit says, if one from lo to hi may begin so.
fn first_digit(c: u8, lo: u32, hi: u32) -> Option<u64>
    ensures { result ≡ pick (both (digit c) (both (leb (min lo 1) (c - 48)) (leb (c - 48) hi))) (Some (c - 48)) None }
{
    let n = u64::from(c.saturating_sub(b'0'));
    if text::is_digit(c) && u64::from(lo.min(1)) <= n && n <= u64::from(hi) {
        Some(n)
    } else {
        None
    }
}

// The number that digits that say n and one more say, if that may follow.
fn next_digit(n: u64, c: u8, hi: u32) -> Option<u64>
    requires { n ≤ 4294967295 }
    ensures { result ≡ pick (both (digit c) (both (ltb 0 n) (leb (n * 10 + (c - 48)) hi))) (Some (n * 10 + (c - 48))) None }
{
    let next = n * 10 + u64::from(c.saturating_sub(b'0'));
    if text::is_digit(c) && 0 < n && next <= u64::from(hi) {
        Some(next)
    } else {
        None
    }
}

// How many bytes of s go on, behind digits that say `first`, to the end of a decimal from lo to hi with its line feed.
#[tactic(auto, using(crate::proofs::ScanLaws::number_steps))]
fn number_from(s: &[u8], lo: u32, hi: u32, first: u64) -> usize
    requires { first ≤ hi }
    ensures { result ≡ reach (goes_on lo hi first) s.now }
{
    let mut n = first;
    for (i, &c) in s.iter().enumerate() {
        if c == b'\n' {
            return if u64::from(lo) <= n { i + 1 } else { i };
        }
        let Some(next) = next_digit(n, c, hi) else {
            return i;
        };
        n = next;
    }
    s.len()
}

// How many bytes of s begin a decimal from lo to hi, with its line feed.
#[tactic(auto, using(crate::proofs::ScanLaws::first_steps))]
fn number_bytes(s: &[u8], lo: u32, hi: u32) -> usize
    ensures { result ≡ reach (begins_number lo hi) s.now }
{
    let [c, rest @ ..] = s else {
        return 0;
    };
    match first_digit(*c, lo, hi) {
        Some(n) => 1 + number_from(rest, lo, hi, n),
        None => 0,
    }
}

// How many bytes of l begin a key with such a decimal.
#[tactic(auto, using(crate::proofs::ScanLaws::keyed_steps))]
pub fn keyed_bytes(l: &[u8], key: &[u8], lo: u32, hi: u32) -> usize
    ensures { result ≡ reach (along key.now (begins_number lo hi)) l.now }
{
    let n = common_bytes(l, key);
    if n < key.len() {
        n
    } else {
        n + number_bytes(&l[n..], lo, hi)
    }
}
