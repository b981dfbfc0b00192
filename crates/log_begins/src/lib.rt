// How many bytes of a line begin one that is allowed and right, and whether all behind its key is a decimal.
#![tactic(auto)]

ghost use Rattle.std.specs.Prelude.{◌≡◌};
ghost use Rattle.std.specs.List.{list_all};
ghost use Rattle.arith.specs.Pick.{pick};
ghost use Rattle.text.specs.Decimal.{digit, decimal};
ghost use Rattle.log_form.specs.Forms.{reach, along, begins_number};
ghost use Rattle.log_form.specs.Matching.{common};
ghost use Rattle.log_begins.specs.Begins.{begins};
ghost use Rattle.log_begins.specs.Counts.{keyed, unfed, said, counts};

// Which lines may stand at a place: `log=1`; `machine=pal`; `wait`, `write` and `read`; `loop`; `done`; `stop`.
#[derive(Clone, Copy)]
pub struct Keys {
    pub log: bool,
    pub machine: bool,
    pub acts: bool,
    pub loops: bool,
    pub done: bool,
    pub stop: bool,
}

// How many bytes of l begin a line of one form, if that is allowed.
fn form_bytes(allowed: bool, l: &[u8], form: &[u8]) -> usize
    ensures { result ≡ pick allowed (common form.now l.now) 0 }
{
    if allowed {
        log_form::common_bytes(l, form)
    } else {
        0
    }
}

// How many bytes of l begin a key with a decimal from lo to hi, if that is allowed.
fn count_bytes(allowed: bool, l: &[u8], key: &[u8], lo: u32, hi: u32) -> usize
    ensures { result ≡ pick allowed (reach (along key.now (begins_number lo hi)) l.now) 0 }
{
    if allowed {
        log_form::keyed_bytes(l, key, lo, hi)
    } else {
        0
    }
}

// How many bytes of l begin a line that is allowed and right.
pub fn right_bytes(l: &[u8], k: Keys) -> usize
    ensures { result ≡ reach (begins k) l.now }
{
    form_bytes(k.log, l, b"log=1\n")
        .max(form_bytes(k.machine, l, b"machine=pal\n"))
        .max(count_bytes(k.acts, l, b"wait=", 1, 1000000))
        .max(form_bytes(k.acts, l, b"write=####:##\n"))
        .max(form_bytes(k.acts, l, b"read=4015\n"))
        .max(count_bytes(k.loops, l, b"loop=", 2, 255))
        .max(form_bytes(k.done, l, b"done=loop\n"))
        .max(count_bytes(k.stop, l, b"stop=", 0, 2000000000))
}

// Whether `=` stands in s.
pub fn has_key(s: &[u8]) -> bool
    ensures { result ≡ keyed s.now }
{
    s.contains(&b'=')
}

// s without its last byte, if that is a line feed.
#[tactic(auto, unfolding(crate::specs::Counts::unfed))]
fn without_feed(s: &[u8]) -> &[u8]
    ensures { result.now ≡ unfed s.now }
{
    match s {
        [front @ .., b'\n'] => front,
        _ => s,
    }
}

fn all_digits(s: &[u8]) -> bool
    ensures { result ≡ list_all digit s.now }
{
    s.iter().all(|&c| text::is_digit(c))
}

// Whether s is a decimal with no leading zero, of any size.
#[tactic(auto, using(crate::proofs::ValueLaws::decimal_is))]
fn is_decimal(s: &[u8]) -> bool
    ensures { result ≡ said (decimal s.now) }
{
    text::leads(s) && all_digits(s)
}

// Whether all behind a key that takes a decimal is one.
#[tactic(auto, unfolding(crate::specs::Counts::counts))]
pub fn is_count(l: &[u8]) -> bool
    ensures { result ≡ counts l.now }
{
    (text::starts(l, b"wait=") || text::starts(l, b"loop=") || text::starts(l, b"stop="))
        && is_decimal(without_feed(text::behind(l, 5)))
}
