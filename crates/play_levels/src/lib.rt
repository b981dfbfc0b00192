// The records of a run as level lines, written over lent bytes a word of eight bytes at a time: what a word has behind its text, the next one covers.
#![tactic(auto)]

ghost use Rattle.std.specs.Prelude.{◌≡◌, [], ◌∷◌, ◌++◌, ℕ, ◌+◌, ◌-◌, ◌*◌, ◌/◌, ◌%◌, ◌≤◌, ltb, length};
ghost use Rattle.std.proofs.lemmas.List.Edits.{sets};
ghost use Rattle.arith.specs.Pick.{pick};
ghost use Rattle.text.specs.Decimal.{decimal_text};
ghost use Rattle.text_print.specs.Printed.{digits_in};
ghost use Rattle.play_text.specs.Entries.{entry_text, entries_text};
ghost use Rattle.play_text.specs.Lines.{lines_in, lines_end};
ghost use Rattle.play_text.specs.declared.Entry.TheVariants.{Level};
ghost use Rattle.play_levels.specs.Levels.{level_entries};
ghost use Rattle.play_levels.specs.Words.{word_of, word_bytes, Hundreds, tens_of, high_of, Ahead};

// Words as text, the low byte first: `00000000`; five zero bytes and a line feed; `:`; `level=`.
const ZEROS: u64 = 0x3030303030303030;

const FEED: u64 = 0x0A0000000000;

const COLON: u64 = 0x3A;

const KEY: u64 = 0x3D6C6576656C;

// A time but its last four digits: the clock at which these are 0000, the digits as a word, and how many.
#[derive(Clone, Copy)]
pub struct High {
    pub base: u64,
    pub word: u64,
    pub size: usize,
}

// The eight bytes of a word from a place on, the low one first.
fn put_word(out: &mut [u8], at: usize, w: u64)
    requires { at + 8 ≤ length out.old }
    ensures { out.new ≡ sets out.old at (word_bytes 8 w) }
{
    let second = w / 256;
    let third = second / 256;
    let fourth = third / 256;
    let fifth = fourth / 256;
    let sixth = fifth / 256;
    let seventh = sixth / 256;
    let eighth = seventh / 256;
    out[at] = (w % 256) as u8;
    out[at + 1] = (second % 256) as u8;
    out[at + 2] = (third % 256) as u8;
    out[at + 3] = (fourth % 256) as u8;
    out[at + 4] = (fifth % 256) as u8;
    out[at + 5] = (sixth % 256) as u8;
    out[at + 6] = (seventh % 256) as u8;
    out[at + 7] = (eighth % 256) as u8;
}

// A number below 10,000 as two numbers below 100, 16 bits each, the hundreds in the low ones; 5243 / 524288 is near enough to 1 / 100.
fn pairs(n: u64) -> u64
    requires { n ≤ 9999 }
    ensures { result ≡ n / 100 + 65536 * (n % 100) }
{
    let hundreds = n * 5243 / 524288;
    hundreds + 65536 * (n - 100 * hundreds)
}

// The tens of four numbers below 100, 16 bits each, by one product: 103 / 1024 is near enough to 1 / 10, and each stays within its bits.
fn tens(p: u64) -> u64
    requires { Hundreds 4 p }
    ensures { result ≡ tens_of 4 p }
{
    let first = p * 103 / 1024;
    let second = first / 65536;
    let third = second / 65536;
    let fourth = third / 65536;
    first % 64 + 65536 * (second % 64 + 65536 * (third % 64 + 65536 * fourth))
}

// The four digits of one number below 10,000 and the four of another, as a word: `0` in each byte, and each number below 100 in the second of its two;
// 2559, that is 10 * 256 - 1, times its tens takes them off there and puts them into the first.
fn eight_digits(a: u64, b: u64) -> u64
    requires { (a ≤ 9999) × (b ≤ 9999) }
    ensures { result ≡ word_of (digits_in 4 a ++ digits_in 4 b) }
{
    let p = pairs(a) + 4294967296 * pairs(b);
    let t = tens(p);
    ZEROS + 256 * p - 2559 * t
}

// The digits of a number below 100,000,000 as a word: of eight, those before its first are dropped.
fn digits_word(n: u64, size: usize) -> u64
    requires { (decimal_text n ≡ digits_in size n) × (n ≤ 99999999) × (1 ≤ size) × (size ≤ 8) }
    ensures { result ≡ word_of (decimal_text n) }
{
    let all = eight_digits(n / 10000, n % 10000);
    all >> 8 * (8 - size)
}

// That of a time.
fn high_of(time: u64) -> High
    requires { time ≤ 9999999999 }
    ensures { result ≡ high_of time }
{
    let high = time / 10000;
    let size = text_print::width(high);
    let word = digits_word(high, size);
    High {
        base: high * 10000,
        word,
        size,
    }
}

// The same, where it may be that of an earlier time already.
fn high_at(h: High, time: u64) -> High
    requires { ((t : ℕ) × (h ≡ high_of t)) × (time ≤ 9999999999) }
    ensures { result ≡ high_of time }
{
    if time < h.base {
        return high_of(time);
    }
    if 10000 <= time - h.base {
        return high_of(time);
    }
    h
}

// One more digit to drop.
fn short(n: u32, bound: u32) -> u32
    ensures { (result ≡ pick (ltb n bound) 1 0) × (result ≤ 1) }
{
    u32::from(n < bound)
}

// How many digits of five a number doesn't have.
fn missing(n: u32) -> u32
    requires { n ≤ 65535 }
    ensures { (result + length (decimal_text n) ≡ 5) × (decimal_text n ≡ digits_in (5 - result) n) × (result ≤ 4) }
{
    short(n, 10000) + short(n, 1000) + short(n, 100) + short(n, 10)
}

// A colon, the digits of a level and a line feed as a word: of five digits, the last four are given as a word, and some are dropped.
fn level_word(level: u32, four: u64, dropped: u32) -> u64
    requires four_value { (four ≡ word_of (digits_in 4 level)) × (four ≤ 4294967295) × (level ≤ 65535) }
    requires level_value { (decimal_text level ≡ digits_in (5 - dropped) level) × (dropped ≤ 4) }
    ensures { result ≡ word_of (58 ∷ (decimal_text level ++ (10 ∷ []))) }
{
    let first = u64::from(level / 10000);
    let five = 48 + first + 256 * four + FEED;
    (five >> 8 * dropped) * 256 + COLON
}

// A level line, and behind it what the next line covers.
fn line_ahead(out: &mut [u8], at: usize, h: High, time: u64, level: u32) -> usize
    requires at_in_bounds { at + 46 ≤ length out.old }
    requires h_value { (h ≡ high_of time) × (10000 ≤ time) × (time ≤ 9999999999) × (level ≤ 65535) }
    ensures { Ahead 8 out.old at (entry_text (Level time level)) out.new result }
{
    let both = eight_digits(time - h.base, u64::from(level % 10000));
    let dropped = missing(level);
    let colon = at + 6 + h.size + 4;
    put_word(out, at, KEY);
    put_word(out, at + 6, h.word);
    put_word(out, at + 6 + h.size, both);
    put_word(out, colon, level_word(level, both / 4294967296, dropped));
    colon + 7 - dropped as usize
}

// A line, with lines behind it or none.
fn one_line(out: &mut [u8], at: usize, h: High, time: u64, level: u32, more: bool) -> usize
    requires more_in_bounds { at + pick more 46 23 ≤ length out.old }
    requires h_value { (h ≡ high_of time) × (time ≤ 9999999999) × (level ≤ 65535) }
    ensures { Ahead (pick more 8 0) out.old at (entry_text (Level time level)) out.new result }
{
    if more && 0 < h.base {
        return line_ahead(out, at, h, time, level);
    }
    play_text::level_line(out, at, time, level as u16)
}

// n records of a wait that began at a time, as lines.
fn records(out: &mut [u8], at: usize, time: u32, words: &[u32], n: usize) -> usize
    requires n_in_bounds { 2 * n ≤ length words.now }
    requires n_in_bounds_2 { at + 23 * n ≤ length out.old }
    ensures value { result ≡ at + length (entries_text (level_entries time n words.now)) }
    ensures out_after { out.new ≡ sets out.old at (entries_text (level_entries time n words.now)) }
{
    let mut place = at;
    let mut high = high_of(0);
    for i in 0..n {
        let k = 2 * i;
        let j = k + 1;
        let t = u64::from(time) + u64::from(words[k]);
        let level = words[j] % 65536;
        high = high_at(high, t);
        place = one_line(out, place, high, t, level, i + 1 < n);
    }
    place
}

// n records of a wait that began at a time, as lines where 23 bytes are left for each, else nothing; and the place behind them.
pub fn level_lines(out: &mut [u8], at: usize, time: u32, words: &[u32], n: usize) -> usize
    ensures value { result ≡ lines_end out.old at n (entries_text (level_entries time n words.now)) }
    ensures out_after { out.new ≡ lines_in out.old at n (entries_text (level_entries time n words.now)) }
{
    if play_text::left(out.len(), at, n) {
        return records(out, at, time, words, n.min(words.len() / 2));
    }
    at
}
