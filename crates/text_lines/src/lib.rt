// Lines that programs and people read, written into lent bytes: a key with a number, or with two, and a line feed.
#![tactic(auto)]

ghost use Rattle.std.specs.Prelude.{◌≡◌, ◌+◌, ◌≤◌, length};
ghost use Rattle.text_print.specs.Printed.{printed, placed, Put};
ghost use Rattle.text_lines.specs.Lines.{keyed_line, pair_line, refused_line};

// A key and a number, where there is room for them.
fn put_keyed(out: &mut [u8], at: usize, key: &[u8], n: u64) -> usize
    requires { at + length (keyed_line key.now n) ≤ length out.old }
    ensures { Put out.old at (keyed_line key.now n) out.new result }
{
    let a = text_print::fixed(out, at, key);
    let b = text_print::decimal(out, a, n);
    text_print::fixed(out, b, b"\n")
}

// `KEYN` where it fits, and the place behind it.
pub fn keyed_line(out: &mut [u8], at: usize, key: &[u8], n: u64) -> usize
    ensures value { result ≡ placed out.old at (keyed_line key.now n) }
    ensures out_after { out.new ≡ printed out.old at (keyed_line key.now n) }
{
    let w = text_print::width(n);
    if text_print::fits(out.len(), at, key.len() + w + 1) {
        return put_keyed(out, at, key, n);
    }
    at
}

// A key and two numbers, where there is room for them.
fn put_pair(out: &mut [u8], at: usize, key: &[u8], a: u64, b: u64) -> usize
    requires { at + length (pair_line key.now a b) ≤ length out.old }
    ensures { Put out.old at (pair_line key.now a b) out.new result }
{
    let c = text_print::fixed(out, at, key);
    let d = text_print::decimal(out, c, a);
    let e = text_print::fixed(out, d, b":");
    let f = text_print::decimal(out, e, b);
    text_print::fixed(out, f, b"\n")
}

// `KEYA:B` where it fits, and the place behind it.
pub fn pair_line(out: &mut [u8], at: usize, key: &[u8], a: u64, b: u64) -> usize
    ensures value { result ≡ placed out.old at (pair_line key.now a b) }
    ensures out_after { out.new ≡ printed out.old at (pair_line key.now a b) }
{
    let v = text_print::width(a);
    let w = text_print::width(b);
    if text_print::fits(out.len(), at, key.len() + v + w + 2) {
        return put_pair(out, at, key, a, b);
    }
    at
}

// `refused=NUMBER:PLACE` where it fits, and the place behind it.
pub fn refused_line(out: &mut [u8], at: usize, number: u8, place: usize) -> usize
    ensures value { result ≡ placed out.old at (refused_line number place) }
    ensures out_after { out.new ≡ printed out.old at (refused_line number place) }
{
    pair_line(out, at, b"refused=", u64::from(number), place as u64)
}
