// A line as it is shown, and the mark below it.
ghost use Rattle.std.specs.Prelude.{◌≡◌, [], ◌∷◌, ◌+◌, ◌≤◌, length};
ghost use Rattle.std.proofs.lemmas.List.Edits.{sets};
ghost use Rattle.text_print.specs.Printed.{printed, placed, Put};
ghost use Rattle.text_place.specs.Shown.{visible, shown_byte, shown, blank, shown_line, mark_line};

use crate::place::{first, front_at, line_at};

// Whether a byte is written as itself.
#[tactic(auto, unfolding(crate::specs::Shown::visible))]
fn visible(c: u8) -> bool
    ensures { result ≡ visible c }
{
    32 <= c && c <= 126
}

// A byte as it is shown.
fn shown_byte(out: &mut [u8], at: usize, c: u8) -> usize
    requires { at + length (shown_byte c) ≤ length out.old }
    ensures value { result ≡ at + length (shown_byte c) }
    ensures out_after { out.new ≡ sets out.old at (shown_byte c) }
{
    if visible(c) {
        return text_print::fixed(out, at, &[c]);
    }
    let a = text_print::fixed(out, at, b"\\x");
    text_print::hex(out, a, c)
}

// The bytes of s as they are shown.
fn shown(out: &mut [u8], at: usize, s: &[u8]) -> usize
    requires { at + length (shown s.now) ≤ length out.old }
    ensures value { result ≡ at + length (shown s.now) }
    ensures out_after { out.new ≡ sets out.old at (shown s.now) }
{
    let mut place = at;
    for c in s {
        place = shown_byte(out, place, *c);
    }
    place
}

// The spaces below a byte that is shown.
fn blank_byte(out: &mut [u8], at: usize, c: u8) -> usize
    requires { at + length (blank (c ∷ [])) ≤ length out.old }
    ensures value { result ≡ at + length (blank (c ∷ [])) }
    ensures out_after { out.new ≡ sets out.old at (blank (c ∷ [])) }
{
    if visible(c) {
        return text_print::fixed(out, at, b" ");
    }
    text_print::fixed(out, at, b"    ")
}

// The spaces below the bytes of s.
fn blank(out: &mut [u8], at: usize, s: &[u8]) -> usize
    requires { at + length (blank s.now) ≤ length out.old }
    ensures value { result ≡ at + length (blank s.now) }
    ensures out_after { out.new ≡ sets out.old at (blank s.now) }
{
    let mut place = at;
    for c in s {
        place = blank_byte(out, place, *c);
    }
    place
}

// The first 60 bytes of the place's line, at the front of a buffer.
fn line_in(out: &mut [u8], log: &[u8], place: usize) -> usize
    requires { 241 ≤ length out.old }
    ensures { Put out.old 0 (shown_line log.now place) out.new result }
{
    let a = shown(out, 0, first(line_at(log, place), 60));
    text_print::fixed(out, a, b"\n")
}

// The mark below the place, at the front of a buffer.
fn mark_in(out: &mut [u8], log: &[u8], place: usize) -> usize
    requires { 242 ≤ length out.old }
    ensures { Put out.old 0 (mark_line log.now place) out.new result }
{
    let a = blank(out, 0, first(front_at(log, place), 60));
    text_print::fixed(out, a, b"^\n")
}

// The first 60 bytes of the place's line where they fit, and the place behind them.
pub fn shown_line(out: &mut [u8], at: usize, log: &[u8], place: usize) -> usize
    ensures value { result ≡ placed out.old at (shown_line log.now place) }
    ensures out_after { out.new ≡ printed out.old at (shown_line log.now place) }
{
    let mut text = [0u8; 241];
    let n = line_in(&mut text, log, place);
    text_print::fixed(out, at, &text[..n])
}

// The mark below the place where it fits, and the place behind it.
pub fn mark_line(out: &mut [u8], at: usize, log: &[u8], place: usize) -> usize
    ensures value { result ≡ placed out.old at (mark_line log.now place) }
    ensures out_after { out.new ≡ printed out.old at (mark_line log.now place) }
{
    let mut text = [0u8; 242];
    let n = mark_in(&mut text, log, place);
    text_print::fixed(out, at, &text[..n])
}
