// What `perch interrupts` writes about a log.
#![tactic(auto)]

ghost use Rattle.std.specs.Prelude.{◌≡◌};
ghost use Rattle.text_print.specs.Printed.{printed, placed};
ghost use Rattle.text_lines.specs.Puts.{Puts};
ghost use Rattle.perch_interrupts.specs.Text.{flag_line, change_text, head_text, next_text, is_over};

use play_interrupts::{Change, Next};

// The first line where it fits, and the place behind it.
pub fn head(out: &mut [u8], at: usize) -> usize
    ensures value { result ≡ placed out.old at head_text }
    ensures out_after { out.new ≡ printed out.old at head_text }
{
    text_print::fixed(out, at, b"interrupts=1\n")
}

// `KEYCLOCK:1` where a flag was set, `KEYCLOCK:0` where it was cleared, nothing where it stayed.
fn flag_line(out: &mut [u8], at: usize, key: &[u8], time: u64, before: bool, after: bool) -> usize
    ensures { Puts out.old at (flag_line key.now time before after) out.new result }
{
    if play_interrupts::same_flag(before, after) {
        return at;
    }
    text_lines::pair_line(out, at, key, time, u64::from(after))
}

// The lines of a change.
fn change_lines(out: &mut [u8], at: usize, c: Change) -> usize
    ensures { Puts out.old at (change_text c) out.new result }
{
    let before = c.before;
    let after = c.after;
    let a = flag_line(out, at, b"frame=", c.time, before.frame, after.frame);
    let b = flag_line(out, a, b"dmc=", c.time, before.dmc, after.dmc);
    flag_line(out, b, b"line=", c.time, before.line, after.line)
}

// The same where they fit, and the place behind them.
fn put_change(out: &mut [u8], at: usize, c: Change) -> usize
    ensures value { result ≡ placed out.old at (change_text c) }
    ensures out_after { out.new ≡ printed out.old at (change_text c) }
{
    let mut text = [0u8; 96];
    let n = change_lines(&mut text, 0, c);
    text_print::fixed(out, at, &text[..n])
}

// What there is to write of a step where it fits, and the place behind it.
pub fn put_next(out: &mut [u8], at: usize, n: Next) -> usize
    ensures value { result ≡ placed out.old at (next_text n) }
    ensures out_after { out.new ≡ printed out.old at (next_text n) }
{
    match n {
        Next::Over(time) => text_lines::keyed_line(out, at, b"stop=", time),
        Next::Moved => at,
        Next::Changed(c) => put_change(out, at, c),
        Next::Refused(number, place) => text_lines::refused_line(out, at, number, place),
    }
}

// Whether a step found the log's end, or was refused.
pub fn is_over(n: Next) -> bool
    ensures { result ≡ is_over n }
{
    match n {
        Next::Over(_) => true,
        Next::Moved => false,
        Next::Changed(_) => false,
        Next::Refused(_, _) => true,
    }
}
