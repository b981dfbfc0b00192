// What `perch meter` writes about a log.
#![tactic(auto)]

ghost use Rattle.std.specs.Prelude.{◌≡◌};
ghost use Rattle.text_print.specs.Printed.{printed, placed};
ghost use Rattle.text_lines.specs.Puts.{Puts};
ghost use Rattle.perch_meter.specs.Text.{numbered, moving_word, meter_word, all_line, outcome_text, meter_text, wait_line, next_text, is_over};

use meter::Measured;
use play_meter::Answer;
use play_meter::waits::Next;

// A key and a number.
fn numbered_word(out: &mut [u8], at: usize, key: &[u8], n: u64) -> usize
    ensures { Puts out.old at (numbered key.now n) out.new result }
{
    let a = text_print::fixed(out, at, key);
    text_print::decimal(out, a, n)
}

// `moving:LOWEST:HIGHEST`.
fn moving_word(out: &mut [u8], at: usize, low: u64, high: u64) -> usize
    ensures { Puts out.old at (moving_word low high) out.new result }
{
    let a = text_print::fixed(out, at, b"moving:");
    let b = text_print::decimal(out, a, low);
    let c = text_print::fixed(out, b, b":");
    text_print::decimal(out, c, high)
}

// A meter in a word.
#[tactic(auto, unfolding(crate::specs::Text::meter_word))]
fn word(out: &mut [u8], at: usize, m: Measured) -> usize
    ensures { Puts out.old at (meter_word m) out.new result }
{
    match m {
        Measured::Refused(number) => numbered_word(out, at, b"refused:", u64::from(number)),
        Measured::NoLevels => text_print::fixed(out, at, b"none"),
        Measured::Silent => text_print::fixed(out, at, b"silent"),
        Measured::Steady(level) => numbered_word(out, at, b"steady:", u64::from(level)),
        Measured::Moving(low, high) => moving_word(out, at, u64::from(low), u64::from(high)),
    }
}

// `all=METER`.
fn all_line(out: &mut [u8], at: usize, m: Measured) -> usize
    ensures { Puts out.old at (all_line m) out.new result }
{
    let a = text_print::fixed(out, at, b"all=");
    let b = word(out, a, m);
    text_print::fixed(out, b, b"\n")
}

// The meter of the whole log, or the refusal.
fn outcome(out: &mut [u8], at: usize, a: Answer) -> usize
    ensures { Puts out.old at (outcome_text a) out.new result }
{
    if a.number == 0 {
        return all_line(out, at, a.meter);
    }
    text_lines::refused_line(out, at, a.number, a.place)
}

// The whole text.
fn whole(out: &mut [u8], log: &[u8], memory: &[u8]) -> usize
    ensures { Puts out.old 0 (meter_text log.now memory.now) out.new result }
{
    let t = play_meter::whole(log, memory);
    let a = text_print::fixed(out, 0, b"meter=1\n");
    outcome(out, a, t)
}

// The text for a log and a sample memory where it fits, and its length; else nothing, and 0.
pub fn answer(log: &[u8], memory: &[u8], out: &mut [u8]) -> usize
    ensures value { result ≡ placed out.old 0 (meter_text log.now memory.now) }
    ensures out_after { out.new ≡ printed out.old 0 (meter_text log.now memory.now) }
{
    let mut text = [0u8; 64];
    let n = whole(&mut text, log, memory);
    text_print::fixed(out, 0, &text[..n])
}

// `wait=CLOCK:CLOCKS:METER`.
fn wait_line(out: &mut [u8], at: usize, time: u64, clocks: u32, m: Measured) -> usize
    ensures { Puts out.old at (wait_line time clocks m) out.new result }
{
    let a = text_print::fixed(out, at, b"wait=");
    let b = text_print::decimal(out, a, time);
    let c = text_print::fixed(out, b, b":");
    let d = text_print::decimal(out, c, u64::from(clocks));
    let e = text_print::fixed(out, d, b":");
    let f = word(out, e, m);
    text_print::fixed(out, f, b"\n")
}

// The same where it fits, and the place behind it.
fn put_wait(out: &mut [u8], at: usize, time: u64, clocks: u32, m: Measured) -> usize
    ensures value { result ≡ placed out.old at (wait_line time clocks m) }
    ensures out_after { out.new ≡ printed out.old at (wait_line time clocks m) }
{
    let mut text = [0u8; 64];
    let n = wait_line(&mut text, 0, time, clocks, m);
    text_print::fixed(out, at, &text[..n])
}

// What there is to write of a step to the next wait, where it fits, and the place behind it.
pub fn put_next(out: &mut [u8], at: usize, n: Next) -> usize
    ensures value { result ≡ placed out.old at (next_text n) }
    ensures out_after { out.new ≡ printed out.old at (next_text n) }
{
    match n {
        Next::Over => at,
        Next::Moved => at,
        Next::Wait(time, clocks, m) => put_wait(out, at, time, clocks, m),
        Next::Refused(_, _) => at,
    }
}

// Whether a step found the log's end, or was refused.
pub fn is_over(n: Next) -> bool
    ensures { result ≡ is_over n }
{
    matches!(n, Next::Over | Next::Refused(_, _))
}
