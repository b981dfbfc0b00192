// What `perch why CLOCK` writes about a log.
#![tactic(auto)]

ghost use Rattle.std.specs.Prelude.{◌≡◌, ◌++◌};
ghost use Rattle.text_print.specs.Printed.{printed, placed};
ghost use Rattle.text.specs.Ascii.{bytes};
ghost use Rattle.text_lines.specs.Lines.{keyed_line};
ghost use Rattle.text_lines.specs.Puts.{Puts};
ghost use Rattle.perch_why.specs.Text.{step_word, numbered, reason_word, channel_line, channel_lines, outcome_text, why_text};

use chip::State;
use chip_why::Reason;
use play_at::At;

// What stands still: a square's duty step, or bit 0 of the noise.
fn step_word(out: &mut [u8], at: usize, noise: bool) -> usize
    ensures value { result ≡ placed out.old at (step_word noise) }
    ensures out_after { out.new ≡ printed out.old at (step_word noise) }
{
    if noise {
        return text_print::fixed(out, at, b"bit");
    }
    text_print::fixed(out, at, b"step")
}

// A key and a number.
fn numbered_word(out: &mut [u8], at: usize, key: &[u8], n: u8) -> usize
    ensures { Puts out.old at (numbered key.now n) out.new result }
{
    let a = text_print::fixed(out, at, key);
    text_print::decimal(out, a, n as u64)
}

// A reason in a word.
fn word(out: &mut [u8], at: usize, noise: bool, r: Reason) -> usize
    ensures { Puts out.old at (reason_word noise r) out.new result }
{
    match r {
        Reason::Refused(n) => numbered_word(out, at, b"refused:", n),
        Reason::NotEnabled => text_print::fixed(out, at, b"disabled"),
        Reason::LengthZero => text_print::fixed(out, at, b"length"),
        Reason::PeriodLow => text_print::fixed(out, at, b"period"),
        Reason::TargetHigh => text_print::fixed(out, at, b"sweep"),
        Reason::StepLow => step_word(out, at, noise),
        Reason::VolumeZero => text_print::fixed(out, at, b"volume"),
        Reason::Sounds(n) => numbered_word(out, at, b"sounds:", n),
    }
}

// `CHANNEL=WORD`.
fn channel_line(out: &mut [u8], at: usize, key: &[u8], noise: bool, r: Reason) -> usize
    ensures { Puts out.old at (channel_line key.now noise r) out.new result }
{
    let a = text_print::fixed(out, at, key);
    let b = word(out, a, noise, r);
    text_print::fixed(out, b, b"\n")
}

// A line for each channel.
fn channel_lines(out: &mut [u8], at: usize, s: State) -> usize
    ensures { Puts out.old at (channel_lines s) out.new result }
{
    let first = chip_why::why(s, 0);
    let second = chip_why::why(s, 1);
    let noise = chip_why::why(s, 3);
    let a = channel_line(out, at, b"square1=", false, first);
    let b = channel_line(out, a, b"square2=", false, second);
    channel_line(out, b, b"noise=", true, noise)
}

// The clock that was reached, and the channels there.
fn reached_lines(out: &mut [u8], at: usize, clock: u64, s: State) -> usize
    ensures { Puts out.old at (keyed_line (bytes "clock=") clock ++ channel_lines s) out.new result }
{
    let a = text_lines::keyed_line(out, at, b"clock=", clock);
    channel_lines(out, a, s)
}

// What was reached, or the refusal.
fn outcome(out: &mut [u8], at: usize, t: At) -> usize
    ensures { Puts out.old at (outcome_text t) out.new result }
{
    let s = t.state;
    if t.number == 0 {
        return reached_lines(out, at, t.clock, s);
    }
    text_lines::refused_line(out, at, t.number, t.place)
}

// The whole text.
fn whole(out: &mut [u8], log: &[u8], memory: &[u8], clock: u64) -> usize
    ensures { Puts out.old 0 (why_text log.now memory.now clock) out.new result }
{
    let t = play_at::state_at(log, memory, clock);
    let a = text_print::fixed(out, 0, b"why=1\n");
    outcome(out, a, t)
}

// The text for a log, a sample memory and a clock where it fits, and its length; else nothing, and 0.
pub fn answer(log: &[u8], memory: &[u8], clock: u64, out: &mut [u8]) -> usize
    ensures value { result ≡ placed out.old 0 (why_text log.now memory.now clock) }
    ensures out_after { out.new ≡ printed out.old 0 (why_text log.now memory.now clock) }
{
    let mut text = [0u8; 128];
    let n = whole(&mut text, log, memory, clock);
    text_print::fixed(out, 0, &text[..n])
}
