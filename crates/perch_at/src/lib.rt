// What `perch at CLOCK` writes about a log: what is seen of the state there, and each of its fields.
#![tactic(auto)]

ghost use Rattle.std.specs.Prelude.{◌≡◌};
ghost use Rattle.text_print.specs.Printed.{printed, placed};
ghost use Rattle.text_lines.specs.Puts.{Puts};
ghost use Rattle.perch_at.specs.Text.{machine_line, status_line, seen_lines, reached_text, outcome_text, at_text};

use bus::Access;
use chip::State;
use play_at::At;

// `machine=ntsc` or `machine=pal`.
fn machine_line(out: &mut [u8], at: usize, pal: bool) -> usize
    ensures { Puts out.old at (machine_line pal) out.new result }
{
    if pal {
        return text_print::fixed(out, at, b"machine=pal\n");
    }
    text_print::fixed(out, at, b"machine=ntsc\n")
}

// `status=HH`.
fn status_line(out: &mut [u8], at: usize, byte: u8) -> usize
    ensures { Puts out.old at (status_line byte) out.new result }
{
    let a = text_print::fixed(out, at, b"status=");
    let b = text_print::hex(out, a, byte);
    text_print::fixed(out, b, b"\n")
}

// What is seen from outside.
fn seen_lines(out: &mut [u8], at: usize, pal: bool, level: u16, status: u8, line: bool) -> usize
    ensures { Puts out.old at (seen_lines pal level status line) out.new result }
{
    let a = machine_line(out, at, pal);
    let b = text_lines::keyed_line(out, a, b"level=", u64::from(level));
    let c = status_line(out, b, status);
    text_lines::keyed_line(out, c, b"line=", u64::from(line))
}

// The state at a clock. The status is that of a read; the lines are those of the state before it.
fn reached(out: &mut [u8], at: usize, clock: u64, s: State) -> usize
    ensures { Puts out.old at (reached_text clock s) out.new result }
{
    let o = chip_access::accessed(s, Access::Read);
    let level = s.level();
    let line = s.asserts();
    let a = text_lines::keyed_line(out, at, b"clock=", clock);
    let b = seen_lines(out, a, s.pal, level, o.byte, line);
    chip_text::put(out, b, s)
}

// What was reached, or the refusal.
fn outcome(out: &mut [u8], at: usize, t: At) -> usize
    ensures { Puts out.old at (outcome_text t) out.new result }
{
    let s = t.state;
    if t.number == 0 {
        return reached(out, at, t.clock, s);
    }
    text_lines::refused_line(out, at, t.number, t.place)
}

// The whole text.
fn whole(out: &mut [u8], log: &[u8], memory: &[u8], clock: u64) -> usize
    ensures { Puts out.old 0 (at_text log.now memory.now clock) out.new result }
{
    let t = play_at::state_at(log, memory, clock);
    let a = text_print::fixed(out, 0, b"at=1\n");
    outcome(out, a, t)
}

// The text for a log, a sample memory and a clock where it fits, and its length; else nothing, and 0.
pub fn answer(log: &[u8], memory: &[u8], clock: u64, out: &mut [u8]) -> usize
    ensures value { result ≡ placed out.old 0 (at_text log.now memory.now clock) }
    ensures out_after { out.new ≡ printed out.old 0 (at_text log.now memory.now clock) }
{
    let mut text = [0u8; 3072];
    let n = whole(&mut text, log, memory, clock);
    text_print::fixed(out, 0, &text[..n])
}
