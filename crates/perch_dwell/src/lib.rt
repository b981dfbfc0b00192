// What `perch dwell` writes about a log.
#![tactic(auto)]

ghost use Rattle.std.specs.Prelude.{◌≡◌, ◌++◌};
ghost use Rattle.text.specs.Ascii.{bytes};
ghost use Rattle.text_print.specs.Printed.{printed, placed};
ghost use Rattle.text_lines.specs.Lines.{keyed_line};
ghost use Rattle.text_lines.specs.Puts.{Puts};
ghost use Rattle.perch_dwell.specs.Text.{count_line, counts_text, outcome_text, dwell_text};

use play_dwell::Answer;

// `dmc=LEVEL:CLOCKS`, or nothing for no clocks.
fn count_line(out: &mut [u8], at: usize, level: usize, n: u32) -> usize
    ensures { Puts out.old at (count_line level n) out.new result }
{
    if n == 0 {
        return at;
    }
    text_lines::pair_line(out, at, b"dmc=", level as u64, n as u64)
}

// The lines of the counts, in order.
fn counts_text(out: &mut [u8], at: usize, counts: &[u32]) -> usize
    ensures { Puts out.old at (counts_text 0 counts.now) out.new result }
{
    let mut place = at;
    let mut i: usize = 0;
    while i < counts.len() {
        place = count_line(out, place, i, counts[i]);
        i += 1;
    }
    place
}

// The table, with the log's clocks behind it.
fn table(out: &mut [u8], at: usize, counts: &[u32], clocks: u64) -> usize
    ensures { Puts out.old at (counts_text 0 counts.now ++ keyed_line (bytes "stop=") clocks) out.new result }
{
    let a = counts_text(out, at, counts);
    text_lines::keyed_line(out, a, b"stop=", clocks)
}

// The table, or the refusal.
fn outcome(out: &mut [u8], at: usize, a: Answer) -> usize
    ensures { Puts out.old at (outcome_text a) out.new result }
{
    let counts = a.counts;
    if a.number == 0 {
        return table(out, at, &counts, a.clocks);
    }
    text_lines::refused_line(out, at, a.number, a.place)
}

// The whole text.
fn whole(out: &mut [u8], log: &[u8], memory: &[u8]) -> usize
    ensures { Puts out.old 0 (dwell_text log.now memory.now) out.new result }
{
    let t = play_dwell::whole(log, memory);
    let a = text_print::fixed(out, 0, b"dwell=1\n");
    outcome(out, a, t)
}

// The text for a log and a sample memory where it fits, and its length; else nothing, and 0.
pub fn answer(log: &[u8], memory: &[u8], out: &mut [u8]) -> usize
    ensures value { result ≡ placed out.old 0 (dwell_text log.now memory.now) }
    ensures out_after { out.new ≡ printed out.old 0 (dwell_text log.now memory.now) }
{
    let mut text = [0u8; 2560];
    let n = whole(&mut text, log, memory);
    text_print::fixed(out, 0, &text[..n])
}
