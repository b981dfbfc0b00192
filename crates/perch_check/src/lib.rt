// What `perch check` writes about a log, or about a VGM file.
#![tactic(auto)]

ghost use Rattle.std.specs.Prelude.{◌≡◌};
ghost use Rattle.text_print.specs.Printed.{printed, placed};
ghost use Rattle.text_lines.specs.Puts.{Puts};
ghost use Rattle.perch_check.specs.Report.{machine_line, passed_text, reason_line, refused_text, open_line, totals_text, more_text, file_text, failed_text, check_text};

use log_rules::{Checked, Totals};
use perch_reasons::reason;
use text_lines::{keyed_line, refused_line};
use text_place::{column, line_number, mark_line, shown_line};

// `machine=pal`, or nothing.
fn machine_line(out: &mut [u8], at: usize, pal: bool) -> usize
    ensures { Puts out.old at (machine_line pal) out.new result }
{
    if pal {
        return text_print::fixed(out, at, b"machine=pal\n");
    }
    at
}

// The machine and the totals of a log that passes.
fn passed(out: &mut [u8], at: usize, c: Checked) -> usize
    ensures { Puts out.old at (passed_text c.pal c.clocks c.turns c.items) out.new result }
{
    let a = machine_line(out, at, c.pal);
    let b = keyed_line(out, a, b"clocks=", c.clocks);
    let d = keyed_line(out, b, b"turns=", c.turns);
    keyed_line(out, d, b"items=", c.items)
}

// `line L, column C: REASON`.
fn reason_line(out: &mut [u8], at: usize, line: usize, column: usize, number: u8) -> usize
    ensures { Puts out.old at (reason_line line column number) out.new result }
{
    let a = text_print::fixed(out, at, b"line ");
    let b = text_print::decimal(out, a, line as u64);
    let c = text_print::fixed(out, b, b", column ");
    let d = text_print::decimal(out, c, column as u64);
    let e = text_print::fixed(out, d, b": ");
    let f = reason(out, e, number);
    text_print::fixed(out, f, b"\n")
}

// Number, place and reason of a refusal, the line and the mark below it.
fn refused(out: &mut [u8], at: usize, log: &[u8], number: u8, place: usize) -> usize
    ensures { Puts out.old at (refused_text log.now number place) out.new result }
{
    let a = refused_line(out, at, number, place);
    let b = reason_line(out, a, line_number(log, place), column(log, place), number);
    let c = shown_line(out, b, log, place);
    mark_line(out, c, log, place)
}

// The number of the line of the innermost loop that is open at a place; 0 where none is.
#[tactic(auto, unfolding(crate::specs::Report::open_line))]
fn open_line(log: &[u8], place: usize) -> usize
    ensures { result ≡ open_line log.now place }
{
    match log_mend::open_at(log, place) {
        Some(at) => line_number(log, at),
        None => 0,
    }
}

// Clocks and turns in all.
fn totals_text(out: &mut [u8], at: usize, t: Totals) -> usize
    ensures { Puts out.old at (totals_text t) out.new result }
{
    let a = keyed_line(out, at, b"clocks=", t.clocks);
    keyed_line(out, a, b"turns=", t.turns)
}

// What helps to mend a log that is refused by 10, 9 or 8.
fn more(out: &mut [u8], at: usize, log: &[u8], c: Checked) -> usize
    ensures { Puts out.old at (more_text log.now c) out.new result }
{
    match c.number {
        10 => keyed_line(out, at, b"clocks=", log_mend::totals(log).clocks),
        9 => totals_text(out, at, log_mend::totals(log)),
        8 => keyed_line(out, at, b"open=", open_line(log, c.place) as u64),
        _ => at,
    }
}

// Number, place and reason of the refusal of a VGM file.
fn file_refused(out: &mut [u8], at: usize, number: u8, place: usize) -> usize
    ensures { Puts out.old at (file_text number place) out.new result }
{
    let a = refused_line(out, at, number, place);
    let b = text_print::fixed(out, a, b"byte ");
    let c = text_print::decimal(out, b, place as u64);
    let d = text_print::fixed(out, c, b": ");
    let e = reason(out, d, number);
    text_print::fixed(out, e, b"\n")
}

// What is said of a recording that doesn't pass.
fn failed(out: &mut [u8], at: usize, log: &[u8], c: Checked) -> usize
    ensures { Puts out.old at (failed_text log.now c) out.new result }
{
    if recording::is_file(log) {
        return file_refused(out, at, c.number, c.place);
    }
    let b = refused(out, at, log, c.number, c.place);
    more(out, b, log, c)
}

// The whole text.
fn whole(out: &mut [u8], log: &[u8]) -> usize
    ensures { Puts out.old 0 (check_text log.now) out.new result }
{
    let c = recording::check(log);
    let a = text_print::fixed(out, 0, b"check=1\n");
    if c.number == 0 {
        return passed(out, a, c);
    }
    failed(out, a, log, c)
}

// The text about a log where it fits, and its length; else nothing, and 0.
pub fn report(log: &[u8], out: &mut [u8]) -> usize
    ensures value { result ≡ placed out.old 0 (check_text log.now) }
    ensures out_after { out.new ≡ printed out.old 0 (check_text log.now) }
{
    let mut text = [0u8; 700];
    let n = whole(&mut text, log);
    text_print::fixed(out, 0, &text[..n])
}
