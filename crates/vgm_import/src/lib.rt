// The command part of a VGM file, brought in as a log. Two passes over the stream: one measures the log and finds every refusal, so that a
// refused call writes nothing (`vgm_measure`); the other writes it.
#![tactic(auto)]

ghost use Rattle.std.specs.Prelude.{◌≡◌, false, [], ◌+◌, ◌-◌, ◌/◌, ◌%◌, ◌≤◌, ◌<◌, length, take};
ghost use Rattle.std.proofs.lemmas.List.Edits.{sets};
ghost use Rattle.text_print.specs.Printed.{Put};
ghost use Rattle.vgm_stream.specs.Stream.{stream_of};
ghost use Rattle.log_rules.specs.Head.{head_text};
ghost use Rattle.vgm_measure.specs.Import.{import_for, import_of, buffer_for, buffer_of, text_of};
ghost use Rattle.vgm_measure.specs.Measure.{gap_text, millions, rest_text};
ghost use Rattle.vgm_import.specs.Stamps.{Stands};
ghost use Rattle.vgm_import.specs.Write.{Penned, Penning, Ending, Ready, Headed, tail_from, tail_of};

use bus::Access;
use log_line::{Act, Line};
use vgm_measure::Imported;
use vgm_stream::{Await, Said, Step};

// How far the writing has come: the samples so far, the clock of the last access, and the place of the next line.
#[derive(Clone, Copy)]
pub struct Pen {
    pub samples: usize,
    pub clock: usize,
    pub place: usize,
}

// So many waits of 1,000,000.
fn put_millions(out: &mut [u8], at: usize, m: usize) -> usize
    requires { at + length (millions m) ≤ length out.old }
    ensures { Put out.old at (millions m) out.new result }
{
    let mut place = at;
    for _ in 0..m {
        place = log_writer::put_line(out, place, Line::One(Act::Wait(1000000)));
    }
    place
}

// The rest of a gap: no line for 0.
fn put_rest(out: &mut [u8], at: usize, g: usize) -> usize
    requires { (g < 1000000) × (at + length (rest_text g) ≤ length out.old) }
    ensures { Put out.old at (rest_text g) out.new result }
{
    if g == 0 {
        return at;
    }
    log_writer::put_line(out, at, Line::One(Act::Wait(g as u32)))
}

// The lines of a gap.
fn put_gap(out: &mut [u8], at: usize, g: usize) -> usize
    requires { at + length (gap_text g) ≤ length out.old }
    ensures { Put out.old at (gap_text g) out.new result }
{
    let a = put_millions(out, at, g / 1000000);
    put_rest(out, a, g % 1000000)
}

// The lines of the gap before a write, and of the write.
fn pen_write(pal: bool, out: &mut [u8], p: Pen, register: u16, value: u8) -> Pen
    requires { Penning pal p (Step.Says (Said.Write register value)) out.old }
    ensures { Penned pal out.old p (Step.Says (Said.Write register value)) out.new result }
{
    let stands = vgm_measure::clocks_of(pal, p.samples as u32);
    let a = put_gap(out, p.place, stands - p.clock);
    let b = log_writer::put_line(
        out,
        a,
        Line::One(Act::Access(Access::Write(register, value))),
    );
    Pen {
        samples: p.samples,
        clock: stands,
        place: b,
    }
}

fn pen_said(pal: bool, out: &mut [u8], p: Pen, s: Said) -> Pen
    requires { Penning pal p (Step.Says s) out.old }
    ensures { Penned pal out.old p (Step.Says s) out.new result }
{
    match s {
        Said::Wait(n) => Pen {
            samples: p.samples + n as usize,
            ..p
        },
        Said::Write(r, v) => pen_write(pal, out, p, r, v),
    }
}

// What a step writes.
#[tactic(auto, unfolding(crate::specs::Write::step_text, crate::specs::Write::step_samples, crate::specs::Write::step_clock))]
fn pen_step(pal: bool, out: &mut [u8], p: Pen, s: Step) -> Pen
    requires { Penning pal p s out.old }
    ensures { Penned pal out.old p s out.new result }
{
    match s {
        Step::End | Step::Fault(_) | Step::Next(_) => p,
        Step::Says(x) => pen_said(pal, out, p, x),
    }
}

// The last gap and the `stop` line.
fn pen_end(pal: bool, out: &mut [u8], p: Pen)
    requires { Ending pal p out.old }
    ensures { out.new ≡ sets out.old p.place (tail_from pal p.samples p.clock []) }
{
    let c = vgm_measure::clocks_of(pal, p.samples as u32);
    let a = put_gap(out, p.place, c - p.clock);
    log_writer::put_line(out, a, Line::Stop(c as u32));
}

// The lines behind the head.
fn write_rest(pal: bool, stream: &[u8], out: &mut [u8], first: usize)
    requires { Headed pal (stream_of stream.now) first out.old }
    ensures { out.new ≡ sets out.old first (tail_of pal (stream_of stream.now)) }
{
    let mut w = Await::Command;
    let mut p = Pen {
        samples: 0,
        clock: 0,
        place: first,
    };
    for &b in stream {
        let s = vgm_stream::step_of(w, b);
        if vgm_stream::stops(s) {
            pen_end(pal, out, p);
            return;
        }
        p = pen_step(pal, out, p, s);
        w = vgm_stream::awaits(s);
    }
}

// The head of a log for a machine.
fn put_head(pal: bool, out: &mut [u8]) -> usize
    requires { length (head_text pal) ≤ length out.old }
    ensures { Put out.old 0 (head_text pal) out.new result }
{
    let first = log_writer::put_line(out, 0, Line::Header);
    if pal {
        return log_writer::put_line(out, first, Line::Machine);
    }
    first
}

// The log of a stream, over a buffer that holds it.
fn write_log(pal: bool, stream: &[u8], out: &mut [u8])
    requires { Ready pal (stream_of stream.now) out.old }
    ensures { out.new ≡ sets out.old 0 (text_of pal (stream_of stream.now)) }
{
    let first = put_head(pal, out);
    write_rest(pal, stream, out, first);
}

// Brings a stream in as a log for a machine, over the front of lent bytes. A log that is written passes the check, and stands for the stream's accesses
// at their clocks. Refused, at the first byte at fault: 25, 26, 27; then, at 0: 9; 28. Refused, the bytes stay.
pub fn import_for(pal: bool, stream: &[u8], out: &mut [u8]) -> Imported
    ensures value { result ≡ import_for pal stream.now (length out.old) }
    ensures out_after { out.new ≡ buffer_for pal stream.now out.old }
    ensures stands { result.number ≡ 0 → Stands pal stream.now (take result.length out.new) }
{
    let r = vgm_measure::measure(pal, stream, out.len());
    if r.number == 0 {
        write_log(pal, stream, out);
    }
    r
}

// The same for NTSC.
pub fn import(stream: &[u8], out: &mut [u8]) -> Imported
    ensures value { result ≡ import_of stream.now (length out.old) }
    ensures out_after { out.new ≡ buffer_of stream.now out.old }
    ensures stands { result.number ≡ 0 → Stands false stream.now (take result.length out.new) }
{
    import_for(false, stream, out)
}
