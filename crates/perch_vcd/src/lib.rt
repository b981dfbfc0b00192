// What `perch vcd FROM CLOCKS` writes about a log: a VCD of a window of it.
#![tactic(auto)]

ghost use Rattle.std.specs.Prelude.{◌≡◌};
ghost use Rattle.text_print.specs.Printed.{printed, placed};
ghost use Rattle.text_lines.specs.Puts.{Puts};
ghost use Rattle.perch_vcd.specs.Text.{head_text, lane_line, seen_lines, bus_lines, time_on, point_lines, begin_text, event_text, event_time};
ghost use Rattle.perch_vcd.specs.Text.{next_text, told_after, is_over};

use chip_seen::Seen;
use play_trace::{Bus, Event, Next, Point};

// The scopes and the lanes.
fn head_lines(out: &mut [u8], at: usize) -> usize
    ensures { Puts out.old at head_text out.new result }
{
    let a = text_print::fixed(
        out,
        at,
        b"$version perchpulley $end\n$timescale 1 ns $end\n$scope module perchpulley $end\n$var wire 31 c clock $end\n$var wire 15 l level $end\n",
    );
    let b = text_print::fixed(
        out,
        a,
        b"$scope module channels $end\n$var wire 4 1 square1 $end\n$var wire 4 2 square2 $end\n$var wire 4 t triangle $end\n",
    );
    let c = text_print::fixed(
        out,
        b,
        b"$var wire 4 n noise $end\n$var wire 7 d dmc $end\n$upscope $end\n$scope module interrupts $end\n$var wire 1 i line $end\n",
    );
    let d = text_print::fixed(
        out,
        c,
        b"$var wire 1 f frame_flag $end\n$var wire 1 g dmc_flag $end\n$upscope $end\n$scope module bus $end\n",
    );
    text_print::fixed(
        out,
        d,
        b"$var wire 16 r register $end\n$var wire 8 v value $end\n$var wire 1 x read $end\n$upscope $end\n$upscope $end\n$enddefinitions $end\n",
    )
}

// The same where they fit, and the place behind them.
pub fn head(out: &mut [u8], at: usize) -> usize
    ensures value { result ≡ placed out.old at head_text }
    ensures out_after { out.new ≡ printed out.old at head_text }
{
    let mut text = [0u8; 1024];
    let n = head_lines(&mut text, 0);
    text_print::fixed(out, at, &text[..n])
}

// A lane's line: where every lane is wanted, or where it differs from before.
fn lane_line(
    out: &mut [u8],
    at: usize,
    every: bool,
    width: u8,
    code: u8,
    before: u64,
    after: u64,
) -> usize
    ensures { Puts out.old at (lane_line every width code before after) out.new result }
{
    if every {
        return vcd_text::put_value(out, at, width, code, after);
    }
    if before == after {
        return at;
    }
    vcd_text::put_value(out, at, width, code, after)
}

// The lanes of what is seen.
fn seen_lines(out: &mut [u8], at: usize, every: bool, a: Seen, b: Seen) -> usize
    ensures { Puts out.old at (seen_lines every a b) out.new result }
{
    let c = lane_line(out, at, every, 15, 108, a.level as u64, b.level as u64);
    let d = lane_line(out, c, every, 4, 49, a.square1 as u64, b.square1 as u64);
    let e = lane_line(out, d, every, 4, 50, a.square2 as u64, b.square2 as u64);
    let f = lane_line(out, e, every, 4, 116, a.triangle as u64, b.triangle as u64);
    let g = lane_line(out, f, every, 4, 110, a.noise as u64, b.noise as u64);
    let h = lane_line(out, g, every, 7, 100, a.dmc as u64, b.dmc as u64);
    let i = lane_line(out, h, every, 1, 105, a.line as u64, b.line as u64);
    let j = lane_line(
        out,
        i,
        every,
        1,
        102,
        a.frame_flag as u64,
        b.frame_flag as u64,
    );
    lane_line(out, j, every, 1, 103, a.dmc_flag as u64, b.dmc_flag as u64)
}

// The bus.
fn bus_lines(out: &mut [u8], at: usize, b: Bus) -> usize
    ensures { Puts out.old at (bus_lines b) out.new result }
{
    let c = vcd_text::put_value(out, at, 16, 114, b.register as u64);
    let d = vcd_text::put_value(out, c, 8, 118, b.value as u64);
    vcd_text::put_value(out, d, 1, 120, b.read as u64)
}

// A time line, but none twice.
fn time_on(out: &mut [u8], at: usize, told: u64, time: u64) -> usize
    ensures { Puts out.old at (time_on told time) out.new result }
{
    if told == time {
        return at;
    }
    vcd_text::put_time(out, at, time)
}

// A moment's time and its clock.
fn point_lines(out: &mut [u8], at: usize, told: u64, p: Point) -> usize
    ensures { Puts out.old at (point_lines told p) out.new result }
{
    let a = time_on(out, at, told, p.time);
    vcd_text::put_value(out, a, 31, 99, p.clock)
}

// Every lane where the window begins; no access was there yet.
fn begin_lines(out: &mut [u8], at: usize, p: Point) -> usize
    ensures { Puts out.old at (begin_text p) out.new result }
{
    let s = p.seen;
    let a = vcd_text::put_time(out, at, p.time);
    let b = text_print::fixed(out, a, b"$dumpvars\n");
    let c = vcd_text::put_value(out, b, 31, 99, p.clock);
    let d = seen_lines(out, c, true, s, s);
    let none = Bus {
        register: 0,
        value: 0,
        read: 0,
    };
    let e = bus_lines(out, d, none);
    text_print::fixed(out, e, b"$end\n")
}

fn clocked_lines(out: &mut [u8], at: usize, told: u64, before: Seen, p: Point) -> usize
    ensures { Puts out.old at (event_text told (Event.Clocked before p)) out.new result }
{
    let after = p.seen;
    let a = point_lines(out, at, told, p);
    seen_lines(out, a, false, before, after)
}

fn accessed_lines(out: &mut [u8], at: usize, told: u64, before: Seen, p: Point, b: Bus) -> usize
    ensures { Puts out.old at (event_text told (Event.Accessed before p b)) out.new result }
{
    let after = p.seen;
    let a = point_lines(out, at, told, p);
    let c = bus_lines(out, a, b);
    seen_lines(out, c, false, before, after)
}

// An event's lines.
fn event_lines(out: &mut [u8], at: usize, told: u64, e: Event) -> usize
    ensures { Puts out.old at (event_text told e) out.new result }
{
    match e {
        Event::Begins(p) => begin_lines(out, at, p),
        Event::Clocked(before, p) => clocked_lines(out, at, told, before, p),
        Event::Accessed(before, p, b) => accessed_lines(out, at, told, before, p, b),
    }
}

// The same where they fit, and the place behind them.
fn put_event(out: &mut [u8], at: usize, told: u64, e: Event) -> usize
    ensures value { result ≡ placed out.old at (event_text told e) }
    ensures out_after { out.new ≡ printed out.old at (event_text told e) }
{
    let mut text = [0u8; 256];
    let n = event_lines(&mut text, 0, told, e);
    text_print::fixed(out, at, &text[..n])
}

// The last time line where it fits, and the place behind it.
fn put_end(out: &mut [u8], at: usize, told: u64, time: u64) -> usize
    ensures value { result ≡ placed out.old at (time_on told time) }
    ensures out_after { out.new ≡ printed out.old at (time_on told time) }
{
    if told == time {
        return at;
    }
    vcd_text::put_time(out, at, time)
}

// What there is to write of a step where it fits, and the place behind it; `told` is the last time line's time.
pub fn put_next(out: &mut [u8], at: usize, told: u64, n: Next) -> usize
    ensures value { result ≡ placed out.old at (next_text told n) }
    ensures out_after { out.new ≡ printed out.old at (next_text told n) }
{
    match n {
        Next::Over(time) => put_end(out, at, told, time),
        Next::Moved => at,
        Next::Shown(e) => put_event(out, at, told, e),
        Next::Refused(number, place) => text_lines::refused_line(out, at, number, place),
    }
}

// An event's nanoseconds.
pub fn event_time(e: Event) -> u64
    ensures { result ≡ event_time e }
{
    match e {
        Event::Begins(p) => p.time,
        Event::Clocked(_, p) => p.time,
        Event::Accessed(_, p, _) => p.time,
    }
}

// The time line that is the last one behind a step.
pub fn told_after(told: u64, n: Next) -> u64
    ensures { result ≡ told_after told n }
{
    match n {
        Next::Over(_) => told,
        Next::Moved => told,
        Next::Shown(e) => event_time(e),
        Next::Refused(_, _) => told,
    }
}

// Whether a step found the window's end, or was refused.
pub fn is_over(n: Next) -> bool
    ensures { result ≡ is_over n }
{
    match n {
        Next::Over(_) => true,
        Next::Moved => false,
        Next::Shown(_) => false,
        Next::Refused(_, _) => true,
    }
}
