// The range of each field of the state: plays data/fields, which sets fields from power-on to values at and beyond the ends of their
// ranges, and writes VALUE:NUMBER for each, the number being that of the level: 0, or 2 where the state is out of range. The expected
// text, `stdout`, is worked out from document 01's "State, ranges and power-on" and request 9, not from the code.
//
// A command ends at a blank or a line feed:
//   CUF=VALUE    the field F of the unit U of the channel C set to a value, and the number
//   +CUF=VALUE   the same for all that follows on the line, with no number
//   %            power-on of a PAL machine, for what follows on the line
//   .            a line feed, and power-on again, of an NTSC machine
//   "TEXT        the rest of the line is written; #TEXT is a comment, up to the end of the line
// Channels: 1 and 2 the squares, t triangle, n noise, d DMC, f frame. Units and fields: as the functions below have them.
#![tactic(auto)]

ghost use Rattle.std.specs.Counts.{IsPrefixLen};
ghost use Rattle.std.specs.Prelude.{◌≤◌, ◌<◌, length};

use chip::State;
use chip_dmc::Dmc;
use chip_dmc_output::Output;
use chip_dmc_reader::{Reader, Registers};
use chip_envelope::Envelope;
use chip_frame::Frame;
use chip_length::Length;
use chip_linear::Linear;
use chip_noise::{Noise, Shifter};
use chip_square::Square;
use chip_sweep::Sweep;
use chip_timer::Timer;
use chip_triangle::Triangle;
use std::fs;

// ---- A command's bytes

// Whether a command that begins with `first` ends with `b`.
fn ends(first: u8, b: u8) -> bool {
    if first == b'#' || first == b'"' {
        b == b'\n'
    } else {
        b == b'\n' || b == b' '
    }
}

// The place behind the command at `at` and what ends it.
fn behind(script: &[u8], at: usize) -> usize
    requires { at < length script.now }
    ensures { (at < result) × (result ≤ length script.now) }
{
    let first = script[at];
    let mut i = at;
    while i < script.len() {
        let b = script[i];
        i += 1;
        if ends(first, b) {
            return i;
        }
    }
    i
}

fn byte_at(token: &[u8], at: usize) -> u8 {
    if at < token.len() { token[at] } else { 0 }
}

fn is_digit(b: u8) -> bool {
    b'0' <= b && b <= b'9'
}

// A number with one more byte read: a digit goes on, `=` starts anew.
fn digits_on(n: u32, b: u8) -> u32
    requires { n < 65536 }
    ensures { result < 65536 }
{
    if b == b'=' {
        0
    } else if is_digit(b) {
        (n * 10 + (b % 16) as u32) % 65536
    } else {
        n
    }
}

// The value behind a command's `=`.
fn value(token: &[u8]) -> u32
    ensures { result < 65536 }
{
    let mut n: u32 = 0;
    let mut i = 0;
    while i < token.len() {
        n = digits_on(n, token[i]);
        i += 1;
    }
    n
}

fn text(rt: &HostRuntime, t: &[u8]) {
    let _ = rt.write_all(t);
}

// A number in decimal.
fn decimal(rt: &HostRuntime, n: u64) {
    let _ = print!(rt; "{n}");
}

// What stands between a command's first and last byte.
fn inner(rt: &HostRuntime, token: &[u8]) {
    if 2 <= token.len() {
        let e = token.len() - 1;
        text(rt, &token[1..e]);
    }
}

// ---- One field of a unit set

fn low(v: u16) -> u8 {
    (v % 256) as u8
}

// e0 loop, e1 constant, e2 n, e3 start flag, e4 divider, e5 counter
fn envelope_with(e: Envelope, field: u8, v: u16) -> Envelope {
    let mut r = e;
    match field {
        b'0' => {
            r.looped = v == 1;
            r
        }
        b'1' => {
            r.constant = v == 1;
            r
        }
        b'2' => {
            r.n = low(v);
            r
        }
        b'3' => {
            r.start = v == 1;
            r
        }
        b'4' => {
            r.divider = low(v);
            r
        }
        _ => {
            r.counter = low(v);
            r
        }
    }
}

// w0 enable, w1 negate, w2 P, w3 S, w4 sweep-written, w5 divider
fn sweep_with(w: Sweep, field: u8, v: u16) -> Sweep {
    let mut r = w;
    match field {
        b'0' => {
            r.enable = v == 1;
            r
        }
        b'1' => {
            r.negate = v == 1;
            r
        }
        b'2' => {
            r.period = low(v);
            r
        }
        b'3' => {
            r.shift = low(v);
            r
        }
        b'4' => {
            r.written = v == 1;
            r
        }
        _ => {
            r.divider = low(v);
            r
        }
    }
}

// period, timer
fn timer_with(t: Timer, field: u8, v: u16) -> Timer {
    let mut r = t;
    match field {
        b'0' => {
            r.period = v;
            r
        }
        _ => {
            r.count = v;
            r
        }
    }
}

// l0 length, l1 enabled
fn length_with(l: Length, field: u8, v: u16) -> Length {
    let mut r = l;
    match field {
        b'0' => {
            r.count = low(v);
            r
        }
        _ => {
            r.enabled = v == 1;
            r
        }
    }
}

// c0 control, c1 reload, c2 linear, c3 linear-halt
fn linear_with(c: Linear, field: u8, v: u16) -> Linear {
    let mut r = c;
    match field {
        b'0' => {
            r.control = v == 1;
            r
        }
        b'1' => {
            r.reload = low(v);
            r
        }
        b'2' => {
            r.count = low(v);
            r
        }
        _ => {
            r.halt = v == 1;
            r
        }
    }
}

// s0 timer, s1 shift register
fn shifter_with(s: Shifter, field: u8, v: u16) -> Shifter {
    let mut r = s;
    match field {
        b'0' => {
            r.timer = v;
            r
        }
        _ => {
            r.register = v;
            r
        }
    }
}

// g0 interrupt enable, g1 loop, g2 index, g3 address byte, g4 length byte
fn registers_with(g: Registers, field: u8, v: u16) -> Registers {
    let mut r = g;
    match field {
        b'0' => {
            r.enable = v == 1;
            r
        }
        b'1' => {
            r.looped = v == 1;
            r
        }
        b'2' => {
            r.index = low(v);
            r
        }
        b'3' => {
            r.start = low(v);
            r
        }
        _ => {
            r.size = low(v);
            r
        }
    }
}

// o0 timer, o1 level, o2 shift byte, o3 bits, o4 silence
fn output_with(o: Output, field: u8, v: u16) -> Output {
    let mut r = o;
    match field {
        b'0' => {
            r.timer = v;
            r
        }
        b'1' => {
            r.level = low(v);
            r
        }
        b'2' => {
            r.shift = low(v);
            r
        }
        b'3' => {
            r.bits = low(v);
            r
        }
        _ => {
            r.silence = v == 1;
            r
        }
    }
}

// r0 address, r1 remaining, r2 buffer, r3 full flag, r4 interrupt flag
fn reader_with(d: Reader, field: u8, v: u16) -> Reader {
    let mut r = d;
    match field {
        b'0' => {
            r.address = v;
            r
        }
        b'1' => {
            r.remaining = v;
            r
        }
        b'2' => {
            r.buffer = low(v);
            r
        }
        b'3' => {
            r.full = v == 1;
            r
        }
        _ => {
            r.interrupt = v == 1;
            r
        }
    }
}

// ---- One field of a channel set

// p0 period, p1 timer, h0 half flag, x0 position
fn square_sequencer_with(
    q: chip_square::Sequencer,
    unit: u8,
    field: u8,
    v: u16,
) -> chip_square::Sequencer {
    let mut r = q;
    match unit {
        b'p' => {
            r.timer = timer_with(q.timer, field, v);
            r
        }
        b'h' => {
            r.half = v == 1;
            r
        }
        _ => {
            r.position = low(v);
            r
        }
    }
}

// u0 duty, and the fields of its units
fn square_with(s: Square, unit: u8, field: u8, v: u16) -> Square {
    let mut r = s;
    match unit {
        b'u' => {
            r.duty = low(v);
            r
        }
        b'e' => {
            r.envelope = envelope_with(s.envelope, field, v);
            r
        }
        b'w' => {
            r.sweep = sweep_with(s.sweep, field, v);
            r
        }
        b'l' => {
            r.length = length_with(s.length, field, v);
            r
        }
        _ => {
            r.sequencer = square_sequencer_with(s.sequencer, unit, field, v);
            r
        }
    }
}

// p0 period, p1 timer, x0 position
fn triangle_sequencer_with(
    q: chip_triangle::Sequencer,
    unit: u8,
    field: u8,
    v: u16,
) -> chip_triangle::Sequencer {
    let mut r = q;
    match unit {
        b'p' => {
            r.timer = timer_with(q.timer, field, v);
            r
        }
        _ => {
            r.position = low(v);
            r
        }
    }
}

fn triangle_with(t: Triangle, unit: u8, field: u8, v: u16) -> Triangle {
    let mut r = t;
    match unit {
        b'c' => {
            r.linear = linear_with(t.linear, field, v);
            r
        }
        b'l' => {
            r.length = length_with(t.length, field, v);
            r
        }
        _ => {
            r.sequencer = triangle_sequencer_with(t.sequencer, unit, field, v);
            r
        }
    }
}

// m0 mode, i0 index, and the fields of its units
fn noise_with(n: Noise, unit: u8, field: u8, v: u16) -> Noise {
    let mut r = n;
    match unit {
        b'e' => {
            r.envelope = envelope_with(n.envelope, field, v);
            r
        }
        b'l' => {
            r.length = length_with(n.length, field, v);
            r
        }
        b's' => {
            r.shifter = shifter_with(n.shifter, field, v);
            r
        }
        b'm' => {
            r.mode = v == 1;
            r
        }
        _ => {
            r.index = low(v);
            r
        }
    }
}

fn dmc_with(d: Dmc, unit: u8, field: u8, v: u16) -> Dmc {
    let mut r = d;
    match unit {
        b'g' => {
            r.registers = registers_with(d.registers, field, v);
            r
        }
        b'o' => {
            r.output = output_with(d.output, field, v);
            r
        }
        _ => {
            r.reader = reader_with(d.reader, field, v);
            r
        }
    }
}

// f0 mode, f1 disable, f2 clock number, f3 interrupt flag
fn frame_with(f: Frame, field: u8, v: u16) -> Frame {
    let mut r = f;
    match field {
        b'0' => {
            r.mode = v == 1;
            r
        }
        b'1' => {
            r.disable = v == 1;
            r
        }
        b'2' => {
            r.clock = v;
            r
        }
        _ => {
            r.interrupt = v == 1;
            r
        }
    }
}

// ---- The state

fn with(s: State, token: &[u8], at: usize) -> State
    requires { at < 2 }
{
    let v = value(token) as u16;
    let unit = byte_at(token, at + 1);
    let field = byte_at(token, at + 2);
    let mut r = s;
    match byte_at(token, at) {
        b'1' => {
            r.square1 = square_with(s.square1, unit, field, v);
            r
        }
        b'2' => {
            r.square2 = square_with(s.square2, unit, field, v);
            r
        }
        b't' => {
            r.triangle = triangle_with(s.triangle, unit, field, v);
            r
        }
        b'n' => {
            r.noise = noise_with(s.noise, unit, field, v);
            r
        }
        b'd' => {
            r.dmc = dmc_with(s.dmc, unit, field, v);
            r
        }
        _ => {
            r.frame = frame_with(s.frame, field, v);
            r
        }
    }
}

fn shown(rt: &HostRuntime, s: State, v: u32) {
    let m = chip_api::level(s);
    text(rt, b" ");
    decimal(rt, v as u64);
    text(rt, b":");
    decimal(rt, m.number as u64);
}

fn act(rt: &HostRuntime, s: State, token: &[u8]) -> State {
    match byte_at(token, 0) {
        b'+' => with(s, token, 1),
        b'%' => chip_api::power_on(true),
        b'.' => {
            text(rt, b"\n");
            chip_api::power_on(false)
        }
        b'"' => {
            inner(rt, token);
            s
        }
        b'#' | b'\n' | b' ' => s,
        _ => {
            shown(rt, with(s, token, 0), value(token));
            s
        }
    }
}

fn play(rt: &HostRuntime, script: &[u8]) {
    let mut s = chip_api::power_on(false);
    let mut at = 0;
    while at < script.len() {
        let e = behind(script, at);
        s = act(rt, s, &script[at..e]);
        at = e;
    }
}

// The bytes of a file, as many as there is room for; none of a file that can't be opened.
fn read(rt: &HostRuntime, name: &str, buffer: &mut [u8]) -> usize
    ensures { IsPrefixLen result buffer.new }
{
    match fs::open(rt, name) {
        Ok(mut file) => {
            let r = program_io::read_all(&mut file, buffer);
            r.count
        }
        Err(_) => 0,
    }
}

fn main(rt: HostRuntime) {
    let mut script = [0u8; 65536];
    let n = read(&rt, "fields", &mut script);
    play(&rt, &script[..n]);
}
