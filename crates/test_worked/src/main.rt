// Worked examples: plays data/examples, a list of commands, on the chip through its public operations, and writes what the chip
// answers. The expected text, `stdout`, is worked out from document 01, the reference (001) and the requests, not from the code.
//
// A command ends at a blank or a line feed:
//   on          power-on                              4015=01    a register written, in hex
//   pal         power-on of a PAL machine
//   wait=N      N clocks                              step       $4017 written with 80: step 1 at once
//   hear=N      N clocks, with CLOCK:LEVEL for each after which the level is another than before
//   trace=N     N clocks, with CLOCK:STATUS likewise (nothing is read)
//   level       the level                             irq        whether the interrupt line is asserted
//   read        the status is read                    .          a line feed
//   ?4014       the number of a write to a register   memory     the number of a clock with 5 bytes of memory
//   y0          why a channel is silent: CHANNEL:NUMBER/VALUE
//   ~40c00003   a sheet from level 40, address c000, 03 bytes, in hex: NUMBER: and the levels
//   "TEXT       the rest of the line is written       #TEXT      a comment, up to the end of the line
#![tactic(auto)]

ghost use Rattle.std.specs.Counts.{IsPrefixLen};
ghost use Rattle.std.specs.Prelude.{◌≤◌, ◌<◌, length};

use bus::Access;
use chip::State;
use std::fs;

// ---- A command's bytes

// Whether a command that begins with `first` ends with `b`.
fn ends(first: u8, b: u8) -> bool {
    if first == b'#' || first == b'"' {
        b == b'\n'
    } else {
        b == b'\n' || b == b' '
    }
}

// The place behind the command at `at` and what ends it.
fn behind(script: &[u8], at: usize) -> usize
    requires { at < length script.now }
    ensures { (at < result) × (result ≤ length script.now) }
{
    let first = script[at];
    let mut i = at;
    while i < script.len() {
        let b = script[i];
        i += 1;
        if ends(first, b) {
            return i;
        }
    }
    i
}

fn byte_at(token: &[u8], at: usize) -> u8 {
    if at < token.len() { token[at] } else { 0 }
}

fn is_digit(b: u8) -> bool {
    b'0' <= b && b <= b'9'
}

fn digit_of(b: u8) -> u8
    ensures { result < 16 }
{
    if is_digit(b) {
        b % 16
    } else {
        (b % 16 + 9) % 16
    }
}

// The byte that two hex digits stand for.
fn hex(token: &[u8], at: usize) -> u8
    requires { at < 16 }
{
    let high = digit_of(byte_at(token, at));
    let low = digit_of(byte_at(token, at + 1));
    high * 16 + low
}

// The register that four hex digits stand for.
fn register(token: &[u8], at: usize) -> u16
    requires { at < 4 }
{
    let high = hex(token, at) as u16;
    let low = hex(token, at + 2) as u16;
    high * 256 + low
}

// The number of the digits of a command.
fn count(token: &[u8]) -> u32
    ensures { result < 1000000 }
{
    let mut n: u32 = 0;
    let mut i = 0;
    while i < token.len() {
        n = digits_on(n, token[i]);
        i += 1;
    }
    n
}

fn digits_on(n: u32, b: u8) -> u32
    requires { n < 1000000 }
    ensures { result < 1000000 }
{
    if is_digit(b) {
        (n * 10 + (b % 16) as u32) % 1000000
    } else {
        n
    }
}

// ---- Writing

fn text(rt: &HostRuntime, t: &[u8]) {
    let _ = rt.write_all(t);
}

// A number in decimal.
fn decimal(rt: &HostRuntime, n: u64) {
    let _ = print!(rt; "{n}");
}

// A number in hex, in two digits at least.
fn two_digits(rt: &HostRuntime, n: u64) {
    let _ = print!(rt; "{n:02x}");
}

// A number in hex, in four digits at least.
fn four_digits(rt: &HostRuntime, n: u64) {
    let _ = print!(rt; "{n:04x}");
}

// What stands between a command's first and last byte.
fn inner(rt: &HostRuntime, token: &[u8]) {
    if 2 <= token.len() {
        let e = token.len() - 1;
        text(rt, &token[1..e]);
    }
}

fn yes_or_no(rt: &HostRuntime, n: u16) {
    if n == 1 {
        text(rt, b"yes");
    } else {
        text(rt, b"no");
    }
}

// A value seen: a level, a status byte or the line.
fn value(rt: &HostRuntime, kind: u8, n: u16) {
    match kind {
        b'h' => {
            decimal(rt, n as u64);
        }
        b't' => {
            two_digits(rt, n as u64);
        }
        _ => yes_or_no(rt, n),
    }
}

fn shown(rt: &HostRuntime, kind: u8, n: u16) {
    text(rt, b" ");
    value(rt, kind, n);
}

fn change(rt: &HostRuntime, kind: u8, clock: u32, was: u16, now: u16) {
    if was != now {
        text(rt, b" ");
        decimal(rt, clock as u64);
        text(rt, b":");
        value(rt, kind, now);
    }
}

// ---- The chip

// What is seen of a state by kind: `h` the level, `t` the status as a read would give it, `i` the line; else nothing.
fn seen(s: State, kind: u8) -> u16 {
    match kind {
        b'h' => {
            let m = chip_api::level(s);
            m.level
        }
        b't' => {
            let m = chip_api::access(s, Access::Read);
            m.byte as u16
        }
        b'i' => {
            let m = chip_api::interrupt_line(s);
            if m.asserted { 1 } else { 0 }
        }
        _ => 0,
    }
}

// `n` clocks, with what changes of what is seen.
fn clocks(rt: &HostRuntime, s: State, memory: &[u8], n: u32, kind: u8) -> State {
    let mut t = s;
    let mut was = seen(s, kind);
    let mut i = 0;
    while i < n {
        i += 1;
        let m = chip_api::clock(t, memory);
        t = m.state;
        let now = seen(t, kind);
        change(rt, kind, i, was, now);
        was = now;
    }
    t
}

fn put(s: State, register: u16, value: u8) -> State {
    let m = chip_api::access(s, Access::Write(register, value));
    m.state
}

fn read(rt: &HostRuntime, s: State) -> State {
    let m = chip_api::access(s, Access::Read);
    shown(rt, b't', m.byte as u16);
    m.state
}

fn asked(rt: &HostRuntime, s: State, register: u16) {
    let m = chip_api::access(s, Access::Write(register, 0));
    text(rt, b" ");
    four_digits(rt, register as u64);
    text(rt, b":");
    decimal(rt, m.number as u64);
}

fn short_memory(rt: &HostRuntime, s: State) {
    let m = chip_api::clock(s, b"short");
    text(rt, b" ");
    decimal(rt, m.number as u64);
}

fn reason(rt: &HostRuntime, s: State, channel: u64) {
    let r = chip_why::why(s, channel);
    text(rt, b" ");
    decimal(rt, channel);
    text(rt, b":");
    decimal(rt, chip_why::number_of(r) as u64);
    text(rt, b"/");
    decimal(rt, chip_why::value_of(r) as u64);
}

fn wide(x: u8) -> u16 {
    x as u16
}

// The first n of some levels.
fn levels(rt: &HostRuntime, out: &[u8], n: usize) {
    let mut i = 0;
    while i < out.len() {
        if i < n {
            shown(rt, b'h', wide(out[i]));
        }
        i += 1;
    }
}

fn sheet(rt: &HostRuntime, memory: &[u8], token: &[u8]) {
    let mut out = [0u8; 16];
    let w = chip_sheet::sheet(
        memory,
        hex(token, 1) as u64,
        register(token, 3) as u64,
        hex(token, 7) as u64,
        &mut out,
    );
    text(rt, b" ");
    decimal(rt, w.number as u64);
    text(rt, b":");
    levels(rt, &out, w.length as usize);
}

// A command that leaves the state as it is.
fn told(rt: &HostRuntime, s: State, token: &[u8]) {
    match byte_at(token, 0) {
        b'l' => shown(rt, b'h', seen(s, b'h')),
        b'i' => shown(rt, b'i', seen(s, b'i')),
        b'?' => asked(rt, s, register(token, 1)),
        b'm' => short_memory(rt, s),
        b'y' => reason(rt, s, count(token) as u64),
        b'.' => text(rt, b"\n"),
        b'"' => inner(rt, token),
        _ => {}
    }
}

fn act(rt: &HostRuntime, s: State, token: &[u8], memory: &[u8]) -> State {
    let kind = byte_at(token, 0);
    match kind {
        b'4' => put(s, register(token, 0), hex(token, 5)),
        b's' => put(s, 0x4017, 0x80),
        b'o' => chip_api::power_on(false),
        b'p' => chip_api::power_on(true),
        b'r' => read(rt, s),
        b'w' | b'h' | b't' => clocks(rt, s, memory, count(token), kind),
        b'~' => {
            sheet(rt, memory, token);
            s
        }
        _ => {
            told(rt, s, token);
            s
        }
    }
}

fn play(rt: &HostRuntime, script: &[u8], memory: &[u8]) {
    let mut s = chip_api::power_on(false);
    let mut at = 0;
    while at < script.len() {
        let e = behind(script, at);
        s = act(rt, s, &script[at..e], memory);
        at = e;
    }
}

// The bytes of a file, as many as there is room for; none of a file that can't be opened.
fn bytes_of(rt: &HostRuntime, name: &str, buffer: &mut [u8]) -> usize
    ensures { IsPrefixLen result buffer.new }
{
    match fs::open(rt, name) {
        Ok(mut file) => {
            let r = program_io::read_all(&mut file, buffer);
            r.count
        }
        Err(_) => 0,
    }
}

// Sample memory, an index being the address less $8000: $55 but at $8000, $C000, $C040, $C080 and $FFFF.
fn main(rt: HostRuntime) {
    let mut memory = [0x55u8; 32768];
    memory[0x0000] = 0x00;
    memory[0x4000] = 0xF0;
    memory[0x4040] = 0xFF;
    memory[0x4080] = 0x00;
    memory[0x7FFF] = 0xFF;
    let mut script = [0u8; 65536];
    let n = bytes_of(&rt, "examples", &mut script);
    play(&rt, &script[..n], &memory);
}
