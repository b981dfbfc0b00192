// Answers put into a line in place of its zeros, and the line written.
ghost use Rattle.std.specs.Prelude.{◌≤◌};

use super::stored::{answers, byte};

// The last n bytes of a number at a place, and the number above them.
fn put(line: &mut [u8], at: usize, n: usize, v: u64) -> u64
    requires { (at ≤ 300) × (n ≤ 100) }
{
    let mut left = v;
    let mut i = n;
    while 0 < i {
        i -= 1;
        text_print::hex(line, at + 2 * i, (left % 256) as u8);
        left = left / 256;
    }
    left
}

// The bytes of a state from a place on.
fn put_state(line: &mut [u8], place: usize, state: &[u8]) {
    let mut at = place;
    for i in 0..state.len() {
        at = text_print::hex(line, at, state[i]);
    }
}

// How many bytes each answer of a letter's line has, but for a state, in two digits each, the last first.
fn widths(letter: u8) -> u64 {
    match letter {
        b'W' => 01_02_01,
        b'R' => 01_02_01_01,
        b'C' => 01,
        b'I' => 01_01,
        b'V' => 02_01,
        b'N' => 03_03_01,
        b'Q' => 04_01_01,
        b'E' => 04,
        _ => 0,
    }
}

// The answers to a line, the first one in the lowest bytes of a number.
pub(crate) fn answer(line: &mut [u8], a: u64) {
    let letter = byte(line, 0);
    let mut left = widths(letter);
    let mut at = answers(letter);
    let mut v = a;
    while left != 0 && at < 200 {
        let n = (left % 100) as usize;
        v = put(line, at, n, v);
        at += 2 * n + 1;
        left = left / 100;
    }
}

// The state, where the line is the last of a case.
pub(crate) fn last(line: &mut [u8], state: &[u8]) {
    if byte(line, 0) == b'E' {
        put_state(line, 11, state);
    }
}

// A line that no expected text has, where something does not hold.
pub(crate) fn hold(rt: &HostRuntime, holds: bool) {
    if !holds {
        let _ = rt.write_all(b"DIFFERS\n");
    }
}

pub(crate) fn write(rt: &HostRuntime, line: &[u8], n: usize) {
    if n <= line.len() {
        let _ = rt.write_all(&line[0..n]);
    }
}
