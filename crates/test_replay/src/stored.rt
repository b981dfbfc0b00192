// A line's text, read from the file, and the numbers in it.
ghost use Rattle.std.specs.Counts.{IsPrefixLen};
ghost use Rattle.std.specs.Prelude.{◌≡◌, ◌+◌, ◌*◌, ◌≤◌, length};
ghost use Rattle.c_state.specs.Bytes.{state_size};

use super::lent;
use std::fs::File;
use std::os::unix::fs::FileExt;

// The longest line is the first of a case: 26 bytes, a blank, the digits of the state, and the line feed.
const LONGEST: usize = 28 + 2 * lent::STATE;

// Room for the longest line.
pub(crate) fn empty() -> [u8; LONGEST]
    ensures { 30 + 2 * state_size ≡ length result }
{
    [0; LONGEST]
}

// The byte at a place, and 0 behind the last.
pub(crate) fn byte(line: &[u8], at: usize) -> u8 {
    if at < line.len() { line[at] } else { 0 }
}

// What the two bytes at a place say in hex.
fn pair(line: &[u8], at: usize) -> Option<u32>
    requires { at ≤ 1000 }
{
    let e = at + 2;
    if e <= line.len() {
        text::hex2(&line[at..e])
    } else {
        None
    }
}

// The byte that two digits say.
pub(crate) fn value(line: &[u8], at: usize) -> u8
    requires { at ≤ 1000 }
{
    match pair(line, at) {
        Some(b) => (b % 256) as u8,
        None => 0,
    }
}

// The number that the digits of n bytes say.
pub(crate) fn number(line: &[u8], at: usize, n: usize) -> u64
    requires { (at ≤ 200) × (n ≤ 8) }
{
    let mut v: u64 = 0;
    let mut i = 0;
    while i < n {
        v = v % 0x100000000000000 * 256 + value(line, at + 2 * i) as u64;
        i += 1;
    }
    v
}

pub(crate) fn short(line: &[u8], at: usize) -> u16
    requires { at ≤ 200 }
{
    (number(line, at, 2) % 65536) as u16
}

// How many bytes each field of a letter's line has, in two digits each, the last field first; 0 where no line has the letter.
fn widths(letter: u8) -> u64 {
    match letter {
        b'B' => lent::STATE as u64 * 100_00_00_00_00 + 01_03_02_02_02,
        b'W' => 01_02_01_01_02,
        b'R' => 01_02_01_01,
        b'I' => 01_01,
        b'V' => 02_01,
        b'C' => 01_02,
        b'N' => 03_03_01_08_02,
        b'Q' => 04_01_01_01_08_02,
        b'E' => lent::STATE as u64 * 100 + 04,
        _ => 0,
    }
}

// Whether a blank and the digits of n bytes stand at a place.
fn field(line: &[u8], at: usize, n: usize) -> bool
    requires { (at ≤ 300) × (n ≤ 100) }
{
    if byte(line, at) != b' ' {
        return false;
    }
    let mut i = 0;
    while i < n {
        let Some(_) = pair(line, at + 1 + 2 * i) else {
            return false;
        };
        i += 1;
    }
    true
}

// The length of the line that a text starts with; 0 where it is none of the form.
fn size(text: &[u8]) -> usize {
    let mut left = widths(byte(text, 0));
    let mut at = 1;
    while left != 0 && at < 300 {
        let n = (left % 100) as usize;
        if !field(text, at, n) {
            return 0;
        }
        at += 1 + 2 * n;
        left = left / 100;
    }
    if 1 < at && byte(text, at) == b'\n' {
        at + 1
    } else {
        0
    }
}

// Where the answers of a letter's line begin.
pub(crate) fn answers(letter: u8) -> usize
    ensures { result ≤ 30 + 2 * state_size }
{
    match letter {
        b'B' => LONGEST,
        b'N' => 24,
        b'Q' => 27,
        b'W' => 10,
        b'C' => 7,
        _ => 2,
    }
}

// Whether no digit of a line's answers is above 0.
fn unanswered(line: &[u8], length: usize) -> bool {
    let mut at = answers(byte(line, 0));
    while at < length {
        if b'0' < byte(line, at) {
            return false;
        }
        at += 1;
    }
    true
}

// One read from a place of the file, and how many bytes it brought.
fn part(file: &File, at: u32, line: &mut [u8]) -> usize
    ensures { IsPrefixLen result line.new }
{
    match file.read_at(line, at as u64) {
        Ok(n) => n,
        Err(_) => 0,
    }
}

// The line at a place of the file, and its length; 0 where there is none of the form, or one with answers.
pub(crate) fn read(file: &File, at: u32, line: &mut [u8]) -> usize {
    let n = part(file, at, line);
    let length = size(&line[0..n]);
    if unanswered(line, length) { length } else { 0 }
}
