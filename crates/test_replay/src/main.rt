// Works the stored cases of data/cases again and writes them with the library's answers; host/compare/README.md has their form. In
// data/cases every answer is zeros; `stdout` is the same text with the answers of the independent reading in Rust. The program ends at
// the first line that isn't of the form.
#![tactic(auto)]

use std::fs;
use std::fs::File;

mod acts;
mod lent;
mod stored;
mod written;

// What comes of one line.
#[derive(Clone, Copy)]
struct Step {
    // the place behind it; 0 where the text ends here
    at: u32,
    // the words that records have taken so far
    used: usize,
    // whether the case ends here
    last: bool,
}

// The place behind the n bytes at a place.
fn behind(at: u32, n: usize) -> u32 {
    std::num::wrapping_add_u32(at, (n % 1000) as u32)
}

// How many words the records of an answer take: only a run's has some.
fn taken(letter: u8, a: u64) -> usize {
    if letter == b'N' {
        (a / 4294967296 * 2) as usize
    } else {
        0
    }
}

// The line at a place of the file, worked and written.
fn one(
    rt: &HostRuntime,
    file: &File,
    at: u32,
    memory: &[u8],
    state: &mut [u8],
    words: &mut [u32],
    used: usize,
) -> Step {
    let mut line = stored::empty();
    let n = stored::read(file, at, &mut line);
    let letter = stored::byte(&line, 0);
    if n == 0 || letter == b'B' {
        return Step {
            at: 0,
            used: used,
            last: true,
        };
    }
    let a = acts::work(rt, &line, memory, state, words, used);
    written::answer(&mut line, a);
    written::last(&mut line, state);
    written::write(rt, &line, n);
    Step {
        at: behind(at, n),
        used: std::num::wrapping_add_usize(used, taken(letter, a)),
        last: letter == b'E',
    }
}

// The lines of a case behind its first, and the place behind them; 0 where the text ends there.
fn rest(
    rt: &HostRuntime,
    file: &File,
    at: u32,
    memory: &[u8],
    state: &mut [u8],
    words: &mut [u32],
) -> u32 {
    let mut place = at;
    let mut used = 0;
    for _ in 0..100000u32 {
        let s = one(rt, file, place, memory, state, words, used);
        if s.last {
            return s.at;
        }
        place = s.at;
        used = s.used;
    }
    0
}

// The same, with what the case's first line lends: no more than there is.
fn begun(rt: &HostRuntime, file: &File, at: u32, line: &[u8]) -> u32 {
    let room = lent::least(stored::number(line, 17, 3) as usize, 1024);
    let length = lent::least(stored::number(line, 24, 1) as usize, lent::STATE);
    let memory = lent::memory(line);
    let mut state = lent::state(line);
    let mut words = lent::words();
    rest(
        rt,
        file,
        at,
        &memory,
        &mut state[0..length],
        &mut words[0..room],
    )
}

// The case at a place of the file, and the place behind it; 0 where there is none.
fn case(rt: &HostRuntime, file: &File, at: u32) -> u32 {
    let mut line = stored::empty();
    let n = stored::read(file, at, &mut line);
    if n == 0 || stored::byte(&line, 0) != b'B' {
        return 0;
    }
    written::write(rt, &line, n);
    begun(rt, file, behind(at, n), &line)
}

fn all(rt: &HostRuntime, file: &File) {
    let mut at = 0;
    for _ in 0..100000u32 {
        at = case(rt, file, at);
        if at == 0 {
            return;
        }
    }
}

fn main(rt: HostRuntime) {
    if let Ok(file) = fs::open(&rt, "cases") {
        all(&rt, &file);
    }
}
