// What a line asks for, worked with the functions that `perchpulley` hands out under C names. An answer is the number that C gets: number +
// 256 x value, of a run number + 2^8 x clocks done + 2^32 x records, of an access number + 2^8 x byte + 2^16 x level + 2^32 x differs, of the next
// interrupt number + 2^8 x found + 2^32 x clocks.
use super::lent;
use super::stored::{byte, number, short, value};
use super::written::hold;

// The level; as a float it must be the level over 32,768.
fn level(rt: &HostRuntime, state: &[u8]) -> u64 {
    let a = c_chip::level(state);
    let whole = (a / 256 % 65536) as u16;
    hold(
        rt,
        c_meter::level_fraction(whole) == (whole as f32) / 32768.0,
    );
    a
}

// A write, without its byte, which must be 0.
fn write(rt: &HostRuntime, line: &[u8], state: &mut [u8]) -> u64 {
    let a = c_chip::access(state, 0, short(line, 2), value(line, 7));
    hold(rt, a / 256 % 256 == 0);
    a % 256 + a / 65536 * 256
}

// The next interrupt, without the two bytes between found and clocks, which must be 0.
fn next(rt: &HostRuntime, line: &[u8], memory: &[u8], state: &[u8]) -> u64 {
    let a = c_interrupt::next_interrupt(
        state,
        lent::front(line, memory),
        number(line, 7, 8),
        value(line, 24),
    );
    hold(rt, a / 65536 % 65536 == 0);
    a % 65536 + a / 4294967296 * 65536
}

fn access(rt: &HostRuntime, line: &[u8], state: &mut [u8]) -> u64 {
    match byte(line, 0) {
        b'W' => write(rt, line, state),
        b'R' => c_chip::access(state, 1, 0, 0),
        b'I' => c_chip::interrupt_line(state),
        _ => level(rt, state),
    }
}

// A run; the plain run on copies of state and words must give the same answer, state and words, and the same counts from an empty table.
fn both(
    rt: &HostRuntime,
    count: u64,
    memory: &[u8],
    state: &mut [u8],
    words: &mut [u32],
    twin: &mut [u8],
    other: &mut [u32],
) -> u64 {
    let mut counts = [0u32; 128];
    let mut tallies = [0u32; 128];
    let a = c_run::run(state, memory, count, words, &mut counts);
    let b = c_run::run_plain(twin, memory, count, other, &mut tallies);
    hold(rt, a == b);
    hold(rt, text::exact(state, twin));
    hold(rt, lent::alike(words, other));
    hold(rt, lent::alike(&counts, &tallies));
    a
}

// A run with what its line lends, and copies of state and words for the plain run.
fn run(rt: &HostRuntime, line: &[u8], memory: &[u8], state: &mut [u8], words: &mut [u32]) -> u64 {
    let n = lent::least(state.len(), lent::STATE);
    let m = lent::least(words.len(), 1024);
    let mut twin = lent::copy_of_state(state);
    let mut other = lent::copy_of_words(words);
    both(
        rt,
        number(line, 7, 8),
        lent::front(line, memory),
        state,
        words,
        &mut twin[0..n],
        &mut other[0..m],
    )
}

// The answer to a line behind the first of a case, whose records have taken so many words; to the last line the sum of the words.
pub(crate) fn work(
    rt: &HostRuntime,
    line: &[u8],
    memory: &[u8],
    state: &mut [u8],
    words: &mut [u32],
    used: usize,
) -> u64 {
    match byte(line, 0) {
        b'N' => {
            let from = lent::least(used, words.len());
            run(rt, line, memory, state, &mut words[from..])
        }
        b'Q' => next(rt, line, memory, state),
        b'C' => c_chip::clock(state, lent::front(line, memory)),
        b'E' => lent::sum(words) as u64,
        _ => access(rt, line, state),
    }
}
