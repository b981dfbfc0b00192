// What a case lends: a state, sample memory, words.
ghost use Rattle.std.specs.Prelude.{◌≡◌, ◌+◌, ◌≤◌, length};
ghost use Rattle.c_state.specs.Bytes.{state_size};

use super::stored::{number, short, value};

// As many bytes as a case can lend for a state: one more than a state is.
pub(crate) const STATE: usize = c_state::SIZE + 1;

// x for the next byte of sample memory.
fn moved(x: u16, times: u16, plus: u16) -> u16 {
    ((x as u64 * times as u64 + plus as u64) % 65536) as u16
}

// The sample memory by the first line of a case.
pub(crate) fn memory(line: &[u8]) -> [u8; 32769]
    ensures { 32769 ≡ length result }
{
    let times = short(line, 7);
    let plus = short(line, 12);
    let mut x = short(line, 2);
    let mut memory = [0u8; 32769];
    for i in 0..32769 {
        x = moved(x, times, plus);
        memory[i] = (x / 256) as u8;
    }
    memory
}

// The state by the first line of a case.
pub(crate) fn state(line: &[u8]) -> [u8; STATE]
    ensures { state_size + 1 ≡ length result }
{
    let mut state = [0u8; STATE];
    for i in 0..STATE {
        state[i] = value(line, 27 + 2 * i);
    }
    state
}

// As many words as a case can lend, as they are at first.
pub(crate) fn words() -> [u32; 1024]
    ensures { 1024 ≡ length result }
{
    [0xa5a5a5a5; 1024]
}

// The lesser of two numbers.
pub(crate) fn least(n: usize, most: usize) -> usize
    ensures { (result ≤ n) × (result ≤ most) }
{
    if n <= most { n } else { most }
}

// The bytes of memory that a clock, a run or a question is lent.
pub(crate) fn front<'a>(line: &[u8], memory: &'a [u8]) -> &'a [u8] {
    let n = least(number(line, 2, 2) as usize, memory.len());
    &memory[0..n]
}

// A state copied, with zeros behind.
pub(crate) fn copy_of_state(state: &[u8]) -> [u8; STATE]
    ensures { state_size + 1 ≡ length result }
{
    let mut copy = [0u8; STATE];
    text_print::fixed(&mut copy, 0, state);
    copy
}

// Words copied, with zeros behind.
pub(crate) fn copy_of_words(words: &[u32]) -> [u32; 1024]
    ensures { 1024 ≡ length result }
{
    let mut copy = [0u32; 1024];
    for i in 0..least(words.len(), 1024) {
        copy[i] = words[i];
    }
    copy
}

// Whether two lists of words are the same.
pub(crate) fn alike(a: &[u32], b: &[u32]) -> bool {
    let mut same = a.len() == b.len();
    for i in 0..least(a.len(), b.len()) {
        same = same && a[i] == b[i];
    }
    same
}

// A sum with one more word.
fn added(sum: u32, word: u32) -> u32 {
    ((31 * sum as u64 + word as u64) % 0x100000000) as u32
}

// The sum of all words.
pub(crate) fn sum(words: &[u32]) -> u32 {
    let mut s: u32 = 0;
    for i in 0..words.len() {
        s = added(s, words[i]);
    }
    s
}
