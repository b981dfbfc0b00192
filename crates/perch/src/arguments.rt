// The words that the program was started with; word 0 is its own name.
ghost use Rattle.std.specs.Counts.{IsPrefixLen};

use std::env::{Env, FillError};

// A word's bytes, put into a buffer, and how many they are: none where the word is missing or longer than the buffer.
pub(crate) fn word(rt: &HostRuntime, i: usize, buffer: &mut [u8]) -> usize
    ensures { IsPrefixLen result buffer.new }
{
    match rt.arg(i, buffer) {
        Ok(n) => n,
        Err(_) => 0,
    }
}

// Whether there is a word of that number.
fn is_there(rt: &HostRuntime, i: usize) -> bool {
    let mut none = [0u8; 0];
    match rt.arg(i, &mut none) {
        Ok(_) => true,
        Err(FillError::TooLong) => true,
        Err(FillError::NotPresent) => false,
    }
}

// How many words there are.
pub(crate) fn count(rt: &HostRuntime) -> usize {
    for i in 0..usize::MAX {
        if !is_there(rt, i) {
            return i;
        }
    }
    usize::MAX
}
