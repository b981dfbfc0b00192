// What a run answers, by the plain reading, and what every run shares: the record's two words, the number, a refusal.
#![tactic(auto)]

ghost use Rattle.std.specs.Prelude.{◌≡◌};
ghost use Rattle.run_answer.specs.Run.{number, stored, refusal};

use chip::State;

// A run's answer: its number, the state, the clocks done and the records written.
// Flat, with the number first, as document 01 has it: "a refusal returns its number and place, the state as given, 0 or no for the rest" (`refusal`).
#[derive(Clone, Copy)]
pub struct Ran {
    pub number: u8,
    pub state: State,
    pub done: u32,
    pub records: u32,
}

// Record n as two words, where the words have room for it.
#[tactic(auto, using(crate::proofs::WordLaws::stored_in, crate::proofs::WordLaws::stored_out))]
pub fn put(words: &mut [u32], n: usize, clock: u32, level: u32)
    ensures { words.new ≡ stored words.old n clock level }
{
    if n < words.len() / 2 {
        words[2 * n] = clock;
        words[2 * n + 1] = level;
    }
}

// The number of a run's answer.
#[tactic(auto, using(crate::proofs::AnswerLaws::number_one, crate::proofs::AnswerLaws::number_two, crate::proofs::AnswerLaws::number_three, crate::proofs::AnswerLaws::number_none))]
pub fn number_of(s: State, memory: &[u8], count: u64) -> u8
    ensures { result ≡ number memory.now s count }
{
    if memory.len() != 32768 {
        return 1;
    }
    if !s.in_range() {
        return 2;
    }
    if 1000000 < count {
        return 3;
    }
    0
}

// A refusal: the state as it came, nothing done.
pub fn refuse(number: u8, s: State) -> Ran
    ensures { result ≡ refusal number s }
{
    Ran {
        number,
        state: s,
        done: 0,
        records: 0,
    }
}
