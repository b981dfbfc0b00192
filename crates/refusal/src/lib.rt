// Why an answer isn't given: document 01's number of the refusal, and the place at which it holds.
#![tactic(auto)]

ghost use Rattle.std.specs.Prelude.{◌≡◌};
ghost use Rattle.refusal.specs.Refusal.{number_of, place_of};

#[derive(Clone, Copy, Debug, PartialEq, Eq)]
pub struct Refusal {
    pub number: u8,
    pub place: usize,
}

// The number of an answer: 0, or the refusal's.
pub fn number<T: Copy>(answer: Result<T, Refusal>) -> u8
    ensures { result ≡ number_of answer }
{
    match answer {
        Ok(_) => 0,
        Err(e) => e.number,
    }
}

// The place of an answer: 0, or the refusal's.
pub fn place<T: Copy>(answer: Result<T, Refusal>) -> usize
    ensures { result ≡ place_of answer }
{
    match answer {
        Ok(_) => 0,
        Err(e) => e.place,
    }
}
