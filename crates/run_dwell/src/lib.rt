// The dwell table of request 1: 128 counts beside a run, one for each value of the DMC level. What a run with its table answers, its number and its
// refusal.
#![tactic(auto)]

ghost use Rattle.std.specs.Prelude.{◌≡◌};
ghost use Rattle.run_dwell.specs.Dwell.{counts_within, dwell_number, dwell_refusal};

use chip::State;
use run_answer::Ran;

// A run's answer with the table it hands back.
#[derive(Clone, Copy)]
pub struct Counted {
    pub ran: Ran,
    pub counts: [u32; 128],
}

// Whether no count is over the limit.
pub fn within(counts: [u32; 128], limit: u32) -> bool
    ensures { result ≡ counts_within limit counts }
{
    counts.iter().all(|n| *n <= limit)
}

// The number of a run's answer.
#[tactic(auto, using(crate::proofs::DwellLaws::number_first, crate::proofs::DwellLaws::number_none, crate::proofs::DwellLaws::number_thirteen))]
pub fn number_of(s: State, memory: &[u8], counts: [u32; 128], count: u64) -> u8
    ensures { result ≡ dwell_number memory.now s counts count }
{
    let number = run_answer::number_of(s, memory, count);
    if number != 0 {
        return number;
    }
    if within(counts, 4000000000) { 0 } else { 13 }
}

// A refusal: state and table as they came, nothing done.
pub fn refuse(number: u8, s: State, counts: [u32; 128]) -> Counted
    ensures { result ≡ dwell_refusal number s counts }
{
    Counted {
        ran: run_answer::refuse(number, s),
        counts,
    }
}
