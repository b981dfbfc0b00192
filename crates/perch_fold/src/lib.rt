// What `perch fold` does with a log.
#![tactic(auto)]

ghost use Rattle.std.specs.Prelude.{◌≡◌};
ghost use Rattle.log_fold.specs.Answer.{fold_of, fold_lent};
ghost use Rattle.perch_fold.specs.Verb.{outcome_of, OutcomeIs};

use refusal::Refusal;

// Folds a log over the front of lent bytes; 60,000 always hold it. The length of the folded log that was written; or a refusal, and the bytes stay.
pub fn fold(log: &[u8], out: &mut [u8]) -> Result<usize, Refusal>
    ensures value { result ≡ outcome_of log.now out.old }
    ensures outcome_is { OutcomeIs (fold_of log.now out.old) result }
    ensures out_after { out.new ≡ fold_lent log.now out.old }
{
    let a = log_fold::fold(log, out);
    if a.number == 0 {
        return Ok(a.length);
    }
    Err(Refusal {
        number: a.number,
        place: a.place,
    })
}
