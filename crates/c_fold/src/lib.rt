// A log folded, the answer in one 64-bit number.
#![tactic(auto)]

ghost use Rattle.std.specs.Prelude.{◌≡◌, ◌/◌, ◌%◌, ◌^◌, take};
ghost use Rattle.log_fold.specs.Answer.{fold_lent};
ghost use Rattle.log_fold_rules.specs.Promise.{Folds};
ghost use Rattle.c_fold.specs.Packed.{fold_packed};

// Rewrites a log over the front of the text with copies of lines folded into loops; the value is its length. The folded log passes the check, stands
// for the same list on the same machine with the same end, and isn't longer. Refused: as the log; then 32, at 0. Refused, the text stays.
pub fn fold(log: &[u8], text: &mut [u8]) -> u64
    ensures value { result ≡ fold_packed log.now text.old }
    ensures text_after { text.new ≡ fold_lent log.now text.old }
    ensures folds { result % 2 ^ 8 ≡ 0 → Folds log.now (take (result / 2 ^ 32) text.new) }
{
    let a = log_fold::fold(log, text);
    c_log::pack(a.number, a.place, a.length as u32)
}
