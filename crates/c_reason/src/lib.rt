// A refusal's number in words, written into lent bytes.
#![tactic(auto)]

ghost use Rattle.std.specs.Prelude.{◌≡◌};
ghost use Rattle.text_print.specs.Printed.{printed};
ghost use Rattle.perch_reasons.specs.Reasons.{reason_text};
ghost use Rattle.c_reason.specs.Packed.{reason_packed};

// Writes the words where they fit, else nothing.
pub fn reason(number: u8, text: &mut [u8]) -> u64
    ensures value { result ≡ reason_packed number text.old }
    ensures text_after { text.new ≡ printed text.old 0 (reason_text number) }
{
    let n = perch_reasons::reason(text, 0, number);
    4294967296 * n as u64
}
