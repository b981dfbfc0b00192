// The words behind `perch sheet`.
ghost use Rattle.std.specs.Prelude.{◌≡◌};
ghost use Rattle.perch_sheet.specs.Words.{args_of, decimal_word};

// What a sheet is asked for by: the level, the address and the length.
#[derive(Clone, Copy)]
pub struct Args {
    pub level: u32,
    pub address: u32,
    pub size: u32,
}

// A decimal of at most 32 bits.
#[tactic(auto, unfolding(crate::specs::Words::decimal_word))]
fn decimal_word(s: &[u8]) -> Option<u32>
    ensures { result ≡ decimal_word s.now }
{
    text::decimal_in(s, 0, 4294967295)
}

// What the three words ask for, if each is of its shape.
#[tactic(auto, unfolding(crate::specs::Words::args_of, crate::specs::Words::args_by))]
pub fn args_of(level: &[u8], address: &[u8], size: &[u8]) -> Option<Args>
    ensures { result ≡ args_of level.now address.now size.now }
{
    Some(Args {
        level: decimal_word(level)?,
        address: text::hex4(address)?,
        size: decimal_word(size)?,
    })
}
