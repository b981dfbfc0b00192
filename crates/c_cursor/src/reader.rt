// The parts of a cursor, read from bytes.
ghost use Rattle.std.specs.Prelude.{◌≡◌};
ghost use Rattle.c_bytes.specs.Numbers.{wides_of};

use c_bytes::number;

// The starts of loops, eight bytes each.
#[tactic(auto, unfolding(c_bytes::specs::Numbers::wides_of))]
pub(crate) fn starts_at(b: &[u8]) -> [usize; 8]
    ensures { result ≡ wides_of b.now 16 8 8 }
{
    [
        number::usize_at(b, 16),
        number::usize_at(b, 24),
        number::usize_at(b, 32),
        number::usize_at(b, 40),
        number::usize_at(b, 48),
        number::usize_at(b, 56),
        number::usize_at(b, 64),
        number::usize_at(b, 72),
    ]
}

// The turns that are left, a byte each.
#[tactic(auto, unfolding(c_bytes::specs::Numbers::wides_of))]
pub(crate) fn left_at(b: &[u8]) -> [u8; 8]
    ensures { result ≡ wides_of b.now 80 1 8 }
{
    [
        number::u8_at(b, 80),
        number::u8_at(b, 81),
        number::u8_at(b, 82),
        number::u8_at(b, 83),
        number::u8_at(b, 84),
        number::u8_at(b, 85),
        number::u8_at(b, 86),
        number::u8_at(b, 87),
    ]
}
