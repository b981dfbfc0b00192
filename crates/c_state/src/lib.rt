// A state as 91 bytes, for callers in other languages: the fields in document 01's order, low byte first, a flag as 0 or 1. How many they are, and
// whether bytes are a state's; `c_state_read` reads a state from them and `c_state_write` writes it.
#![tactic(auto)]

ghost use Rattle.std.specs.Prelude.{◌≡◌, leb};
ghost use Rattle.c_state.specs.Bytes.{state_size, is_state};
ghost use Rattle.std.specs.List.{list_all};
ghost use Rattle.c_bytes.specs.Fields.{byte_of};

use c_bytes::field;

// How many bytes a state is.
pub const SIZE: usize = 91;

// How many bytes a state is.
pub fn size() -> usize
    ensures { result ≡ state_size }
{
    SIZE
}

// The places of the flags.
static FLAG_PLACES: [usize; 33] = [
    1, 2, 4, 5, 8, 14, 16, 20, 22, 23, 25, 26, 29, 35, 37, 41, 42, 45, 52, 53, 54, 56, 60, 61, 67,
    68, 80, 83, 84, 85, 86, 89, 90,
];

// Whether the bytes at so many places are each 0 or 1.
fn flags_right(b: &[u8], places: &[usize]) -> bool
    ensures { result ≡ list_all (λ i. leb (byte_of b.now i) 1) places.now }
{
    places.iter().all(|at| field::byte_at(b, *at) <= 1)
}

// Whether bytes are a state's: read and written back they are as they were. So are as many as a state is with every flag 0 or 1, and no others.
pub fn is_state(b: &[u8]) -> bool
    ensures { result ≡ is_state b.now }
{
    b.len() == SIZE && flags_right(b, &FLAG_PLACES)
}
