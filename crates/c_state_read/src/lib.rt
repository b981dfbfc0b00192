// A state read from its bytes (crate `c_state`).
#![tactic(auto)]

ghost use Rattle.std.specs.Prelude.{◌≡◌};
ghost use Rattle.c_state.specs.Bytes.{state_of, state_in};

mod reader;

use c_bytes::field;
use chip::State;

// The state read from bytes, whatever they are.
#[tactic(auto, unfolding(c_state::specs::Bytes::state_of))]
pub fn decode(b: &[u8]) -> State
    ensures { result ≡ state_of b.now }
{
    State {
        square1: reader::square_at(b, 0),
        square2: reader::square_at(b, 21),
        triangle: reader::triangle_at(b, 42),
        noise: reader::noise_at(b, 53),
        dmc: reader::dmc_at(b, 67),
        frame: reader::frame_at(b, 85),
        pal: field::flag_at(b, 90),
    }
}

// The state that bytes stand for; bytes that are no state's stand for one out of range.
#[tactic(auto, unfolding(c_state::specs::Bytes::state_in, c_state::specs::Bytes::outside))]
pub fn state_in(b: &[u8]) -> State
    ensures { result ≡ state_in b.now }
{
    if c_state::is_state(b) {
        return decode(b);
    }
    decode(b"\xff")
}
