// A state written as its bytes (crate `c_state`).
#![tactic(auto)]

ghost use Rattle.std.specs.Prelude.{◌≡◌};
ghost use Rattle.c_state.specs.Encoded.{encoded};

mod writer;

use c_state::SIZE;
use chip::State;

// Writes a state to bytes. Other than so many bytes stay as they are.
pub fn encode(s: State, b: &mut [u8])
    ensures { b.new ≡ encoded s b.old }
{
    if b.len() == SIZE {
        b[0..21].copy_from_slice(&writer::square_bytes(s.square1));
        b[21..42].copy_from_slice(&writer::square_bytes(s.square2));
        b[42..53].copy_from_slice(&writer::triangle_bytes(s.triangle));
        b[53..67].copy_from_slice(&writer::noise_bytes(s.noise));
        b[67..85].copy_from_slice(&writer::dmc_bytes(s.dmc));
        b[85..91].copy_from_slice(&writer::frame_bytes(s.frame, s.pal));
    }
}
