// A probe on a state that is bytes (crate `c_state`): what the channels give, and the status byte. The answer is one number: its number, and
// above its low byte its value. The bytes stay as they are.
#![tactic(auto)]

ghost use Rattle.std.specs.Prelude.{◌≡◌};
ghost use Rattle.c_state.specs.Bytes.{state_in};
ghost use Rattle.c_probe.specs.Packed.{probed, outputs_in, outputs_packed, status_packed};

use bus::Access;
use chip::State;
use chip_seen::Seen;

// An answer about a state in one number.
fn probed_of(s: State, value: u32) -> u64
    ensures { result ≡ probed s value }
{
    if s.in_range() {
        256 * u64::from(value)
    } else {
        2
    }
}

// What the channels give, in one number.
fn outputs_in(v: Seen) -> u32
    ensures { result ≡ outputs_in v }
{
    u32::from(v.square1)
        + 16 * u32::from(v.square2)
        + 256 * u32::from(v.triangle)
        + 4096 * u32::from(v.noise)
        + 65536 * u32::from(v.dmc)
}

// What the five channels give the mixer: square 1 + 2^4 x square 2 + 2^8 x triangle + 2^12 x noise + 2^16 x DMC. Refused: 2.
#[tactic(auto, unfolding(crate::specs::Packed::outputs_packed))]
pub fn outputs(state: &[u8]) -> u64
    ensures { result ≡ outputs_packed (state_in state.now) }
{
    let s = c_state_read::state_in(state);
    probed_of(s, outputs_in(chip_seen::seen_of(s)))
}

// The byte that a read of $4015 would give; nothing is cleared. Refused: 2.
#[tactic(auto, unfolding(crate::specs::Packed::status_packed, chip_access::specs::Access::access_byte))]
pub fn status(state: &[u8]) -> u64
    ensures { result ≡ status_packed (state_in state.now) }
{
    let s = c_state_read::state_in(state);
    let o = chip_access::accessed(s, Access::Read);
    probed_of(s, u32::from(o.byte))
}
