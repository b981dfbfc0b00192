// The parts of a player's bytes, as far as there are any.
ghost use Rattle.std.specs.Prelude.{◌≡◌};
ghost use Rattle.c_player.specs.Player.{cursor_part, state_part};

use super::{CURSOR, STATE};

pub(crate) fn cursor_part(b: &[u8]) -> &[u8]
    ensures { result.now ≡ cursor_part b.now }
{
    if b.len() < CURSOR {
        return &b[..0];
    }
    if b.len() < STATE {
        return &b[CURSOR..];
    }
    &b[CURSOR..STATE]
}

pub(crate) fn state_part(b: &[u8]) -> &[u8]
    ensures { result.now ≡ state_part b.now }
{
    if b.len() < STATE {
        return &b[..0];
    }
    &b[STATE..]
}
