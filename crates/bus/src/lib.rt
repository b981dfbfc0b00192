// What a log holds and the chip takes: the sound registers, and an access to one.
#![tactic(auto)]

ghost use Rattle.std.specs.Prelude.{◌≡◌};
ghost use Rattle.bus.specs.Register.{is_register};

// An access on the bus: a register written with a value, or a read of the status at $4015.
#[derive(Clone, Copy)]
pub enum Access {
    Write(u16, u8),
    Read,
}

// Whether a register is one that can be written.
#[tactic(auto, unfolding(crate::specs::Register::is_register))]
pub fn is_register(register: u16) -> bool
    ensures { result ≡ is_register register }
{
    matches!(register, 0x4000..=0x4013 | 0x4015 | 0x4017)
}
