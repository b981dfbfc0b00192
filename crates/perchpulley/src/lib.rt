// What C and Rust call: the operations of the crates `c_..` under C names. A state is bytes lent in place (crate `c_state`), a slice is a
// pointer and a length, and an answer is one 64-bit number: its number, and above its low byte its value. Bytes that are no state in range are
// refused, and stay.
#![tactic(auto)]

ghost use Rattle.std.specs.Prelude.{◌≡◌};
ghost use Rattle.chip_api.specs.Answer.{access_answer, line_answer, level_answer, clock_answer};
ghost use Rattle.c_state.specs.Bytes.{state_size, state_in};
ghost use Rattle.c_chip.specs.Boundary.{power_packed, power_bytes, in_range_packed, access_of, access_packed, access_bytes, line_packed, level_packed, clock_packed, clock_bytes};
ghost use Rattle.c_probe.specs.Packed.{outputs_packed, status_packed};
ghost use Rattle.perchpulley.specs.Version.{version};

pub mod asked;
pub mod cursors;
pub mod folds;
pub mod imports;
pub mod interrupts;
pub mod logs;
pub mod meters;
pub mod pieces;
pub mod runs;
pub mod salvages;
pub mod waves;

// Which boundary this is: a caller that knows another one is told so.
#[unsafe(no_mangle)]
pub extern "C" fn perch_version() -> u32
    ensures { result ≡ version }
{
    12
}

// How many bytes a state is.
#[unsafe(no_mangle)]
pub extern "C" fn perch_state_size() -> usize
    ensures { result ≡ state_size }
{
    c_state::size()
}

// Makes the bytes the state at power-on of a machine, 0 NTSC and 1 PAL, whatever they held. Refused: 2, for another length or another machine.
#[unsafe(no_mangle)]
pub extern "C" fn perch_power_on(state: &mut [u8], machine: u8) -> u64
    ensures value { result ≡ power_packed machine state.old }
    ensures state_after { state.new ≡ power_bytes machine state.old }
{
    c_chip::power_on(state, machine)
}

// Value 1 where the bytes are a state in range, else 0. Nothing is refused.
#[unsafe(no_mangle)]
pub extern "C" fn perch_in_range(state: &[u8]) -> u64
    ensures { result ≡ in_range_packed state.now }
{
    c_chip::in_range(state)
}

// One access: where `read` is 0 a register written with a value, else $4015 read, whatever the register and the value. The answer is number +
// 2^8 x byte read (0 for a write) + 2^16 x level after + 2^32 x whether it differs from before. Refused: 2, 4.
#[unsafe(no_mangle)]
pub extern "C" fn perch_access(state: &mut [u8], read: u8, register: u16, value: u8) -> u64
    ensures value { result ≡ access_packed (access_answer (access_of read register value) (state_in state.old)) }
    ensures state_after { state.new ≡ access_bytes (access_answer (access_of read register value) (state_in state.old)) state.old }
{
    c_chip::access(state, read, register, value)
}

// Value 1 where the interrupt line is asserted. Refused: 2.
#[unsafe(no_mangle)]
pub extern "C" fn perch_interrupt_line(state: &[u8]) -> u64
    ensures { result ≡ line_packed (line_answer (state_in state.now)) }
{
    c_chip::interrupt_line(state)
}

// The mixed level. Refused: 2.
#[unsafe(no_mangle)]
pub extern "C" fn perch_level(state: &[u8]) -> u64
    ensures { result ≡ level_packed (level_answer (state_in state.now)) }
{
    c_chip::level(state)
}

// What the five channels give the mixer: square 1 + 2^4 x square 2 + 2^8 x triangle + 2^12 x noise + 2^16 x DMC. Refused: 2.
#[unsafe(no_mangle)]
pub extern "C" fn perch_outputs(state: &[u8]) -> u64
    ensures { result ≡ outputs_packed (state_in state.now) }
{
    c_probe::outputs(state)
}

// The byte that a read of $4015 would give; nothing is cleared. Refused: 2.
#[unsafe(no_mangle)]
pub extern "C" fn perch_status(state: &[u8]) -> u64
    ensures { result ≡ status_packed (state_in state.now) }
{
    c_probe::status(state)
}

// Works one clock. Refused: 1, 2.
#[unsafe(no_mangle)]
pub extern "C" fn perch_clock(state: &mut [u8], memory: &[u8]) -> u64
    ensures value { result ≡ clock_packed (clock_answer memory.now (state_in state.old)) }
    ensures state_after { state.new ≡ clock_bytes (clock_answer memory.now (state_in state.old)) state.old }
{
    c_chip::clock(state, memory)
}
