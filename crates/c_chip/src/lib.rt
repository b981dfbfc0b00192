// The chip's operations on a state that is bytes lent in place (crate `c_state`). An answer is one 64-bit number: its number, and above
// its low byte its value, or an access's values. Bytes that are no state in range are refused, and stay.
#![tactic(auto)]

ghost use Rattle.std.specs.Prelude.{◌≡◌, eqb};
ghost use Rattle.arith.specs.Pick.{pick};
ghost use Rattle.c_state.specs.Bytes.{state_in};
ghost use Rattle.c_state.specs.Encoded.{encoded};
ghost use Rattle.chip_api.specs.Answer.{access_answer, line_answer, level_answer, clock_answer};
ghost use Rattle.c_chip.specs.Boundary.{packed, other_length, power_number, power_packed, power_bytes, in_range_packed, access_of, access_packed, access_bytes, line_packed, level_packed, clock_packed, clock_bytes};

use bus::Access;
use chip::State;
use chip_api::Answered;

// A number and a value in one.
pub fn pack(number: u8, value: u16) -> u64
    ensures { result ≡ packed number value }
{
    u64::from(number) + 256 * u64::from(value)
}

// The number of bytes of another length than is asked for: 2, but a sample memory of another length comes before it, by 1.
pub fn other_length(memory: &[u8]) -> u8
    ensures { result ≡ other_length memory.now }
{
    if memory.len() == 32768 { 2 } else { 1 }
}

// The state written to the bytes, where the number says that it is done.
pub fn store(number: u8, s: State, b: &mut [u8])
    ensures { b.new ≡ pick (eqb number 0) (encoded s b.old) b.old }
{
    if number == 0 {
        c_state_write::encode(s, b);
    }
}

fn power_number(machine: u8, b: &[u8]) -> u8
    ensures { result ≡ power_number machine b.now }
{
    if b.len() == c_state::SIZE && machine <= 1 {
        0
    } else {
        2
    }
}

// Makes the bytes the state at power-on of a machine, 0 NTSC and 1 PAL, whatever they held. Refused: 2, for another length or another machine.
pub fn power_on(state: &mut [u8], machine: u8) -> u64
    ensures value { result ≡ power_packed machine state.old }
    ensures state_after { state.new ≡ power_bytes machine state.old }
{
    let number = power_number(machine, state);
    let s = chip_api::power_on(machine == 1);
    store(number, s, state);
    pack(number, 0)
}

// Value 1 where the bytes are a state in range, else 0. Nothing is refused.
pub fn in_range(state: &[u8]) -> u64
    ensures { result ≡ in_range_packed state.now }
{
    let s = c_state_read::state_in(state);
    pack(0, u16::from(chip_api::in_range(s)))
}

#[tactic(auto, unfolding(crate::specs::Boundary::access_of))]
fn access_of(read: u8, register: u16, value: u8) -> Access
    ensures { result ≡ access_of read register value }
{
    if read == 0 {
        Access::Write(register, value)
    } else {
        Access::Read
    }
}

fn pack_access(a: Answered) -> u64
    ensures { result ≡ access_packed a }
{
    u64::from(a.number)
        + 256 * u64::from(a.byte)
        + 65536 * u64::from(a.level)
        + 4294967296 * u64::from(a.differs)
}

// One access: where `read` is 0 a register written with a value, else $4015 read, whatever the register and the value. The answer is number +
// 2^8 x byte read (0 for a write) + 2^16 x level after + 2^32 x whether it differs from before. Refused: 2, 4.
pub fn access(state: &mut [u8], read: u8, register: u16, value: u8) -> u64
    ensures value { result ≡ access_packed (access_answer (access_of read register value) (state_in state.old)) }
    ensures state_after { state.new ≡ access_bytes (access_answer (access_of read register value) (state_in state.old)) state.old }
{
    let x = access_of(read, register, value);
    let s = c_state_read::state_in(state);
    let a = chip_api::access(s, x);
    store(a.number, a.state, state);
    pack_access(a)
}

// Value 1 where the interrupt line is asserted. Refused: 2.
pub fn interrupt_line(state: &[u8]) -> u64
    ensures { result ≡ line_packed (line_answer (state_in state.now)) }
{
    let s = c_state_read::state_in(state);
    let m = chip_api::interrupt_line(s);
    pack(m.number, u16::from(m.asserted))
}

// The mixed level. Refused: 2.
pub fn level(state: &[u8]) -> u64
    ensures { result ≡ level_packed (level_answer (state_in state.now)) }
{
    let s = c_state_read::state_in(state);
    let m = chip_api::level(s);
    pack(m.number, m.level)
}

// Works one clock. Refused: 1, 2.
pub fn clock(state: &mut [u8], memory: &[u8]) -> u64
    ensures value { result ≡ clock_packed (clock_answer memory.now (state_in state.old)) }
    ensures state_after { state.new ≡ clock_bytes (clock_answer memory.now (state_in state.old)) state.old }
{
    let s = c_state_read::state_in(state);
    let m = chip_api::clock(s, memory);
    store(m.number, m.state, state);
    pack(m.number, 0)
}
