// A sheet for a sample, as C and Rust get it: the answer is one number, its number, and above its low byte how many levels were written.
#![tactic(auto)]

ghost use Rattle.std.specs.Prelude.{◌≡◌};
ghost use Rattle.chip_sheet.specs.Sheet.{sheet_buffer};
ghost use Rattle.c_sheet.specs.Packed.{sheet_packed};

// The level after each of `length` bytes of the sample memory from an address on, into the buffer. Refused: 1, 20, 21, 22, 23.
#[tactic(auto, unfolding(crate::specs::Packed::sheet_packed))]
pub fn sheet(memory: &[u8], level: u64, address: u64, length: u64, buffer: &mut [u8]) -> u64
    ensures value { result ≡ sheet_packed memory.now level address length buffer.old }
    ensures buffer_after { buffer.new ≡ sheet_buffer memory.now level address length buffer.old }
{
    let w = chip_sheet::sheet(memory, level, address, length, buffer);
    c_chip::pack(w.number, w.length)
}
