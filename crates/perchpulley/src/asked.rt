// What C and Rust ask without playing: why a channel is silent, and the sheet of a sample.
ghost use Rattle.std.specs.Prelude.{◌≡◌};
ghost use Rattle.chip_why.specs.Why.{why_answer};
ghost use Rattle.c_state.specs.Bytes.{state_in};
ghost use Rattle.c_why.specs.Packed.{why_packed};
ghost use Rattle.chip_sheet.specs.Sheet.{sheet_buffer};
ghost use Rattle.c_sheet.specs.Packed.{sheet_packed};

// Why a channel is silent: 0 is square 1, 1 square 2, 3 the noise. The value is a reason from 1 to 6, or 16 + the number that the
// channel gives. Refused: 2, 24.
#[unsafe(no_mangle)]
pub extern "C" fn perch_why(state: &[u8], channel: u64) -> u64
    ensures { result ≡ why_packed (why_answer channel (state_in state.now)) }
{
    c_why::why(state, channel)
}

// The level after each of `length` bytes of the sample memory from an address on, into the buffer; the value is how many were
// written. Refused: 1, 20, 21, 22, 23.
#[unsafe(no_mangle)]
pub extern "C" fn perch_sheet(
    memory: &[u8],
    level: u64,
    address: u64,
    length: u64,
    buffer: &mut [u8],
) -> u64
    ensures value { result ≡ sheet_packed memory.now level address length buffer.old }
    ensures buffer_after { buffer.new ≡ sheet_buffer memory.now level address length buffer.old }
{
    c_sheet::sheet(memory, level, address, length, buffer)
}
