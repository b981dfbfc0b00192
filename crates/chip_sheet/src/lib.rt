// A sheet for a sample in memory: the level after each of its bytes, from any start level, without playing it.
#![tactic(auto)]

ghost use Rattle.std.specs.Prelude.{◌≡◌, ◌≤◌, ◌++◌, length, drop};
ghost use Rattle.chip_dmc_output.specs.Output.{level_moved};
ghost use Rattle.chip_sheet.specs.Byte.{eight_steps};
ghost use Rattle.chip_sheet.specs.Sheet.{sheet_levels, first_number, sheet_number, sheet_answer, sheet_buffer};

// A number, and how many levels were written.
// Flat, with the number first, as document 01 has it: "a refusal returns its number and place, the state as given, 0 or no for the rest".
#[derive(Clone, Copy)]
pub struct Written {
    pub number: u8,
    pub length: u16,
}

// The level moved by bit 0 of a byte. Both moves are worked and one is picked: a branch on the bits of a varied sample is often guessed wrong.
#[tactic(auto, unfolding(chip_dmc_output::specs::Output::level_moved))]
fn level_moved(byte: u8, level: u8) -> u8
    ensures { result ≡ level_moved byte level }
{
    let down = chip_dmc_output::level_moved(0, level);
    let up = chip_dmc_output::level_moved(1, level);
    if byte % 2 == 0 { down } else { up }
}

// The level after a byte's eight steps, bit 0 first.
fn stepped(byte: u8, level: u8) -> u8
    ensures { result ≡ eight_steps byte level }
{
    let mut l = level;
    for i in 0..8u32 {
        l = level_moved(byte >> i, l);
    }
    l
}

// The level after a byte: by its count of ones where no step can meet an end, else step by step.
#[tactic(auto, using(crate::proofs::Steps::agree, crate::proofs::Steps::ones_most))]
pub fn level_after(byte: u8, level: u8) -> u8
    ensures { result ≡ eight_steps byte level }
{
    if level < 16 || 111 < level {
        stepped(byte, level)
    } else {
        (u32::from(level) + 4 * byte.count_ones() - 16) as u8
    }
}

// The first n bytes of the buffer made the levels.
fn draw(memory: &[u8], level: u8, address: u16, n: usize, buffer: &mut [u8])
    requires { n ≤ length buffer.old }
    ensures { buffer.new ≡ sheet_levels memory.now n address level ++ drop n buffer.old }
{
    let mut l = level;
    let mut a = address;
    for i in 0..n {
        l = level_after(chip_dmc_reader::byte_of(memory, a), l);
        a = chip_dmc_reader::address_after(a);
        buffer[i] = l;
    }
}

// The number of the first test that is true, or 0.
#[tactic(auto, unfolding(crate::specs::Sheet::first_number))]
fn first_of(unfit: bool, loud: bool, outside: bool, long: bool, tight: bool) -> u8
    ensures { result ≡ first_number unfit loud outside long tight }
{
    if unfit {
        return 1;
    }
    if loud {
        return 20;
    }
    if outside {
        return 21;
    }
    if long {
        return 22;
    }
    if tight {
        return 23;
    }
    0
}

// The refusal, or 0; `room` is the buffer's length.
#[tactic(auto, unfolding(crate::specs::Sheet::sheet_number))]
fn number_of(memory: &[u8], level: u64, address: u64, length: u64, room: usize) -> u8
    ensures { result ≡ sheet_number memory.now level address length room }
{
    first_of(
        memory.len() != 32768,
        127 < level,
        address < 32768 || 65535 < address,
        4081 < length,
        room < length as usize,
    )
}

// The level after each of `length` bytes of the sample memory from an address on, into the buffer. Refused: 1, 20, 21, 22, 23.
pub fn sheet(memory: &[u8], level: u64, address: u64, length: u64, buffer: &mut [u8]) -> Written
    ensures value { result ≡ sheet_answer memory.now level address length buffer.old }
    ensures buffer_after { buffer.new ≡ sheet_buffer memory.now level address length buffer.old }
{
    let number = number_of(memory, level, address, length, buffer.len());
    if number == 0 {
        draw(memory, level as u8, address as u16, length as usize, buffer);
        Written {
            number: 0,
            length: length as u16,
        }
    } else {
        Written { number, length: 0 }
    }
}
