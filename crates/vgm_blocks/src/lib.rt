// Data blocks in front of the commands of a VGM file: where they end, and the sample memory that they hold.
#![tactic(auto)]

ghost use Rattle.std.specs.Prelude.{◌≡◌, true, false, ◌+◌, ◌≤◌, length};
ghost use Rattle.vgm_blocks.specs.Blocks.{size_at, is_block, block_at, front_blocks, front_end, is_sample, is_inside, judged, fill, fill_all, samples_answer, samples_left};
ghost use Rattle.vgm_blocks.specs.Fault.{behind_if, is_fault};

// The answer of `samples`: how many sample blocks there are, or a refusal's number and place.
// Flat, with the number first, as document 01 has it: "a refusal returns its number and place, the state as given, 0 or no for the rest".
#[derive(Clone, Copy)]
pub struct Filled {
    pub number: u8,
    pub place: usize,
    pub blocks: usize,
}

// The size of the block at a place by its own word.
#[tactic(auto, unfolding(crate::specs::Blocks::size_at))]
fn size_at(stream: &[u8], at: usize) -> usize
    requires { at + 7 ≤ length stream.now }
    ensures { result ≡ size_at stream.now at }
{
    c_bytes::number::u32_at(stream, at + 3) as usize
}

// The place behind the whole block at a place, where one stands. Its size is held to what is left, so that nothing wraps.
fn behind(stream: &[u8], at: usize) -> Option<usize>
    ensures { result ≡ behind_if stream.now at }
{
    let n = stream.len();
    if n < 7 || n - 7 < at {
        return None;
    }
    let size = size_at(stream, at);
    if stream[at] == 0x67 && stream[at + 1] == 0x66 && size <= n - at - 7 {
        Some(at + 7 + size)
    } else {
        None
    }
}

// Where the commands of a stream begin, behind the blocks in front of it.
pub fn front_end(stream: &[u8]) -> usize
    ensures { result ≡ front_end stream.now }
{
    let mut at = 0;
    while let Some(next) = behind(stream, at) {
        at = next;
    }
    at
}

// What a block holds.
fn held<'a>(stream: &'a [u8], at: usize) -> &'a [u8]
    requires { is_block stream.now at ≡ true }
    ensures { result.now ≡ (block_at stream.now at).held }
{
    &stream[at + 7..at + 7 + size_at(stream, at)]
}

// Whether the block at a place is a sample block.
#[tactic(auto, unfolding(crate::specs::Blocks::is_sample, crate::specs::Blocks::block_at))]
fn is_sample(stream: &[u8], at: usize) -> bool
    ensures { result ≡ is_sample (block_at stream.now at) }
{
    c_bytes::field::byte_after(stream, at, 2) == 0xc2
}

// Whether it has an address, and all its bytes are for $8000 to $FFFF.
#[tactic(auto, unfolding(crate::specs::Blocks::is_inside, crate::specs::Blocks::address_of))]
fn is_inside(stream: &[u8], at: usize) -> bool
    requires { is_block stream.now at ≡ true }
    ensures { result ≡ is_inside (block_at stream.now at) }
{
    let bytes = held(stream, at);
    let address = c_bytes::number::u16_at(bytes, 0) as usize;
    2 <= bytes.len() && 0x8000 <= address && address + (bytes.len() - 2) <= 0x10000
}

// Whether it is a sample block at fault.
#[tactic(auto, unfolding(crate::specs::Fault::is_fault))]
fn is_fault(stream: &[u8], at: usize) -> bool
    requires { is_block stream.now at ≡ true }
    ensures { result ≡ is_fault (block_at stream.now at) }
{
    is_sample(stream, at) && !is_inside(stream, at)
}

// The blocks in front of a stream, judged: nothing is written.
// Three walks, not one with a closure for the step: of what a closure changes the proof would know nothing.
pub fn judge(stream: &[u8]) -> Filled
    ensures { result ≡ judged (front_blocks stream.now) 0 }
{
    let mut at = 0;
    let mut n = 0;
    while let Some(next) = behind(stream, at) {
        if is_fault(stream, at) {
            return Filled {
                number: 34,
                place: at,
                blocks: 0,
            };
        }
        if is_sample(stream, at) {
            n += 1;
        }
        at = next;
    }
    Filled {
        number: 0,
        place: 0,
        blocks: n,
    }
}

// The bytes of a sample block that is right, over the memory.
fn put_held(stream: &[u8], at: usize, memory: &mut [u8])
    requires at_value { is_block stream.now at ≡ true }
    requires at_value_2 { is_sample (block_at stream.now at) ≡ true }
    requires at_value_3 { is_fault (block_at stream.now at) ≡ false }
    requires memory_len { length memory.old ≡ 32768 }
    ensures { memory.new ≡ fill (block_at stream.now at) memory.old }
{
    let bytes = held(stream, at);
    let address = c_bytes::number::u16_at(bytes, 0);
    let from = address.saturating_sub(0x8000) as usize;
    text_print::fixed(memory, from, &bytes[2..]);
}

// A block that is not at fault, over the memory.
fn put_block(stream: &[u8], at: usize, memory: &mut [u8])
    requires at_value { is_block stream.now at ≡ true }
    requires at_value_2 { is_fault (block_at stream.now at) ≡ false }
    requires memory_len { length memory.old ≡ 32768 }
    ensures { memory.new ≡ fill (block_at stream.now at) memory.old }
{
    if is_sample(stream, at) {
        put_held(stream, at, memory);
    }
}

// The blocks in front of a stream, over the memory, each over what was there.
fn put_all(stream: &[u8], memory: &mut [u8])
    requires stream_value { (judged (front_blocks stream.now) 0).number ≡ 0 }
    requires memory_len { length memory.old ≡ 32768 }
    ensures { memory.new ≡ fill_all (front_blocks stream.now) memory.old }
{
    let mut at = 0;
    while let Some(next) = behind(stream, at) {
        put_block(stream, at, memory);
        at = next;
    }
}

// The sample memory that the blocks in front of a stream hold, over lent memory, 0 where they say nothing. Refused, and the memory stays: 1; 34, a sample block with no
// address or with bytes outside $8000 to $FFFF, at its first byte.
pub fn samples(stream: &[u8], memory: &mut [u8]) -> Filled
    ensures value { result ≡ samples_answer stream.now memory.old }
    ensures memory_after { memory.new ≡ samples_left stream.now memory.old }
{
    if memory.len() != 32768 {
        return Filled {
            number: 1,
            place: 0,
            blocks: 0,
        };
    }
    let answer = judge(stream);
    if answer.number == 0 {
        memory.fill(0);
        put_all(stream, memory);
    }
    answer
}
