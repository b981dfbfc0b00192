// The sample memory that the data blocks in front of a VGM stream hold, the answer in one 64-bit number.
#![tactic(auto)]

ghost use Rattle.std.specs.Prelude.{◌≡◌, ◌<◌, ◌^◌};
ghost use Rattle.vgm_blocks.specs.Blocks.{samples_left};
ghost use Rattle.c_samples.specs.Packed.{filled_value, samples_packed};

use vgm_blocks::Filled;

// How many blocks there are, or the place of a refusal.
#[tactic(auto, unfolding(crate::specs::Packed::filled_value))]
fn value_of(f: Filled) -> u64
    ensures value { result ≡ filled_value f }
    ensures upper_bound { result < 2 ^ 56 }
{
    let value = if f.number == 0 { f.blocks } else { f.place };
    value as u64 % 72057594037927936
}

// Makes lent memory that of the blocks in front of a stream, 0 where they say nothing; the value is how many sample blocks there are. Refused, and the memory
// stays: 1; 34, with its place in the stream as the value.
pub fn samples(stream: &[u8], memory: &mut [u8]) -> u64
    ensures value { result ≡ samples_packed stream.now memory.old }
    ensures memory_after { memory.new ≡ samples_left stream.now memory.old }
{
    let f = vgm_blocks::samples(stream, memory);
    u64::from(f.number) + 256 * value_of(f)
}
