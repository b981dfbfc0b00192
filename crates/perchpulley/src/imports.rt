// What C and Rust call to bring in what other players wrote.
ghost use Rattle.std.specs.Prelude.{◌≡◌, false, ◌/◌, ◌%◌, ◌^◌, eqb, length, take};
ghost use Rattle.vgm_measure.specs.Import.{buffer_of};
ghost use Rattle.vgm_import.specs.Stamps.{Stands};
ghost use Rattle.vgm_blocks.specs.Blocks.{samples_left};
ghost use Rattle.c_samples.specs.Packed.{samples_packed};
ghost use Rattle.c_import.specs.Packed.{answer_packed, import_packed, machine_answer, machine_buffer};

// Brings the command part of a VGM file in as a log over the front of the text; the value is the log's length. A log that is written passes the
// check, and stands for the stream's accesses at their clocks. Refused, with the place as the value: 25, 26, 27; then, at 0: 9; 28.
#[unsafe(no_mangle)]
pub extern "C" fn perch_import(stream: &[u8], text: &mut [u8]) -> u64
    ensures value { result ≡ import_packed stream.now (length text.old) }
    ensures text_after { text.new ≡ buffer_of stream.now text.old }
    ensures stands { result % 2 ^ 8 ≡ 0 → Stands false stream.now (take (result / 2 ^ 8) text.new) }
{
    c_import::import(stream, text)
}

// The same as a log for a machine, 0 NTSC and 1 PAL; a machine that is neither is refused before all else, with 2.
#[unsafe(no_mangle)]
pub extern "C" fn perch_import_for(stream: &[u8], machine: u8, text: &mut [u8]) -> u64
    ensures value { result ≡ answer_packed (machine_answer machine stream.now (length text.old)) }
    ensures text_after { text.new ≡ machine_buffer machine stream.now text.old }
    ensures stands { result % 2 ^ 8 ≡ 0 → Stands (eqb machine 1) stream.now (take (result / 2 ^ 8) text.new) }
{
    c_import::import_for(stream, machine, text)
}

// Makes lent memory the sample memory that the data blocks in front of a stream hold, 0 where they say nothing; the value is how many sample blocks there
// are. Refused: 1; 34, with its place in the stream as the value.
#[unsafe(no_mangle)]
pub extern "C" fn perch_samples(stream: &[u8], memory: &mut [u8]) -> u64
    ensures value { result ≡ samples_packed stream.now memory.old }
    ensures memory_after { memory.new ≡ samples_left stream.now memory.old }
{
    c_samples::samples(stream, memory)
}
