// The sample memory for a recording: that of its own sample blocks, where it is a VGM file with some, else the file sample.bin.
ghost use Rattle.std.specs.Prelude.{◌≤◌, length};
ghost use Rattle.std.specs.Counts.{IsPrefixLen};

use program_io::Input;

// The memory of the blocks from a place of a file on; how many sample blocks they are.
fn from(file: &[u8], at: usize, memory: &mut [u8]) -> usize {
    if file.len() < at {
        return 0;
    }
    let f = vgm_blocks::samples(&file[at..], memory);
    f.blocks
}

// The same of a whole file; none in what is no VGM file.
pub(crate) fn of_blocks(file: &[u8], memory: &mut [u8]) -> usize {
    match vgm_file::start(file) {
        Ok(at) => from(file, at, memory),
        Err(_) => 0,
    }
}

// Into a byte more than sample memory has, so that a longer one is seen.
pub(crate) fn read_for(rt: &HostRuntime, recording: &[u8], memory: &mut [u8]) -> Input
    requires { 32769 ≤ length memory.old }
    ensures { IsPrefixLen result.count memory.new }
{
    if 0 < of_blocks(recording, &mut memory[..32768]) {
        return Input {
            count: 32768,
            failed: false,
        };
    }
    program_io::read_sample(rt, b"perch", memory)
}
