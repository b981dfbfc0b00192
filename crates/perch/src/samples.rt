// `perch samples`: a VGM file on standard input, and on standard output the sample memory that the data blocks in front of its commands hold.
use super::memory::of_blocks;
use super::refused::refuse;
use vgm_file::NoPart;

fn write(rt: &HostRuntime, file: &[u8]) -> bool {
    let mut memory = [0u8; 32768];
    of_blocks(file, &mut memory);
    program_io::write_all(&mut rt.stdout(), &memory)
}

// A file with a sample block at fault is refused; what else its check finds is no matter here.
fn checked(rt: &HostRuntime, file: &[u8]) -> bool {
    let c = recording::check(file);
    if c.number == 34 {
        refuse(rt, c.number, c.place);
        return true;
    }
    write(rt, file)
}

pub(crate) fn tell(rt: &HostRuntime, file: &[u8]) -> bool {
    match vgm_file::start(file) {
        Ok(_) => checked(rt, file),
        Err(NoPart::NoVgm) => {
            program_io::say(rt, b"perch: no VGM file: it doesn't begin with `Vgm `\n");
            true
        }
        Err(NoPart::Cut) => {
            program_io::say(rt, b"perch: the VGM file ends inside its header\n");
            true
        }
        Err(NoPart::Outside) => {
            program_io::say(
                rt,
                b"perch: the VGM file's header says no place for its commands\n",
            );
            true
        }
        Err(NoPart::Dual) => {
            program_io::say(rt, b"perch: a VGM file for two chips\n");
            true
        }
    }
}
