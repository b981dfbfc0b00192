// `perch import`: a VGM file on standard input, the log for its machine on standard output, and nothing else there.
use super::machine::warn;
use super::refused::refuse;
use perch_import::NotBrought;
use vgm_file::NoPart;

pub(crate) fn tell(rt: &HostRuntime, file: &[u8]) -> bool {
    let mut log = [0u8; 60000];
    match perch_import::import_file(file, &mut log) {
        Ok(n) => {
            warn(rt, file);
            return program_io::write_front(&mut rt.stdout(), &log, n);
        }
        Err(NotBrought::Refused(e)) => refuse(rt, e.number, e.place),
        Err(NotBrought::NoPart(NoPart::NoVgm)) => {
            program_io::say(rt, b"perch: no VGM file: it doesn't begin with `Vgm `\n");
        }
        Err(NotBrought::NoPart(NoPart::Cut)) => {
            program_io::say(rt, b"perch: the VGM file ends inside its header\n");
        }
        Err(NotBrought::NoPart(NoPart::Outside)) => {
            program_io::say(
                rt,
                b"perch: the VGM file's header says no place for its commands\n",
            );
        }
        Err(NotBrought::NoPart(NoPart::Dual)) => {
            program_io::say(rt, b"perch: a VGM file for two chips\n");
        }
    }
    true
}
