// What is said of a VGM file whose clock no machine has: it is taken as NTSC.

fn say_clock(rt: &HostRuntime, clock: u32) {
    let mut text = [0u8; 64];
    let n = perch_import::clock_line(&mut text, 0, clock);
    program_io::write_front(&mut rt.stderr(), &text, n);
}

// Nothing is said of a log, and of a clock that is known.
pub(crate) fn warn(rt: &HostRuntime, recording: &[u8]) {
    if recording::is_file(recording) && !vgm_file::is_known(recording) {
        say_clock(rt, vgm_file::clock_of(recording));
    }
}
