// `perch play`: a log or a VGM file on standard input, and on standard output what it sounds like, as the program `player` writes it.
use super::refused::{explain, unplayed};

// The lines, and the reason on standard error where the recording is refused.
pub(crate) fn tell(rt: &HostRuntime, log: &[u8], memory: &[u8]) -> bool {
    let written = play_stdout::play(rt, log, memory);
    explain(rt, unplayed(log, memory));
    written
}
