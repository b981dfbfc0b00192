// `perch wav [RATE]`: a log on standard input, and on standard output what it sounds like as a WAV file, RATE samples a second.
use super::recordings::Played;
use super::refused::explain;
use super::{arguments, recordings};

pub(crate) fn tell(rt: &HostRuntime, log: &[u8], memory: &[u8], rate: u32) -> bool {
    let t = wav_stdout::write(rt, log, memory, rate);
    explain(rt, t.number);
    t.written
}

pub(crate) fn at_rate(rt: &HostRuntime, rate: u32) -> bool {
    let p = Played::Wav(rate);
    recordings::play(rt, p)
}

// A word that is longer than any rate reads as an empty one.
pub(crate) fn asked(rt: &HostRuntime) -> bool {
    let mut bytes = [0u8; 16];
    let n = arguments::word(rt, 2, &mut bytes);
    match text::decimal_in(&bytes[..n], 8000, 192000) {
        Some(rate) => at_rate(rt, rate),
        None => {
            program_io::say(
                rt,
                b"perch: wav [RATE]: a decimal with no leading zero from 8000 to 192000\n",
            );
            true
        }
    }
}
