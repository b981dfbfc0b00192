// `perch meter`: a log on standard input, and on standard output the meter of what it sounds like; `perch meter waits`: of each of its waits too.
use super::recordings::Played;
use super::refused::explain;
use super::{arguments, recordings};

pub(crate) fn tell(rt: &HostRuntime, log: &[u8], memory: &[u8], each: bool) -> bool {
    let t = meter_stdout::write(rt, log, memory, each);
    if t.written {
        explain(rt, t.number);
    }
    t.written
}

pub(crate) fn meter(rt: &HostRuntime, each: bool) -> bool {
    let p = Played::Meter(each);
    recordings::play(rt, p)
}

// A word that is longer than any right one reads as an empty one.
pub(crate) fn asked(rt: &HostRuntime) -> bool {
    let mut word = [0u8; 16];
    let n = arguments::word(rt, 2, &mut word);
    if text::exact(&word[..n], b"waits") {
        return meter(rt, true);
    }
    program_io::say(rt, b"perch: expected meter, or meter waits\n");
    true
}
