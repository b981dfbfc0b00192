// `perch interrupts`: a log on standard input, and on standard output when the interrupt flags and the line change.
use super::refused::explain;

pub(crate) fn tell(rt: &HostRuntime, log: &[u8], memory: &[u8]) -> bool {
    let t = interrupts_stdout::write(rt, log, memory);
    if t.begun {
        explain(rt, t.number);
    }
    t.written
}
