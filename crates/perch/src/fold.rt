// `perch fold`: a log on standard input, the folded log on standard output, and nothing else there.
use super::refused::refuse;

fn tell(rt: &HostRuntime, log: &[u8]) -> bool {
    let mut out = [0u8; 60000];
    match perch_fold::fold(log, &mut out) {
        Ok(n) => program_io::write_front(&mut rt.stdout(), &out, n),
        Err(e) => {
            refuse(rt, e.number, e.place);
            true
        }
    }
}

// A byte more than a log may have, so that a longer one is seen.
pub(crate) fn fold(rt: &HostRuntime) -> bool {
    let mut log = [0u8; 60001];
    let r = program_io::read_input(rt, b"perch", &mut log);
    if r.failed {
        return true;
    }
    tell(rt, &log[..r.count])
}
