// `perch salvage`: a damaged log on standard input, the repaired log on standard output, and on standard error a line for each line dropped or added.
ghost use Rattle.std.specs.Prelude.{◌≡◌, ◌%◌};

use super::refused::refuse;

// The line of an entry: 160 bytes hold it, since a line that is added has at most 15 and a reason at most 60.
fn line(rt: &HostRuntime, log: &[u8], new: &[u8], first: u32, second: u8) {
    let mut text = [0u8; 160];
    let n = perch_salvage::entry(log, new, first, second, &mut text);
    program_io::write_front(&mut rt.stderr(), &text, n);
}

// A reason's number: the low byte of a word.
fn reason(word: u32) -> u8
    ensures { result ≡ word % 256 }
{
    (word % 256) as u8
}

// The first n entries of a list, or all.
fn lines(rt: &HostRuntime, log: &[u8], new: &[u8], list: &[u32], n: usize) {
    for i in 0..n.min(list.len() / 2) {
        line(rt, log, new, list[2 * i], reason(list[2 * i + 1]));
    }
}

fn tell(rt: &HostRuntime, log: &[u8]) -> bool {
    let mut out = [0u8; 60000];
    let mut list = [0u32; 120020];
    match perch_salvage::salvage(log, &mut out, &mut list) {
        Ok(n) => {
            let written = program_io::write_front(&mut rt.stdout(), &out, n.bytes);
            lines(rt, log, &out, &list, n.entries);
            written
        }
        Err(e) => {
            refuse(rt, e.number, e.place);
            true
        }
    }
}

// A byte more than a log may have, so that a longer one is seen.
pub(crate) fn salvage(rt: &HostRuntime) -> bool {
    let mut log = [0u8; 60001];
    let r = program_io::read_input(rt, b"perch", &mut log);
    if r.failed {
        return true;
    }
    tell(rt, &log[..r.count])
}
