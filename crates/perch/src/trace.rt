// `perch vcd FROM CLOCKS`: a log on standard input, and on standard output a VCD of its clocks FROM to FROM + CLOCKS.
use super::recordings::Played;
use super::refused::explain;
use super::{arguments, recordings};

pub(crate) fn tell(rt: &HostRuntime, log: &[u8], memory: &[u8], from: u32, count: u32) -> bool {
    let t = vcd_stdout::write(rt, log, memory, from, count);
    explain(rt, t.number);
    t.written
}

fn window(rt: &HostRuntime, from: u32, count: u32) -> bool {
    let p = Played::Vcd(from, count);
    recordings::play(rt, p)
}

// A word that is longer than any clock reads as an empty one.
fn number(rt: &HostRuntime, word: usize, least: u32) -> Option<u32> {
    let mut bytes = [0u8; 16];
    let n = arguments::word(rt, word, &mut bytes);
    text::decimal_in(&bytes[..n], least, 2000000000)
}

fn expected(rt: &HostRuntime) -> bool {
    program_io::say(
        rt,
        b"perch: vcd FROM CLOCKS: decimals with no leading zero, FROM from 0 and CLOCKS from 1 to 2000000000\n",
    );
    true
}

pub(crate) fn vcd(rt: &HostRuntime) -> bool {
    match number(rt, 2, 0) {
        Some(from) => match number(rt, 3, 1) {
            Some(count) => window(rt, from, count),
            None => expected(rt),
        },
        None => expected(rt),
    }
}
