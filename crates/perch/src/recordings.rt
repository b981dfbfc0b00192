// A verb about a recording on standard input and what it is asked for. One function reads the recording for all of them, so that the bytes of a VGM file
// stand on the stack once.
use super::machine::warn;
use super::memory::read_for;
use super::{
    check, dwells, import, interrupts, meters, playing, samples, sound, states, trace, why,
};

// A verb that plays the recording: `why` and `at` with their clock, `vcd` with its window's first clock and its clocks, `wav` with its rate, `meter` with
// whether each wait is asked for too.
#[derive(Clone, Copy)]
pub(crate) enum Played {
    Play,
    Why(u64),
    At(u64),
    Vcd(u32, u32),
    Wav(u32),
    Meter(bool),
    Interrupts,
    Dwell,
}

// A verb about the recording's bytes alone, or one that plays them.
#[derive(Clone, Copy)]
pub(crate) enum Asked {
    Check,
    Import,
    Samples,
    Play(Played),
}

fn tell(rt: &HostRuntime, p: Played, log: &[u8], memory: &[u8]) -> bool {
    match p {
        Played::Play => playing::tell(rt, log, memory),
        Played::Why(clock) => why::tell(rt, log, memory, clock),
        Played::At(clock) => states::tell(rt, log, memory, clock),
        Played::Vcd(from, count) => trace::tell(rt, log, memory, from, count),
        Played::Wav(rate) => sound::tell(rt, log, memory, rate),
        Played::Meter(each) => meters::tell(rt, log, memory, each),
        Played::Interrupts => interrupts::tell(rt, log, memory),
        Played::Dwell => dwells::tell(rt, log, memory),
    }
}

// With the sample memory: a byte more than it has, so that a longer one is seen.
fn with_sample(rt: &HostRuntime, p: Played, log: &[u8]) -> bool {
    let mut memory = [0u8; 32769];
    let r = read_for(rt, log, &mut memory);
    if r.failed {
        return true;
    }
    warn(rt, log);
    let n = r.count;
    tell(rt, p, log, &memory[..n])
}

// Whether bytes are a VGM file that is too long; that is said.
fn is_long(rt: &HostRuntime, log: &[u8]) -> bool {
    if 524288 < log.len() && recording::is_file(log) {
        program_io::say(rt, b"perch: a VGM file of more than 512 KiB is not read\n");
        return true;
    }
    false
}

fn about(rt: &HostRuntime, a: Asked, log: &[u8]) -> bool {
    if is_long(rt, log) {
        return true;
    }
    match a {
        Asked::Check => {
            warn(rt, log);
            check::tell(rt, log)
        }
        Asked::Import => import::tell(rt, log),
        Asked::Samples => samples::tell(rt, log),
        Asked::Play(p) => with_sample(rt, p, log),
    }
}

// Room for a recording: a byte more than a VGM file may have, so that a longer one is seen, and a longer log. What stands there is of no interest: to the
// prover, which would look at each of so many bytes, it is any.
fn log_room() -> [u8; 524289] {
    [0u8; 524289]
}

pub(crate) fn answer(rt: &HostRuntime, a: Asked) -> bool {
    let mut log = log_room();
    let r = program_io::read_input(rt, b"perch", &mut log);
    if r.failed {
        return true;
    }
    let n = r.count;
    about(rt, a, &log[..n])
}

pub(crate) fn play(rt: &HostRuntime, p: Played) -> bool {
    let a = Asked::Play(p);
    answer(rt, a)
}
