// The player: a log on standard input, the sample memory in `sample.bin`, the text on standard output. A read that fails is said on standard
// error, and nothing is written; so is a write that fails.
#![tactic(auto)]

// Room for the sample memory, and a byte more than it has, so that a longer one is seen. What stands there is of no interest: to the prover, which would
// look at each of so many bytes, it is any.
fn memory_room() -> [u8; 32769] {
    [0u8; 32769]
}

// Room for a log, and a byte more than one may have.
fn log_room() -> [u8; 524289] {
    [0u8; 524289]
}

// Whether all that is to be written was.
fn play(rt: &HostRuntime, log: &[u8]) -> bool {
    let mut memory = memory_room();
    let r = program_io::read_sample(rt, b"player", &mut memory);
    if r.failed {
        return true;
    }
    let n = r.count;
    play_stdout::play(rt, log, &memory[..n])
}

fn main(rt: HostRuntime) {
    let mut log = log_room();
    let r = program_io::read_input(&rt, b"player", &mut log);
    if r.failed {
        return;
    }
    let n = r.count;
    program_io::end(&rt, b"player", play(&rt, &log[..n]));
}
