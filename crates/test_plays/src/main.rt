// Plays each log of data/: 00.log, 01.log and so on, up to the first that is not there; then the first with memories of other lengths.
#![tactic(auto)]

use std::fs;

fn text(rt: &HostRuntime, t: &[u8]) {
    let _ = rt.write_all(t);
}

// One log, by its number; whether it is there.
fn one(rt: &HostRuntime, k: u8, memory: &[u8]) -> bool {
    let name = [b'0' + k / 10 % 10, b'0' + k % 10, b'.', b'l', b'o', b'g'];
    let Ok(path) = str::from_utf8(&name) else {
        return false;
    };
    let Ok(mut file) = fs::open(rt, path) else {
        return false;
    };
    let mut log = [0u8; 60001];
    let r = program_io::read_all(&mut file, &mut log);
    let n = r.count;
    text(rt, b"case=");
    text(rt, &name[..2]);
    text(rt, b"\n");
    play_stdout::play(rt, &log[..n], memory);
    true
}

fn all(rt: &HostRuntime, memory: &[u8]) {
    let mut k: u8 = 0;
    while k < 100 && one(rt, k, memory) {
        k += 1;
    }
}

fn lengths(rt: &HostRuntime) {
    text(rt, b"memory=0\n");
    one(rt, 0, b"");
    let short = [0u8; 32767];
    text(rt, b"memory=32767\n");
    one(rt, 0, &short);
    let long = [0u8; 32769];
    text(rt, b"memory=32769\n");
    one(rt, 0, &long);
}

fn main(rt: HostRuntime) {
    let mut memory = [0u8; 32769];
    let r = program_io::read_file(&rt, b"sample.bin", &mut memory);
    let n = r.count;
    all(&rt, &memory[..n]);
    lengths(&rt);
}
