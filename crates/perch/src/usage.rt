// `perch help` and `perch version`.
use std::io::Write;

// The verbs, a line each with their arguments; whether all was written.
pub(crate) fn usage<W: Write>(file: &mut W) -> bool {
    program_io::write_all(file, b"usage: perch VERB\n")
        && program_io::write_all(
            file,
            b"  check       a log on standard input: whether it passes, or where it is at fault\n",
        )
        && program_io::write_all(
            file,
            b"  play        a log on standard input: what it sounds like, level by level\n",
        )
        && program_io::write_all(
            file,
            b"  fold        a log on standard input: the same log with its repeats as loops\n",
        )
        && program_io::write_all(
            file,
            b"  import      a VGM file on standard input: the log that it comes to\n",
        )
        && program_io::write_all(
            file,
            b"  samples     a VGM file on standard input: the sample memory that it brings along\n",
        )
        && program_io::write_all(
            file,
            b"  salvage     a damaged log on standard input: the log repaired, and what was dropped and added\n",
        )
        && program_io::write_all(
            file,
            b"  why CLOCK   a log on standard input: why the squares and the noise are silent there\n",
        )
        && program_io::write_all(
            file,
            b"  at CLOCK    a log on standard input: every field of the state there, a line each\n",
        )
        && program_io::write_all(
            file,
            b"  vcd FROM CLOCKS\n              a log on standard input: what is seen of it in these clocks, as a VCD for GTKWave\n",
        )
        && program_io::write_all(
            file,
            b"  wav [RATE]  a log on standard input: what it sounds like as a WAV file, 44100 samples a second or RATE\n",
        )
        && program_io::write_all(
            file,
            b"  meter       a log on standard input: whether it is silent, steady or moving, and between which levels\n",
        )
        && program_io::write_all(
            file,
            b"  meter waits the same, and that of each of its waits\n",
        )
        && program_io::write_all(
            file,
            b"  interrupts  a log on standard input: when the interrupt flags and the line change\n",
        )
        && program_io::write_all(
            file,
            b"  dwell       a log on standard input: how many clocks the DMC stood at each of its levels\n",
        )
        && program_io::write_all(
            file,
            b"  sheet LEVEL ADDRESS LENGTH\n              the level after each byte of a sample in sample.bin\n",
        )
        && program_io::write_all(file, b"  help        these lines\n")
        && program_io::write_all(file, b"  version     the version of the library\n")
        && program_io::write_all(
            file,
            b"check, play, why, at, vcd, wav, meter, interrupts and dwell take a VGM file in a log's place\n",
        )
        && program_io::write_all(
            file,
            b"play, why, at, vcd, wav, meter, interrupts, dwell and sheet read the sample memory from the file sample.bin of the current folder\n",
        )
}

// The number is that of `crates/perchpulley/specs/Version.antt`.
pub(crate) fn version(rt: &HostRuntime) -> bool {
    program_io::write_all(&mut rt.stdout(), b"perch 12\n")
}
