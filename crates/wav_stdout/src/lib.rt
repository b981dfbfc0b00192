// A log written to standard output as a WAV file.
#![tactic(auto)]

ghost use Rattle.std.specs.Prelude.{◌≡◌, ◌≤◌, length};
ghost use Rattle.wav_rules.specs.Sound.{log_samples, wav_bytes, wav_number};
ghost use Rattle.wav_rules.specs.Turns.{wav_start};
ghost use Rattle.program_io.specs.Writes.{Writes};
ghost use Rattle.wav_stdout.specs.Text.{wav_text};

use wav_rules::Wav;

// The number of the answer, and whether all that there was to write was written.
#[derive(Clone, Copy)]
pub struct Told {
    pub number: u8,
    pub written: bool,
}

// A file, piece by piece, until it is over or a write fails; whether all of it was written. No piece of a log that passes is refused. Each piece holds the
// head or a sample at least; the loop is counted, so that it ends.
fn pour(rt: &HostRuntime, w: Wav, log: &[u8], memory: &[u8], out: &mut [u8]) -> bool
    requires rate_value { wav_number log.now memory.now w.rate ≡ 0 }
    requires w_value { w ≡ wav_start log.now w.rate (length (log_samples log.now memory.now w.rate)) }
    requires in_bounds { 44 ≤ length out.old }
    ensures { Writes (wav_bytes log.now memory.now w.rate) result }
{
    let mut v = w;
    for _ in 0..1000000000000u64 {
        let r = play_wav::wav_on(v, log, memory, out);
        if !program_io::write_front(&mut rt.stdout(), out, r.length) {
            return false;
        }
        if r.over || r.number != 0 {
            return r.number == 0;
        }
        v = r.wav;
    }
    false
}

fn all(rt: &HostRuntime, w: Wav, log: &[u8], memory: &[u8]) -> bool
    requires rate_value { wav_number log.now memory.now w.rate ≡ 0 }
    requires w_value { w ≡ wav_start log.now w.rate (length (log_samples log.now memory.now w.rate)) }
    ensures { Writes (wav_bytes log.now memory.now w.rate) result }
{
    let mut out = [0u8; 65536];
    pour(rt, w, log, memory, &mut out)
}

// Writes the file of a log, or the line of its refusal. How much of that each write takes is the system's affair, and what bytes it sends no contract can say.
pub fn write(rt: &HostRuntime, log: &[u8], memory: &[u8], rate: u32) -> Told
    ensures number_value { result.number ≡ wav_number log.now memory.now rate }
    ensures writes { Writes (wav_text log.now memory.now rate) result.written }
{
    let b = play_wav::begin(log, memory, rate);
    let number = b.number;
    if number == 0 {
        let w = b.wav;
        let done = all(rt, w, log, memory);
        return Told {
            number: 0,
            written: done,
        };
    }
    let done = lines_stdout::refused(rt, number, b.place);
    Told {
        number,
        written: done,
    }
}
