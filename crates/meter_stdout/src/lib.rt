// The meter of what a log sounds like, and of each of its waits, written to standard output.
#![tactic(auto)]

ghost use Rattle.std.specs.Prelude.{◌≡◌, ◌+◌, ◌≤◌, length};
ghost use Rattle.text_print.specs.Printed.{Put};
ghost use Rattle.play_begin.specs.Whole.{play_number};
ghost use Rattle.program_io.specs.Writes.{Writes};
ghost use Rattle.perch_meter.specs.Text.{meter_text, next_text};
ghost use Rattle.meter_stdout.specs.Lines.{each_text};
ghost use Rattle.meter_stdout.specs.Text.{metered_text};

use play_meter::waits::Next;

// The number of the answer, and whether all that there was to write was written.
#[derive(Clone, Copy)]
pub struct Told {
    pub number: u8,
    pub written: bool,
}

// The text about the whole log; whether all of it was written. 64 bytes always hold it.
fn total(rt: &HostRuntime, log: &[u8], memory: &[u8]) -> bool
    ensures { Writes (meter_text log.now memory.now) result }
{
    let mut out = [0u8; 64];
    let n = perch_meter::answer(log, memory, &mut out);
    program_io::write_front(&mut rt.stdout(), &out, n)
}

// What there is to write of a step, behind what is still to be written.
fn line_on(out: &mut [u8], at: usize, n: Next) -> usize
    requires { at + 64 ≤ length out.old }
    ensures { Put out.old at (next_text n) out.new result }
{
    perch_meter::put_next(out, at, n)
}

// A line for each wait of a log that passes; whether all of them were written. The loop is counted, so that it ends; no log takes more steps.
fn pour(rt: &HostRuntime, log: &[u8], memory: &[u8], out: &mut [u8]) -> bool
    requires memory_value { play_number log.now memory.now ≡ 0 }
    requires in_bounds { 64 ≤ length out.old }
    ensures { Writes (each_text log.now memory.now) result }
{
    let mut m = play_meter::waits::start(log);
    let mut at: usize = 0;
    let mut left: u32 = 2000002;
    while 0 < left {
        let p = play_meter::waits::pass(m, log, memory);
        let n = p.next;
        m = p.moment;
        at = line_on(out, at, n);
        if perch_meter::is_over(n) {
            return program_io::write_front(&mut rt.stdout(), out, at);
        }
        let q = lines_stdout::pour(rt, out, at, 64);
        if !q.written {
            return false;
        }
        at = q.at;
        left -= 1;
    }
    false
}

fn waits(rt: &HostRuntime, log: &[u8], memory: &[u8]) -> bool
    requires { play_number log.now memory.now ≡ 0 }
    ensures { Writes (each_text log.now memory.now) result }
{
    let mut out = [0u8; 16384];
    pour(rt, log, memory, &mut out)
}

// Writes the meter of a log, and of each of its waits where they are asked for; a log that is refused has none. How much of that each write takes is the
// system's affair, and what bytes it sends no contract can say.
pub fn write(rt: &HostRuntime, log: &[u8], memory: &[u8], each: bool) -> Told
    ensures number_value { result.number ≡ play_number log.now memory.now }
    ensures writes { Writes (metered_text each log.now memory.now) result.written }
{
    let b = play_begin::begin(log, memory);
    let number = b.number;
    if !total(rt, log, memory) {
        return Told {
            number: number,
            written: false,
        };
    }
    if number != 0 {
        return Told {
            number: number,
            written: true,
        };
    }
    if each {
        let done = waits(rt, log, memory);
        return Told {
            number: 0,
            written: done,
        };
    }
    Told {
        number: 0,
        written: true,
    }
}
