// A window of a log's clocks, written to standard output as a VCD.
#![tactic(auto)]

ghost use Rattle.std.specs.Prelude.{◌≡◌, ◌++◌, ◌+◌, ◌≤◌, ◌<◌, length};
ghost use Rattle.text_print.specs.Printed.{Put};
ghost use Rattle.play_begin.specs.Whole.{play_number};
ghost use Rattle.program_io.specs.Writes.{Writes};
ghost use Rattle.perch_vcd.specs.Text.{next_text, head_text};
ghost use Rattle.vcd_stdout.specs.Lines.{passed_text};
ghost use Rattle.vcd_stdout.specs.Text.{traced_text};

use play_trace::Next;

// The number of the answer, and whether all that there was to write was written.
#[derive(Clone, Copy)]
pub struct Told {
    pub number: u8,
    pub written: bool,
}

// What there is to write of a step, behind what is still to be written; `told` is the last time line's time.
fn lines_on(out: &mut [u8], at: usize, told: u64, n: Next) -> usize
    requires { at + 256 ≤ length out.old }
    ensures { Put out.old at (next_text told n) out.new result }
{
    perch_vcd::put_next(out, at, told, n)
}

// The events of a window of a log that passes and its end; whether all of them were written. The loop is counted, so that it ends.
fn pour(rt: &HostRuntime, log: &[u8], memory: &[u8], from: u64, until: u64, out: &mut [u8]) -> bool
    requires memory_value { play_number log.now memory.now ≡ 0 }
    requires from_lt_until { from < until }
    requires in_bounds { 256 ≤ length out.old }
    ensures { Writes (passed_text log.now memory.now from until) result }
{
    let mut p = play_trace::start(log);
    let mut at: usize = 0;
    let mut told: u64 = 0;
    let mut left: u32 = 2002000004;
    while 0 < left {
        let w = play_trace::step(p, log, memory, from, until);
        let n = w.next;
        p = w.place;
        at = lines_on(out, at, told, n);
        told = perch_vcd::told_after(told, n);
        if perch_vcd::is_over(n) {
            return program_io::write_front(&mut rt.stdout(), out, at);
        }
        let q = lines_stdout::pour(rt, out, at, 256);
        if !q.written {
            return false;
        }
        at = q.at;
        left -= 1;
    }
    false
}

fn events(rt: &HostRuntime, log: &[u8], memory: &[u8], from: u64, until: u64) -> bool
    requires memory_value { play_number log.now memory.now ≡ 0 }
    requires from_lt_until { from < until }
    ensures { Writes (passed_text log.now memory.now from until) result }
{
    let mut out = [0u8; 16384];
    pour(rt, log, memory, from, until, &mut out)
}

fn head(rt: &HostRuntime) -> bool
    ensures { Writes head_text result }
{
    let mut out = [0u8; 1024];
    let n = perch_vcd::head(&mut out, 0);
    program_io::write_front(&mut rt.stdout(), &out, n)
}

// The head, and the events behind it.
fn traced(rt: &HostRuntime, log: &[u8], memory: &[u8], from: u64, until: u64) -> bool
    requires memory_value { play_number log.now memory.now ≡ 0 }
    requires from_lt_until { from < until }
    ensures { Writes (head_text ++ passed_text log.now memory.now from until) result }
{
    if !head(rt) {
        return false;
    }
    events(rt, log, memory, from, until)
}

// Writes the trace of the clocks `from` to `from + count` of a log, or the line of its refusal; of no clock nothing. How much of that each write takes is the
// system's affair, and what bytes it sends no contract can say.
pub fn write(rt: &HostRuntime, log: &[u8], memory: &[u8], from: u32, count: u32) -> Told
    ensures number_value { result.number ≡ play_number log.now memory.now }
    ensures writes { Writes (traced_text log.now memory.now from count) result.written }
{
    let b = play_begin::begin(log, memory);
    let number = b.number;
    if count == 0 {
        return Told {
            number: number,
            written: true,
        };
    }
    if number == 0 {
        let done = traced(rt, log, memory, from as u64, from as u64 + count as u64);
        return Told {
            number: 0,
            written: done,
        };
    }
    let done = lines_stdout::refused(rt, number, b.place);
    Told {
        number: number,
        written: done,
    }
}
