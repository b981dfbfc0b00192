// When the interrupt flags and the line of a log change, written to standard output.
#![tactic(auto)]

ghost use Rattle.std.specs.Prelude.{◌≡◌, ◌+◌, ◌≤◌, length};
ghost use Rattle.text_print.specs.Printed.{Put};
ghost use Rattle.play_begin.specs.Whole.{play_number};
ghost use Rattle.program_io.specs.Writes.{Writes};
ghost use Rattle.perch_interrupts.specs.Text.{next_text, head_text, interrupts_text};
ghost use Rattle.interrupts_stdout.specs.Lines.{passed_text};

use play_interrupts::Next;

// The number of the answer, whether the first line was written, and whether all that there was to write was.
#[derive(Clone, Copy)]
pub struct Told {
    pub number: u8,
    pub begun: bool,
    pub written: bool,
}

// What there is to write of a step, behind what is still to be written.
fn lines_on(out: &mut [u8], at: usize, n: Next) -> usize
    requires { at + 96 ≤ length out.old }
    ensures { Put out.old at (next_text n) out.new result }
{
    perch_interrupts::put_next(out, at, n)
}

// The changes of a log that passes and its end; whether all of them were written. The loop is counted, so that it ends.
fn pour(rt: &HostRuntime, log: &[u8], memory: &[u8], out: &mut [u8]) -> bool
    requires memory_value { play_number log.now memory.now ≡ 0 }
    requires in_bounds { 96 ≤ length out.old }
    ensures { Writes (passed_text log.now memory.now) result }
{
    let mut p = play_interrupts::start(log);
    let mut at: usize = 0;
    let mut left: u32 = 2002000002;
    while 0 < left {
        let w = play_interrupts::step(p, log, memory);
        let n = w.next;
        p = w.place;
        at = lines_on(out, at, n);
        if perch_interrupts::is_over(n) {
            return program_io::write_front(&mut rt.stdout(), out, at);
        }
        let q = lines_stdout::pour(rt, out, at, 96);
        if !q.written {
            return false;
        }
        at = q.at;
        left -= 1;
    }
    false
}

fn changes(rt: &HostRuntime, log: &[u8], memory: &[u8]) -> bool
    requires { play_number log.now memory.now ≡ 0 }
    ensures { Writes (passed_text log.now memory.now) result }
{
    let mut out = [0u8; 16384];
    pour(rt, log, memory, &mut out)
}

fn head(rt: &HostRuntime) -> bool
    ensures { Writes head_text result }
{
    program_io::write_all(&mut rt.stdout(), b"interrupts=1\n")
}

// Writes the changes of a log, or the line of its refusal. How much of that each write takes is the system's affair, and what bytes it sends no contract can say.
pub fn write(rt: &HostRuntime, log: &[u8], memory: &[u8]) -> Told
    ensures number_value { result.number ≡ play_number log.now memory.now }
    ensures begun_writes { Writes head_text result.begun }
    ensures writes { Writes (interrupts_text log.now memory.now) result.written }
{
    let b = play_begin::begin(log, memory);
    let number = b.number;
    if !head(rt) {
        return Told {
            number: number,
            begun: false,
            written: false,
        };
    }
    if number == 0 {
        let done = changes(rt, log, memory);
        return Told {
            number: 0,
            begun: true,
            written: done,
        };
    }
    let done = lines_stdout::refused(rt, number, b.place);
    Told {
        number: number,
        begun: true,
        written: done,
    }
}
