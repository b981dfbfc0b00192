// Lines written to standard output in pieces: those that stand in a buffer, written once it has no room for more; the line of a refusal.
#![tactic(auto)]

ghost use Rattle.std.specs.Prelude.{◌≡◌};
ghost use Rattle.text_lines.specs.Lines.{refused_line};
ghost use Rattle.program_io.specs.Writes.{Writes};
ghost use Rattle.lines_stdout.specs.Pours.{Pours};

// The place for what comes next, and whether all that was to be written was.
#[derive(Clone, Copy)]
pub struct Place {
    pub at: usize,
    pub written: bool,
}

// Writes the first `at` bytes of a buffer once there is no room for so many bytes behind them. What bytes a write sends no contract can say.
pub fn pour(rt: &HostRuntime, out: &[u8], at: usize, room: usize) -> Place
    ensures { Pours out.now at room result.at result.written }
{
    if text_print::fits(out.len(), at, room) {
        return Place { at, written: true };
    }
    let written = program_io::write_front(&mut rt.stdout(), out, at);
    Place { at: 0, written }
}

// Writes the line of a refusal; whether all of it was written.
pub fn refused(rt: &HostRuntime, number: u8, place: usize) -> bool
    ensures { Writes (refused_line number place) result }
{
    let mut out = [0u8; 40];
    let n = text_lines::refused_line(&mut out, 0, number, place);
    program_io::write_front(&mut rt.stdout(), &out, n)
}
