// A cursor over a recording: by value, a step at a time, whatever the bytes and whatever the cursor.
#![tactic(auto)]

ghost use Rattle.std.specs.Prelude.{◌≡◌};
ghost use Rattle.log_cursor.specs.Stepping.{FoundIs};
ghost use Rattle.recording_cursor.specs.Stepping.{beginning, line_step, moved_by, head_step, file_step, step_of, stepped_of};

use log_cursor::Given;
use vgm_cursor::Spot;

// The place in a log with its open loops, or in a file; of a file also the samples before it, and the clocks that were given as waits.
#[derive(Clone, Copy)]
pub struct Cursor {
    pub log: log_cursor::Cursor,
    pub samples: u32,
    pub clock: u32,
}

// What a step finds, and the next cursor. At the end and where refused it is the cursor as it was.
#[derive(Clone, Copy)]
pub struct Stepped {
    pub found: Given,
    pub cursor: Cursor,
}

// The cursor at the beginning.
pub fn start() -> Cursor
    ensures { result ≡ beginning }
{
    Cursor {
        log: log_cursor::start(),
        samples: 0,
        clock: 0,
    }
}

// One line of a log.
fn line_step(b: &[u8], c: Cursor) -> Stepped
    ensures { result ≡ stepped_of (line_step b.now c) }
{
    let t = log_cursor::step(b, c.log);
    Stepped {
        found: t.found,
        cursor: Cursor { log: t.cursor, ..c },
    }
}

// To a spot of a file.
fn moved(c: Cursor, s: Spot) -> Cursor
    ensures { result ≡ moved_by c s }
{
    let mut here = c.log;
    here.at = s.at;
    Cursor {
        log: here,
        samples: s.samples,
        clock: s.clock,
    }
}

// From the header to the first command.
fn head_step(b: &[u8], c: Cursor) -> Stepped
    ensures { result ≡ stepped_of (head_step b.now c) }
{
    let first = recording::start(b);
    if first == 0 {
        return Stepped {
            found: Given::Refused(35, 0),
            cursor: c,
        };
    }
    let next = moved(
        c,
        Spot {
            at: first,
            samples: 0,
            clock: 0,
        },
    );
    Stepped {
        found: Given::Moved,
        cursor: next,
    }
}

// One command of a file, or a wait before it.
fn file_step(b: &[u8], c: Cursor) -> Stepped
    ensures { result ≡ stepped_of (file_step b.now c) }
{
    if c.log.at == 0 {
        return head_step(b, c);
    }
    let pal = recording::is_pal(b);
    let spot = Spot {
        at: c.log.at,
        samples: c.samples,
        clock: c.clock,
    };
    let t = vgm_cursor::step(pal, b, spot);
    Stepped {
        found: t.found,
        cursor: moved(c, t.spot),
    }
}

// One step.
pub fn step(b: &[u8], c: Cursor) -> Stepped
    ensures value { result ≡ stepped_of (step_of b.now c) }
    ensures found_is { FoundIs (step_of b.now c).said result.found }
{
    if recording::is_file(b) {
        return file_step(b, c);
    }
    line_step(b, c)
}
