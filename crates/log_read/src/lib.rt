// One line of a log, read at any place.
#![tactic(auto)]

ghost use Rattle.std.specs.Prelude.{◌≡◌};
ghost use Rattle.log_rules.specs.Lines.{next_line};
ghost use Rattle.log_rules.specs.Head.{machine_of, start_of};
ghost use Rattle.log_rules.specs.Reading.{taken, Reaches, is_second, standing, alone, read_in, read_at, ReadingIs};

use log_fault::Stand;
use log_line::Line;
use refusal::Refusal;

// How many bytes a log has at most.
const MOST: usize = 60000;

// Where the line that begins at a place ends: behind its line feed, or at the log's end.
pub fn line_end(log: &[u8], at: usize) -> usize
    ensures { result ≡ next_line log.now at }
{
    for i in at..log.len() {
        if log[i] == b'\n' {
            return i + 1;
        }
    }
    at.max(log.len())
}

// Whether a log is for a PAL machine.
#[tactic(auto, unfolding(log_rules::specs::Head::machine_of, log_line::specs::Printed::line_text, log_line::specs::Printed::ended))]
pub fn is_pal(log: &[u8]) -> bool
    ensures { result ≡ machine_of log.now }
{
    text::starts(log, b"log=1\nmachine=pal\n")
}

// Where the lines behind the log's head begin.
#[tactic(auto, unfolding(log_rules::specs::Head::start_of))]
pub fn start(log: &[u8]) -> usize
    ensures { result ≡ start_of log.now }
{
    let second = line_end(log, 0);
    if is_pal(log) {
        line_end(log, second)
    } else {
        second
    }
}

// A line that is right comes with the place of the next; the place of a fault is behind the line's own.
fn item_of(at: usize, next: usize, f: Result<Line, Refusal>) -> Result<(Line, usize), Refusal>
    requires { Reaches at 60000 f }
    ensures { result ≡ taken at next f }
{
    match f {
        Ok(l) => Ok((l, next)),
        Err(e) => Err(Refusal {
            number: e.number,
            place: at + e.place,
        }),
    }
}

// The line that begins at a place, by how it stands, and where the next one begins.
pub fn read_in(log: &[u8], at: usize, stand: Stand) -> Result<(Line, usize), Refusal>
    ensures value { result ≡ read_in stand log.now at }
    ensures reading_is { ReadingIs stand log.now at result }
{
    if MOST < log.len() {
        return Err(Refusal {
            number: 5,
            place: 0,
        });
    }
    if log.len() <= at {
        return Err(Refusal {
            number: 18,
            place: log.len(),
        });
    }
    let e = line_end(log, at);
    item_of(at, e, log_fault::spot(&log[at..e], stand))
}

// Whether the line that begins at a place is the second.
#[tactic(auto, unfolding(log_rules::specs::Reading::is_second, log_line::specs::Printed::line_text, log_line::specs::Printed::ended))]
fn is_second(log: &[u8], at: usize) -> bool
    ensures { result ≡ is_second log.now at }
{
    at == 6 && text::starts(log, b"log=1\n")
}

// The line that begins at a place, where no depth is known.
#[tactic(auto, unfolding(log_rules::specs::Reading::read_at))]
pub fn read(log: &[u8], at: usize) -> Result<(Line, usize), Refusal>
    ensures value { result ≡ read_at log.now at }
    ensures reading_is { ReadingIs (alone log.now at) log.now at result }
{
    let stand = if at == 0 {
        Stand::First
    } else {
        Stand::Alone(is_second(log, at))
    };
    read_in(log, at, stand)
}

// The line that begins at a place, with so many loops open.
#[tactic(auto, unfolding(log_rules::specs::Reading::standing))]
pub fn read_inside(log: &[u8], at: usize, depth: u64) -> Result<(Line, usize), Refusal>
    ensures value { result ≡ read_in (standing log.now at depth) log.now at }
    ensures reading_is { ReadingIs (standing log.now at depth) log.now at result }
{
    let stand = if at == 0 {
        Stand::First
    } else {
        Stand::Among(is_second(log, at), depth)
    };
    read_in(log, at, stand)
}
