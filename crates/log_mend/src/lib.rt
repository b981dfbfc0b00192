// What helps to mend a log that is refused: its totals, and the loop that is open at a place.
#![tactic(auto)]

ghost use Rattle.std.specs.Prelude.{◌≡◌, ◌<◌, eqb};
ghost use Rattle.arith.specs.Pick.{either};
ghost use Rattle.log_rules.specs.Lines.{lines_of};
ghost use Rattle.log_rules.specs.Block.{block_totals};
ghost use Rattle.log_mend.specs.Mending.{totals_of, innermost, open_at};
ghost use Rattle.log_mend.specs.Nesting.{no_nest, nest_line, nest_lines};

use log_block::read_block;
use log_line::{Line, line_of};
use log_read::{line_end, start};
use log_rules::{Block, Totals};
use refusal::Refusal;

// How many loops are open, and where the latest line begins that made them so many as are wanted.
#[derive(Clone, Copy)]
struct Nest {
    pub depth: usize,
    pub mark: usize,
}

// The totals of a block that was read.
fn block_totals(b: Result<Block, Refusal>) -> Totals
    ensures { result ≡ block_totals b }
{
    match b {
        Ok(Block::Closed(_, _, t) | Block::Stopped(_, _, _, t)) => t,
        Err(_) => Totals::NONE,
    }
}

// Whether every line of a log is right, from the number that its check answers: it passes, or 9 or 10 holds.
fn lines_right(number: u8) -> bool
    ensures { result ≡ either (eqb number 0) (either (eqb number 9) (eqb number 10)) }
{
    number == 0 || number == 9 || number == 10
}

// The totals of a log whose lines are right, each cut off just above what a log may have; none of another.
pub fn totals(log: &[u8]) -> Totals
    ensures { result ≡ totals_of log.now }
{
    if lines_right(log_check::check(log).number) {
        block_totals(read_block(log, start(log), 0))
    } else {
        Totals::NONE
    }
}

// Behind a line that begins at a place.
fn nest_line(want: usize, at: usize, l: Line, s: Nest) -> Nest
    requires { s.depth < 18446744073709551615 }
    ensures { result ≡ nest_line want at l s }
{
    match l {
        Line::Loop(_) => Nest {
            depth: s.depth + 1,
            mark: if s.depth + 1 == want { at } else { s.mark },
        },
        Line::Done => Nest {
            depth: s.depth.saturating_sub(1),
            ..s
        },
        _ => s,
    }
}

// Behind all lines.
fn nested(log: &[u8], want: usize) -> Nest
    ensures { result ≡ nest_lines want 0 (lines_of log.now) no_nest }
{
    let mut at = 0;
    let mut s = Nest { depth: 0, mark: 0 };
    while at < log.len() {
        let e = line_end(log, at);
        s = nest_line(want, at, line_of(&log[at..e]), s);
        at = e;
    }
    s
}

// Where the line of the innermost loop begins that is open at a place, if one is: the latest that opened so many loops as are open there.
pub fn open_at(log: &[u8], place: usize) -> Option<usize>
    ensures { result ≡ innermost (open_at log.now place) }
{
    let s = &log[..place.min(log.len())];
    let depth = nested(s, 0).depth;
    if depth == 0 {
        None
    } else {
        Some(nested(s, depth).mark)
    }
}
