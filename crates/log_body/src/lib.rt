// A loop's body, as a part of the log itself.
#![tactic(auto)]

ghost use Rattle.std.specs.Prelude.{◌≡◌};
ghost use Rattle.log_body.specs.Bodies.{begins_line, reads_loop, begins_loop, body_check_of, body_of};

use log_line::Line;
use log_rules::Block;
use refusal::Refusal;

// Number and place, 0 at 0 where nothing is refused. Flat, as `body_check_of` states it.
#[derive(Clone, Copy)]
pub struct Answer {
    pub number: u8,
    pub place: usize,
}

#[tactic(auto, unfolding(crate::specs::Bodies::begins_line))]
fn begins_line(log: &[u8], at: usize) -> bool
    ensures { result ≡ begins_line log.now at }
{
    at == 0 || at <= log.len() && log[at - 1] == b'\n'
}

#[tactic(auto, unfolding(crate::specs::Bodies::reads_loop, crate::specs::Bodies::is_loop))]
fn reads_loop(r: Result<(Line, usize), Refusal>) -> bool
    ensures { result ≡ reads_loop r }
{
    matches!(r, Ok((Line::Loop(_), _)))
}

#[tactic(auto, unfolding(crate::specs::Bodies::begins_loop))]
fn begins_loop(log: &[u8], at: usize) -> bool
    ensures { result ≡ begins_loop log.now at }
{
    begins_line(log, at) && reads_loop(log_read::read(log, at))
}

// Number and place of a loop's body: 12 at 0 where no loop line begins at the offset.
#[tactic(auto, unfolding(crate::specs::Bodies::body_check_of))]
pub fn body_check(log: &[u8], offset: usize) -> Answer
    ensures { result ≡ body_check_of log.now offset }
{
    let c = log_check::check(log);
    if c.number != 0 {
        return Answer {
            number: c.number,
            place: c.place,
        };
    }
    let number = if begins_loop(log, offset) { 0 } else { 12 };
    Answer { number, place: 0 }
}

// The bytes between the loop line at an offset and its `done`; none where that is refused.
pub fn body<'a>(log: &'a [u8], offset: usize) -> &'a [u8]
    ensures { result.now ≡ body_of log.now offset }
{
    if body_check(log, offset).number != 0 {
        return &log[0..0];
    }
    let Ok((_, from)) = log_read::read(log, offset) else {
        return &log[0..0];
    };
    let Ok(block) = log_block::read_block(log, from, 1) else {
        return &log[0..0];
    };
    let Block::Closed(to, _, _) = block else {
        return &log[0..0];
    };
    &log[from..to]
}
