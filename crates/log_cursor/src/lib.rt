// A cursor over a log: by value, a line a step, whatever the log and whatever the cursor.
#![tactic(auto)]

ghost use Rattle.std.specs.Prelude.{◌≡◌, ◌≤◌, ◌<◌};
ghost use Rattle.reading.specs.Saying.{on, refused};
ghost use Rattle.log_cursor.specs.Stepping.{go, beginning, loops_open, moved_to, entered, again, turned, followed, step_of, stepped_of, found_number, found_place, FoundIs};

use log_line::{Act, Line};

// The place of the next line, and the open loops: how many, where each body begins, and the turns that are left behind this one.
#[derive(Clone, Copy)]
pub struct Cursor {
    pub at: usize,
    pub depth: usize,
    pub starts: [usize; 8],
    pub left: [u8; 8],
}

// What a step finds: an act; nothing, the cursor has moved; the log's end; or a refusal's number and place. One flat answer and no Result: a step
// gives the cursor back in every case, so that `?` has nothing to hand on.
#[derive(Clone, Copy)]
pub enum Given {
    Act(Act),
    Moved,
    End,
    Refused(u8, usize),
}

// What a step finds, and the next cursor. At the end and where refused it is the cursor as it was.
#[derive(Clone, Copy)]
pub struct Stepped {
    pub found: Given,
    pub cursor: Cursor,
}

// The number of an answer: 0, or the refusal's.
pub fn number(f: Given) -> u8
    ensures { result ≡ found_number f }
{
    match f {
        Given::Act(_) | Given::Moved | Given::End => 0,
        Given::Refused(k, _) => k,
    }
}

// The place of an answer: 0, or the refusal's.
pub fn place(f: Given) -> usize
    ensures { result ≡ found_place f }
{
    match f {
        Given::Act(_) | Given::Moved | Given::End => 0,
        Given::Refused(_, p) => p,
    }
}

// The cursor at a log's beginning.
pub fn start() -> Cursor
    ensures { result ≡ beginning }
{
    Cursor {
        at: 0,
        depth: 0,
        starts: [0; 8],
        left: [0; 8],
    }
}

// The loops that are open: at most eight, and none in a cursor that says more.
#[tactic(auto, unfolding(crate::specs::Stepping::loops_open))]
fn open_loops(c: Cursor) -> usize
    ensures { (result ≡ loops_open c) × (result ≤ 8) }
{
    if c.depth <= 8 { c.depth } else { 0 }
}

// To a place, with d loops open.
fn pass(c: Cursor, d: usize, next: usize) -> Cursor
    ensures { result ≡ moved_to c d next }
{
    Cursor {
        at: next,
        depth: d,
        ..c
    }
}

// Into one loop more, of n turns.
fn enter(c: Cursor, d: usize, next: usize, n: u8) -> Cursor
    requires { d < 8 }
    ensures { result ≡ entered c d next n }
{
    let mut starts = c.starts;
    let mut left = c.left;
    starts[d] = next;
    left[d] = n.saturating_sub(1);
    Cursor {
        at: next,
        depth: d + 1,
        starts,
        left,
    }
}

// Another turn of the innermost loop, of n that are left.
fn repeat(c: Cursor, d: usize, n: u8) -> Cursor
    requires { (0 < d) × (d ≤ 8) }
    ensures { result ≡ again c d n }
{
    let starts = c.starts;
    let mut left = c.left;
    left[d - 1] = n.saturating_sub(1);
    Cursor {
        at: starts[d - 1],
        depth: d,
        starts,
        left,
    }
}

fn moved(cursor: Cursor) -> Stepped
    ensures { result ≡ stepped_of (go on cursor) }
{
    Stepped {
        found: Given::Moved,
        cursor,
    }
}

// A refusal leaves the cursor where it was.
fn refuse(cursor: Cursor, number: u8, place: usize) -> Stepped
    ensures { result ≡ stepped_of (go (refused number place) cursor) }
{
    Stepped {
        found: Given::Refused(number, place),
        cursor,
    }
}

// The innermost loop at its `done`, with n turns left.
#[tactic(auto, unfolding(crate::specs::Stepping::turned))]
fn turn(c: Cursor, d: usize, next: usize, n: u8) -> Stepped
    requires { (0 < d) × (d ≤ 8) }
    ensures { result ≡ stepped_of (turned c d next n) }
{
    if n == 0 {
        moved(pass(c, d - 1, next))
    } else {
        moved(repeat(c, d, n))
    }
}

#[tactic(auto, unfolding(crate::specs::Stepping::followed))]
fn at_loop(c: Cursor, d: usize, next: usize, n: u8) -> Stepped
    ensures { result ≡ stepped_of (followed c d next (Line.Loop n)) }
{
    if d < 8 {
        moved(enter(c, d, next, n))
    } else {
        refuse(c, 7, c.at)
    }
}

#[tactic(auto, unfolding(crate::specs::Stepping::followed))]
fn at_done(c: Cursor, d: usize, next: usize) -> Stepped
    requires { d ≤ 8 }
    ensures { result ≡ stepped_of (followed c d next Line.Done) }
{
    if d == 0 {
        return refuse(c, 8, c.at);
    }
    let left = c.left;
    turn(c, d, next, left[d - 1])
}

#[tactic(auto, unfolding(crate::specs::Stepping::followed))]
fn at_stop(c: Cursor, d: usize, next: usize, n: u32) -> Stepped
    ensures { result ≡ stepped_of (followed c d next (Line.Stop n)) }
{
    if d == 0 {
        Stepped {
            found: Given::End,
            cursor: c,
        }
    } else {
        refuse(c, 8, c.at)
    }
}

// With d loops open, the line at the cursor says l.
#[tactic(auto, unfolding(crate::specs::Stepping::followed))]
fn follow(c: Cursor, d: usize, next: usize, l: Line) -> Stepped
    requires { d ≤ 8 }
    ensures { result ≡ stepped_of (followed c d next l) }
{
    match l {
        Line::Header | Line::Machine => moved(pass(c, d, next)),
        Line::One(a) => Stepped {
            found: Given::Act(a),
            cursor: pass(c, d, next),
        },
        Line::Loop(n) => at_loop(c, d, next, n),
        Line::Done => at_done(c, d, next),
        Line::Stop(n) => at_stop(c, d, next, n),
        Line::NoForm => refuse(c, 14, c.at),
        Line::NoRegister => refuse(c, 4, c.at),
    }
}

// One step: at most one line is read. Its answer is opened by `let .. else`, the form that document 01 names.
pub fn step(log: &[u8], c: Cursor) -> Stepped
    ensures value { result ≡ stepped_of (step_of log.now c) }
    ensures found_is { FoundIs (step_of log.now c).said result.found }
{
    let d = open_loops(c);
    let line = log_read::read_inside(log, c.at, d as u64);
    let Ok((l, next)) = line else {
        return refuse(c, refusal::number(line), refusal::place(line));
    };
    follow(c, d, next, l)
}
