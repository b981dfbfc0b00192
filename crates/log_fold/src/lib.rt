// A log with copies of lines folded into loops.
#![tactic(auto)]

ghost use Rattle.std.specs.Prelude.{◌≡◌, ◌+◌, ◌*◌, ◌-◌, ◌≤◌, ◌<◌, length, take};
ghost use Rattle.text_print.specs.Printed.{Put};
ghost use Rattle.log_rules.specs.Head.{start_of};
ghost use Rattle.log_rules.specs.Tree.{turns};
ghost use Rattle.log_rules.specs.Whole.{tree_of, check_of};
ghost use Rattle.log_fold_rules.specs.Folding.{folded_log};
ghost use Rattle.log_fold_rules.specs.Promise.{Folds};
ghost use Rattle.log_fold.specs.Answer.{fold_refusal, fold_of, fold_lent};
ghost use Rattle.log_fold.specs.Moves.{plain_move, loop_move, act_line, act_end, run_end, Mark, Marked, copies_in, copies_at, suits_of, chosen_in, block_end, line_move, move_of, loop_text, move_text};

use log_block::read_block;
use log_check::check;
use log_line::Line;
use log_read::{read, start};
use log_rules::Block;
use log_writer::put_line;
use refusal::Refusal;
use text_print::{fixed, width};

// The answer: 0 and the folded log's length, or a refusal's number and place.
// Flat, with the number first, as document 01 has it: "a refusal returns its number and place, the state as given, 0 or no for the rest" (`fold_refusal`).
#[derive(Clone, Copy)]
pub struct Folded {
    pub number: u8,
    pub place: usize,
    pub length: usize,
}

// What is done at a line outside all loops: the bytes up to `until` are copied, as the body of a loop of `count` turns, or with 0 as they are;
// then it goes on at `next`.
#[derive(Clone, Copy)]
struct Move {
    pub count: u8,
    pub until: usize,
    pub next: usize,
}

// The bytes up to a place, copied.
fn plain(end: usize) -> Move
    ensures { result ≡ plain_move end }
{
    Move {
        count: 0,
        until: end,
        next: end,
    }
}

// Where the line at a place ends, if it is a wait, write or read; else the place.
fn act_line(at: usize, next: usize, l: Line) -> usize
    ensures { result ≡ act_line at next l }
{
    match l {
        Line::One(_) => next,
        Line::Header
        | Line::Machine
        | Line::Loop(_)
        | Line::Done
        | Line::Stop(_)
        | Line::NoForm
        | Line::NoRegister => at,
    }
}

#[tactic(auto, unfolding(crate::specs::Moves::act_end))]
fn act_end(log: &[u8], at: usize) -> usize
    ensures { result ≡ act_end log.now at }
{
    match read(log, at) {
        Ok((l, next)) => act_line(at, next, l),
        Err(_) => at,
    }
}

// The first place from `at` on whose byte is not the one m bytes further on.
fn run_end(log: &[u8], at: usize, m: usize) -> usize
    requires { at + m ≤ length log.now }
    ensures { result ≡ run_end log.now at m }
{
    let last = log.len() - m;
    for x in at..last {
        if log[x + m] != log[x] {
            return x;
        }
    }
    last
}

// The same, from what a mark knows; else the bytes are compared.
fn marked_end(log: &[u8], at: usize, m: usize, mark: u64) -> usize
    requires { (at + m ≤ length log.now) × Mark log.now at mark }
    ensures { result ≡ run_end log.now at m }
{
    let known = (mark % 65536) as usize;
    if mark / 65536 == m as u64 && at <= known {
        return known;
    }
    run_end(log, at, m)
}

// How many copies of m bytes stand where behind the first `run` bytes are each the one m further on; 255 at most.
fn counted(run: usize, m: usize) -> u8
    requires { (run ≤ 60000) × (0 < m) }
    ensures { result ≡ copies_in run m }
{
    (run / m + 1).min(255) as u8
}

// How many copies of the bytes from `at` to `end` stand there, the first counted, at most 255. Mark p keeps how far they go, so that no byte is compared
// again at the next line.
fn copies(log: &[u8], at: usize, end: usize, p: usize, marks: &mut [u64]) -> u8
    requires { (at < end) × (end ≤ length log.now) × (length log.now ≤ 60000) × (p < 16) × Marked log.now at marks.old }
    ensures value { (result ≡ copies_at log.now at end) × (at + result * (end - at) ≤ length log.now) }
    ensures marked { Marked log.now at marks.new }
{
    let m = end - at;
    let x = marked_end(log, at, m, marks[p]);
    marks[p] = m as u64 * 65536 + x as u64;
    counted(x - at, m)
}

// Whether c copies of m bytes become a loop, in a log of k turns so far.
#[tactic(auto, unfolding(crate::specs::Moves::suits_of))]
fn suits(k: u64, m: usize, c: u8) -> bool
    requires { (k ≤ 1000000) × (m ≤ 60000) }
    ensures { result ≡ suits_of k m c }
{
    2 <= c && 16 + width(u64::from(c)) + m < c as usize * m && k + u64::from(c) <= 1000000
}

fn looped(at: usize, end: usize, c: u8) -> Move
    requires { (at ≤ end) × (at + c * (end - at) ≤ 60000) }
    ensures { result ≡ loop_move at end c }
{
    Move {
        count: c,
        until: end,
        next: at + (c as usize) * (end - at),
    }
}

// What is done at a wait, write or read, behind which the log goes on at `next`: the smallest number of lines, at most 16, is looked for. A loop makes two
// turns at least: with fewer left nothing is.
fn chosen(log: &[u8], at: usize, k: u64, next: usize, marks: &mut [u64]) -> Move
    requires { (at ≤ length log.now) × (length log.now ≤ 60000) × (k ≤ 1000000) × Marked log.now at marks.old }
    ensures value { result ≡ chosen_in 16 log.now at k next at }
    ensures marked { Marked log.now at marks.new }
{
    if 999998 < k {
        return plain(next);
    }
    let mut e = at;
    for p in 0..16 {
        let n = act_end(log, e);
        if n == e {
            return plain(next);
        }
        let c = copies(log, at, n, p, marks);
        if suits(k, n - at, c) {
            return looped(at, n, c);
        }
        e = n;
    }
    plain(next)
}

// Behind a loop's `done`.
fn block_end(b: Result<Block, Refusal>, next: usize) -> usize
    ensures { result ≡ block_end next b }
{
    match b {
        Ok(Block::Closed(_, q, _)) => q,
        Ok(Block::Stopped(_, _, _, _)) | Err(_) => next,
    }
}

fn line_move(log: &[u8], at: usize, k: u64, next: usize, l: Line, marks: &mut [u64]) -> Move
    requires { (at ≤ length log.now) × (length log.now ≤ 60000) × (k ≤ 1000000) × Marked log.now at marks.old }
    ensures value { result ≡ line_move log.now at k next l }
    ensures marked { Marked log.now at marks.new }
{
    match l {
        Line::One(_) => chosen(log, at, k, next, marks),
        Line::Loop(_) => plain(block_end(read_block(log, next, 1), next)),
        Line::Header
        | Line::Machine
        | Line::Done
        | Line::Stop(_)
        | Line::NoForm
        | Line::NoRegister => plain(next),
    }
}

#[tactic(auto, unfolding(crate::specs::Moves::move_of))]
fn move_at(log: &[u8], at: usize, k: u64, marks: &mut [u64]) -> Move
    requires { (at ≤ length log.now) × (length log.now ≤ 60000) × (k ≤ 1000000) × Marked log.now at marks.old }
    ensures value { result ≡ move_of log.now at k }
    ensures marked { Marked log.now at marks.new }
{
    match read(log, at) {
        Ok((l, next)) => line_move(log, at, k, next, l, marks),
        Err(_) => plain(log.len()),
    }
}

fn put_loop(out: &mut [u8], to: usize, c: u8, body: &[u8]) -> usize
    requires { to + length (loop_text c body.now) ≤ length out.old }
    ensures { Put out.old to (loop_text c body.now) out.new result }
{
    let a = put_line(out, to, Line::Loop(c));
    let b = fixed(out, a, body);
    put_line(out, b, Line::Done)
}

fn put(out: &mut [u8], to: usize, c: u8, body: &[u8]) -> usize
    requires { to + length (move_text c body.now) ≤ length out.old }
    ensures { Put out.old to (move_text c body.now) out.new result }
{
    if c == 0 {
        return fixed(out, to, body);
    }
    put_loop(out, to, c, body)
}

// A log that passes, in one pass: its head, then its lines.
fn pass(log: &[u8], out: &mut [u8], total: u64, marks: &mut [u64]) -> usize
    requires { ((check_of log.now).number ≡ 0) × (total ≡ turns (tree_of log.now)) × (length log.now ≤ length out.old) × Marked log.now (start_of log.now) marks.old }
    ensures { Put out.old 0 (folded_log log.now) out.new result }
{
    let first = start(log);
    let mut at = first;
    let mut to = fixed(out, 0, &log[..first]);
    let mut k = total;
    while at < log.len() {
        let m = move_at(log, at, k, marks);
        to = put(out, to, m.count, &log[at..m.until]);
        at = m.next;
        k += u64::from(m.count);
    }
    to
}

fn refusal(number: u8, place: usize) -> Folded
    ensures { result ≡ fold_refusal number place }
{
    Folded {
        number,
        place,
        length: 0,
    }
}

// A log rewritten over the front of lent bytes, with copies of lines folded into loops. The log's own refusals first; then 32, at 0, where there are
// fewer bytes than the log has. Refused, the bytes stay.
pub fn fold(log: &[u8], out: &mut [u8]) -> Folded
    ensures value { result ≡ fold_of log.now out.old }
    ensures out_after { out.new ≡ fold_lent log.now out.old }
    ensures folds { result.number ≡ 0 → Folds log.now (take result.length out.new) }
{
    let c = check(log);
    if c.number != 0 {
        return refusal(c.number, c.place);
    }
    if out.len() < log.len() {
        return refusal(32, 0);
    }
    let mut marks = [0u64; 16];
    let n = pass(log, out, c.turns, &mut marks);
    Folded {
        number: 0,
        place: 0,
        length: n,
    }
}
