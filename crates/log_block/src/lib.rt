// A block of lines, read with the blocks inside it. The totals that it carries are cut off just above what a log may have, so that no product
// of nested loops is too large for them.
#![tactic(auto)]

ghost use Rattle.std.specs.Prelude.{◌≡◌, ◌<◌};
ghost use Rattle.log_rules.specs.Tree.{act_clocks};
ghost use Rattle.log_rules.specs.Block.{Small, SmallBlock, cut, sum_of, times_of, begun, read_begun, read_part, read_block, step_answer, part_answer, loop_part, block_answer, BlockIs};

use log_line::{Act, Line};
use log_read::read_inside;
use log_rules::{Block, Part, Step, Totals};
use refusal::Refusal;

#[tactic(auto, unfolding(log_rules::specs::Tree::act_clocks))]
fn clocks_of(a: Act) -> u64
    ensures { result ≡ act_clocks a }
{
    match a {
        Act::Wait(n) => u64::from(n),
        Act::Access(_) => 0,
    }
}

fn single(a: Act) -> Totals
    ensures { result ≡ cut (act_clocks a) 1 1 }
{
    Totals {
        clocks: clocks_of(a).min(2000000001),
        turns: 1,
        items: 1,
    }
}

fn sum(a: Totals, b: Totals) -> Totals
    requires { Small a × Small b }
    ensures { result ≡ sum_of a b }
{
    Totals {
        clocks: (a.clocks + b.clocks).min(2000000001),
        turns: (a.turns + b.turns).min(1000001),
        items: (a.items + b.items).min(1000001),
    }
}

// N turns of a loop whose body has these totals: N times (1 + body) turns.
fn scaled(n: u64, a: Totals) -> Totals
    requires { (n < 256) × Small a }
    ensures { result ≡ times_of n a }
{
    Totals {
        clocks: (n * a.clocks).min(2000000001),
        turns: (n * (1 + a.turns)).min(1000001),
        items: (n * a.items).min(1000001),
    }
}

// What a line says that is right where it stands.
#[tactic(auto, unfolding(log_rules::specs::Block::step_answer, log_rules::specs::Block::begun, log_rules::specs::Block::part_answer))]
fn opened(l: Line, at: usize, next: usize) -> Result<Step, Refusal>
    ensures { result ≡ step_answer (begun at next l) }
{
    match l {
        Line::One(a) => Ok(Step::Plain(Part::Acts(next, single(a)))),
        Line::Loop(n) => Ok(Step::Open(n, next)),
        Line::Done => Ok(Step::Plain(Part::Close(at, next))),
        Line::Stop(n) => Ok(Step::Plain(Part::Halt(at, next, n))),
        Line::NoRegister => Err(Refusal {
            number: 4,
            place: at,
        }),
        Line::Header | Line::Machine | Line::NoForm => Err(Refusal {
            number: 14,
            place: at,
        }),
    }
}

// The line at a place, taken apart, where `depth` loops are open: by `let .. else`, the form that document 01 names, and not by `?`.
#[tactic(auto, unfolding(log_rules::specs::Block::read_begun, log_rules::specs::Block::begun_by, log_rules::specs::Block::step_answer, log_rules::specs::Block::part_answer))]
fn begin(log: &[u8], at: usize, depth: u64) -> Result<Step, Refusal>
    ensures { result ≡ step_answer (read_begun log.now at depth) }
{
    let line = read_inside(log, at, depth);
    let Ok((l, next)) = line else {
        return Err(Refusal {
            number: refusal::number(line),
            place: refusal::place(line),
        });
    };
    opened(l, at, next)
}

// The loop whose body is the block that was read.
fn repeated(n: u8, b: Block) -> Result<Part, Refusal>
    requires { SmallBlock (Ok b) }
    ensures { result ≡ loop_part n (Ok b) }
{
    match b {
        Block::Closed(_, next, t) => Ok(Part::Acts(next, scaled(u64::from(n), t))),
        Block::Stopped(place, _, _, _) => Err(Refusal { number: 8, place }),
    }
}

// The line at a place, with the block that it opens. At most eight calls of it are open at a time, whatever the log.
#[cycle(read_block_read_line)]
fn read_line(log: &[u8], at: usize, depth: u64) -> Result<Part, Refusal>
    ensures { result ≡ part_answer (read_part log.now at depth) }
{
    match begin(log, at, depth)? {
        Step::Plain(p) => Ok(p),
        Step::Open(n, next) => repeated(n, read_block(log, next, depth + 1)?),
    }
}

// The lines from a place on, up to the one that ends their block, where `depth` loops are open around them.
#[cycle(read_block_read_line)]
pub fn read_block(log: &[u8], at: usize, depth: u64) -> Result<Block, Refusal>
    ensures value { result ≡ block_answer (read_block log.now at depth) }
    ensures block_is { BlockIs (read_block log.now at depth) result }
{
    let mut i = at;
    let mut t = Totals::NONE;
    loop {
        match read_line(log, i, depth)? {
            Part::Acts(next, more) => {
                t = sum(t, more);
                i = next;
            }
            Part::Close(place, next) => return Ok(Block::Closed(place, next, t)),
            Part::Halt(place, next, n) => return Ok(Block::Stopped(place, next, n, t)),
        }
    }
}
