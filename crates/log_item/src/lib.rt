// Item k of a log, found with no loop unrolled.
#![tactic(auto)]

ghost use Rattle.std.specs.Prelude.{◌≡◌, ◌≤◌, ◌<◌, length, get_or};
ghost use Rattle.log_line.specs.declared.Act.TheVariants.{Wait};
ghost use Rattle.log_rules.specs.Block.{SmallBlock};
ghost use Rattle.log_item.specs.Items.{item_number, item_place, item_acts, item_of, item_refusal, item_refusal_place, item_in};
ghost use Rattle.log_item.specs.Walk.{acts_at, stay_of, inside_of, Hops};

use log_line::{Act, Line};
use log_rules::Block;
use refusal::Refusal;

// Where the search for an act goes from a line: it is here; or it is the r-th of the block at a place and a depth.
#[derive(Clone, Copy)]
pub enum Hop {
    Here(Act),
    On(usize, u64, u64),
    Lost,
}

fn stay(a: Act, next: usize, depth: u64, r: u64) -> Hop
    ensures { result ≡ stay_of a next depth r }
{
    if r == 0 {
        Hop::Here(a)
    } else {
        Hop::On(next, depth, r - 1)
    }
}

// A loop is skipped by its body's count, or gone into by a remainder.
fn inside(b: Result<Block, Refusal>, n: u64, from: usize, depth: u64, r: u64) -> Hop
    requires { SmallBlock b × (n < 256) × (depth < 8) }
    ensures { result ≡ inside_of b n from depth r }
{
    let Ok(Block::Closed(_, next, t)) = b else {
        return Hop::Lost;
    };
    let m = t.items;
    if r < n * m {
        Hop::On(from, depth + 1, r % m)
    } else {
        Hop::On(next, depth, r - n * m)
    }
}

// One line of the walk to the r-th act of the block at a place.
fn next_hop(log: &[u8], at: usize, depth: u64, r: u64) -> Hop
    requires { (r ≤ 1000000) × (r < length (acts_at log.now at depth)) }
    ensures { Hops log.now at depth r result }
{
    let Ok((l, next)) = log_read::read(log, at) else {
        return Hop::Lost;
    };
    match l {
        Line::One(x) => stay(x, next, depth, r),
        Line::Loop(n) => inside(
            log_block::read_block(log, next, depth + 1),
            u64::from(n),
            next,
            depth,
            r,
        ),
        _ => Hop::Lost,
    }
}

// The k-th act of the block at a place.
fn find(log: &[u8], at: usize, k: u64) -> Act
    requires { (k ≤ 1000000) × (k < length (acts_at log.now at 0)) }
    ensures { result ≡ get_or (acts_at log.now at 0) k (Wait 0) }
{
    let mut i = at;
    let mut d: u64 = 0;
    let mut r = k;
    loop {
        match next_hop(log, i, d, r) {
            Hop::Here(a) => return a,
            Hop::On(i2, d2, r2) => {
                i = i2;
                d = d2;
                r = r2;
            }
            Hop::Lost => return Act::Wait(0),
        }
    }
}

// Item k, counted from 0.
pub fn item(log: &[u8], k: u64) -> Result<Act, Refusal>
    ensures value { result ≡ item_of log.now k }
    ensures result_value { item_number result ≡ item_refusal log.now k }
    ensures result_value_2 { item_place result ≡ item_refusal_place log.now }
    ensures result_value_3 { item_acts result ≡ item_in log.now k }
{
    let c = log_check::check(log);
    if c.number != 0 {
        return Err(Refusal {
            number: c.number,
            place: c.place,
        });
    }
    if c.items <= k {
        return Err(Refusal {
            number: 11,
            place: 0,
        });
    }
    Ok(find(log, log_read::start(log), k))
}
