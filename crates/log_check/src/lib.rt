// The check of a whole log.
#![tactic(auto)]

ghost use Rattle.std.specs.Prelude.{◌≡◌, Ok};
ghost use Rattle.log_rules.specs.Whole.{check_of};
ghost use Rattle.log_rules.specs.Closing.{flat, totalled, limited, closing};

use log_block::read_block;
use log_read::{is_pal, read, start};
use log_rules::{Block, Checked, Totals};
use refusal::Refusal;

// A log for a machine with these totals passes.
fn passed(pal: bool, t: Totals) -> Checked
    ensures { result ≡ totalled pal t }
{
    Checked {
        number: 0,
        place: 0,
        pal,
        clocks: t.clocks,
        turns: t.turns,
        items: t.items,
    }
}

// 9, then 10, of a log whose `stop` stands at a place with a number.
fn weighed(pal: bool, t: Totals, place: usize, n: u64) -> Result<Checked, Refusal>
    ensures { flat result ≡ limited pal t place n }
{
    if 2000000000 < t.clocks || 1000000 < t.turns {
        return Err(Refusal { number: 9, place });
    }
    if n == t.clocks {
        Ok(passed(pal, t))
    } else {
        Err(Refusal { number: 10, place })
    }
}

// A log for a machine whose lines came to a block: nothing may stand behind `stop`.
fn closed(pal: bool, length: usize, b: Block) -> Result<Checked, Refusal>
    ensures { flat result ≡ closing pal length (Ok b) }
{
    match b {
        Block::Closed(_, next, _) => Err(Refusal {
            number: 18,
            place: next,
        }),
        Block::Stopped(place, next, n, t) => {
            if next < length {
                Err(Refusal {
                    number: 19,
                    place: next,
                })
            } else {
                weighed(pal, t, place, u64::from(n))
            }
        }
    }
}

// A log that passes, or the first thing that is wrong with it.
fn whole(log: &[u8]) -> Result<Checked, Refusal>
    ensures { flat result ≡ check_of log.now }
{
    read(log, 0)?;
    closed(is_pal(log), log.len(), read_block(log, start(log), 0)?)
}

// Whether a log passes, its machine and its totals; or the first thing that is wrong with it.
pub fn check(log: &[u8]) -> Checked
    ensures { result ≡ check_of log.now }
{
    match whole(log) {
        Ok(c) => c,
        Err(e) => Checked {
            number: e.number,
            place: e.place,
            pal: false,
            clocks: 0,
            turns: 0,
            items: 0,
        },
    }
}
