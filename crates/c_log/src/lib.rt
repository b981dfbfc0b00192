// What is asked of a log, each answer in one 64-bit number: whether it passes, its items, and the bodies of its loops.
#![tactic(auto)]

ghost use Rattle.std.specs.Prelude.{◌≡◌, ◌^◌, ◌%◌, ◌≤◌, ◌<◌};
ghost use Rattle.log_rules.specs.Tree.{act_clocks};
ghost use Rattle.log_body.specs.Bodies.{body_check_of};
ghost use Rattle.c_log.specs.Logs.{log_packed, check_value, check_packed, turns_packed, items_packed, access_value, act_value, item_packed, body_value, body_packed};

use bus::Access;
use log_line::Act;

// An answer about a log in one number. Of the place it has 24 bits; a log's places have 16.
pub fn pack(number: u8, place: usize, value: u32) -> u64
    ensures { result ≡ log_packed number (place % 2 ^ 24) value }
{
    u64::from(number) + 256 * (place % 16777216) as u64 + 4294967296 * u64::from(value)
}

// The clocks in all, and the machine above them.
fn check_value(clocks: u64, pal: bool) -> u64
    requires { clocks ≤ 2000000000 }
    ensures { (result ≡ check_value clocks pal) × (result < 2 ^ 32) }
{
    if pal { clocks + 2147483648 } else { clocks }
}

// Checks a log; the value is its clocks in all and its machine. Refused: 4, 5, 7 to 10, 14 to 19.
pub fn check(log: &[u8]) -> u64
    ensures { result ≡ check_packed log.now }
{
    let c = log_check::check(log);
    pack(c.number, c.place, check_value(c.clocks, c.pal) as u32)
}

// The same; the value is its turns in all.
pub fn turns(log: &[u8]) -> u64
    ensures { result ≡ turns_packed log.now }
{
    let c = log_check::check(log);
    pack(c.number, c.place, c.turns as u32)
}

// The same; the value is its items in all.
pub fn items(log: &[u8]) -> u64
    ensures { result ≡ items_packed log.now }
{
    let c = log_check::check(log);
    pack(c.number, c.place, c.items as u32)
}

fn access_value(x: Access) -> u64
    ensures { (result ≡ access_value x) × (result < 2 ^ 32) }
{
    match x {
        Access::Write(register, value) => 33554432 + 256 * u64::from(register) + u64::from(value),
        Access::Read => 50331648,
    }
}

// An act in one number: its kind, and what it holds. 32 bits have that of a log's acts.
#[tactic(auto, unfolding(log_rules::specs::Tree::act_clocks))]
pub fn act_value(a: Act) -> u64
    ensures { (result ≡ act_value a) × (act_clocks a ≤ 1000000 → result < 2 ^ 32) }
{
    match a {
        Act::Wait(n) => 16777216 + u64::from(n),
        Act::Access(x) => access_value(x),
    }
}

// Item k, counted from 0; the value is the act. Refused: as the log, then 11.
pub fn item(log: &[u8], k: u64) -> u64
    ensures { result ≡ item_packed log.now k }
{
    match log_item::item(log, k) {
        Ok(a) => pack(0, 0, act_value(a) as u32),
        Err(e) => pack(e.number, e.place, 0),
    }
}

// Where a loop's body starts, and how long it is; 0 where that is refused.
fn body_value(log: &[u8], offset: usize, number: u8) -> u64
    requires { number ≡ (body_check_of log.now offset).number }
    ensures { (result ≡ body_value log.now offset) × (result < 2 ^ 32) }
{
    if number != 0 {
        return 0;
    }
    let Ok((_, start)) = log_read::read(log, offset) else {
        return 0;
    };
    let part = log_body::body(log, offset);
    start as u64 + 65536 * part.len() as u64
}

// The bytes between the loop line that begins at the offset and its `done`, as a part of the log. Refused: as the log, then 12.
pub fn body(log: &[u8], offset: u64) -> u64
    ensures { result ≡ body_packed log.now offset }
{
    let at = offset as usize;
    let a = log_body::body_check(log, at);
    pack(a.number, a.place, body_value(log, at, a.number) as u32)
}
