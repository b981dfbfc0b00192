// What is answered about each log of data/: 000.log, 001.log and so on, up to the first that is not there.
#![tactic(auto)]

ghost use Rattle.std.specs.Prelude.{◌≤◌};

use bus::Access;
use log_line::Act;
use std::fs;

fn text(rt: &HostRuntime, t: &[u8]) {
    let _ = rt.write_all(t);
}

fn number(rt: &HostRuntime, n: u64) {
    let _ = print!(rt; "{n}");
}

// A refusal's number and place, behind a key.
fn place(rt: &HostRuntime, key: &[u8], k: u8, at: usize) {
    text(rt, key);
    number(rt, k as u64);
    text(rt, b":");
    number(rt, at as u64);
}

fn access(rt: &HostRuntime, a: Access) {
    match a {
        Access::Write(register, value) => {
            text(rt, b"write:");
            number(rt, register as u64);
            text(rt, b":");
            number(rt, value as u64);
        }
        Access::Read => text(rt, b"read"),
    }
}

fn act(rt: &HostRuntime, a: Act) {
    match a {
        Act::Wait(n) => {
            text(rt, b"wait:");
            number(rt, n as u64);
        }
        Act::Access(x) => access(rt, x),
    }
}

// Item k.
fn item(rt: &HostRuntime, log: &[u8], k: u64) {
    text(rt, b"item=");
    number(rt, k);
    text(rt, b" ");
    match log_item::item(log, k) {
        Ok(a) => act(rt, a),
        Err(e) => place(rt, b"refused=", e.number, e.place),
    }
    text(rt, b"\n");
}

fn wide(x: u8) -> u64 {
    x as u64
}

// The sum of the bytes of a part of a log.
fn sum(part: &[u8]) -> u64 {
    let mut s: u64 = 0;
    for i in 0..part.len() {
        s = std::num::wrapping_add_u64(s, wide(part[i]));
    }
    s
}

// The body of the loop at an offset.
fn body(rt: &HostRuntime, log: &[u8], offset: usize) {
    text(rt, b"body=");
    number(rt, offset as u64);
    let a = log_body::body_check(log, offset);
    place(rt, b" check=", a.number, a.place);
    let part = log_body::body(log, offset);
    text(rt, b" bytes=");
    number(rt, part.len() as u64);
    text(rt, b" sum=");
    number(rt, sum(part));
    text(rt, b"\n");
}

// 1 for an act, and 0 for anything else that a step finds.
fn acts(f: log_cursor::Given) -> u64
    ensures { result ≤ 1 }
{
    match f {
        log_cursor::Given::Act(_) => 1,
        log_cursor::Given::Moved => 0,
        log_cursor::Given::End => 0,
        log_cursor::Given::Refused(_, _) => 0,
    }
}

// Whether a walk goes on behind what a step found.
fn goes_on(f: log_cursor::Given) -> bool {
    match f {
        log_cursor::Given::Act(_) => true,
        log_cursor::Given::Moved => true,
        log_cursor::Given::End => false,
        log_cursor::Given::Refused(_, _) => false,
    }
}

// How a walk came out.
fn outcome(rt: &HostRuntime, f: log_cursor::Given) {
    match f {
        log_cursor::Given::Act(_) => text(rt, b" more\n"),
        log_cursor::Given::Moved => text(rt, b" more\n"),
        log_cursor::Given::End => text(rt, b" end\n"),
        log_cursor::Given::Refused(k, at) => {
            place(rt, b" refused=", k, at);
            text(rt, b"\n");
        }
    }
}

fn walked(rt: &HostRuntime, items: u64, steps: u64, f: log_cursor::Given) {
    text(rt, b"cursor=");
    number(rt, items);
    text(rt, b":");
    number(rt, steps);
    outcome(rt, f);
}

// The items that a cursor hands out in so many steps at most, and its steps.
fn walk(rt: &HostRuntime, log: &[u8], most: u64) {
    let mut c = log_cursor::start();
    let mut items: u64 = 0;
    let mut steps: u64 = 0;
    while steps < most {
        let s = log_cursor::step(log, c);
        let f = s.found;
        steps += 1;
        items += acts(f);
        if goes_on(f) {
            c = s.cursor;
        } else {
            walked(rt, items, steps, f);
            return;
        }
    }
    walked(rt, items, steps, log_cursor::Given::Moved);
}

// A number with one more behind it.
fn with(sum: u32, more: u64) -> u32 {
    ((31 * sum as u64 + more % 0x100000000) % 0x100000000) as u32
}

// One number for the bytes of a text and their order.
fn ordered(part: &[u8]) -> u32 {
    let mut s: u32 = 0;
    for i in 0..part.len() {
        s = with(s, wide(part[i]));
    }
    s
}

fn wide_word(x: u32) -> u64 {
    x as u64
}

// One number for words and their order.
fn ordered_words(words: &[u32]) -> u32 {
    let mut s: u32 = 0;
    for i in 0..words.len() {
        s = with(s, wide_word(words[i]));
    }
    s
}

// The answer to a fold into a buffer, and what stands in it afterwards.
fn fold_into(rt: &HostRuntime, log: &[u8], out: &mut [u8]) {
    let a = log_fold::fold(log, out);
    place(rt, b"fold=", a.number, a.place);
    text(rt, b" length=");
    number(rt, a.length as u64);
    text(rt, b" sum=");
    number(rt, ordered(out) as u64);
    text(rt, b"\n");
}

// Folded into a buffer that holds every log, and into one that holds none.
fn folded(rt: &HostRuntime, log: &[u8]) {
    let mut out = [0u8; 60000];
    fold_into(rt, log, &mut out);
    let mut short = [0u8; 9];
    fold_into(rt, log, &mut short);
}

// The answer to a repair into a buffer and a list, and what stands in both afterwards.
fn salvage_into(rt: &HostRuntime, log: &[u8], out: &mut [u8], list: &mut [u32]) {
    let a = log_salvage::salvage(log, out, list);
    place(rt, b"salvage=", a.number, a.place);
    text(rt, b" length=");
    number(rt, a.length as u64);
    text(rt, b" entries=");
    number(rt, a.entries as u64);
    text(rt, b" sum=");
    number(rt, ordered(out) as u64);
    text(rt, b" words=");
    number(rt, ordered_words(list) as u64);
    text(rt, b"\n");
}

// Repaired into a buffer and a list that hold what comes of most logs; into a list of one word, and into a buffer of 12 bytes.
fn salvaged(rt: &HostRuntime, log: &[u8]) {
    let mut out = [0u8; 60000];
    let mut list = [0u32; 20000];
    salvage_into(rt, log, &mut out, &mut list);
    let mut none = [0u32; 1];
    let mut whole = [0u8; 60000];
    salvage_into(rt, log, &mut whole, &mut none);
    let mut short = [0u8; 12];
    salvage_into(rt, log, &mut short, &mut none);
}

// Items and bodies of a log that passes with so many items.
fn parts(rt: &HostRuntime, log: &[u8], n: u64) {
    item(rt, log, 0);
    item(rt, log, 1);
    item(rt, log, 2);
    item(rt, log, 3);
    item(rt, log, n / 2);
    item(rt, log, std::num::wrapping_sub_u64(n, 1));
    item(rt, log, n);
    item(rt, log, 18446744073709551615);
    body(rt, log, 0);
    body(rt, log, 6);
    body(rt, log, 13);
    body(rt, log, 20);
    body(rt, log, 27);
    body(rt, log, 41);
    body(rt, log, log.len());
    body(rt, log, 18446744073709551615);
}

// A log that passes is through in 2,000,002 steps; one that does not may never be.
fn judged(rt: &HostRuntime, log: &[u8]) {
    let c = log_check::check(log);
    place(rt, b"check=", c.number, c.place);
    text(rt, b" clocks=");
    number(rt, c.clocks);
    text(rt, b" turns=");
    number(rt, c.turns);
    text(rt, b" items=");
    number(rt, c.items);
    text(rt, b"\n");
    if c.number == 0 {
        parts(rt, log, c.items);
        walk(rt, log, 2000002);
    } else {
        item(rt, log, 0);
        body(rt, log, 6);
        walk(rt, log, 5000);
    }
    folded(rt, log);
    salvaged(rt, log);
}

// One log, by its number; whether it is there.
fn one(rt: &HostRuntime, k: u16) -> bool {
    let name = [
        b'0' + (k / 100 % 10) as u8,
        b'0' + (k / 10 % 10) as u8,
        b'0' + (k % 10) as u8,
        b'.',
        b'l',
        b'o',
        b'g',
    ];
    let Ok(path) = str::from_utf8(&name) else {
        return false;
    };
    let Ok(mut file) = fs::open(rt, path) else {
        return false;
    };
    let mut log = [0u8; 60001];
    let r = program_io::read_all(&mut file, &mut log);
    let n = r.count;
    text(rt, b"log=");
    text(rt, &name[..3]);
    text(rt, b"\n");
    judged(rt, &log[..n]);
    true
}

fn main(rt: HostRuntime) {
    let mut k: u16 = 0;
    while k < 1000 && one(&rt, k) {
        k += 1;
    }
}
