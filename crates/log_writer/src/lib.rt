// Lines of a log, written over lent bytes: one line at a place, and how long it is.
#![tactic(auto)]

ghost use Rattle.std.specs.Prelude.{◌≡◌, [], ◌∷◌, ◌++◌, ◌+◌, ◌≤◌, length};
ghost use Rattle.text.specs.Decimal.{decimal_text};
ghost use Rattle.log_line.specs.Printed.{line_text, act_text, ended};
ghost use Rattle.text_print.specs.Printed.{printed, placed, Put};
ghost use Rattle.log_writer.specs.Lines.{write_text, access_text};

use bus::Access;
use log_line::{Act, Line};

// A key, a number in decimal and a line feed.
fn keyed(out: &mut [u8], at: usize, key: &[u8], n: u64) -> usize
    requires { at + length (key.now ++ (decimal_text n ++ (10 ∷ []))) ≤ length out.old }
    ensures { Put out.old at (key.now ++ (decimal_text n ++ (10 ∷ []))) out.new result }
{
    let a = text_print::fixed(out, at, key);
    let b = text_print::decimal(out, a, n);
    text_print::fixed(out, b, b"\n")
}

// A write: the register in four hex digits, the value in two.
fn write_line(out: &mut [u8], at: usize, register: u16, value: u8) -> usize
    requires { at + length (write_text register value) ≤ length out.old }
    ensures { Put out.old at (write_text register value) out.new result }
{
    let a = text_print::fixed(out, at, b"write=");
    let b = text_print::hex_four(out, a, register);
    let c = text_print::fixed(out, b, b":");
    let d = text_print::hex(out, c, value);
    text_print::fixed(out, d, b"\n")
}

#[tactic(auto, unfolding(log_line::specs::Printed::line_text, log_line::specs::Printed::act_text, log_line::specs::Printed::ended))]
fn access_line(out: &mut [u8], at: usize, x: Access) -> usize
    requires { at + length (access_text x) ≤ length out.old }
    ensures { Put out.old at (access_text x) out.new result }
{
    match x {
        Access::Write(register, value) => write_line(out, at, register, value),
        Access::Read => text_print::fixed(out, at, b"read=4015\n"),
    }
}

#[tactic(auto, unfolding(log_line::specs::Printed::act_text, log_line::specs::Printed::ended))]
fn act_line(out: &mut [u8], at: usize, a: Act) -> usize
    requires { at + length (ended (act_text a)) ≤ length out.old }
    ensures { Put out.old at (ended (act_text a)) out.new result }
{
    match a {
        Act::Wait(n) => keyed(out, at, b"wait=", u64::from(n)),
        Act::Access(x) => access_line(out, at, x),
    }
}

// Any line where there is room for it; a line at fault has no text.
#[tactic(auto, unfolding(log_line::specs::Printed::line_text, log_line::specs::Printed::ended))]
fn any_line(out: &mut [u8], at: usize, l: Line) -> usize
    requires { at + length (line_text l) ≤ length out.old }
    ensures { Put out.old at (line_text l) out.new result }
{
    match l {
        Line::Header => text_print::fixed(out, at, b"log=1\n"),
        Line::Machine => text_print::fixed(out, at, b"machine=pal\n"),
        Line::One(a) => act_line(out, at, a),
        Line::Loop(n) => keyed(out, at, b"loop=", u64::from(n)),
        Line::Done => text_print::fixed(out, at, b"done=loop\n"),
        Line::Stop(n) => keyed(out, at, b"stop=", u64::from(n)),
        Line::NoForm | Line::NoRegister => at,
    }
}

#[tactic(auto, unfolding(log_line::specs::Printed::act_text, log_line::specs::Printed::ended, text::specs::Hex::hex_text))]
fn access_length(x: Access) -> usize
    ensures { (result ≡ length (access_text x)) × (result ≤ 16) }
{
    match x {
        Access::Write(_, _) => 14,
        Access::Read => 10,
    }
}

#[tactic(auto, unfolding(log_line::specs::Printed::act_text, log_line::specs::Printed::ended), using(crate::proofs::PieceLaws::keyed_long))]
fn act_length(a: Act) -> usize
    ensures { (result ≡ length (ended (act_text a))) × (result ≤ 16) }
{
    match a {
        Act::Wait(n) => 6 + text_print::width(u64::from(n)),
        Act::Access(x) => access_length(x),
    }
}

// How long a line is, with its line feed: 16 bytes hold the longest.
#[tactic(auto, unfolding(log_line::specs::Printed::line_text, log_line::specs::Printed::ended), using(crate::proofs::PieceLaws::keyed_long))]
pub fn line_length(l: Line) -> usize
    ensures { (result ≡ length (line_text l)) × (result ≤ 16) }
{
    match l {
        Line::Header => 6,
        Line::Machine => 12,
        Line::One(a) => act_length(a),
        Line::Loop(n) => 6 + text_print::width(u64::from(n)),
        Line::Done => 10,
        Line::Stop(n) => 6 + text_print::width(u64::from(n)),
        Line::NoForm | Line::NoRegister => 0,
    }
}

// A line where it fits, else nothing; and the place behind it.
pub fn put_line(out: &mut [u8], at: usize, l: Line) -> usize
    ensures value { result ≡ placed out.old at (line_text l) }
    ensures out_after { out.new ≡ printed out.old at (line_text l) }
{
    let size = out.len();
    if at <= size && line_length(l) <= size - at {
        any_line(out, at, l)
    } else {
        at
    }
}
