// One line of a log: what it says.
#![tactic(auto)]

ghost use Rattle.std.specs.Prelude.{◌≡◌, Some};
ghost use Rattle.text.specs.Hex.{hex};
ghost use Rattle.log_line.specs.Said.{line_of, unfed_line, wait_of, loop_of, stop_of, write_of, written};

use bus::Access;

// What happens at one turn of a log: a wait of so many clocks, or an access.
#[derive(Clone, Copy)]
pub enum Act {
    Wait(u32),
    Access(Access),
}

// What one whole line says. `NoRegister` is a write of right form to no register (4); `NoForm` a line not of the form, whose number and place go by
// where it stands (crate log_fault).
#[derive(Clone, Copy)]
pub enum Line {
    Header,
    Machine,
    One(Act),
    Loop(u8),
    Done,
    Stop(u32),
    NoForm,
    NoRegister,
}

// Behind `wait=`.
#[tactic(auto, unfolding(crate::specs::Said::wait_of, crate::specs::Said::counted))]
fn wait_of(s: &[u8]) -> Line
    ensures { result ≡ wait_of s.now }
{
    match text::decimal_in(s, 1, 1000000) {
        Some(n) => Line::One(Act::Wait(n)),
        None => Line::NoForm,
    }
}

// Behind `loop=`.
#[tactic(auto, unfolding(crate::specs::Said::loop_of, crate::specs::Said::counted), using(text::proofs::NumberLaws::within_let))]
fn loop_of(s: &[u8]) -> Line
    ensures { result ≡ loop_of s.now }
{
    match text::decimal_in(s, 2, 255) {
        Some(n) => Line::Loop(n as u8),
        None => Line::NoForm,
    }
}

// Behind `stop=`.
#[tactic(auto, unfolding(crate::specs::Said::stop_of, crate::specs::Said::counted))]
fn stop_of(s: &[u8]) -> Line
    ensures { result ≡ stop_of s.now }
{
    match text::decimal_in(s, 0, 2000000000) {
        Some(n) => Line::Stop(n),
        None => Line::NoForm,
    }
}

// A write of right form.
#[tactic(auto, unfolding(crate::specs::Said::written))]
fn access(register: u16, value: u8) -> Line
    ensures { result ≡ written (Some register) (Some value) }
{
    if bus::is_register(register) {
        Line::One(Act::Access(Access::Write(register, value)))
    } else {
        Line::NoRegister
    }
}

// The register and the value of a write, each in hex.
#[tactic(auto, unfolding(crate::specs::Said::written))]
fn fields(register: &[u8], value: &[u8]) -> Line
    ensures { result ≡ written (hex 4 register.now) (hex 2 value.now) }
{
    match (text::hex4(register), text::hex2(value)) {
        (Some(r), Some(v)) => access(r as u16, v as u8),
        _ => Line::NoForm,
    }
}

// Behind `write=`.
#[tactic(auto, unfolding(crate::specs::Said::write_of))]
fn write_of(s: &[u8]) -> Line
    ensures { result ≡ write_of s.now }
{
    if s.len() == 7 && s[4] == b':' {
        fields(&s[..4], &s[5..])
    } else {
        Line::NoForm
    }
}

// A line without its line feed.
#[tactic(auto, unfolding(crate::specs::Said::unfed_line))]
fn body_of(s: &[u8]) -> Line
    ensures { result ≡ unfed_line s.now }
{
    if text::exact(s, b"log=1") {
        Line::Header
    } else if text::starts(s, b"wait=") {
        wait_of(text::behind(s, 5))
    } else if text::starts(s, b"write=") {
        write_of(text::behind(s, 6))
    } else if text::exact(s, b"read=4015") {
        Line::One(Act::Access(Access::Read))
    } else if text::starts(s, b"loop=") {
        loop_of(text::behind(s, 5))
    } else if text::exact(s, b"done=loop") {
        Line::Done
    } else if text::starts(s, b"stop=") {
        stop_of(text::behind(s, 5))
    } else if text::exact(s, b"machine=pal") {
        Line::Machine
    } else {
        Line::NoForm
    }
}

// What one line says, with its line feed; any other bytes are a line not of the form.
#[tactic(auto, unfolding(crate::specs::Said::line_of))]
pub fn line_of(l: &[u8]) -> Line
    ensures { result ≡ line_of l.now }
{
    match l {
        [body @ .., b'\n'] => body_of(body),
        _ => Line::NoForm,
    }
}
