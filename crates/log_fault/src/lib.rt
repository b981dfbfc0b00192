// One line of a log at fault: by which number, and at which of its bytes.
#![tactic(auto)]

ghost use Rattle.std.specs.Prelude.{◌≡◌, ◌≤◌, Err, length};
ghost use Rattle.log_fault.specs.Allowed.{keys_of};
ghost use Rattle.log_fault.specs.Fault.{whole_of, fault_at, spot_of};
ghost use Rattle.log_fault.specs.Numbers.{SpottedIs};

use log_begins::Keys;
use log_line::Line;
use refusal::Refusal;

// Where a line stands: first; behind the first, with so many loops open; or alone, behind the first with no depth known. Behind the first: whether it
// is the second.
#[derive(Clone, Copy)]
pub enum Stand {
    First,
    Among(bool, u64),
    Alone(bool),
}

// What a line comes to as a whole: right; at fault at its start, by 4, 7 or 8; or to be looked at byte by byte.
#[derive(Clone, Copy)]
pub enum Whole {
    Fine,
    Start(u8),
    Other,
}

#[tactic(auto, unfolding(crate::specs::Allowed::keys_of))]
fn keys_of(stand: Stand) -> Keys
    ensures { result ≡ keys_of stand }
{
    match stand {
        Stand::First => Keys {
            log: true,
            machine: false,
            acts: false,
            loops: false,
            done: false,
            stop: false,
        },
        Stand::Among(second, d) => Keys {
            log: false,
            machine: second,
            acts: true,
            loops: d < 8,
            done: 0 < d,
            stop: d == 0,
        },
        Stand::Alone(second) => Keys {
            log: false,
            machine: second,
            acts: true,
            loops: true,
            done: true,
            stop: true,
        },
    }
}

// The fault of a line whose first i bytes begin one that is allowed and right.
#[tactic(auto, unfolding(crate::specs::Fault::fault_at))]
fn fault_at(l: &[u8], i: usize) -> Refusal
    requires { i ≤ length l.now }
    ensures { Err result ≡ fault_at l.now i }
{
    if i == l.len() {
        Refusal {
            number: 17,
            place: i,
        }
    } else if !log_begins::has_key(&l[..i]) {
        Refusal {
            number: 14,
            place: i,
        }
    } else if log_begins::is_count(l) {
        Refusal {
            number: 16,
            place: 5,
        }
    } else {
        Refusal {
            number: 15,
            place: i,
        }
    }
}

// What a line that says l comes to as a whole.
#[tactic(auto, unfolding(crate::specs::Fault::whole_of))]
fn as_whole(k: Keys, l: Line) -> Whole
    ensures { result ≡ whole_of k l }
{
    match l {
        Line::Header if k.log => Whole::Fine,
        Line::Machine if k.machine => Whole::Fine,
        Line::One(_) if k.acts => Whole::Fine,
        Line::Loop(_) if k.loops => Whole::Fine,
        Line::Loop(_) if !k.log => Whole::Start(7),
        Line::Done if k.done => Whole::Fine,
        Line::Done if !k.log => Whole::Start(8),
        Line::Stop(_) if k.stop => Whole::Fine,
        Line::Stop(_) if !k.log => Whole::Start(8),
        Line::NoRegister if k.acts => Whole::Start(4),
        _ => Whole::Other,
    }
}

// What the line l says, with its line feed if it has one, where it stands; or its fault: the number, and the byte of it at which that is.
pub fn spot(l: &[u8], stand: Stand) -> Result<Line, Refusal>
    ensures value { result ≡ spot_of stand l.now }
    ensures spotted_is { SpottedIs stand l.now result }
{
    let k = keys_of(stand);
    let said = log_line::line_of(l);
    match as_whole(k, said) {
        Whole::Fine => Ok(said),
        Whole::Start(n) => Err(Refusal {
            number: n,
            place: 0,
        }),
        Whole::Other => Err(fault_at(l, log_begins::right_bytes(l, k))),
    }
}
