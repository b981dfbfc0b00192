// The acts of a VGM file, command by command.
#![tactic(auto)]

ghost use Rattle.std.specs.Prelude.{◌≡◌, Ok, Some, None};
ghost use Rattle.log_cursor.specs.Stepping.{FoundIs};
ghost use Rattle.vgm_cursor.specs.Walking.{command_at, gap_at, wait_on, move_on, command_step, step_of, stepped_of};

use bus::Access;
use log_cursor::Given;
use log_line::Act;
use refusal::Refusal;
use vgm_stream::{Await, Said, Step};

// A place in a file, the samples before it, and the clocks that were given as waits.
#[derive(Clone, Copy)]
pub struct Spot {
    pub at: usize,
    pub samples: u32,
    pub clock: u32,
}

// What a step finds, and the next spot. At the end and where refused it is the spot as it was.
#[derive(Clone, Copy)]
pub struct Stepped {
    pub found: Given,
    pub spot: Spot,
}

// The command at a place of a file: what it says, and the place behind it; none at the end; or the first byte at fault.
fn command_at(file: &[u8], at: usize) -> Result<Option<(Said, usize)>, Refusal>
    ensures { result ≡ command_at file.now at }
{
    let mut w = Await::Command;
    for i in at..file.len() {
        match vgm_stream::step_of(w, file[i]) {
            Step::End => return Ok(None),
            Step::Fault(number) => return Err(Refusal { number, place: i }),
            Step::Next(v) => w = v,
            Step::Says(s) => return Ok(Some((s, i + 1))),
        }
    }
    Err(Refusal {
        number: 27,
        place: at.max(file.len()),
    })
}

// The clocks from those that were given to where the samples stand.
#[tactic(auto, unfolding(crate::specs::Walking::gap_at))]
fn gap_at(pal: bool, c: Spot) -> usize
    ensures { result ≡ gap_at pal c }
{
    vgm_measure::clocks_of(pal, c.samples).saturating_sub(c.clock as usize)
}

// A wait of the gap, of 1,000,000 clocks at most.
fn wait_on(pal: bool, c: Spot) -> Stepped
    ensures { result ≡ stepped_of (wait_on pal c) }
{
    if c.samples <= 100000000 {
        let n = gap_at(pal, c).min(1000000) as u32;
        return Stepped {
            found: Given::Act(Act::Wait(n)),
            spot: Spot {
                clock: c.clock + n,
                ..c
            },
        };
    }
    Stepped {
        found: Given::Refused(9, 0),
        spot: c,
    }
}

// To the place behind a wait of n samples.
fn move_on(c: Spot, n: u16, at: usize) -> Stepped
    ensures { result ≡ stepped_of (move_on c n at) }
{
    let samples = c.samples as usize + n as usize;
    if samples <= 100000000 {
        return Stepped {
            found: Given::Moved,
            spot: Spot {
                at,
                samples: samples as u32,
                clock: c.clock,
            },
        };
    }
    Stepped {
        found: Given::Refused(9, 0),
        spot: c,
    }
}

// The end, behind the waits up to it.
fn end_step(pal: bool, c: Spot) -> Stepped
    ensures { result ≡ stepped_of (command_step pal c (Ok None)) }
{
    if gap_at(pal, c) == 0 {
        return Stepped {
            found: Given::End,
            spot: c,
        };
    }
    wait_on(pal, c)
}

// A write, behind the waits up to it.
fn write_step(pal: bool, c: Spot, register: u16, value: u8, at: usize) -> Stepped
    ensures { result ≡ stepped_of (command_step pal c (Ok (Some (Said.Write register value, at)))) }
{
    if gap_at(pal, c) == 0 {
        return Stepped {
            found: Given::Act(Act::Access(Access::Write(register, value))),
            spot: Spot { at, ..c },
        };
    }
    wait_on(pal, c)
}

fn said_step(pal: bool, c: Spot, s: Said, at: usize) -> Stepped
    ensures { result ≡ stepped_of (command_step pal c (Ok (Some (s, at)))) }
{
    match s {
        Said::Wait(n) => move_on(c, n, at),
        Said::Write(r, v) => write_step(pal, c, r, v, at),
    }
}

// What a command comes to.
fn command_step(pal: bool, c: Spot, r: Result<Option<(Said, usize)>, Refusal>) -> Stepped
    ensures { result ≡ stepped_of (command_step pal c r) }
{
    match r {
        Ok(None) => end_step(pal, c),
        Ok(Some((s, next))) => said_step(pal, c, s, next),
        Err(e) => Stepped {
            found: Given::Refused(e.number, e.place),
            spot: c,
        },
    }
}

// One step: one command, or a wait before it.
pub fn step(pal: bool, file: &[u8], c: Spot) -> Stepped
    ensures value { result ≡ stepped_of (step_of pal file.now c) }
    ensures found_is { FoundIs (step_of pal file.now c).said result.found }
{
    command_step(pal, c, command_at(file, c.at))
}
