// The chip's operations for customers: each takes any state, refuses by document 01's number, lowest first, and hands the state
// back as it came where it refuses.
#![tactic(auto)]

ghost use Rattle.std.specs.Prelude.{◌≡◌};
ghost use Rattle.chip.specs.Range.{in_range, power_on};
ghost use Rattle.chip_api.specs.Answer.{allowed, refused_access, done_access, access_answer, line_answer, level_answer, level_f32_answer, clock_answer};

use bus::Access;
use chip::State;
use chip_access::Outcome;

// A number and the state.
// Flat, with the number first, as document 01 has it: "a refusal returns its number and place, the state as given, 0 or no for the rest" (`moved`).
#[derive(Clone, Copy)]
pub struct Moved {
    pub number: u8,
    pub state: State,
}

// A number, the state, the byte read, the level after, and whether it differs from the level before.
// Flat for the same reason (`refused_access`).
#[derive(Clone, Copy)]
pub struct Answered {
    pub number: u8,
    pub state: State,
    pub byte: u8,
    pub level: u16,
    pub differs: bool,
}

// A number, and whether the interrupt line is asserted.
// Flat for the same reason (`line_answer`).
#[derive(Clone, Copy)]
pub struct Asserted {
    pub number: u8,
    pub asserted: bool,
}

// A number and the level.
// Flat for the same reason (`level_answer`).
#[derive(Clone, Copy)]
pub struct Mixed {
    pub number: u8,
    pub level: u16,
}

// A number and the level over 32,768.
// Flat for the same reason (`level_f32_answer`).
#[derive(Clone, Copy)]
pub struct Scaled {
    pub number: u8,
    pub fraction: f32,
}

// The state at power-on of a machine: true is PAL, false is NTSC.
pub fn power_on(pal: bool) -> State
    ensures { result ≡ power_on pal }
{
    chip::power_on(pal)
}

// Whether a state is within its range.
pub fn in_range(s: State) -> bool
    ensures { result ≡ in_range s }
{
    s.in_range()
}

// Whether an access is one that the chip takes.
#[tactic(auto, unfolding(crate::specs::Answer::allowed))]
fn is_allowed(x: Access) -> bool
    ensures { result ≡ allowed x }
{
    match x {
        Access::Write(register, _) => bus::is_register(register),
        Access::Read => true,
    }
}

fn access_refused(number: u8, s: State) -> Answered
    ensures { result ≡ refused_access number s }
{
    Answered {
        number,
        state: s,
        byte: 0,
        level: 0,
        differs: false,
    }
}

fn access_done(s: State, x: Access) -> Answered
    ensures { result ≡ done_access x s }
{
    let before = s.level();
    let Outcome { byte, state } = chip_access::accessed(s, x);
    let level = state.level();
    Answered {
        number: 0,
        state,
        byte,
        level,
        differs: level != before,
    }
}

// One access: a register written with a value, or the status read at $4015.
#[tactic(auto, unfolding(crate::specs::Answer::access_answer))]
pub fn access(s: State, x: Access) -> Answered
    ensures { result ≡ access_answer x s }
{
    if !s.in_range() {
        access_refused(2, s)
    } else if is_allowed(x) {
        access_done(s, x)
    } else {
        access_refused(4, s)
    }
}

// Whether the interrupt line is asserted.
#[tactic(auto, unfolding(crate::specs::Answer::line_answer))]
pub fn interrupt_line(s: State) -> Asserted
    ensures { result ≡ line_answer s }
{
    if s.in_range() {
        Asserted {
            number: 0,
            asserted: s.asserts(),
        }
    } else {
        Asserted {
            number: 2,
            asserted: false,
        }
    }
}

// The mixed level.
#[tactic(auto, unfolding(crate::specs::Answer::level_answer))]
pub fn level(s: State) -> Mixed
    ensures { result ≡ level_answer s }
{
    if s.in_range() {
        Mixed {
            number: 0,
            level: s.level(),
        }
    } else {
        Mixed {
            number: 2,
            level: 0,
        }
    }
}

// The mixed level over 32,768.
pub fn level_f32(s: State) -> Scaled
    ensures { result ≡ level_f32_answer s }
{
    if s.in_range() {
        Scaled {
            number: 0,
            fraction: chip_mixer::fraction(s.level()),
        }
    } else {
        Scaled {
            number: 2,
            fraction: 0.0,
        }
    }
}

// One clock.
#[tactic(auto, unfolding(crate::specs::Answer::clock_answer))]
pub fn clock(s: State, memory: &[u8]) -> Moved
    ensures { result ≡ clock_answer memory.now s }
{
    if memory.len() != 32768 {
        Moved {
            number: 1,
            state: s,
        }
    } else if s.in_range() {
        Moved {
            number: 0,
            state: s.clocked(memory),
        }
    } else {
        Moved {
            number: 2,
            state: s,
        }
    }
}
