// The registers of the chip: a register written, the byte that a status read gives and the state after it. Every operation here has an
// answer for every state, every register and every value; which registers there are is the crate `bus`.
ghost use Rattle.std.specs.Prelude.{◌≡◌, ◌≤◌};
ghost use Rattle.arith.specs.Pick.{pick};
ghost use Rattle.chip_access.specs.Status.{status_byte, status_read};
ghost use Rattle.chip_access.specs.Write.{enables_written, sequencer_written, control_written, channel_written, register_written};

use chip::State;

#[tactic(auto, unfolding(crate::specs::Write::enables_written))]
fn enables_written(s: State, value: u8) -> State
    ensures { result ≡ enables_written value s }
{
    State {
        square1: s.square1.enabled(value % 2 == 1),
        square2: s.square2.enabled(value / 2 % 2 == 1),
        triangle: s.triangle.enabled(value / 4 % 2 == 1),
        noise: s.noise.enabled(value / 8 % 2 == 1),
        dmc: s.dmc.enabled(value / 16 % 2 == 1),
        ..s
    }
}

#[tactic(auto, unfolding(crate::specs::Write::sequencer_written))]
fn sequencer_written(s: State, value: u8) -> State
    ensures { result ≡ sequencer_written value s }
{
    let after = State {
        frame: s.frame.written(value),
        ..s
    };
    // With bit 7 set step 1 comes at once.
    if value / 128 % 2 == 1 {
        after.step(1)
    } else {
        after
    }
}

#[tactic(auto, unfolding(crate::specs::Write::control_written))]
fn control_written(s: State, place: u16, value: u8) -> State
    ensures { result ≡ control_written place value s }
{
    if place == 1 {
        enables_written(s, value)
    } else {
        sequencer_written(s, value)
    }
}

#[tactic(auto, unfolding(crate::specs::Write::channel_written))]
fn channel_written(s: State, channel: u16, place: u16, value: u8) -> State
    ensures { result ≡ channel_written channel place value s }
{
    match channel {
        0 => State {
            square1: s.square1.write(place, value),
            ..s
        },
        1 => State {
            square2: s.square2.write(place, value),
            ..s
        },
        2 => State {
            triangle: s.triangle.write(place, value),
            ..s
        },
        3 => State {
            noise: s.noise.write(place, value),
            ..s
        },
        4 => State {
            dmc: s.dmc.write(place, value),
            ..s
        },
        _ => control_written(s, place, value),
    }
}

// A register written.
#[tactic(auto, unfolding(crate::specs::Write::register_written))]
pub fn register_written(s: State, register: u16, value: u8) -> State
    ensures { result ≡ register_written register value s }
{
    let channel = register.saturating_sub(0x4000) / 4;
    channel_written(s, channel, register % 4, value)
}

// A bit's weight where its flag is set.
fn flag(on: bool, weight: u8) -> u8
    ensures value { result ≡ pick on weight 0 }
    ensures upper_bound { result ≤ weight }
{
    if on { weight } else { 0 }
}

// The byte that a status read gives.
#[tactic(auto, unfolding(crate::specs::Status::status_byte))]
pub fn status_byte(s: State) -> u8
    ensures { result ≡ status_byte s }
{
    let dmc = flag(s.dmc.reader.interrupt, 128);
    let frame = flag(s.frame.interrupt, 64);
    let sample = flag(0 < s.dmc.reader.remaining, 16);
    let noise = flag(0 < s.noise.length.count, 8);
    let triangle = flag(0 < s.triangle.length.count, 4);
    let square2 = flag(0 < s.square2.length.count, 2);
    let square1 = flag(0 < s.square1.length.count, 1);
    dmc + frame + sample + noise + triangle + square2 + square1
}

// The state after a status read.
#[tactic(auto, unfolding(crate::specs::Status::status_read))]
pub fn status_read(s: State) -> State
    ensures { result ≡ status_read s }
{
    State {
        frame: s.frame.read(),
        ..s
    }
}
