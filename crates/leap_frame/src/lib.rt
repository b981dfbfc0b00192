// The frame between two steps: how many clocks bring none, and the frame after some of them. At which clock numbers steps come is an argument.
#![tactic(auto)]

ghost use Rattle.std.specs.Prelude.{◌≡◌, ◌+◌, ◌-◌, ◌%◌};
ghost use Rattle.leap_frame.specs.Leap.{frame_before, frame_passed};

use chip_frame::{Frame, Times};

// The clocks before a time, from a clock number below it.
fn until(time: u16, clock: u16) -> u16
    ensures { result ≡ time - 1 - clock }
{
    time.saturating_sub(1).saturating_sub(clock)
}

// The clock number g clocks on, where `last` is the last of the frame.
fn number_on(clock: u16, g: u32, last: u16) -> u16
    ensures { result ≡ (clock + g) % (last + 1) }
{
    ((u64::from(clock) + u64::from(g)) % (u64::from(last) + 1)) as u16
}

// The clocks before a frame's next step.
#[tactic(auto, unfolding(crate::specs::Leap::frame_before))]
pub fn before(f: Frame, t: Times) -> u32
    ensures { result ≡ frame_before t f }
{
    let clocks = if f.clock < t.first {
        until(t.first, f.clock)
    } else if f.clock < t.second {
        until(t.second, f.clock)
    } else if f.clock < t.third {
        until(t.third, f.clock)
    } else if f.clock < t.fourth {
        until(t.fourth, f.clock)
    } else if f.mode && f.clock < t.fifth {
        until(t.fifth, f.clock)
    } else {
        t.first
    };
    u32::from(clocks)
}

// g clocks that bring no step.
#[tactic(auto, unfolding(crate::specs::Leap::frame_passed))]
pub fn passed(f: Frame, t: Times, g: u32) -> Frame
    ensures { result ≡ frame_passed t g f }
{
    let last = t.last(f.mode);
    Frame {
        clock: number_on(f.clock, g, last),
        ..f
    }
}
