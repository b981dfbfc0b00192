// The chip between two frame steps: the clocks before the next one, and the frame after some of them; that each channel goes its own way
// there is proved of the definitions.
#![tactic(auto)]

ghost use Rattle.std.specs.Prelude.{◌≡◌};
ghost use Rattle.leap_law.specs.Frame.{before_step, passed_frame};

use chip::State;
use chip_frame::Frame;

// The clocks before the next frame step.
pub fn before_step(s: State) -> u32
    ensures { result ≡ before_step s }
{
    let times = chip_tables::frame_times(s.pal);
    leap_frame::before(s.frame, times)
}

// The frame after g clocks that bring none.
pub fn passed_frame(s: State, g: u32) -> Frame
    ensures { result ≡ passed_frame g s }
{
    let times = chip_tables::frame_times(s.pal);
    leap_frame::passed(s.frame, times, g)
}
