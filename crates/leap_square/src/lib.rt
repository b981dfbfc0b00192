// A square in the leap: what its timer moves, in whole numbers, and that state g clocks on. For how many clocks it surely gives the same and its
// next change are in the square as a stretch between two frame steps keeps it: `lag`.
#![tactic(auto)]

ghost use Rattle.std.specs.Prelude.{◌≡◌, ◌+◌, ◌%◌};
ghost use Rattle.leap_square.specs.Leap.{steps_of, beat_of, with_beat, duty_row, beat_advanced};

use chip_square::Sequencer;

pub mod lag;

// A sequencer in whole numbers: its divider's period, its timer's count, and half flag and position as one count of sixteen.
#[derive(Clone, Copy)]
pub struct Beat {
    pub n: u32,
    pub count: u32,
    pub steps: u32,
}

// A duty as the place at which its row of sixteen begins.
#[tactic(auto, unfolding(crate::specs::Leap::duty_row))]
pub fn row_of(duty: u8) -> u32
    ensures { result ≡ duty_row duty }
{
    u32::from(duty % 4) * 16
}

#[tactic(auto, unfolding(crate::specs::Leap::steps_of))]
fn steps_of(q: Sequencer) -> u32
    ensures { result ≡ steps_of q }
{
    let half = if q.half { 1 } else { 0 };
    2 * u32::from(q.position) + half
}

// A sequencer in whole numbers.
#[tactic(auto, unfolding(crate::specs::Leap::beat_of))]
pub fn beat_of(q: Sequencer) -> Beat
    ensures { result ≡ beat_of q }
{
    let steps = steps_of(q);
    Beat {
        n: u32::from(q.timer.period % 2048) + 1,
        count: u32::from(q.timer.count),
        steps,
    }
}

// A sequencer with count, half flag and position from a beat.
#[tactic(auto, unfolding(crate::specs::Leap::with_beat))]
pub fn with_beat(q: Sequencer, b: Beat) -> Sequencer
    ensures { result ≡ with_beat q b }
{
    let count = (b.count % 65536) as u16;
    let position = (b.steps / 2 % 8) as u8;
    let mut s = q;
    s.timer.count = count;
    s.half = b.steps % 2 == 1;
    s.position = position;
    s
}

// Steps k outputs on.
fn steps_after(steps: u32, k: u64) -> u32
    ensures { result ≡ (steps + k) % 16 }
{
    ((u64::from(steps % 16) + k % 16) % 16) as u32
}

impl Beat {
    // g clocks on.
    #[tactic(auto, unfolding(crate::specs::Leap::beat_advanced), using(divider::proofs::DividerLaws::count_after_top))]
    pub fn advance(self, g: u32) -> Beat
        ensures { result ≡ beat_advanced g self }
    {
        let k = divider::outputs_in(self.n, self.count, g);
        let count = divider::count_in(u64::from(self.n), u64::from(self.count), u64::from(g));
        let steps = steps_after(self.steps, k);
        Beat {
            n: self.n,
            count: count as u32,
            steps,
        }
    }
}
