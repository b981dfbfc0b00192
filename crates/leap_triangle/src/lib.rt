// The triangle in the leap: what its timer moves, in whole numbers; for how many clocks it surely gives the same; that state g clocks on and
// at its next change. The triangle as a stretch between two frame steps keeps it: `lag`.
#![tactic(auto)]

ghost use Rattle.std.specs.Prelude.{◌≡◌, ◌+◌, ◌%◌};
ghost use Rattle.chip_triangle.specs.Triangle.{triangle_at};
ghost use Rattle.leap_triangle.specs.Leap.{triangle_gate, triangle_beat_of, triangle_with_beat, position_after, triangle_gives, triangle_still, triangle_beat_advanced, triangle_beat_turned};

use chip_triangle::{Sequencer, Triangle};

pub mod lag;

// A sequencer in whole numbers: its divider's period, its timer's count, its position.
#[derive(Clone, Copy)]
pub struct Beat {
    pub n: u32,
    pub count: u32,
    pub position: u32,
}

// 1 where its two counters let it advance, else 0.
#[tactic(auto, unfolding(crate::specs::Leap::triangle_gate))]
pub fn gate(t: Triangle) -> u32
    ensures { result ≡ triangle_gate t }
{
    if t.is_running() { 1 } else { 0 }
}

// A sequencer in whole numbers.
#[tactic(auto, unfolding(crate::specs::Leap::triangle_beat_of))]
pub fn beat_of(q: Sequencer) -> Beat
    ensures { result ≡ triangle_beat_of q }
{
    Beat {
        n: u32::from(q.timer.period % 2048) + 1,
        count: u32::from(q.timer.count),
        position: u32::from(q.position),
    }
}

// A sequencer with count and position from a beat.
#[tactic(auto, unfolding(crate::specs::Leap::triangle_with_beat))]
pub fn with_beat(q: Sequencer, b: Beat) -> Sequencer
    ensures { result ≡ triangle_with_beat q b }
{
    let count = (b.count % 65536) as u16;
    let position = (b.position % 32) as u8;
    let mut s = q;
    s.timer.count = count;
    s.position = position;
    s
}

// What a position gives.
#[tactic(auto, unfolding(chip_triangle::specs::Triangle::triangle_at))]
pub(crate) fn value_after(position: u32) -> u32
    ensures { result ≡ triangle_at position }
{
    let p = position % 32;
    if p < 16 { 15 - p } else { p - 16 }
}

pub(crate) fn position_on(position: u32, k: u64) -> u32
    ensures { result ≡ (position + k) % 32 }
{
    ((u64::from(position % 32) + k % 32) % 32) as u32
}

// The position k outputs on: it holds where on is 0.
#[tactic(auto, unfolding(crate::specs::Leap::position_after))]
fn position_after(on: u32, k: u64, position: u32) -> u32
    ensures { result ≡ position_after on k position }
{
    if on == 0 {
        return position;
    }
    position_on(position, k)
}

impl Beat {
    // What the triangle gives.
    #[tactic(auto, unfolding(crate::specs::Leap::triangle_gives))]
    pub fn gives(self) -> u32
        ensures { result ≡ triangle_gives self }
    {
        value_after(self.position)
    }

    // For how many clocks it surely gives the same.
    #[tactic(auto, unfolding(crate::specs::Leap::triangle_still))]
    pub fn still_for(self, on: u32) -> u32
        ensures { result ≡ triangle_still on self }
    {
        if on == 0 {
            100000
        } else {
            self.count.saturating_sub(1)
        }
    }

    // g clocks on.
    #[tactic(auto, unfolding(crate::specs::Leap::triangle_beat_advanced), using(divider::proofs::DividerLaws::count_after_top))]
    pub fn advance(self, on: u32, g: u32) -> Beat
        ensures { result ≡ triangle_beat_advanced on g self }
    {
        let k = divider::outputs_in(self.n, self.count, g);
        let count = divider::count_in(u64::from(self.n), u64::from(self.count), u64::from(g));
        let position = position_after(on, k, self.position);
        Beat {
            n: self.n,
            count: count as u32,
            position,
        }
    }

    // At its next change.
    #[tactic(auto, unfolding(crate::specs::Leap::triangle_beat_turned))]
    pub fn turn(self) -> Beat
        ensures { result ≡ triangle_beat_turned self }
    {
        let position = position_on(self.position, 1);
        Beat {
            n: self.n,
            count: self.n,
            position,
        }
    }
}
