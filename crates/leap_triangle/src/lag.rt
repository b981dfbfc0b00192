// The triangle as a stretch between two frame steps keeps it.
ghost use Rattle.std.specs.Prelude.{◌≡◌};
ghost use Rattle.chip_triangle.specs.Triangle.{triangle_at};
ghost use Rattle.leap_triangle.specs.Lag.{triangle_lag, triangle_renewed};

use super::Beat;

// The triangle in a stretch: `next` is the clock of its next possible change, `position` where it stands up to then, and `still` for how many
// clocks it surely gives the same behind each change.
#[derive(Clone, Copy)]
pub struct TriangleLag {
    pub next: u64,
    pub position: u32,
    pub still: u32,
}

impl TriangleLag {
    // Kept from the stretch's start on; `on` is 1 where its counters let it advance, else 0.
    #[tactic(auto, unfolding(crate::specs::Lag::triangle_lag))]
    pub fn new(on: u32, beat: Beat) -> TriangleLag
        ensures { result ≡ triangle_lag on beat 0 }
    {
        let still = beat.still_for(on);
        let turned = beat.turn();
        let after = turned.still_for(on);
        TriangleLag {
            next: u64::from(still) + 1,
            position: beat.position,
            still: after,
        }
    }

    // At clock e: brought up to it where that is its next change.
    #[tactic(auto, unfolding(crate::specs::Lag::triangle_renewed))]
    pub fn renewed(self, e: u32) -> TriangleLag
        ensures { result ≡ triangle_renewed self e }
    {
        let position = super::position_on(self.position, 1);
        if self.next == u64::from(e) {
            return TriangleLag {
                next: u64::from(e) + u64::from(self.still) + 1,
                position,
                still: self.still,
            };
        }
        self
    }

    // What it gives up to its next change.
    pub fn gives(self) -> u32
        ensures { result ≡ triangle_at self.position }
    {
        super::value_after(self.position)
    }
}
