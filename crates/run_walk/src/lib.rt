// The dwell table along the DMC's changes: what a run holds of it, what a walk for the clocks that no count stops holds, and up to where a level stands.
#![tactic(auto)]

ghost use Rattle.std.specs.Prelude.{◌≡◌};
ghost use Rattle.run_walk.specs.Walk.{last_at};

// The last clock up to `count` at which the level of the DMC of clock `at`, which only counts for `still` clocks, surely stands.
#[tactic(auto, unfolding(crate::specs::Walk::last_at))]
pub fn last_at(at: u32, still: u32, count: u32) -> u32
    ensures { result ≡ last_at at still count }
{
    if 100000 <= still {
        return count;
    }
    at.saturating_add(still).min(count)
}
