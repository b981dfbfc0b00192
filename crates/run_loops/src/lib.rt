// A stretch of a run: what working it comes to, what the run's loops hold between two events, and up to where each loop goes.
#![tactic(auto)]

ghost use Rattle.std.specs.Prelude.{◌≡◌, true, ◌+◌, ◌≤◌, ◌<◌, min, ltb};
ghost use Rattle.arith.specs.Pick.{both};

use chip::State;
use leap_stretch::Lags;

// What working a stretch came to: its clocks, or those before an event for whose record there is no room.
#[derive(Clone, Copy)]
pub struct Stretch {
    pub state: State,
    pub clocks: u32,
    pub records: u32,
    pub level: u16,
}

// Up to where only squares and triangle are due.
pub fn voices_until(l: Lags, end: u32) -> u64
    ensures value { result ≡ min (min l.noise.next l.dmc.next) (end + 1) }
    ensures upper_bound { (result ≤ l.noise.next) × (result ≤ l.dmc.next) × (result ≤ end + 1) }
{
    l.noise.next.min(l.dmc.next).min(u64::from(end) + 1)
}

// Up to where the DMC is not due.
pub fn sounds_until(l: Lags, end: u32) -> u64
    ensures value { result ≡ min l.dmc.next (end + 1) }
    ensures upper_bound { (result ≤ l.dmc.next) × (result ≤ end + 1) }
{
    l.dmc.next.min(u64::from(end) + 1)
}

// Whether the next event is before `until` and there is room for its record.
pub fn goes(next: u64, until: u64, n: u32, room: usize) -> bool
    ensures value { result ≡ both (ltb next until) (ltb n room) }
    ensures next_lt_until { result ≡ true → (next < until) × (n < room) }
{
    next < until && (n as usize) < room
}
