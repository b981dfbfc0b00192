// How fast a machine's clock goes, and when a clock stands.
#![tactic(auto)]

ghost use Rattle.std.specs.Prelude.{◌≡◌};
ghost use Rattle.clock_rate.specs.Rate.{clock_rate, clock_time};

// The clocks of a second.
#[tactic(auto, unfolding(crate::specs::Rate::clock_rate))]
pub fn clock_rate(pal: bool) -> u64
    ensures { result ≡ clock_rate pal }
{
    if pal { 1662607 } else { 1789773 }
}

// A clock in nanoseconds, rounded down.
#[tactic(auto, unfolding(crate::specs::Rate::clock_rate, crate::specs::Rate::clock_time))]
pub fn clock_time(pal: bool, clock: u32) -> u64
    ensures { result ≡ clock_time pal clock }
{
    let c = u64::from(clock);
    if pal {
        return c * 1000000000 / 1662607;
    }
    c * 1000000000 / 1789773
}
