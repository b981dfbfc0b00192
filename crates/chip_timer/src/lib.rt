// A timer with a period of its own: that of a square or the triangle.
#![tactic(auto)]

ghost use Rattle.std.specs.Prelude.{◌≡◌};
ghost use Rattle.chip_timer.specs.Timer.{timer_clock, period_low, period_high, timer_in, timer_on};

#[derive(Clone, Copy)]
pub struct Timer {
    pub period: u16,
    pub count: u16,
}

impl Timer {
    // The timer at power-on.
    pub fn power_on() -> Timer
        ensures { result ≡ timer_on }
    {
        Timer {
            period: 0,
            count: 1,
        }
    }

    // One clock.
    #[tactic(auto, unfolding(crate::specs::Timer::timer_clock))]
    pub fn clocked(self) -> Timer
        ensures { result ≡ timer_clock self }
    {
        Timer {
            count: divider::tick_u16(self.period % 2048 + 1, self.count),
            ..self
        }
    }

    // Its low 8 bits written.
    #[tactic(auto, unfolding(crate::specs::Timer::period_low))]
    pub fn period_low(self, value: u8) -> Timer
        ensures { result ≡ period_low value self }
    {
        Timer {
            period: self.period / 256 * 256 + u16::from(value),
            ..self
        }
    }

    // Its high 3 bits written.
    #[tactic(auto, unfolding(crate::specs::Timer::period_high))]
    pub fn period_high(self, value: u8) -> Timer
        ensures { result ≡ period_high value self }
    {
        Timer {
            period: u16::from(value % 8) * 256 + self.period % 256,
            ..self
        }
    }

    // Whether period and count are in their ranges.
    #[tactic(auto, unfolding(crate::specs::Timer::timer_in))]
    pub fn in_range(self) -> bool
        ensures { result ≡ timer_in self }
    {
        self.period <= 2047 && 1 <= self.count && self.count <= 2048
    }
}
