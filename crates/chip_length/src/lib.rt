// The length counter of a channel.
#![tactic(auto)]

ghost use Rattle.std.specs.Prelude.{◌≡◌};
ghost use Rattle.chip_length.specs.Length.{length_of, length_loaded, length_clock, length_enabled, length_in, length_on};

#[derive(Clone, Copy)]
pub struct Length {
    pub count: u8,
    pub enabled: bool,
}

static LENGTHS: [u8; 32] = [
    10, 254, 20, 2, 40, 4, 80, 6, 160, 8, 60, 10, 14, 12, 26, 14, 12, 16, 24, 18, 48, 20, 96, 22,
    192, 24, 72, 26, 16, 28, 32, 30,
];

// The length that a byte written to a fourth register stands for.
pub fn length_of(value: u8) -> u8
    ensures { result ≡ length_of value }
{
    LENGTHS[usize::from(value / 8)]
}

impl Length {
    // The length at power-on.
    pub fn power_on() -> Length
        ensures { result ≡ length_on }
    {
        Length {
            count: 0,
            enabled: false,
        }
    }

    // Loaded by the fourth register's value, if the channel is enabled.
    #[tactic(auto, unfolding(crate::specs::Length::length_loaded))]
    pub fn loaded(self, value: u8) -> Length
        ensures { result ≡ length_loaded value self }
    {
        if self.enabled {
            Length {
                count: length_of(value),
                ..self
            }
        } else {
            self
        }
    }

    // One less, unless it is halted or 0.
    #[tactic(auto, unfolding(crate::specs::Length::length_clock))]
    pub fn clocked(self, halt: bool) -> Length
        ensures { result ≡ length_clock halt self }
    {
        if halt {
            self
        } else {
            Length {
                count: self.count.saturating_sub(1),
                ..self
            }
        }
    }

    // The channel enabled or not; not enabled, its length is 0.
    #[tactic(auto, unfolding(crate::specs::Length::length_enabled))]
    pub fn enabled_by(self, on: bool) -> Length
        ensures { result ≡ length_enabled on self }
    {
        Length {
            count: if on { self.count } else { 0 },
            enabled: on,
        }
    }

    // Whether the length is in its range, and 0 where the channel isn't enabled.
    #[tactic(auto, unfolding(crate::specs::Length::length_in))]
    pub fn in_range(self) -> bool
        ensures { result ≡ length_in self }
    {
        self.count <= 254 && (self.enabled || self.count == 0)
    }
}
