// The linear counter of the triangle.
#![tactic(auto)]

ghost use Rattle.std.specs.Prelude.{◌≡◌};
ghost use Rattle.chip_linear.specs.Linear.{linear_clock, linear_set, linear_halted, linear_in};

// `control` is also the halt flag of the length; `halt` is document 01's linear-halt flag.
#[derive(Clone, Copy)]
pub struct Linear {
    pub control: bool,
    pub reload: u8,
    pub count: u8,
    pub halt: bool,
}

impl Linear {
    // One clock of the frame sequencer.
    #[tactic(auto, unfolding(crate::specs::Linear::linear_clock))]
    pub fn clocked(self) -> Linear
        ensures { result ≡ linear_clock self }
    {
        Linear {
            count: if self.halt {
                self.reload
            } else {
                self.count.saturating_sub(1)
            },
            halt: self.control && self.halt,
            ..self
        }
    }

    // $4008 written.
    #[tactic(auto, unfolding(crate::specs::Linear::linear_set))]
    pub fn set(self, value: u8) -> Linear
        ensures { result ≡ linear_set value self }
    {
        Linear {
            control: value / 128 % 2 == 1,
            reload: value % 128,
            ..self
        }
    }

    // $400B written.
    #[tactic(auto, unfolding(crate::specs::Linear::linear_halted))]
    pub fn halted(self) -> Linear
        ensures { result ≡ linear_halted self }
    {
        Linear { halt: true, ..self }
    }

    // Whether every field is in its range.
    #[tactic(auto, unfolding(crate::specs::Linear::linear_in))]
    pub fn in_range(self) -> bool
        ensures { result ≡ linear_in self }
    {
        self.reload <= 127 && self.count <= 127
    }
}
