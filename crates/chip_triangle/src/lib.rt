// The triangle channel.
#![tactic(auto)]

ghost use Rattle.std.specs.Prelude.{◌≡◌, ◌+◌, ◌%◌};
ghost use Rattle.chip_triangle.specs.Triangle.{runs, triangle_sequenced, triangle_timed, triangle_linear, triangle_lengthened, triangle_enabled, triangle_at, triangle_output, triangle_sequencer_in, triangle_in, triangle_on};
ghost use Rattle.chip_triangle.specs.Write.{with_timer, triangle_write0, triangle_write2, triangle_write3, triangle_write};

use chip_length::Length;
use chip_linear::Linear;
use chip_timer::Timer;

// What the timer moves.
#[derive(Clone, Copy)]
pub struct Sequencer {
    pub timer: Timer,
    pub position: u8,
}

#[derive(Clone, Copy)]
pub struct Triangle {
    pub sequencer: Sequencer,
    pub linear: Linear,
    pub length: Length,
}

fn position_after(position: u8) -> u8
    ensures { result ≡ (position + 1) % 32 }
{
    (position % 32 + 1) % 32
}

// What a position gives.
#[tactic(auto, unfolding(crate::specs::Triangle::triangle_at))]
pub fn value_at(position: u8) -> u8
    ensures { result ≡ triangle_at position }
{
    let p = position % 32;
    if p < 16 { 15 - p } else { p - 16 }
}

impl Sequencer {
    // One clock; `on` says that the counters let it advance.
    #[tactic(auto, unfolding(crate::specs::Triangle::triangle_sequenced))]
    pub fn clocked(self, on: bool) -> Sequencer
        ensures { result ≡ triangle_sequenced on self }
    {
        Sequencer {
            timer: self.timer.clocked(),
            position: if self.timer.count <= 1 && on {
                position_after(self.position)
            } else {
                self.position
            },
        }
    }

    fn with_timer(self, timer: Timer) -> Sequencer
        ensures { result ≡ with_timer self timer }
    {
        Sequencer { timer, ..self }
    }

    #[tactic(auto, unfolding(crate::specs::Triangle::triangle_sequencer_in))]
    fn in_range(self) -> bool
        ensures { result ≡ triangle_sequencer_in self }
    {
        self.timer.in_range() && self.position <= 31
    }
}

impl Triangle {
    // The state at power-on.
    pub fn power_on() -> Triangle
        ensures { result ≡ triangle_on }
    {
        let sequencer = Sequencer {
            timer: Timer::power_on(),
            position: 0,
        };
        let linear = Linear {
            control: false,
            reload: 0,
            count: 0,
            halt: false,
        };
        Triangle {
            sequencer,
            linear,
            length: Length::power_on(),
        }
    }

    // Whether its two counters let it advance.
    #[tactic(auto, unfolding(crate::specs::Triangle::runs))]
    pub fn is_running(self) -> bool
        ensures { result ≡ runs self }
    {
        0 < self.length.count && 0 < self.linear.count
    }

    // One clock.
    #[tactic(auto, unfolding(crate::specs::Triangle::triangle_timed))]
    pub fn timed(self) -> Triangle
        ensures { result ≡ triangle_timed self }
    {
        Triangle {
            sequencer: self.sequencer.clocked(self.is_running()),
            ..self
        }
    }

    // At a quarter frame.
    #[tactic(auto, unfolding(crate::specs::Triangle::triangle_linear))]
    pub fn linear_clocked(self) -> Triangle
        ensures { result ≡ triangle_linear self }
    {
        Triangle {
            linear: self.linear.clocked(),
            ..self
        }
    }

    // At a half frame.
    #[tactic(auto, unfolding(crate::specs::Triangle::triangle_lengthened))]
    pub fn length_clocked(self) -> Triangle
        ensures { result ≡ triangle_lengthened self }
    {
        Triangle {
            length: self.length.clocked(self.linear.control),
            ..self
        }
    }

    // Its bit of $4015 written.
    #[tactic(auto, unfolding(crate::specs::Triangle::triangle_enabled))]
    pub fn enabled(self, on: bool) -> Triangle
        ensures { result ≡ triangle_enabled on self }
    {
        Triangle {
            length: self.length.enabled_by(on),
            ..self
        }
    }

    // What the mixer takes, whether it advances or not.
    #[tactic(auto, unfolding(crate::specs::Triangle::triangle_output))]
    pub fn output(self) -> u8
        ensures { result ≡ triangle_output self }
    {
        value_at(self.sequencer.position)
    }

    #[tactic(auto, unfolding(crate::specs::Write::triangle_write0))]
    fn write0(self, value: u8) -> Triangle
        ensures { result ≡ triangle_write0 value self }
    {
        Triangle {
            linear: self.linear.set(value),
            ..self
        }
    }

    #[tactic(auto, unfolding(crate::specs::Write::triangle_write2))]
    fn write2(self, value: u8) -> Triangle
        ensures { result ≡ triangle_write2 value self }
    {
        let timer = self.sequencer.timer.period_low(value);
        Triangle {
            sequencer: self.sequencer.with_timer(timer),
            ..self
        }
    }

    #[tactic(auto, unfolding(crate::specs::Write::triangle_write3))]
    fn write3(self, value: u8) -> Triangle
        ensures { result ≡ triangle_write3 value self }
    {
        let timer = self.sequencer.timer.period_high(value);
        Triangle {
            sequencer: self.sequencer.with_timer(timer),
            linear: self.linear.halted(),
            length: self.length.loaded(value),
            ..self
        }
    }

    // One of $4008 to $400B written, by its place from 0.
    #[tactic(auto, unfolding(crate::specs::Write::triangle_write))]
    pub fn write(self, place: u16, value: u8) -> Triangle
        ensures { result ≡ triangle_write place value self }
    {
        match place {
            0 => self.write0(value),
            2 => self.write2(value),
            3 => self.write3(value),
            _ => self,
        }
    }

    // Whether every field is in its range.
    #[tactic(auto, unfolding(crate::specs::Triangle::triangle_in))]
    pub fn in_range(self) -> bool
        ensures { result ≡ triangle_in self }
    {
        self.sequencer.in_range() && self.linear.in_range() && self.length.in_range()
    }
}
