// A square channel. `second` says that it is square 2, which differs from square 1 only in its negated sweep.
#![tactic(auto)]

ghost use Rattle.std.specs.Prelude.{◌≡◌, ◌+◌, ◌%◌};
ghost use Rattle.chip_square.specs.Sequencer.{sequencer_clock, duty_bit};
ghost use Rattle.chip_square.specs.Square.{with_period, square_timed, square_enveloped, square_swept, square_enabled, square_amount, square_output};
ghost use Rattle.chip_square.specs.Write.{sequencer_low, sequencer_high, square_write0, square_write1, square_write2, square_write3, square_write};
ghost use Rattle.chip_square.specs.Range.{sequencer_in, square_in, square_on};

use chip_envelope::Envelope;
use chip_length::Length;
use chip_sweep::Sweep;
use chip_timer::Timer;

// What the timer moves. `half` is document 01's half flag: position advances at every other output.
#[derive(Clone, Copy)]
pub struct Sequencer {
    pub timer: Timer,
    pub half: bool,
    pub position: u8,
}

#[derive(Clone, Copy)]
pub struct Square {
    pub duty: u8,
    pub sequencer: Sequencer,
    pub envelope: Envelope,
    pub sweep: Sweep,
    pub length: Length,
}

// The four duties, eight bits each: bit duty * 8 + position is the duty bit.
const DUTIES: u32 = 0xF91E0602;

// The duty bit at a position.
pub fn duty_bit(duty: u8, position: u8) -> u8
    ensures { result ≡ duty_bit duty position }
{
    let bit = duty % 4 * 8 + position % 8;
    ((DUTIES >> bit) % 2) as u8
}

fn position_after(position: u8) -> u8
    ensures { result ≡ (position + 1) % 8 }
{
    (position % 8 + 1) % 8
}

impl Sequencer {
    // One clock.
    #[tactic(auto, unfolding(crate::specs::Sequencer::sequencer_clock))]
    pub fn clocked(self) -> Sequencer
        ensures { result ≡ sequencer_clock self }
    {
        let output = self.timer.count <= 1;
        Sequencer {
            timer: self.timer.clocked(),
            half: if output { !self.half } else { self.half },
            position: if output && self.half {
                position_after(self.position)
            } else {
                self.position
            },
        }
    }

    fn with_period(self, period: u16) -> Sequencer
        ensures { result ≡ with_period self period }
    {
        let mut q = self;
        q.timer.period = period;
        q
    }

    // The low 8 bits of the period written.
    #[tactic(auto, unfolding(crate::specs::Write::sequencer_low))]
    fn period_low(self, value: u8) -> Sequencer
        ensures { result ≡ sequencer_low value self }
    {
        Sequencer {
            timer: self.timer.period_low(value),
            ..self
        }
    }

    // The high 3 bits of the period written.
    #[tactic(auto, unfolding(crate::specs::Write::sequencer_high))]
    fn period_high(self, value: u8) -> Sequencer
        ensures { result ≡ sequencer_high value self }
    {
        Sequencer {
            timer: self.timer.period_high(value),
            position: 0,
            ..self
        }
    }

    #[tactic(auto, unfolding(crate::specs::Range::sequencer_in))]
    fn in_range(self) -> bool
        ensures { result ≡ sequencer_in self }
    {
        self.timer.in_range() && self.position <= 7
    }
}

impl Square {
    // The state at power-on.
    pub fn power_on() -> Square
        ensures { result ≡ square_on }
    {
        let sequencer = Sequencer {
            timer: Timer::power_on(),
            half: false,
            position: 0,
        };
        let sweep = Sweep {
            enable: false,
            negate: false,
            period: 0,
            shift: 0,
            written: false,
            divider: 1,
        };
        Square {
            duty: 0,
            sequencer,
            envelope: Envelope::power_on(),
            sweep,
            length: Length::power_on(),
        }
    }

    // One clock.
    #[tactic(auto, unfolding(crate::specs::Square::square_timed))]
    pub fn timed(self) -> Square
        ensures { result ≡ square_timed self }
    {
        // Changed in place: a square built anew with `..self` costs each clock a copy.
        let mut s = self;
        s.sequencer = self.sequencer.clocked();
        s
    }

    // At a quarter frame.
    #[tactic(auto, unfolding(crate::specs::Square::square_enveloped))]
    pub fn envelope_clocked(self) -> Square
        ensures { result ≡ square_enveloped self }
    {
        Square {
            envelope: self.envelope.clocked(),
            ..self
        }
    }

    // Its length and its sweep clocked.
    #[tactic(auto, unfolding(crate::specs::Square::square_swept))]
    pub fn swept(self, second: bool) -> Square
        ensures { result ≡ square_swept second self }
    {
        let period = self.sweep.swept(second, self.sequencer.timer.period);
        Square {
            sequencer: self.sequencer.with_period(period),
            sweep: self.sweep.clocked(),
            length: self.length.clocked(self.envelope.looped),
            ..self
        }
    }

    // Its bit of $4015 written.
    #[tactic(auto, unfolding(crate::specs::Square::square_enabled))]
    pub fn enabled(self, on: bool) -> Square
        ensures { result ≡ square_enabled on self }
    {
        Square {
            length: self.length.enabled_by(on),
            ..self
        }
    }

    // What it gives while the duty bit is 1.
    #[tactic(auto, unfolding(crate::specs::Square::square_amount, chip_sweep::specs::Sweep::muted))]
    pub fn amount(self, second: bool) -> u8
        ensures { result ≡ square_amount second self }
    {
        let period = self.sequencer.timer.period;
        if self.length.count == 0 || self.sweep.mutes(second, period) {
            0
        } else {
            self.envelope.volume_of()
        }
    }

    // What the mixer takes.
    #[tactic(auto, unfolding(crate::specs::Square::square_output))]
    pub fn output(self, second: bool) -> u8
        ensures { result ≡ square_output second self }
    {
        if duty_bit(self.duty, self.sequencer.position) == 1 {
            self.amount(second)
        } else {
            0
        }
    }

    #[tactic(auto, unfolding(crate::specs::Write::square_write0))]
    fn write0(self, value: u8) -> Square
        ensures { result ≡ square_write0 value self }
    {
        Square {
            duty: value / 64,
            envelope: self.envelope.set(value),
            ..self
        }
    }

    #[tactic(auto, unfolding(crate::specs::Write::square_write1))]
    fn write1(self, value: u8) -> Square
        ensures { result ≡ square_write1 value self }
    {
        Square {
            sweep: self.sweep.set(value),
            ..self
        }
    }

    #[tactic(auto, unfolding(crate::specs::Write::square_write2))]
    fn write2(self, value: u8) -> Square
        ensures { result ≡ square_write2 value self }
    {
        Square {
            sequencer: self.sequencer.period_low(value),
            ..self
        }
    }

    #[tactic(auto, unfolding(crate::specs::Write::square_write3))]
    fn write3(self, value: u8) -> Square
        ensures { result ≡ square_write3 value self }
    {
        Square {
            sequencer: self.sequencer.period_high(value),
            envelope: self.envelope.begun(),
            length: self.length.loaded(value),
            ..self
        }
    }

    // One of its four registers written, by its place from 0.
    #[tactic(auto, unfolding(crate::specs::Write::square_write))]
    pub fn write(self, place: u16, value: u8) -> Square
        ensures { result ≡ square_write place value self }
    {
        match place {
            0 => self.write0(value),
            1 => self.write1(value),
            2 => self.write2(value),
            _ => self.write3(value),
        }
    }

    // Whether every field is in its range.
    #[tactic(auto, unfolding(crate::specs::Range::square_in))]
    pub fn in_range(self) -> bool
        ensures { result ≡ square_in self }
    {
        self.duty <= 3
            && self.sequencer.in_range()
            && self.envelope.in_range()
            && self.sweep.in_range()
            && self.length.in_range()
    }
}
