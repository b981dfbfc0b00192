// The noise channel: its clock, its registers, its output, its range. The timer's period is an argument throughout.
#![tactic(auto)]

ghost use Rattle.std.specs.Prelude.{◌≡◌, ◌-◌, ◌/◌, ◌%◌};
ghost use Rattle.chip_noise.specs.Shifter.{tap_of, shifted_of, shifter_clock, shifter_in};
ghost use Rattle.chip_noise.specs.Noise.{noise_timed, noise_enveloped, noise_lengthened, noise_enabled, noise_amount, noise_output, noise_write0, noise_write2, noise_write3, noise_write, noise_in, noise_on};

use chip_envelope::Envelope;
use chip_length::Length;

// What the timer moves: its count and the shift register.
#[derive(Clone, Copy)]
pub struct Shifter {
    pub timer: u16,
    pub register: u16,
}

#[derive(Clone, Copy)]
pub struct Noise {
    pub mode: bool,
    pub index: u8,
    pub shifter: Shifter,
    pub envelope: Envelope,
    pub length: Length,
}

// The bit that goes into the feedback beside bit 0.
pub fn tap(mode: bool) -> u16
    ensures { result ≡ tap_of mode }
{
    if mode { 6 } else { 1 }
}

// The shift register's next value.
#[tactic(auto, unfolding(crate::specs::Shifter::shifted_of))]
pub fn shifted(mode: bool, register: u16) -> u16
    ensures { result ≡ shifted_of mode register }
{
    let low = register & 1;
    let other = (register >> tap(mode)) & 1;
    let feedback = low ^ other;
    ((register >> 1) & 16383) | (feedback << 14)
}

impl Shifter {
    // One clock of the timer, with what it drives.
    #[tactic(auto, unfolding(crate::specs::Shifter::shifter_clock))]
    pub fn clocked(self, period: u16, mode: bool) -> Shifter
        ensures { result ≡ shifter_clock period mode self }
    {
        if self.timer <= 1 {
            Shifter {
                timer: period,
                register: shifted(mode, self.register),
            }
        } else {
            Shifter {
                timer: self.timer - 1,
                ..self
            }
        }
    }

    #[tactic(auto, unfolding(crate::specs::Shifter::shifter_in))]
    fn in_range(self, top: u16) -> bool
        ensures { result ≡ shifter_in top self }
    {
        1 <= self.timer && self.timer <= top && 1 <= self.register && self.register <= 32767
    }
}

impl Noise {
    // The state at power-on; the timer starts at the period.
    pub fn power_on(period: u16) -> Noise
        ensures { result ≡ noise_on period }
    {
        let shifter = Shifter {
            timer: period,
            register: 1,
        };
        Noise {
            mode: false,
            index: 0,
            shifter,
            envelope: Envelope::power_on(),
            length: Length::power_on(),
        }
    }

    // One clock.
    #[tactic(auto, unfolding(crate::specs::Noise::noise_timed))]
    pub fn timed(self, period: u16) -> Noise
        ensures { result ≡ noise_timed period self }
    {
        Noise {
            shifter: self.shifter.clocked(period, self.mode),
            ..self
        }
    }

    // At a quarter frame.
    #[tactic(auto, unfolding(crate::specs::Noise::noise_enveloped))]
    pub fn envelope_clocked(self) -> Noise
        ensures { result ≡ noise_enveloped self }
    {
        Noise {
            envelope: self.envelope.clocked(),
            ..self
        }
    }

    // At a half frame.
    #[tactic(auto, unfolding(crate::specs::Noise::noise_lengthened))]
    pub fn length_clocked(self) -> Noise
        ensures { result ≡ noise_lengthened self }
    {
        Noise {
            length: self.length.clocked(self.envelope.looped),
            ..self
        }
    }

    // Its bit of $4015 written.
    #[tactic(auto, unfolding(crate::specs::Noise::noise_enabled))]
    pub fn enabled(self, on: bool) -> Noise
        ensures { result ≡ noise_enabled on self }
    {
        Noise {
            length: self.length.enabled_by(on),
            ..self
        }
    }

    // What it gives while bit 0 of the shift register is clear.
    #[tactic(auto, unfolding(crate::specs::Noise::noise_amount))]
    pub fn amount(self) -> u8
        ensures { result ≡ noise_amount self }
    {
        if self.length.count == 0 {
            0
        } else {
            self.envelope.volume_of()
        }
    }

    // What the mixer takes.
    #[tactic(auto, unfolding(crate::specs::Noise::noise_output))]
    pub fn output(self) -> u8
        ensures { result ≡ noise_output self }
    {
        if self.shifter.register % 2 == 1 {
            0
        } else {
            self.amount()
        }
    }

    #[tactic(auto, unfolding(crate::specs::Noise::noise_write0))]
    fn write0(self, value: u8) -> Noise
        ensures { result ≡ noise_write0 value self }
    {
        Noise {
            envelope: self.envelope.set(value),
            ..self
        }
    }

    #[tactic(auto, unfolding(crate::specs::Noise::noise_write2))]
    fn write2(self, value: u8) -> Noise
        ensures { result ≡ noise_write2 value self }
    {
        Noise {
            mode: value / 128 % 2 == 1,
            index: value % 16,
            ..self
        }
    }

    #[tactic(auto, unfolding(crate::specs::Noise::noise_write3))]
    fn write3(self, value: u8) -> Noise
        ensures { result ≡ noise_write3 value self }
    {
        Noise {
            envelope: self.envelope.begun(),
            length: self.length.loaded(value),
            ..self
        }
    }

    // One of $400C to $400F written, by its place from 0.
    #[tactic(auto, unfolding(crate::specs::Noise::noise_write))]
    pub fn write(self, place: u16, value: u8) -> Noise
        ensures { result ≡ noise_write place value self }
    {
        match place {
            0 => self.write0(value),
            2 => self.write2(value),
            3 => self.write3(value),
            _ => self,
        }
    }

    // `top` is the largest period.
    #[tactic(auto, unfolding(crate::specs::Noise::noise_in))]
    pub fn in_range(self, top: u16) -> bool
        ensures { result ≡ noise_in top self }
    {
        self.index <= 15
            && self.shifter.in_range(top)
            && self.envelope.in_range()
            && self.length.in_range()
    }
}
