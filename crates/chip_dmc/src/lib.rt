// The sample channel (DMC): its clock, its registers, its output, its range. The timer's period is an argument throughout.
#![tactic(auto)]

ghost use Rattle.std.specs.Prelude.{◌≡◌};
ghost use Rattle.chip_dmc.specs.Clock.{dmc_timed, dmc_read, dmc_clock, dmc_output};
ghost use Rattle.chip_dmc.specs.Write.{dmc_write0, dmc_write1, dmc_write2, dmc_write3, dmc_write, dmc_enabled};
ghost use Rattle.chip_dmc.specs.Range.{dmc_in, dmc_on};

use chip_dmc_output::Output;
use chip_dmc_reader::{Reader, Registers};

#[derive(Clone, Copy)]
pub struct Dmc {
    pub registers: Registers,
    pub output: Output,
    pub reader: Reader,
}

impl Dmc {
    // The state at power-on; the timer starts at the period.
    pub fn power_on(period: u16) -> Dmc
        ensures { result ≡ dmc_on period }
    {
        let registers = Registers {
            enable: false,
            looped: false,
            index: 0,
            start: 0,
            size: 0,
        };
        let output = Output {
            timer: period,
            level: 0,
            shift: 0,
            bits: 8,
            silence: true,
        };
        let reader = Reader {
            address: 49152,
            remaining: 0,
            buffer: 0,
            full: false,
            interrupt: false,
        };
        Dmc {
            registers,
            output,
            reader,
        }
    }

    // One clock of the timer, with what it drives.
    #[tactic(auto, unfolding(crate::specs::Clock::dmc_timed))]
    pub fn timed(self, period: u16) -> Dmc
        ensures { result ≡ dmc_timed period self }
    {
        let taken = self.output.timer <= 1 && self.output.bits <= 1;
        let mut d = self;
        d.output = self
            .output
            .clocked(period, self.reader.full, self.reader.buffer);
        d.reader = self.reader.after(taken);
        d
    }

    // One clock of the reader.
    #[tactic(auto, unfolding(crate::specs::Clock::dmc_read))]
    pub fn fed(self, memory: &[u8]) -> Dmc
        ensures { result ≡ dmc_read memory.now self }
    {
        Dmc {
            reader: self.reader.clocked(memory, self.registers),
            ..self
        }
    }

    // One clock of both.
    #[tactic(auto, unfolding(crate::specs::Clock::dmc_clock))]
    pub fn clocked(self, memory: &[u8], period: u16) -> Dmc
        ensures { result ≡ dmc_clock memory.now period self }
    {
        self.timed(period).fed(memory)
    }

    // What the mixer takes.
    #[tactic(auto, unfolding(crate::specs::Clock::dmc_output))]
    pub fn output_of(self) -> u8
        ensures { result ≡ dmc_output self }
    {
        self.output.level
    }

    #[tactic(auto, unfolding(crate::specs::Write::dmc_write0))]
    fn write0(self, value: u8) -> Dmc
        ensures { result ≡ dmc_write0 value self }
    {
        let enable = value / 128 % 2 == 1;
        let registers = Registers {
            enable,
            looped: value / 64 % 2 == 1,
            index: value % 16,
            ..self.registers
        };
        Dmc {
            registers,
            reader: self.reader.cleared(enable),
            ..self
        }
    }

    #[tactic(auto, unfolding(crate::specs::Write::dmc_write1))]
    fn write1(self, value: u8) -> Dmc
        ensures { result ≡ dmc_write1 value self }
    {
        let mut d = self;
        d.output.level = value % 128;
        d
    }

    #[tactic(auto, unfolding(crate::specs::Write::dmc_write2))]
    fn write2(self, value: u8) -> Dmc
        ensures { result ≡ dmc_write2 value self }
    {
        let mut d = self;
        d.registers.start = value;
        d
    }

    #[tactic(auto, unfolding(crate::specs::Write::dmc_write3))]
    fn write3(self, value: u8) -> Dmc
        ensures { result ≡ dmc_write3 value self }
    {
        let mut d = self;
        d.registers.size = value;
        d
    }

    // One of $4010 to $4013 written, by its place from 0.
    #[tactic(auto, unfolding(crate::specs::Write::dmc_write))]
    pub fn write(self, place: u16, value: u8) -> Dmc
        ensures { result ≡ dmc_write place value self }
    {
        match place {
            0 => self.write0(value),
            1 => self.write1(value),
            2 => self.write2(value),
            _ => self.write3(value),
        }
    }

    // Its bit of $4015 written.
    #[tactic(auto, unfolding(crate::specs::Write::dmc_enabled))]
    pub fn enabled(self, on: bool) -> Dmc
        ensures { result ≡ dmc_enabled on self }
    {
        let reader = self.reader.cleared(false);
        Dmc {
            reader: reader.switched_by(on, self.registers),
            ..self
        }
    }

    // `top` is the largest period.
    #[tactic(auto, unfolding(crate::specs::Range::dmc_in))]
    pub fn in_range(self, top: u16) -> bool
        ensures { result ≡ dmc_in top self }
    {
        self.registers.in_range() && self.output.in_range(top) && self.reader.in_range()
    }
}
