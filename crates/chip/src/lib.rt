// The whole chip: its state, one clock, interrupt line and level. Every operation here has an answer for every state; the operations
// that refuse states out of range are the crate `chip_api`.
#![tactic(auto)]

ghost use Rattle.std.specs.Prelude.{◌≡◌};
ghost use Rattle.chip.specs.Clock.{timers_clocked, reader_clocked, quarter_frame, half_frame, stepped, framed, chip_clock};
ghost use Rattle.chip.specs.Level.{state_level};
ghost use Rattle.chip.specs.Line.{line_asserted};
ghost use Rattle.chip.specs.Range.{in_range, power_on};

use chip_dmc::Dmc;
use chip_frame::Frame;
use chip_noise::Noise;
use chip_square::Square;
use chip_triangle::Triangle;

// `pal` is the machine, PAL or NTSC: fixed at power-on.
#[derive(Clone, Copy)]
pub struct State {
    pub square1: Square,
    pub square2: Square,
    pub triangle: Triangle,
    pub noise: Noise,
    pub dmc: Dmc,
    pub frame: Frame,
    pub pal: bool,
}

// The state at power-on.
#[tactic(auto, unfolding(crate::specs::Range::power_on))]
pub fn power_on(pal: bool) -> State
    ensures { result ≡ power_on pal }
{
    let square = Square::power_on();
    State {
        square1: square,
        square2: square,
        triangle: Triangle::power_on(),
        noise: Noise::power_on(chip_tables::noise_period(pal, 0)),
        dmc: Dmc::power_on(chip_tables::dmc_period(pal, 0)),
        frame: Frame::power_on(),
        pal,
    }
}

impl State {
    // Whether every field is within its range.
    #[tactic(auto, unfolding(crate::specs::Range::in_range))]
    pub fn in_range(self) -> bool
        ensures { result ≡ in_range self }
    {
        self.square1.in_range()
            && self.square2.in_range()
            && self.triangle.in_range()
            && self.noise.in_range(chip_tables::noise_top(self.pal))
            && self.dmc.in_range(chip_tables::dmc_top(self.pal))
            && self.frame.in_range(chip_tables::frame_times(self.pal))
    }

    // The timers with what they drive.
    #[tactic(auto, unfolding(crate::specs::Clock::timers_clocked))]
    fn timed(self) -> State
        ensures { result ≡ timers_clocked self }
    {
        let n = chip_tables::noise_period(self.pal, self.noise.index);
        let d = chip_tables::dmc_period(self.pal, self.dmc.registers.index);
        let mut s = self;
        s.square1 = self.square1.timed();
        s.square2 = self.square2.timed();
        s.triangle = self.triangle.timed();
        s.noise = self.noise.timed(n);
        s.dmc = self.dmc.timed(d);
        s
    }

    // The DMC reader, by itself: a DMC taken whole through `Dmc::fed` would be copied.
    #[tactic(auto, unfolding(crate::specs::Clock::reader_clocked, chip_dmc::specs::Clock::dmc_read))]
    fn fed(self, memory: &[u8]) -> State
        ensures { result ≡ reader_clocked memory.now self }
    {
        let mut dmc = self.dmc;
        dmc.reader = self.dmc.reader.clocked(memory, self.dmc.registers);
        let mut s = self;
        s.dmc = dmc;
        s
    }

    #[tactic(auto, unfolding(crate::specs::Clock::quarter_frame))]
    fn quarter_frame(self) -> State
        ensures { result ≡ quarter_frame self }
    {
        let mut s = self;
        s.square1 = self.square1.envelope_clocked();
        s.square2 = self.square2.envelope_clocked();
        s.triangle = self.triangle.linear_clocked();
        s.noise = self.noise.envelope_clocked();
        s
    }

    #[tactic(auto, unfolding(crate::specs::Clock::half_frame))]
    fn half_frame(self) -> State
        ensures { result ≡ half_frame self }
    {
        let mut s = self;
        s.square1 = self.square1.swept(false);
        s.square2 = self.square2.swept(true);
        s.triangle = self.triangle.length_clocked();
        s.noise = self.noise.length_clocked();
        s
    }

    // A step of the frame.
    #[tactic(auto, unfolding(crate::specs::Clock::stepped))]
    pub fn step(self, step: u8) -> State
        ensures { result ≡ stepped step self }
    {
        let mut s = self;
        if self.frame.is_quarter(step) {
            s = s.quarter_frame();
        }
        if self.frame.is_half(step) {
            s = s.half_frame();
        }
        s.frame = self.frame.stepped(step);
        s
    }

    // The frame's clock number, and its step if due.
    #[tactic(auto, unfolding(crate::specs::Clock::framed, chip_frame::specs::Frame::frame_due))]
    fn frame_clocked(self) -> State
        ensures { result ≡ framed self }
    {
        let times = chip_tables::frame_times(self.pal);
        let step = self.frame.next_step(times);
        let mut s = self;
        s.frame = self.frame.moved(times);
        if step == 0 { s } else { s.step(step) }
    }

    // One clock.
    #[tactic(auto, unfolding(crate::specs::Clock::chip_clock))]
    pub fn clocked(self, memory: &[u8]) -> State
        ensures { result ≡ chip_clock memory.now self }
    {
        self.timed().fed(memory).frame_clocked()
    }

    // Whether the interrupt line is asserted.
    #[tactic(auto, unfolding(crate::specs::Line::line_asserted))]
    pub fn asserts(self) -> bool
        ensures { result ≡ line_asserted self }
    {
        self.frame.asserts() || self.dmc.reader.interrupt
    }

    // The mixed level.
    #[tactic(auto, unfolding(crate::specs::Level::state_level))]
    pub fn level(self) -> u16
        ensures { result ≡ state_level self }
    {
        let a = self.square1.output(false);
        let b = self.square2.output(true);
        let t = self.triangle.output();
        let n = self.noise.output();
        let d = self.dmc.output_of();
        chip_mixer::mix(a.into(), b.into(), t.into(), n.into(), d.into())
    }
}
