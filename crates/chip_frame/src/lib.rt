// The frame sequencer: its clock number, its steps, and its interrupt flag. At which clock numbers steps come is an argument.
#![tactic(auto)]

ghost use Rattle.std.specs.Prelude.{◌≡◌, ◌+◌, leb};
ghost use Rattle.arith.specs.Pick.{pick};
ghost use Rattle.chip_frame.specs.Frame.{last_number, frame_moved, step_at, next_step, is_quarter, is_half, frame_stepped, frame_written, frame_read, frame_asserts, frame_in, frame_on};

// The clock numbers at which steps come. Mode 0 has the first four, mode 1 all five; behind the last the clock number is 0 again.
#[derive(Clone, Copy)]
pub struct Times {
    pub first: u16,
    pub second: u16,
    pub third: u16,
    pub fourth: u16,
    pub fifth: u16,
}

// `clock` is the clock number: the clocks since the frame began.
#[derive(Clone, Copy)]
pub struct Frame {
    pub mode: bool,
    pub disable: bool,
    pub clock: u16,
    pub interrupt: bool,
}

impl Times {
    // The last clock number of a frame.
    pub fn last(self, mode: bool) -> u16
        ensures { result ≡ last_number self mode }
    {
        if mode { self.fifth } else { self.fourth }
    }

    // The step that comes at a clock number, and 0 where none comes.
    #[tactic(auto, unfolding(crate::specs::Frame::step_at))]
    fn step_at(self, mode: bool, clock: u16) -> u8
        ensures { result ≡ step_at self mode clock }
    {
        if clock == self.first {
            if mode { 2 } else { 1 }
        } else if clock == self.second {
            if mode { 3 } else { 2 }
        } else if clock == self.third {
            if mode { 4 } else { 3 }
        } else if clock == self.fourth {
            if mode { 5 } else { 4 }
        } else if mode && clock == self.fifth {
            1
        } else {
            0
        }
    }
}

// The clock number behind one, where `last` is the last of the frame.
fn number_after(clock: u16, last: u16) -> u16
    ensures { result ≡ pick (leb last clock) 0 (clock + 1) }
{
    if last <= clock { 0 } else { clock + 1 }
}

impl Frame {
    // The state at power-on.
    pub fn power_on() -> Frame
        ensures { result ≡ frame_on }
    {
        Frame {
            mode: false,
            disable: false,
            clock: 0,
            interrupt: false,
        }
    }

    // One clock of the clock number.
    #[tactic(auto, unfolding(crate::specs::Frame::frame_moved))]
    pub fn moved(self, t: Times) -> Frame
        ensures { result ≡ frame_moved t self }
    {
        let last = t.last(self.mode);
        Frame {
            clock: number_after(self.clock, last),
            ..self
        }
    }

    // The step that the next clock brings, and 0 where it brings none.
    pub fn next_step(self, t: Times) -> u8
        ensures { result ≡ next_step t self }
    {
        let next = self.moved(t);
        t.step_at(self.mode, next.clock)
    }

    // Whether a step clocks envelopes and the linear counter.
    #[tactic(auto, unfolding(crate::specs::Frame::is_quarter))]
    pub fn is_quarter(self, step: u8) -> bool
        ensures { result ≡ is_quarter step self }
    {
        !self.mode || step <= 4
    }

    // Whether a step clocks lengths and sweeps.
    #[tactic(auto, unfolding(crate::specs::Frame::is_half))]
    pub fn is_half(self, step: u8) -> bool
        ensures { result ≡ is_half step self }
    {
        if self.mode {
            step == 1 || step == 3
        } else {
            step == 2 || step == 4
        }
    }

    // A step's flag.
    #[tactic(auto, unfolding(crate::specs::Frame::frame_stepped))]
    pub fn stepped(self, step: u8) -> Frame
        ensures { result ≡ frame_stepped step self }
    {
        let flag = !self.disable && !self.mode && step == 4;
        Frame {
            interrupt: flag || self.interrupt,
            ..self
        }
    }

    // $4017 written: the frame begins anew; with bit 6 set the flag is cleared.
    #[tactic(auto, unfolding(crate::specs::Frame::frame_written))]
    pub fn written(self, value: u8) -> Frame
        ensures { result ≡ frame_written value self }
    {
        let disable = value / 64 % 2 == 1;
        Frame {
            mode: value / 128 % 2 == 1,
            disable,
            clock: 0,
            interrupt: !disable && self.interrupt,
        }
    }

    // The flag cleared by a status read.
    #[tactic(auto, unfolding(crate::specs::Frame::frame_read))]
    pub fn read(self) -> Frame
        ensures { result ≡ frame_read self }
    {
        let mut f = self;
        f.interrupt = false;
        f
    }

    // Whether its flag asserts the interrupt line.
    #[tactic(auto, unfolding(crate::specs::Frame::frame_asserts))]
    pub fn asserts(self) -> bool
        ensures { result ≡ frame_asserts self }
    {
        self.interrupt && !self.disable
    }

    // Whether the clock number is one of the mode's and the flag is clear while its interrupt is disabled.
    #[tactic(auto, unfolding(crate::specs::Frame::frame_in))]
    pub fn in_range(self, t: Times) -> bool
        ensures { result ≡ frame_in t self }
    {
        let barred = self.disable && self.interrupt;
        self.clock <= t.last(self.mode) && !barred
    }
}
