// The output unit of the sample channel (DMC) with its timer: how the level moves. The timer's period is an argument throughout.
#![tactic(auto)]

ghost use Rattle.std.specs.Prelude.{◌≡◌, ◌+◌, ◌-◌, ltb};
ghost use Rattle.arith.specs.Pick.{pick};
ghost use Rattle.chip_dmc_output.specs.Output.{level_moved, output_step, with_timer, output_clock, output_in};

// The output unit with its timer: the level, the shift byte, the bits left of it, and whether it is silent.
#[derive(Clone, Copy)]
pub struct Output {
    pub timer: u16,
    pub level: u8,
    pub shift: u8,
    pub bits: u8,
    pub silence: bool,
}

fn lowered(level: u8) -> u8
    ensures { result ≡ pick (ltb 1 level) (level - 2) level }
{
    if 1 < level { level - 2 } else { level }
}

fn raised(level: u8) -> u8
    ensures { result ≡ pick (ltb level 126) (level + 2) level }
{
    if level < 126 { level + 2 } else { level }
}

// The level moved by bit 0 of a byte.
#[tactic(auto, unfolding(crate::specs::Output::level_moved))]
pub fn level_moved(byte: u8, level: u8) -> u8
    ensures { result ≡ level_moved byte level }
{
    if byte % 2 == 0 {
        lowered(level)
    } else {
        raised(level)
    }
}

impl Output {
    #[tactic(auto, unfolding(crate::specs::Output::output_step))]
    fn stepped(self, period: u16, full: bool, buffer: u8) -> Output
        ensures { result ≡ output_step period full buffer self }
    {
        let last = self.bits <= 1;
        Output {
            timer: period,
            level: if self.silence {
                self.level
            } else {
                level_moved(self.shift, self.level)
            },
            shift: if last && full { buffer } else { self.shift / 2 },
            bits: divider::tick_u8(8, self.bits),
            silence: if last { !full } else { self.silence },
        }
    }

    // With another timer count.
    pub fn at(self, timer: u16) -> Output
        ensures { result ≡ with_timer self timer }
    {
        Output { timer, ..self }
    }

    // One clock of the timer, with what it drives: `full` and `buffer` are the reader's.
    #[tactic(auto, unfolding(crate::specs::Output::output_clock))]
    pub fn clocked(self, period: u16, full: bool, buffer: u8) -> Output
        ensures { result ≡ output_clock period full buffer self }
    {
        if self.timer <= 1 {
            self.stepped(period, full, buffer)
        } else {
            self.at(self.timer - 1)
        }
    }

    // `top` is the largest period.
    #[tactic(auto, unfolding(crate::specs::Output::output_in))]
    pub fn in_range(self, top: u16) -> bool
        ensures { result ≡ output_in top self }
    {
        1 <= self.timer
            && self.timer <= top
            && self.level <= 127
            && 1 <= self.bits
            && self.bits <= 8
    }
}
