// The sweep of a square's period. `second` says that it is square 2's.
#![tactic(auto)]

ghost use Rattle.std.specs.Prelude.{◌≡◌, ◌/◌, ◌^◌};
ghost use Rattle.chip_sweep.specs.Sweep.{target, low_period, high_target, muted, sweeps, swept_period, sweep_clock, sweep_set, sweep_in};

// `period` and `shift` are document 01's P and S, `written` its sweep-written flag.
#[derive(Clone, Copy)]
pub struct Sweep {
    pub enable: bool,
    pub negate: bool,
    pub period: u8,
    pub shift: u8,
    pub written: bool,
    pub divider: u8,
}

// A period shifted right; past its last bit 0 is left.
fn shifted(period: u16, places: u8) -> u16
    ensures { result ≡ period / 2 ^ places }
{
    if places < 16 { period >> places } else { 0 }
}

impl Sweep {
    // The period that the sweep is heading for, as a signed number.
    pub fn target_of(self, second: bool, period: u16) -> i32
        ensures { result ≡ target second self period }
    {
        let p = i32::from(period);
        let s = i32::from(shifted(period, self.shift));
        if self.negate {
            if second { p + (!s + 1) } else { p + !s }
        } else {
            p + s
        }
    }

    // Whether the target is above 2047; `second` is square 2.
    #[tactic(auto, unfolding(crate::specs::Sweep::high_target))]
    pub fn is_high(self, second: bool, period: u16) -> bool
        ensures { result ≡ high_target second self period }
    {
        self.target_of(second, period) > 2047
    }

    // Whether it silences its square.
    #[tactic(auto, unfolding(crate::specs::Sweep::muted))]
    pub fn mutes(self, second: bool, period: u16) -> bool
        ensures { result ≡ muted second self period }
    {
        is_low(period) || self.is_high(second, period)
    }

    #[tactic(auto, unfolding(crate::specs::Sweep::sweeps))]
    fn moves(self, second: bool, period: u16) -> bool
        ensures { result ≡ sweeps second self period }
    {
        self.divider <= 1 && self.enable && 0 < self.shift && !self.mutes(second, period)
    }

    // The square's period after a clock of the sweep.
    pub fn swept(self, second: bool, period: u16) -> u16
        ensures { result ≡ swept_period second self period }
    {
        if self.moves(second, period) {
            self.target_of(second, period) as u16
        } else {
            period
        }
    }

    // One clock of the frame sequencer.
    #[tactic(auto, unfolding(crate::specs::Sweep::sweep_clock))]
    pub fn clocked(self) -> Sweep
        ensures { result ≡ sweep_clock self }
    {
        let n = self.period % 8 + 1;
        Sweep {
            written: false,
            divider: if self.written {
                n
            } else {
                divider::tick_u8(n, self.divider)
            },
            ..self
        }
    }

    // The square's second register written.
    #[tactic(auto, unfolding(crate::specs::Sweep::sweep_set))]
    pub fn set(self, value: u8) -> Sweep
        ensures { result ≡ sweep_set value self }
    {
        Sweep {
            enable: value / 128 % 2 == 1,
            negate: value / 8 % 2 == 1,
            period: value / 16 % 8,
            shift: value % 8,
            written: true,
            ..self
        }
    }

    // Whether every field is in its range.
    #[tactic(auto, unfolding(crate::specs::Sweep::sweep_in))]
    pub fn in_range(self) -> bool
        ensures { result ≡ sweep_in self }
    {
        self.period <= 7 && self.shift <= 7 && 1 <= self.divider && self.divider <= 8
    }
}

// A period too low to be heard.
#[tactic(auto, unfolding(crate::specs::Sweep::low_period))]
pub fn is_low(period: u16) -> bool
    ensures { result ≡ low_period period }
{
    period < 8
}
