// The noise as a stretch between two frame steps keeps it.
ghost use Rattle.std.specs.Prelude.{◌≡◌};
ghost use Rattle.leap_noise.specs.Lag.{noise_lag, noise_renewed, noise_shifter_at};

use chip_noise::Shifter;

// The noise brought up to clock `at`; `next` is the clock of its next possible change, `out` what it gives up to then. n is its timer's period,
// `amount` what it gives while bit 0 of the shift register is clear.
#[derive(Clone, Copy)]
pub struct NoiseLag {
    pub shifter: Shifter,
    pub n: u16,
    pub mode: bool,
    pub amount: u8,
    pub at: u32,
    pub next: u64,
    pub out: u8,
}

impl NoiseLag {
    // Kept from clock at on.
    #[tactic(auto, unfolding(crate::specs::Lag::noise_lag))]
    pub fn new(n: u16, mode: bool, amount: u8, shifter: Shifter, at: u32) -> NoiseLag
        ensures { result ≡ noise_lag n mode amount shifter at }
    {
        let still = super::still_for(shifter, amount, n);
        let out = super::gives(shifter, amount);
        NoiseLag {
            shifter,
            n,
            mode,
            amount,
            at,
            next: u64::from(at) + u64::from(still) + 1,
            out,
        }
    }

    // At clock e: brought up to it where that is its next change.
    #[tactic(auto, unfolding(crate::specs::Lag::noise_renewed))]
    pub fn renewed(self, e: u32) -> NoiseLag
        ensures { result ≡ noise_renewed self e }
    {
        if self.next == u64::from(e) {
            let shifter = super::turn(self.shifter, self.n, self.mode);
            return NoiseLag::new(self.n, self.mode, self.amount, shifter, e);
        }
        self
    }

    // What its timer moves, at clock k.
    #[tactic(auto, unfolding(crate::specs::Lag::noise_shifter_at))]
    pub fn shifter_at(self, k: u32) -> Shifter
        ensures { result ≡ noise_shifter_at self k }
    {
        super::advance(self.shifter, self.n, self.mode, k.saturating_sub(self.at))
    }
}
