// The DMC as a stretch between two frame steps keeps it.
ghost use Rattle.std.specs.Prelude.{◌≡◌};
ghost use Rattle.leap_dmc.specs.Lag.{dmc_lag, dmc_renewed, dmc_at};

use chip_dmc::Dmc;

// The DMC brought up to clock `at`; `next` is the clock of its next possible change, `out` what it gives up to then. n is its timer's period.
#[derive(Clone, Copy)]
pub struct DmcLag {
    pub dmc: Dmc,
    pub n: u16,
    pub at: u32,
    pub next: u64,
    pub out: u8,
}

impl DmcLag {
    // Kept from clock at on.
    #[tactic(auto, unfolding(crate::specs::Lag::dmc_lag))]
    pub fn new(n: u16, dmc: Dmc, at: u32) -> DmcLag
        ensures { result ≡ dmc_lag n dmc at }
    {
        let still = super::still_for(dmc, n);
        let out = dmc.output_of();
        DmcLag {
            dmc,
            n,
            at,
            next: u64::from(at) + u64::from(still) + 1,
            out,
        }
    }

    // At clock e: brought up to it where that is its next change.
    #[tactic(auto, unfolding(crate::specs::Lag::dmc_renewed))]
    pub fn renewed(self, memory: &[u8], e: u32) -> DmcLag
        ensures { result ≡ dmc_renewed memory.now self e }
    {
        if self.next == u64::from(e) {
            let dmc = super::turn(self.dmc, memory, self.n);
            return DmcLag::new(self.n, dmc, e);
        }
        self
    }

    // The DMC at clock k, before its next change.
    #[tactic(auto, unfolding(crate::specs::Lag::dmc_at))]
    pub fn dmc_at(self, k: u32) -> Dmc
        ensures { result ≡ dmc_at self k }
    {
        super::advance(self.dmc, self.n, k.saturating_sub(self.at))
    }
}
