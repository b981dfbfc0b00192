// Sound from levels: where a sampler stands that is fed the levels, and how many samples clocks have.
#![tactic(auto)]

ghost use Rattle.std.specs.Prelude.{◌≡◌, true, ◌-◌, ◌*◌, ◌≤◌, leb, ltb};
ghost use Rattle.arith.specs.Pick.{both};
ghost use Rattle.wav_sample.specs.Samples.{rate_right, clocks_before, samples_in};
ghost use Rattle.wav_sample.specs.Sampler.{in_order};
ghost use Rattle.wav_sample.specs.Closed.{whole_by};

// The clocks done, the sample under way, and its levels so far added up.
#[derive(Clone, Copy)]
pub struct Sampler {
    pub clock: u64,
    pub sample: u64,
    pub sum: u64,
}

// Whether a rate is one of 8000 to 192000.
#[tactic(auto, unfolding(crate::specs::Samples::rate_right))]
pub fn rate_right(rate: u32) -> bool
    ensures { result ≡ rate_right rate }
{
    8000 <= rate && rate <= 192000
}

// The clocks before a sample.
fn clocks_before(pal: bool, rate: u64, sample: u64) -> u64
    requires { (rate_right rate ≡ true) × (sample ≤ 500000000) }
    ensures { result ≡ clocks_before pal rate sample }
{
    sample * clock_rate::clock_rate(pal) / rate
}

// The samples that are whole by a clock.
fn whole_by(pal: bool, rate: u64, clock: u64) -> u64
    requires { (rate_right rate ≡ true) × (clock ≤ 4294967295) }
    ensures { result ≡ whole_by pal rate clock }
{
    ((clock + 1) * rate - 1) / clock_rate::clock_rate(pal)
}

// How many samples so many clocks have; none at a rate that is not right.
#[tactic(auto, unfolding(crate::specs::Samples::samples_in), using(crate::proofs::ClockLaws::whole_most, crate::proofs::CountLaws::samples_in_lem))]
pub fn count(pal: bool, rate: u32, clocks: u32) -> u32
    ensures { result ≡ samples_in pal rate clocks }
{
    if rate_right(rate) {
        return whole_by(pal, u64::from(rate), u64::from(clocks)) as u32;
    }
    0
}

// Whether a clock lies in a sample, and the sum is no more than its clocks so far can have.
fn under_way(clock: u64, sum: u64, begin: u64, end: u64) -> bool
    requires { clock ≤ 2000000000 }
    ensures { result ≡ both (leb begin clock) (both (ltb clock end) (leb sum (65535 * (clock - begin)))) }
{
    begin <= clock && clock < end && sum <= 65535 * (clock - begin)
}

// Whether a sampler is one that stands between two clocks of a log. A sample above 400,000,000 begins behind any clock.
#[tactic(auto, unfolding(crate::specs::Sampler::in_order), using(crate::proofs::FitLaws::high_sample))]
fn in_order_at(a: Sampler, pal: bool, rate: u64) -> bool
    requires { rate_right rate ≡ true }
    ensures { result ≡ in_order pal rate a }
{
    if 2000000000 < a.clock || 400000000 < a.sample {
        return false;
    }
    let begin = clocks_before(pal, rate, a.sample);
    let end = clocks_before(pal, rate, a.sample + 1);
    under_way(a.clock, a.sum, begin, end)
}

// Whether a rate is right, and a sampler is one that stands between two clocks of a log.
pub fn in_order(a: Sampler, pal: bool, rate: u32) -> bool
    ensures { result ≡ both (rate_right rate) (in_order pal rate a) }
{
    rate_right(rate) && in_order_at(a, pal, u64::from(rate))
}
