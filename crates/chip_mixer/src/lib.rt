// The mixer: one level out of 32,768 from what the five channels give.
#![tactic(auto)]

ghost use Rattle.std.specs.Prelude.{◌≡◌, false, ◌+◌, ◌%◌, ◌≤◌, pos};
ghost use Rattle.std.specs.Float.Ieee as Ieee;
ghost use Rattle.std.specs.Float.{binary32};
ghost use Rattle.std.specs.Float.Ieee.Exact.{HasValue};
ghost use Rattle.chip_mixer.specs.Mixer.{squares_level, mixed};
ghost use Rattle.chip_mixer.specs.Parts.{others_weight, rest_by, mixed_by};
ghost use Rattle.chip_mixer.specs.Fraction.{scale, fraction_of};

// A for each sum of what the two squares give: a static, since a constant array would be copied at each look-up.
static SQUARES: [u64; 31] = [
    0, 381, 754, 1118, 1473, 1820, 2159, 2491, 2815, 3132, 3441, 3745, 4041, 4332, 4616, 4894,
    5167, 5434, 5696, 5952, 6204, 6450, 6692, 6929, 7162, 7390, 7614, 7834, 8049, 8261, 8469,
];

// A: the squares' share, by the sum of what they give.
#[tactic(auto, using(crate::proofs::TableLaws::entry_is))]
fn squares(sum: usize) -> u64
    requires { sum ≤ 30 }
    ensures { result ≡ squares_level sum }
{
    SQUARES[sum]
}

// The part of noise and DMC in N.
#[tactic(auto, unfolding(crate::specs::Parts::others_weight))]
pub fn others_weight(n: u32, d: u32) -> u64
    ensures { result ≡ others_weight n d }
{
    u64::from(n % 16) * (8227 * 22638) + u64::from(d % 128) * (8227 * 12241)
}

// B: the share of triangle, noise and DMC, by the parts of N.
#[tactic(auto, unfolding(crate::specs::Parts::rest_by))]
fn rest(t: u32, others: u64) -> u64
    ensures { result ≡ rest_by (t + others % 17179869184) }
{
    let w = u64::from(t) + others % 17179869184;
    32768 * 15979 * w / (100 * (8227 * 12241 * 22638) + 10000 * w)
}

// The level by the parts of N, for a caller who has them.
pub fn mix_by(a: u32, b: u32, t: u32, others: u64) -> u16
    ensures { result ≡ mixed_by a b t others }
{
    let s = squares((a % 16 + b % 16) as usize);
    let r = rest(t, others);
    (s + r) as u16
}

// The level.
pub fn mix(a: u32, b: u32, t: u32, n: u32, d: u32) -> u16
    ensures { result ≡ mixed a b t n d }
{
    let others = others_weight(n, d);
    mix_by(a, b, t % 16 * (12241 * 22638), others)
}

// A level over 32,768. It is exact, and times 32,768 it is the level again.
pub fn fraction(level: u16) -> f32
    ensures value { result ≡ fraction_of level }
    ensures exact { HasValue result false level 32768 }
    ensures back { Ieee.mul binary32 result scale ≡ Ieee.of_int binary32 (pos level) }
{
    (level as f32) / 32768.0
}
