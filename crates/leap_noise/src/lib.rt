// The noise in the leap: for how many clocks it surely gives the same, and its timer and register g clocks on and at its next change.
#![tactic(auto)]

ghost use Rattle.std.specs.Prelude.{◌≡◌, false, ◌+◌, ◌*◌, ◌≤◌};
ghost use Rattle.arith.specs.Iterate.{iterate};
ghost use Rattle.chip_noise.specs.Shifter.{shifted_of};
ghost use Rattle.leap_noise.specs.Leap.{shifter_gives, alike, noise_still, shifter_advanced, shifter_turned};

use chip_noise::Shifter;

pub mod lag;

// The register k outputs on, k up to 8: the bits that they feed back all stand in it.
fn jump(mode: bool, register: u16, k: u16) -> u16
    requires { (register ≤ 32767) × (k ≤ 8) }
    ensures { result ≡ iterate (shifted_of mode) k register }
{
    let fed = (register ^ (register >> chip_noise::tap(mode))) & ((1 << k) - 1);
    (register >> k) | (fed << (15 - k))
}

// The register k outputs on, one by one.
#[tactic(auto, using(arith::proofs::IterateLaws::iterate_zero, arith::proofs::IterateLaws::iterate_more))]
fn singles(mode: bool, register: u16, k: u64) -> u16
    ensures { result ≡ iterate (shifted_of mode) k register }
{
    let mut x = register;
    for _i in 0..k {
        x = chip_noise::shifted(mode, x);
    }
    x
}

// The register 8 q outputs on, block by block.
#[tactic(auto, using(arith::proofs::IterateLaws::iterate_zero, chip_noise::proofs::ShifterLaws::shifts_most, crate::proofs::RoundLaws::block_more))]
fn block_by_block(mode: bool, register: u16, q: u64) -> u16
    requires { register ≤ 32767 }
    ensures { result ≡ iterate (shifted_of mode) (8 * q) register }
{
    let mut x = register;
    for _i in 0..q {
        x = jump(mode, x, 8);
    }
    x
}

// The register 8 q outputs on. Each mode has a loop of its own, in which its tap is a constant.
fn blocks(mode: bool, register: u16, q: u64) -> u16
    requires { register ≤ 32767 }
    ensures { result ≡ iterate (shifted_of mode) (8 * q) register }
{
    if mode {
        return block_by_block(true, register, q);
    }
    block_by_block(false, register, q)
}

// The register k outputs on, by eights.
fn shifted_few(mode: bool, register: u16, k: u64) -> u16
    ensures { result ≡ iterate (shifted_of mode) k register }
{
    if 32767 < register {
        return singles(mode, register, k);
    }
    let x = jump(mode, register, (k % 8) as u16);
    blocks(mode, x, k / 8)
}

// The register 256 outputs on while mode is clear: XOR of the register 1 output on and 4 outputs on.
#[tactic(auto, using(crate::proofs::RoundLaws::leap_of))]
fn leap(register: u16) -> u16
    requires { register ≤ 32767 }
    ensures { result ≡ iterate (shifted_of false) 256 register }
{
    let one = jump(false, register, 1);
    let four = jump(false, register, 4);
    one ^ four
}

// The register 256 q outputs on while mode is clear.
#[tactic(auto, using(arith::proofs::IterateLaws::iterate_zero, chip_noise::proofs::ShifterLaws::shifts_most, crate::proofs::RoundLaws::block_more))]
fn leaps(register: u16, q: u64) -> u16
    requires { register ≤ 32767 }
    ensures { result ≡ iterate (shifted_of false) (256 * q) register }
{
    let mut x = register;
    for _i in 0..q {
        x = leap(x);
    }
    x
}

// The register k outputs on. While mode is set, 93 outputs give the register back; while it is clear, 256 are gone at once.
pub fn shifted_by(mode: bool, register: u16, k: u64) -> u16
    ensures { result ≡ iterate (shifted_of mode) k register }
{
    if 32767 < register {
        return singles(mode, register, k);
    }
    if mode {
        return shifted_few(true, register, k % 93);
    }
    let x = shifted_few(false, register, k % 256);
    leaps(x, k / 256)
}

// How many of the 14 bits above bit 0 are as it is, up to the first that differs. Adding a set bit 0 turns the ones above it into zeros.
fn alike_of(register: u16) -> u16
    ensures { result ≡ alike 14 register }
{
    let zeros = (register / 2 + register % 2).trailing_zeros();
    zeros.min(14) as u16
}

// What the noise gives, from what it gives while bit 0 is clear (`Noise::amount`).
#[tactic(auto, unfolding(crate::specs::Leap::shifter_gives))]
pub fn gives(shifter: Shifter, amount: u8) -> u8
    ensures { result ≡ shifter_gives amount shifter }
{
    if shifter.register % 2 == 1 { 0 } else { amount }
}

// For how many clocks it surely gives the same.
#[tactic(auto, unfolding(crate::specs::Leap::noise_still))]
pub fn still_for(shifter: Shifter, amount: u8, period: u16) -> u32
    ensures { result ≡ noise_still amount period shifter }
{
    let turns = alike_of(shifter.register);
    if amount == 0 {
        100000
    } else {
        u32::from(shifter.timer.saturating_sub(1)) + u32::from(turns) * u32::from(period)
    }
}

// Its timer and register g clocks on.
#[tactic(auto, unfolding(crate::specs::Leap::shifter_advanced), using(divider::proofs::DividerLaws::count_after_top))]
pub fn advance(shifter: Shifter, period: u16, mode: bool, g: u32) -> Shifter
    ensures { result ≡ shifter_advanced period mode g shifter }
{
    let k = divider::outputs_in(u32::from(period), u32::from(shifter.timer), g);
    let timer = divider::count_in(u64::from(period), u64::from(shifter.timer), u64::from(g));
    let register = shifted_by(mode, shifter.register, k);
    Shifter {
        timer: timer as u16,
        register,
    }
}

// Its timer and register at its next change.
#[tactic(auto, unfolding(crate::specs::Leap::shifter_turned))]
pub fn turn(shifter: Shifter, period: u16, mode: bool) -> Shifter
    ensures { result ≡ shifter_turned period mode shifter }
{
    let turns = alike_of(shifter.register);
    let register = shifted_few(mode, shifter.register, u64::from(turns) + 1);
    Shifter {
        timer: period,
        register,
    }
}
