// What a probe sees of the chip: the level, what each channel gives the mixer, the interrupt line and its two flags.
#![tactic(auto)]

ghost use Rattle.std.specs.Prelude.{◌≡◌};
ghost use Rattle.chip_seen.specs.Seen.{seen_of, same_seen};

use chip::State;

// The line and the flags are 0 or 1.
#[derive(Clone, Copy, PartialEq, Eq)]
pub struct Seen {
    pub level: u16,
    pub square1: u8,
    pub square2: u8,
    pub triangle: u8,
    pub noise: u8,
    pub dmc: u8,
    pub line: u8,
    pub frame_flag: u8,
    pub dmc_flag: u8,
}

// What is seen of a state.
#[tactic(auto, unfolding(crate::specs::Seen::seen_of, chip::specs::Level::state_level))]
pub fn seen_of(s: State) -> Seen
    ensures { result ≡ seen_of s }
{
    let a = s.square1.output(false);
    let b = s.square2.output(true);
    let t = s.triangle.output();
    let n = s.noise.output();
    let d = s.dmc.output_of();
    Seen {
        level: chip_mixer::mix(a.into(), b.into(), t.into(), n.into(), d.into()),
        square1: a,
        square2: b,
        triangle: t,
        noise: n,
        dmc: d,
        line: s.asserts().into(),
        frame_flag: s.frame.interrupt.into(),
        dmc_flag: s.dmc.reader.interrupt.into(),
    }
}

// Whether nothing that is seen differs.
#[tactic(auto, unfolding(crate::specs::Seen::same_seen))]
pub fn same_seen(a: Seen, b: Seen) -> bool
    ensures { result ≡ same_seen a b }
{
    a == b
}
