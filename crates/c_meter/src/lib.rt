// The meter for C and Rust, each answer one 64-bit number: number + 2^8 x case + 2^16 x lowest + 2^32 x highest.
#![tactic(auto)]

ghost use Rattle.std.specs.Prelude.{◌≡◌};
ghost use Rattle.chip_mixer.specs.Fraction.{fraction_of};
ghost use Rattle.meter.specs.Measure.{measure_of};
ghost use Rattle.c_meter.specs.Packed.{meter_packed, records_packed};

use meter::Measured;

// An answer in one number.
fn pack(m: Measured) -> u64
    ensures { result ≡ meter_packed m }
{
    match m {
        Measured::Refused(number) => u64::from(number),
        Measured::NoLevels => 0,
        Measured::Silent => 256,
        Measured::Steady(level) => 512 + 65536 * u64::from(level) + 4294967296 * u64::from(level),
        Measured::Moving(low, high) => 768 + 65536 * u64::from(low) + 4294967296 * u64::from(high),
    }
}

// What a list of levels is. Refused: 29.
pub fn meter(levels: &[u32]) -> u64
    ensures { result ≡ meter_packed (measure_of levels.now) }
{
    pack(meter::measure(levels))
}

// What the levels of `count` records from record `start` on are, of those that are there, with the level before them; one of more than 32 bits counts nothing.
// Refused: 29.
pub fn meter_records(words: &[u32], start: u64, count: u64, before: u64) -> u64
    ensures { result ≡ records_packed words.now start count before }
{
    let before = u32::try_from(before).ok();
    pack(meter::records::measure(before, words, start as usize, count as usize))
}

// A level as the exact fraction of 32,768, also one above 32,767.
pub fn level_fraction(level: u16) -> f32
    ensures { result ≡ fraction_of level }
{
    chip_mixer::fraction(level)
}
