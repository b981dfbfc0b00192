// The meter for C and Rust: what a stretch of levels is, and a level as its exact fraction.
ghost use Rattle.std.specs.Prelude.{◌≡◌};
ghost use Rattle.chip_mixer.specs.Fraction.{fraction_of};
ghost use Rattle.meter.specs.Measure.{measure_of};
ghost use Rattle.c_meter.specs.Packed.{meter_packed, records_packed};

// What a list of levels is. Refused: 29.
#[unsafe(no_mangle)]
pub extern "C" fn perch_meter(levels: &[u32]) -> u64
    ensures { result ≡ meter_packed (measure_of levels.now) }
{
    c_meter::meter(levels)
}

// What the levels of `count` records from record `start` on are, of those that are there, with the level before them; a number of more
// than 32 bits stands for none. Refused: 29.
#[unsafe(no_mangle)]
pub extern "C" fn perch_meter_records(words: &[u32], start: u64, count: u64, before: u64) -> u64
    ensures { result ≡ records_packed words.now start count before }
{
    c_meter::meter_records(words, start, count, before)
}

// A level as the exact fraction of 32,768, also one above 32,767.
#[unsafe(no_mangle)]
pub extern "C" fn perch_level_fraction(level: u16) -> f32
    ensures { result ≡ fraction_of level }
{
    c_meter::level_fraction(level)
}
