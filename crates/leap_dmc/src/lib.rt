// The DMC's part in the leap: for how many clocks it surely only counts, the DMC g such clocks on, and at its next change.
#![tactic(auto)]

ghost use Rattle.std.specs.Prelude.{◌≡◌, ◌+◌, ◌-◌, ◌*◌, ◌/◌, ◌^◌};
ghost use Rattle.arith.specs.Pick.{pick};
ghost use Rattle.leap_still.specs.Forever.{forever};
ghost use Rattle.leap_dmc.specs.Leap.{output_still, dmc_still, with_tape, output_advanced, dmc_advanced, output_brink, dmc_brink, dmc_turned};

use chip_dmc::Dmc;
use chip_dmc_output::Output;

pub mod lag;

// A byte shifted right by any number of places; past its last bit 0 is left.
fn shifted(byte: u8, places: u64) -> u8
    ensures { result ≡ byte / 2 ^ places }
{
    if places < 8 { byte >> places } else { 0 }
}

// The output unit with another timer count, shift byte and bits.
fn with_tape(output: Output, timer: u16, byte: u8, bits: u8) -> Output
    ensures { result ≡ with_tape output timer byte bits }
{
    let mut o = output;
    o.timer = timer;
    o.shift = byte;
    o.bits = bits;
    o
}

// The output unit g clocks on, while nothing is taken from the buffer.
#[tactic(auto, unfolding(crate::specs::Leap::output_advanced), using(divider::proofs::DividerLaws::count_after_top))]
fn output_advance(output: Output, period: u16, g: u32) -> Output
    ensures { result ≡ output_advanced period g output }
{
    let k = divider::outputs_in(u32::from(period), u32::from(output.timer), g);
    let timer = divider::count_in(u64::from(period), u64::from(output.timer), u64::from(g));
    let byte = shifted(output.shift, k);
    let bits = divider::count_in(8, u64::from(output.bits), k);
    with_tape(output, timer as u16, byte, bits as u8)
}

// For how many clocks a silent output unit surely only counts.
fn silent_for(output: Output, period: u16, full: bool) -> u32
    ensures { result ≡ pick full (output.timer - 1 + (output.bits - 1) * period) forever }
{
    if full {
        let timer = output.timer.saturating_sub(1);
        let bits = output.bits.saturating_sub(1);
        u32::from(timer) + u32::from(bits) * u32::from(period)
    } else {
        100000
    }
}

// For how many clocks the output unit surely only counts.
#[tactic(auto, unfolding(crate::specs::Leap::output_still))]
fn output_still_for(output: Output, period: u16, full: bool) -> u32
    ensures { result ≡ output_still period full output }
{
    if output.silence {
        return silent_for(output, period, full);
    }
    u32::from(output.timer.saturating_sub(1))
}

// The output unit at the clock before its next change.
#[tactic(auto, unfolding(crate::specs::Leap::output_brink))]
fn output_at_brink(output: Output) -> Output
    ensures { result ≡ output_brink output }
{
    if output.silence {
        let k = output.bits.saturating_sub(1);
        let byte = shifted(output.shift, u64::from(k));
        return with_tape(output, 1, byte, 1);
    }
    output.at(1)
}

// For how many clocks the DMC surely only counts.
#[tactic(auto, unfolding(crate::specs::Leap::dmc_still))]
pub fn still_for(dmc: Dmc, period: u16) -> u32
    ensures { result ≡ dmc_still period dmc }
{
    if dmc.reader.waits() {
        return 0;
    }
    output_still_for(dmc.output, period, dmc.reader.full)
}

// The DMC g clocks on; what clocks make of it for g up to still_for.
#[tactic(auto, unfolding(crate::specs::Leap::dmc_advanced))]
pub fn advance(dmc: Dmc, period: u16, g: u32) -> Dmc
    ensures { result ≡ dmc_advanced period g dmc }
{
    let mut d = dmc;
    d.output = output_advance(dmc.output, period, g);
    d
}

// The DMC at the clock before its next change.
#[tactic(auto, unfolding(crate::specs::Leap::dmc_brink))]
pub fn at_brink(dmc: Dmc) -> Dmc
    ensures { result ≡ dmc_brink dmc }
{
    if dmc.reader.waits() {
        return dmc;
    }
    let mut d = dmc;
    d.output = output_at_brink(dmc.output);
    d
}

// The DMC at its next change.
#[tactic(auto, unfolding(crate::specs::Leap::dmc_turned))]
pub fn turn(dmc: Dmc, memory: &[u8], period: u16) -> Dmc
    ensures { result ≡ dmc_turned memory.now period dmc }
{
    let d = at_brink(dmc);
    d.clocked(memory, period)
}
