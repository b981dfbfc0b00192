// The periods of the noise and the DMC, and the times of the frame's steps, by machine.
#![tactic(auto)]

ghost use Rattle.std.specs.Prelude.{◌≡◌};
ghost use Rattle.chip_tables.specs.Table.{noise_period, dmc_period, noise_top, dmc_top, frame_times};

use chip_frame::Times;

static NOISE_NTSC: [u16; 16] = [
    4, 8, 16, 32, 64, 96, 128, 160, 202, 254, 380, 508, 762, 1016, 2034, 4068,
];

static NOISE_PAL: [u16; 16] = [
    4, 8, 14, 30, 60, 88, 118, 148, 188, 236, 354, 472, 708, 944, 1890, 3778,
];

static DMC_NTSC: [u16; 16] = [
    428, 380, 340, 320, 286, 254, 226, 214, 190, 160, 142, 128, 106, 84, 72, 54,
];

static DMC_PAL: [u16; 16] = [
    398, 354, 316, 298, 276, 236, 210, 198, 176, 148, 132, 118, 98, 78, 66, 50,
];

// The noise timer's period at an index.
#[tactic(auto, unfolding(crate::specs::Table::noise_period))]
pub fn noise_period(pal: bool, index: u8) -> u16
    ensures { result ≡ noise_period pal index }
{
    let i = usize::from(index % 16);
    if pal { NOISE_PAL[i] } else { NOISE_NTSC[i] }
}

// The DMC timer's period at an index.
#[tactic(auto, unfolding(crate::specs::Table::dmc_period))]
pub fn dmc_period(pal: bool, index: u8) -> u16
    ensures { result ≡ dmc_period pal index }
{
    let i = usize::from(index % 16);
    if pal { DMC_PAL[i] } else { DMC_NTSC[i] }
}

// The largest periods.
pub fn noise_top(pal: bool) -> u16
    ensures { result ≡ noise_top pal }
{
    if pal { 3778 } else { 4068 }
}

// The DMC's largest period, by machine.
pub fn dmc_top(pal: bool) -> u16
    ensures { result ≡ dmc_top pal }
{
    if pal { 398 } else { 428 }
}

// The clock numbers at which the frame's steps come.
pub fn frame_times(pal: bool) -> Times
    ensures { result ≡ frame_times pal }
{
    if pal {
        Times {
            first: 8313,
            second: 16627,
            third: 24939,
            fourth: 33253,
            fifth: 41565,
        }
    } else {
        Times {
            first: 7457,
            second: 14913,
            third: 22371,
            fourth: 29829,
            fifth: 37281,
        }
    }
}
