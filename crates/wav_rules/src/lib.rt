// A log as a WAV file: definitions and laws, no code.
#![tactic(auto)]

use play_samples::Place;

// How far the writing of a file is: its rate, its samples in all, whether its head is written, and the place in the log.
#[derive(Clone, Copy)]
pub struct Wav {
    pub rate: u32,
    pub count: u32,
    pub begun: bool,
    pub place: Place,
}
