// What a damaged log comes out as when it is repaired, and that it passes. Definitions and laws, no code.
#![tactic(auto)]

use log_line::Line;

// What is done with a line of a damaged log: kept, with what it says; dropped, by a number; or dropped, by 7, as a ninth loop line or as the `done`
// that belongs to one.
#[derive(Clone, Copy)]
pub enum Fate {
    Keep(Line),
    Drop(u8),
    Ninth,
    NinthDone,
}
