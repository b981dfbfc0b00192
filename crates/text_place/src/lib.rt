// A place of a log for a person to find: its line and column, and its line with a mark below it.
#![tactic(auto)]

mod place;
mod shown;

pub use place::{column, line_at, line_number};
pub use shown::{mark_line, shown_line};
