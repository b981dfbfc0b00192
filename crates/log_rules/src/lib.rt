// A log judged line by line, and as blocks of lines: definitions and laws, no code.
#![tactic(auto)]

// Clocks, turns and items, each cut off just above what a log may have.
#[derive(Clone, Copy)]
pub struct Totals {
    pub clocks: u64,
    pub turns: u64,
    pub items: u64,
}

impl Totals {
    // Those of no line.
    pub const NONE: Totals = Totals {
        clocks: 0,
        turns: 0,
        items: 0,
    };
}

// What one line comes to, with the block that it opens: acts, and the place behind them; a `done`, its place and the place behind it; a
// `stop`, with its number too.
#[derive(Clone, Copy)]
pub enum Part {
    Acts(usize, Totals),
    Close(usize, usize),
    Halt(usize, usize, u32),
}

// What a line says before the block that it opens is read: a loop says how often, and where its body begins.
#[derive(Clone, Copy)]
pub enum Step {
    Plain(Part),
    Open(u8, usize),
}

// What the lines up to a `done` or a `stop` come to: the place of that line, the place behind it, the number of a `stop`, and the totals.
#[derive(Clone, Copy)]
pub enum Block {
    Closed(usize, usize, Totals),
    Stopped(usize, usize, u32, Totals),
}

// The answer of the check: 0, whether the log's machine is PAL, and its totals; or a refusal's number and place. Flat, as `check_of` states it.
#[derive(Clone, Copy)]
pub struct Checked {
    pub number: u8,
    pub place: usize,
    pub pal: bool,
    pub clocks: u64,
    pub turns: u64,
    pub items: u64,
}
