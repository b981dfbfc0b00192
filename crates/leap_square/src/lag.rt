// A square as a stretch between two frame steps keeps it.
ghost use Rattle.std.specs.Prelude.{◌≡◌, ◌+◌, ◌-◌, ◌*◌, ◌%◌, ◌≤◌, ◌==◌, slice_index};
ghost use Rattle.arith.specs.Pick.{pick};
ghost use Rattle.leap_still.specs.Forever.{forever};
ghost use Rattle.leap_square.specs.Packed.{runs_table, runs_at};
ghost use Rattle.leap_square.specs.Lag.{run_word, run_then, square_lag, square_renewed};

use super::Beat;

// A square in a stretch: `next` is the clock of its next possible change. `kept` is what it gives up to then, times 2^32, plus the clocks for which it
// gives the other behind it; `both` is the sum of that number and the one that takes its place at the change. A change is an addition and a
// subtraction, so that it costs no look-up and no branch.
#[derive(Clone, Copy)]
pub struct SquareLag {
    pub next: u64,
    pub kept: u64,
    pub both: u64,
}

// A duty's row at each of its steps as one number: the outputs that leave its duty bit, 16 times those that leave the other bit behind it, and 256
// times the bit. A match becomes one load.
fn runs_entry(place: u32) -> u32
    ensures { result ≡ slice_index runs_table place }
{
    match place {
        0 => 17,
        1 => 16,
        2 => 465,
        3 => 464,
        4 => 29,
        5 => 28,
        6 => 27,
        7 => 26,
        8 => 25,
        9 => 24,
        10 => 23,
        11 => 22,
        12 => 21,
        13 => 20,
        14 => 19,
        15 => 18,
        16 => 49,
        17 => 48,
        18 => 435,
        19 => 434,
        20 => 433,
        21 => 432,
        22 => 59,
        23 => 58,
        24 => 57,
        25 => 56,
        26 => 55,
        27 => 54,
        28 => 53,
        29 => 52,
        30 => 51,
        31 => 50,
        32 => 113,
        33 => 112,
        34 => 375,
        35 => 374,
        36 => 373,
        37 => 372,
        38 => 371,
        39 => 370,
        40 => 369,
        41 => 368,
        42 => 119,
        43 => 118,
        44 => 117,
        45 => 116,
        46 => 115,
        47 => 114,
        48 => 305,
        49 => 304,
        50 => 179,
        51 => 178,
        52 => 177,
        53 => 176,
        54 => 315,
        55 => 314,
        56 => 313,
        57 => 312,
        58 => 311,
        59 => 310,
        60 => 309,
        61 => 308,
        62 => 307,
        63 => 306,
        _ => 0,
    }
}

#[tactic(auto, unfolding(crate::specs::Packed::runs_at))]
fn runs_at(row: u32, steps: u32) -> u32
    ensures { result ≡ runs_at row steps }
{
    runs_entry(row / 16 % 4 * 16 + steps % 16)
}

// For how many clocks it surely gives the same, from the outputs that leave the duty bit.
fn still_for(amount: u32, n: u32, count: u32, turns: u32) -> u64
    ensures { result ≡ pick (amount == 0) forever (count - 1 + turns * n) }
{
    if amount == 0 {
        100000
    } else {
        u64::from(count.saturating_sub(1)) + u64::from(turns) * u64::from(n)
    }
}

// What it gives, from its amount and the duty bit. A product, since a test would make jumps of the look-up before it.
#[tactic(auto, using(crate::proofs::PackedLaws::product))]
fn gives(amount: u32, bit: u32) -> u32
    requires { bit ≤ 1 }
    ensures { result ≡ pick (bit == 1) amount 0 }
{
    amount * bit
}

// What it gives and the clocks of its next run, as one number.
#[tactic(auto, unfolding(crate::specs::Lag::run_word))]
fn run_word(out: u32, span: u32) -> u64
    ensures { result ≡ run_word out span }
{
    u64::from(out) * 4294967296 + u64::from(span)
}

// The clocks of two runs, which are the sixteen outputs of a duty's row; with an amount of 0 each lasts for ever. (No timer has a period of 0.)
fn round_of(n: u32, amount: u32) -> u64
    ensures { result ≡ pick (amount == 0) 200002 (pick (n == 0) 2 (16 * n)) }
{
    if amount == 0 {
        200002
    } else if n == 0 {
        2
    } else {
        16 * u64::from(n)
    }
}

// The sum of the numbers of two runs, of which one has `span` clocks: one gives the amount and the other 0, and the other has the rest of the round.
fn both_runs(amount: u32, span: u32, round: u64) -> u64
    ensures { result ≡ (run_word amount span + (round + 4294967296 - span) % 4294967296) % 18446744073709551616 }
{
    let other = round.wrapping_sub(u64::from(span)) % 4294967296;
    run_word(amount, span).wrapping_add(other)
}

impl SquareLag {
    // Kept from the stretch's start on.
    #[tactic(auto, unfolding(crate::specs::Leap::beat_turned, crate::specs::Lag::square_lag, crate::specs::Lag::square_kept), using(crate::proofs::LagLaws::both_of, crate::proofs::LeapLaws::still_most, crate::proofs::PackedLaws::bit_fits, crate::proofs::PackedLaws::still_by, crate::proofs::PackedLaws::gives_by, crate::proofs::PackedLaws::behind_by, crate::proofs::PackedLaws::span_by))]
    pub fn new(row: u32, amount: u32, beat: Beat) -> SquareLag
        ensures { result ≡ square_lag row amount beat 0 }
    {
        let runs = runs_at(row, beat.steps);
        let still = still_for(amount, beat.n, beat.count, runs % 16);
        let out = gives(amount, runs / 256);
        let behind = still_for(amount, beat.n, beat.n, runs / 16 % 16);
        let span = ((behind + 1) % 4294967296) as u32;
        let kept = run_word(out, span);
        let round = round_of(beat.n, amount);
        let both = both_runs(amount, span, round);
        SquareLag {
            next: still + 1,
            kept,
            both,
        }
    }

    // What takes the place of `kept` at a change.
    #[tactic(auto, unfolding(crate::specs::Lag::run_then))]
    fn then(self) -> u64
        ensures { result ≡ run_then self.both self.kept }
    {
        self.both.wrapping_sub(self.kept)
    }

    // At clock e: brought up to it where that is its next change.
    #[tactic(auto, unfolding(crate::specs::Lag::square_renewed))]
    pub fn renewed(self, e: u32) -> SquareLag
        ensures { result ≡ square_renewed self e }
    {
        let e = u64::from(e);
        let due = self.next == e;
        let next = e + self.kept % 4294967296;
        let then = self.then();
        SquareLag {
            next: if due { next } else { self.next },
            kept: if due { then } else { self.kept },
            both: self.both,
        }
    }
}
