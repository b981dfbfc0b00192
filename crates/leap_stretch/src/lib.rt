// A stretch of clocks between two frame steps, each channel brought up only when what it gives may change.
//
// In a stretch a channel is kept as its lag: the clock of its next event, at which what it gives may change, and what it gives up to then. A square and the
// triangle need no more, since what comes behind an event follows from the event's clock; noise and DMC keep their state at their last event too. `Lags` are all
// five, with the clock of the next event of any and the level.
//
// `lags_of` makes them from a state. At an event `renew` brings up whoever is due and mixes the level; `renew_sounds` is the same where the DMC isn't due. Squares
// and triangle have most of the events: `Voices` are those two by themselves, and `Others` what noise and DMC add to the level meanwhile, so that the innermost
// loop of a run keeps little. `lags_with` puts them back. `state_at` is the whole state at any clock before the next event: squares and triangle g clocks on from
// the stretch's first state by quotients and remainders, noise and DMC from their last event.
//
// Tables stand as matches, which the compiler makes a load of: the triangle's part in the level, and, while the DMC gives 0, the whole of it (`leap_calm`).
#![tactic(auto)]

ghost use Rattle.std.specs.Prelude.{◌≡◌, slice_index};
ghost use Rattle.leap_law.specs.Between.{state_with};
ghost use Rattle.arith.specs.Pick.{pick};
ghost use Rattle.chip_mixer.specs.Parts.{triangle_weight, others_weight};
ghost use Rattle.chip_triangle.specs.Triangle.{triangle_at};
ghost use Rattle.leap_calm.specs.Level.{summed_by};
ghost use Rattle.leap_stretch.specs.Lagged.{sum_of, lags_at, lags_of, renewed, sounds_renewed, stretch_state};
ghost use Rattle.leap_stretch.specs.Voices.{weight_table, squares_at, squares_turned, squares_after, voices_of, voices_after, others_of, level_by, lags_with};

use chip::State;
use leap_dmc::lag::DmcLag;
use leap_noise::lag::NoiseLag;
use leap_square::lag::SquareLag;
use leap_triangle::lag::TriangleLag;

// The channels as a stretch keeps them at clock `now` of it; `soon` is the clock of the next event of squares and triangle, `next` that of the
// next event of all, `level` the level up to then. (The four lags share no trait: each is made and renewed from arguments of its own.)
#[derive(Clone, Copy)]
pub struct Lags {
    pub square1: SquareLag,
    pub square2: SquareLag,
    pub triangle: TriangleLag,
    pub noise: NoiseLag,
    pub dmc: DmcLag,
    pub now: u32,
    pub soon: u64,
    pub next: u64,
    pub level: u16,
}

// The sum of what the squares give, from the numbers kept of them: one shift, since the clocks in them are too few for a carry.
#[tactic(auto, unfolding(crate::specs::Lagged::sum_of))]
fn sum_of(a: u64, b: u64) -> u64
    ensures { result ≡ sum_of a b }
{
    a.wrapping_add(b) / 4294967296
}

#[tactic(auto, unfolding(crate::specs::Lagged::lags_at))]
fn lags_at(a: SquareLag, b: SquareLag, t: TriangleLag, n: NoiseLag, d: DmcLag, at: u32) -> Lags
    ensures { result ≡ lags_at a b t n d at }
{
    let soon = a.next.min(b.next).min(t.next);
    let next = soon.min(n.next.min(d.next));
    let sum = sum_of(a.kept, b.kept);
    let level = leap_calm::mix_all(sum, t.gives(), u32::from(n.out), u32::from(d.out));
    Lags {
        square1: a,
        square2: b,
        triangle: t,
        noise: n,
        dmc: d,
        now: at,
        soon,
        next,
        level,
    }
}

// The start of a stretch.
#[tactic(auto, unfolding(crate::specs::Lagged::lags_of))]
pub fn lags_of(s: State) -> Lags
    ensures { result ≡ lags_of s }
{
    let row1 = leap_square::row_of(s.square1.duty);
    let amount1 = s.square1.amount(false);
    let beat1 = leap_square::beat_of(s.square1.sequencer);
    let a = SquareLag::new(row1, u32::from(amount1), beat1);
    let row2 = leap_square::row_of(s.square2.duty);
    let amount2 = s.square2.amount(true);
    let beat2 = leap_square::beat_of(s.square2.sequencer);
    let b = SquareLag::new(row2, u32::from(amount2), beat2);
    let on = leap_triangle::gate(s.triangle);
    let beat3 = leap_triangle::beat_of(s.triangle.sequencer);
    let t = TriangleLag::new(on, beat3);
    let noise_n = chip_tables::noise_period(s.pal, s.noise.index);
    let amount = s.noise.amount();
    let n = NoiseLag::new(noise_n, s.noise.mode, amount, s.noise.shifter, 0);
    let dmc_n = chip_tables::dmc_period(s.pal, s.dmc.registers.index);
    let d = DmcLag::new(dmc_n, s.dmc, 0);
    lags_at(a, b, t, n, d, 0)
}

// The event at clock e: whoever is due is brought up to it. Squares and triangle are looked at only where one of them is.
#[tactic(auto, unfolding(crate::specs::Lagged::renewed, crate::specs::Lagged::renewed_with))]
pub fn renew(l: Lags, memory: &[u8], e: u32) -> Lags
    ensures { result ≡ renewed memory.now l e }
{
    let n = l.noise.renewed(e);
    let d = l.dmc.renewed(memory, e);
    if l.soon == u64::from(e) {
        let a = l.square1.renewed(e);
        let b = l.square2.renewed(e);
        let t = l.triangle.renewed(e);
        return lags_at(a, b, t, n, d, e);
    }
    lags_at(l.square1, l.square2, l.triangle, n, d, e)
}

// The same with the DMC left as it is, for an event at which it isn't due. Written out: a body that two loops share isn't inlined into either.
#[tactic(auto, unfolding(crate::specs::Lagged::sounds_renewed, crate::specs::Lagged::renewed_with))]
pub fn renew_sounds(l: Lags, e: u32) -> Lags
    ensures { result ≡ sounds_renewed l e }
{
    let n = l.noise.renewed(e);
    if l.soon == u64::from(e) {
        let a = l.square1.renewed(e);
        let b = l.square2.renewed(e);
        let t = l.triangle.renewed(e);
        return lags_at(a, b, t, n, l.dmc, e);
    }
    lags_at(l.square1, l.square2, l.triangle, n, l.dmc, e)
}

// The two squares and the clock of their next event.
#[derive(Clone, Copy)]
pub struct Squares {
    pub first: SquareLag,
    pub second: SquareLag,
    pub next: u64,
}

// Squares and triangle by themselves at clock `now`, for the events at which neither noise nor DMC is due; `next` is the clock of their next one.
#[derive(Clone, Copy)]
pub struct Voices {
    pub squares: Squares,
    pub triangle: TriangleLag,
    pub now: u32,
    pub next: u64,
}

#[tactic(auto, unfolding(crate::specs::Voices::squares_at))]
fn squares_at(a: SquareLag, b: SquareLag) -> Squares
    ensures { result ≡ squares_at a b }
{
    Squares {
        first: a,
        second: b,
        next: a.next.min(b.next),
    }
}

// Squares and triangle out of the channels.
#[tactic(auto, unfolding(crate::specs::Voices::voices_of))]
pub fn voices_of(l: Lags) -> Voices
    ensures { result ≡ voices_of l }
{
    Voices {
        squares: squares_at(l.square1, l.square2),
        triangle: l.triangle,
        now: l.now,
        next: l.soon,
    }
}

// Noise and DMC in the level: their part in N, what the noise gives, and whether the DMC gives 0.
#[derive(Clone, Copy)]
pub struct Others {
    pub weight: u64,
    pub noise: u32,
    pub calm: bool,
}

// Noise and DMC in the level.
#[tactic(auto, unfolding(crate::specs::Voices::others_of))]
pub fn others_of(l: Lags) -> Others
    ensures { result ≡ others_of l }
{
    let noise = u32::from(l.noise.out);
    Others {
        weight: chip_mixer::others_weight(noise, u32::from(l.dmc.out)),
        noise,
        calm: l.dmc.out == 0,
    }
}

// The triangle's part in the level, for each position. A match becomes one load.
fn weight_entry(p: u32) -> u32
    ensures { result ≡ slice_index weight_table p }
{
    match p {
        0 => 4156676370,
        1 => 3879564612,
        2 => 3602452854,
        3 => 3325341096,
        4 => 3048229338,
        5 => 2771117580,
        6 => 2494005822,
        7 => 2216894064,
        8 => 1939782306,
        9 => 1662670548,
        10 => 1385558790,
        11 => 1108447032,
        12 => 831335274,
        13 => 554223516,
        14 => 277111758,
        15 => 0,
        16 => 0,
        17 => 277111758,
        18 => 554223516,
        19 => 831335274,
        20 => 1108447032,
        21 => 1385558790,
        22 => 1662670548,
        23 => 1939782306,
        24 => 2216894064,
        25 => 2494005822,
        26 => 2771117580,
        27 => 3048229338,
        28 => 3325341096,
        29 => 3602452854,
        30 => 3879564612,
        31 => 4156676370,
        _ => 0,
    }
}

#[tactic(auto, using(crate::proofs::VoicesLaws::weight_is))]
fn weight_at(position: u32) -> u32
    ensures { result ≡ triangle_weight (triangle_at position) }
{
    weight_entry(position % 32)
}

// The level, by the table where the DMC gives 0.
fn level_of(sum: u64, position: u32, others: Others) -> u16
    ensures { result ≡ summed_by sum (triangle_weight (triangle_at position)) (pick others.calm (others_weight others.noise 0) others.weight) }
{
    if others.calm {
        return leap_calm::mix(sum, position, others.noise);
    }
    let t = weight_at(position);
    leap_calm::mix_by(sum, t, others.weight)
}

impl Squares {
    #[tactic(auto, unfolding(crate::specs::Voices::squares_turned))]
    fn turned(self, e: u32) -> Squares
        ensures { result ≡ squares_turned self e }
    {
        let a = self.first.renewed(e);
        let b = self.second.renewed(e);
        squares_at(a, b)
    }

    // Looked at where `each`, else only where one of them is due.
    #[tactic(auto, unfolding(crate::specs::Voices::squares_after))]
    fn renewed(self, each: bool, e: u32) -> Squares
        ensures { result ≡ squares_after self each e }
    {
        if each || self.next == u64::from(e) {
            return self.turned(e);
        }
        self
    }
}

impl Voices {
    // The event at clock e. To look at squares that aren't due is cheaper than a wrong guess, but dear where the triangle changes at nearly each clock.
    #[tactic(auto, unfolding(crate::specs::Voices::voices_after, crate::specs::Voices::voices_to))]
    pub fn renewed(self, each: bool, e: u32) -> Voices
        ensures { result ≡ voices_after self each e }
    {
        let squares = self.squares.renewed(each, e);
        let triangle = self.triangle.renewed(e);
        Voices {
            squares,
            triangle,
            now: e,
            next: squares.next.min(triangle.next),
        }
    }

    // The level, with noise and DMC.
    #[tactic(auto, unfolding(crate::specs::Voices::level_by, crate::specs::Voices::voices_level))]
    pub fn level(self, others: Others) -> u16
        ensures { result ≡ level_by self others }
    {
        let sum = sum_of(self.squares.first.kept, self.squares.second.kept);
        level_of(sum, self.triangle.position, others)
    }
}

// The channels with squares and triangle as they are after events of theirs alone.
#[tactic(auto, unfolding(crate::specs::Voices::lags_with))]
pub fn lags_with(l: Lags, v: Voices, level: u16) -> Lags
    ensures { result ≡ lags_with l v level }
{
    Lags {
        square1: v.squares.first,
        square2: v.squares.second,
        triangle: v.triangle,
        now: v.now,
        soon: v.next,
        next: v.next.min(l.noise.next.min(l.dmc.next)),
        level,
        ..l
    }
}

#[tactic(auto, unfolding(leap_law::specs::Between::state_with))]
fn state_with(
    q1: chip_square::Sequencer,
    q2: chip_square::Sequencer,
    tq: chip_triangle::Sequencer,
    h: chip_noise::Shifter,
    d: chip_dmc::Dmc,
    f: chip_frame::Frame,
    s: State,
) -> State
    ensures { result ≡ state_with q1 q2 tq h d f s }
{
    let mut state = s;
    state.square1.sequencer = q1;
    state.square2.sequencer = q2;
    state.triangle.sequencer = tq;
    state.noise.shifter = h;
    state.dmc = d;
    state.frame = f;
    state
}

// The whole state at clock k of a stretch that began in s.
#[tactic(auto, unfolding(crate::specs::Lagged::stretch_state))]
pub fn state_at(s: State, l: Lags, k: u32) -> State
    ensures { result ≡ stretch_state s l k }
{
    let first1 = leap_square::beat_of(s.square1.sequencer);
    let beat1 = first1.advance(k);
    let first2 = leap_square::beat_of(s.square2.sequencer);
    let beat2 = first2.advance(k);
    let on = leap_triangle::gate(s.triangle);
    let first3 = leap_triangle::beat_of(s.triangle.sequencer);
    let beat3 = first3.advance(on, k);
    let q1 = leap_square::with_beat(s.square1.sequencer, beat1);
    let q2 = leap_square::with_beat(s.square2.sequencer, beat2);
    let tq = leap_triangle::with_beat(s.triangle.sequencer, beat3);
    let h = l.noise.shifter_at(k);
    let d = l.dmc.dmc_at(k);
    let f = leap_law::passed_frame(s, k);
    state_with(q1, q2, tq, h, d, f, s)
}
