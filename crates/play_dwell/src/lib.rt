// The dwell table of a whole log: for each value of the DMC level the clocks that it stood there.
#![tactic(auto)]

ghost use Rattle.std.specs.Prelude.{◌≡◌, true, false, ◌+◌, ◌≤◌, length};
ghost use Rattle.reading.specs.Counting.{sum};
ghost use Rattle.chip.specs.Range.{in_range};
ghost use Rattle.recording.specs.Whole.{check_of};
ghost use Rattle.play_dwell.specs.Dwelling.{log_dwell};
ghost use Rattle.play_dwell.specs.Walking.{table_of, refused_answer, dwelt_of, clocks_on, met_clocks, met_on};

use chip::State;
use play_walk::Met;

// The answer: the log's clocks, and the 128 counts that they come to; refused, a number and its place, and nothing counted.
// Flat, with the number first, as document 01 has it: "a refusal returns its number and place, the state as given, 0 or no for the rest" (`refused_answer`).
#[derive(Clone, Copy)]
pub struct Answer {
    pub number: u8,
    pub place: usize,
    pub clocks: u64,
    pub counts: [u32; 128],
}

// A state of a log, the counts so far, and whether the log is over.
#[derive(Clone, Copy)]
pub struct Dwelt {
    pub over: bool,
    pub state: State,
    pub counts: [u32; 128],
}

fn dwelt_of(over: bool, s: State, counts: [u32; 128]) -> Dwelt
    ensures { result ≡ dwelt_of over s counts }
{
    Dwelt {
        over,
        state: s,
        counts,
    }
}

fn refused(number: u8, place: usize) -> Answer
    ensures { result ≡ refused_answer number place }
{
    Answer {
        number,
        place,
        clocks: 0,
        counts: [0u32; 128],
    }
}

// n clocks, run by run, with their counts: a run ends early where the words are full, and does a clock at least. All the clocks of a log are fewer than
// the limit of a count, so no count stops a run.
fn clocks_on(s: State, counts: [u32; 128], memory: &[u8], n: u64, words: &mut [u32]) -> Dwelt
    requires memory_len { (length memory.now ≡ 32768) × (in_range s ≡ true) }
    requires counts_len { (length counts ≡ 128) × (sum counts + n ≤ 2000000000) }
    requires in_bounds { 2 ≤ length words.old }
    ensures value { result ≡ clocks_on memory.now n s counts }
    ensures state_value { in_range result.state ≡ true }
{
    let mut state = s;
    let mut table = counts;
    let mut left = n;
    while 0 < left {
        let r = run::run(state, memory, table, left.min(1000000), words);
        let ran = r.ran;
        left -= u64::from(ran.done);
        state = ran.state;
        table = r.counts;
    }
    dwelt_of(false, state, table)
}

// What a step of the walk met; s is the state behind it.
#[tactic(auto, unfolding(crate::specs::Walking::met_on))]
fn met_on(x: Met, s: State, counts: [u32; 128], memory: &[u8], words: &mut [u32]) -> Dwelt
    requires memory_len { (length memory.now ≡ 32768) × (in_range s ≡ true) }
    requires counts_len { (length counts ≡ 128) × (sum counts + met_clocks x ≤ 2000000000) }
    requires in_bounds { 2 ≤ length words.old }
    ensures value { result ≡ met_on memory.now x s counts }
    ensures state_value { in_range result.state ≡ true }
{
    match x {
        Met::Moved | Met::Access(_, _, _) => dwelt_of(false, s, counts),
        Met::Wait(n) => clocks_on(s, counts, memory, u64::from(n), words),
        Met::End | Met::Refused(_, _) => dwelt_of(true, s, counts),
    }
}

// The counts of a log that passes, from its beginning to its end, on its machine, within as many steps as the cursor takes at most.
fn walk(log: &[u8], memory: &[u8], words: &mut [u32]) -> [u32; 128]
    requires log_value { ((check_of log.now).number ≡ 0) × (length memory.now ≡ 32768) }
    requires in_bounds { 2 ≤ length words.old }
    ensures { result ≡ table_of log.now memory.now }
{
    let mut m = play_walk::start(log);
    let mut table = [0u32; 128];
    for _ in 0..2000002u32 {
        let w = play_walk::step(log, m);
        let here = w.moment;
        let d = met_on(w.met, here.state, table, memory, words);
        table = d.counts;
        if d.over {
            return table;
        }
        m = play_walk::moment_of(here.cursor, d.state, here.time);
    }
    table
}

// The dwell table of a log, from power-on of its machine. Refused: 1 at 0, and then what the log's check refuses.
pub fn whole(log: &[u8], memory: &[u8]) -> Answer
    ensures { result ≡ log_dwell log.now memory.now }
{
    if memory.len() != 32768 {
        return refused(1, 0);
    }
    let k = recording::check(log);
    if k.number != 0 {
        return refused(k.number, k.place);
    }
    let mut words = [0u32; 2048];
    let counts = walk(log, memory, &mut words);
    Answer {
        number: 0,
        place: 0,
        clocks: k.clocks,
        counts,
    }
}
