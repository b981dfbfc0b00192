// The two runs on a state that is bytes, with a dwell table that is lent words. Bytes that are no state in range are refused, and stay.
#![tactic(auto)]

ghost use Rattle.std.specs.Prelude.{◌≡◌, ◌≤◌};
ghost use Rattle.c_state.specs.Bytes.{state_in};
ghost use Rattle.c_run.specs.Runs.{ran_packed, no_table, table_answer, table_lent, run_bytes};

use chip::State;
use run_answer::Ran;

// A run's answer in one number.
fn pack_run(r: Ran) -> u64
    requires { r.done ≤ 1000000 }
    ensures { result ≡ ran_packed r }
{
    u64::from(r.number) + 256 * u64::from(r.done) + 4294967296 * u64::from(r.records)
}

// The number where the lent counts are no table.
fn no_table(s: State, memory: &[u8], count: u64) -> u8
    ensures { result ≡ no_table memory.now s count }
{
    let number = run_answer::number_of(s, memory, count);
    if number != 0 { number } else { 13 }
}

fn leaping_on(s: State, memory: &[u8], count: u64, words: &mut [u32], counts: &mut [u32]) -> Ran
    ensures value { result ≡ (table_answer memory.now s counts.old count words.old).ran }
    ensures words_after { words.new ≡ table_lent memory.now s counts.old count words.old }
    ensures counts_after { counts.new ≡ (table_answer memory.now s counts.old count words.old).counts }
{
    if counts.len() == 128 {
        let table = c_counts::decode(counts);
        let r = run::run(s, memory, table, count, words);
        c_counts::store(r.counts, counts);
        return r.ran;
    }
    let number = no_table(s, memory, count);
    run_answer::refuse(number, s)
}

// Works `count` clocks, leaping where nothing changes, writes a record of two words for each clock whose level differs from that before it, and adds
// one to the count at the DMC level after each clock done. Refused: 1, 2, 3, 13.
pub fn run(
    state: &mut [u8],
    memory: &[u8],
    count: u64,
    words: &mut [u32],
    counts: &mut [u32],
) -> u64
    ensures value { result ≡ ran_packed (table_answer memory.now (state_in state.old) counts.old count words.old).ran }
    ensures state_after { state.new ≡ run_bytes (table_answer memory.now (state_in state.old) counts.old count words.old).ran state.old }
    ensures words_after { words.new ≡ table_lent memory.now (state_in state.old) counts.old count words.old }
    ensures counts_after { counts.new ≡ (table_answer memory.now (state_in state.old) counts.old count words.old).counts }
{
    let s = c_state_read::state_in(state);
    let r = leaping_on(s, memory, count, words, counts);
    c_chip::store(r.number, r.state, state);
    pack_run(r)
}

fn plain_on(s: State, memory: &[u8], count: u64, words: &mut [u32], counts: &mut [u32]) -> Ran
    ensures value { result ≡ (table_answer memory.now s counts.old count words.old).ran }
    ensures words_after { words.new ≡ table_lent memory.now s counts.old count words.old }
    ensures counts_after { counts.new ≡ (table_answer memory.now s counts.old count words.old).counts }
{
    if counts.len() == 128 {
        let table = c_counts::decode(counts);
        let r = run_plain::run_plain(s, memory, table, count, words);
        c_counts::store(r.counts, counts);
        return r.ran;
    }
    let number = no_table(s, memory, count);
    run_answer::refuse(number, s)
}

// The same, clock by clock.
pub fn run_plain(
    state: &mut [u8],
    memory: &[u8],
    count: u64,
    words: &mut [u32],
    counts: &mut [u32],
) -> u64
    ensures value { result ≡ ran_packed (table_answer memory.now (state_in state.old) counts.old count words.old).ran }
    ensures state_after { state.new ≡ run_bytes (table_answer memory.now (state_in state.old) counts.old count words.old).ran state.old }
    ensures words_after { words.new ≡ table_lent memory.now (state_in state.old) counts.old count words.old }
    ensures counts_after { counts.new ≡ (table_answer memory.now (state_in state.old) counts.old count words.old).counts }
{
    let s = c_state_read::state_in(state);
    let r = plain_on(s, memory, count, words, counts);
    c_chip::store(r.number, r.state, state);
    pack_run(r)
}
