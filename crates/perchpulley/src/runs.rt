// The runs that C and Rust call.
ghost use Rattle.std.specs.Prelude.{◌≡◌};
ghost use Rattle.c_state.specs.Bytes.{state_in};
ghost use Rattle.c_run.specs.Runs.{ran_packed, table_answer, table_lent, run_bytes};

// Works `count` clocks, leaping where nothing changes, writes a record of two words for each clock whose level differs from that before it, and adds
// one to the count at the DMC level after each clock done. Refused: 1, 2, 3, 13.
#[unsafe(no_mangle)]
pub extern "C" fn perch_run(
    state: &mut [u8],
    memory: &[u8],
    count: u64,
    words: &mut [u32],
    counts: &mut [u32],
) -> u64
    ensures value { result ≡ ran_packed (table_answer memory.now (state_in state.old) counts.old count words.old).ran }
    ensures state_after { state.new ≡ run_bytes (table_answer memory.now (state_in state.old) counts.old count words.old).ran state.old }
    ensures words_after { words.new ≡ table_lent memory.now (state_in state.old) counts.old count words.old }
    ensures counts_after { counts.new ≡ (table_answer memory.now (state_in state.old) counts.old count words.old).counts }
{
    c_run::run(state, memory, count, words, counts)
}

// The same, clock by clock.
#[unsafe(no_mangle)]
pub extern "C" fn perch_run_plain(
    state: &mut [u8],
    memory: &[u8],
    count: u64,
    words: &mut [u32],
    counts: &mut [u32],
) -> u64
    ensures value { result ≡ ran_packed (table_answer memory.now (state_in state.old) counts.old count words.old).ran }
    ensures state_after { state.new ≡ run_bytes (table_answer memory.now (state_in state.old) counts.old count words.old).ran state.old }
    ensures words_after { words.new ≡ table_lent memory.now (state_in state.old) counts.old count words.old }
    ensures counts_after { counts.new ≡ (table_answer memory.now (state_in state.old) counts.old count words.old).counts }
{
    c_run::run_plain(state, memory, count, words, counts)
}
