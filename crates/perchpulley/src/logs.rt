// What C and Rust ask of a log: whether it passes, its totals, its items, the bodies of its loops, and the state at a clock.
ghost use Rattle.std.specs.Prelude.{◌≡◌};
ghost use Rattle.c_at.specs.Packed.{at_answer, at_packed, at_bytes};
ghost use Rattle.c_log.specs.Logs.{check_packed, turns_packed, items_packed, item_packed, body_packed};

// Checks a log; the value is its clocks in all + 2^31 x the machine, 0 NTSC and 1 PAL. Refused: 4, 5, 7 to 10, 14 to 19.
#[unsafe(no_mangle)]
pub extern "C" fn perch_check(log: &[u8]) -> u64
    ensures { result ≡ check_packed log.now }
{
    c_log::check(log)
}

// The same; the value is its turns in all.
#[unsafe(no_mangle)]
pub extern "C" fn perch_turns(log: &[u8]) -> u64
    ensures { result ≡ turns_packed log.now }
{
    c_log::turns(log)
}

// The same; the value is its items in all.
#[unsafe(no_mangle)]
pub extern "C" fn perch_items(log: &[u8]) -> u64
    ensures { result ≡ items_packed log.now }
{
    c_log::items(log)
}

// Item k, counted from 0; the value is the act. Refused: as the log, then 11.
#[unsafe(no_mangle)]
pub extern "C" fn perch_item(log: &[u8], k: u64) -> u64
    ensures { result ≡ item_packed log.now k }
{
    c_log::item(log, k)
}

// The bytes between the loop line that begins at the offset and its `done`, as a part of the log. Refused: as the log, then 12.
#[unsafe(no_mangle)]
pub extern "C" fn perch_body(log: &[u8], offset: u64) -> u64
    ensures { result ≡ body_packed log.now offset }
{
    c_log::body(log, offset)
}

// Makes the bytes the state at a clock of a log, whatever they held, all accesses stamped up to that clock done; at the log's end where that comes
// before. The value is the clock reached. Refused, and the bytes stay: 1; 2, for another length; as the log.
#[unsafe(no_mangle)]
pub extern "C" fn perch_state_at(state: &mut [u8], log: &[u8], memory: &[u8], clock: u64) -> u64
    ensures value { result ≡ at_packed (at_answer log.now memory.now clock state.old) }
    ensures state_after { state.new ≡ at_bytes (at_answer log.now memory.now clock state.old) state.old }
{
    c_at::state_at(state, log, memory, clock)
}
