// What the player's programs share: a log played to standard output.
#![tactic(auto)]

ghost use Rattle.std.specs.Prelude.{◌≡◌, ◌≤◌, length};
ghost use Rattle.recording.specs.Whole.{machine_of};
ghost use Rattle.play_text.specs.Entries.{refusal_text};
ghost use Rattle.play_rules.specs.Turns.{fresh_player};
ghost use Rattle.play_begin.specs.Whole.{play_number, play_text};
ghost use Rattle.program_io.specs.Writes.{Writes};

use play_rules::Player;

// A player's text, piece by piece, until it is over or a write fails; whether all of it was written. No piece of a log that passes is refused.
// Each piece holds a line at least; the loop is counted, so that it ends.
fn pour(rt: &HostRuntime, p: Player, log: &[u8], memory: &[u8], out: &mut [u8]) -> bool
    requires memory_value { play_number log.now memory.now ≡ 0 }
    requires p_value { p ≡ fresh_player (machine_of log.now) }
    requires in_bounds { 23 ≤ length out.old }
    ensures { Writes (play_text log.now memory.now) result }
{
    let mut q = p;
    for _ in 0..1000000000000u64 {
        let r = play::play_on(q, log, memory, out);
        if !program_io::write_front(&mut rt.stdout(), out, r.length) {
            return false;
        }
        if r.over || r.number != 0 {
            return r.number == 0;
        }
        q = r.player;
    }
    false
}

fn all(rt: &HostRuntime, p: Player, log: &[u8], memory: &[u8]) -> bool
    requires memory_value { play_number log.now memory.now ≡ 0 }
    requires p_value { p ≡ fresh_player (machine_of log.now) }
    ensures { Writes (play_text log.now memory.now) result }
{
    let mut out = [0u8; 16384];
    pour(rt, p, log, memory, &mut out)
}

fn refused(rt: &HostRuntime, number: u8, place: usize) -> bool
    ensures { Writes (refusal_text number place) result }
{
    let mut out = [0u8; 64];
    let n = play_text::refusal(number, place, &mut out);
    program_io::write_front(&mut rt.stdout(), &out, n)
}

// Writes document 01's lines for a log, or those of its refusal; whether all of them were written. How much of that text each write takes is the
// system's affair, and what bytes it sends no contract can say.
pub fn play(rt: &HostRuntime, log: &[u8], memory: &[u8]) -> bool
    ensures { Writes (play_text log.now memory.now) result }
{
    let b = play_begin::begin(log, memory);
    if b.number == 0 {
        let p = b.player;
        return all(rt, p, log, memory);
    }
    refused(rt, b.number, b.place)
}
