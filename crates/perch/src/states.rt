// `perch at CLOCK`: a log on standard input, and on standard output every field of the state at that clock.
ghost use Rattle.std.specs.Prelude.{◌≡◌, take};
ghost use Rattle.std.specs.Counts.{IsPrefixLen};
ghost use Rattle.perch_at.specs.Text.{at_text};

use super::recordings::Played;
use super::refused::{explain, unplayed};
use super::{arguments, recordings};

// The text: 3,072 bytes always hold it.
fn answer(log: &[u8], memory: &[u8], clock: u64, out: &mut [u8; 3072]) -> usize
    ensures prefix_len { IsPrefixLen result out.new }
    ensures out_after { take result out.new ≡ at_text log.now memory.now clock }
{
    perch_at::answer(log, memory, clock, out)
}

pub(crate) fn tell(rt: &HostRuntime, log: &[u8], memory: &[u8], clock: u64) -> bool {
    let mut out = [0u8; 3072];
    let n = answer(log, memory, clock, &mut out);
    let written = program_io::write_all(&mut rt.stdout(), &out[..n]);
    explain(rt, unplayed(log, memory));
    written
}

// A word that is longer than any clock reads as an empty one.
pub(crate) fn at(rt: &HostRuntime) -> bool {
    let mut word = [0u8; 16];
    let n = arguments::word(rt, 2, &mut word);
    let c = text::decimal_in(&word[..n], 0, 2000000000);
    match c {
        Some(clock) => {
            let p = Played::At(clock as u64);
            recordings::play(rt, p)
        }
        None => {
            program_io::say(
                rt,
                b"perch: at CLOCK: a decimal from 0 to 2000000000 with no leading zero\n",
            );
            true
        }
    }
}
