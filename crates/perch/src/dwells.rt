// `perch dwell`: a log on standard input, and on standard output how many clocks the DMC stood at each of its levels.
ghost use Rattle.std.specs.Prelude.{◌≡◌, take};
ghost use Rattle.std.specs.Counts.{IsPrefixLen};
ghost use Rattle.perch_dwell.specs.Text.{dwell_text};

use super::refused::{explain, unplayed};

// The text: 2,560 bytes always hold it.
fn answer(log: &[u8], memory: &[u8], out: &mut [u8; 2560]) -> usize
    ensures prefix_len { IsPrefixLen result out.new }
    ensures out_after { take result out.new ≡ dwell_text log.now memory.now }
{
    perch_dwell::answer(log, memory, out)
}

pub(crate) fn tell(rt: &HostRuntime, log: &[u8], memory: &[u8]) -> bool {
    let mut out = [0u8; 2560];
    let n = answer(log, memory, &mut out);
    let written = program_io::write_all(&mut rt.stdout(), &out[..n]);
    explain(rt, unplayed(log, memory));
    written
}
