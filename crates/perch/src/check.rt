// `perch check`: a log on standard input, and what there is to say about it on standard output.
ghost use Rattle.std.specs.Prelude.{◌≡◌, take};
ghost use Rattle.std.specs.Counts.{IsPrefixLen};
ghost use Rattle.perch_check.specs.Report.{check_text};

// The text about a log: 700 bytes always hold it.
fn answer(log: &[u8], out: &mut [u8; 700]) -> usize
    ensures prefix_len { IsPrefixLen result out.new }
    ensures out_after { take result out.new ≡ check_text log.now }
{
    perch_check::report(log, out)
}

pub(crate) fn tell(rt: &HostRuntime, log: &[u8]) -> bool {
    let mut out = [0u8; 700];
    let n = answer(log, &mut out);
    program_io::write_all(&mut rt.stdout(), &out[..n])
}
