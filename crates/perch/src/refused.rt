// A refusal, on standard error.
ghost use Rattle.std.specs.Prelude.{◌≡◌, eqb, length};
ghost use Rattle.arith.specs.Pick.{pick};
ghost use Rattle.recording.specs.Whole.{check_of};

// The reason in words; none for 0.
pub(crate) fn explain(rt: &HostRuntime, number: u8) {
    if number == 0 {
        return;
    }
    let mut words = [0u8; 60];
    let m = perch_reasons::reason(&mut words, 0, number);
    program_io::write_front(&mut rt.stderr(), &words, m);
    program_io::say(rt, b"\n");
}

// `refused=NUMBER:PLACE`, and below it the reason in words.
pub(crate) fn refuse(rt: &HostRuntime, number: u8, place: usize) {
    let mut text = [0u8; 40];
    let n = text_lines::refused_line(&mut text, 0, number, place);
    program_io::write_front(&mut rt.stderr(), &text, n);
    explain(rt, number);
}

// What a log with a sample memory is refused by when it is to be played, or 0.
pub(crate) fn unplayed(log: &[u8], memory: &[u8]) -> u8
    ensures { result ≡ pick (eqb (length memory.now) 32768) (check_of log.now).number 1 }
{
    if memory.len() != 32768 {
        return 1;
    }
    let k = recording::check(log);
    k.number
}
