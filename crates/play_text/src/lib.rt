// The lines of what is played, written over lent bytes.
#![tactic(auto)]

ghost use Rattle.std.specs.Prelude.{◌≡◌, ◌+◌, ◌*◌, ◌/◌, ◌≤◌, leb, length};
ghost use Rattle.std.proofs.lemmas.List.Edits.{sets};
ghost use Rattle.text_print.specs.Printed.{printed, placed};
ghost use Rattle.play_text.specs.Entries.{entry_text, refusal_text};
ghost use Rattle.play_text.specs.Lines.{Lined, lines_in, lines_end};

// A line of what is played: `play=1`; a level or a status byte with its time; `stop` with its time.
#[derive(Clone, Copy)]
pub enum Entry {
    Play,
    Level(u32, u16),
    Read(u32, u8),
    Stop(u32),
}

// A level line.
fn level_text(out: &mut [u8], at: usize, time: u64, level: u64) -> usize
    requires { at + length (entry_text (Entry.Level time level)) ≤ length out.old }
    ensures { Lined out.old at (Entry.Level time level) out.new result }
{
    let a = text_print::fixed(out, at, b"level=");
    let b = text_print::decimal(out, a, time);
    let c = text_print::fixed(out, b, b":");
    let d = text_print::decimal(out, c, level);
    text_print::fixed(out, d, b"\n")
}

// A status line.
fn read_line(out: &mut [u8], at: usize, time: u64, byte: u8) -> usize
    requires { at + 23 ≤ length out.old }
    ensures { Lined out.old at (Entry.Read time byte) out.new result }
{
    let a = text_print::fixed(out, at, b"read=");
    let b = text_print::decimal(out, a, time);
    let c = text_print::fixed(out, b, b":");
    let d = text_print::hex(out, c, byte);
    text_print::fixed(out, d, b"\n")
}

// The last line.
fn stop_line(out: &mut [u8], at: usize, time: u64) -> usize
    requires { at + 23 ≤ length out.old }
    ensures { Lined out.old at (Entry.Stop time) out.new result }
{
    let a = text_print::fixed(out, at, b"stop=");
    let b = text_print::decimal(out, a, time);
    text_print::fixed(out, b, b"\n")
}

// The first line.
fn play_line(out: &mut [u8], at: usize) -> usize
    requires { at + 23 ≤ length out.old }
    ensures { Lined out.old at Entry.Play out.new result }
{
    text_print::fixed(out, at, b"play=1\n")
}

// A level line in 23 bytes.
fn level_entry(out: &mut [u8], at: usize, time: u32, level: u16) -> usize
    requires { at + 23 ≤ length out.old }
    ensures { Lined out.old at (Entry.Level time level) out.new result }
{
    level_text(out, at, u64::from(time), u64::from(level))
}

// Any line: 23 bytes hold the longest.
fn line(out: &mut [u8], at: usize, n: Entry) -> usize
    requires { at + 23 ≤ length out.old }
    ensures { Lined out.old at n out.new result }
{
    match n {
        Entry::Play => play_line(out, at),
        Entry::Level(t, l) => level_entry(out, at, t, l),
        Entry::Read(t, v) => read_line(out, at, u64::from(t), v),
        Entry::Stop(t) => stop_line(out, at, u64::from(t)),
    }
}

// Whether 23 bytes are left for each of n lines.
pub fn left(size: usize, at: usize, n: usize) -> bool
    ensures { result ≡ leb (at + 23 * n) size }
{
    at <= size && n <= (size - at) / 23
}

// A line where 23 bytes are left, else nothing; and the place behind it.
pub fn put(out: &mut [u8], at: usize, n: Entry) -> usize
    ensures value { result ≡ lines_end out.old at 1 (entry_text n) }
    ensures out_after { out.new ≡ lines_in out.old at 1 (entry_text n) }
{
    if left(out.len(), at, 1) {
        return line(out, at, n);
    }
    at
}

// A level line where 23 bytes are left, else nothing; and the place behind it.
pub fn level_line(out: &mut [u8], at: usize, time: u64, level: u16) -> usize
    ensures value { result ≡ lines_end out.old at 1 (entry_text (Entry.Level time level)) }
    ensures out_after { out.new ≡ lines_in out.old at 1 (entry_text (Entry.Level time level)) }
{
    if left(out.len(), at, 1) {
        return level_text(out, at, time, u64::from(level));
    }
    at
}

// The two lines of a refusal.
fn refusal_lines(out: &mut [u8], number: u8, place: usize) -> usize
    requires { 40 ≤ length out.old }
    ensures value { (result ≡ length (refusal_text number place)) × (result ≤ 40) }
    ensures out_after { out.new ≡ sets out.old 0 (refusal_text number place) }
{
    let a = text_print::fixed(out, 0, b"play=1\n");
    let b = text_print::fixed(out, a, b"refused=");
    let c = text_print::decimal(out, b, u64::from(number));
    let d = text_print::fixed(out, c, b":");
    let e = text_print::decimal(out, d, place as u64);
    text_print::fixed(out, e, b"\n")
}

// The text of a refusal where it fits, and its length; else nothing, and 0.
pub fn refusal(number: u8, place: usize, out: &mut [u8]) -> usize
    ensures value { result ≡ placed out.old 0 (refusal_text number place) }
    ensures out_after { out.new ≡ printed out.old 0 (refusal_text number place) }
{
    let mut text = [0u8; 40];
    let n = refusal_lines(&mut text, number, place);
    text_print::fixed(out, 0, &text[..n])
}
