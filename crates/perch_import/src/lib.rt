// A whole VGM file brought in as a log for its machine: its header says where the commands begin and how fast the chip's clock goes, and from the
// commands on it is a stream. The place of a refusal is that in the file.
#![tactic(auto)]

ghost use Rattle.std.specs.Prelude.{◌≡◌, ◌+◌, ◌≤◌, ◌<◌, length, drop};
ghost use Rattle.vgm_measure.specs.Import.{import_for, buffer_for};
ghost use Rattle.vgm_file.specs.Header.{is_pal_file, commands_at};
ghost use Rattle.perch_import.specs.declared.NotBrought.TheVariants as not_brought;
ghost use Rattle.perch_import.specs.File.{place_from, brought_from, brought_of, left_in};
ghost use Rattle.text_print.specs.Printed.{printed, placed};
ghost use Rattle.text_lines.specs.Puts.{Puts};
ghost use Rattle.perch_import.specs.Words.{clock_text};

use refusal::Refusal;
use vgm_file::NoPart;
use vgm_measure::Imported;

// Why a file isn't brought in: it has no command part; or a refusal, its number and its place in the file.
#[derive(Clone, Copy, Debug, PartialEq, Eq)]
pub enum NotBrought {
    NoPart(NoPart),
    Refused(Refusal),
}

impl From<NoPart> for NotBrought {
    ghost from_gives = { λ e r. r ≡ not_brought.NoPart e };

    fn from(e: NoPart) -> NotBrought {
        NotBrought::NoPart(e)
    }
}

impl From<Refusal> for NotBrought {
    ghost from_gives = { λ e r. r ≡ not_brought.Refused e };

    fn from(e: Refusal) -> NotBrought {
        NotBrought::Refused(e)
    }
}

// What is said of a clock that no machine has.
fn clock_words(out: &mut [u8], clock: u32) -> usize
    ensures { Puts out.old 0 (clock_text clock) out.new result }
{
    let a = text_print::fixed(out, 0, b"perch: the NES clock at $84 is ");
    let b = text_print::decimal(out, a, u64::from(clock));
    text_print::fixed(out, b, b": taken as NTSC\n")
}

// The same where it fits, and the place behind it.
pub fn clock_line(out: &mut [u8], at: usize, clock: u32) -> usize
    ensures value { result ≡ placed out.old at (clock_text clock) }
    ensures out_after { out.new ≡ printed out.old at (clock_text clock) }
{
    let mut text = [0u8; 64];
    let n = clock_words(&mut text, clock);
    text_print::fixed(out, at, &text[..n])
}

// The place in a file of a refusal of the part from a start on.
#[tactic(auto, unfolding(crate::specs::File::place_from))]
fn place_from(start: usize, a: Imported) -> usize
    requires { start + a.place < 9223372036854775808 }
    ensures { result ≡ place_from start a }
{
    if 25 <= a.number && a.number <= 27 {
        return start + a.place;
    }
    a.place
}

// The answer for a file by that for its part.
#[tactic(auto, unfolding(crate::specs::File::brought_from))]
fn brought_from(start: usize, a: Imported) -> Result<usize, Refusal>
    requires { start + a.place < 9223372036854775808 }
    ensures { result ≡ brought_from start a }
{
    if a.number == 0 {
        return Ok(a.length);
    }
    Err(Refusal {
        number: a.number,
        place: place_from(start, a),
    })
}

// The part from a start on, brought in for the file's machine.
fn import_from(file: &[u8], start: usize, out: &mut [u8]) -> Result<usize, Refusal>
    requires { start ≤ length file.now }
    ensures value { result ≡ brought_from start (import_for (is_pal_file file.now) (drop start file.now) (length out.old)) }
    ensures out_after { out.new ≡ buffer_for (is_pal_file file.now) (drop start file.now) out.old }
{
    let pal = vgm_file::is_pal(file);
    let a = vgm_import::import_for(pal, &file[start..], out);
    brought_from(start, a)
}

// Brings a file in as a log over the front of lent bytes; the length of the log. Where it isn't done the bytes stay.
#[tactic(auto, unfolding(crate::specs::File::brought_of, crate::specs::File::left_in))]
pub fn import_file(file: &[u8], out: &mut [u8]) -> Result<usize, NotBrought>
    ensures value { result ≡ brought_of (commands_at file.now) file.now (length out.old) }
    ensures out_after { out.new ≡ left_in (commands_at file.now) file.now out.old }
{
    let at = vgm_file::start(file)?;
    Ok(import_from(file, at, out)?)
}
