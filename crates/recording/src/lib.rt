// A recording: what a player is lent, a log or a VGM file.
#![tactic(auto)]

ghost use Rattle.std.specs.Prelude.{◌≡◌, ◌+◌, ◌≤◌, ◌<◌, length, drop, Ok};
ghost use Rattle.log_rules.specs.Whole.{check_refusal};
ghost use Rattle.vgm_blocks.specs.Blocks.{front_end};
ghost use Rattle.recording.specs.Counted.{check_from};
ghost use Rattle.recording.specs.Whole.{is_file, start_of, stream_in, commands_check, part_check, file_check, machine_of, check_of};

use log_rules::Checked;
use vgm_file::NoPart;
use vgm_measure::Tally;

// Whether it is a VGM file.
pub fn is_file(b: &[u8]) -> bool
    ensures { result ≡ is_file b.now }
{
    text::starts(b, b"Vgm ")
}

// Whether it is for a PAL machine.
pub fn is_pal(b: &[u8]) -> bool
    ensures { result ≡ machine_of b.now }
{
    if is_file(b) {
        return vgm_file::is_pal(b);
    }
    log_read::is_pal(b)
}

// The place behind the blocks in front of the part from p on.
fn behind_blocks(b: &[u8], p: usize) -> usize
    requires { p ≤ length b.now }
    ensures { result ≡ p + front_end (drop p b.now) }
{
    p + vgm_blocks::front_end(&b[p..])
}

// Where the commands of a file begin, behind the blocks in front of them; 0 where its header says no place.
pub fn start(b: &[u8]) -> usize
    ensures { result ≡ start_of b.now }
{
    match vgm_file::start(b) {
        Ok(p) => behind_blocks(b, p),
        Err(_) => 0,
    }
}

// A refusal.
fn refused(number: u8, place: usize) -> Checked
    ensures { result ≡ check_refusal number place }
{
    Checked {
        number,
        place,
        pal: false,
        clocks: 0,
        turns: 0,
        items: 0,
    }
}

// The check by the totals of the commands from a place on.
fn check_totals(pal: bool, at: usize, t: Tally) -> Checked
    requires { at + t.place < 9223372036854775808 }
    ensures { result ≡ check_from pal at t }
{
    let number = t.number;
    if number == 0 {
        return Checked {
            number: 0,
            place: 0,
            pal,
            clocks: t.clocks,
            turns: t.turns,
            items: t.turns,
        };
    }
    if number == 9 {
        return refused(9, 0);
    }
    refused(number, at + t.place)
}

// The commands of a file, checked.
fn check_commands(b: &[u8]) -> Checked
    ensures { result ≡ commands_check b.now (stream_in b.now) }
{
    let at = start(b);
    let pal = vgm_file::is_pal(b);
    let t = vgm_measure::totals(pal, &b[at..]);
    check_totals(pal, at, t)
}

// The part of a file from p on, checked: the blocks in front, then the commands.
fn check_part(b: &[u8], p: usize) -> Checked
    requires { p ≤ length b.now }
    ensures { result ≡ part_check (Ok p) b.now }
{
    let f = vgm_blocks::judge(&b[p..]);
    let number = f.number;
    if number == 0 {
        return check_commands(b);
    }
    refused(number, p + f.place)
}

// A file, checked.
#[tactic(auto, unfolding(crate::specs::Whole::file_check, crate::specs::Whole::part_check))]
fn check_file(b: &[u8]) -> Checked
    ensures { result ≡ file_check b.now }
{
    if 524288 < b.len() {
        return refused(5, 0);
    }
    match vgm_file::start(b) {
        Ok(p) => check_part(b, p),
        Err(NoPart::NoVgm | NoPart::Cut | NoPart::Outside) => refused(35, 0),
        Err(NoPart::Dual) => refused(36, 0x84),
    }
}

// Whether it passes, its machine and its totals; or the first thing that is wrong with it.
pub fn check(b: &[u8]) -> Checked
    ensures { result ≡ check_of b.now }
{
    if is_file(b) {
        return check_file(b);
    }
    log_check::check(b)
}
