// What `perch sheet` is asked for, and what it writes.
#![tactic(auto)]

mod words;

ghost use Rattle.std.specs.Prelude.{◌≡◌, ◌++◌, length, drop};
ghost use Rattle.text_lines.specs.Puts.{Puts};
ghost use Rattle.perch_sheet.specs.Report.{level_line, level_lines, sheet_text};

pub use words::{Args, args_of};

// The address in hex, and the level.
fn level_line(out: &mut [u8], at: usize, address: u16, level: u8) -> usize
    ensures { Puts out.old at (level_line address level) out.new result }
{
    let a = text_print::hex_four(out, at, address);
    let b = text_print::fixed(out, a, b":");
    let c = text_print::decimal(out, b, u64::from(level));
    text_print::fixed(out, c, b"\n")
}

// A line for each level, the first at an address.
fn level_lines(out: &mut [u8], at: usize, address: u16, levels: &[u8]) -> usize
    ensures { Puts out.old at (level_lines address levels.now) out.new result }
{
    let mut place = at;
    let mut a = address;
    for &level in levels {
        place = level_line(out, place, a, level);
        a = chip_dmc_reader::address_after(a);
    }
    place
}

// The whole text at the front of a buffer.
fn whole(out: &mut [u8], memory: &[u8], level: u64, address: u64, size: u64) -> usize
    ensures { Puts out.old 0 (sheet_text memory.now level address size) out.new result }
{
    let mut levels = [0u8; 4081];
    let w = chip_sheet::sheet(memory, level, address, size, &mut levels);
    let a = text_print::fixed(out, 0, b"sheet=1\n");
    if w.number == 0 {
        let n = w.length as usize;
        return level_lines(out, a, address as u16, &levels[..n]);
    }
    text_lines::keyed_line(out, a, b"refused=", u64::from(w.number))
}

// The text about a sheet over the front of lent bytes, and its length: 40,000 bytes always hold it.
pub fn report(memory: &[u8], level: u64, address: u64, size: u64, out: &mut [u8; 40000]) -> usize
    ensures value { result ≡ length (sheet_text memory.now level address size) }
    ensures out_after { out.new ≡ sheet_text memory.now level address size ++ drop result out.old }
{
    whole(out, memory, level, address, size)
}
