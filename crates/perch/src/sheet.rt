// `perch sheet LEVEL ADDRESS LENGTH`: the level after each byte of a sample in the file `sample.bin`, on standard output.
ghost use Rattle.std.specs.Prelude.{◌≡◌, take};
ghost use Rattle.std.specs.Counts.{IsPrefixLen};
ghost use Rattle.perch_sheet.specs.Report.{sheet_refusal, sheet_text};

use super::arguments;
use super::refused::explain;
use perch_sheet::Args;

// What the words have to be; nothing is to be written.
fn expected(rt: &HostRuntime) -> bool {
    program_io::say(
        rt,
        b"perch: expected sheet LEVEL ADDRESS LENGTH: decimals with no leading zero, the address four lower-case hex digits, as in sheet 64 c000 20\n",
    );
    true
}

// The text about a sheet: 40,000 bytes always hold it.
fn answer(memory: &[u8], level: u64, address: u64, size: u64, out: &mut [u8; 40000]) -> usize
    ensures prefix_len { IsPrefixLen result out.new }
    ensures out_after { take result out.new ≡ sheet_text memory.now level address size }
{
    perch_sheet::report(memory, level, address, size, out)
}

// The number that a sheet is refused by, or 0.
fn number_of(memory: &[u8], level: u64, address: u64, size: u64) -> u8
    ensures { result ≡ sheet_refusal memory.now level address size }
{
    let mut levels = [0u8; 4081];
    let w = chip_sheet::sheet(memory, level, address, size, &mut levels);
    w.number
}

fn tell(rt: &HostRuntime, memory: &[u8], level: u32, address: u32, size: u32) -> bool {
    let mut out = [0u8; 40000];
    let n = answer(memory, level as u64, address as u64, size as u64, &mut out);
    let written = program_io::write_all(&mut rt.stdout(), &out[..n]);
    explain(
        rt,
        number_of(memory, level as u64, address as u64, size as u64),
    );
    written
}

// A byte more than sample memory has, so that a longer file is seen.
fn draw(rt: &HostRuntime, level: u32, address: u32, size: u32) -> bool {
    let mut memory = [0u8; 32769];
    let r = program_io::read_sample(rt, b"perch", &mut memory);
    if r.failed {
        return true;
    }
    let n = r.count;
    tell(rt, &memory[..n], level, address, size)
}

// A word that is missing, or longer than any right one, reads as an empty one.
fn words(rt: &HostRuntime) -> Option<Args> {
    let mut level = [0u8; 16];
    let l = arguments::word(rt, 2, &mut level);
    let mut address = [0u8; 16];
    let a = arguments::word(rt, 3, &mut address);
    let mut size = [0u8; 16];
    let n = arguments::word(rt, 4, &mut size);
    perch_sheet::args_of(&level[..l], &address[..a], &size[..n])
}

// `count` is that of all words, the program's name and the verb among them.
pub(crate) fn sheet(rt: &HostRuntime, count: usize) -> bool {
    if count != 5 {
        return expected(rt);
    }
    match words(rt) {
        Some(a) => draw(rt, a.level, a.address, a.size),
        None => expected(rt),
    }
}
