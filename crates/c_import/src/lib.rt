// The import of a VGM stream, its answer in one 64-bit number.
#![tactic(auto)]

ghost use Rattle.std.specs.Prelude.{◌≡◌, false, ◌/◌, ◌%◌, ◌^◌, ◌≤◌, ◌<◌, eqb, length, take};
ghost use Rattle.vgm_measure.specs.Import.{buffer_of};
ghost use Rattle.vgm_import.specs.Stamps.{Stands};
ghost use Rattle.c_import.specs.Packed.{import_value, answer_packed, import_packed, machine_answer, machine_buffer};

use vgm_measure::Imported;

// The length of the log, or the place of a refusal.
fn value_of(a: Imported) -> u64
    requires { a.number ≡ 0 → a.length ≤ 60000 }
    ensures { (result ≡ import_value a) × (result < 2 ^ 56) }
{
    if a.number == 0 {
        return a.length as u64;
    }
    a.place as u64 % 72057594037927936
}

// An answer in one number.
fn packed(a: Imported) -> u64
    requires { a.number ≡ 0 → a.length ≤ 60000 }
    ensures { result ≡ answer_packed a }
{
    u64::from(a.number) + 256 * value_of(a)
}

// Brings a stream in as a log for a machine, 0 NTSC and 1 PAL, over the front of lent bytes; the value is the log's length. A log that is written passes
// the check, and stands for the stream's accesses at their clocks. Refused: a machine that is neither with 2; then, with the place as the value: 25, 26,
// 27; then, at 0: 9; 28. Refused, the bytes stay.
pub fn import_for(stream: &[u8], machine: u8, out: &mut [u8]) -> u64
    ensures value { result ≡ answer_packed (machine_answer machine stream.now (length out.old)) }
    ensures out_after { out.new ≡ machine_buffer machine stream.now out.old }
    ensures stands { result % 2 ^ 8 ≡ 0 → Stands (eqb machine 1) stream.now (take (result / 2 ^ 8) out.new) }
{
    if 1 < machine {
        return 2;
    }
    let a = vgm_import::import_for(machine == 1, stream, out);
    packed(a)
}

// The same for NTSC.
pub fn import(stream: &[u8], out: &mut [u8]) -> u64
    ensures value { result ≡ import_packed stream.now (length out.old) }
    ensures out_after { out.new ≡ buffer_of stream.now out.old }
    ensures stands { result % 2 ^ 8 ≡ 0 → Stands false stream.now (take (result / 2 ^ 8) out.new) }
{
    import_for(stream, 0, out)
}
