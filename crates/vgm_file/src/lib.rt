// The header of a VGM file: where its commands begin, and its machine.
#![tactic(auto)]

ghost use Rattle.std.specs.Prelude.{◌≡◌};
ghost use Rattle.vgm_file.specs.Header.{word, data_start, clock_word, clock_in, is_dual, is_pal_file, is_known, commands_at};

// Why a file has no command part: it is no VGM file, its header is cut short, its header points out of the file, or it is for two chips.
#[derive(Clone, Copy, Debug, PartialEq, Eq)]
pub enum NoPart {
    NoVgm,
    Cut,
    Outside,
    Dual,
}

// Four bytes of a header, low first; a byte past the file's end is 0.
#[tactic(auto, using(crate::proofs::HeaderLaws::word_wide))]
fn word_at(file: &[u8], at: usize) -> u32
    ensures { result ≡ word file.now at }
{
    c_bytes::number::u32_at(file, at)
}

// Where the header says that the commands begin.
#[tactic(auto, unfolding(crate::specs::Header::data_start))]
fn begins_at(file: &[u8]) -> usize
    ensures { result ≡ data_start file.now }
{
    let version = word_at(file, 0x08);
    let offset = word_at(file, 0x34);
    if version < 0x150 || offset == 0 {
        return 0x40;
    }
    0x34 + offset as usize
}

// The word of the chip's clock; 0 where the header has none.
#[tactic(auto, unfolding(crate::specs::Header::clock_word))]
fn clock_word(file: &[u8]) -> u32
    ensures { result ≡ clock_word file.now }
{
    if 0x161 <= word_at(file, 0x08) && 0x88 <= begins_at(file) {
        return word_at(file, 0x84);
    }
    0
}

// The clocks a second that the header says; 0 where it says none.
#[tactic(auto, unfolding(crate::specs::Header::clock_in))]
pub fn clock_of(file: &[u8]) -> u32
    ensures { result ≡ clock_in file.now }
{
    clock_word(file) % 1073741824
}

// Whether the file is for two chips.
#[tactic(auto, unfolding(crate::specs::Header::is_dual))]
fn is_dual(file: &[u8]) -> bool
    ensures { result ≡ is_dual file.now }
{
    clock_word(file) / 1073741824 % 2 == 1
}

// Whether the file is for a PAL machine.
#[tactic(auto, unfolding(crate::specs::Header::is_pal_file))]
pub fn is_pal(file: &[u8]) -> bool
    ensures { result ≡ is_pal_file file.now }
{
    clock_of(file) == 1662607
}

// Whether the clock is that of a machine, or none is said. Any other is taken as NTSC.
#[tactic(auto, unfolding(crate::specs::Header::is_known))]
pub fn is_known(file: &[u8]) -> bool
    ensures { result ≡ is_known file.now }
{
    is_pal(file) || matches!(clock_of(file), 0 | 1789772 | 1789773)
}

// Where the commands begin, or why there are none.
#[tactic(auto, unfolding(crate::specs::Header::commands_at))]
pub fn start(file: &[u8]) -> Result<usize, NoPart>
    ensures { result ≡ commands_at file.now }
{
    if word_at(file, 0) != word_at(b"Vgm ", 0) {
        return Err(NoPart::NoVgm);
    }
    if file.len() < 0x40 {
        return Err(NoPart::Cut);
    }
    let at = begins_at(file);
    if at < 0x38 || file.len() < at {
        return Err(NoPart::Outside);
    }
    if is_dual(file) {
        return Err(NoPart::Dual);
    }
    Ok(at)
}
