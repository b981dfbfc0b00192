// A log as a WAV file for C and Rust, in pieces: the file under way is bytes lent in place (crate `c_wav`), which the caller keeps between two pieces.
ghost use Rattle.std.specs.Prelude.{◌≡◌};
ghost use Rattle.c_wav.specs.Wavs.{wav_size};
ghost use Rattle.c_wav.specs.Files.{begin_packed, begin_bytes, Continued};

// How many bytes a file under way is.
#[unsafe(no_mangle)]
pub extern "C" fn perch_wav_size() -> usize
    ensures { result ≡ wav_size }
{
    c_wav::size()
}

// Makes the bytes a file at its beginning, whatever they held; the value is how many bytes the whole file has. Refused: 1; 2, for another length; as the log;
// 33, at 0.
#[unsafe(no_mangle)]
pub extern "C" fn perch_wav_begin(wav: &mut [u8], log: &[u8], memory: &[u8], rate: u32) -> u64
    ensures value { result ≡ begin_packed log.now memory.now rate wav.old }
    ensures wav_after { wav.new ≡ begin_bytes log.now memory.now rate wav.old }
{
    c_wav::begin(wav, log, memory, rate)
}

// Writes the file's next bytes, its head or whole samples, and moves the file behind them. Refused: 1; 2; 3, 9 and 33; then as the line that it comes to.
#[unsafe(no_mangle)]
pub extern "C" fn perch_wav_on(wav: &mut [u8], log: &[u8], memory: &[u8], out: &mut [u8]) -> u64
    ensures { Continued log.now memory.now wav.old wav.new out.old out.new result }
{
    c_wav::wav_on(wav, log, memory, out)
}
