// A log as a WAV file in pieces, the file under way being bytes lent in place, which the caller keeps between two pieces: its fields, low byte first, the
// cursor as the crate `c_recording` has it, and last the state as the crate `c_state` has it. Bytes that are none of a file under way are refused, and stay.
#![tactic(auto)]

ghost use Rattle.std.specs.Prelude.{◌≡◌, ◌≤◌, eqb};
ghost use Rattle.arith.specs.Pick.{pick};
ghost use Rattle.play_wav.specs.Pieces.{WrittenOn};
ghost use Rattle.c_wav.specs.Files.{begin_packed, begin_bytes, piece_packed, Continued};
ghost use Rattle.c_wav.specs.Wavs.{wav_size, wav_at, is_wav, outside_wav, wav_in, wav_encoded};

mod reader;
mod writer;

use c_bytes::{field, number};
use play_samples::Place;
use play_wav::Sounded;
use wav_rules::Wav;

// Where the cursor and the state begin, and how many bytes a file under way is.
pub(crate) const CURSOR: usize = 37;

pub(crate) const STATE: usize = CURSOR + c_recording::SIZE;

pub const SIZE: usize = STATE + c_state::SIZE;

// How many bytes a file under way is.
pub fn size() -> usize
    ensures { result ≡ wav_size }
{
    SIZE
}

// Whether bytes are those of a file under way: read and written back they are as they were. So are as many as one is whose first byte is 0 or 1 and whose
// state's bytes are a state's, and no others.
fn is_wav(b: &[u8]) -> bool
    ensures { result ≡ is_wav b.now }
{
    b.len() == SIZE && field::byte_at(b, 0) <= 1 && c_state::is_state(reader::state_part(b))
}

// The file read from bytes, whatever they are.
fn decode(b: &[u8]) -> Wav
    ensures { result ≡ wav_at b.now }
{
    let begun = field::flag_at(b, 0);
    let rate = number::u32_at(b, 1);
    let count = number::u32_at(b, 5);
    let left = number::u32_at(b, 9);
    let sample = number::usize_at(b, 13);
    let sum = number::usize_at(b, 21);
    let time = number::usize_at(b, 29);
    let cursor = c_recording::decode(reader::cursor_part(b));
    let state = c_state_read::decode(reader::state_part(b));
    let moment = play_walk::moment_of(cursor, state, time as u64);
    let place = Place {
        moment: moment,
        left: left,
        sample: sample as u64,
        sum: sum as u64,
    };
    Wav {
        rate: rate,
        count: count,
        begun: begun,
        place: place,
    }
}

// A file whose state is out of range.
fn outside() -> Wav
    ensures { result ≡ outside_wav }
{
    let cursor = c_recording::decode(b"");
    let state = c_state_read::decode(b"\xff");
    let moment = play_walk::moment_of(cursor, state, 0);
    let place = Place {
        moment: moment,
        left: 0,
        sample: 0,
        sum: 0,
    };
    Wav {
        rate: 0,
        count: 0,
        begun: false,
        place: place,
    }
}

// The file that bytes stand for; any other bytes stand for one whose state is out of range.
fn wav_in(b: &[u8]) -> Wav
    ensures { result ≡ wav_in b.now }
{
    if is_wav(b) {
        return decode(b);
    }
    outside()
}

// Writes a file under way to bytes. Other than so many bytes stay as they are.
fn encode(w: Wav, b: &mut [u8])
    ensures { b.new ≡ wav_encoded w b.old }
{
    if b.len() == SIZE {
        let p = w.place;
        let m = p.moment;
        writer::put_file(w.begun, w.rate, w.count, b);
        writer::put_place(p, b);
        writer::put_cursor(m.cursor, b);
        writer::put_state(m.state, b);
    }
}

// The file written to the bytes, where the number says that it is done.
fn store_wav(number: u8, w: Wav, b: &mut [u8])
    ensures { b.new ≡ pick (eqb number 0) (wav_encoded w b.old) b.old }
{
    if number == 0 {
        encode(w, b);
    }
}

// Makes the bytes a file at its beginning, whatever they held; the value is the bytes of the whole file. Refused: 1; 2, for another length; as the log; 33, for
// the rate.
pub fn begin(wav: &mut [u8], log: &[u8], memory: &[u8], rate: u32) -> u64
    ensures value { result ≡ begin_packed log.now memory.now rate wav.old }
    ensures wav_after { wav.new ≡ begin_bytes log.now memory.now rate wav.old }
{
    if wav.len() != SIZE {
        let number = c_chip::other_length(memory);
        return c_log::pack(number, 0, 0);
    }
    let g = play_wav::begin(log, memory, rate);
    let w = g.wav;
    store_wav(g.number, w, wav);
    c_log::pack(g.number, g.place, g.size as u32)
}

// A piece of the file that bytes stand for.
fn wav_from(b: &[u8], log: &[u8], memory: &[u8], out: &mut [u8]) -> Sounded
    ensures { WrittenOn log.now memory.now (wav_in b.now) out.old out.new result × (result.length ≤ 4294967295) }
{
    let w = wav_in(b);
    // As many bytes of the piece as the answer can count.
    let end = out.len().min(4294967295);
    play_wav::wav_on(w, log, memory, &mut out[..end])
}

// A piece's answer in one number.
#[tactic(auto, unfolding(crate::specs::Files::piece_packed))]
fn pack_piece(r: Sounded) -> u64
    requires { r.length ≤ 4294967295 }
    ensures { result ≡ piece_packed r }
{
    if r.number == 0 {
        return 256 * u64::from(r.over) + 4294967296 * r.length as u64;
    }
    c_log::pack(r.number, r.place, 0)
}

// Writes the file's next bytes, its head or whole samples, to the first 4,294,967,295 of the lent ones at most, and moves the file behind them. Refused: 1; 2;
// 3, 9 and 33; then as the line that the file comes to, with its place in the log.
pub fn wav_on(wav: &mut [u8], log: &[u8], memory: &[u8], out: &mut [u8]) -> u64
    ensures { Continued log.now memory.now wav.old wav.new out.old out.new result }
{
    let m = wav_from(wav, log, memory, out);
    let w = m.wav;
    store_wav(m.number, w, wav);
    pack_piece(m)
}
