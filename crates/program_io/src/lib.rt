// Bytes read to their end, a failed read told from the end; bytes written, and whether all of them were; what a program reads, and says where it can't.
#![tactic(auto)]

ghost use Rattle.std.specs.Prelude.{◌≡◌, not, ◌+◌, ◌≤◌, length};
ghost use Rattle.std.proofs.Math.Seq.{paste};
ghost use Rattle.std.specs.Counts.{IsPrefixLen};
ghost use Rattle.std.specs.IoError.{raw_os_error};
ghost use Rattle.program_io.specs.Answers.{answer_of, error_number};
ghost use Rattle.program_io.specs.Reads.{Reads, FileReads, is_failure, is_missing};
ghost use Rattle.program_io.specs.Writes.{Writes, FrontWrites};
ghost use Rattle.program_io.specs.Reads.{got as Reads·got};

use std::io::{Read, Write};
use std::rt::Files;
use std::{fs, io};

// The number of the error of a file that isn't there.
const MISSING: i32 = 2;

// How many bytes were read, and whether a read failed behind them.
#[derive(Clone, Copy)]
pub struct Input {
    pub count: usize,
    pub failed: bool,
}

// So many bytes read.
fn taken(count: usize, failed: bool) -> Input
    ensures { (result.count ≡ count) × (result.failed ≡ failed) }
{
    Input { count, failed }
}

// How many bytes a read's answer stands for.
fn got(answer: io::Result<usize>) -> usize
    ensures { result ≡ Reads·got (answer_of answer) }
{
    answer.unwrap_or(0)
}

// Whether a read's answer says that it failed.
fn is_failure(answer: io::Result<usize>) -> bool
    ensures { result ≡ is_failure (answer_of answer) }
{
    answer.is_err()
}

// The first n bytes of a chunk, put into a buffer from a place on.
fn copy(chunk: &[u8], buffer: &mut [u8], at: usize, n: usize)
    requires n_in_bounds { n ≤ length chunk.now }
    requires n_in_bounds_2 { at + n ≤ length buffer.old }
    ensures { buffer.new ≡ paste buffer.old at chunk.now n }
{
    buffer[at..at + n].copy_from_slice(&chunk[..n]);
}

// One read into a buffer from a place on, and the system's answer. It goes by way of a chunk, since a read may change bytes behind those it brings.
fn read_to<R: Read>(
    file: &mut R,
    buffer: &mut [u8],
    at: usize,
    chunk: &mut [u8],
) -> io::Result<usize>
    requires { at ≤ length buffer.old }
    ensures result_in_bounds { at + Reads·got (answer_of result) ≤ length buffer.old }
    ensures result_in_bounds_2 { Reads·got (answer_of result) ≤ length chunk.new }
    ensures buffer_after { buffer.new ≡ paste buffer.old at chunk.new (Reads·got (answer_of result)) }
{
    let n = chunk.len().min(buffer.len() - at);
    let answer = file.read(&mut chunk[..n]);
    copy(chunk, buffer, at, got(answer));
    answer
}

// Reads by way of a chunk.
fn read_by<R: Read>(file: &mut R, buffer: &mut [u8], chunk: &mut [u8]) -> Input
    ensures { Reads buffer.old buffer.new result.count result.failed }
{
    let mut done = 0;
    while done < buffer.len() {
        let answer = read_to(file, buffer, done, chunk);
        let more = got(answer);
        if more == 0 {
            return taken(done, is_failure(answer));
        }
        done += more;
    }
    taken(done, false)
}

// Reads until the buffer is full, the input ends or a read fails; which bytes is the file's affair.
pub fn read_all<R: Read>(file: &mut R, buffer: &mut [u8]) -> Input
    ensures prefix_len { IsPrefixLen result.count buffer.new }
    ensures reads { Reads buffer.old buffer.new result.count result.failed }
{
    let mut chunk = [0u8; 16384];
    read_by(file, buffer, &mut chunk)
}

// Whether an error's number is that of a file that isn't there.
fn is_missing(error: i32) -> bool
    ensures { result ≡ is_missing error }
{
    error == MISSING
}

// The number that the system gave an error; 0 where it is none of the system's.
fn number_of(error: io::Error) -> i32
    ensures { result ≡ error_number (raw_os_error error) }
{
    error.raw_os_error().unwrap_or(0)
}

// A file that wasn't opened, by the error's number.
fn unopened(error: i32) -> Input
    ensures count_value { result.count ≡ 0 }
    ensures failed_value { result.failed ≡ not (is_missing error) }
{
    let missing = is_missing(error);
    taken(0, !missing)
}

// A file to be read. A name is text: of other bytes there is none that can be opened.
fn open<R: Files>(rt: &R, name: &[u8]) -> io::Result<R::File> {
    match str::from_utf8(name) {
        Ok(path) => fs::open(rt, path),
        Err(_) => Err(io::Error::from(io::ErrorKind::InvalidInput)),
    }
}

// The bytes of a file. One that isn't there has none, and that is no failure; one that can't be opened for another reason is.
pub fn read_file<R: Files>(rt: &R, name: &[u8], buffer: &mut [u8]) -> Input
    ensures prefix_len { IsPrefixLen result.count buffer.new }
    ensures file_reads { FileReads buffer.old buffer.new result.count result.failed }
{
    match open(rt, name) {
        Ok(mut file) => read_all(&mut file, buffer),
        Err(error) => unopened(number_of(error)),
    }
}

// One write of a text from a place on, and the system's answer.
fn write_from<W: Write>(file: &mut W, text: &[u8], at: usize) -> io::Result<usize>
    requires { at ≤ length text.now }
    ensures { at + Reads·got (answer_of result) ≤ length text.now }
{
    file.write(&text[at..])
}

// Writes a text to a stream; whether all of it was written, which is the system's affair.
pub fn write_all<W: Write>(file: &mut W, text: &[u8]) -> bool
    ensures { Writes text.now result }
{
    let mut done = 0;
    while done < text.len() {
        let answer = write_from(file, text, done);
        let more = got(answer);
        if more == 0 {
            return false;
        }
        done += more;
    }
    true
}

// Writes to standard error; whether all was written.
pub fn say(rt: &HostRuntime, text: &[u8]) -> bool
    ensures { Writes text.now result }
{
    write_all(&mut rt.stderr(), text)
}

// Writes the first n bytes of a text to a stream, nothing where it has fewer; whether all of them were written.
pub fn write_front<W: Write>(file: &mut W, text: &[u8], n: usize) -> bool
    ensures { FrontWrites text.now n result }
{
    if n <= text.len() {
        return write_all(file, &text[..n]);
    }
    false
}

// What a program can't do, on standard error where it failed.
fn complain(rt: &HostRuntime, failed: bool, program: &[u8], what: &[u8]) {
    if failed {
        say(rt, program);
        say(rt, what);
    }
}

// Standard input. Where a read fails the program says so.
pub fn read_input(rt: &HostRuntime, program: &[u8], buffer: &mut [u8]) -> Input
    ensures prefix_len { IsPrefixLen result.count buffer.new }
    ensures reads { Reads buffer.old buffer.new result.count result.failed }
{
    let r = read_all(&mut rt.stdin(), buffer);
    complain(rt, r.failed, program, b": standard input can't be read\n");
    r
}

// The sample memory, from `sample.bin` in the folder where the program runs. Where it can't be opened or a read fails the program says so.
pub fn read_sample(rt: &HostRuntime, program: &[u8], buffer: &mut [u8]) -> Input
    ensures prefix_len { IsPrefixLen result.count buffer.new }
    ensures file_reads { FileReads buffer.old buffer.new result.count result.failed }
{
    let r = read_file(rt, b"sample.bin", buffer);
    complain(rt, r.failed, program, b": sample.bin can't be read\n");
    r
}

// Says that a program's output wasn't all written, where it wasn't.
pub fn end(rt: &HostRuntime, program: &[u8], written: bool)
    ensures { result ≡ tt }
{
    complain(
        rt,
        !written,
        program,
        b": standard output can't be written\n",
    );
}
