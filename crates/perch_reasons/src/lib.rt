// A refusal's number in words: one table for everything that a person reads.
#![tactic(auto)]

ghost use Rattle.std.specs.Prelude.{◌≡◌, ◌≤◌, ◌<◌};
ghost use Rattle.text_print.specs.Printed.{printed, placed};
ghost use Rattle.perch_reasons.specs.Reasons.{reason_text};

// The words of a number below 8.
fn first(out: &mut [u8], at: usize, number: u8) -> usize
    requires { number < 8 }
    ensures value { result ≡ placed out.old at (reason_text number) }
    ensures out_after { out.new ≡ printed out.old at (reason_text number) }
{
    match number {
        1 => text_print::fixed(out, at, b"sample memory isn't 32,768 bytes"),
        2 => text_print::fixed(out, at, b"a state field is outside its range"),
        3 => text_print::fixed(out, at, b"a run of more than 1,000,000 clocks"),
        4 => text_print::fixed(out, at, b"register not among 4000..4013, 4015, 4017"),
        5 => text_print::fixed(out, at, b"log longer than 60,000 bytes"),
        7 => text_print::fixed(out, at, b"a ninth loop opened inside eight"),
        _ => text_print::fixed(out, at, b"refused"),
    }
}

// Of one from 8 to 15.
fn second(out: &mut [u8], at: usize, number: u8) -> usize
    requires { (8 ≤ number) × (number < 16) }
    ensures value { result ≡ placed out.old at (reason_text number) }
    ensures out_after { out.new ≡ printed out.old at (reason_text number) }
{
    match number {
        8 => text_print::fixed(
            out,
            at,
            b"`done` with no loop open, or `stop` with one open",
        ),
        9 => text_print::fixed(
            out,
            at,
            b"over 2,000,000,000 clocks or 1,000,000 turns in all",
        ),
        10 => text_print::fixed(out, at, b"`stop` differs from the clocks in all"),
        11 => text_print::fixed(out, at, b"the log has no such item"),
        12 => text_print::fixed(out, at, b"no loop line begins there"),
        13 => text_print::fixed(out, at, b"a count over 4,000,000,000"),
        14 => text_print::fixed(out, at, b"unknown key, or one that is not allowed here"),
        _ => text_print::fixed(out, at, b"value not of its shape"),
    }
}

// Of one from 16 to 23.
fn third(out: &mut [u8], at: usize, number: u8) -> usize
    requires { (16 ≤ number) × (number < 24) }
    ensures value { result ≡ placed out.old at (reason_text number) }
    ensures out_after { out.new ≡ printed out.old at (reason_text number) }
{
    match number {
        16 => text_print::fixed(out, at, b"value outside its range"),
        17 => text_print::fixed(out, at, b"line feed missing"),
        18 => text_print::fixed(out, at, b"`stop` missing"),
        19 => text_print::fixed(out, at, b"something after `stop`"),
        20 => text_print::fixed(out, at, b"level above 127"),
        21 => text_print::fixed(out, at, b"address outside 32768..65535"),
        22 => text_print::fixed(out, at, b"length above 4081"),
        _ => text_print::fixed(out, at, b"buffer shorter than the length"),
    }
}

// Of one from 24 to 31.
fn fourth(out: &mut [u8], at: usize, number: u8) -> usize
    requires { (24 ≤ number) × (number < 32) }
    ensures value { result ≡ placed out.old at (reason_text number) }
    ensures out_after { out.new ≡ printed out.old at (reason_text number) }
{
    match number {
        24 => text_print::fixed(out, at, b"no such channel"),
        25 => text_print::fixed(out, at, b"unknown command"),
        26 => text_print::fixed(out, at, b"register not among 00..13, 15, 17"),
        27 => text_print::fixed(out, at, b"the stream ends before its end command"),
        28 => text_print::fixed(
            out,
            at,
            b"the log is longer than the buffer or 60,000 bytes",
        ),
        29 => text_print::fixed(out, at, b"a level above 32,767"),
        30 => text_print::fixed(
            out,
            at,
            b"the repaired log is longer than the buffer or 60,000 bytes",
        ),
        _ => text_print::fixed(out, at, b"the list has no room"),
    }
}

// Of any other.
fn last(out: &mut [u8], at: usize, number: u8) -> usize
    requires { 32 ≤ number }
    ensures value { result ≡ placed out.old at (reason_text number) }
    ensures out_after { out.new ≡ printed out.old at (reason_text number) }
{
    match number {
        32 => text_print::fixed(out, at, b"buffer shorter than the log"),
        33 => text_print::fixed(out, at, b"rate outside 8000..192000"),
        34 => text_print::fixed(out, at, b"a sample block outside 8000..ffff"),
        35 => text_print::fixed(
            out,
            at,
            b"the header of the VGM file says no place for commands",
        ),
        36 => text_print::fixed(out, at, b"a VGM file for two chips"),
        _ => text_print::fixed(out, at, b"refused"),
    }
}

// The words where they fit, and the place behind them.
pub fn reason(out: &mut [u8], at: usize, number: u8) -> usize
    ensures value { result ≡ placed out.old at (reason_text number) }
    ensures out_after { out.new ≡ printed out.old at (reason_text number) }
{
    if number < 8 {
        return first(out, at, number);
    }
    if number < 16 {
        return second(out, at, number);
    }
    if number < 24 {
        return third(out, at, number);
    }
    if number < 32 {
        return fourth(out, at, number);
    }
    last(out, at, number)
}
