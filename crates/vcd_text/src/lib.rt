// The lines of a VCD, written into lent bytes: a time, and the value of a variable by its one-letter code.
#![tactic(auto)]

ghost use Rattle.std.specs.Prelude.{◌≡◌, ◌+◌, ◌%◌, ◌≤◌, ◌∷◌, ◌++◌, length};
ghost use Rattle.std.proofs.lemmas.List.Edits.{sets};
ghost use Rattle.text.specs.Ascii.{bytes};
ghost use Rattle.text.specs.Decimal.{digits_of};
ghost use Rattle.text_print.specs.Printed.{printed, placed};
ghost use Rattle.text_lines.specs.Puts.{Puts};
ghost use Rattle.vcd_text.specs.Lines.{time_line, binary_text, value_line};

// A number in decimal. Of one with more than ten digits `decimal` writes the last ten; those before them are the decimal of what they leave.
fn long_decimal(out: &mut [u8], at: usize, n: u64) -> usize
    ensures { Puts out.old at (digits_of 20 n) out.new result }
{
    if n < 10000000000 {
        return text_print::decimal(out, at, n);
    }
    let a = text_print::decimal(out, at, n / 10000000000);
    text_print::decimal(out, a, n)
}

fn time_line(out: &mut [u8], at: usize, time: u64) -> usize
    ensures { Puts out.old at (time_line time) out.new result }
{
    let a = text_print::fixed(out, at, b"#");
    let b = long_decimal(out, a, time);
    text_print::fixed(out, b, b"\n")
}

// `#TIME` where it fits, and the place behind it.
pub fn put_time(out: &mut [u8], at: usize, time: u64) -> usize
    ensures value { result ≡ placed out.old at (time_line time) }
    ensures out_after { out.new ≡ printed out.old at (time_line time) }
{
    let mut text = [0u8; 22];
    let n = time_line(&mut text, 0, time);
    text_print::fixed(out, at, &text[..n])
}

// The last binary digit of a number.
fn last_bit(n: u64) -> u8
    ensures { result ≡ 48 + n % 2 }
{
    48 + (n % 2) as u8
}

// The last w binary digits of a number from a place on, the last one first.
fn bits(out: &mut [u8], at: usize, w: usize, n: u64)
    requires { at + w ≤ length out.old }
    ensures { out.new ≡ sets out.old at (binary_text w n) }
{
    let mut left = n;
    for i in (0..w).rev() {
        out[at + i] = last_bit(left);
        left /= 2;
    }
}

// The same where they fit, and the place behind them.
fn put_bits(out: &mut [u8], at: usize, width: u8, n: u64) -> usize
    ensures value { result ≡ placed out.old at (binary_text width n) }
    ensures out_after { out.new ≡ printed out.old at (binary_text width n) }
{
    let w = width as usize;
    if !text_print::fits(out.len(), at, w) {
        return at;
    }
    bits(out, at, w, n);
    at + w
}

// `0CODE` or `1CODE` where it fits, and the place behind it.
fn bit_line(out: &mut [u8], at: usize, code: u8, value: u64) -> usize
    ensures value { result ≡ placed out.old at ((48 + value % 2) ∷ code ∷ bytes "\n") }
    ensures out_after { out.new ≡ printed out.old at ((48 + value % 2) ∷ code ∷ bytes "\n") }
{
    let bit = last_bit(value);
    let text = [bit, code, b'\n'];
    text_print::fixed(out, at, &text)
}

fn bits_line(out: &mut [u8], at: usize, width: u8, code: u8, value: u64) -> usize
    ensures { Puts out.old at (bytes "b" ++ (binary_text width value ++ (bytes " " ++ (code ∷ bytes "\n")))) out.new result }
{
    let a = text_print::fixed(out, at, b"b");
    let b = put_bits(out, a, width, value);
    let text = [b' ', code, b'\n'];
    text_print::fixed(out, b, &text)
}

// `bBITS CODE` where it fits, and the place behind it.
fn put_wide(out: &mut [u8], at: usize, width: u8, code: u8, value: u64) -> usize
    ensures value { result ≡ placed out.old at (bytes "b" ++ (binary_text width value ++ (bytes " " ++ (code ∷ bytes "\n")))) }
    ensures out_after { out.new ≡ printed out.old at (bytes "b" ++ (binary_text width value ++ (bytes " " ++ (code ∷ bytes "\n")))) }
{
    let mut text = [0u8; 259];
    let n = bits_line(&mut text, 0, width, code, value);
    text_print::fixed(out, at, &text[..n])
}

// A value of `width` bits where it fits, and the place behind it: `0CODE` or `1CODE` for one bit, else `bBITS CODE`.
pub fn put_value(out: &mut [u8], at: usize, width: u8, code: u8, value: u64) -> usize
    ensures value { result ≡ placed out.old at (value_line width code value) }
    ensures out_after { out.new ≡ printed out.old at (value_line width code value) }
{
    if width == 1 {
        return bit_line(out, at, code, value);
    }
    put_wide(out, at, width, code, value)
}
