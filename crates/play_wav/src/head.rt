// The head of a file, 44 bytes in four parts.
ghost use Rattle.std.specs.Prelude.{◌≡◌, ◌≤◌, length};
ghost use Rattle.std.proofs.lemmas.List.Edits.{sets};
ghost use Rattle.wav_rules.specs.Sound.{wav_head};
ghost use Rattle.play_wav.specs.Head.{riff_part, form_part, rate_part, data_part};

use c_bytes::number;

// The file's own name and size.
fn put_riff(count: u32, out: &mut [u8])
    requires { 44 ≤ length out.old }
    ensures { out.new ≡ sets out.old 0 (riff_part count) }
{
    text_print::fixed(out, 0, b"RIFF");
    number::put_wide(out, 4, 4, 36 + 2 * count as u64);
    text_print::fixed(out, 8, b"WAVEfmt ");
}

// The form: 16 bytes, PCM, one channel.
fn put_form(out: &mut [u8])
    ensures { out.new ≡ sets out.old 16 form_part }
{
    number::put_wide(out, 16, 4, 16);
    number::put_wide(out, 20, 2, 1);
    number::put_wide(out, 22, 2, 1);
}

// Samples and bytes a second, two bytes at a time, 16 bits.
fn put_rate(rate: u32, out: &mut [u8])
    ensures { out.new ≡ sets out.old 24 (rate_part rate) }
{
    number::put_wide(out, 24, 4, rate as u64);
    number::put_wide(out, 28, 4, 2 * rate as u64);
    number::put_wide(out, 32, 2, 2);
    number::put_wide(out, 34, 2, 16);
}

// The data's name and size.
fn put_data(count: u32, out: &mut [u8])
    requires { 44 ≤ length out.old }
    ensures { out.new ≡ sets out.old 36 (data_part count) }
{
    text_print::fixed(out, 36, b"data");
    number::put_wide(out, 40, 4, 2 * count as u64);
}

// The whole head.
pub(crate) fn put(rate: u32, count: u32, out: &mut [u8])
    requires { 44 ≤ length out.old }
    ensures { out.new ≡ sets out.old 0 (wav_head rate count) }
{
    put_riff(count, out);
    put_form(out);
    put_rate(rate, out);
    put_data(count, out);
}
