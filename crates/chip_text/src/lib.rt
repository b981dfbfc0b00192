// A state in words: a line for each of its fields.
#![tactic(auto)]

ghost use Rattle.std.specs.Prelude.{◌≡◌};
ghost use Rattle.text_print.specs.Printed.{printed, placed};
ghost use Rattle.text_lines.specs.Puts.{Puts};
ghost use Rattle.chip_text.specs.Text.{field_line, flag_line, volume_lines, envelope_lines, sweep_register_lines, sweep_lines, timer_lines, length_lines, sequencer_lines, square_lines};
ghost use Rattle.chip_text.specs.Text.{linear_lines, triangle_lines, shifter_lines, noise_lines, dmc_rate_lines, dmc_start_lines, dmc_reader_lines, dmc_shift_lines, dmc_lines, frame_lines, state_text};

use chip::State;
use chip_dmc::Dmc;
use chip_envelope::Envelope;
use chip_frame::Frame;
use chip_length::Length;
use chip_linear::Linear;
use chip_noise::Noise;
use chip_square::{Sequencer, Square};
use chip_sweep::Sweep;
use chip_timer::Timer;
use chip_triangle::Triangle;

// `CHANNEL.KEYN` of a field of two bytes.
fn word_line(out: &mut [u8], at: usize, channel: &[u8], key: &[u8], n: u16) -> usize
    ensures { Puts out.old at (field_line channel.now key.now n) out.new result }
{
    let a = text_print::fixed(out, at, channel);
    text_lines::keyed_line(out, a, key, n.into())
}

// Of one byte.
fn byte_line(out: &mut [u8], at: usize, channel: &[u8], key: &[u8], n: u8) -> usize
    ensures { Puts out.old at (field_line channel.now key.now n) out.new result }
{
    word_line(out, at, channel, key, n.into())
}

// Of a flag.
fn flag_line(out: &mut [u8], at: usize, channel: &[u8], key: &[u8], flag: bool) -> usize
    ensures { Puts out.old at (flag_line channel.now key.now flag) out.new result }
{
    byte_line(out, at, channel, key, flag.into())
}

// Loop, constant and n.
fn volume_lines(out: &mut [u8], at: usize, channel: &[u8], e: Envelope) -> usize
    ensures { Puts out.old at (volume_lines channel.now e) out.new result }
{
    let a = flag_line(out, at, channel, b"loop=", e.looped);
    let b = flag_line(out, a, channel, b"constant=", e.constant);
    byte_line(out, b, channel, b"n=", e.n)
}

// The envelope's start flag, divider and counter.
fn envelope_lines(out: &mut [u8], at: usize, channel: &[u8], e: Envelope) -> usize
    ensures { Puts out.old at (envelope_lines channel.now e) out.new result }
{
    let a = flag_line(out, at, channel, b"envelope_start=", e.start);
    let b = byte_line(out, a, channel, b"envelope_divider=", e.divider);
    byte_line(out, b, channel, b"envelope_counter=", e.counter)
}

// The sweep as its register has it.
fn sweep_register_lines(out: &mut [u8], at: usize, channel: &[u8], w: Sweep) -> usize
    ensures { Puts out.old at (sweep_register_lines channel.now w) out.new result }
{
    let a = flag_line(out, at, channel, b"sweep_enable=", w.enable);
    let b = flag_line(out, a, channel, b"negate=", w.negate);
    let c = byte_line(out, b, channel, b"sweep_period=", w.period);
    byte_line(out, c, channel, b"sweep_shift=", w.shift)
}

// The whole sweep.
fn sweep_lines(out: &mut [u8], at: usize, channel: &[u8], w: Sweep) -> usize
    ensures { Puts out.old at (sweep_lines channel.now w) out.new result }
{
    let a = sweep_register_lines(out, at, channel, w);
    let b = flag_line(out, a, channel, b"sweep_written=", w.written);
    byte_line(out, b, channel, b"sweep_divider=", w.divider)
}

// Period and timer.
fn timer_lines(out: &mut [u8], at: usize, channel: &[u8], t: Timer) -> usize
    ensures { Puts out.old at (timer_lines channel.now t) out.new result }
{
    let a = word_line(out, at, channel, b"period=", t.period);
    word_line(out, a, channel, b"timer=", t.count)
}

// Length and enabled.
fn length_lines(out: &mut [u8], at: usize, channel: &[u8], l: Length) -> usize
    ensures { Puts out.old at (length_lines channel.now l) out.new result }
{
    let a = byte_line(out, at, channel, b"length=", l.count);
    flag_line(out, a, channel, b"enabled=", l.enabled)
}

// A square's timer, and what it moves.
fn sequencer_lines(out: &mut [u8], at: usize, channel: &[u8], q: Sequencer) -> usize
    ensures { Puts out.old at (sequencer_lines channel.now q) out.new result }
{
    let a = timer_lines(out, at, channel, q.timer);
    let b = flag_line(out, a, channel, b"half=", q.half);
    byte_line(out, b, channel, b"position=", q.position)
}

// A square.
fn square_lines(out: &mut [u8], at: usize, channel: &[u8], q: Square) -> usize
    ensures { Puts out.old at (square_lines channel.now q) out.new result }
{
    let a = byte_line(out, at, channel, b"duty=", q.duty);
    let b = volume_lines(out, a, channel, q.envelope);
    let c = sweep_lines(out, b, channel, q.sweep);
    let d = sequencer_lines(out, c, channel, q.sequencer);
    let e = envelope_lines(out, d, channel, q.envelope);
    length_lines(out, e, channel, q.length)
}

// The linear counter.
fn linear_lines(out: &mut [u8], at: usize, channel: &[u8], l: Linear) -> usize
    ensures { Puts out.old at (linear_lines channel.now l) out.new result }
{
    let a = flag_line(out, at, channel, b"control=", l.control);
    let b = byte_line(out, a, channel, b"reload=", l.reload);
    let c = byte_line(out, b, channel, b"linear=", l.count);
    flag_line(out, c, channel, b"linear_halt=", l.halt)
}

// The triangle.
fn triangle_lines(out: &mut [u8], at: usize, channel: &[u8], t: Triangle) -> usize
    ensures { Puts out.old at (triangle_lines channel.now t) out.new result }
{
    let a = linear_lines(out, at, channel, t.linear);
    let b = timer_lines(out, a, channel, t.sequencer.timer);
    let c = byte_line(out, b, channel, b"position=", t.sequencer.position);
    length_lines(out, c, channel, t.length)
}

// The noise's mode, index, timer and shift register.
fn shifter_lines(out: &mut [u8], at: usize, channel: &[u8], n: Noise) -> usize
    ensures { Puts out.old at (shifter_lines channel.now n) out.new result }
{
    let a = flag_line(out, at, channel, b"mode=", n.mode);
    let b = byte_line(out, a, channel, b"index=", n.index);
    let c = word_line(out, b, channel, b"timer=", n.shifter.timer);
    word_line(out, c, channel, b"shift_register=", n.shifter.register)
}

// The noise.
fn noise_lines(out: &mut [u8], at: usize, channel: &[u8], n: Noise) -> usize
    ensures { Puts out.old at (noise_lines channel.now n) out.new result }
{
    let a = volume_lines(out, at, channel, n.envelope);
    let b = envelope_lines(out, a, channel, n.envelope);
    let c = length_lines(out, b, channel, n.length);
    shifter_lines(out, c, channel, n)
}

// The DMC's interrupt enable, loop, index and timer.
fn dmc_rate_lines(out: &mut [u8], at: usize, channel: &[u8], d: Dmc) -> usize
    ensures { Puts out.old at (dmc_rate_lines channel.now d) out.new result }
{
    let a = flag_line(out, at, channel, b"interrupt_enable=", d.registers.enable);
    let b = flag_line(out, a, channel, b"loop=", d.registers.looped);
    let c = byte_line(out, b, channel, b"index=", d.registers.index);
    word_line(out, c, channel, b"timer=", d.output.timer)
}

// Its level, address byte and length byte.
fn dmc_start_lines(out: &mut [u8], at: usize, channel: &[u8], d: Dmc) -> usize
    ensures { Puts out.old at (dmc_start_lines channel.now d) out.new result }
{
    let a = byte_line(out, at, channel, b"level=", d.output.level);
    let b = byte_line(out, a, channel, b"address_byte=", d.registers.start);
    byte_line(out, b, channel, b"length_byte=", d.registers.size)
}

// Its address, remaining and buffer.
fn dmc_reader_lines(out: &mut [u8], at: usize, channel: &[u8], d: Dmc) -> usize
    ensures { Puts out.old at (dmc_reader_lines channel.now d) out.new result }
{
    let a = word_line(out, at, channel, b"address=", d.reader.address);
    let b = word_line(out, a, channel, b"remaining=", d.reader.remaining);
    let c = byte_line(out, b, channel, b"buffer=", d.reader.buffer);
    flag_line(out, c, channel, b"full=", d.reader.full)
}

// Its shift byte, bits, silence and interrupt flag.
fn dmc_shift_lines(out: &mut [u8], at: usize, channel: &[u8], d: Dmc) -> usize
    ensures { Puts out.old at (dmc_shift_lines channel.now d) out.new result }
{
    let a = byte_line(out, at, channel, b"shift_byte=", d.output.shift);
    let b = byte_line(out, a, channel, b"bits=", d.output.bits);
    let c = flag_line(out, b, channel, b"silence=", d.output.silence);
    flag_line(out, c, channel, b"interrupt=", d.reader.interrupt)
}

// The DMC.
fn dmc_lines(out: &mut [u8], at: usize, channel: &[u8], d: Dmc) -> usize
    ensures { Puts out.old at (dmc_lines channel.now d) out.new result }
{
    let a = dmc_rate_lines(out, at, channel, d);
    let b = dmc_start_lines(out, a, channel, d);
    let c = dmc_reader_lines(out, b, channel, d);
    dmc_shift_lines(out, c, channel, d)
}

// The frame.
fn frame_lines(out: &mut [u8], at: usize, channel: &[u8], f: Frame) -> usize
    ensures { Puts out.old at (frame_lines channel.now f) out.new result }
{
    let a = flag_line(out, at, channel, b"mode=", f.mode);
    let b = flag_line(out, a, channel, b"disable=", f.disable);
    let c = word_line(out, b, channel, b"clock=", f.clock);
    flag_line(out, c, channel, b"interrupt=", f.interrupt)
}

// Every field.
fn fields(out: &mut [u8], at: usize, s: State) -> usize
    ensures { Puts out.old at (state_text s) out.new result }
{
    let a = square_lines(out, at, b"square1.", s.square1);
    let b = square_lines(out, a, b"square2.", s.square2);
    let c = triangle_lines(out, b, b"triangle.", s.triangle);
    let d = noise_lines(out, c, b"noise.", s.noise);
    let e = dmc_lines(out, d, b"dmc.", s.dmc);
    frame_lines(out, e, b"frame.", s.frame)
}

// The same where it fits, and the place behind it.
pub fn put(out: &mut [u8], at: usize, s: State) -> usize
    ensures value { result ≡ placed out.old at (state_text s) }
    ensures out_after { out.new ≡ printed out.old at (state_text s) }
{
    let mut text = [0u8; 2560];
    let n = fields(&mut text, 0, s);
    text_print::fixed(out, at, &text[..n])
}
