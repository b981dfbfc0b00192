// The parts of a state as bytes.
#![tactic(auto, unfolding(c_state::specs::Bytes::square_bytes, c_state::specs::Bytes::triangle_bytes, c_state::specs::Bytes::noise_bytes, c_state::specs::Bytes::dmc_bytes, c_state::specs::Bytes::frame_bytes))]

ghost use Rattle.std.specs.Prelude.{◌≡◌};
ghost use Rattle.c_state.specs.Bytes.{square_bytes, triangle_bytes, noise_bytes, dmc_bytes, frame_bytes};

use c_bytes::field;
use chip_dmc::Dmc;
use chip_frame::Frame;
use chip_noise::Noise;
use chip_square::Square;
use chip_triangle::Triangle;

pub(crate) fn square_bytes(s: Square) -> [u8; 21]
    ensures { result ≡ square_bytes s }
{
    [
        s.duty,
        field::flag_byte(s.envelope.looped),
        field::flag_byte(s.envelope.constant),
        s.envelope.n,
        field::flag_byte(s.sweep.enable),
        field::flag_byte(s.sweep.negate),
        s.sweep.period,
        s.sweep.shift,
        field::flag_byte(s.sweep.written),
        s.sweep.divider,
        field::low_byte(s.sequencer.timer.period),
        field::high_byte(s.sequencer.timer.period),
        field::low_byte(s.sequencer.timer.count),
        field::high_byte(s.sequencer.timer.count),
        field::flag_byte(s.sequencer.half),
        s.sequencer.position,
        field::flag_byte(s.envelope.start),
        s.envelope.divider,
        s.envelope.counter,
        s.length.count,
        field::flag_byte(s.length.enabled),
    ]
}

pub(crate) fn triangle_bytes(t: Triangle) -> [u8; 11]
    ensures { result ≡ triangle_bytes t }
{
    [
        field::flag_byte(t.linear.control),
        t.linear.reload,
        t.linear.count,
        field::flag_byte(t.linear.halt),
        field::low_byte(t.sequencer.timer.period),
        field::high_byte(t.sequencer.timer.period),
        field::low_byte(t.sequencer.timer.count),
        field::high_byte(t.sequencer.timer.count),
        t.sequencer.position,
        t.length.count,
        field::flag_byte(t.length.enabled),
    ]
}

pub(crate) fn noise_bytes(c: Noise) -> [u8; 14]
    ensures { result ≡ noise_bytes c }
{
    [
        field::flag_byte(c.envelope.looped),
        field::flag_byte(c.envelope.constant),
        c.envelope.n,
        field::flag_byte(c.envelope.start),
        c.envelope.divider,
        c.envelope.counter,
        c.length.count,
        field::flag_byte(c.length.enabled),
        field::flag_byte(c.mode),
        c.index,
        field::low_byte(c.shifter.timer),
        field::high_byte(c.shifter.timer),
        field::low_byte(c.shifter.register),
        field::high_byte(c.shifter.register),
    ]
}

pub(crate) fn dmc_bytes(d: Dmc) -> [u8; 18]
    ensures { result ≡ dmc_bytes d }
{
    [
        field::flag_byte(d.registers.enable),
        field::flag_byte(d.registers.looped),
        d.registers.index,
        field::low_byte(d.output.timer),
        field::high_byte(d.output.timer),
        d.output.level,
        d.registers.start,
        d.registers.size,
        field::low_byte(d.reader.address),
        field::high_byte(d.reader.address),
        field::low_byte(d.reader.remaining),
        field::high_byte(d.reader.remaining),
        d.reader.buffer,
        field::flag_byte(d.reader.full),
        d.output.shift,
        d.output.bits,
        field::flag_byte(d.output.silence),
        field::flag_byte(d.reader.interrupt),
    ]
}

// With the machine behind it.
pub(crate) fn frame_bytes(f: Frame, pal: bool) -> [u8; 6]
    ensures { result ≡ frame_bytes f pal }
{
    [
        field::flag_byte(f.mode),
        field::flag_byte(f.disable),
        field::low_byte(f.clock),
        field::high_byte(f.clock),
        field::flag_byte(f.interrupt),
        field::flag_byte(pal),
    ]
}
