// The parts of a state, read from bytes: each function reads the part whose first byte stands at `at`.
#![tactic(auto, unfolding(c_state::specs::Bytes::square_of, c_state::specs::Bytes::triangle_of, c_state::specs::Bytes::noise_of, c_state::specs::Bytes::dmc_of, c_state::specs::Bytes::frame_of))]

ghost use Rattle.std.specs.Prelude.{◌≡◌};
ghost use Rattle.c_state.specs.Bytes.{square_of, triangle_of, noise_of, dmc_of, frame_of};

use c_bytes::field;
use chip_dmc::Dmc;
use chip_dmc_output::Output;
use chip_dmc_reader::{Reader, Registers};
use chip_envelope::Envelope;
use chip_frame::Frame;
use chip_length::Length;
use chip_linear::Linear;
use chip_noise::{Noise, Shifter};
use chip_square::Square;
use chip_sweep::Sweep;
use chip_timer::Timer;
use chip_triangle::Triangle;

fn square_sequencer(b: &[u8], at: usize) -> chip_square::Sequencer
    ensures { result ≡ (square_of b.now at).sequencer }
{
    chip_square::Sequencer {
        timer: Timer {
            period: field::pair_after(b, at, 10),
            count: field::pair_after(b, at, 12),
        },
        half: field::flag_after(b, at, 14),
        position: field::byte_after(b, at, 15),
    }
}

fn square_envelope(b: &[u8], at: usize) -> Envelope
    ensures { result ≡ (square_of b.now at).envelope }
{
    Envelope {
        looped: field::flag_after(b, at, 1),
        constant: field::flag_after(b, at, 2),
        n: field::byte_after(b, at, 3),
        start: field::flag_after(b, at, 16),
        divider: field::byte_after(b, at, 17),
        counter: field::byte_after(b, at, 18),
    }
}

fn square_sweep(b: &[u8], at: usize) -> Sweep
    ensures { result ≡ (square_of b.now at).sweep }
{
    Sweep {
        enable: field::flag_after(b, at, 4),
        negate: field::flag_after(b, at, 5),
        period: field::byte_after(b, at, 6),
        shift: field::byte_after(b, at, 7),
        written: field::flag_after(b, at, 8),
        divider: field::byte_after(b, at, 9),
    }
}

pub(crate) fn square_at(b: &[u8], at: usize) -> Square
    ensures { result ≡ square_of b.now at }
{
    Square {
        duty: field::byte_at(b, at),
        sequencer: square_sequencer(b, at),
        envelope: square_envelope(b, at),
        sweep: square_sweep(b, at),
        length: Length {
            count: field::byte_after(b, at, 19),
            enabled: field::flag_after(b, at, 20),
        },
    }
}

fn triangle_linear(b: &[u8], at: usize) -> Linear
    ensures { result ≡ (triangle_of b.now at).linear }
{
    Linear {
        control: field::flag_at(b, at),
        reload: field::byte_after(b, at, 1),
        count: field::byte_after(b, at, 2),
        halt: field::flag_after(b, at, 3),
    }
}

fn triangle_sequencer(b: &[u8], at: usize) -> chip_triangle::Sequencer
    ensures { result ≡ (triangle_of b.now at).sequencer }
{
    chip_triangle::Sequencer {
        timer: Timer {
            period: field::pair_after(b, at, 4),
            count: field::pair_after(b, at, 6),
        },
        position: field::byte_after(b, at, 8),
    }
}

pub(crate) fn triangle_at(b: &[u8], at: usize) -> Triangle
    ensures { result ≡ triangle_of b.now at }
{
    Triangle {
        sequencer: triangle_sequencer(b, at),
        linear: triangle_linear(b, at),
        length: Length {
            count: field::byte_after(b, at, 9),
            enabled: field::flag_after(b, at, 10),
        },
    }
}

// A square's envelope stands with a gap between its flags and its counters, so it has a function of its own.
fn noise_envelope(b: &[u8], at: usize) -> Envelope
    ensures { result ≡ (noise_of b.now at).envelope }
{
    Envelope {
        looped: field::flag_at(b, at),
        constant: field::flag_after(b, at, 1),
        n: field::byte_after(b, at, 2),
        start: field::flag_after(b, at, 3),
        divider: field::byte_after(b, at, 4),
        counter: field::byte_after(b, at, 5),
    }
}

pub(crate) fn noise_at(b: &[u8], at: usize) -> Noise
    ensures { result ≡ noise_of b.now at }
{
    Noise {
        mode: field::flag_after(b, at, 8),
        index: field::byte_after(b, at, 9),
        shifter: Shifter {
            timer: field::pair_after(b, at, 10),
            register: field::pair_after(b, at, 12),
        },
        envelope: noise_envelope(b, at),
        length: Length {
            count: field::byte_after(b, at, 6),
            enabled: field::flag_after(b, at, 7),
        },
    }
}

fn dmc_registers(b: &[u8], at: usize) -> Registers
    ensures { result ≡ (dmc_of b.now at).registers }
{
    Registers {
        enable: field::flag_at(b, at),
        looped: field::flag_after(b, at, 1),
        index: field::byte_after(b, at, 2),
        start: field::byte_after(b, at, 6),
        size: field::byte_after(b, at, 7),
    }
}

fn dmc_output(b: &[u8], at: usize) -> Output
    ensures { result ≡ (dmc_of b.now at).output }
{
    Output {
        timer: field::pair_after(b, at, 3),
        level: field::byte_after(b, at, 5),
        shift: field::byte_after(b, at, 14),
        bits: field::byte_after(b, at, 15),
        silence: field::flag_after(b, at, 16),
    }
}

fn dmc_reader(b: &[u8], at: usize) -> Reader
    ensures { result ≡ (dmc_of b.now at).reader }
{
    Reader {
        address: field::pair_after(b, at, 8),
        remaining: field::pair_after(b, at, 10),
        buffer: field::byte_after(b, at, 12),
        full: field::flag_after(b, at, 13),
        interrupt: field::flag_after(b, at, 17),
    }
}

pub(crate) fn dmc_at(b: &[u8], at: usize) -> Dmc
    ensures { result ≡ dmc_of b.now at }
{
    Dmc {
        registers: dmc_registers(b, at),
        output: dmc_output(b, at),
        reader: dmc_reader(b, at),
    }
}

pub(crate) fn frame_at(b: &[u8], at: usize) -> Frame
    ensures { result ≡ frame_of b.now at }
{
    Frame {
        mode: field::flag_at(b, at),
        disable: field::flag_after(b, at, 1),
        clock: field::pair_after(b, at, 2),
        interrupt: field::flag_after(b, at, 4),
    }
}
