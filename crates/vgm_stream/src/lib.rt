// The command part of a VGM file, read byte by byte.
#![tactic(auto)]

ghost use Rattle.std.specs.Prelude.{◌≡◌};
ghost use Rattle.vgm_stream.specs.Stream.{command_of, register_of, byte_step};
ghost use Rattle.vgm_stream.specs.Steps.{stops_at, awaited};

// What the next byte of a stream is: a command; behind $B4 the register, and then the value for it; behind $61 the low byte of a wait, and then
// the high byte for it.
#[derive(Clone, Copy)]
pub enum Await {
    Command,
    Register,
    Value(u8),
    Low,
    High(u8),
}

// What a command says: a wait of so many samples, or a write of a value to a register.
#[derive(Clone, Copy)]
pub enum Said {
    Wait(u16),
    Write(u16, u8),
}

// What a byte brings: the end of the stream; a fault, by its number; what is awaited next; or the last byte of a command, and what that says.
// No `Result`: `Fault` is one of four equal cases, and its place is known to the caller alone.
#[derive(Clone, Copy)]
pub enum Step {
    End,
    Fault(u8),
    Next(Await),
    Says(Said),
}

#[tactic(auto, unfolding(crate::specs::Stream::command_of))]
fn command_of(b: u8) -> Step
    ensures { result ≡ command_of b }
{
    match b {
        0xb4 => Step::Next(Await::Register),
        0x61 => Step::Next(Await::Low),
        0x62 => Step::Says(Said::Wait(735)),
        0x63 => Step::Says(Said::Wait(882)),
        0x70..=0x7f => Step::Says(Said::Wait(u16::from(b) - 0x6f)),
        0x66 => Step::End,
        _ => Step::Fault(25),
    }
}

#[tactic(auto, unfolding(crate::specs::Stream::register_of))]
fn register_of(b: u8) -> Step
    ensures { result ≡ register_of b }
{
    if bus::is_register(0x4000 + u16::from(b)) {
        Step::Next(Await::Value(b))
    } else {
        Step::Fault(26)
    }
}

// What a byte brings where so much is awaited.
#[tactic(auto, unfolding(crate::specs::Stream::byte_step))]
pub fn step_of(w: Await, b: u8) -> Step
    ensures { result ≡ byte_step w b }
{
    match w {
        Await::Command => command_of(b),
        Await::Register => register_of(b),
        Await::Value(r) => Step::Says(Said::Write(0x4000 + u16::from(r), b)),
        Await::Low => Step::Next(Await::High(b)),
        Await::High(n) => Step::Says(Said::Wait(u16::from(n) + 256 * u16::from(b))),
    }
}

// Whether a byte ends the reading: by the end, or by a fault.
#[tactic(auto, unfolding(crate::specs::Steps::stops_at))]
pub fn stops(s: Step) -> bool
    ensures { result ≡ stops_at s }
{
    matches!(s, Step::End | Step::Fault(_))
}

// What is awaited behind a byte.
#[tactic(auto, unfolding(crate::specs::Steps::awaited))]
pub fn awaits(s: Step) -> Await
    ensures { result ≡ awaited s }
{
    match s {
        Step::Next(w) => w,
        Step::End | Step::Fault(_) | Step::Says(_) => Await::Command,
    }
}
