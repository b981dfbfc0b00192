// When the interrupt line is asserted next, or one of the two flags is set, with no access between. No clock is worked: the frame's flag goes by the
// clocks to its step, the DMC's by its fetches (crate leap_line).
#![tactic(auto)]

ghost use Rattle.std.specs.Prelude.{◌≡◌, ◌≤◌};
ghost use Rattle.run_interrupt.specs.Closed.{until_of, rise_in};
ghost use Rattle.run_answer.specs.Run.{number as run_number};
ghost use Rattle.run_interrupt.specs.Next.{holds, next_interrupt, rise_number, rise_clocks, clocks_to};

use chip::State;

// What is asked for: the line, the frame's flag, or the DMC's.
#[derive(Clone, Copy)]
pub enum Asked {
    Line,
    Frame,
    Dmc,
}

// The answer: after so many clocks, 0 where it holds now; not within the count; or a refusal's number.
// No Result: the three cases are what is asked, by `next_interrupt`, and an Option in a Result would say less.
#[derive(Clone, Copy)]
pub enum Rise {
    At(u32),
    Never,
    Refused(u8),
}

// Whether it holds now.
#[tactic(auto, unfolding(crate::specs::Next::holds))]
fn is_set(s: State, a: Asked) -> bool
    ensures { result ≡ holds a s }
{
    match a {
        Asked::Line => s.asserts(),
        Asked::Frame => s.frame.interrupt,
        Asked::Dmc => s.dmc.reader.interrupt,
    }
}

// The clocks up to the one that sets it, 0 being never.
#[tactic(auto, unfolding(crate::specs::Closed::until_of))]
fn until(s: State, a: Asked) -> u64
    ensures { result ≡ until_of a s }
{
    match a {
        Asked::Line => leap_line::until(s),
        Asked::Frame => leap_line::until_frame(s),
        Asked::Dmc => leap_line::until_dmc(s),
    }
}

// Where it doesn't hold now: after u clocks, if that is within the count.
#[tactic(auto, unfolding(crate::specs::Closed::rise_in, leap_line::specs::Until::within), using(arith::proofs::PickLaws::both_right))]
fn rise_in(u: u64, count: u64) -> Rise
    requires { count ≤ 1000000 }
    ensures { result ≡ rise_in u count }
{
    if 0 < u && u <= count {
        return Rise::At(u as u32);
    }
    Rise::Never
}

// The number of an answer: 0, or the refusal's.
pub fn number(r: Rise) -> u8
    ensures { result ≡ rise_number r }
{
    match r {
        Rise::At(_) | Rise::Never => 0,
        Rise::Refused(n) => n,
    }
}

// The clocks of an answer; 0 where there are none.
pub fn clocks(r: Rise) -> u32
    ensures { result ≡ rise_clocks r }
{
    match r {
        Rise::At(k) => k,
        Rise::Never | Rise::Refused(_) => 0,
    }
}

// The least k from 0 to the count such that it holds after k clocks, or that there is none. Refused: 1, 2, 3.
pub fn next_interrupt(s: State, memory: &[u8], count: u64, a: Asked) -> Rise
    ensures value { result ≡ next_interrupt a memory.now s count }
    ensures result_value { rise_number result ≡ run_number memory.now s count }
    ensures result_value_2 { rise_clocks result ≡ clocks_to a memory.now s count }
{
    let number = run_answer::number_of(s, memory, count);
    if number != 0 {
        return Rise::Refused(number);
    }
    if is_set(s, a) {
        return Rise::At(0);
    }
    let u = until(s, a);
    rise_in(u, count)
}
