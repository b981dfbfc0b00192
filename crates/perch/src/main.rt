// The program for daily work: `perch VERB`, and what the verb asks for. A verb answers whether all that it was to write to standard output was written;
// where its input can't be read or its words are wrong, that is nothing.
#![tactic(auto)]

mod arguments;
mod check;
mod dwells;
mod fold;
mod import;
mod interrupts;
mod machine;
mod memory;
mod meters;
mod playing;
mod recordings;
mod refused;
mod salvage;
mod samples;
mod sheet;
mod sound;
mod states;
mod trace;
mod usage;
mod why;

use recordings::{Asked, Played};

// Runs a verb that is given as many words as it asks for, the program's name and the verb among them.
fn run(rt: &HostRuntime, verb: &[u8], words: usize) -> bool {
    if words < 2 {
        return usage::usage(&mut rt.stdout());
    }
    if words == 2 && text::exact(verb, b"help") {
        return usage::usage(&mut rt.stdout());
    }
    if words == 2 && text::exact(verb, b"version") {
        return usage::version(rt);
    }
    if words == 2 && text::exact(verb, b"check") {
        return recordings::answer(rt, Asked::Check);
    }
    if words == 2 && text::exact(verb, b"fold") {
        return fold::fold(rt);
    }
    if words == 2 && text::exact(verb, b"import") {
        return recordings::answer(rt, Asked::Import);
    }
    if words == 2 && text::exact(verb, b"salvage") {
        return salvage::salvage(rt);
    }
    if words == 2 && text::exact(verb, b"samples") {
        return recordings::answer(rt, Asked::Samples);
    }
    if words == 2 && text::exact(verb, b"play") {
        return recordings::play(rt, Played::Play);
    }
    if words == 3 && text::exact(verb, b"why") {
        return why::why(rt);
    }
    if words == 3 && text::exact(verb, b"at") {
        return states::at(rt);
    }
    if words == 4 && text::exact(verb, b"vcd") {
        return trace::vcd(rt);
    }
    if words == 2 && text::exact(verb, b"wav") {
        return sound::at_rate(rt, 44100);
    }
    if words == 3 && text::exact(verb, b"wav") {
        return sound::asked(rt);
    }
    if words == 2 && text::exact(verb, b"meter") {
        return meters::meter(rt, false);
    }
    if words == 3 && text::exact(verb, b"meter") {
        return meters::asked(rt);
    }
    if words == 2 && text::exact(verb, b"interrupts") {
        return recordings::play(rt, Played::Interrupts);
    }
    if words == 2 && text::exact(verb, b"dwell") {
        return recordings::play(rt, Played::Dwell);
    }
    if text::exact(verb, b"sheet") {
        return sheet::sheet(rt, words);
    }
    usage::usage(&mut rt.stderr());
    true
}

// A word that is longer than any verb reads as an empty one.
fn main(rt: HostRuntime) {
    let mut word = [0u8; 16];
    let n = arguments::word(&rt, 1, &mut word);
    program_io::end(&rt, b"perch", run(&rt, &word[..n], arguments::count(&rt)));
}
