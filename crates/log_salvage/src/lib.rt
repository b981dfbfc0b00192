// A damaged log repaired into lent bytes, with a list of what was done in lent words. One pass decides line by line; it is made twice, first with
// nothing lent to it, which measures, so that a refused call writes nothing.
#![tactic(auto)]

ghost use Rattle.std.specs.Prelude.{◌≡◌, List, [], ◌∷◌, ℕ, ◌+◌, ◌-◌, ◌*◌, ◌≤◌, ◌<◌, length, take, drop};
ghost use Rattle.arith.specs.Pick.{pick};
ghost use Rattle.text_print.specs.Printed.{printed};
ghost use Rattle.log_rules.specs.Tree as Tree;
ghost use Rattle.log_rules.specs.Tree.{act_clocks};
ghost use Rattle.log_salvage_rules.specs.Entries.{list_words};
ghost use Rattle.log_rules.specs.Lines.{lines_of};
ghost use Rattle.log_salvage_rules.specs.Mending.{Kept, kept_tree, deeper, is_stop, sift, sifted, closed_by, ended};
ghost use Rattle.log_salvage_rules.specs.Promise.{Mends};
ghost use Rattle.log_salvage_rules.proofs.SiftLaws.{Going};
ghost use Rattle.log_salvage.specs.Answer.{salvage_refusal, salvage_of, salvage_text, salvage_list};
ghost use Rattle.log_salvage.specs.Steps.{right_by, wrong_by, found_by, place_behind, more_by, opened_by, tally_line, tally_behind, Small, Opens, OpensBy, kept_by, entries_by, head_entries, begun_by};
ghost use Rattle.log_salvage.specs.Writing.{Written, Sifts, fate_by, Bound, Stepped, Adds, Passes};

use log_fault::Stand;
use log_line::{Act, Line};
use log_read::line_end;
use log_salvage_rules::Fate;
use refusal::Refusal;

// The answer: 0, and the lengths of the repaired log in bytes and of the list in entries; or a refusal's number. The place is 0.
// Flat, with the number first, as document 01 has it: "a refusal returns its number and place, the state as given, 0 or no for the rest".
#[derive(Clone, Copy)]
pub struct Salvaged {
    pub number: u8,
    pub place: usize,
    pub length: usize,
    pub entries: usize,
}

// How the next line stands: whether it is the new log's second; the loops open; the ninth loops dropped whose `done` is still to come; and whether a
// `stop` stayed.
#[derive(Clone, Copy)]
struct Place {
    pub second: bool,
    pub depth: u64,
    pub ninths: u64,
    pub stopped: bool,
}

// The totals of what has been kept, and how often the block inside so many loops is done, each cut off just above what a log may have.
#[derive(Clone, Copy)]
struct Tally {
    pub often: [u64; 9],
    pub clocks: u64,
    pub turns: u64,
}

// What has been written so far: bytes of the new log, and entries of the list.
#[derive(Clone, Copy)]
struct Pen {
    pub bytes: usize,
    pub entries: usize,
}

// How far a pass has come.
#[derive(Clone, Copy)]
struct Sifted {
    pub pen: Pen,
    pub place: Place,
    pub tally: Tally,
}

// What a pass comes to: what it has written, and whether that is over the totals.
#[derive(Clone, Copy)]
struct Passed {
    pub pen: Pen,
    pub heavy: bool,
}

// A text from a place on, where it fits; and the place behind it.
fn put(out: &mut [u8], at: usize, text: &[u8]) -> usize
    requires { at + length text.now ≤ 4294967295 }
    ensures value { result ≡ at + length text.now }
    ensures out_after { out.new ≡ printed out.old at text.now }
{
    text_print::fixed(out, at, text);
    at + text.len()
}

// An entry behind n others, where it fits.
#[tactic(auto, using(crate::proofs::WriteLaws::two_put, crate::proofs::WriteLaws::two_not))]
fn note(list: &mut [u32], n: usize, first: usize, second: u8) -> usize
    requires { (n ≤ 4294967295) × (first ≤ 4294967295) }
    ensures value { result ≡ n + 1 }
    ensures list_after { list.new ≡ printed list.old (2 * n) (first ∷ second ∷ []) }
{
    let i = 2 * n;
    if i + 1 < list.len() {
        list[i] = first as u32;
        list[i + 1] = u32::from(second);
    }
    n + 1
}

// Why a `stop` goes.
fn end_reason(last: bool) -> u8
    ensures { result ≡ pick last 10 19 }
{
    if last { 10 } else { 19 }
}

// A line that is right where it stands.
fn right_fate(l: Line, ninths: u64, clocks: u64, last: bool) -> Fate
    ensures { result ≡ right_by l ninths clocks last }
{
    match l {
        Line::Stop(n) if last && u64::from(n) == clocks => Fate::Keep(l),
        Line::Stop(_) => Fate::Drop(end_reason(last)),
        Line::Done if 0 < ninths => Fate::NinthDone,
        Line::Header
        | Line::Machine
        | Line::One(_)
        | Line::Loop(_)
        | Line::Done
        | Line::NoForm
        | Line::NoRegister => Fate::Keep(l),
    }
}

// A line at fault by k: 8 is that of a `stop` where a loop is open, and of a `done` where none is.
fn wrong_fate(k: u8, depth: u64, last: bool) -> Fate
    ensures { result ≡ wrong_by k depth last }
{
    match k {
        7 => Fate::Ninth,
        8 if 0 < depth => Fate::Drop(end_reason(last)),
        _ => Fate::Drop(k),
    }
}

// What is done with a line of which this is found.
#[tactic(auto, unfolding(crate::specs::Steps::found_by))]
fn fate_of(f: Result<Line, Refusal>, p: Place, clocks: u64, last: bool) -> Fate
    ensures { result ≡ found_by f p clocks last }
{
    match f {
        Ok(l) => right_fate(l, p.ninths, clocks, last),
        Err(e) => wrong_fate(e.number, p.depth, last),
    }
}

// The loops open behind a line that is kept.
#[tactic(auto, unfolding(log_salvage_rules::specs::Mending::deeper))]
fn deeper(depth: u64, l: Line) -> u64
    requires { depth ≤ 8 }
    ensures { result ≡ deeper depth l }
{
    match l {
        Line::Loop(_) => depth + 1,
        Line::Done => depth.saturating_sub(1),
        Line::Header
        | Line::Machine
        | Line::One(_)
        | Line::Stop(_)
        | Line::NoForm
        | Line::NoRegister => depth,
    }
}

#[tactic(auto, unfolding(log_salvage_rules::specs::Mending::is_stop))]
fn is_stop(l: Line) -> bool
    ensures { result ≡ is_stop l }
{
    matches!(l, Line::Stop(_))
}

// How the line behind it stands.
#[tactic(auto, unfolding(crate::specs::Steps::place_behind))]
fn place_behind(p: Place, f: Fate) -> Place
    requires { (p.depth ≤ 8) × (p.ninths ≤ 60000) }
    ensures { result ≡ place_behind p f }
{
    match f {
        Fate::Keep(l) => Place {
            second: false,
            depth: deeper(p.depth, l),
            ninths: p.ninths,
            stopped: is_stop(l),
        },
        Fate::Drop(_) => p,
        Fate::Ninth => Place {
            ninths: p.ninths + 1,
            ..p
        },
        Fate::NinthDone => Place {
            ninths: p.ninths.saturating_sub(1),
            ..p
        },
    }
}

#[tactic(auto, unfolding(log_rules::specs::Tree::act_clocks))]
fn clocks_of(a: Act) -> u64
    ensures { (result ≡ act_clocks a) × (result ≤ 4294967295) }
{
    match a {
        Act::Wait(n) => u64::from(n),
        Act::Access(_) => 0,
    }
}

// So many turns more, each of so many clocks, of a block that is done w times over.
#[tactic(auto, unfolding(crate::specs::Steps::more_by))]
fn more(t: Tally, w: u64, turns: u64, clocks: u64) -> Tally
    requires { Small t × (w ≤ 2000000001) × (turns ≤ 255) × (clocks ≤ 4294967295) }
    ensures { result ≡ more_by t w turns clocks }
{
    Tally {
        clocks: (t.clocks + w * clocks).min(2000000001),
        turns: (t.turns + w * turns).min(1000001),
        ..t
    }
}

// A loop of n turns is opened where d are open.
#[tactic(auto, unfolding(crate::specs::Steps::opened_by, crate::specs::Steps::more_by))]
fn opened(t: Tally, d: usize, n: u64) -> Tally
    requires { Small t × (d < 8) × (n ≤ 255) }
    ensures { result ≡ opened_by t d n }
{
    let w = t.often[d];
    let mut s = more(t, w, n, 0);
    s.often[d + 1] = (w * n).min(2000000001);
    s
}

#[tactic(auto, unfolding(crate::specs::Steps::tally_line))]
fn acted(t: Tally, d: usize, a: Act) -> Tally
    requires { Small t × (d ≤ 8) }
    ensures { result ≡ tally_line t d (Line.One a) }
{
    more(t, t.often[d], 1, clocks_of(a))
}

// The totals behind a line that is kept where so many loops are open.
#[tactic(auto, unfolding(crate::specs::Steps::tally_line))]
fn tally_line(t: Tally, depth: u64, l: Line) -> Tally
    requires { Small t × (depth ≤ 8) × Opens depth l }
    ensures { result ≡ tally_line t depth l }
{
    let d = depth as usize;
    match l {
        Line::One(a) => acted(t, d, a),
        Line::Loop(n) => opened(t, d, u64::from(n)),
        Line::Header
        | Line::Machine
        | Line::Done
        | Line::Stop(_)
        | Line::NoForm
        | Line::NoRegister => t,
    }
}

#[tactic(auto, unfolding(crate::specs::Steps::tally_behind))]
fn tally_behind(t: Tally, depth: u64, f: Fate) -> Tally
    requires { Small t × (depth ≤ 8) × OpensBy depth f }
    ensures { result ≡ tally_behind t depth f }
{
    match f {
        Fate::Keep(l) => tally_line(t, depth, l),
        Fate::Drop(_) | Fate::Ninth | Fate::NinthDone => t,
    }
}

// The bytes of a line that are kept: all or none.
#[tactic(auto, unfolding(crate::specs::Steps::kept_by))]
fn kept(line: &[u8], f: Fate) -> &[u8]
    ensures { result.now ≡ kept_by f line.now }
{
    match f {
        Fate::Keep(_) => line,
        Fate::Drop(_) | Fate::Ninth | Fate::NinthDone => &line[..0],
    }
}

// The entry for a line that is dropped.
#[tactic(auto, using(crate::proofs::WriteLaws::printed_none), unfolding(crate::specs::Steps::entries_by, log_salvage_rules::specs::Entries::list_words, log_salvage_rules::specs::Entries::entry_words))]
fn note_fate(list: &mut [u32], n: usize, at: usize, f: Fate) -> usize
    requires { (n ≤ 4294967295) × (at ≤ 4294967295) }
    ensures value { result ≡ n + length (entries_by f at) }
    ensures list_after { list.new ≡ printed list.old (2 * n) (list_words (entries_by f at)) }
{
    match f {
        Fate::Keep(_) => n,
        Fate::Drop(k) => note(list, n, at, k),
        Fate::Ninth | Fate::NinthDone => note(list, n, at, 7),
    }
}

// The entry for `log=1`, if it is added.
#[tactic(auto, using(crate::proofs::WriteLaws::printed_none), unfolding(log_salvage_rules::specs::Entries::list_words, log_salvage_rules::specs::Entries::entry_words))]
fn note_head(list: &mut [u32], headed: bool) -> usize
    ensures value { result ≡ length (head_entries headed) }
    ensures list_after { list.new ≡ printed list.old 0 (list_words (head_entries headed)) }
{
    if headed {
        return 0;
    }
    note(list, 0, 0, 0)
}

// One line, which begins at a place of the damaged log: whether it is its last.
fn step(line: &[u8], at: usize, last: bool, out: &mut [u8], list: &mut [u32], s: Sifted) -> Sifted
    requires { Bound at s × (at + length line.now ≤ 60000) }
    ensures { Stepped s line.now at (fate_by s line.now last) out.old list.old out.new list.new result }
{
    let p = s.place;
    let t = s.tally;
    let pen = s.pen;
    let found = log_fault::spot(line, Stand::Among(p.second, p.depth));
    let f = fate_of(found, p, t.clocks, last);
    let bytes = put(out, pen.bytes, kept(line, f));
    let entries = note_fate(list, pen.entries, at, f);
    let tally = tally_behind(t, p.depth, f);
    let place = place_behind(p, f);
    Sifted {
        pen: Pen { bytes, entries },
        place,
        tally,
    }
}

// Before the first line, with so many bytes and entries written.
fn begun(bytes: usize, entries: usize) -> Sifted
    ensures { result ≡ begun_by bytes entries }
{
    Sifted {
        pen: Pen { bytes, entries },
        place: Place {
            second: true,
            depth: 0,
            ninths: 0,
            stopped: false,
        },
        tally: Tally {
            often: [1; 9],
            clocks: 0,
            turns: 0,
        },
    }
}

// The lines from a place on.
fn lines(log: &[u8], first: usize, out: &mut [u8], list: &mut [u32], start: Sifted) -> Sifted
    requires { Bound first start × (first ≤ length log.now) × (length log.now ≤ 60000) }
    ensures bound { Bound 60000 result }
    ensures by_index { (o l : List ℕ) (k : Kept) → Going k → Sifts o l k out.old list.old start → Sifts o l (sift k first (lines_of (drop first log.now))) out.new list.new result }
{
    let mut at = first;
    let mut s = start;
    while at < log.len() {
        let e = line_end(log, at);
        s = step(&log[at..e], at, log.len() <= e, out, list, s);
        at = e;
    }
    s
}

// All lines.
fn sift(log: &[u8], out: &mut [u8], list: &mut [u32]) -> Sifted
    requires { length log.now ≤ 60000 }
    ensures bound { Bound 60000 result }
    ensures sifts { Sifts out.old list.old (sifted log.now) out.new list.new result }
{
    let headed = text::starts(log, b"log=1\n");
    let bytes = put(out, 0, b"log=1\n");
    let entries = note_head(list, headed);
    if headed {
        return lines(log, 6, out, list, begun(bytes, entries));
    }
    lines(log, 0, out, list, begun(bytes, entries))
}

// A line added, with its entry.
fn add(out: &mut [u8], list: &mut [u32], pen: Pen, text: &[u8]) -> Pen
    requires { (pen.bytes + length text.now ≤ 4294967295) × (pen.entries ≤ 4294967295) }
    ensures { Adds pen text.now out.old list.old out.new list.new result }
{
    let entries = note(list, pen.entries, pen.bytes, 0);
    let bytes = put(out, pen.bytes, text);
    Pen { bytes, entries }
}

// A `done` for each open loop.
fn close(out: &mut [u8], list: &mut [u32], pen: Pen, depth: u64) -> Pen
    requires { (pen.bytes ≤ 60006) × (pen.entries ≤ 60001) × (depth ≤ 8) }
    ensures bytes_bound { (result.bytes ≤ 60086) × (result.entries ≤ 60009) }
    ensures by_index { (o l : List ℕ) (k : Kept) → Written o l k out.old list.old pen → Written o l (closed_by depth k) out.new list.new result }
{
    let mut p = pen;
    for _ in 0..depth {
        p = add(out, list, p, b"done=loop\n");
    }
    p
}

// A `stop`, if none stayed.
fn end(out: &mut [u8], list: &mut [u32], pen: Pen, stopped: bool, clocks: u32) -> Pen
    requires { (pen.bytes ≤ 60086) × (pen.entries ≤ 60009) }
    ensures { (o l : List ℕ) (k : Kept) → Written o l k out.old list.old pen → stopped ≡ k.stopped → clocks ≡ Tree.clocks (kept_tree k.new) → Written o l (ended k) out.new list.new result }
{
    if stopped {
        return pen;
    }
    let at = pen.bytes;
    let entries = note(list, pen.entries, at, 0);
    log_writer::put_line(out, at, Line::Stop(clocks));
    Pen {
        bytes: at + log_writer::line_length(Line::Stop(clocks)),
        entries,
    }
}

// A whole pass: what fits is written, and all is counted.
fn pass(log: &[u8], out: &mut [u8], list: &mut [u32]) -> Passed
    requires { length log.now ≤ 60000 }
    ensures { Passes log.now out.old list.old out.new list.new result }
{
    let s = sift(log, out, list);
    let p = s.place;
    let t = s.tally;
    let pen = s.pen;
    let closed = close(out, list, pen, p.depth);
    let ended = end(out, list, closed, p.stopped, t.clocks as u32);
    Passed {
        pen: ended,
        heavy: 2000000000 < t.clocks || 1000000 < t.turns,
    }
}

fn refusal(number: u8) -> Salvaged
    ensures { result ≡ salvage_refusal number }
{
    Salvaged {
        number,
        place: 0,
        length: 0,
        entries: 0,
    }
}

// A damaged log repaired over the front of lent bytes, and the list of what was done over the front of lent words. Refused, at 0: 5; then 9; then 30;
// then 31. Refused, bytes and words stay.
pub fn salvage(log: &[u8], out: &mut [u8], list: &mut [u32]) -> Salvaged
    ensures value { result ≡ salvage_of log.now (length out.old) (length list.old) }
    ensures out_after { out.new ≡ salvage_text log.now out.old (length list.old) }
    ensures list_after { list.new ≡ salvage_list log.now (length out.old) list.old }
    ensures mends { result.number ≡ 0 → Mends log.now (take result.length out.new) result.entries }
{
    if 60000 < log.len() {
        return refusal(5);
    }
    let mut no_bytes = [0u8; 1];
    let mut no_words = [0u32; 1];
    let m = pass(log, &mut no_bytes, &mut no_words);
    if m.heavy {
        return refusal(9);
    }
    let pen = m.pen;
    let length = pen.bytes;
    let entries = pen.entries;
    if out.len() < length || 60000 < length {
        return refusal(30);
    }
    if list.len() / 2 < entries {
        return refusal(31);
    }
    pass(log, out, list);
    Salvaged {
        number: 0,
        place: 0,
        length,
        entries,
    }
}
