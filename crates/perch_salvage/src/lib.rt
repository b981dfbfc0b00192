// What `perch salvage` does with a damaged log: the repaired log, and a line for each entry of the list.
#![tactic(auto)]

ghost use Rattle.std.specs.Prelude.{◌≡◌, ◌+◌, ◌≤◌, length};
ghost use Rattle.text_print.specs.Printed.{printed, placed, Put};
ghost use Rattle.log_salvage.specs.Answer.{salvage_of, salvage_text, salvage_list};
ghost use Rattle.text.specs.Ascii.{bytes};
ghost use Rattle.text_place.specs.Place.{line_number};
ghost use Rattle.perch_reasons.specs.Reasons.{reason_text};
ghost use Rattle.perch_salvage.specs.Verb.{outcome_of, OutcomeIs, keyed_text, entry_text};

use refusal::Refusal;

// What was written: the length of the repaired log in bytes and of the list in entries.
#[derive(Clone, Copy)]
pub struct Lengths {
    pub bytes: usize,
    pub entries: usize,
}

// Repairs a damaged log over the front of lent bytes, with the list over the front of lent words; 120,020 words always hold it. Refused, both stay.
pub fn salvage(log: &[u8], out: &mut [u8], list: &mut [u32]) -> Result<Lengths, Refusal>
    ensures value { result ≡ outcome_of log.now (length out.old) (length list.old) }
    ensures outcome_is { OutcomeIs (salvage_of log.now (length out.old) (length list.old)) result }
    ensures out_after { out.new ≡ salvage_text log.now out.old (length list.old) }
    ensures list_after { list.new ≡ salvage_list log.now (length out.old) list.old }
{
    let a = log_salvage::salvage(log, out, list);
    if a.number == 0 {
        return Ok(Lengths {
            bytes: a.length,
            entries: a.entries,
        });
    }
    Err(Refusal {
        number: a.number,
        place: a.place,
    })
}

// A key, the two words of an entry, its line's number and what there is to say of it, where there is room for them.
fn keyed_line(
    key: &[u8],
    first: u32,
    second: u8,
    line: usize,
    words: &[u8],
    out: &mut [u8],
) -> usize
    requires { 0 + length (keyed_text key.now first second line words.now) ≤ length out.old }
    ensures { Put out.old 0 (keyed_text key.now first second line words.now) out.new result }
{
    let a = text_print::fixed(out, 0, key);
    let b = text_print::decimal(out, a, u64::from(first));
    let c = text_print::fixed(out, b, b":");
    let d = text_print::decimal(out, c, u64::from(second));
    let e = text_print::fixed(out, d, b" line ");
    let f = text_print::decimal(out, e, line as u64);
    let g = text_print::fixed(out, f, b": ");
    let h = text_print::fixed(out, g, words);
    text_print::fixed(out, h, b"\n")
}

// The same where it fits, and its length; else nothing, and 0.
fn keyed(key: &[u8], first: u32, second: u8, line: usize, words: &[u8], out: &mut [u8]) -> usize
    ensures value { result ≡ placed out.old 0 (keyed_text key.now first second line words.now) }
    ensures out_after { out.new ≡ printed out.old 0 (keyed_text key.now first second line words.now) }
{
    let u = text_print::width(u64::from(first));
    let v = text_print::width(u64::from(second));
    let w = text_print::width(line as u64);
    let n = key.len() + u + v + w + 10;
    if out.len() < n || out.len() - n < words.len() {
        return 0;
    }
    keyed_line(key, first, second, line, words, out)
}

// The line of an entry of which a line was dropped, with the reason in words.
fn dropped(log: &[u8], start: u32, reason: u8, out: &mut [u8]) -> usize
    ensures value { result ≡ placed out.old 0 (keyed_text (bytes "dropped=") start reason (line_number log.now start) (reason_text reason)) }
    ensures out_after { out.new ≡ printed out.old 0 (keyed_text (bytes "dropped=") start reason (line_number log.now start) (reason_text reason)) }
{
    let mut words = [0u8; 60];
    let n = perch_reasons::reason(&mut words, 0, reason);
    let line = text_place::line_number(log, start as usize);
    keyed(b"dropped=", start, reason, line, &words[..n], out)
}

// The line of an entry of the list for a damaged log and the new one, where it fits, and its length; else nothing, and 0.
pub fn entry(log: &[u8], new: &[u8], first: u32, second: u8, out: &mut [u8]) -> usize
    ensures value { result ≡ placed out.old 0 (entry_text log.now new.now first second) }
    ensures out_after { out.new ≡ printed out.old 0 (entry_text log.now new.now first second) }
{
    if second == 0 {
        let place = first as usize;
        let line = text_place::line_number(new, place);
        return keyed(
            b"added=",
            first,
            second,
            line,
            text_place::line_at(new, place),
            out,
        );
    }
    dropped(log, first, second, out)
}
