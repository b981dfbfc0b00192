// A damaged log repaired, the answer in one 64-bit number.
#![tactic(auto)]

ghost use Rattle.std.specs.Prelude.{◌≡◌, ◌/◌, ◌%◌, ◌^◌, length, take};
ghost use Rattle.log_salvage_rules.specs.Promise.{Mends};
ghost use Rattle.log_salvage.specs.Answer.{salvage_text, salvage_list};
ghost use Rattle.c_salvage.specs.Packed.{salvage_packed};

// Writes a damaged log repaired over the front of the text, and the list of what was done over the front of the list, two words an entry; the value is
// the repaired log's length + 2^16 x the list's entries. The repaired log passes the check; a log that passes comes back byte for byte with no entry.
// Refused, at 0: 5; then 9; then 30; then 31. Refused, text and list stay.
pub fn salvage(log: &[u8], text: &mut [u8], list: &mut [u32]) -> u64
    ensures value { result ≡ salvage_packed log.now (length text.old) (length list.old) }
    ensures text_after { text.new ≡ salvage_text log.now text.old (length list.old) }
    ensures list_after { list.new ≡ salvage_list log.now (length text.old) list.old }
    ensures mends { result % 2 ^ 8 ≡ 0 → Mends log.now (take (result / 2 ^ 32 % 2 ^ 16) text.new) (result / 2 ^ 48) }
{
    let a = log_salvage::salvage(log, text, list);
    c_log::pack(a.number, a.place, (a.length + 65536 * a.entries) as u32)
}
