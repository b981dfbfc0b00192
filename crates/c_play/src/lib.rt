// The player in pieces, a player being bytes lent in place (crate `c_player`), which the caller keeps between two pieces. Bytes
// that are no player's are refused, and stay.
#![tactic(auto)]

ghost use Rattle.std.specs.Prelude.{◌≡◌, ◌≤◌, eqb};
ghost use Rattle.arith.specs.Pick.{pick};
ghost use Rattle.text_print.specs.Printed.{printed};
ghost use Rattle.play_text.specs.Entries.{refusal_text};
ghost use Rattle.play.specs.Playing.{PlayedOn};
ghost use Rattle.c_player.specs.Player.{player_in, player_encoded};
ghost use Rattle.c_play.specs.Players.{begin_packed, begin_bytes, piece_packed, Continued, refusal_packed};

use play::Played;
use play_rules::Player;

// The player written to the bytes, where the number says that it is done.
fn store_player(number: u8, p: Player, b: &mut [u8])
    ensures { b.new ≡ pick (eqb number 0) (player_encoded p b.old) b.old }
{
    if number == 0 {
        c_player::encode(p, b);
    }
}

// Makes the bytes a player at the log's beginning, whatever they held. Refused: 1; 2, for another length; as the log.
pub fn begin(player: &mut [u8], log: &[u8], memory: &[u8]) -> u64
    ensures value { result ≡ begin_packed log.now memory.now player.old }
    ensures player_after { player.new ≡ begin_bytes log.now memory.now player.old }
{
    if player.len() != c_player::SIZE {
        let number = c_chip::other_length(memory);
        return c_log::pack(number, 0, 0);
    }
    let g = play_begin::begin(log, memory);
    let p = g.player;
    store_player(g.number, p, player);
    c_log::pack(g.number, g.place, 0)
}

// A piece of the player that bytes stand for.
fn play_from(b: &[u8], log: &[u8], memory: &[u8], text: &mut [u8]) -> Played
    ensures { PlayedOn log.now memory.now (player_in b.now) text.old text.new result × (result.length ≤ 4294967295) }
{
    let p = c_player::player_in(b);
    // As many bytes of the text as the answer can count.
    let end = text.len().min(4294967295);
    play::play_on(p, log, memory, &mut text[..end])
}

// A piece's answer in one number.
#[tactic(auto, unfolding(crate::specs::Players::piece_packed))]
fn pack_piece(r: Played) -> u64
    requires { r.length ≤ 4294967295 }
    ensures { result ≡ piece_packed r }
{
    if r.number == 0 {
        return 256 * u64::from(r.over) + 4294967296 * r.length as u64;
    }
    c_log::pack(r.number, r.place, 0)
}

// Writes the player's next lines to the text, whole lines only and to its first 4,294,967,295 bytes at most, and moves the player
// behind them. Refused: 1; 2; then as the line or the wait that the player comes to, with its place in the log.
pub fn play_on(player: &mut [u8], log: &[u8], memory: &[u8], text: &mut [u8]) -> u64
    ensures { Continued log.now memory.now player.old player.new text.old text.new result }
{
    let m = play_from(player, log, memory, text);
    let p = m.player;
    store_player(m.number, p, player);
    pack_piece(m)
}

// Writes the text of a refusal where it fits, else nothing. Of a place of more than ten digits it writes the last ten.
pub fn refusal_text(number: u8, place: u64, text: &mut [u8]) -> u64
    ensures value { result ≡ refusal_packed number place text.old }
    ensures text_after { text.new ≡ printed text.old 0 (refusal_text number place) }
{
    let at = place as usize;
    let n = play_text::refusal(number, at, text);
    4294967296 * n as u64
}
