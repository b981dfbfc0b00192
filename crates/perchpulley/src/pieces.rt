// The player in pieces for C and Rust. A player is bytes lent in place (crate `c_player`), which the caller keeps between two
// pieces. Bytes that are no player's are refused, and stay.
ghost use Rattle.std.specs.Prelude.{◌≡◌};
ghost use Rattle.text_print.specs.Printed.{printed};
ghost use Rattle.play_text.specs.Entries.{refusal_text};
ghost use Rattle.perch_reasons.specs.Reasons.{reason_text};
ghost use Rattle.c_player.specs.Player.{player_size};
ghost use Rattle.c_reason.specs.Packed.{reason_packed};
ghost use Rattle.c_play.specs.Players.{begin_packed, begin_bytes, Continued, refusal_packed};

// How many bytes a player is.
#[unsafe(no_mangle)]
pub extern "C" fn perch_player_size() -> usize
    ensures { result ≡ player_size }
{
    c_player::size()
}

// Makes the bytes a player at the log's beginning, whatever they held. Refused: 1; 2, for another length; as the log.
#[unsafe(no_mangle)]
pub extern "C" fn perch_begin(player: &mut [u8], log: &[u8], memory: &[u8]) -> u64
    ensures value { result ≡ begin_packed log.now memory.now player.old }
    ensures player_after { player.new ≡ begin_bytes log.now memory.now player.old }
{
    c_play::begin(player, log, memory)
}

// Writes the player's next lines to the text, whole lines only and to its first 4,294,967,295 bytes at most, and moves the player
// behind them. Refused: 1; 2; then as the line or the wait that the player comes to, with its place in the log.
#[unsafe(no_mangle)]
pub extern "C" fn perch_play_on(
    player: &mut [u8],
    log: &[u8],
    memory: &[u8],
    text: &mut [u8],
) -> u64
    ensures { Continued log.now memory.now player.old player.new text.old text.new result }
{
    c_play::play_on(player, log, memory, text)
}

// Writes the text of a refusal where it fits, else nothing. Of a place of more than ten digits it writes the last ten.
#[unsafe(no_mangle)]
pub extern "C" fn perch_refusal_text(number: u8, place: u64, text: &mut [u8]) -> u64
    ensures value { result ≡ refusal_packed number place text.old }
    ensures text_after { text.new ≡ printed text.old 0 (refusal_text number place) }
{
    c_play::refusal_text(number, place, text)
}

// Writes a refusal's number in words where they fit, else nothing.
#[unsafe(no_mangle)]
pub extern "C" fn perch_reason(number: u8, text: &mut [u8]) -> u64
    ensures value { result ≡ reason_packed number text.old }
    ensures text_after { text.new ≡ printed text.old 0 (reason_text number) }
{
    c_reason::reason(number, text)
}
