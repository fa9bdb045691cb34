//! The value of a search as UCI writes scores.

ghost use Rattle.std.specs.Prelude.{◌≡◌, ◌++◌, ◌≤◌, length};
ghost use Rattle.std.specs.Fmt.{signed_decimal};
ghost use Rattle.chess_search.specs.Scores.{score_text};

use arrayvec::ArrayString;
use itoa::Buffer;

// The words and the number.
fn with_number(words: &str, number: i32) -> ArrayString<24>
    requires { length words.now ≤ 6 }
    ensures { result.bytes ≡ words.now ++ signed_decimal number }
{
    let mut text = ArrayString::new();
    text.push_str(words);
    text.push_str(Buffer::new().format(number));
    text
}

/// The value for the side to move as UCI writes scores: `mate N` where it mates with its N-th move, `mate -N` where it is mated by the
/// other side's N-th, else `cp` and the centipawns.
#[tactic(auto, unfolding(crate::specs::Scores::score_text))]
pub fn score_text(value: i32) -> ArrayString<24>
    ensures { result.bytes ≡ score_text value }
{
    if value >= 29984 {
        return with_number("mate ", (30001 - value) / 2);
    }
    if value <= -29984 {
        return with_number("mate -", (30000 + value) / 2);
    }
    with_number("cp ", value)
}
