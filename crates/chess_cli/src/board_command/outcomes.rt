//! How the draws that may be claimed and a best move with its score are written.

ghost use Rattle.std.specs.Prelude.{◌≡◌, ◌≤◌, length};
ghost use Rattle.chess_search.specs.Slices.{IsInRange};
ghost use Rattle.chess_cli.specs.Outcomes.{claims_text};
ghost use Rattle.chess_cli.specs.Answers.{best_text};

use arrayvec::ArrayString;
use chess_search::score_text;
use chess_types::{Claims, Move};

/// The draws that may be claimed, or `none`.
pub fn claims_text(claims: Claims) -> &'static str
    ensures value { result.now ≡ claims_text claims }
    ensures short { length result.now ≤ 15 }
{
    match (claims.threefold, claims.fifty) {
        (false, false) => "none",
        (true, false) => "threefold",
        (false, true) => "fifty",
        (true, true) => "threefold fifty",
    }
}

/// The move and its score, separated by one space; `none` where there is no move.
pub fn best_text(best: Option<(Move, i32)>) -> ArrayString<32>
    requires { IsInRange best }
    ensures { result.bytes ≡ best_text best }
{
    let mut text = ArrayString::new();
    match best {
        None => text.push_str("none"),
        Some((m, value)) => {
            text.push_str(m.text().as_str());
            text.push_str(" ");
            text.push_str(score_text(value).as_str());
        }
    }
    text
}
