//! Moves read from texts and shown, by std's traits.

ghost use Rattle.std.specs.Prelude.{Some};
ghost use Rattle.std.specs.Fmt.{padded};
ghost use Rattle.chess_types.specs.board.Texts.{move_text};
ghost use Rattle.chess_types.specs.board.Parsed.{ReadsMove};

use super::Move;
use std::fmt;
use std::str::FromStr;
use thiserror::Error;

/// A text that is no move's in the long algebraic notation of UCI.
#[derive(Clone, Copy, Debug, PartialEq, Eq, Error)]
#[error("a move is two squares, as e2e4, and what a pawn becomes, as a7a8q")]
pub struct NotAMove;

impl FromStr for Move {
    type Err = NotAMove;

    ghost from_str_gives = { ReadsMove };

    /// Reads a move in the long algebraic notation of UCI, as `Move::parse`.
    ///
    /// # Errors
    ///
    /// Any other text than two squares, after which `q`, `r`, `b` or `n` may say what a pawn becomes.
    fn from_str(text: &str) -> Result<Move, NotAMove> {
        Move::parse(text.as_bytes()).ok_or(NotAMove)
    }
}

impl fmt::Display for Move {
    ghost output = { λ m. Some (move_text m) };

    ghost styled_output = { λ m spec. Some (padded spec (move_text m)) };

    /// The move in the long algebraic notation of UCI: `e2e4`, `a7a8q`.
    fn fmt<W: fmt::Write>(&self, f: &mut fmt::Formatter<W>) -> fmt::Result {
        f.pad(&self.text())
    }
}
