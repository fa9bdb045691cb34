//! Squares read from numbers and texts and shown, by std's traits.

ghost use Rattle.std.specs.Prelude.{◌<◌, OkIff, Some};
ghost use Rattle.std.specs.Fmt.{padded};
ghost use Rattle.chess_types.specs.board.Texts.{square_text};
ghost use Rattle.chess_types.specs.board.Parsed.{ReadsSquare};

use super::Square;
use std::fmt;
use std::str::FromStr;
use thiserror::Error;

/// A text or a number that is no square's.
#[derive(Clone, Copy, Debug, PartialEq, Eq, Error)]
#[error("a square is a1 to h8, or a number below 64")]
pub struct NotASquare;

impl TryFrom<u8> for Square {
    type Error = NotASquare;

    ghost try_from_gives = { λ number square. OkIff square (number < 64) number };

    /// The square of this number, as `Square::new`.
    ///
    /// # Errors
    ///
    /// From 64 on.
    fn try_from(number: u8) -> Result<Square, NotASquare> {
        Square::new(number).ok_or(NotASquare)
    }
}

impl FromStr for Square {
    type Err = NotASquare;

    ghost from_str_gives = { ReadsSquare };

    /// Reads the square's name, as `Square::parse` (PGN 8.2.3.2).
    ///
    /// # Errors
    ///
    /// Any text but `a1` to `h8`, the letter in lower case.
    fn from_str(text: &str) -> Result<Square, NotASquare> {
        Square::parse(text.as_bytes()).ok_or(NotASquare)
    }
}

impl fmt::Display for Square {
    ghost output = { λ square. Some (square_text square) };

    ghost styled_output = { λ square spec. Some (padded spec (square_text square)) };

    /// The square's name, `a1` to `h8`.
    fn fmt<W: fmt::Write>(&self, f: &mut fmt::Formatter<W>) -> fmt::Result {
        f.pad(&self.text())
    }
}
