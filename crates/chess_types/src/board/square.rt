//! The 64 squares, by number, by file and rank, and by name.

ghost use Rattle.std.specs.Prelude.{◌≡◌, ℕ, ◌<◌, ◌↔◌, IsSome, IfSome};
ghost use Rattle.chess_types.specs.board.Squares.{file_of, rank_of};
ghost use Rattle.chess_types.specs.board.Texts.{square_text};

mod names;
mod texts;

use arrayvec::ArrayString;
use std::marker::Model;
pub use texts::NotASquare;

/// One of the 64 squares. Contracts see its number: a1 is 0, b1 is 1, a2 is 8, h8 is 63.
#[derive(Clone, Copy, Debug, PartialEq, Eq, PartialOrd, Ord)]
pub struct Square {
    number: u8,
}

impl Model for Square {
    ghost Value = { ℕ };

    ghost view = { λ s. s.number };

    ghost invariant = { λ s. s.number < 64 };

    ghost inverse = { λ n. record { number = n } };
}

impl Square {
    /// The square of this number; `None` from 64 on.
    pub fn new(number: u8) -> Option<Square>
        ensures valid { IsSome result ↔ (number < 64) }
        ensures value { IfSome result (λ square. square ≡ number) }
    {
        if number < 64 {
            Some(Square { number })
        } else {
            None
        }
    }

    /// The square of this number, which is below 64.
    pub fn from_index(number: u8) -> Square
        requires { number < 64 }
        ensures { result ≡ number }
    {
        Square { number }
    }

    /// The square of the file, 0 for a to 7 for h, and the rank, 0 for the first to 7 for the eighth.
    #[inline(always)]
    pub fn at(file: u8, rank: u8) -> Square
        requires file { file < 8 }
        requires rank { rank < 8 }
        ensures file { file_of result ≡ file }
        ensures rank { rank_of result ≡ rank }
    {
        Square {
            number: 8 * rank + file,
        }
    }

    /// The square's number, 0 to 63.
    pub fn index(self) -> usize
        ensures value { result ≡ self }
        ensures below { result < 64 }
    {
        self.number as usize
    }

    /// The file, 0 for a to 7 for h.
    pub fn file(self) -> u8
        ensures value { result ≡ file_of self }
        ensures below { result < 8 }
    {
        self.number % 8
    }

    /// The rank, 0 for the first to 7 for the eighth.
    pub fn rank(self) -> u8
        ensures value { result ≡ rank_of self }
        ensures below { result < 8 }
    {
        self.number / 8
    }

    /// Reads the square's name, `a1` to `h8`, the letter in lower case (PGN 8.2.3.2); `None` for any other text.
    pub fn parse(text: &[u8]) -> Option<Square>
        ensures sound { IfSome result (λ square. text.now ≡ square_text square) }
        ensures complete { (square : ℕ) → square < 64 → text.now ≡ square_text square → result ≡ Some square }
    {
        match text {
            [file @ b'a'..=b'h', rank @ b'1'..=b'8'] => Some(Square {
                number: (rank - b'1') * 8 + (file - b'a'),
            }),
            _ => None,
        }
    }

    /// The square's name, `a1` to `h8`.
    pub fn text(self) -> ArrayString<2>
        ensures { result.bytes ≡ square_text self }
    {
        let mut text = ArrayString::new();
        text.push(char::from(b'a' + self.file()));
        text.push(char::from(b'1' + self.rank()));
        text
    }
}
