//! Moves, from square to square, and their texts in the notation of UCI.

ghost use Rattle.std.specs.Prelude.{◌≡◌, ◌<◌, IfSome, None, Some};
ghost use Rattle.chess_types.specs.declared.board.man.Kind.{Kind};
ghost use Rattle.chess_types.specs.board.MoveParts.{MoveParts};
ghost use Rattle.chess_types.specs.board.Texts.{IsPromotion, kind_letter, move_text};

mod texts;

use super::man::Kind;
use super::square::Square;
use arrayvec::ArrayString;
use std::marker::Model;
pub use texts::NotAMove;

// What a pawn becomes, by its letter.
fn promotion(letter: u8) -> Option<Kind>
    ensures promotion { IfSome result (λ kind. IsPromotion (Some kind)) }
    ensures sound { IfSome result (λ kind. letter ≡ kind_letter kind) }
    ensures complete { (kind : Kind) → IsPromotion (Some kind) → letter ≡ kind_letter kind → result ≡ Some kind }
{
    match letter {
        b'q' => Some(Kind::Queen),
        b'r' => Some(Kind::Rook),
        b'b' => Some(Kind::Bishop),
        b'n' => Some(Kind::Knight),
        _ => None,
    }
}

/// A move: from where, to where, and what a pawn becomes on the last rank. Castling is the king's move of two squares.
#[derive(Clone, Copy, Debug, PartialEq, Eq)]
pub struct Move {
    pub from: Square,
    pub to: Square,
    pub promo: Option<Kind>,
}

impl Model for Move {
    ghost use Rattle.std.specs.Prelude.{◌<◌};
    ghost use Rattle.chess_types.specs.board.MoveParts.{MoveParts};

    ghost Value = { MoveParts };

    ghost view = { λ m. record { from = m.from; to = m.to; promo = m.promo } };

    ghost invariant = { λ m. (m.from < 64) × (m.to < 64) };

    ghost inverse = { λ m. record { from = m.from; to = m.to; promo = m.promo } };
}

impl Move {
    /// Reads a move in the long algebraic notation of UCI: `e2e4`, `e1g1`, `e7e8q`, the promotion to a queen, rook, bishop or
    /// knight. `None` for any other text.
    pub fn parse(text: &[u8]) -> Option<Move>
        ensures on_board { IfSome result (λ m. (m.from < 64) × (m.to < 64)) }
        ensures promotion { IfSome result (λ m. IsPromotion m.promo) }
        ensures sound { IfSome result (λ m. text.now ≡ move_text m) }
        ensures complete { (m : MoveParts) → m.from < 64 → m.to < 64 → IsPromotion m.promo → text.now ≡ move_text m → result ≡ Some m }
    {
        let promo = match text.len() {
            4 => None,
            5 => Some(promotion(text[4])?),
            _ => return None,
        };
        let from = Square::parse(&text[..2])?;
        let to = Square::parse(&text[2..4])?;
        Some(Move { from, to, promo })
    }

    /// The move in the long algebraic notation of UCI.
    pub fn text(self) -> ArrayString<5>
        ensures { result.bytes ≡ move_text self }
    {
        let mut text = ArrayString::new();
        text.push_str(&self.from.text());
        text.push_str(&self.to.text());
        if let Some(kind) = self.promo {
            text.push(kind.letter());
        }
        text
    }
}

impl Default for Move {
    ghost is_default = { λ m. m ≡ record { from = 0; to = 0; promo = None } };

    /// The move from a1 to a1, which no position has: it fills the free places of a list of fixed capacity.
    fn default() -> Move {
        Move {
            from: Square::from_index(0),
            to: Square::from_index(0),
            promo: None,
        }
    }
}
