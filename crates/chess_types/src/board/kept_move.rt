//! A move in three bytes.

ghost use Rattle.std.specs.Prelude.{◌≡◌};
ghost use Rattle.chess_types.specs.steps.KeptMoves.{kind_promoted, promotion_of};

use super::man::Kind;
use super::moves::Move;
use super::square::Square;
use std::marker::Model;

// What a pawn becomes, in one byte.
#[derive(Clone, Copy, Debug, PartialEq, Eq)]
enum Promotion {
    Nothing,
    Pawn,
    Knight,
    Bishop,
    Rook,
    Queen,
    King,
}

impl Promotion {
    #[inline(always)]
    fn of(promo: Option<Kind>) -> Promotion
        ensures { result ≡ promotion_of promo }
    {
        match promo {
            None => Promotion::Nothing,
            Some(Kind::Pawn) => Promotion::Pawn,
            Some(Kind::Knight) => Promotion::Knight,
            Some(Kind::Bishop) => Promotion::Bishop,
            Some(Kind::Rook) => Promotion::Rook,
            Some(Kind::Queen) => Promotion::Queen,
            Some(Kind::King) => Promotion::King,
        }
    }

    #[inline(always)]
    fn kind(self) -> Option<Kind>
        ensures { result ≡ kind_promoted self }
    {
        match self {
            Promotion::Nothing => None,
            Promotion::Pawn => Some(Kind::Pawn),
            Promotion::Knight => Some(Kind::Knight),
            Promotion::Bishop => Some(Kind::Bishop),
            Promotion::Rook => Some(Kind::Rook),
            Promotion::Queen => Some(Kind::Queen),
            Promotion::King => Some(Kind::King),
        }
    }
}

/// A move as lists keep it, in three bytes. Contracts see the move.
#[derive(Clone, Copy, Debug, PartialEq, Eq)]
pub struct KeptMove {
    from: Square,
    to: Square,
    promotion: Promotion,
}

impl Model for KeptMove {
    ghost use Rattle.std.specs.Prelude.{◌<◌};
    ghost use Rattle.chess_types.specs.board.MoveParts.{MoveParts};
    ghost use Rattle.chess_types.specs.steps.KeptMoves.{kind_promoted, promotion_of, promotion_of-kind};

    ghost Value = { MoveParts };

    ghost view = { λ k. record { from = k.from; to = k.to; promo = kind_promoted k.promotion } };

    ghost invariant = { λ k. (k.from < 64) × (k.to < 64) };

    ghost inverse = { λ m. record { from = m.from; to = m.to; promotion = promotion_of m.promo } };

    ghost inverse_ok = { λ k _ i. record { from = k.from; to = k.to; promotion = promotion_of-kind k.promotion i } };
}

impl KeptMove {
    /// The move in three bytes.
    #[inline(always)]
    pub fn of(m: Move) -> KeptMove
        ensures { result ≡ m }
    {
        KeptMove {
            from: m.from,
            to: m.to,
            promotion: Promotion::of(m.promo),
        }
    }

    /// The move.
    #[inline(always)]
    pub fn get(self) -> Move
        ensures { result ≡ self }
    {
        Move {
            from: self.from,
            to: self.to,
            promo: self.promotion.kind(),
        }
    }
}
