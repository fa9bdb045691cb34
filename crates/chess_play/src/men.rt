//! Whom a man may capture, where he may come, and what a pawn may become.

ghost use Rattle.std.specs.Prelude.{◌≡◌};
ghost use Rattle.chess_types.specs.board.Men.{same_colour};
ghost use Rattle.chess_types.specs.board.Pseudo.{is_capturable, may_enter};
ghost use Rattle.chess_types.specs.board.Texts.{names_promotion};

use chess_types::{Colour, Kind, Man};

/// Whether the colours are one.
pub(crate) fn same_colour(a: Colour, b: Colour) -> bool
    ensures { result ≡ same_colour a b }
{
    a == b
}

/// Whether a man of the other side stands there, which isn't its king: a king is never taken (FIDE Laws 1.4.1).
pub(crate) fn is_capturable(side: Colour, there: Option<Man>) -> bool
    ensures { result ≡ is_capturable side there }
{
    match there {
        None => false,
        Some(man) => !same_colour(man.colour, side) && !man.kind.is_king(),
    }
}

/// Whether a man of the side may come there, or capture there (FIDE Laws 3.1).
pub fn may_enter(side: Colour, there: Option<Man>) -> bool
    ensures { result ≡ may_enter side there }
{
    there.is_none() || is_capturable(side, there)
}

/// Whether a move names no kind, or a queen, rook, bishop or knight (FIDE Laws 3.7.3.3).
pub(crate) fn names_promotion(promo: Option<Kind>) -> bool
    ensures { result ≡ names_promotion promo }
{
    match promo {
        None => true,
        Some(kind) => match kind {
            Kind::Pawn | Kind::King => false,
            Kind::Knight | Kind::Bishop | Kind::Rook | Kind::Queen => true,
        },
    }
}
