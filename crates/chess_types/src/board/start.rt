//! What the squares hold as a game begins (FIDE Laws 2.3).

ghost use Rattle.std.specs.Prelude.{◌≡◌};
ghost use Rattle.chess_types.specs.declared.board.man.Colour.TheVariants.{White, Black};
ghost use Rattle.chess_types.specs.board.Position.{cell_of, start_cells};

use super::content::Content;
use super::man::{Colour, Kind, Man};

// A White man of the kind.
#[inline(always)]
fn white(kind: Kind) -> Content
    ensures { result ≡ cell_of White kind }
{
    let colour = Colour::White;
    Content::of(Some(Man { colour, kind }))
}

// A Black man of the kind.
#[inline(always)]
fn black(kind: Kind) -> Content
    ensures { result ≡ cell_of Black kind }
{
    let colour = Colour::Black;
    Content::of(Some(Man { colour, kind }))
}

/// What the 64 squares hold, from a1 to h8.
#[rattlefmt::skip]
pub(crate) fn start_contents() -> [Content; 64]
    ensures { result ≡ start_cells }
{
    let empty = Content::empty();
    let (pawn, knight, bishop) = (white(Kind::Pawn), white(Kind::Knight), white(Kind::Bishop));
    let (rook, queen, king) = (white(Kind::Rook), white(Kind::Queen), white(Kind::King));
    let (their_pawn, their_knight, their_bishop) = (black(Kind::Pawn), black(Kind::Knight), black(Kind::Bishop));
    let (their_rook, their_queen, their_king) = (black(Kind::Rook), black(Kind::Queen), black(Kind::King));
    [
        rook, knight, bishop, queen, king, bishop, knight, rook,
        pawn, pawn, pawn, pawn, pawn, pawn, pawn, pawn,
        empty, empty, empty, empty, empty, empty, empty, empty,
        empty, empty, empty, empty, empty, empty, empty, empty,
        empty, empty, empty, empty, empty, empty, empty, empty,
        empty, empty, empty, empty, empty, empty, empty, empty,
        their_pawn, their_pawn, their_pawn, their_pawn, their_pawn, their_pawn, their_pawn, their_pawn,
        their_rook, their_knight, their_bishop, their_queen, their_king, their_bishop, their_knight, their_rook,
    ]
}
