//! Why six fields are no position, and the tests that find it.

ghost use Rattle.std.specs.Prelude.{◌≡◌};
ghost use Rattle.chess_types.specs.board.Board.{Board, Men, man_at};
ghost use Rattle.chess_types.specs.board.Men.{is_of, kings_of};
ghost use Rattle.chess_types.specs.board.Position.{is_explained as is_explained_of};
ghost use Rattle.chess_types.specs.board.Faults.{has_one_king_each, has_pawn_on_edge, has_at_most_16_each, men_fault as men_fault_of, is_home as is_home_of};
ghost use Rattle.chess_types.specs.steps.KeptSets.{Gathers, SetsAreKept};

use super::cell::is_man;
use super::kept::Kept;
use super::man::{Colour, Kind};
use super::placement::Placement;
use super::position::Wing;
use super::square::Square;
use super::square_set::SquareSet;
use thiserror::Error;

/// Why six fields are no position. Where several faults apply, the first in this order is reported.
#[derive(Clone, Copy, Debug, PartialEq, Eq, Error)]
pub enum PositionFault {
    /// Not exactly one king a side (FIDE Laws 2.2).
    #[error("each side has one king")]
    Kings,
    /// A pawn is on rank 1 or rank 8 (FIDE Laws 3.7).
    #[error("no pawn is on the first or the last rank")]
    PawnRank,
    /// A side has more than 16 men (FIDE Laws 2.2).
    #[error("a side has at most 16 men")]
    TooManyMen,
    /// A castling right is held, but its king or its rook isn't at home (FIDE Laws 3.8.2).
    #[error("a castling right needs its king and its rook at home")]
    Rights,
    /// No advance of a pawn by two squares, just made, explains the en passant target (FIDE Laws 3.7.3.1).
    #[error("an en passant target is a square that a pawn has just passed over")]
    Target,
    /// The fullmove number is 0 (PGN 16.1.3.6).
    #[error("the fullmove number is at least 1")]
    Counters,
    /// The side not to move is in check (FIDE Laws 3.9).
    #[error("the side not to move is in check")]
    InCheck,
}

/// The most men of a colour (FIDE Laws 2.2).
const MOST_MEN: usize = 16;

// The squares of a colour's men.
fn men(kept: &Kept, colour: Colour) -> SquareSet
    ensures { (man_on : Men) → SetsAreKept kept.now man_on → Gathers result (is_of colour) man_on }
{
    match colour {
        Colour::White => kept.white,
        Colour::Black => kept.black,
    }
}

fn kings(kept: &Kept, colour: Colour) -> usize
    ensures { (board : Board) → SetsAreKept kept.now (man_at board) → result ≡ kings_of board colour }
{
    kept.kings.intersection(men(kept, colour)).len()
}

fn has_one_king_each(kept: &Kept) -> bool
    ensures { (board : Board) → SetsAreKept kept.now (man_at board) → result ≡ has_one_king_each board }
{
    kings(kept, Colour::White) == 1 && kings(kept, Colour::Black) == 1
}

fn has_pawn_on_edge(kept: &Kept) -> bool
    ensures { (man_on : Men) → SetsAreKept kept.now man_on → result ≡ has_pawn_on_edge man_on }
{
    let edges = SquareSet::rank(0).union(SquareSet::rank(7));
    match kept.pawns.intersection(edges).lowest() {
        Some(_) => true,
        None => false,
    }
}

fn has_at_most_16_each(kept: &Kept) -> bool
    ensures { (board : Board) → SetsAreKept kept.now (man_at board) → result ≡ has_at_most_16_each board }
{
    men(kept, Colour::White).len() <= MOST_MEN && men(kept, Colour::Black).len() <= MOST_MEN
}

/// The first thing wrong with the men whose squares are kept: `Kings`, `PawnRank` or `TooManyMen`.
pub(super) fn men_fault(kept: &Kept) -> Option<PositionFault>
    ensures { (board : Board) → SetsAreKept kept.now (man_at board) → result ≡ men_fault_of board }
{
    if !has_one_king_each(kept) {
        return Some(PositionFault::Kings);
    }
    if has_pawn_on_edge(kept) {
        return Some(PositionFault::PawnRank);
    }
    if !has_at_most_16_each(kept) {
        return Some(PositionFault::TooManyMen);
    }
    None
}

/// Whether the king and that wing's rook of the colour are where a game begins (FIDE Laws 3.8.2).
pub fn is_home(placement: &Placement, colour: Colour, wing: Wing) -> bool
    ensures { result ≡ is_home_of (man_at placement.now) colour wing }
{
    is_man(placement.get(colour.king_home()), colour, Kind::King)
        && is_man(placement.get(wing.rook_home(colour)), colour, Kind::Rook)
}

/// Whether a pawn of the side not to move may have passed over the square with the last move: it and the square from which the pawn
/// came are empty, and the pawn is on the square after it (FIDE Laws 3.7.3.1, PGN 16.1.3.4).
pub fn is_explained(side: Colour, placement: &Placement, target: Square) -> bool
    ensures { result ≡ is_explained_of side (man_at placement.now) target }
{
    match side {
        Colour::White => {
            target.rank() == 5
                && placement.get(target).is_none()
                && placement
                    .get(Square::from_index(target.index() as u8 + 8))
                    .is_none()
                && is_man(
                    placement.get(Square::from_index(target.index() as u8 - 8)),
                    Colour::Black,
                    Kind::Pawn,
                )
        }
        Colour::Black => {
            target.rank() == 2
                && placement.get(target).is_none()
                && placement
                    .get(Square::from_index(target.index() as u8 - 8))
                    .is_none()
                && is_man(
                    placement.get(Square::from_index(target.index() as u8 + 8)),
                    Colour::White,
                    Kind::Pawn,
                )
        }
    }
}
