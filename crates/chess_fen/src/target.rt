//! The en passant target of a FEN, read, and kept where a pawn's advance explains it (PGN 16.1.3.4).

ghost use Rattle.std.specs.Prelude.{◌≡◌};
ghost use Rattle.chess_types.specs.board.Board.{man_at};
ghost use Rattle.chess_fen.specs.Reading.{target_in, kept_target};

use super::fault::FenFault;
use chess_types::{Colour, Placement, Square, is_explained};

/// The en passant target that is written.
#[tactic(auto, unfolding(crate::specs::Reading::target_in))]
pub fn read_target(field: &[u8]) -> Result<Option<Square>, FenFault>
    ensures { result ≡ target_in field.now }
{
    if field == b"-".as_slice() {
        return Ok(None);
    }
    match Square::parse(field) {
        Some(square) => Ok(Some(square)),
        None => Err(FenFault::Target),
    }
}

/// The target, where it is explained.
#[tactic(auto, unfolding(crate::specs::Reading::kept_target))]
pub fn kept_target(side: Colour, placement: &Placement, target: Option<Square>) -> Option<Square>
    ensures { result ≡ kept_target side (man_at placement.now) target }
{
    match target {
        Some(square) if is_explained(side, placement, square) => Some(square),
        _ => None,
    }
}
