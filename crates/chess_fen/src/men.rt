//! The placement that a FEN's first field spells (PGN 16.1.3.1).

ghost use Rattle.std.specs.Prelude.{◌≡◌};
ghost use Rattle.chess_fen.specs.Reading.{board_in};

use super::fault::FenFault;
use super::ranks::read_cells;
use chess_types::Placement;

/// The men of the first field.
#[tactic(auto, unfolding(crate::specs::Reading::board_in))]
pub fn read_placement(field: &[u8]) -> Result<Placement, FenFault>
    ensures { result ≡ board_in field.now }
{
    let cells = read_cells(field).ok_or(FenFault::Placement)?;
    match Placement::try_from_cells(&cells) {
        Ok(placement) => Ok(placement),
        Err(fault) => Err(FenFault::from(fault)),
    }
}
