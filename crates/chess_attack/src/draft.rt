//! Six fields made a position, if they are one: the last test is that the side not to move isn't in check.

ghost use Rattle.std.specs.Prelude.{◌≡◌, IfOk};
ghost use Rattle.chess_types.specs.board.Position.{IsWellFormed};
ghost use Rattle.chess_types.specs.board.Faults.{position_fault, tested};

use crate::check::in_check;
use chess_types::{Draft, Position, PositionFault};

/// The position of these fields, if they are one.
///
/// # Errors
///
/// The first fault, in the order of `PositionFault`.
#[tactic(auto, unfolding(chess_types::specs::board::Faults::position_fault))]
pub fn position(draft: &Draft) -> Result<Position, PositionFault>
    ensures exact { result ≡ tested (position_fault draft.now) draft.now }
    ensures well_formed { IfOk result IsWellFormed }
{
    let setup = draft.setup()?;
    if in_check(&setup.placement, setup.side.opponent()) {
        return Err(PositionFault::InCheck);
    }
    Ok(Position::new(setup))
}
