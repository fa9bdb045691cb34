//! The whole of a FEN, read as a position (PGN 16.1.3).

ghost use Rattle.std.specs.Prelude.{◌≡◌, ◌≤◌, IfOk};
ghost use Rattle.chess_types.specs.board.Position.{IsWellFormed};
ghost use Rattle.chess_fen.specs.Reading.{fen_reading};

use super::counters::read_counter;
use super::fault::FenFault;
use super::fields::{read_side, split_fields};
use super::men::read_placement;
use super::rights::{kept_rights, read_castling};
use super::target::{kept_target, read_target};
use chess_attack::in_check;
use chess_types::{Position, Setup};

/// The position that a FEN spells (PGN 16.1.3). Spaces may repeat between the fields and stand at the ends; without the two
/// counters the halfmove clock is 0 and the fullmove number 1, and a fullmove number of 0 is read as 1. The letters of the
/// castling rights may stand in any order. A right whose king or rook isn't at home is dropped, and so is a target that no
/// pawn's advance just made explains. Both counters are at most 99,999.
///
/// # Errors
///
/// The first fault of the text, in the order of `FenFault`.
#[tactic(auto, unfolding(crate::specs::Reading::fen_reading))]
pub fn read(text: &[u8]) -> Result<Position, FenFault>
    ensures exact { result ≡ fen_reading text.now }
    ensures well_formed { IfOk result IsWellFormed }
    ensures counters { IfOk result (λ p. (p.clock ≤ 99999) × (p.number ≤ 99999)) }
{
    let fields = split_fields(text)?;
    let placement = read_placement(fields.placement)?;
    let side = read_side(fields.side)?;
    let rights = read_castling(fields.castling)?;
    let target = read_target(fields.target)?;
    let clock = read_counter(fields.clock)?;
    let number = read_counter(fields.number)?;
    if in_check(&placement, side.opponent()) {
        return Err(FenFault::InCheck);
    }
    let rights = kept_rights(&placement, rights);
    let target = kept_target(side, &placement, target);
    Ok(Position::new(Setup {
        placement,
        side,
        rights,
        target,
        clock,
        number: number.max(1),
    }))
}
