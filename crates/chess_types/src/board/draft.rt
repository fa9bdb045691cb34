//! The six fields of a position that is still being put together, and whether they are a setup.

ghost use Rattle.std.specs.Prelude.{◌≡◌, ◌||◌, not, None, false, ⊤};
ghost use Rattle.std.specs.FinMap as map;
ghost use Rattle.chess_types.specs.declared.board.man.Colour.TheVariants.{White};
ghost use Rattle.chess_types.specs.board.Board.{man_at};
ghost use Rattle.chess_types.specs.board.Position.{holds};
ghost use Rattle.chess_types.specs.board.Faults.{is_home as is_home_of, are_home as are_home_of, is_explained_if, fields_fault as fields_fault_of, setup_fault, tested, with_cell};

use super::faults::{PositionFault, is_explained, is_home};
use super::man::{Colour, Man};
use super::placement::Placement;
use super::position::{Position, Rights, Setup, Wing};
use super::square::Square;
use std::alloc::AllocError;
use std::marker::Model;

/// The six fields of a position that is still being put together: they may be any. `setup` tests them, and
/// `chess_attack::position` makes the position. Contracts see the record `PositionParts` of `specs/board/Position.antt`.
#[derive(Debug, Drop)]
pub struct Draft {
    /// What is on each square, from a1 to h8.
    pub men: [Option<Man>; 64],
    /// The side to move.
    pub side: Colour,
    /// The castling rights.
    pub rights: Rights,
    /// The en passant target: the square passed over by a pawn's advance of two squares just made.
    pub target: Option<Square>,
    /// The halfmove clock: plies since the last pawn move or capture.
    pub clock: u32,
    /// The fullmove number, one more after each move of Black.
    pub number: u32,
}

impl Model for Draft {
    ghost use Rattle.chess_types.specs.board.Cells.{board_of};
    ghost use Rattle.chess_types.specs.board.Position.{PositionParts};
    ghost use Rattle.chess_types.specs.steps.StateCode.{coded_state};

    ghost Value = { PositionParts };

    ghost coded = { coded_state };

    ghost view = { λ d. record { placement = board_of d.men; side = d.side; rights = d.rights; target = d.target; clock = d.clock; number = d.number } };

    ghost use Rattle.std.specs.Prelude.{◌≡◌, length};

    ghost invariant = { λ d. length d.men ≡ 64 };
}

impl Clone for Draft {
    ghost is_clone = { λ draft copy. copy ≡ draft };

    ghost is_infallible = { λ _. ⊤ };

    /// The same six fields; never an error.
    fn clone(&self) -> Result<Draft, AllocError> {
        Ok(Draft { ..*self })
    }
}

// Whether the king and the rook are at home, where the right is held.
fn is_home_if(placement: &Placement, rights: Rights, colour: Colour, wing: Wing) -> bool
    ensures { result ≡ (not (holds rights colour wing) || is_home_of (man_at placement.now) colour wing) }
{
    !rights.holds(colour, wing) || is_home(placement, colour, wing)
}

// Whether each right that is held has its king and its rook at home.
fn are_home(placement: &Placement, rights: Rights) -> bool
    ensures { result ≡ are_home_of (man_at placement.now) rights }
{
    let white = is_home_if(placement, rights, Colour::White, Wing::KingSide)
        & is_home_if(placement, rights, Colour::White, Wing::QueenSide);
    let black = is_home_if(placement, rights, Colour::Black, Wing::KingSide)
        & is_home_if(placement, rights, Colour::Black, Wing::QueenSide);
    white & black
}

// Whether a target is explained, where there is one.
fn is_explained_if(side: Colour, placement: &Placement, target: Option<Square>) -> bool
    ensures { result ≡ is_explained_if side (man_at placement.now) target }
{
    match target {
        None => true,
        Some(square) => is_explained(side, placement, square),
    }
}

// The first thing wrong with the fields other than the men.
#[tactic(auto, unfolding(crate::specs::board::Faults::fields_fault))]
fn fields_fault(
    placement: &Placement,
    side: Colour,
    rights: Rights,
    target: Option<Square>,
    number: u32,
) -> Option<PositionFault>
    ensures { result ≡ fields_fault_of (man_at placement.now) side rights target number }
{
    if !are_home(placement, rights) {
        return Some(PositionFault::Rights);
    }
    if !is_explained_if(side, placement, target) {
        return Some(PositionFault::Target);
    }
    if number == 0 {
        return Some(PositionFault::Counters);
    }
    None
}

impl Draft {
    /// No men, White to move, no castling rights, no target, the halfmove clock at 0 and the fullmove number 1.
    pub fn empty() -> Draft
        ensures { result ≡ record {
          placement = map.empty;
          side = White;
          rights = record { white_king = false; white_queen = false; black_king = false; black_queen = false };
          target = None;
          clock = 0;
          number = 1;
        } }
    {
        Draft {
            men: [None; 64],
            side: Colour::White,
            rights: Rights::NONE,
            target: None,
            clock: 0,
            number: 1,
        }
    }

    /// The fields of a position, to be changed.
    pub fn of(position: &Position) -> Draft
        ensures { result ≡ position.now }
    {
        let setup = position.setup();
        let men = setup.placement.copy_of_cells();
        Draft {
            men,
            side: setup.side,
            rights: setup.rights,
            target: setup.target,
            clock: setup.clock,
            number: setup.number,
        }
    }

    /// Puts a man on the square, whatever was there, or leaves it empty.
    pub fn set(&mut self, at: Square, cell: Option<Man>)
        ensures { self.new ≡ record {
          placement = with_cell self.old.placement at cell;
          side = self.old.side;
          rights = self.old.rights;
          target = self.old.target;
          clock = self.old.clock;
          number = self.old.number;
        } }
    {
        self.men[at.index()] = cell;
    }

    /// The fields, if they are a setup: all but the last part of a well-formed position. The side not to move may be in check.
    ///
    /// # Errors
    ///
    /// The first fault, in the order of `PositionFault`; never `InCheck`.
    pub fn setup(&self) -> Result<Setup, PositionFault>
        ensures { result ≡ tested (setup_fault self.now) self.now }
    {
        let placement = match Placement::try_from_cells(&self.men) {
            Ok(placement) => placement,
            Err(fault) => return Err(fault),
        };
        let other = fields_fault(&placement, self.side, self.rights, self.target, self.number);
        if let Some(fault) = other {
            return Err(fault);
        }
        Ok(Setup {
            placement,
            side: self.side,
            rights: self.rights,
            target: self.target,
            clock: self.clock,
            number: self.number,
        })
    }
}
