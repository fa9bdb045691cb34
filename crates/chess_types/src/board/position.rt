//! Positions with their six fields, castling rights, and where a game begins.

ghost use Rattle.std.specs.Prelude.{◌≡◌, ◌<◌, replicate, ⊤};
ghost use Rattle.chess_types.specs.declared.board.man.Kind.TheVariants.{Pawn};
ghost use Rattle.chess_types.specs.board.Position.{OpponentNotInCheck, holds, home_square, king_home, rook_home, start};
ghost use Rattle.chess_types.specs.board.Pseudo.{castles_to, crossed, reached};
ghost use Rattle.chess_types.specs.board.After.{is_castling};
ghost use Rattle.std.specs.Cmp.{partial_equiv_from_equiv};
ghost use Rattle.std.specs.Prelude.{◌&&◌, ◌==◌};
ghost use Rattle.chess_types.specs.board.Men.{same_colour};
ghost use Rattle.chess_types.specs.board.Repetition.{same_rights, same_target};
ghost use Rattle.chess_types.specs.board.Equality.{same_state};
ghost use Rattle.chess_types.specs.steps.SameLaws.{same_state-laws};

use super::man::{Colour, Kind, Man};
use super::moves::Move;
use super::placement::Placement;
use super::square::Square;
use std::alloc::AllocError;
use std::marker::Model;

/// The two sides of the board to castle to (FIDE Laws 3.8.2).
#[derive(Clone, Copy, Debug, PartialEq, Eq)]
pub enum Wing {
    KingSide,
    QueenSide,
}

impl Colour {
    /// Where the king stands as a game begins: e1 or e8.
    pub fn king_home(self) -> Square
        ensures { result ≡ king_home self }
    {
        Square::from_index(match self {
            Colour::White => 4,
            Colour::Black => 60,
        })
    }
}

impl Wing {
    // The square of one of two files, by the wing, on the rank where the colour's king begins.
    #[inline(always)]
    fn home_square(self, colour: Colour, king_side: u8, queen_side: u8) -> Square
        requires king_side { king_side < 8 }
        requires queen_side { queen_side < 8 }
        ensures { result ≡ home_square colour self king_side queen_side }
    {
        let file = match self {
            Wing::KingSide => king_side,
            Wing::QueenSide => queen_side,
        };
        match colour {
            Colour::White => Square::from_index(file),
            Colour::Black => Square::from_index(56 + file),
        }
    }

    /// Where that wing's rook stands as a game begins: h1, a1, h8 or a8.
    pub fn rook_home(self, colour: Colour) -> Square
        ensures { result ≡ rook_home colour self }
    {
        self.home_square(colour, 7, 0)
    }

    /// The square that the king crosses when it castles to that wing, and that the rook comes to: f1, d1, f8 or d8.
    pub fn crossed(self, colour: Colour) -> Square
        ensures { result ≡ crossed colour self }
    {
        self.home_square(colour, 5, 3)
    }

    /// The square that the king reaches when it castles to that wing: g1, c1, g8 or c8.
    pub fn reached(self, colour: Colour) -> Square
        ensures { result ≡ reached colour self }
    {
        self.home_square(colour, 6, 2)
    }

    /// Whether the move goes from the king's home to the square that castling to that wing reaches (FIDE Laws 3.8.2).
    #[inline(always)]
    pub fn castles_to(self, side: Colour, m: Move) -> bool
        ensures { result ≡ castles_to side self m }
    {
        m.from == side.king_home() && m.to == self.reached(side)
    }

    /// Whether the man castles to that wing by the move (FIDE Laws 3.8.2).
    #[inline(always)]
    pub fn is_castling(self, man: Man, m: Move) -> bool
        ensures { result ≡ is_castling man self m }
    {
        man.kind.is_king() && self.castles_to(man.colour, m)
    }
}

/// The castling rights, one for each colour and wing.
#[derive(Clone, Copy, Debug, PartialEq, Eq)]
pub struct Rights {
    pub white_king: bool,
    pub white_queen: bool,
    pub black_king: bool,
    pub black_queen: bool,
}

impl Rights {
    /// None of the rights.
    pub const NONE: Rights = Rights {
        white_king: false,
        white_queen: false,
        black_king: false,
        black_queen: false,
    };

    /// Whether the colour may still castle to that wing.
    pub fn holds(self, colour: Colour, wing: Wing) -> bool
        ensures { result ≡ holds self colour wing }
    {
        match (colour, wing) {
            (Colour::White, Wing::KingSide) => self.white_king,
            (Colour::White, Wing::QueenSide) => self.white_queen,
            (Colour::Black, Wing::KingSide) => self.black_king,
            (Colour::Black, Wing::QueenSide) => self.black_queen,
        }
    }
}

/// The six fields of a position, with every part of 'well formed' but the last: the side not to move may be in check.
/// Contracts see the record `PositionParts` of `specs/Position.antt`.
#[derive(Debug, Drop)]
pub struct Setup {
    /// The men.
    pub placement: Placement,
    /// The side to move.
    pub side: Colour,
    /// The castling rights, each held only where that king and rook stand at home.
    pub rights: Rights,
    /// The en passant target: the square passed over by a pawn's advance of two squares just made.
    pub target: Option<Square>,
    /// The halfmove clock: plies since the last pawn move or capture.
    pub clock: u32,
    /// The fullmove number, at least 1, one more after each move of Black.
    pub number: u32,
}

impl Model for Setup {
    ghost use Rattle.chess_types.specs.board.Position.{PositionParts};
    ghost use Rattle.chess_types.specs.steps.StateCode.{coded_state};

    ghost Value = { PositionParts };

    ghost coded = { coded_state };

    ghost use Rattle.chess_types.specs.board.Position.{IsSetup};

    ghost view = { λ s. record { placement = s.placement; side = s.side; rights = s.rights; target = s.target; clock = s.clock; number = s.number } };

    ghost invariant = { λ s. IsSetup (record { placement = s.placement; side = s.side; rights = s.rights; target = s.target; clock = s.clock; number = s.number }) };
}

impl Clone for Setup {
    ghost is_clone = { λ setup copy. copy ≡ setup };

    ghost is_infallible = { λ _. ⊤ };

    /// The same six fields; never an error.
    fn clone(&self) -> Result<Setup, AllocError> {
        Ok(Setup {
            placement: self.placement.clone()?,
            side: self.side,
            rights: self.rights,
            target: self.target,
            clock: self.clock,
            number: self.number,
        })
    }
}

// Whether all rights are held by both or by neither.
fn same_rights(one: Rights, other: Rights) -> bool
    ensures { result ≡ same_rights one other }
{
    let white = (one.white_king == other.white_king) & (one.white_queen == other.white_queen);
    let black_king = one.black_king == other.black_king;
    let black_queen = one.black_queen == other.black_queen;
    white & black_king & black_queen
}

// Whether there is no target in both, or the same one.
fn same_target(one: Option<Square>, other: Option<Square>) -> bool
    ensures { result ≡ same_target one other }
{
    match (one, other) {
        (None, None) => true,
        (Some(target), Some(same)) => target == same,
        _ => false,
    }
}

// Whether all fields but the men are equal.
fn same_fields(one: &Setup, other: &Setup) -> bool
    ensures { result ≡ (same_colour one.now.side other.now.side && (same_rights one.now.rights other.now.rights && (same_target one.now.target other.now.target && (one.now.clock == other.now.clock && one.now.number == other.now.number)))) }
{
    let same_counters = (one.clock == other.clock) & (one.number == other.number);
    let same_rest = same_rights(one.rights, other.rights)
        & (same_target(one.target, other.target) & same_counters);
    (one.side == other.side) & same_rest
}

impl PartialEq for Setup {
    ghost eq = { same_state };

    ghost laws = { partial_equiv_from_equiv same_state-laws };

    /// Whether all six fields are equal. (Whether one position repeats another by the Laws is another question.)
    #[tactic(auto, unfolding(crate::specs::board::Equality::same_state))]
    fn eq(&self, other: &Setup) -> bool {
        self.placement == other.placement && same_fields(self, other)
    }
}

impl Eq for Setup {
    ghost laws = { same_state-laws };
}

/// A well-formed position: a setup in which the side not to move isn't in check.
#[derive(Debug, Drop)]
pub struct Position {
    setup: Setup,
}

impl Model for Position {
    ghost use Rattle.chess_types.specs.board.Position.{PositionParts};
    ghost use Rattle.chess_types.specs.steps.StateCode.{coded_state};

    ghost Value = { PositionParts };

    ghost coded = { coded_state };

    ghost use Rattle.chess_types.specs.board.Position.{OpponentNotInCheck};

    ghost view = { λ p. p.setup };

    ghost invariant = { λ p. OpponentNotInCheck p.setup };
}

impl Clone for Position {
    ghost is_clone = { λ position copy. copy ≡ position };

    ghost is_infallible = { λ _. ⊤ };

    /// The same position; never an error.
    fn clone(&self) -> Result<Position, AllocError> {
        Ok(Position::new(self.setup.clone()?))
    }
}

impl PartialEq for Position {
    ghost eq = { same_state };

    ghost laws = { partial_equiv_from_equiv same_state-laws };

    /// Whether all six fields are equal, the counters too. (Whether one position repeats another by the Laws is another question.)
    fn eq(&self, other: &Position) -> bool {
        self.setup == other.setup
    }
}

impl Eq for Position {
    ghost laws = { same_state-laws };
}

impl Position {
    /// The position of these fields, in which the side not to move isn't in check.
    pub fn new(setup: Setup) -> Position
        requires { OpponentNotInCheck setup }
        ensures { result ≡ setup }
    {
        Position { setup }
    }

    /// The position in which a game begins (FIDE Laws 2.3).
    pub fn start() -> Position
        ensures { result ≡ start }
    {
        Position::new(Setup {
            placement: Placement::start(),
            side: Colour::White,
            rights: Rights {
                white_king: true,
                white_queen: true,
                black_king: true,
                black_queen: true,
            },
            target: None,
            clock: 0,
            number: 1,
        })
    }

    /// The fields.
    pub fn setup(&self) -> &Setup
        ensures value { result.now ≡ self.now }
        ensures quiet { OpponentNotInCheck self.now }
    {
        &self.setup
    }

    /// The fields, for whom the position is no longer needed.
    pub fn into_setup(self) -> Setup
        ensures value { result ≡ self }
        ensures quiet { OpponentNotInCheck self }
    {
        let Position { setup } = self;
        setup
    }
}
