//! Why a text is no FEN: each fault with its number and its name.

ghost use Rattle.std.specs.Prelude.{◌≡◌};
ghost use Rattle.chess_fen.specs.Faults.{fault_of};

use chess_types::PositionFault;
use thiserror::Error;

/// Why a text is no FEN. Where several apply, the first in this order is reported.
#[derive(Clone, Copy, Debug, PartialEq, Eq, Error)]
pub enum FenFault {
    /// Neither four nor six fields between spaces (PGN 16.1.3).
    #[error("a FEN has six fields, or the first four of them")]
    Fields = 1,
    /// The first field isn't eight ranks of eight squares each in letters and digits (PGN 16.1.3.1).
    #[error("the men are not eight ranks of eight squares")]
    Placement = 2,
    /// Not exactly one king a side (FIDE Laws 2.2).
    #[error("each side has one king")]
    Kings = 3,
    /// A pawn stands on rank 1 or rank 8 (FIDE Laws 3.7).
    #[error("no pawn stands on the first or the last rank")]
    PawnRank = 4,
    /// A side has more than 16 men (FIDE Laws 2.2).
    #[error("a side has at most 16 men")]
    TooManyMen = 5,
    /// The side to move is neither `w` nor `b` (PGN 16.1.3.2).
    #[error("the side to move is w or b")]
    Side = 6,
    /// The castling field is neither `-` nor one to four different letters of `KQkq` (PGN 16.1.3.3).
    #[error("the castling field is - or different letters of KQkq")]
    Castling = 7,
    /// The en passant field is neither `-` nor a square, `a1` to `h8` (PGN 16.1.3.4).
    #[error("the en passant field is - or a square")]
    Target = 8,
    /// The halfmove clock or the fullmove number isn't decimal digits alone, or is over 99,999 (PGN 16.1.3.5 and 16.1.3.6).
    #[error("the clock and the number are decimal numbers of at most 99999")]
    Counter = 9,
    /// The side not to move is in check (FIDE Laws 3.9).
    #[error("the side not to move is in check")]
    InCheck = 10,
}

impl From<PositionFault> for FenFault {
    ghost from_gives = { λ fault found. found ≡ fault_of fault };

    /// The fault of the field that spells what is wrong.
    fn from(fault: PositionFault) -> FenFault {
        match fault {
            PositionFault::Kings => FenFault::Kings,
            PositionFault::PawnRank => FenFault::PawnRank,
            PositionFault::TooManyMen => FenFault::TooManyMen,
            PositionFault::Rights => FenFault::Castling,
            PositionFault::Target => FenFault::Target,
            PositionFault::Counters => FenFault::Counter,
            PositionFault::InCheck => FenFault::InCheck,
        }
    }
}

impl FenFault {
    ghost use Rattle.std.specs.Prelude.{◌≡◌};
    ghost use Rattle.chess_fen.specs.Faults.{fen_fault_number, fen_fault_name};

    /// The fault's number, 1 to 10.
    pub fn number(self) -> u8
        ensures { result ≡ fen_fault_number self }
    {
        self as u8
    }

    /// The fault's name, as `InCheck`.
    pub fn name(self) -> &'static str
        ensures { result.now ≡ fen_fault_name self }
    {
        match self {
            FenFault::Fields => "Fields",
            FenFault::Placement => "Placement",
            FenFault::Kings => "Kings",
            FenFault::PawnRank => "PawnRank",
            FenFault::TooManyMen => "TooManyMen",
            FenFault::Side => "Side",
            FenFault::Castling => "Castling",
            FenFault::Target => "Target",
            FenFault::Counter => "Counter",
            FenFault::InCheck => "InCheck",
        }
    }
}
