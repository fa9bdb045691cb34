//! Why a text is no game: each kind of fault with its number and its name, and where it is.

ghost use Rattle.std.specs.Prelude.{◌≡◌};

use std::alloc::{AllocError, AllocFailed};
use thiserror::Error;

/// Why a text is no game (PGN), or a game can't be kept or written.
#[derive(Clone, Copy, Debug, PartialEq, Eq, Error)]
pub enum FaultKind {
    /// A byte that begins no token, or a malformed annotation.
    #[error("a byte that begins no token")]
    Token = 1,
    /// A malformed tag.
    #[error("a malformed tag")]
    Tag = 2,
    /// A word that names no legal move, or more than one.
    #[error("a word that names no move to play")]
    Move = 3,
    /// A parenthesis that begins or ends no variation, or a game that ends in one.
    #[error("a misplaced variation")]
    Variation = 4,
    /// More than 128 open variations.
    #[error("more than 128 open variations")]
    Deep = 5,
    /// The text ends in a comment, a tag or a variation.
    #[error("the text ends too soon")]
    Truncated = 6,
    /// A FEN tag whose value spells no position.
    #[error("a FEN that spells no position")]
    Fen = 7,
    /// There is no memory.
    #[error("there is no memory")]
    Memory = 8,
    /// A game of more than 1,048,576 bytes, or of more than 20,000 plies in a line.
    #[error("a game that is too large")]
    TooLarge = 9,
}

impl FaultKind {
    ghost use Rattle.std.specs.Prelude.{◌≡◌};
    ghost use Rattle.chess_items.specs.Faults.{fault_number, name_of};

    /// The kind's number, 1 to 9.
    pub fn number(self) -> u8
        ensures { result ≡ fault_number self }
    {
        self as u8
    }

    /// The kind's name, as `TooLarge`.
    pub fn name(self) -> &'static str
        ensures { result.now ≡ name_of self }
    {
        match self {
            FaultKind::Token => "Token",
            FaultKind::Tag => "Tag",
            FaultKind::Move => "Move",
            FaultKind::Variation => "Variation",
            FaultKind::Deep => "Deep",
            FaultKind::Truncated => "Truncated",
            FaultKind::Fen => "Fen",
            FaultKind::Memory => "Memory",
            FaultKind::TooLarge => "TooLarge",
        }
    }
}

/// A fault, and the place of the first byte that it concerns, from the text's beginning.
#[derive(Clone, Copy, Debug, PartialEq, Eq, Error)]
#[error("{kind}, at byte {place}")]
pub struct PgnFault {
    pub place: u64,
    pub kind: FaultKind,
}

/// A fault at that place.
pub fn at_place(at: usize, kind: FaultKind) -> PgnFault
    ensures { result ≡ record { place = at; kind = kind } }
{
    PgnFault {
        place: at as u64,
        kind,
    }
}

impl From<AllocError> for PgnFault {
    ghost use Rattle.std.specs.Prelude.{◌≡◌};
    ghost use Rattle.chess_items.specs.declared.fault.FaultKind.TheVariants.{Memory};

    ghost from_gives = { λ _ fault. fault ≡ record { place = 0; kind = Memory } };

    /// That there is no memory, at place 0.
    fn from(_: AllocError) -> Self {
        Self {
            place: 0,
            kind: FaultKind::Memory,
        }
    }
}

impl<X: Drop> From<AllocFailed<X>> for PgnFault {
    ghost use Rattle.std.specs.Prelude.{◌≡◌};
    ghost use Rattle.chess_items.specs.declared.fault.FaultKind.TheVariants.{Memory};

    ghost from_gives = { λ _ fault. fault ≡ record { place = 0; kind = Memory } };

    /// That there is no memory, at place 0.
    fn from(_: AllocFailed<X>) -> Self {
        Self {
            place: 0,
            kind: FaultKind::Memory,
        }
    }
}
