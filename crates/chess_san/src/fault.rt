//! Why a text names no move to play.

use thiserror::Error;

/// Why a text names no move to play (PGN 8.2.3).
#[derive(Clone, Copy, Debug, PartialEq, Eq, Error)]
pub enum SanFault {
    /// The text has none of the forms.
    #[error("the text has no form of a move")]
    Form = 1,
    /// It has a form, and names no legal move.
    #[error("no legal move has that text")]
    Illegal = 2,
    /// It names more than one.
    #[error("more than one legal move has that text")]
    Ambiguous = 3,
}

impl SanFault {
    ghost use Rattle.std.specs.Prelude.{◌≡◌};
    ghost use Rattle.chess_san.specs.Faults.{san_fault_number};

    /// The fault's number, 1 to 3.
    pub fn number(self) -> u8
        ensures { result ≡ san_fault_number self }
    {
        self as u8
    }
}
