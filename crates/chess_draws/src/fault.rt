//! Why a line of moves doesn't take a move.

use thiserror::Error;

/// Why a move isn't added to a line. Where several apply, the first in this order is reported.
#[derive(Clone, Copy, Debug, PartialEq, Eq, Error)]
pub enum LineFault {
    /// The move isn't legal (FIDE Laws 3.10.2).
    #[error("the move isn't legal")]
    Illegal = 1,
    /// The line has 20,000 plies.
    #[error("a line has at most 20000 plies")]
    TooLong = 2,
    /// There is no memory for the line to grow.
    #[error("there is no memory")]
    Memory = 3,
}

impl LineFault {
    ghost use Rattle.std.specs.Prelude.{◌≡◌};
    ghost use Rattle.chess_draws.specs.Faults.{line_fault_number};

    /// The fault's number, 1 to 3.
    pub fn number(self) -> u8
        ensures { result ≡ line_fault_number self }
    {
        self as u8
    }
}
