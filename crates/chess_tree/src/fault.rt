//! Why a tree refuses a call, and why a move isn't played.

use std::alloc::AllocError;
use thiserror::Error;

/// Why a call on a tree is refused.
#[derive(Clone, Copy, Debug, PartialEq, Eq, Error)]
pub enum TreeFault {
    /// There is no child at that place, or no node at that path.
    #[error("there is no such node")]
    NoSuch = 1,
    /// The cursor is at the root, which has no parent, no siblings and no annotation numbers.
    #[error("the cursor is at the root")]
    AtRoot = 2,
    /// The tree holds 1,000,000 moves.
    #[error("the tree holds 1000000 moves")]
    Full = 3,
    /// A right brace is in the comment, which would end it (PGN 5).
    #[error("a right brace stands in the comment")]
    BadComment = 4,
    /// There is no memory.
    #[error("there is no memory")]
    Memory = 5,
}

impl TreeFault {
    ghost use Rattle.std.specs.Prelude.{◌≡◌};
    ghost use Rattle.chess_tree.specs.Faults.{number_of};

    /// The fault's number, 1 to 5.
    pub fn number(self) -> u8
        ensures { result ≡ number_of self }
    {
        self as u8
    }
}

impl From<AllocError> for TreeFault {
    ghost use Rattle.std.specs.Prelude.{◌≡◌};
    ghost use Rattle.chess_tree.specs.declared.fault.TreeFault.TheVariants.{Memory};

    ghost from_gives = { λ _ fault. fault ≡ Memory };

    /// That there is no memory.
    fn from(_: AllocError) -> Self {
        Self::Memory
    }
}

/// Why a move isn't played or added. Where several apply, the first in this order is reported.
#[derive(Clone, Copy, Debug, PartialEq, Eq, Error)]
pub enum PlayFault {
    /// The move isn't legal (FIDE Laws 3.10.2).
    #[error("the move isn't legal")]
    Illegal,
    /// The node is 20,000 plies deep.
    #[error("a line has at most 20000 plies")]
    TooLong,
    /// The tree holds 1,000,000 moves.
    #[error("the tree holds 1000000 moves")]
    Full,
    /// There is no memory.
    #[error("there is no memory")]
    Memory,
}
