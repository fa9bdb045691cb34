//! Why a line of the board is refused: each refusal with its number and its name.

use chess_fen::FenFault;
use chess_san::SanFault;
use chess_tree::{PlayFault, TreeFault};

/// Why a line of the board is refused. Number and name together say which.
#[derive(Clone, Copy)]
pub enum Refusal {
    /// The text is no FEN.
    Fen(FenFault),
    /// The word has no form of a move.
    Form,
    /// There is no such child, or no node at that path.
    NoSuch,
    /// The word names no legal move.
    Illegal,
    /// The node is 20,000 plies deep.
    TooLong,
    /// The cursor is at the root.
    AtRoot,
    /// The word names more than one legal move.
    Ambiguous,
    /// The tree holds 1,000,000 moves.
    Full,
    /// A right brace is in the comment.
    BadComment,
    /// There is no memory.
    Memory,
    /// Another first word.
    Command,
    /// Wrong words after a command.
    Argument,
    /// The line has more than 1,048,576 bytes.
    LongLine,
}

impl Refusal {
    ghost use Rattle.std.specs.Prelude.{◌≡◌, ◌≤◌, length};
    ghost use Rattle.chess_cli.specs.Refusals.{refusal_number, refusal_name};

    /// The refusal's number.
    pub fn number(self) -> u8
        ensures { result ≡ refusal_number self }
    {
        match self {
            Refusal::Fen(fault) => fault.number(),
            Refusal::Form | Refusal::NoSuch => 1,
            Refusal::Illegal | Refusal::TooLong | Refusal::AtRoot => 2,
            Refusal::Ambiguous | Refusal::Full => 3,
            Refusal::BadComment => 4,
            Refusal::Memory => 5,
            Refusal::Command => 6,
            Refusal::Argument => 7,
            Refusal::LongLine => 8,
        }
    }

    /// The refusal's name, as `AtRoot`.
    pub fn name(self) -> &'static str
        ensures value { result.now ≡ refusal_name self }
        ensures short { length result.now ≤ 32 }
    {
        match self {
            Refusal::Fen(fault) => fault.name(),
            Refusal::Form => "Form",
            Refusal::NoSuch => "NoSuch",
            Refusal::Illegal => "Illegal",
            Refusal::TooLong => "TooLong",
            Refusal::AtRoot => "AtRoot",
            Refusal::Ambiguous => "Ambiguous",
            Refusal::Full => "Full",
            Refusal::BadComment => "BadComment",
            Refusal::Memory => "Memory",
            Refusal::Command => "Command",
            Refusal::Argument => "Argument",
            Refusal::LongLine => "LongLine",
        }
    }
}

impl From<FenFault> for Refusal {
    ghost use Rattle.std.specs.Prelude.{◌≡◌};
    ghost use Rattle.chess_cli.specs.declared.board_command.refusal.Refusal.TheVariants.{Fen};

    ghost from_gives = { λ fault refusal. refusal ≡ Fen fault };

    /// The refusal of a text that is no FEN.
    fn from(fault: FenFault) -> Self {
        Self::Fen(fault)
    }
}

impl From<SanFault> for Refusal {
    ghost use Rattle.std.specs.Prelude.{◌≡◌};
    ghost use Rattle.chess_cli.specs.Refusals.{san_refusal};

    ghost from_gives = { λ fault refusal. refusal ≡ san_refusal fault };

    /// The refusal of a text that names no one move.
    fn from(fault: SanFault) -> Self {
        match fault {
            SanFault::Form => Self::Form,
            SanFault::Illegal => Self::Illegal,
            SanFault::Ambiguous => Self::Ambiguous,
        }
    }
}

impl From<TreeFault> for Refusal {
    ghost use Rattle.std.specs.Prelude.{◌≡◌};
    ghost use Rattle.chess_cli.specs.Refusals.{tree_refusal};

    ghost from_gives = { λ fault refusal. refusal ≡ tree_refusal fault };

    /// The refusal of an edit of a tree.
    fn from(fault: TreeFault) -> Self {
        match fault {
            TreeFault::NoSuch => Self::NoSuch,
            TreeFault::AtRoot => Self::AtRoot,
            TreeFault::Full => Self::Full,
            TreeFault::BadComment => Self::BadComment,
            TreeFault::Memory => Self::Memory,
        }
    }
}

impl From<PlayFault> for Refusal {
    ghost use Rattle.std.specs.Prelude.{◌≡◌};
    ghost use Rattle.chess_cli.specs.Refusals.{play_refusal};

    ghost from_gives = { λ fault refusal. refusal ≡ play_refusal fault };

    /// The refusal of a move that isn't played.
    fn from(fault: PlayFault) -> Self {
        match fault {
            PlayFault::Illegal => Self::Illegal,
            PlayFault::TooLong => Self::TooLong,
            PlayFault::Full => Self::Full,
            PlayFault::Memory => Self::Memory,
        }
    }
}
