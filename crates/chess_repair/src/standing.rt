//! The place of a byte in a game's text: among its moves, in a tag, or in a comment.

ghost use Rattle.std.specs.Prelude.{◌≡◌};
ghost use Rattle.chess_repair.specs.Letters.{after_byte, after_move_byte, is_of_moves};

/// The place of a byte in a game's text.
#[derive(Clone, Copy, PartialEq, Eq)]
pub enum Standing {
    /// Among the moves, in the first column.
    Line,
    /// Elsewhere among the moves.
    Moves,
    /// In a tag, before its value.
    Tag,
    /// In a tag's value.
    Value,
    /// After a backslash there.
    Escaped,
    /// In a tag, after its value.
    AfterValue,
    /// In a comment between braces.
    Comment,
    /// In the rest of a line, which is a comment or hidden.
    Rest,
}

// The place after a byte among the moves.
fn after_move_byte(b: u8) -> Standing
    ensures { result ≡ after_move_byte b }
{
    match b {
        b'[' => Standing::Tag,
        b'{' => Standing::Comment,
        b';' => Standing::Rest,
        b'\n' => Standing::Line,
        _ => Standing::Moves,
    }
}

impl Standing {
    /// The place after a byte that stands here.
    pub fn after_byte(self, b: u8) -> Standing
        ensures { result ≡ after_byte self b }
    {
        match self {
            Standing::Line if b == b'%' => Standing::Rest,
            Standing::Line | Standing::Moves => after_move_byte(b),
            Standing::Tag => match b {
                b'"' => Standing::Value,
                b']' => Standing::Moves,
                _ => Standing::Tag,
            },
            Standing::Value => match b {
                b'"' => Standing::AfterValue,
                b'\\' => Standing::Escaped,
                b'\n' => Standing::Line,
                _ => Standing::Value,
            },
            Standing::Escaped => match b {
                b'\n' => Standing::Line,
                _ => Standing::Value,
            },
            Standing::AfterValue => match b {
                b'"' => Standing::Value,
                b']' => Standing::Moves,
                b'\n' => Standing::Line,
                _ => Standing::AfterValue,
            },
            Standing::Comment => match b {
                b'}' => Standing::Moves,
                _ => Standing::Comment,
            },
            Standing::Rest => match b {
                b'\n' => Standing::Line,
                _ => Standing::Rest,
            },
        }
    }

    /// Whether a byte that stands here may be a letter of a man.
    pub fn is_of_moves(self) -> bool
        ensures { result ≡ is_of_moves self }
    {
        matches!(self, Standing::Line | Standing::Moves)
    }
}
