//! The end of a file, which is no game: whitespace, NUL and ^Z.

ghost use Rattle.std.specs.Prelude.{◌≡◌};
ghost use Rattle.std.specs.List.{list_all};
ghost use Rattle.chess_salvage.specs.Endings.{is_end, is_spent};

/// The most bytes after the last game that are no game of their own.
const MOST: usize = 1_048_576;

// Whitespace (PGN 7), NUL, or ^Z, by which DOS ends a text.
#[tactic(auto, unfolding(crate::specs::Endings::is_spent, chess_items::specs::Items::is_blank))]
fn is_spent(b: u8) -> bool
    ensures { result ≡ is_spent b }
{
    matches!(b, 9..=13 | b' ' | 0 | 26)
}

// Whether all bytes are.
fn are_spent(text: &[u8]) -> bool
    ensures { result ≡ list_all is_spent text.now }
{
    text.iter().all(|b| is_spent(*b))
}

/// Whether a text is the end of a file and no game: at most 1,048,576 bytes, each of them whitespace (9 to 13 and 32), NUL (0) or ^Z (26).
pub fn is_end(text: &[u8]) -> bool
    ensures { result ≡ is_end text.now }
{
    text.len() <= MOST && are_spent(text)
}
