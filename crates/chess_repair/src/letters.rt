//! The piece letters of another language.

ghost use Rattle.std.specs.Prelude.{◌≡◌, None, true, IfSome};
ghost use Rattle.chess_repair.specs.Letters.{IsOfLetters, are_different, are_letters, is_capital, standard};

use crate::moves::{before_checks, is_file};
use crate::senses::{ends_square, is_rank};

/// The capital letters of the men in a language, as KDTLS in German.
#[derive(Clone, Copy, Debug, PartialEq, Eq)]
pub struct Letters {
    pub king: u8,
    pub queen: u8,
    pub rook: u8,
    pub bishop: u8,
    pub knight: u8,
}

#[tactic(auto, unfolding(crate::specs::Letters::is_capital))]
fn is_capital(b: u8) -> bool
    ensures { result ≡ is_capital b }
{
    matches!(b, b'A'..=b'Z')
}

// Whether all are capital letters, none of which comes twice.
fn are_different(bytes: &[u8]) -> bool
    ensures { result ≡ are_different bytes.now }
{
    let mut rest = bytes;
    while let [b, more @ ..] = rest {
        if !is_capital(*b) || more.contains(b) {
            return false;
        }
        rest = more;
    }
    true
}

impl Letters {
    /// The letters that a text has: the king's, the queen's, the rook's, the bishop's and the knight's. `None` where it isn't five different capital letters
    /// of ASCII.
    pub fn parse(text: &str) -> Option<Letters>
        ensures letters { IfSome result (λ l. IsOfLetters text.now l) }
        ensures none { result ≡ None → are_letters text.now ≡ true → ⊥ }
    {
        let bytes = text.as_bytes();
        let [king, queen, rook, bishop, knight] = bytes else {
            return None;
        };
        if !are_different(bytes) {
            return None;
        }
        Some(Letters {
            king: *king,
            queen: *queen,
            rook: *rook,
            bishop: *bishop,
            knight: *knight,
        })
    }

    /// The standard's letter (PGN 8.2.3.2) for a man's letter; another byte itself.
    #[tactic(auto, unfolding(crate::specs::Letters::standard))]
    pub fn standard(self, b: u8) -> u8
        ensures { result ≡ standard self b }
    {
        if b == self.king {
            b'K'
        } else if b == self.queen {
            b'Q'
        } else if b == self.rook {
            b'R'
        } else if b == self.bishop {
            b'B'
        } else if b == self.knight {
            b'N'
        } else {
            b
        }
    }

    // Whether the standard has another letter for it.
    fn has(self, b: u8) -> bool {
        self.standard(b) != b
    }

    // The place of a letter in a word, after which a text goes on: at its beginning, where a square comes after it, or the man that a pawn is promoted to.
    pub fn place_in(self, word: &[u8], next: &[u8]) -> Option<usize> {
        let bare = before_checks(word);
        match bare {
            [man, path @ ..] if self.has(*man) && has_square(path) => Some(0),
            [.., sign, man] if self.has(*man) && ends_square(*sign) => Some(bare.len() - 1),
            [file, .., b'1' | b'8'] if is_file(*file) => match next {
                [b'(', man, b')', ..] if self.has(*man) => Some(word.len().saturating_add(1)),
                _ => None,
            },
            _ => None,
        }
    }
}

// Whether a text has a file's letter with a rank's digit after it.
fn has_square(text: &[u8]) -> bool {
    for at in 1..text.len() {
        if is_file(text[at - 1]) && is_rank(text[at]) {
            return true;
        }
    }
    false
}
