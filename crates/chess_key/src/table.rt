//! The table of words that keys are made of, one for each man on each square.

ghost use Rattle.std.specs.Prelude.{◌≡◌};
ghost use Rattle.chess_key.specs.Keys.{key_word};

use chess_types::{Man, Square};
use rand_core::utils::NextWord;
use rand_pcg::Pcg64;
use std::marker::Model;

/// A word for each of the 12 men on each of the 64 squares. Contracts see the list of the 768 words.
#[repr(C)]
#[derive(Drop)]
pub struct KeyTable {
    words: [u64; 768],
}

impl Model for KeyTable {
    ghost use Rattle.std.specs.Prelude.{List, ℕ};

    ghost Value = { List ℕ };

    ghost view = { λ t. t.words };

    ghost inverse = { λ words. record { words = words } };
}

impl KeyTable {
    /// The table of these words, which may be any: the first 64 are those of White's pawn on a1 to h8, then come White's
    /// knight, bishop, rook, queen and king, then Black's men in that order.
    pub fn new(words: [u64; 768]) -> KeyTable
        ensures { result ≡ words }
    {
        KeyTable { words }
    }

    /// A table of well-mixed words, the same at every call. Whatever the words of a table are, no answer depends on them.
    pub fn fixed() -> KeyTable {
        let mut random = Pcg64::new(0x9e37_79b9_7f4a_7c15, 0xf39c_c060_5ced_c835);
        let mut words = [0; 768];
        for word in &mut words {
            *word = random.next_word();
        }
        KeyTable::new(words)
    }

    /// The word of the man on the square.
    pub(crate) fn word(&self, man: Man, square: Square) -> u64
        ensures { result ≡ key_word self.now man square }
    {
        self.words[64 * man.number() + square.index()]
    }
}
