//! A move's text, found from the text that it was read from, without another look at the legal moves.

ghost use Rattle.std.specs.Prelude.{◌≡◌, ◌≤◌, ◌++◌, false, Ok, IfSome, IsTrue, MatchOption};
ghost use Rattle.arrayvec.specs.ArrayString.{array_string_len};
ghost use Rattle.chess_types.specs.board.After.{after};
ghost use Rattle.chess_types.specs.board.Legal.{is_legal};
ghost use Rattle.chess_types.specs.board.Position.{IsSetup, man_on};
ghost use Rattle.chess_san.specs.Naming.{san_reading};
ghost use Rattle.chess_san.specs.Writing.{is_known_alone, mark_text, san};

use crate::course::without_marks;
use crate::form::Origin;
use crate::writer::{man_of, text_by};
use arrayvec::ArrayString;
use chess_types::{Move, Setup};

/// The text of a legal move without its mark, at most 6 bytes, where it is known at a glance: a text was read as that move and no
/// other, so a text without what distinguishes a man from others is enough.
pub fn at_a_glance(setup: &Setup, m: Move, read: &[u8]) -> Option<ArrayString<8>>
    requires setup { IsSetup setup.now }
    requires legal { IsTrue (is_legal setup.now m) }
    requires read { san_reading setup.now read.now ≡ Ok m }
    ensures text { IfSome result (λ text. text.bytes ++ mark_text (after setup.now m) ≡ san setup.now m) }
    ensures len { IfSome result (λ text. array_string_len text ≤ 6) }
    // A pawn's and a king's is always known.
    ensures known { MatchOption result (is_known_alone (man_on setup.now m.from) ≡ false) (λ _. Unit {0}) }
{
    let Some(man) = man_of(setup, m) else {
        return None;
    };
    let text = text_by(setup, man, Origin::NOWHERE, m);
    // A pawn's text names its file, and a king has no rival.
    if man.kind.is_pawn() {
        return Some(text);
    }
    if man.kind.is_king() {
        return Some(text);
    }
    if without_marks(read) == text.as_bytes() {
        return Some(text);
    }
    None
}
