//! The text of a legal move that was read: mostly its text as read is the one that is written.

ghost use Rattle.std.specs.Prelude.{◌≡◌, ◌≤◌, ◌++◌, Ok, IsTrue, length, true, false, if◌then◌else◌};
ghost use Rattle.arrayvec.specs.ArrayString.{array_string_len};
ghost use Rattle.chess_types.specs.board.After.{after};
ghost use Rattle.chess_types.specs.board.Legal.{is_legal};
ghost use Rattle.chess_types.specs.board.Lines.{last};
ghost use Rattle.chess_san.specs.Naming.{san_reading};
ghost use Rattle.chess_san.specs.Writing.{mark_text, san};
ghost use Rattle.chess_tree.specs.GameTree.{line_to};

use arrayvec::ArrayString;
use chess_san::at_a_glance;
use chess_tree::PlainAnalysis;
use chess_types::Move;
use std::alloc::Allocator;

// The mark after the text of the move that was made last.
#[tactic(auto, unfolding(chess_san::specs::Writing::mark_text))]
fn mark<'a, A: Allocator>(analysis: &mut PlainAnalysis<'a, A>) -> &'static str
    ensures value { result.now ≡ mark_text (last (line_to analysis.old)) }
    ensures len { length result.now ≤ 1 }
    ensures as_before { analysis.new ≡ analysis.old }
{
    if !analysis.in_check() {
        return "";
    }
    match analysis.winner() {
        None => "+",
        Some(_) => "#",
    }
}

/// The text of a legal move that is read, and whether its mark is in it already.
pub fn before<'a, A: Allocator>(
    analysis: &mut PlainAnalysis<'a, A>,
    m: Move,
    read: &[u8],
) -> (ArrayString<8>, bool)
    requires legal { IsTrue (is_legal (last (line_to analysis.old)) m) }
    requires read { san_reading (last (line_to analysis.old)) read.now ≡ Ok m }
    ensures unmarked { result.1 ≡ false → result.0.bytes ++ mark_text (after (last (line_to analysis.old)) m) ≡ san (last (line_to analysis.old)) m }
    ensures len { result.1 ≡ false → array_string_len result.0 ≤ 6 }
    ensures whole { result.1 ≡ true → result.0.bytes ≡ san (last (line_to analysis.old)) m }
    ensures as_before { analysis.new ≡ analysis.old }
{
    if let Some(text) = at_a_glance(analysis.live().position(), m, read) {
        return (text, false);
    }
    (analysis.write_move(m), true)
}

/// The same with the mark, after the move.
pub fn marked<'a, A: Allocator>(
    analysis: &mut PlainAnalysis<'a, A>,
    text: ArrayString<8>,
    whole: bool,
) -> ArrayString<8>
    requires len { whole ≡ false → array_string_len text ≤ 6 }
    ensures text { result.bytes ≡ (if whole then text.bytes else text.bytes ++ mark_text (last (line_to analysis.old))) }
    ensures as_before { analysis.new ≡ analysis.old }
{
    if whole {
        return text;
    }
    let mark = mark(analysis);
    if mark.is_empty() {
        return text;
    }
    let mut text = text;
    text.push_str(mark);
    text
}
