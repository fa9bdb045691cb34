//! Moves made and taken back, steps, and edits of the tree at the cursor, for C.

ghost use Rattle.std.specs.Prelude.{◌≡◌, ◌++◌, ◌∷◌, [], false, if◌then◌else◌, is_ok, nat_lt, true};
ghost use Rattle.chess_types.specs.board.Lines.{last};
ghost use Rattle.chess_san.specs.Naming.{san_reading};
ghost use Rattle.chess_tree.specs.Edits.{parent};
ghost use Rattle.chess_tree.specs.Forest.{count};
ghost use Rattle.chess_tree.specs.GameTree.{annotated_here, at_path, deleted, line_to, main_line, nodes_here, promoted_here, unannotated_here};
ghost use Rattle.chess_cli.specs.Answers.{Does, HasEffect, comment_effect, has_words, if_it_exists, names_new, not_at_root, play_effect};
ghost use Rattle.chess_tree.specs.Undo.{undone};
ghost use Rattle.chess_c.specs.Calls.{Acts};
ghost use Rattle.chess_c.specs.Asked.{SaysAdded, is_new_in, play_in};
ghost use Rattle.chess_c.specs.Moves.{move_meant};

use crate::codes::ended_code;
use crate::moves::CMove;
use crate::slot::{Slot, put, take};
use chess_bindings::EMPTY;
use chess_cli::{Board, Refusal};
use chess_memory::{Heap, Kept};

// Makes the move of three numbers.
fn play(board: &mut Board<'static, Heap>, m: CMove, added: &mut bool) -> Result<(), Refusal>
    ensures effect { HasEffect (is_new_in (move_meant m) board.old) (play_in (move_meant m) board.old) board.old result board.new }
    ensures adds { added.new ≡ (if is_ok result then is_new_in (move_meant m) board.old else added.old) }
{
    let Some(legal) = m.read() else {
        return Err(Refusal::Illegal);
    };
    *added = board.make(legal)?;
    Ok(())
}

// Makes the move that a text names.
fn play_text(board: &mut Board<'static, Heap>, text: &[u8], added: &mut bool) -> Result<(), Refusal>
    ensures effect { HasEffect (names_new board.old (san_reading (last (line_to board.old)) text.now)) (play_effect board.old (san_reading (last (line_to board.old)) text.now)) board.old result board.new }
    ensures adds { added.new ≡ (if is_ok result then names_new board.old (san_reading (last (line_to board.old)) text.now) else added.old) }
{
    *added = board.play(text)?;
    Ok(())
}

/// Makes a move at the cursor: steps to the first child that has it, else to a new one, and says whether it added a node.
#[unsafe(no_mangle)]
pub extern "C" fn jatshegi_board_play(
    alloc: Kept,
    slot: &mut Slot,
    m: CMove,
    added: &mut bool,
) -> u32
    ensures acts { Acts (λ board ended after. HasEffect (is_new_in (move_meant m) board) (play_in (move_meant m) board) board ended after) slot.old.held result slot.new.held }
    ensures adds { SaysAdded (is_new_in (move_meant m)) slot.old.held result added.old added.new }
{
    let Some(mut session) = take(slot, alloc) else {
        return EMPTY;
    };
    let ended = play(&mut session.board, m, added);
    put(slot, session, alloc);
    ended_code(ended)
}

/// Makes the move that a text names, in standard algebraic notation or from square to square, and says whether it added a node.
#[unsafe(no_mangle)]
pub extern "C" fn jatshegi_board_play_text(
    alloc: Kept,
    slot: &mut Slot,
    text: &[u8],
    added: &mut bool,
) -> u32
    ensures acts { Acts (λ board ended after. HasEffect (names_new board (san_reading (last (line_to board)) text.now)) (play_effect board (san_reading (last (line_to board)) text.now)) board ended after) slot.old.held result slot.new.held }
    ensures adds { SaysAdded (λ board. names_new board (san_reading (last (line_to board)) text.now)) slot.old.held result added.old added.new }
{
    let Some(mut session) = take(slot, alloc) else {
        return EMPTY;
    };
    let ended = play_text(&mut session.board, text, added);
    put(slot, session, alloc);
    ended_code(ended)
}

/// Takes a played move back: steps to the parent, and takes the node out that it leaves where it was added and nothing hangs on it.
#[unsafe(no_mangle)]
pub extern "C" fn jatshegi_board_undo(alloc: Kept, slot: &mut Slot, added: bool) -> u32
    ensures { Acts (λ board ended after. HasEffect false (not_at_root board.path (undone added board)) board ended after) slot.old.held result slot.new.held }
{
    let Some(mut session) = take(slot, alloc) else {
        return EMPTY;
    };
    let ended = session.board.undo(added);
    put(slot, session, alloc);
    ended_code(ended)
}

/// Steps to the parent: the node stays in the tree.
#[unsafe(no_mangle)]
pub extern "C" fn jatshegi_board_back(alloc: Kept, slot: &mut Slot) -> u32
    ensures { Acts (λ board ended after. HasEffect false (not_at_root board.path (at_path (parent board.path) board)) board ended after) slot.old.held result slot.new.held }
{
    let Some(mut session) = take(slot, alloc) else {
        return EMPTY;
    };
    let ended = session.board.back();
    put(slot, session, alloc);
    ended_code(ended)
}

/// Steps to a child, by its place among its siblings, from 0.
#[unsafe(no_mangle)]
pub extern "C" fn jatshegi_board_step(alloc: Kept, slot: &mut Slot, place: u32) -> u32
    ensures { Acts (λ board ended after. HasEffect false (if_it_exists (nat_lt place (count (nodes_here board))) (at_path (board.path ++ place ∷ []) board)) board ended after) slot.old.held result slot.new.held }
{
    let Some(mut session) = take(slot, alloc) else {
        return EMPTY;
    };
    let ended = session.board.step(place);
    put(slot, session, alloc);
    ended_code(ended)
}

/// Goes to the root.
#[unsafe(no_mangle)]
pub extern "C" fn jatshegi_board_start(alloc: Kept, slot: &mut Slot) -> u32
    ensures { Acts (λ board ended after. HasEffect false (Does (at_path [] board)) board ended after) slot.old.held result slot.new.held }
{
    let Some(mut session) = take(slot, alloc) else {
        return EMPTY;
    };
    let ended = session.board.start();
    put(slot, session, alloc);
    ended_code(ended)
}

/// Goes along the main continuations, as far as they lead.
#[unsafe(no_mangle)]
pub extern "C" fn jatshegi_board_end(alloc: Kept, slot: &mut Slot) -> u32
    ensures { Acts (λ board ended after. HasEffect false (Does (at_path (board.path ++ main_line (nodes_here board)) board)) board ended after) slot.old.held result slot.new.held }
{
    let Some(mut session) = take(slot, alloc) else {
        return EMPTY;
    };
    let ended = session.board.end();
    put(slot, session, alloc);
    ended_code(ended)
}

/// Puts the node before its siblings.
#[unsafe(no_mangle)]
pub extern "C" fn jatshegi_board_promote(alloc: Kept, slot: &mut Slot) -> u32
    ensures { Acts (λ board ended after. HasEffect false (not_at_root board.path (promoted_here board)) board ended after) slot.old.held result slot.new.held }
{
    let Some(mut session) = take(slot, alloc) else {
        return EMPTY;
    };
    let ended = session.board.promote();
    put(slot, session, alloc);
    ended_code(ended)
}

/// Takes out the node and all below it; the cursor is then at its parent.
#[unsafe(no_mangle)]
pub extern "C" fn jatshegi_board_delete(alloc: Kept, slot: &mut Slot) -> u32
    ensures { Acts (λ board ended after. HasEffect false (not_at_root board.path (deleted board)) board ended after) slot.old.held result slot.new.held }
{
    let Some(mut session) = take(slot, alloc) else {
        return EMPTY;
    };
    let ended = session.board.delete();
    put(slot, session, alloc);
    ended_code(ended)
}

/// A text for the node's comment; the one that it had is forgotten.
#[unsafe(no_mangle)]
pub extern "C" fn jatshegi_board_comment(alloc: Kept, slot: &mut Slot, comment: &[u8]) -> u32
    ensures { Acts (λ board ended after. HasEffect (has_words comment.now) (comment_effect board comment.now) board ended after) slot.old.held result slot.new.held }
{
    let Some(mut session) = take(slot, alloc) else {
        return EMPTY;
    };
    let ended = session.board.comment(comment);
    put(slot, session, alloc);
    ended_code(ended)
}

/// An annotation number more, 0 to 255 (PGN 8.2.4).
#[unsafe(no_mangle)]
pub extern "C" fn jatshegi_board_annotate(alloc: Kept, slot: &mut Slot, number: u8) -> u32
    ensures { Acts (λ board ended after. HasEffect true (not_at_root board.path (annotated_here number board)) board ended after) slot.old.held result slot.new.held }
{
    let Some(mut session) = take(slot, alloc) else {
        return EMPTY;
    };
    let ended = session.board.nag(number);
    put(slot, session, alloc);
    ended_code(ended)
}

/// Takes all annotation numbers of the node out (PGN 8.2.4); no memory is taken.
#[unsafe(no_mangle)]
pub extern "C" fn jatshegi_board_clear_annotations(alloc: Kept, slot: &mut Slot) -> u32
    ensures { Acts (λ board ended after. HasEffect false (not_at_root board.path (unannotated_here board)) board ended after) slot.old.held result slot.new.held }
{
    let Some(mut session) = take(slot, alloc) else {
        return EMPTY;
    };
    let ended = session.board.clear_nags();
    put(slot, session, alloc);
    ended_code(ended)
}
