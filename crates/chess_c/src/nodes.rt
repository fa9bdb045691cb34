//! The node at the cursor, by which a tree is walked: its move, its notes, and how many children it has.
ghost use Rattle.std.specs.Prelude.{◌≡◌, length};
ghost use Rattle.chess_tree.specs.Forest.{count};
ghost use Rattle.chess_tree.specs.GameTree.{here, nodes_here};
ghost use Rattle.chess_bindings.specs.Handed.{IsHanded};
ghost use Rattle.chess_c.specs.Asked.{IsMoveHere};
ghost use Rattle.chess_c.specs.Calls.{Asks};

use crate::moves::CMove;
use crate::slot::{Slot, put, take};
use chess_bindings::{AT_ROOT, EMPTY, OK, hand};
use chess_cli::Board;
use chess_memory::{Heap, Kept};

/// How many plies the cursor is below the root, at most 20,000.
#[unsafe(no_mangle)]
pub extern "C" fn jatshegi_board_depth(alloc: Kept, slot: &mut Slot, depth: &mut u32) -> u32
    ensures { Asks (depth.new ≡ depth.old) (λ board code. (code ≡ 0) × (depth.new ≡ length board.path)) slot.old.held result slot.new.held }
{
    let Some(session) = take(slot, alloc) else {
        return EMPTY;
    };
    *depth = session.board.tree().depth();
    put(slot, session, alloc);
    OK
}

/// How many children the node at the cursor has, at most 1,000,000.
#[unsafe(no_mangle)]
pub extern "C" fn jatshegi_board_children(alloc: Kept, slot: &mut Slot, children: &mut u32) -> u32
    ensures { Asks (children.new ≡ children.old) (λ board code. (code ≡ 0) × (children.new ≡ count (nodes_here board))) slot.old.held result slot.new.held }
{
    let Some(session) = take(slot, alloc) else {
        return EMPTY;
    };
    *children = session.board.tree().child_count();
    put(slot, session, alloc);
    OK
}

// The move that led to the cursor.
fn move_here(board: &Board<'static, Heap>, m: &mut CMove) -> u32
    ensures { IsMoveHere (here board.now).move result m.old m.new }
{
    match board.tree().move_at() {
        None => AT_ROOT,
        Some(found) => {
            *m = CMove::of(found);
            OK
        }
    }
}

/// The move that leads to the node at the cursor.
#[unsafe(no_mangle)]
pub extern "C" fn jatshegi_board_move(alloc: Kept, slot: &mut Slot, m: &mut CMove) -> u32
    ensures { Asks (m.new ≡ m.old) (λ board code. IsMoveHere (here board).move code m.old m.new) slot.old.held result slot.new.held }
{
    let Some(session) = take(slot, alloc) else {
        return EMPTY;
    };
    let code = move_here(&session.board, m);
    put(slot, session, alloc);
    code
}

/// The comment of the node at the cursor, which is empty where there is none (PGN 5).
#[unsafe(no_mangle)]
pub extern "C" fn jatshegi_board_comment_of(
    alloc: Kept,
    slot: &mut Slot,
    text: &mut [u8],
    count: &mut usize,
) -> u32
    ensures { Asks ((text.new ≡ text.old) × (count.new ≡ count.old)) (λ board code. IsHanded (here board).comment code count.new text.old text.new) slot.old.held result slot.new.held }
{
    let Some(session) = take(slot, alloc) else {
        return EMPTY;
    };
    let code = hand(session.board.tree().notes().comment, text, count);
    put(slot, session, alloc);
    code
}

/// The annotation numbers of the node at the cursor, in the order in which they were added (PGN 8.2.4).
#[unsafe(no_mangle)]
pub extern "C" fn jatshegi_board_annotations_of(
    alloc: Kept,
    slot: &mut Slot,
    numbers: &mut [u8],
    count: &mut usize,
) -> u32
    ensures { Asks ((numbers.new ≡ numbers.old) × (count.new ≡ count.old)) (λ board code. IsHanded (here board).nags code count.new numbers.old numbers.new) slot.old.held result slot.new.held }
{
    let Some(session) = take(slot, alloc) else {
        return EMPTY;
    };
    let code = hand(session.board.tree().notes().nags, numbers, count);
    put(slot, session, alloc);
    code
}
