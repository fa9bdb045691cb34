//! How a board of C begins and ends: made, copied, set to a position or a game, and freed.

ghost use Rattle.std.specs.Prelude.{◌≡◌, ◌⊎◌, Some, None, if◌then◌else◌, is_some, true};
ghost use Rattle.chess_fen.specs.Reading.{fen_reading};
ghost use Rattle.chess_cli.specs.Answers.{HasEffect, set_effect};
ghost use Rattle.chess_c.specs.Calls.{Acts, IsCopied};
ghost use Rattle.chess_c.specs.Held.{new_board};
ghost use Rattle.chess_c.specs.Loads.{Loads, LoadsAsItComes};
ghost use Rattle.chess_c.specs.Positions.{position_meant};

use crate::codes::ended_code;
use crate::keys::Keys;
use crate::positions::CPosition;
use crate::session::Session;
use crate::slot::{Slot, put, settle, take};
use chess_bindings::{EMPTY, MEMORY, OK};
use chess_cli::{Board, Refusal};
use chess_memory::{Heap, Kept, Lender, handle_to, heap_of};

/// A board as a game begins, in the slot; what was there is freed. Where there is no memory the slot is as it was.
#[unsafe(no_mangle)]
pub extern "C" fn jatshegi_board_new(lender: Lender, keys: &'static Keys, slot: &mut Slot) -> u32
    ensures { ((result ≡ 0) × (slot.new.held ≡ Some new_board)) ⊎ ((result ≡ 2) × (slot.new.held ≡ slot.old.held)) }
{
    let Some(heap) = heap_of(lender, &keys.heap) else {
        return MEMORY;
    };
    let Ok(session) = Session::new(heap, &keys.table) else {
        return MEMORY;
    };
    settle(slot, session, handle_to(heap))
}

/// Puts a copy of the board into the other slot: the same game with its tags, at the same node, no search, and an engine at its start; what was there is freed.
/// Where there is no memory the other slot is as it was.
#[unsafe(no_mangle)]
pub extern "C" fn jatshegi_board_copy(alloc: Kept, slot: &mut Slot, other: &mut Slot) -> u32
    ensures copied { IsCopied slot.old.held result other.old.held other.new.held }
    ensures same { slot.new.held ≡ slot.old.held }
{
    let Some(session) = take(slot, alloc) else {
        return EMPTY;
    };
    let (copied, handle) = (session.copy(), session.handle());
    put(slot, session, alloc);
    match copied {
        Ok(copy) => settle(other, copy, handle),
        Err(_) => MEMORY,
    }
}

/// Frees the board; the slot is then empty.
#[unsafe(no_mangle)]
pub extern "C" fn jatshegi_board_free(alloc: Kept, slot: &mut Slot)
    ensures { slot.new.held ≡ None }
{
    drop(take(slot, alloc));
}

/// Gives back what memory the board doesn't need between calls: the page on which the answers to lines are written, which the next line asks for again. The
/// board, its search and its engine stay as they are.
#[unsafe(no_mangle)]
pub extern "C" fn jatshegi_board_trim(alloc: Kept, slot: &mut Slot) -> u32
    ensures code { result ≡ (if is_some slot.old.held then 0 else 1) }
    ensures same { slot.new.held ≡ slot.old.held }
{
    let Some(mut session) = take(slot, alloc) else {
        return EMPTY;
    };
    session.trim();
    put(slot, session, alloc);
    OK
}

/// Begins a tree from the position of a FEN; the one that was there is freed.
#[unsafe(no_mangle)]
pub extern "C" fn jatshegi_board_set(alloc: Kept, slot: &mut Slot, fen: &[u8]) -> u32
    ensures { Acts (λ board ended after. HasEffect true (set_effect (fen_reading fen.now)) board ended after) slot.old.held result slot.new.held }
{
    let Some(mut session) = take(slot, alloc) else {
        return EMPTY;
    };
    let ended = session.board.set(fen);
    put(slot, session, alloc);
    ended_code(ended)
}

// The same of a position by its fields: its FEN reads as it.
fn set_position(board: &mut Board<'static, Heap>, position: &CPosition) -> Result<(), Refusal>
    ensures { HasEffect true (set_effect (position_meant position.now)) board.old result board.new }
{
    let made = position.read()?;
    board.set(chess_fen::write(&made).as_str().as_bytes())
}

/// Begins a tree from the position of six fields; the one that was there is freed. The fields are taken as they are: what a FEN's reader would drop, a right
/// without its king and its rook at home and a target that no advance explains, is a fault (PGN 16.1.3).
#[unsafe(no_mangle)]
pub extern "C" fn jatshegi_board_set_position(
    alloc: Kept,
    slot: &mut Slot,
    position: &CPosition,
) -> u32
    ensures { Acts (λ board ended after. HasEffect true (set_effect (position_meant position.now)) board ended after) slot.old.held result slot.new.held }
{
    let Some(mut session) = take(slot, alloc) else {
        return EMPTY;
    };
    let ended = set_position(&mut session.board, position);
    put(slot, session, alloc);
    ended_code(ended)
}

/// Begins with the tree of the game at the start of a text (PGN), the cursor at its root, and says how many bytes of the text the game takes: 0. 16 where
/// only whitespace follows. Where no game is there, the number of the text's first fault and 40, and the fault's place where else the bytes taken are. 2 where
/// there is no memory, and nothing is written. But for 0 the board is as it was.
#[unsafe(no_mangle)]
pub extern "C" fn jatshegi_board_load(
    alloc: Kept,
    slot: &mut Slot,
    text: &[u8],
    used: &mut usize,
) -> u32
    ensures { Loads text.now slot.old.held result used.old used.new slot.new.held }
{
    let Some(mut session) = take(slot, alloc) else {
        return EMPTY;
    };
    let code = session.load(text, used);
    put(slot, session, alloc);
    code
}

/// The same of a text of which only the first bytes are known, or all (`is_last`): begins with the game that is at their start whatever follows, and says how
/// many bytes it takes: 0. Else the board is as it was, and it is answered as by `jatshegi_game_next`.
#[unsafe(no_mangle)]
pub extern "C" fn jatshegi_board_load_next(
    alloc: Kept,
    slot: &mut Slot,
    text: &[u8],
    is_last: bool,
    used: &mut usize,
) -> u32
    ensures { LoadsAsItComes text.now is_last slot.old.held result used.old used.new slot.new.held }
{
    let Some(mut session) = take(slot, alloc) else {
        return EMPTY;
    };
    let code = session.load_next(text, is_last, used);
    put(slot, session, alloc);
    code
}
