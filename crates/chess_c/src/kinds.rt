//! What a referee asks: what sort of move one is, and which side can't mate any more.
ghost use Rattle.std.specs.Prelude.{◌≡◌};
ghost use Rattle.chess_types.specs.board.Lines.{last};
ghost use Rattle.chess_types.specs.board.Position.{man_on};
ghost use Rattle.chess_tree.specs.GameTree.{line_to};
ghost use Rattle.chess_c.specs.Calls.{Asks};
ghost use Rattle.chess_c.specs.Codes.{colour_of_code};
ghost use Rattle.chess_c.specs.Kinds.{IsOfKinds, IsUnable, kinds_there, sort};
ghost use Rattle.chess_c.specs.Moves.{move_meant};

use crate::codes::colour_in;
use crate::moves::CMove;
use crate::slot::{Slot, put, take};
use chess_bindings::{ARGUMENT, EMPTY, ILLEGAL, OK};
use chess_cli::Board;
use chess_draws::cannot_mate;
use chess_memory::{Heap, Kept};
use chess_play::{captured, is_en_passant};
use chess_types::{Move, Setup, Wing};

// The number of a sort, where the move is of it.
fn sort(is_one: bool, number: u32) -> u32
    ensures { result ≡ sort is_one number }
{
    if is_one { number } else { 0 }
}

// The sorts that a move is of, added up.
fn kinds_of(setup: &Setup, m: Move) -> u32
    ensures { result ≡ kinds_there setup.now (man_on setup.now m.from) m }
{
    let Some(man) = setup.placement.get(m.from) else {
        return 0;
    };
    sort(captured(setup, m).is_some(), 1)
        + sort(is_en_passant(setup.target, man, m), 2)
        + sort(Wing::KingSide.is_castling(man, m), 4)
        + sort(Wing::QueenSide.is_castling(man, m), 8)
        + sort(man.kind.is_pawn(), 16)
}

// The sorts of a legal move.
fn put_kinds(board: &mut Board<'static, Heap>, m: CMove, kinds: &mut u32) -> u32
    ensures value { IsOfKinds (move_meant m) (last (line_to board.old)) result kinds.old kinds.new }
    ensures as_before { board.new ≡ board.old }
{
    let Some(read) = m.read() else {
        return ILLEGAL;
    };
    if !board.is_legal(read) {
        return ILLEGAL;
    }
    *kinds = kinds_of(board.live().position(), read);
    OK
}

/// Whether the move is legal, and what sort it is of, added up: 1 for a capture, 2 en passant, 4 and 8 for castling to the king's and the queen's side, 16 for
/// a move of a pawn (FIDE Laws 3.1, 3.7.3.1, 3.8.2).
#[unsafe(no_mangle)]
pub extern "C" fn jatshegi_board_kinds(
    alloc: Kept,
    slot: &mut Slot,
    m: CMove,
    kinds: &mut u32,
) -> u32
    ensures { Asks (kinds.new ≡ kinds.old) (λ board code. IsOfKinds (move_meant m) (last (line_to board)) code kinds.old kinds.new) slot.old.held result slot.new.held }
{
    let Some(mut session) = take(slot, alloc) else {
        return EMPTY;
    };
    let code = put_kinds(&mut session.board, m, kinds);
    put(slot, session, alloc);
    code
}

// Whether the side of a number can't mate.
fn put_unable(setup: &Setup, side: u8, is_unable: &mut bool) -> u32
    ensures { IsUnable (colour_of_code side) setup.now result is_unable.old is_unable.new }
{
    let Some(side) = colour_in(side) else {
        return ARGUMENT;
    };
    *is_unable = cannot_mate(setup, side);
    OK
}

/// Whether a side, 0 for White and 1 for Black, can't mate any more by any series of legal moves: it has only its king, or the position is dead (FIDE Laws 5.2.2,
/// 6.9; `mating_laws` of `chess_theorems`). `false` doesn't say that it can.
#[unsafe(no_mangle)]
pub extern "C" fn jatshegi_board_cannot_mate(
    alloc: Kept,
    slot: &mut Slot,
    side: u8,
    is_unable: &mut bool,
) -> u32
    ensures { Asks (is_unable.new ≡ is_unable.old) (λ board code. IsUnable (colour_of_code side) (last (line_to board)) code is_unable.old is_unable.new) slot.old.held result slot.new.held }
{
    let Some(session) = take(slot, alloc) else {
        return EMPTY;
    };
    let code = put_unable(session.board.live().position(), side, is_unable);
    put(slot, session, alloc);
    code
}
