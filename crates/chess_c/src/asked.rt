//! What C asks of a board without changing it: the game's status, counts, checks, moves, texts, and the best move.

ghost use Rattle.std.specs.Prelude.{◌≡◌, ◌<◌, ℕ, max, map, is_some};
ghost use Rattle.std.specs.FinSet.{contains};
ghost use Rattle.chess_types.specs.declared.board.man.Colour.TheVariants.{Black, White};
ghost use Rattle.chess_types.specs.board.Attack.{attacks_for, checks_from, count, in_check};
ghost use Rattle.chess_types.specs.board.Legal.{legal_moves};
ghost use Rattle.chess_types.specs.board.Lines.{last};
ghost use Rattle.chess_types.specs.board.Outcome.{claims, status};
ghost use Rattle.chess_types.specs.board.Position.{man_on};
ghost use Rattle.chess_types.specs.board.Repetition.{repetitions};
ghost use Rattle.chess_types.specs.board.Squares.{squares};
ghost use Rattle.chess_eval.specs.Evaluation.{evaluation};
ghost use Rattle.chess_fen.specs.Writing.{identity, written};
ghost use Rattle.chess_san.specs.Naming.{san_reading};
ghost use Rattle.chess_tree.specs.GameTree.{line_to};
ghost use Rattle.chess_c.specs.Asked.{IsAttackedBy, IsBestAt, IsBestWithin, IsClaimed, IsFollowed, IsPieceAt, IsRead, IsWritten, attackers_of, claims_in, flag, is_legal_meant};
ghost use Rattle.chess_c.specs.Calls.{Asks};
ghost use Rattle.chess_bindings.specs.Codes.{outcome_code};
ghost use Rattle.chess_bindings.specs.Handed.{IsHanded};
ghost use Rattle.chess_bindings.specs.Within.{says_within};
ghost use Rattle.chess_c.specs.Codes.{claims_code, colour_code, colour_of_code};
ghost use Rattle.chess_c.specs.Moves.{move_meant, move_shown};
ghost use Rattle.chess_c.specs.Positions.{position_shown};

use crate::codes::{claims_code, colour_code, colour_in, refusal_code};
use crate::flag::within;
use crate::moves::{CMove, hand_line, hand_moves};
use crate::positions::{CPosition, letter_of};
use crate::slot::{Slot, put, take};
use crate::squares::{put_counts, put_set, word_of};
use crate::stop::{Stop, put_stop, take_stop};
use chess_attack::attackers;
use chess_bindings::{ARGUMENT, EMPTY, ILLEGAL, NONE, OK, hand, outcome_code};
use chess_cli::{Board, Refusal};
use chess_memory::{Heap, Kept};
use chess_moves::in_check;
use chess_play::Live;
use chess_types::{Colour, Square, SquareSet};

/// The side to move: 0 for White, 1 for Black.
#[unsafe(no_mangle)]
pub extern "C" fn jatshegi_board_turn(alloc: Kept, slot: &mut Slot, colour: &mut u8) -> u32
    ensures { Asks (colour.new ≡ colour.old) (λ board code. (code ≡ 0) × (colour.new ≡ colour_code (last (line_to board)).side)) slot.old.held result slot.new.held }
{
    let Some(session) = take(slot, alloc) else {
        return EMPTY;
    };
    *colour = colour_code(session.board.live().position().side);
    put(slot, session, alloc);
    OK
}

// What is on a square, where the number is one.
fn put_piece(live: &Live<'_>, square: u8, piece: &mut u8) -> u32
    ensures { IsPieceAt (man_on live.now.position) square result piece.old piece.new }
{
    if square >= 64 {
        return ARGUMENT;
    }
    let setup = live.position();
    *piece = letter_of(setup.placement.get(Square::from_index(square)));
    OK
}

/// What is on a square: a man's letter (PGN 16.1.3.1), or 0 for nothing.
#[unsafe(no_mangle)]
pub extern "C" fn jatshegi_board_piece_at(
    alloc: Kept,
    slot: &mut Slot,
    square: u8,
    piece: &mut u8,
) -> u32
    ensures { Asks (piece.new ≡ piece.old) (λ board code. IsPieceAt (man_on (last (line_to board))) square code piece.old piece.new) slot.old.held result slot.new.held }
{
    let Some(session) = take(slot, alloc) else {
        return EMPTY;
    };
    let code = put_piece(session.board.live(), square, piece);
    put(slot, session, alloc);
    code
}

/// Whether the king of the side to move is in check (FIDE Laws 3.9.1).
#[unsafe(no_mangle)]
pub extern "C" fn jatshegi_board_in_check(alloc: Kept, slot: &mut Slot, check: &mut bool) -> u32
    ensures { Asks (check.new ≡ check.old) (λ board code. (code ≡ 0) × (check.new ≡ in_check (man_on (last (line_to board))) (last (line_to board)).side)) slot.old.held result slot.new.held }
{
    let Some(session) = take(slot, alloc) else {
        return EMPTY;
    };
    *check = in_check(session.board.live());
    put(slot, session, alloc);
    OK
}

// Whether the numbers are a legal move.
fn is_legal_meant(board: &mut Board<'static, Heap>, m: CMove) -> bool
    ensures value { result ≡ is_legal_meant (last (line_to board.old)) (move_meant m) }
    ensures as_before { board.new ≡ board.old }
{
    match m.read() {
        Some(m) => board.is_legal(m),
        None => false,
    }
}

/// Whether a move is legal (FIDE Laws 3.9.2, 3.10.1); three numbers that are no move are not.
#[unsafe(no_mangle)]
pub extern "C" fn jatshegi_board_is_legal(
    alloc: Kept,
    slot: &mut Slot,
    m: CMove,
    legal: &mut bool,
) -> u32
    ensures { Asks (legal.new ≡ legal.old) (λ board code. (code ≡ 0) × (legal.new ≡ is_legal_meant (last (line_to board)) (move_meant m))) slot.old.held result slot.new.held }
{
    let Some(mut session) = take(slot, alloc) else {
        return EMPTY;
    };
    *legal = is_legal_meant(&mut session.board, m);
    put(slot, session, alloc);
    OK
}

/// The game's status: 0 mate, 1 stalemate, 2 dead, 3 fivefold repetition, 4 the 75 moves, 5 play (FIDE Laws 5.1.1, 5.2.1, 5.2.2, 9.6).
#[unsafe(no_mangle)]
pub extern "C" fn jatshegi_board_outcome(alloc: Kept, slot: &mut Slot, outcome: &mut u32) -> u32
    ensures { Asks (outcome.new ≡ outcome.old) (λ board code. (code ≡ 0) × (outcome.new ≡ outcome_code (status (line_to board)))) slot.old.held result slot.new.held }
{
    let Some(mut session) = take(slot, alloc) else {
        return EMPTY;
    };
    *outcome = outcome_code(session.board.outcome());
    put(slot, session, alloc);
    OK
}

/// The draws that may be claimed: 1 for threefold repetition, and 2 for fifty moves (FIDE Laws 9.2.2, 9.3.2).
#[unsafe(no_mangle)]
pub extern "C" fn jatshegi_board_claims(alloc: Kept, slot: &mut Slot, draws: &mut u32) -> u32
    ensures { Asks (draws.new ≡ draws.old) (λ board code. (code ≡ 0) × (draws.new ≡ claims_code (claims (line_to board)))) slot.old.held result slot.new.held }
{
    let Some(mut session) = take(slot, alloc) else {
        return EMPTY;
    };
    *draws = claims_code(session.board.claimable());
    put(slot, session, alloc);
    OK
}

// What may be claimed with a move.
fn claims_with(board: &mut Board<'static, Heap>, m: CMove, draws: &mut u32) -> u32
    ensures value { IsClaimed (claims_in (move_meant m) (line_to board.old)) result draws.old draws.new }
    ensures as_before { board.new ≡ board.old }
{
    let Some(legal) = m.read() else {
        return ILLEGAL;
    };
    let Some(found) = board.claimable_with(legal) else {
        return ILLEGAL;
    };
    *draws = claims_code(found);
    OK
}

/// The draws that may be claimed with a move (FIDE Laws 9.2.1, 9.3.1).
#[unsafe(no_mangle)]
pub extern "C" fn jatshegi_board_claims_with(
    alloc: Kept,
    slot: &mut Slot,
    m: CMove,
    draws: &mut u32,
) -> u32
    ensures { Asks (draws.new ≡ draws.old) (λ board code. IsClaimed (claims_in (move_meant m) (line_to board)) code draws.old draws.new) slot.old.held result slot.new.held }
{
    let Some(mut session) = take(slot, alloc) else {
        return EMPTY;
    };
    let code = claims_with(&mut session.board, m, draws);
    put(slot, session, alloc);
    code
}

/// How often the position has come up on the way to it, this time included (FIDE Laws 9.2.2).
#[unsafe(no_mangle)]
pub extern "C" fn jatshegi_board_repetitions(alloc: Kept, slot: &mut Slot, times: &mut u32) -> u32
    ensures { Asks (times.new ≡ times.old) (λ board code. (code ≡ 0) × (times.new ≡ repetitions (line_to board))) slot.old.held result slot.new.held }
{
    let Some(mut session) = take(slot, alloc) else {
        return EMPTY;
    };
    *times = session.board.repetitions();
    put(slot, session, alloc);
    OK
}

/// The evaluation, in centipawns for White.
#[unsafe(no_mangle)]
pub extern "C" fn jatshegi_board_evaluation(alloc: Kept, slot: &mut Slot, value: &mut i32) -> u32
    ensures { Asks (value.new ≡ value.old) (λ board code. (code ≡ 0) × (value.new ≡ evaluation (man_on (last (line_to board))))) slot.old.held result slot.new.held }
{
    let Some(session) = take(slot, alloc) else {
        return EMPTY;
    };
    *value = session.board.live().white();
    put(slot, session, alloc);
    OK
}

/// How many men of each colour attack each of the 64 squares, a1 first (FIDE Laws 3.1.2).
#[unsafe(no_mangle)]
pub extern "C" fn jatshegi_board_counts(
    alloc: Kept,
    slot: &mut Slot,
    white: &mut [u8; 64],
    black: &mut [u8; 64],
) -> u32
    ensures { Asks ((white.new ≡ white.old) × (black.new ≡ black.old)) (λ board code. (code ≡ 0) × (white.new ≡ map (count (man_on (last (line_to board))) White) squares) × (black.new ≡ map (count (man_on (last (line_to board))) Black) squares)) slot.old.held result slot.new.held }
{
    let Some(session) = take(slot, alloc) else {
        return EMPTY;
    };
    put_counts(session.board.live(), Colour::White, white);
    put_counts(session.board.live(), Colour::Black, black);
    put(slot, session, alloc);
    OK
}

// Which squares have a man that checks the side to move.
fn put_checks(board: &Board<'static, Heap>, checks: &mut [u8; 64])
    ensures { checks.new ≡ map (λ square. flag (checks_from (man_on (last (line_to board.now))) (last (line_to board.now)).side square)) squares }
{
    put_set(board.checking(), checks);
}

/// For each of the 64 squares, a1 first, 1 where a man on it checks the side to move, else 0 (FIDE Laws 3.9.1).
#[unsafe(no_mangle)]
pub extern "C" fn jatshegi_board_checks(alloc: Kept, slot: &mut Slot, checks: &mut [u8; 64]) -> u32
    ensures { Asks (checks.new ≡ checks.old) (λ board code. (code ≡ 0) × (checks.new ≡ map (λ square. flag (checks_from (man_on (last (line_to board))) (last (line_to board)).side square)) squares)) slot.old.held result slot.new.held }
{
    let Some(session) = take(slot, alloc) else {
        return EMPTY;
    };
    put_checks(&session.board, checks);
    put(slot, session, alloc);
    OK
}

// The men of a colour that attack a square.
fn attackers_in(live: &Live<'_>, colour: Colour, square: Square) -> SquareSet
    ensures { (a : ℕ) → a < 64 → contains result a ≡ attacks_for (man_on live.now.position a) colour (man_on live.now.position) a square }
{
    let setup = live.position();
    attackers(&setup.placement, colour, square)
}

// The same as a word.
fn attacking(live: &Live<'_>, colour: Colour, square: Square) -> u64
    ensures { result ≡ attackers_of (man_on live.now.position) colour square }
{
    word_of(attackers_in(live, colour, square))
}

// That word, where the numbers are a colour and a square.
fn put_attackers(live: &Live<'_>, colour: u8, square: u8, set: &mut u64) -> u32
    ensures { IsAttackedBy (man_on live.now.position) (colour_of_code colour) square result set.old set.new }
{
    let Some(colour) = colour_in(colour) else {
        return ARGUMENT;
    };
    if square >= 64 {
        return ARGUMENT;
    }
    *set = attacking(live, colour, Square::from_index(square));
    OK
}

/// The men of a colour, 0 for White and 1 for Black, that attack a square, whatever is on it: a word in which the bit of each man's square is 1, the lowest
/// for a1. A king and pinned men attack too, a man that another is in the way of doesn't (FIDE Laws 3.1 to 3.8).
#[unsafe(no_mangle)]
pub extern "C" fn jatshegi_board_attackers(
    alloc: Kept,
    slot: &mut Slot,
    colour: u8,
    square: u8,
    set: &mut u64,
) -> u32
    ensures { Asks (set.new ≡ set.old) (λ board code. IsAttackedBy (man_on (last (line_to board))) (colour_of_code colour) square code set.old set.new) slot.old.held result slot.new.held }
{
    let Some(session) = take(slot, alloc) else {
        return EMPTY;
    };
    let code = put_attackers(session.board.live(), colour, square, set);
    put(slot, session, alloc);
    code
}

/// The legal moves in order, and how many they are, at most 432 (FIDE Laws 3.1 to 3.10).
#[unsafe(no_mangle)]
pub extern "C" fn jatshegi_board_moves(
    alloc: Kept,
    slot: &mut Slot,
    moves: &mut [CMove],
    count: &mut usize,
) -> u32
    ensures { Asks ((moves.new ≡ moves.old) × (count.new ≡ count.old)) (λ board code. IsHanded (map move_shown (legal_moves (last (line_to board)))) code count.new moves.old moves.new) slot.old.held result slot.new.held }
{
    let Some(mut session) = take(slot, alloc) else {
        return EMPTY;
    };
    let code = hand_moves(session.board.legal_moves().as_slice(), moves, count);
    put(slot, session, alloc);
    code
}

/// The moves from the root to the cursor, in the order in which they were made, and how many they are, at most 20,000.
#[unsafe(no_mangle)]
pub extern "C" fn jatshegi_board_line(
    alloc: Kept,
    slot: &mut Slot,
    moves: &mut [CMove],
    count: &mut usize,
) -> u32
    ensures { Asks ((moves.new ≡ moves.old) × (count.new ≡ count.old)) (λ board code. IsHanded (map move_shown (line_to board).moves) code count.new moves.old moves.new) slot.old.held result slot.new.held }
{
    let Some(session) = take(slot, alloc) else {
        return EMPTY;
    };
    let code = hand_line(session.board.line(), moves, count);
    put(slot, session, alloc);
    code
}

/// The FEN of the position, at most 128 bytes (PGN 16.1).
#[unsafe(no_mangle)]
pub extern "C" fn jatshegi_board_fen(
    alloc: Kept,
    slot: &mut Slot,
    text: &mut [u8],
    count: &mut usize,
) -> u32
    ensures { Asks ((text.new ≡ text.old) × (count.new ≡ count.old)) (λ board code. IsHanded (written (last (line_to board))) code count.new text.old text.new) slot.old.held result slot.new.held }
{
    let Some(session) = take(slot, alloc) else {
        return EMPTY;
    };
    let code = hand(session.board.fen_text().as_str().as_bytes(), text, count);
    put(slot, session, alloc);
    code
}

/// The text that shows which positions are the same by the Laws, at most 128 bytes: the first four fields of the FEN, with the en passant target only
/// where a legal move captures on it (FIDE Laws 9.2.3; `identity_laws` of `chess_draws`).
#[unsafe(no_mangle)]
pub extern "C" fn jatshegi_board_epd(
    alloc: Kept,
    slot: &mut Slot,
    text: &mut [u8],
    count: &mut usize,
) -> u32
    ensures { Asks ((text.new ≡ text.old) × (count.new ≡ count.old)) (λ board code. IsHanded (identity (last (line_to board))) code count.new text.old text.new) slot.old.held result slot.new.held }
{
    let Some(session) = take(slot, alloc) else {
        return EMPTY;
    };
    let code = hand(
        session.board.identity_text().as_str().as_bytes(),
        text,
        count,
    );
    put(slot, session, alloc);
    code
}

/// The position by its six fields.
#[unsafe(no_mangle)]
pub extern "C" fn jatshegi_board_position(
    alloc: Kept,
    slot: &mut Slot,
    position: &mut CPosition,
) -> u32
    ensures { Asks (position.new ≡ position.old) (λ board code. (code ≡ 0) × (position.new ≡ position_shown (last (line_to board)))) slot.old.held result slot.new.held }
{
    let Some(session) = take(slot, alloc) else {
        return EMPTY;
    };
    *position = CPosition::of(session.board.live().position());
    put(slot, session, alloc);
    OK
}

// The text of a move.
fn write(board: &Board<'static, Heap>, m: CMove, text: &mut [u8], count: &mut usize) -> u32
    ensures { IsWritten (move_meant m) (last (line_to board.now)) result count.old count.new text.old text.new }
{
    let Some(legal) = m.read() else {
        return ILLEGAL;
    };
    match board.write_move(legal) {
        None => ILLEGAL,
        Some(san) => hand(san.as_str().as_bytes(), text, count),
    }
}

/// The text of a legal move in standard algebraic notation, at most 8 bytes (PGN 8.2.3).
#[unsafe(no_mangle)]
pub extern "C" fn jatshegi_board_write(
    alloc: Kept,
    slot: &mut Slot,
    m: CMove,
    text: &mut [u8],
    count: &mut usize,
) -> u32
    ensures { Asks ((text.new ≡ text.old) × (count.new ≡ count.old)) (λ board code. IsWritten (move_meant m) (last (line_to board)) code count.old count.new text.old text.new) slot.old.held result slot.new.held }
{
    let Some(session) = take(slot, alloc) else {
        return EMPTY;
    };
    let code = write(&session.board, m, text, count);
    put(slot, session, alloc);
    code
}

// The move that a text names.
fn read(board: &mut Board<'static, Heap>, text: &[u8], m: &mut CMove) -> u32
    ensures value { IsRead (san_reading (last (line_to board.old)) text.now) result m.old m.new }
    ensures as_before { board.new ≡ board.old }
{
    match board.read_move(text) {
        Ok(named) => {
            *m = CMove::of(named);
            OK
        }
        Err(fault) => refusal_code(Refusal::from(fault)),
    }
}

/// The legal move that a text names, in standard algebraic notation or from square to square (PGN 8.2.3).
#[unsafe(no_mangle)]
pub extern "C" fn jatshegi_board_read(
    alloc: Kept,
    slot: &mut Slot,
    text: &[u8],
    m: &mut CMove,
) -> u32
    ensures { Asks (m.new ≡ m.old) (λ board code. IsRead (san_reading (last (line_to board)) text.now) code m.old m.new) slot.old.held result slot.new.held }
{
    let Some(mut session) = take(slot, alloc) else {
        return EMPTY;
    };
    let code = read(&mut session.board, text, m);
    put(slot, session, alloc);
    code
}

// The best move and its value.
fn best(board: &mut Board<'static, Heap>, depth: u8, m: &mut CMove, value: &mut i32) -> u32
    ensures value { IsBestAt (line_to board.old) depth result m.old m.new value.old value.new }
    ensures as_before { board.new ≡ board.old }
{
    if depth < 1 || depth > 16 {
        return ARGUMENT;
    }
    match board.best_move(depth) {
        None => NONE,
        Some((found, worth)) => {
            *m = CMove::of(found);
            *value = worth;
            OK
        }
    }
}

/// The first legal move of greatest minimax value, 1 to 16 plies deep, with its value for the side to move: centipawns, or 30,000 less the plies to
/// a mate.
#[unsafe(no_mangle)]
pub extern "C" fn jatshegi_board_best(
    alloc: Kept,
    slot: &mut Slot,
    depth: u8,
    m: &mut CMove,
    value: &mut i32,
) -> u32
    ensures { Asks ((m.new ≡ m.old) × (value.new ≡ value.old)) (λ board code. IsBestAt (line_to board) depth code m.old m.new value.old value.new) slot.old.held result slot.new.held }
{
    let Some(mut session) = take(slot, alloc) else {
        return EMPTY;
    };
    let code = best(&mut session.board, depth, m, value);
    put(slot, session, alloc);
    code
}

/// The same, for which at most `nodes` positions may be asked for, the one at the cursor counted, and which is abandoned where the flag of the handle, if
/// there is one, is found set. How many positions were asked for. It takes memory for a line of its own.
#[unsafe(no_mangle)]
pub extern "C" fn jatshegi_board_best_within(
    alloc: Kept,
    slot: &mut Slot,
    depth: u8,
    nodes: u64,
    stop: &mut Stop,
    m: &mut CMove,
    value: &mut i32,
    visited: &mut u64,
) -> u32
    ensures best { Asks ((m.new ≡ m.old) × (value.new ≡ value.old) × (visited.new ≡ visited.old)) (λ board code. IsBestWithin (says_within (max nodes 1) (is_some stop.old.held)) (line_to board) depth code m.old m.new value.old value.new visited.old visited.new) slot.old.held result slot.new.held }
    ensures stop { stop.new.held ≡ stop.old.held }
{
    let Some(session) = take(slot, alloc) else {
        return EMPTY;
    };
    let flag = take_stop(stop, alloc);
    let code = session.best_within(depth, within(nodes.max(1), &flag), m, value, visited);
    put_stop(stop, flag, alloc);
    put(slot, session, alloc);
    code
}

/// The replies to a move that a search of 1 to 16 plies found worth the value: the best moves that follow, the line of its score. They are
/// found within limits, as `jatshegi_board_best_within` finds the move.
#[unsafe(no_mangle)]
pub extern "C" fn jatshegi_board_replies(
    alloc: Kept,
    slot: &mut Slot,
    m: CMove,
    depth: u8,
    value: i32,
    nodes: u64,
    stop: &mut Stop,
    moves: &mut [CMove],
    count: &mut usize,
    visited: &mut u64,
) -> u32
    ensures replies { Asks ((count.new ≡ count.old) × (visited.new ≡ visited.old) × (moves.new ≡ moves.old)) (λ board code. IsFollowed (says_within (max nodes 1) (is_some stop.old.held)) (line_to board) (move_meant m) depth value code count.old count.new visited.old visited.new moves.old moves.new) slot.old.held result slot.new.held }
    ensures stop { stop.new.held ≡ stop.old.held }
{
    let Some(session) = take(slot, alloc) else {
        return EMPTY;
    };
    let flag = take_stop(stop, alloc);
    let code = session.replies_within(
        m,
        depth,
        value,
        within(nodes.max(1), &flag),
        moves,
        count,
        visited,
    );
    put_stop(stop, flag, alloc);
    put(slot, session, alloc);
    code
}
