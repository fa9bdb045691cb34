//! Polyglot's opening books.
ghost use Rattle.std.specs.Prelude.{◌≡◌, ◌<◌, ◌==◌};
ghost use Rattle.chess_types.specs.board.Lines.{last};
ghost use Rattle.chess_tree.specs.GameTree.{line_to};
ghost use Rattle.chess_polyglot.specs.Books.{AreFound, entries_in};
ghost use Rattle.chess_polyglot.specs.Keys.{polyglot_key};
ghost use Rattle.chess_c.specs.Books.{IsBooked, booked, entry_move};
ghost use Rattle.chess_c.specs.Calls.{Asks};

use crate::moves::CMove;
use crate::slot::{Slot, put, take};
use chess_bindings::{ARGUMENT, EMPTY, ILLEGAL, OK};
use chess_cli::Board;
use chess_memory::{Heap, Kept};
use chess_polyglot::{Entry, entries_in, find, key as key_of, named_move};
use chess_types::{Move, Setup};

/// The position's key in Polyglot's opening books, by which many programs name positions (http://hgm.nubati.net/book_format.html).
#[unsafe(no_mangle)]
pub extern "C" fn jatshegi_board_key(alloc: Kept, slot: &mut Slot, key: &mut u64) -> u32
    ensures { Asks (key.new ≡ key.old) (λ board code. (code ≡ 0) × (key.new ≡ polyglot_key (last (line_to board)))) slot.old.held result slot.new.held }
{
    let Some(session) = take(slot, alloc) else {
        return EMPTY;
    };
    *key = key_of(session.board.live().position());
    put(slot, session, alloc);
    OK
}

/// Where a book has the entries of a key: the first of them, counted from 0, and how many there are, one after another.
#[unsafe(no_mangle)]
pub extern "C" fn jatshegi_book_find(book: &[u8], key: u64, first: &mut usize, count: &mut usize)
    ensures { AreFound book.now key first.new count.new }
{
    (*first, *count) = find(book, key);
}

// Whether the entry is one of the position.
fn is_of(setup: &Setup, entry: &Entry) -> bool
    ensures { result ≡ (entry.now.key == polyglot_key setup.now) }
{
    entry.key == key_of(setup)
}

// The move that an entry stands for in the position, where it is one of the position's.
fn named_by(setup: &Setup, book: &[u8], entry: usize) -> Option<Move>
    requires { entry < entries_in book.now }
    ensures { result ≡ entry_move setup.now book.now entry }
{
    let read = Entry::read(book, entry);
    if is_of(setup, &read) {
        named_move(setup, read.number)
    } else {
        None
    }
}

// That move at the cursor, where it is legal.
fn booked(board: &mut Board<'static, Heap>, book: &[u8], entry: usize) -> Option<Move>
    requires { entry < entries_in book.now }
    ensures value { result ≡ booked book.now entry (last (line_to board.old)) }
    ensures as_before { board.new ≡ board.old }
{
    let m = named_by(board.live().position(), book, entry)?;
    if board.is_legal(m) { Some(m) } else { None }
}

// What an entry says at the cursor.
fn put_booked(
    board: &mut Board<'static, Heap>,
    book: &[u8],
    entry: usize,
    m: &mut CMove,
    weight: &mut u16,
    learn: &mut u32,
) -> u32
    ensures value { IsBooked book.now entry (last (line_to board.old)) result m.old m.new weight.old weight.new learn.old learn.new }
    ensures as_before { board.new ≡ board.old }
{
    if entry >= entries_in(book) {
        return ARGUMENT;
    }
    let Some(found) = booked(board, book, entry) else {
        return ILLEGAL;
    };
    let read = Entry::read(book, entry);
    *m = CMove::of(found);
    *weight = read.weight;
    *learn = read.learn;
    OK
}

/// The legal move that an entry of a book stands for, where its key is the position's, how often to play it and the number for a program's own use.
#[unsafe(no_mangle)]
pub extern "C" fn jatshegi_board_book_move(
    alloc: Kept,
    slot: &mut Slot,
    book: &[u8],
    entry: usize,
    m: &mut CMove,
    weight: &mut u16,
    learn: &mut u32,
) -> u32
    ensures { Asks ((m.new ≡ m.old) × (weight.new ≡ weight.old) × (learn.new ≡ learn.old)) (λ board code. IsBooked book.now entry (last (line_to board)) code m.old m.new weight.old weight.new learn.old learn.new) slot.old.held result slot.new.held }
{
    let Some(mut session) = take(slot, alloc) else {
        return EMPTY;
    };
    let code = put_booked(&mut session.board, book, entry, m, weight, learn);
    put(slot, session, alloc);
    code
}
