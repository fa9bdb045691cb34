//! The entries of an opening book: found by a position's key, and read as legal moves.

ghost use Rattle.std.specs.Prelude.{◌≡◌, ◌<◌, ◌≤◌, ◌+◌, ◌*◌, ℕ};
ghost use Rattle.chess_types.specs.board.Board.{man_at};
ghost use Rattle.chess_types.specs.board.Position.{man_on};
ghost use Rattle.chess_types.specs.board.Pseudo.{reached};
ghost use Rattle.chess_polyglot.specs.Books.{IsBook, AreFound, big_endian, book_move, castled, entries_in, goes_to_rook, key_at, move_named, named_move, promotion_named};

use chess_moves::is_legal;
use chess_play::Live;
use chess_types::{Colour, Kind, Move, Placement, Setup, Square, Wing, is_king_of};

/// How many entries a book has: one in each 16 bytes.
pub fn entries_in(book: &[u8]) -> usize
    ensures { result ≡ entries_in book.now }
{
    book.len() / 16
}

/// What an entry of a book says.
#[derive(Clone, Copy, Debug, PartialEq, Eq)]
pub struct Entry {
    /// The key of the position.
    pub key: u64,
    /// The move, as `book_move` reads it.
    pub number: u16,
    /// How often to play it, beside the position's other moves.
    pub weight: u16,
    /// A number for a program's own use.
    pub learn: u32,
}

impl Entry {
    /// What an entry of a book says, which are counted from 0.
    #[tactic(auto, unfolding(crate::specs::Books::key_at))]
    pub fn read(book: &[u8], entry: usize) -> Entry
        requires { entry < entries_in book.now }
        ensures key { result.key ≡ key_at book.now entry }
        ensures number { result.number ≡ big_endian book.now (16 * entry + 8) 2 }
        ensures weight { result.weight ≡ big_endian book.now (16 * entry + 10) 2 }
        ensures learn { result.learn ≡ big_endian book.now (16 * entry + 12) 4 }
    {
        let at = 16 * entry;
        Entry {
            key: key_at(book, entry),
            number: u16::from_be_bytes([book[at + 8], book[at + 9]]),
            weight: u16::from_be_bytes([book[at + 10], book[at + 11]]),
            learn: u32::from_be_bytes([book[at + 12], book[at + 13], book[at + 14], book[at + 15]]),
        }
    }
}

// The key of an entry.
#[tactic(auto, unfolding(crate::specs::Books::key_at))]
fn key_at(book: &[u8], entry: usize) -> u64
    requires { entry < entries_in book.now }
    ensures { result ≡ key_at book.now entry }
{
    let at = 16 * entry;
    u64::from_be_bytes([
        book[at],
        book[at + 1],
        book[at + 2],
        book[at + 3],
        book[at + 4],
        book[at + 5],
        book[at + 6],
        book[at + 7],
    ])
}

// The first entry whose key isn't less, by halves.
fn first_of(book: &[u8], key: u64) -> usize
    ensures within { result ≤ entries_in book.now }
    ensures before { IsBook book.now → (i : ℕ) → i < result → key_at book.now i < key }
    ensures after { IsBook book.now → (i : ℕ) → result ≤ i → i < entries_in book.now → key ≤ key_at book.now i }
{
    let mut low = 0;
    let mut high = entries_in(book);
    while low < high {
        let middle = low + (high - low) / 2;
        if key_at(book, middle) < key {
            low = middle + 1;
        } else {
            high = middle;
        }
    }
    low
}

/// Where a book has the entries of a key: the first of them, counted from 0, and how many there are, one after another. A text whose keys don't
/// ascend is no book: then some of them may not be found.
pub fn find(book: &[u8], key: u64) -> (usize, usize)
    ensures { AreFound book.now key result.0 result.1 }
{
    let first = first_of(book, key);
    let mut count = 0;
    while first + count < entries_in(book) && key_at(book, first + count) == key {
        count += 1;
    }
    (first, count)
}

// What a pawn becomes.
fn promotion_named(code: u16) -> Option<Option<Kind>>
    ensures { result ≡ promotion_named code }
{
    match code {
        0 => Some(None),
        1 => Some(Some(Kind::Knight)),
        2 => Some(Some(Kind::Bishop)),
        3 => Some(Some(Kind::Rook)),
        4 => Some(Some(Kind::Queen)),
        _ => None,
    }
}

// The move as it is written.
fn move_named(number: u16) -> Option<Move>
    ensures { result ≡ move_named number }
{
    let promo = promotion_named(number / 4096 % 8)?;
    Some(Move {
        from: Square::from_index((number / 64 % 64) as u8),
        to: Square::from_index((number % 64) as u8),
        promo,
    })
}

// Whether the man is the king, and goes from its home to that wing's rook's.
fn goes_to_rook(placement: &Placement, side: Colour, wing: Wing, m: Move) -> bool
    ensures { result ≡ goes_to_rook (man_at placement.now) side wing m }
{
    is_king_of(side, placement.get(m.from))
        && m.from == side.king_home()
        && m.to == wing.rook_home(side)
}

// The move with the king on the square that it reaches as it castles.
fn reaching(side: Colour, wing: Wing, m: Move) -> Move
    ensures { result ≡ record { from = m.from; to = reached side wing; promo = m.promo } }
{
    Move {
        to: wing.reached(side),
        ..m
    }
}

// The move that the written one stands for.
fn castled(placement: &Placement, side: Colour, m: Move) -> Move
    ensures { result ≡ castled (man_at placement.now) side m }
{
    if goes_to_rook(placement, side, Wing::KingSide, m) {
        return reaching(side, Wing::KingSide, m);
    }
    if goes_to_rook(placement, side, Wing::QueenSide, m) {
        return reaching(side, Wing::QueenSide, m);
    }
    m
}

/// The move that an entry's number stands for in the position, legal or not: the king's move onto its own rook's home is castling, written as the king's
/// move of two squares. `None` where the number is no move's.
pub fn named_move(setup: &Setup, number: u16) -> Option<Move>
    ensures { result ≡ named_move (man_on setup.now) setup.now.side number }
{
    let m = move_named(number)?;
    Some(castled(&setup.placement, setup.side, m))
}

/// The legal move that an entry's number stands for, where it stands for one. The halfmove clock and the fullmove number are at most 1,000,000. All is
/// as before but for the ticks.
#[tactic(auto, unfolding(crate::specs::Books::book_move))]
pub fn book_move(live: &mut Live, number: u16) -> Option<Move>
    requires clock { live.old.position.clock ≤ 1000000 }
    requires number { live.old.position.number ≤ 1000000 }
    ensures value { result ≡ book_move live.old.position number }
    ensures position { live.new.position ≡ live.old.position }
    ensures words { live.new.words ≡ live.old.words }
{
    let m = named_move(live.position(), number)?;
    if is_legal(live, m) { Some(m) } else { None }
}
