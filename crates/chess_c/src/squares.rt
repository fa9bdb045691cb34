//! Attack counts and sets of squares as C sees them: 64 bytes, or the bits of a word.

ghost use Rattle.std.specs.Prelude.{◌≡◌, ◌<◌, ℕ, cond, map};
ghost use Rattle.std.specs.FinSet.{contains, insert};
ghost use Rattle.chess_types.specs.board.Attack.{count};
ghost use Rattle.chess_types.specs.board.Bits.{set_of};
ghost use Rattle.chess_types.specs.board.Position.{man_on};
ghost use Rattle.chess_types.specs.board.Squares.{squares};
ghost use Rattle.chess_c.specs.Asked.{flag};

use chess_play::Live;
use chess_types::{Colour, Square, SquareSet};

/// The attack counts of a colour on the 64 squares, a1 first.
pub fn put_counts(live: &Live<'_>, colour: Colour, room: &mut [u8; 64])
    ensures { room.new ≡ map (count (man_on live.now.position) colour) squares }
{
    let counts = live.counts();
    for number in 0..64u8 {
        room[number as usize] = counts.count(colour, Square::from_index(number));
    }
}

// The word with a square's bit.
fn with_square(word: u64, at: Square) -> u64
    ensures { set_of result ≡ insert (set_of word) at }
{
    word | 1 << at.index()
}

// The same where the test holds.
fn with_square_if(word: u64, at: Square, test: bool) -> u64
    ensures { set_of result ≡ cond test (insert (set_of word) at) (set_of word) }
{
    if test { with_square(word, at) } else { word }
}

/// The squares of a set as a word: the bit of each is 1.
pub fn word_of(set: SquareSet) -> u64
    ensures { (a : ℕ) → a < 64 → contains (set_of result) a ≡ contains set a }
{
    let mut word = 0u64;
    for number in 0..64u8 {
        let at = Square::from_index(number);
        word = with_square_if(word, at, set.contains(at));
    }
    word
}

// 1 for what holds.
fn flag(holds: bool) -> u8
    ensures { result ≡ flag holds }
{
    match holds {
        true => 1,
        false => 0,
    }
}

/// For each of the 64 squares, a1 first, 1 where the set holds it, else 0.
pub fn put_set(set: SquareSet, room: &mut [u8; 64])
    ensures { room.new ≡ map (λ square. flag (contains set square)) squares }
{
    for number in 0..64u8 {
        room[number as usize] = flag(set.contains(Square::from_index(number)));
    }
}
