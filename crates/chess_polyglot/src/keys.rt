//! A position's key in Polyglot's opening books.

ghost use Rattle.std.specs.Prelude.{◌≡◌, ◌<◌, bit_xor};
ghost use Rattle.chess_types.specs.board.Board.{man_at};
ghost use Rattle.chess_types.specs.board.Position.{man_on};
ghost use Rattle.chess_polyglot.specs.Keys.{is_beside, man_place, men_key, number_there, polyglot_key, right_key, rights_key, side_key, target_key};

use crate::numbers::number_at;
use chess_attack::leap_squares;
use chess_types::{Colour, Kind, Man, Placement, Rights, Setup, Square};

// Which of the numbers is that of the man on the square.
fn man_place(man: Man, square: Square) -> usize
    ensures value { result ≡ man_place man square }
    ensures below { result < 768 }
{
    let first = match man.colour {
        Colour::White => 64,
        Colour::Black => 0,
    };
    first + 128 * man.kind.number() + square.index()
}

// The number of what stands on the square; 0 where nothing does.
fn number_there(placement: &Placement, square: Square) -> u64
    ensures { result ≡ number_there (man_at placement.now square) square }
{
    match placement.get(square) {
        Some(man) => number_at(man_place(man, square)),
        None => 0,
    }
}

// The numbers of all men on their squares.
fn men_key(placement: &Placement) -> u64
    ensures { result ≡ men_key (man_at placement.now) }
{
    let mut key = 0;
    for square in 0..64u8 {
        key ^= number_there(placement, Square::from_index(square));
    }
    key
}

// The number of a right that is held.
fn right_key(is_held: bool, place: usize) -> u64
    requires { place < 781 }
    ensures { result ≡ right_key is_held place }
{
    if is_held { number_at(place) } else { 0 }
}

fn rights_key(rights: Rights) -> u64
    ensures { result ≡ rights_key rights }
{
    let white = right_key(rights.white_king, 768) ^ right_key(rights.white_queen, 769);
    let black = right_key(rights.black_king, 770) ^ right_key(rights.black_queen, 771);
    white ^ black
}

// Whether a pawn of the side stands next to the one that has just passed over the target.
fn is_beside(placement: &Placement, side: Colour, target: Square) -> bool
    ensures { result ≡ is_beside (man_at placement.now) side target }
{
    let from = leap_squares(side.opponent(), Kind::Pawn, target);
    let pawns = placement.of_kind(side, Kind::Pawn);
    match from.intersection(pawns).lowest() {
        Some(_) => true,
        None => false,
    }
}

fn target_key(placement: &Placement, side: Colour, target: Option<Square>) -> u64
    ensures { result ≡ target_key (man_at placement.now) side target }
{
    let Some(passed) = target else {
        return 0;
    };
    if is_beside(placement, side, passed) {
        number_at(772 + passed.file() as usize)
    } else {
        0
    }
}

fn side_key(side: Colour) -> u64
    ensures { result ≡ side_key side }
{
    match side {
        Colour::White => number_at(780),
        Colour::Black => 0,
    }
}

/// The position's key in Polyglot's opening books: the exclusive or of published numbers, one for each man on his square, each castling right
/// and White's move, and for the file of an en passant target, where a pawn of the side to move stands next to the pawn that could be
/// captured, legally or not. Counters don't matter.
pub fn key(setup: &Setup) -> u64
    ensures { result ≡ polyglot_key setup.now }
{
    let men = men_key(&setup.placement);
    let target = target_key(&setup.placement, setup.side, setup.target);
    men ^ rights_key(setup.rights) ^ target ^ side_key(setup.side)
}
