//! Tests of squares, moves' texts, sets of squares and placements.

use super::boards::{assert_stand, square};
use chess_types::{Colour, Kind, Man, Move, Placement, Position, Square, SquareSet};
use std::process::Abort;

/// Whether the square of that name has that file and rank, and the name as its text.
fn is_named(name: &str, file: u8, rank: u8) -> bool {
    match Square::parse(name.as_bytes()) {
        Some(square) => {
            square.file() == file && square.rank() == rank && square.text().as_str() == name
        }
        None => false,
    }
}

/// None of the texts is a square's name.
fn assert_no_squares(rt: &impl Abort, texts: &[&str]) {
    for text in texts {
        assert!(rt; Square::parse(text.as_bytes()).is_none(), "{text}");
    }
}

const NAMED: &[(&str, u8, u8)] = &[("a1", 0, 0), ("e4", 4, 3), ("h8", 7, 7)];

const NO_SQUARES: &[&str] = &["", "e", "e9", "i1", "E4", "e4 "];

#[test]
fn squares_have_names(rt: HostRuntime) {
    for (name, file, rank) in NAMED {
        assert!(rt; is_named(name, *file, *rank), "{name}");
    }
    assert!(rt; Square::new(63) == Square::parse(b"h8") && Square::new(64).is_none());
    assert_no_squares(&rt, NO_SQUARES);
}

/// Whether the text is that of the move that it is read as.
fn is_move(text: &str) -> bool {
    match Move::parse(text.as_bytes()) {
        Some(read) => read.text().as_str() == text,
        None => false,
    }
}

/// Whether the text is that of a promotion, with the numbers of the squares.
fn is_promotion(rt: &impl Abort, text: &[u8], from: usize, to: usize, kind: Kind) -> bool {
    let read = Move::parse(text).expect(rt, "a move");
    read.from.index() == from && read.to.index() == to && read.promo == Some(kind)
}

/// None of the texts is a move's.
fn assert_no_moves(rt: &impl Abort, texts: &[&str]) {
    for text in texts {
        assert!(rt; Move::parse(text.as_bytes()).is_none(), "{text}");
    }
}

const MOVES: &[&str] = &["e2e4", "e1g1", "e7e8q", "a2b1n", "h7h8r", "c7d8b"];

const NO_MOVES: &[&str] = &["", "e2", "e2e9", "e7e8k", "e7e8p", "e7e8Q", "e2e4qq"];

#[test]
fn moves_have_texts(rt: HostRuntime) {
    for text in MOVES {
        assert!(rt; is_move(text), "{text}");
    }
    assert!(rt; is_promotion(&rt, b"e7e8q", 52, 60, Kind::Queen));
    assert!(rt; Move::default().text().as_str() == "a1a1");
    assert_no_moves(&rt, NO_MOVES);
}

/// The set of the squares of these names.
fn set_of(rt: &impl Abort, names: &[&str]) -> SquareSet {
    let mut set = SquareSet::empty();
    assert!(rt; set.is_empty());
    for name in names {
        set.insert(square(rt, name));
    }
    set
}

/// The set goes over these squares, in this order, and over no other.
fn assert_goes_over(rt: &impl Abort, set: SquareSet, names: &[&str]) {
    let mut found = set.iter();
    for name in names {
        assert!(rt; found.next() == Some(square(rt, name)));
    }
    assert!(rt; found.next().is_none());
}

const INSERTED: &[&str] = &["h8", "a1", "e4", "a1", "b1"];

const LEFT: &[&str] = &["a1", "e4", "h8"];

#[test]
fn square_sets_go_in_order(rt: HostRuntime) {
    let mut set = set_of(&rt, INSERTED);
    set.remove(Square::from_index(1));
    assert!(rt; set.len() == 3);
    assert!(rt; set.contains(Square::from_index(28)) && !set.contains(Square::from_index(1)));
    assert_goes_over(&rt, set, LEFT);
}

/// Whether that man alone stands on the board, on e2.
fn is_alone(board: &Placement, man: Man) -> bool {
    board.cells()[12].man() == Some(man)
        && board.men(Colour::White) == 1
        && board.men(Colour::White.opponent()) == 0
}

#[test]
fn a_board_gives_back_what_was_put(rt: HostRuntime) {
    let mut board = Placement::empty();
    let at = Square::from_index(12);
    let man = Man {
        colour: Colour::White,
        kind: Kind::Pawn,
    };
    assert!(rt; board.get(at).is_none());
    assert!(rt; board.men(man.colour) == 0);
    board.put(at, man);
    assert!(rt; board.get(at) == Some(man));
    assert!(rt; is_alone(&board, man));
    let copy = board.clone().expect(&rt, "a copy");
    board.clear(at);
    assert!(rt; board.get(at).is_none());
    assert!(rt; copy.get(at) == Some(man));
}

const AT_HOME: &[(&str, Colour, Kind)] = &[
    ("a1", Colour::White, Kind::Rook),
    ("d1", Colour::White, Kind::Queen),
    ("e1", Colour::White, Kind::King),
    ("h2", Colour::White, Kind::Pawn),
    ("a7", Colour::Black, Kind::Pawn),
    ("b8", Colour::Black, Kind::Knight),
    ("h8", Colour::Black, Kind::Rook),
];

#[test]
fn a_game_begins_with_its_men_at_home(rt: HostRuntime) {
    let start = Position::start().clone().expect(&rt, "a copy");
    let again = Position::new(start.setup().clone().expect(&rt, "a copy"));
    let setup = again.setup();
    assert_stand(&rt, &setup.placement, AT_HOME);
    let board = &setup.placement;
    assert!(rt; board.men(Colour::White) == 16 && board.men(Colour::Black) == 16);
    assert!(rt; setup.side == Colour::White);
}
