//! Sets of squares joined, compared, and made of files, ranks, colours and the men of a board.
use super::boards::board;
use chess_types::{Colour, Kind, Square, SquareSet};

#[test]
fn sets_are_joined(rt: HostRuntime) {
    let file = SquareSet::file(4);
    let rank = SquareSet::rank(3);
    let e4 = SquareSet::single(Square::E4);
    assert!(rt; (file & rank) == e4);
    assert!(rt; (file | rank).len() == 15);
    assert!(rt; (file - rank).len() == 7);
    assert!(rt; !(file - rank).contains(Square::E4));
    assert!(rt; (!file).len() == 56);
    assert!(rt; !(!file).contains(Square::E1));
}

#[test]
fn sets_are_compared(rt: HostRuntime) {
    let file = SquareSet::file(0);
    let mut squares = SquareSet::single(Square::A1);
    assert!(rt; squares != file);
    assert!(rt; squares.is_subset(file));
    assert!(rt; !file.is_subset(squares));
    squares.insert(Square::A1);
    assert!(rt; squares == SquareSet::single(Square::A1));
    assert!(rt; SquareSet::empty().is_subset(squares));
}

#[test]
fn sets_are_shifted(rt: HostRuntime) {
    assert!(rt; SquareSet::rank(1).raised(8) == SquareSet::rank(2));
    assert!(rt; SquareSet::rank(7).raised(8).is_empty());
    assert!(rt; SquareSet::file(7).lowered(7) == SquareSet::file(0));
    assert!(rt; SquareSet::rank(0).lowered(8).is_empty());
}

#[test]
fn squares_have_colours(rt: HostRuntime) {
    assert!(rt; SquareSet::light() == !SquareSet::dark());
    assert!(rt; SquareSet::light().contains(Square::H1));
    assert!(rt; SquareSet::dark().contains(Square::A1));
    assert!(rt; (SquareSet::light() & SquareSet::rank(7)).len() == 4);
}

#[test]
fn men_by_kind(rt: HostRuntime) {
    let placement = board(&rt, "Ke1 ke8 Ra1 Rh1 ra8 Pa2 nb8");
    let rooks = placement.of_kind(Colour::White, Kind::Rook);
    assert!(rt; rooks == (SquareSet::single(Square::A1) | SquareSet::single(Square::H1)));
    assert!(rt; placement.of_kind(Colour::Black, Kind::Knight) == SquareSet::single(Square::B8));
    assert!(rt; placement.of_kind(Colour::Black, Kind::Pawn).is_empty());
}
