//! Squares, moves and positions read from texts, shown and compared.

use chess_fen::read;
use chess_types::{Colour, Move, NotAMove, NotASquare, Position, Square};
use std::process::Abort;
use std::test::Fail;

#[test]
fn squares_are_read_and_shown(rt: HostRuntime) -> Result<(), Fail> {
    let squares = [
        ("a1", Square::A1, 0, 0),
        ("e4", Square::E4, 4, 3),
        ("h1", Square::H1, 7, 0),
        ("a8", Square::A8, 0, 7),
        ("h8", Square::H8, 7, 7),
    ];
    for (name, square, file, rank) in squares {
        assert!(rt; name.parse::<Square>() == Ok(square), "{name}");
        assert!(rt; file < 8);
        assert!(rt; rank < 8);
        assert!(rt; Square::at(file, rank) == square, "{name}");
        assert!(rt; format!(in rt.alloc(); "{square}")?.as_str() == name);
    }
    assert!(rt; "e9".parse::<Square>() == Err(NotASquare));
    assert!(rt; Square::try_from(63) == Ok(Square::H8));
    assert!(rt; Square::try_from(64) == Err(NotASquare));
    assert!(rt;
        format!(in rt.alloc(); "{NotASquare}")?.as_str()
            == "a square is a1 to h8, or a number below 64"
    );
    Ok(())
}

#[test]
fn moves_are_read_and_shown(rt: HostRuntime) -> Result<(), Fail> {
    for text in ["e2e4", "a7a8q"] {
        let m = text.parse::<Move>().expect(&rt, "a move");
        assert!(rt; format!(in rt.alloc(); "{m}")?.as_str() == text);
        assert!(rt; format!(in rt.alloc(); "{m:>6}")?.len() == 6);
    }
    assert!(rt; "e2e9".parse::<Move>() == Err(NotAMove));
    assert!(rt; "a7a8k".parse::<Move>() == Err(NotAMove));
    assert!(rt;
        format!(in rt.alloc(); "{NotAMove}")?.as_str()
            == "a move is two squares, as e2e4, and what a pawn becomes, as a7a8q"
    );
    Ok(())
}

/// The position of a FEN.
fn position(rt: &impl Abort, fen: &str) -> Position {
    read(fen.as_bytes()).expect(rt, "a FEN")
}

const BOARD: &str = "r3k2r/pppppppp/8/8/4P3/8/PPPP1PPP/RNBQKBNR b KQkq - 0 1";

const BY_WHITE: &str = "\
r . . . k . . r
p p p p p p p p
. . . . . . . .
. . . . . . . .
. . . . P . . .
. . . . . . . .
P P P P . P P P
R N B Q K B N R";

const BY_BLACK: &str = "\
R N B K Q B N R
P P P . P P P P
. . . . . . . .
. . . P . . . .
. . . . . . . .
. . . . . . . .
p p p p p p p p
r . . k . . . r";

#[test]
fn a_position_is_seen_from_both_sides(rt: HostRuntime) -> Result<(), Fail> {
    let shown = position(&rt, BOARD);
    assert!(rt; format!(in rt.alloc(); "{shown}")?.as_str() == BY_WHITE);
    let placement = &shown.setup().placement;
    assert!(rt; format!(in rt.alloc(); "{placement}")?.as_str() == BY_WHITE);
    assert!(rt; placement.seen_by(Colour::White).text().as_str() == BY_WHITE);
    let seen = shown.seen_by(Colour::Black);
    assert!(rt; format!(in rt.alloc(); "{seen}")?.as_str() == BY_BLACK);
    Ok(())
}

/// A FEN, and others that differ from it in one field: the men, the side, the rights, the target, the clock, the number.
const ONE: &str = "4k2r/8/8/8/4Pp2/8/8/4K3 b k e3 0 1";

const OTHERS: &[&str] = &[
    "4k2r/8/8/8/4Pn2/8/8/4K3 b k e3 0 1",
    "4k2r/8/8/8/4Pp2/8/8/4K3 w k - 0 1",
    "4k2r/8/8/8/4Pp2/8/8/4K3 b - e3 0 1",
    "4k2r/8/8/8/4Pp2/8/8/4K3 b k - 0 1",
    "4k2r/8/8/8/4Pp2/8/8/4K3 b k e3 1 1",
    "4k2r/8/8/8/4Pp2/8/8/4K3 b k e3 0 2",
];

#[test]
fn positions_are_compared(rt: HostRuntime) {
    let one = position(&rt, ONE);
    assert!(rt; one == position(&rt, ONE));
    assert!(rt; one.setup() == position(&rt, ONE).setup());
    assert!(rt; one.setup().placement == position(&rt, ONE).setup().placement);
    for other in OTHERS {
        assert!(rt; one != position(&rt, other), "{other}");
    }
    assert!(rt; one.setup().placement != Position::start().setup().placement);
}
