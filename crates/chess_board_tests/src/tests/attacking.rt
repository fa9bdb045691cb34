//! Tests of which squares a man attacks, of checks, and of pinned men.

ghost use Rattle.std.specs.Prelude.{◌≡◌};
ghost use Rattle.chess_types.specs.board.Men.{kings_of};

use super::boards::{board, square, start};
use chess_attack::{attackers, attacks, attacks_square, checkers, is_clear, leaps, pinned};
use chess_types::{Colour, Kind, Man, Placement, Square, SquareSet, is_king_of};
use std::process::Abort;

/// The set holds these squares and no other.
fn assert_holds(rt: &impl Abort, set: SquareSet, names: &[&str]) {
    for name in names {
        assert!(rt; set.contains(square(rt, name)));
    }
    assert!(rt; set.len() == names.len());
}

/// The squares that the man attacks from the square of that name.
fn attacked(
    rt: &impl Abort,
    placement: &Placement,
    colour: Colour,
    kind: Kind,
    at: &str,
) -> SquareSet {
    attacks(placement, Man { colour, kind }, square(rt, at))
}

/// How many kings of the colour stand on the board.
#[tactic(auto, unfolding(chess_types::specs::board::Men::count_squares, chess_types::specs::board::Squares::squares))]
fn kings(placement: &Placement, colour: Colour) -> usize
    ensures { result ≡ kings_of placement.now colour }
{
    (0..64u8)
        .filter(|number| is_king_of(colour, placement.get(Square::from_index(*number))))
        .count()
}

fn assert_checkers(rt: &impl Abort, placement: &Placement, colour: Colour, names: &[&str]) {
    assert!(rt; kings(placement, colour) == 1);
    assert_holds(rt, checkers(placement, colour), names);
}

fn middle(rt: &impl Abort) -> Placement {
    board(rt, "Pd6 pb4 Qd4 ng4 Ba1 Rd1")
}

#[test]
fn a_queen_sees_up_to_and_with_the_first_man(rt: HostRuntime) {
    let placement = middle(&rt);
    assert_holds(
        &rt,
        attacked(&rt, &placement, Colour::White, Kind::Queen, "d4"),
        &[
            "c4", "b4", "e4", "f4", "g4", "d5", "d6", "d3", "d2", "d1", "c3", "b2", "a1", "e5",
            "f6", "g7", "h8", "c5", "b6", "a7", "e3", "f2", "g1",
        ],
    );
    assert_holds(
        &rt,
        attacked(&rt, &placement, Colour::White, Kind::Bishop, "a1"),
        &["b2", "c3", "d4"],
    );
}

#[test]
fn leapers_see_past_men(rt: HostRuntime) {
    let placement = start();
    assert_holds(
        &rt,
        attacked(&rt, &placement, Colour::White, Kind::Knight, "b1"),
        &["a3", "c3", "d2"],
    );
    assert_holds(
        &rt,
        attacked(&rt, &placement, Colour::Black, Kind::King, "e8"),
        &["d8", "d7", "e7", "f7", "f8"],
    );
    assert_holds(
        &rt,
        attacked(&rt, &placement, Colour::White, Kind::Pawn, "h2"),
        &["g3"],
    );
    assert_holds(
        &rt,
        attacked(&rt, &placement, Colour::Black, Kind::Pawn, "c7"),
        &["b6", "d6"],
    );
    assert_holds(
        &rt,
        attacked(&rt, &placement, Colour::Black, Kind::Rook, "a8"),
        &["a7", "b8"],
    );
}

const QUEEN: Man = Man {
    colour: Colour::White,
    kind: Kind::Queen,
};

/// Whether a queen on d4 attacks each of the squares, and whether the line to it is clear.
fn assert_seen(rt: &impl Abort, placement: &Placement, squares: &[(&str, bool, bool)]) {
    let from = square(rt, "d4");
    for (name, attacks, clear) in squares {
        let to = square(rt, name);
        assert!(rt;
            attacks_square(placement, QUEEN, from, to) == *attacks
                && is_clear(placement, from, to) == *clear,
            "{name}"
        );
    }
}

const SEEN: &[(&str, bool, bool)] = &[
    ("d6", true, true),
    ("d7", false, false),
    ("d8", false, false),
    ("e6", false, true),
];

#[test]
fn one_square(rt: HostRuntime) {
    let placement = middle(&rt);
    assert_seen(&rt, &placement, SEEN);
    let (from, to) = (square(&rt, "d4"), square(&rt, "e5"));
    assert!(rt; leaps(Colour::White, Kind::Pawn, from, to));
    assert!(rt; !leaps(Colour::Black, Kind::Pawn, from, to));
}

#[test]
fn a_double_check(rt: HostRuntime) {
    let placement = board(&rt, "re8 kh8 nf3 Ra1 Ke1");
    assert_checkers(&rt, &placement, Colour::White, &["e8", "f3"]);
    assert_checkers(&rt, &placement, Colour::Black, &[]);
}

#[test]
fn a_king_and_others_attack_a_square(rt: HostRuntime) {
    let placement = board(&rt, "re8 kd5 Pc4 Pe4 Be2 Ke1");
    let d1 = attackers(&placement, Colour::White, Square::D1);
    assert_holds(&rt, d1, &["e1", "e2"]);
    let e4 = attackers(&placement, Colour::Black, Square::E4);
    assert_holds(&rt, e4, &["d5", "e8"]);
}

#[test]
fn a_shield_and_a_pawn(rt: HostRuntime) {
    let placement = board(&rt, "re8 kd5 Pc4 Pe4 Be2 Ke1");
    assert_checkers(&rt, &placement, Colour::White, &[]);
    assert_checkers(&rt, &placement, Colour::Black, &["c4", "e4"]);
}

/// The colour has one king, and these men of it are pinned.
fn assert_pinned(rt: &impl Abort, placement: &Placement, colour: Colour, names: &[&str]) {
    assert!(rt; kings(placement, colour) == 1);
    assert_holds(rt, pinned(placement, colour), names);
}

#[test]
fn pinned_men(rt: HostRuntime) {
    let placement = board(&rt, "re8 kh8 bb4 qh4 Nc3 Re2 Pf2 ra1 Bc1 Ke1 Rh1");
    assert_pinned(&rt, &placement, Colour::White, &["c3", "e2", "f2", "c1"]);
    assert_pinned(&rt, &placement, Colour::Black, &["h4"]);
}

#[test]
fn two_men_between_are_not_pinned(rt: HostRuntime) {
    let placement = board(&rt, "ka8 qe8 pe6 Pe4 ng3 Pf2 ra1 nb1 Ke1");
    assert_pinned(&rt, &placement, Colour::White, &[]);
    assert_pinned(&rt, &placement, Colour::Black, &[]);
}
