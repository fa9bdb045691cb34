//! Tests of the evaluation: what men are worth, boards seen from both sides, and sums kept through changes.

use super::boards::{Followed, KINDS, board, put, square, start};
use chess_eval::{Sum, end, middle, weight};
use chess_key::KeyTable;
use chess_types::{Man, Placement, Square};
use std::process::Abort;

/// Men by their letters, their squares, and what each is worth there in the middlegame and in the endgame.
const WORTHS: &[(u8, &str, i32, i32)] = &[
    (b'P', "e2", 109, 110),
    (b'P', "e4", 117, 130),
    (b'P', "a7", 120, 160),
    (b'N', "b1", 314, 314),
    (b'N', "c3", 332, 332),
    (b'p', "e7", 109, 110),
    (b'p', "e5", 117, 130),
    (b'n', "b8", 314, 314),
    (b'n', "c6", 332, 332),
    (b'B', "a1", 324, 324),
    (b'b', "d4", 342, 342),
    (b'R', "a7", 510, 510),
    (b'R', "a2", 500, 500),
    (b'r', "h2", 510, 510),
    (b'q', "e5", 903, 903),
    (b'K', "e1", -18, 30),
    (b'k', "d5", -36, 60),
];

/// Whether the man of that letter is worth `in_middle` there in the middlegame and `at_end` in the endgame.
fn is_worth(rt: &impl Abort, letter: u8, name: &str, in_middle: i32, at_end: i32) -> bool {
    let man = Man::of_letter(letter).expect(rt, "a man's letter");
    let at = square(rt, name);
    middle(man, at) == in_middle && end(man, at) == at_end
}

#[test]
fn men_on_their_squares(rt: HostRuntime) {
    for (letter, name, in_middle, at_end) in WORTHS {
        assert!(rt;
            is_worth(&rt, *letter, name, *in_middle, *at_end),
            "{letter} on {name}"
        );
    }
}

#[test]
fn weights_of_the_kinds(rt: HostRuntime) {
    for (kind, wanted) in KINDS.into_iter().zip([0, 1, 1, 2, 4, 0]) {
        assert!(rt; weight(kind) == wanted);
    }
}

/// Fifteen queens and a king a side, White's queens nearer the middle.
fn queens(rt: &impl Abort) -> Placement {
    board(
        rt,
        "ka8 qb8 qc8 qd8 qe8 qf8 qg8 qh8 qa7 qb7 qc7 qd7 qe7 qf7 qg7 qh7 \
         Qa5 Qb5 Qc5 Qd5 Qe5 Qf5 Qg5 Qh5 Qb4 Qc4 Qd4 Qe4 Qf4 Qg2 Qh2 Kh1",
    )
}

/// The placement seen from the other side.
fn mirror(rt: &impl Abort, placement: &Placement) -> Placement {
    let mut mirrored = Placement::empty();
    for number in 0..64u8 {
        let square = Square::from_index(number);
        if let Some(man) = placement.get(square) {
            let at = Square::from_index(8 * (7 - square.rank()) + square.file());
            let colour = man.colour.opponent();
            put(rt, &mut mirrored, at, Man { colour, ..man });
        }
    }
    mirrored
}

/// The evaluation of the board.
fn assert_white(rt: &impl Abort, placement: &Placement, white: i32) {
    assert!(rt; Sum::of(placement).white() == white);
}

/// The evaluation of the board, and how it is seen from the other side.
fn assert_both(rt: &impl Abort, placement: &Placement, white: i32, mirrored: i32) {
    assert_white(rt, placement, white);
    assert_white(rt, &mirror(rt, placement), mirrored);
    assert!(rt; Sum::of(placement).mirrored().white() == mirrored);
}

#[test]
fn whole_boards(rt: HostRuntime) {
    assert_white(&rt, &start(), 0);
    assert_white(&rt, &Placement::empty(), 0);
    // no weight
    assert_white(&rt, &board(&rt, "ke8 Pe2 Ke1"), 110);
    // 14,638 of 24 parts
    assert_both(&rt, &board(&rt, "ke8 Pe2 Ke1 Ra1"), 609, -609);
    // a weight of 120
    assert_both(&rt, &queens(&rt), 33, -33);
}

/// The sums that are kept are those of the board.
fn assert_kept(rt: &impl Abort, board: &Followed) {
    assert_white(rt, &board.placement, board.sum.white());
}

fn put_all(rt: &impl Abort, board: &mut Followed) {
    for number in 0..64u8 {
        board.put_at_home(rt, Square::from_index(number));
        assert_kept(rt, board);
    }
}

/// Clears every square once, in another order.
fn clear_all(rt: &impl Abort, board: &mut Followed) {
    for turn in 0..64u8 {
        board.clear_if_held(rt, Square::from_index((turn ^ 42) % 64));
        assert_kept(rt, board);
    }
}

#[test]
fn every_man_put_and_cleared(rt: HostRuntime) {
    let table = KeyTable::new([0; 768]);
    let mut board = Followed::empty(&table);
    put_all(&rt, &mut board);
    assert!(rt; board.sum.white() == 0 && board.men() == 32);
    clear_all(&rt, &mut board);
    assert!(rt; board.sum.white() == Sum::empty().white() && board.men() == 0);
}
