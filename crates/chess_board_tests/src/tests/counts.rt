//! Tests of attack counts: of the start position, the empty board, and a rook with other men on its lines.

use super::boards::{board, start};
use chess_attack::{Counts, in_check};
use chess_types::{Colour, Placement, Square};
use std::process::Abort;

/// The counts of a colour on the rank, from the a-file to the h-file.
fn row(rt: &impl Abort, counts: &Counts, colour: Colour, rank: u8) -> [u8; 8] {
    assert!(rt; rank < 8);
    let mut row = [0; 8];
    for file in 0..8u8 {
        row[file as usize] = counts.count(colour, Square::from_index(rank * 8 + file));
    }
    row
}

/// The counts of a colour on its first ranks are those of the rows.
fn assert_rows(rt: &impl Abort, counts: &Counts, colour: Colour, rows: &[[u8; 8]]) {
    for (index, wanted) in rows.iter().enumerate() {
        assert!(rt; index < 8);
        let rank = match colour {
            Colour::White => index as u8,
            Colour::Black => 7 - index as u8,
        };
        assert!(rt; row(rt, counts, colour, rank) == *wanted, "rank {rank}");
    }
}

const AT_START: &[[u8; 8]] = &[
    [0, 1, 1, 1, 1, 1, 1, 0],
    [1, 1, 1, 4, 4, 1, 1, 1],
    [2, 2, 3, 2, 2, 3, 2, 2],
    [0; 8],
    [0; 8],
    [0; 8],
    [0; 8],
    [0; 8],
];

#[test]
fn start_position(rt: HostRuntime) {
    let (counts, kept) = (Counts::of(&start()), Counts::start());
    assert_rows(&rt, &counts, Colour::White, AT_START);
    assert_rows(&rt, &counts, Colour::Black, AT_START);
    assert_rows(&rt, &kept, Colour::White, AT_START);
    assert_rows(&rt, &kept, Colour::Black, AT_START);
    assert!(rt; !in_check(&start(), Colour::White));
}

#[test]
fn empty_board(rt: HostRuntime) {
    let empty = Counts::empty();
    let counts = Counts::of(&Placement::empty());
    for rank in 0..8u8 {
        assert!(rt; row(&rt, &empty, Colour::White, rank) == [0; 8]);
        assert!(rt; row(&rt, &counts, Colour::Black, rank) == [0; 8]);
    }
}

// The rook attacks its knight, and nothing beyond it; the knight none of this rank.
const BEHIND_A_ROOK: &[[u8; 8]] = &[
    [0, 1, 1, 1, 0, 0, 0, 0],
    [1, 1, 0, 0, 0, 1, 0, 0],
    [1, 0, 1, 0, 1, 0, 0, 0],
];

#[test]
fn up_to_and_with_the_first_man(rt: HostRuntime) {
    let counts = Counts::of(&board(&rt, "Ra1 Nd1 pf1"));
    assert_rows(&rt, &counts, Colour::White, BEHIND_A_ROOK);
}

#[test]
fn checks(rt: HostRuntime) {
    let checked = board(&rt, "ke8 Re1 Kg1");
    assert!(rt; in_check(&checked, Colour::Black));
    assert!(rt; !in_check(&checked, Colour::White));
}
