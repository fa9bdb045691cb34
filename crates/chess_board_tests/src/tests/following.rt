//! Tests of counts that follow a board: always those counted afresh, and how many ticks a man takes.

use super::boards::{Followed, KINDS, board, start};
use chess_attack::Counts;
use chess_key::KeyTable;
use chess_types::{Colour, Man, Square};
use std::process::Abort;

/// The counts are those of the placement, counted afresh.
fn assert_afresh(rt: &impl Abort, followed: &Followed) {
    let afresh = Counts::of(&followed.placement);
    for number in 0..64u8 {
        let square = Square::from_index(number);
        for colour in [Colour::White, Colour::Black] {
            assert!(rt; followed.counts.count(colour, square) == afresh.count(colour, square));
        }
    }
}

/// Puts each man of the start position, in the order of the squares where the step is 1.
fn put_all(rt: &impl Abort, followed: &mut Followed, step: u8) {
    for turn in 0..64u16 {
        followed.put_at_home(rt, Square::from_index((turn * step as u16 % 64) as u8));
        assert_afresh(rt, followed);
    }
}

/// Takes each man away again.
fn clear_all(rt: &impl Abort, followed: &mut Followed, step: u8) {
    for turn in 0..64u16 {
        followed.clear_if_held(rt, Square::from_index((63 - turn * step as u16 % 64) as u8));
        assert_afresh(rt, followed);
    }
}

/// Every count is zero.
fn assert_zero(rt: &impl Abort, counts: &Counts) {
    for number in 0..64u8 {
        let square = Square::from_index(number);
        assert!(rt;
            counts.count(Colour::White, square) == 0 && counts.count(Colour::Black, square) == 0
        );
    }
}

/// Puts each man of the start position and takes it away again, in the order of the squares where the step is 1.
fn put_and_clear(rt: &impl Abort, step: u8) {
    let table = KeyTable::new([0; 768]);
    let mut followed = Followed::empty(&table);
    put_all(rt, &mut followed, step);
    assert!(rt; followed.men() == 32);
    clear_all(rt, &mut followed, step);
    assert_zero(rt, &followed.counts);
}

#[test]
fn every_man_by_square(rt: HostRuntime) {
    put_and_clear(&rt, 1);
}

#[test]
fn every_man_in_another_order(rt: HostRuntime) {
    put_and_clear(&rt, 37);
}

/// The ticks of the man put on the square.
fn ticks_of_put(rt: &impl Abort, followed: &mut Followed, square: Square, man: Man) -> u32 {
    followed.begin();
    assert!(rt; followed.counts.ticks() == 0);
    assert_afresh(rt, followed);
    followed.put(rt, square, man);
    assert_afresh(rt, followed);
    followed.counts.ticks()
}

/// The ticks of the man taken from the square.
fn ticks_of_clear(rt: &impl Abort, followed: &mut Followed, square: Square) -> u32 {
    followed.begin();
    followed.clear(rt, square);
    assert_afresh(rt, followed);
    followed.counts.ticks()
}

/// The ticks of the man put on d4 of the placement; taking him away again makes as many.
fn ticks_on_d4(rt: &impl Abort, followed: &mut Followed, man: Man) -> u32 {
    let square = Square::from_index(27);
    let ticks = ticks_of_put(rt, followed, square, man);
    assert!(rt; ticks_of_clear(rt, followed, square) == ticks);
    ticks
}

#[test]
fn eight_sliders_look_at_d4(rt: HostRuntime) {
    let table = KeyTable::new([0; 768]);
    let placement = board(&rt, "rd8 bh8 ba7 ra4 rh4 ba1 rd1 bg1");
    let mut followed = Followed::of(&table, placement);
    // From d4 the ranks, files and diagonals go 4 and 3, 4 and 3, 4 and 3, 3 and 3 squares far: 27. On each of them a man looks
    // over d4 to the man at the other end, so whoever comes to d4 takes 27 attacks away. A queen there attacks 27 squares
    // herself, a rook 14, a bishop 13, a knight and a king 8, a pawn 2.
    for (kind, own) in KINDS.into_iter().zip([2, 8, 13, 14, 27, 8]) {
        let man = Man {
            colour: Colour::White,
            kind,
        };
        assert!(rt; ticks_on_d4(&rt, &mut followed, man) == own + 27);
    }
}

#[test]
fn the_start_position_without_e2(rt: HostRuntime) {
    let table = KeyTable::new([0; 768]);
    let mut followed = Followed::of(&table, start());
    // the counts of each side add up to 6 on its first rank, 14 on its second and 18 on its third
    assert!(rt; followed.counts.ticks() == 2 * 38);
    // the pawn's d3 and f3 go; d3, c4, b5, a6 for the bishop and f3, g4, h5 for the queen come
    assert!(rt; ticks_of_clear(&rt, &mut followed, Square::from_index(12)) == 2 + 4 + 3);
}
