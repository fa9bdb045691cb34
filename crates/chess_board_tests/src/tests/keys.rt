//! Tests of keys: the same in any order of puts, by any words, one word for each man on each square.

use super::boards::{Followed, square};
use chess_attack::Follower;
use chess_key::{Key, KeyTable};
use chess_types::{Colour, Kind, Man, Placement, Square};
use std::process::Abort;

/// A table of words without order, from a seed.
fn table(seed: u64) -> KeyTable {
    let mut words = [0; 768];
    let mut word = seed;
    for place in 0..768usize {
        word = word
            .wrapping_mul(6_364_136_223_846_793_005)
            .wrapping_add(1_442_695_040_888_963_407);
        words[place] = word;
    }
    KeyTable::new(words)
}

/// Every square once, in another order for each turn.
fn nth(turn: u8, number: u8) -> Square {
    Square::from_index((number ^ turn) % 64)
}

/// The start position, its men put in the order of that turn.
fn put_in_order<'k>(rt: &impl Abort, table: &'k KeyTable, turn: u8) -> Followed<'k> {
    let mut board = Followed::empty(table);
    for number in 0..64u8 {
        board.put_at_home(rt, nth(turn, number));
    }
    board
}

/// The men put in the order of that turn have that key.
fn assert_same<'k>(rt: &impl Abort, table: &'k KeyTable, key: &Key<'k>, turn: u8) {
    let other = put_in_order(rt, table, turn);
    assert!(rt; *key == other.key, "put in the order {turn}");
}

fn clear_all<'k>(rt: &impl Abort, board: &mut Followed<'k>) {
    for number in 0..64u8 {
        board.clear_if_held(rt, nth(42, number));
    }
}

/// Whether the key is that of an empty board.
fn is_empty<'k>(table: &'k KeyTable, key: &Key<'k>) -> bool {
    *key == Key::empty(table)
}

/// Whether the key is that of the board, by these words.
fn is_of<'k>(table: &'k KeyTable, key: &Key<'k>, placement: &Placement) -> bool {
    *key == Key::of(table, placement)
}

#[test]
fn any_order_and_back_to_empty(rt: HostRuntime) {
    let table = table(1);
    let mut board = put_in_order(&rt, &table, 0);
    for turn in [21, 42, 63] {
        assert_same(&rt, &table, &board.key, turn);
    }
    assert!(rt; is_of(&table, &board.key, &board.placement));
    assert!(rt; !is_empty(&table, &board.key));
    let whole = board.key.copied();
    assert!(rt; whole == board.key);
    clear_all(&rt, &mut board);
    assert!(rt; is_empty(&table, &board.key));
    assert!(rt; board.key != whole);
}

#[test]
fn any_words(rt: HostRuntime) {
    let (one, two, zeros) = (table(1), table(2), KeyTable::new([0; 768]));
    let start_one = put_in_order(&rt, &one, 0);
    assert!(rt; !is_of(&two, &start_one.key, &start_one.placement));
    assert!(rt; is_empty(&two, &Key::empty(&one)));
    assert!(rt; is_of(&zeros, &Key::empty(&zeros), &start_one.placement));
}

/// Whether a board of that man alone has another key than an empty one.
fn has_word<'k>(rt: &impl Abort, table: &'k KeyTable, name: &str, man: Man) -> bool {
    let mut board = Followed::empty(table);
    board.put(rt, square(rt, name), man);
    !is_empty(table, &board.key)
}

/// A table with the word of White's knight on c3 alone.
fn knight_on_c3() -> KeyTable {
    let mut words = [0; 768];
    words[64 + 18] = u64::MAX;
    KeyTable::new(words)
}

const ONE_WORD: &[(Colour, Kind, &str, bool)] = &[
    (Colour::White, Kind::Knight, "c3", true),
    (Colour::Black, Kind::Knight, "c3", false),
    (Colour::White, Kind::Pawn, "c3", false),
    (Colour::White, Kind::Knight, "f6", false),
];

#[test]
fn one_word_for_each_man_on_each_square(rt: HostRuntime) {
    let table = knight_on_c3();
    for (colour, kind, name, is_it) in ONE_WORD {
        let man = Man {
            colour: *colour,
            kind: *kind,
        };
        assert!(rt; has_word(&rt, &table, name, man) == *is_it, "{name}");
    }
}
