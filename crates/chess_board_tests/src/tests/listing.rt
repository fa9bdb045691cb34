//! Tests of the list of legal moves: its order, and that no tick is made for it.

use arrayvec::ArrayVec;
use chess_key::KeyTable;
use chess_moves::{in_check, is_legal, moves};
use chess_play::Live;
use chess_types::{Move, Position};
use std::process::Abort;

/// The legal moves.
fn list<'k>(rt: &impl Abort, live: &mut Live<'k>) -> ArrayVec<Move, 432> {
    assert!(rt; live.position().clock < 1_000 && live.position().number < 1_000);
    moves(live)
}

/// The move at that place of the list.
fn move_at(rt: &impl Abort, list: &ArrayVec<Move, 432>, place: usize) -> Move {
    *list.get(place).expect(rt, "a move")
}

/// The first moves of the list.
fn assert_first(rt: &impl Abort, list: &ArrayVec<Move, 432>, texts: &[&[u8]]) {
    for (place, text) in texts.iter().enumerate() {
        assert!(rt; Some(move_at(rt, list, place)) == Move::parse(text));
    }
}

fn assert_legal<'k>(rt: &impl Abort, live: &mut Live<'k>, m: Move) {
    assert!(rt; live.position().clock < 1_000 && live.position().number < 1_000);
    assert!(rt; is_legal(live, m));
}

#[test]
fn lists_the_moves_of_the_start(rt: HostRuntime) {
    let table = KeyTable::new([0; 768]);
    let mut live = Live::new(Position::start(), &table);
    assert!(rt; !in_check(&live));
    let list = list(&rt, &mut live);
    assert!(rt; list.len() == 20);
    assert_first(&rt, &list, &[b"b1a3", b"b1c3", b"g1f3", b"g1h3"]);
    assert_legal(&rt, &mut live, move_at(&rt, &list, 19));
    assert!(rt; live.position().side == Position::start().setup().side);
}

/// Makes the move of a text.
fn make<'k>(rt: &impl Abort, live: &mut Live<'k>, text: &[u8]) {
    let m = Move::parse(text).expect(rt, "a move");
    assert!(rt; live.is_pseudo(m));
    assert!(rt; live.position().clock < 1_000 && live.position().number < 1_000);
    let _made = live.make(m).keep();
}

#[test]
fn moves_are_listed_without_a_tick(rt: HostRuntime) {
    let table = KeyTable::new([0; 768]);
    let mut live = Live::new(Position::start(), &table);
    make(&rt, &mut live, b"e2e4");
    let ticks = live.last_ticks();
    assert!(rt; ticks > 0);
    assert!(rt; list(&rt, &mut live).len() == 20);
    assert!(rt; live.last_ticks() == ticks);
}
