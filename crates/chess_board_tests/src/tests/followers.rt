//! The same moves whatever follows a position: nothing, two things, or all three.
use super::walks::live_in;
use chess_attack::{Both, Counts, Follower, Nothing};
use chess_eval::Sum;
use chess_fen::read;
use chess_key::{Key, KeyTable};
use chess_moves::{count_legal, has_legal, in_check, is_legal, moves};
use chess_play::LiveWith;
use chess_types::{Move, Position};
use std::process::Abort;

/// Positions with castling, en passant, pins and promotions, how many positions two plies on they have, and whether they are checks.
const ROWS: [(&str, usize, bool); 5] = [
    (
        "rnbqkbnr/pppppppp/8/8/8/8/PPPPPPPP/RNBQKBNR w KQkq - 0 1",
        400,
        false,
    ),
    (
        "r3k2r/p1ppqpb1/bn2pnp1/3PN3/1p2P3/2N2Q1p/PPPBBPPP/R3K2R w KQkq - 0 1",
        2039,
        false,
    ),
    ("8/2p5/3p4/KP5r/1R3p1k/8/4P1P1/8 w - - 0 1", 191, false),
    (
        "r3k2r/Pppp1ppp/1b3nbN/nP6/BBP1P3/q4N2/Pp1P2PP/R2Q1RK1 w kq - 0 1",
        264,
        true,
    ),
    (
        "rnbq1k1r/pp1Pbppp/2p5/8/2B5/8/PPP1NnPP/RNBQK2R w KQ - 1 8",
        1486,
        false,
    ),
];

/// Makes a move, which is pseudo-legal, and counts the legal moves after it.
fn count_after<F: Follower>(rt: &impl Abort, live: &mut LiveWith<F>, m: Move) -> usize {
    assert!(rt; live.is_pseudo(m));
    assert!(rt; live.position().clock < 999_999 && live.position().number < 999_999);
    let made = live.make(m);
    assert!(rt; live.position().clock < 1_000_000 && live.position().number < 1_000_000);
    let count = count_legal(live);
    assert!(rt; has_legal(live) == (count > 0));
    live.undo(made);
    count
}

/// How many positions there are two plies on; each move of the list is legal.
fn count_two<F: Follower>(rt: &impl Abort, live: &mut LiveWith<F>) -> usize {
    assert!(rt; live.position().clock < 1_000_000 && live.position().number < 1_000_000);
    let list = moves(live);
    let mut count = 0usize;
    for m in list.as_slice() {
        assert!(rt; live.position().clock < 1_000_000 && live.position().number < 1_000_000);
        assert!(rt; is_legal(live, *m));
        count = count.saturating_add(count_after(rt, live, *m));
    }
    count
}

/// The position of the FEN.
fn a_position(rt: &impl Abort, fen: &str) -> Position {
    read(fen.as_bytes()).expect(rt, "a FEN")
}

#[test]
fn nothing_follows(rt: HostRuntime) {
    for (fen, count, checked) in ROWS {
        let mut live = LiveWith::with(a_position(&rt, fen), Nothing);
        assert!(rt; in_check(&live) == checked);
        assert!(rt; count_two(&rt, &mut live) == count);
    }
}

#[test]
fn two_things_follow(rt: HostRuntime) {
    let table = KeyTable::new([0; 768]);
    for (fen, count, _checked) in ROWS {
        let position = a_position(&rt, fen);
        let placement = &position.setup().placement;
        let kept = Both {
            first: Sum::of(placement),
            second: Key::of(&table, placement),
        };
        let mut live = LiveWith::with(position, kept);
        assert!(rt; count_two(&rt, &mut live) == count);
        assert!(rt; live.kept().first.white() == Sum::of(&live.position().placement).white());
    }
}

#[test]
fn counts_are_asked_first(rt: HostRuntime) {
    for (fen, count, _checked) in ROWS {
        let position = a_position(&rt, fen);
        let placement = &position.setup().placement;
        let mut counts = Counts::of(placement);
        counts.begin();
        let kept = Both {
            first: counts,
            second: Sum::of(placement),
        };
        let mut live = LiveWith::with(position, kept);
        assert!(rt; count_two(&rt, &mut live) == count);
        assert!(rt; live.kept().first.ticks() <= 216);
    }
}

#[test]
fn all_three_follow(rt: HostRuntime) {
    let table = KeyTable::new([0; 768]);
    for (fen, count, _checked) in ROWS {
        assert!(rt; count_two(&rt, &mut live_in(&rt, fen, &table)) == count);
    }
}
