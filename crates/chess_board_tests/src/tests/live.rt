//! The moves of a live position, made and taken back: what is kept is what the position says afresh.
ghost use Rattle.std.specs.Prelude.{◌≡◌};
ghost use Rattle.chess_play.specs.Records.{IsBefore};

use super::boards::square;
use super::walks::{PROMOTIONS, a_move, live_in, make_move};
use chess_attack::Counts;
use chess_eval::Sum;
use chess_fen::read;
use chess_key::{Key, KeyTable};
use chess_play::{Live, Made};
use chess_types::{Colour, Move, Position, Setup, Square};
use std::process::Abort;
use std::test::Fail;

/// A table of words that differ.
fn a_table() -> KeyTable {
    let mut words = [0u64; 768];
    let mut last = 0u64;
    for word in &mut words {
        last = last.wrapping_add(0x9e37_79b9_7f4a_7c15);
        *word = last;
    }
    KeyTable::new(words)
}

/// Whether the counts are the same.
fn are_counts(kept: &Counts, counts: &Counts) -> bool {
    for number in 0..64u8 {
        let square = Square::from_index(number);
        for colour in [Colour::White, Colour::Black] {
            if kept.count(colour, square) != counts.count(colour, square) {
                return false;
            }
        }
    }
    true
}

/// Whether the numbers that are kept are those of the position, computed afresh.
fn is_afresh(live: &Live, table: &KeyTable) -> bool {
    let placement = &live.position().placement;
    are_counts(live.counts(), &Counts::of(placement))
        && live.white() == Sum::of(placement).white()
        && *live.key() == Key::of(table, placement)
}

/// Whether the two positions have the same six fields.
fn is_same(now: &Setup, setup: &Setup) -> bool {
    now.placement.cells() == setup.placement.cells()
        && now.side == setup.side
        && now.rights == setup.rights
        && now.target == setup.target
        && now.clock == setup.clock
        && now.number == setup.number
}

/// The position and what is kept for it, after at most 216 ticks.
fn assert_now(rt: &impl Abort, live: &Live, table: &KeyTable, setup: &Setup) {
    assert!(rt; live.last_ticks() <= 216);
    assert!(rt; is_same(live.position(), setup));
    assert!(rt; is_afresh(live, table));
}

/// Makes the move, which leads to that position, and takes it back.
fn make_and_undo(
    rt: &impl Abort,
    live: &mut Live,
    table: &KeyTable,
    m: Move,
    before: &Setup,
    after: &Setup,
) {
    let made = make_move(rt, live, m);
    assert_now(rt, live, table, after);
    live.undo(made);
    assert_now(rt, live, table, before);
}

/// Makes the move if it is pseudo-legal, and takes it back: all is as before. Whether it is.
fn try_and_undo(
    rt: &impl Abort,
    live: &mut Live,
    table: &KeyTable,
    m: Move,
    before: &Setup,
) -> bool {
    if !live.is_pseudo(m) {
        return false;
    }
    let made = make_move(rt, live, m);
    assert!(rt; live.last_ticks() <= 216);
    assert!(rt; is_afresh(live, table));
    live.undo(made);
    assert_now(rt, live, table, before);
    true
}

/// How many moves from the one square to the other are pseudo-legal; each is made and taken back.
fn try_target(
    rt: &impl Abort,
    live: &mut Live,
    table: &KeyTable,
    from: Square,
    to: Square,
    before: &Setup,
) -> u32 {
    let mut count = 0u32;
    for promo in PROMOTIONS {
        if try_and_undo(rt, live, table, Move { from, to, promo }, before) {
            count = count.saturating_add(1);
        }
    }
    count
}

/// How many moves from the square are.
fn try_origin(
    rt: &impl Abort,
    live: &mut Live,
    table: &KeyTable,
    from: Square,
    before: &Setup,
) -> u32 {
    let mut count = 0u32;
    for to in 0..64u8 {
        let more = try_target(rt, live, table, from, Square::from_index(to), before);
        count = count.saturating_add(more);
    }
    count
}

#[test]
fn each_move_made_and_taken_back(rt: HostRuntime) -> Result<(), Fail> {
    let fen = b"r3k2r/p1ppqpb1/bn2pnp1/3PN3/1p2P3/2N2Q1p/PPPBBPPP/R3K2R w KQkq - 0 1";
    let table = a_table();
    let mut live = Live::new(read(fen)?, &table);
    let before = read(fen)?;
    let mut count = 0u32;
    for from in 0..64u8 {
        let from = Square::from_index(from);
        let more = try_origin(&rt, &mut live, &table, from, before.setup());
        count = count.saturating_add(more);
    }
    assert!(rt; count == 48);
    Ok(())
}

/// Moves, each with the position before it and after it.
const MOVES: [(&[u8], &[u8], &[u8]); 9] = [
    // both rooks lose their rights
    (
        b"r3k2r/8/8/8/8/8/8/R3K2R w KQkq - 0 1",
        b"a1a8",
        b"R3k2r/8/8/8/8/8/8/4K2R b Kk - 0 1",
    ),
    (
        b"r3k2r/8/8/8/8/8/8/R3K2R b KQkq - 7 1",
        b"e8d7",
        b"r6r/3k4/8/8/8/8/8/R3K2R w KQ - 8 2",
    ),
    (
        b"4kr2/8/8/8/8/8/8/R3K2R w KQ - 0 1",
        b"e1c1",
        b"4kr2/8/8/8/8/8/8/2KR3R b - - 1 1",
    ),
    // b1 may be attacked
    (
        b"1r2k3/8/8/8/8/8/8/R3K2R w KQ - 0 1",
        b"e1c1",
        b"1r2k3/8/8/8/8/8/8/2KR3R b - - 1 1",
    ),
    (
        b"r3k2r/8/8/8/8/8/8/R3K2R b KQkq - 3 9",
        b"e8g8",
        b"r4rk1/8/8/8/8/8/8/R3K2R w KQ - 4 10",
    ),
    (
        b"r3k3/1P6/8/8/8/8/8/4K3 w q - 5 1",
        b"b7a8q",
        b"Q3k3/8/8/8/8/8/8/4K3 b - - 0 1",
    ),
    (
        b"4k3/8/8/8/8/8/4P3/4K3 w - - 6 1",
        b"e2e4",
        b"4k3/8/8/8/4P3/8/8/4K3 b - e3 0 1",
    ),
    (
        b"4k3/4p3/8/8/8/8/8/4K3 b - - 6 1",
        b"e7e6",
        b"4k3/8/4p3/8/8/8/8/4K3 w - - 0 2",
    ),
    (
        b"4k3/8/8/1pP5/8/8/8/4K3 w - b6 0 2",
        b"c5b6",
        b"4k3/8/1P6/8/8/8/8/4K3 b - - 0 2",
    ),
];

#[test]
fn the_position_after(rt: HostRuntime) -> Result<(), Fail> {
    let table = a_table();
    for (before, text, after) in MOVES {
        let mut live = Live::new(read(before)?, &table);
        let m = Move::parse(text).expect(&rt, "a move");
        let (before, after) = (read(before)?, read(after)?);
        make_and_undo(&rt, &mut live, &table, m, before.setup(), after.setup());
    }
    Ok(())
}

/// The captured pawn leaves, though the rook then sees the king: that is no matter of a pseudo-legal move.
#[test]
fn en_passant(rt: HostRuntime) {
    let table = a_table();
    let mut live = live_in(&rt, "8/8/8/K1pP3r/8/8/8/4k3 w - c6 0 2", &table);
    let made = make(&rt, &mut live, "d5c6");
    for (name, is_held) in [("c6", true), ("c5", false), ("d5", false)] {
        let found = live.position().placement.get(square(&rt, name));
        assert!(rt; found.is_some() == is_held, "{name}");
    }
    live.undo(made);
    assert!(rt; is_afresh(&live, &table));
}

#[test]
fn not_pseudo_legal(rt: HostRuntime) {
    let table = a_table();
    let refused: [(&str, &str); 7] = [
        // f1 is attacked
        ("4kr2/8/8/8/8/8/8/R3K2R w KQ - 0 1", "e1g1"),
        // g1 is
        ("4k1r1/8/8/8/8/8/8/R3K2R w KQ - 0 1", "e1g1"),
        // the king itself is
        ("4k3/8/8/8/4r3/8/8/R3K2R w KQ - 0 1", "e1g1"),
        // no right
        ("4k3/8/8/8/8/8/8/R3K2R w K - 0 1", "e1c1"),
        // a man between
        ("4k3/8/8/8/8/8/8/RN2K3 w Q - 0 1", "e1c1"),
        // a pawn that names nothing on the last rank
        ("8/P3k3/8/8/8/8/8/4K3 w - - 0 1", "a7a8"),
        // the other side's man
        ("4k3/8/8/8/8/8/8/4K2R b - - 0 1", "h1h2"),
    ];
    for (fen, text) in refused {
        let live = live_in(&rt, fen, &table);
        assert!(rt; !live.is_pseudo(a_move(&rt, text)));
    }
}

/// A king is never taken, though a move that is no legal one has left it attacked.
#[test]
fn a_king_is_never_taken(rt: HostRuntime) {
    let table = a_table();
    let mut live = live_in(&rt, "4k3/8/8/8/4r3/8/4R3/4K3 w - - 0 1", &table);
    make(&rt, &mut live, "e2a2").keep();
    assert!(rt; live.is_pseudo(a_move(&rt, "e4e2")));
    assert!(rt; !live.is_pseudo(a_move(&rt, "e4e1")));
}

/// Makes the move of that text, which is pseudo-legal.
fn make(rt: &impl Abort, live: &mut Live, text: &str) -> Made
    ensures { IsBefore live.new.position result live.old.position }
{
    make_move(rt, live, a_move(rt, text))
}

/// The side to move, the clock and the number, and at most 216 ticks, all of them those of the counts; what is kept is as computed afresh.
fn assert_turn(
    rt: &impl Abort,
    live: &Live,
    table: &KeyTable,
    side: Colour,
    clock: u32,
    number: u32,
) {
    let setup = live.position();
    assert!(rt; setup.side == side && setup.clock == clock && setup.number == number);
    assert!(rt; (1..=216).contains(&live.last_ticks()));
    assert!(rt; live.last_ticks() == live.counts().ticks());
    assert!(rt; is_afresh(live, table));
}

#[test]
fn a_pawn_advances_and_comes_back(rt: HostRuntime) {
    let table = a_table();
    let mut live = Live::new(Position::start(), &table);
    assert!(rt; live.last_ticks() == 0);
    assert!(rt; !live.is_pseudo(a_move(&rt, "e2e5")));
    let made = make(&rt, &mut live, "e2e4");
    assert_turn(&rt, &live, &table, Colour::Black, 0, 1);
    assert!(rt; live.white() == 8);
    assert!(rt; live.position().target == Some(square(&rt, "e3")));
    live.undo(made);
    assert_turn(&rt, &live, &table, Colour::White, 0, 1);
    assert!(rt; live.white() == 0);
    assert!(rt; live.position().target.is_none());
}

/// A knight goes and comes back, by a record that is kept.
fn there_and_back(rt: &impl Abort, live: &mut Live, table: &KeyTable, text: &str)
    ensures { live.new.position ≡ live.old.position }
{
    let past = make(rt, live, text).keep();
    assert!(rt; is_afresh(live, table));
    live.take_back(past);
    assert!(rt; is_afresh(live, table));
}

#[test]
fn moves_taken_back_in_turn(rt: HostRuntime) {
    let table = a_table();
    let mut live = Live::new(Position::start(), &table);
    let first = make(&rt, &mut live, "g1f3");
    assert_turn(&rt, &live, &table, Colour::Black, 1, 1);
    there_and_back(&rt, &mut live, &table, "b8c6");
    assert_turn(&rt, &live, &table, Colour::Black, 1, 1);
    live.undo(first);
    assert_turn(&rt, &live, &table, Colour::White, 0, 1);
}
