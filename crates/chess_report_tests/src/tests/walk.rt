//! Tests of walks over a game's nodes, in order, in part, and with the moves made.

use chess_key::KeyTable;
use chess_tree::{Analysis, Tree};
use chess_types::{Move, Position};
use chess_walk::{Replay, Walk, node_at};
use std::alloc::Global;
use std::process::Abort;

/// 1. e4 (1. d4 d5 (1... Nf6) 2. c4) (1. c4) 1... e5 2. Nf3
#[tactic(auto, unfolding(chess_types::specs::board::Position::start))]
fn a_tree<'a>(rt: &impl Abort, alloc: &'a Global) -> Tree<'a, Global> {
    let table = KeyTable::fixed();
    let mut analysis = Analysis::new(alloc, Position::start(), &table).expect(rt, "memory");
    for (depth, text) in [
        (0, "e4"),
        (1, "e5"),
        (2, "Nf3"),
        (0, "d4"),
        (1, "d5"),
        (2, "c4"),
        (1, "Nf6"),
        (0, "c4"),
    ] {
        analysis.back_to(depth);
        let m = analysis
            .read_move(text.as_bytes())
            .expect(rt, "a legal move");
        assert!(rt; analysis.play(m).is_ok());
    }
    analysis.into_tree()
}

/// The nodes of a walk: the move, the depth, the level, whether a variation begins, and the move made again.
fn assert_walk(
    rt: &impl Abort,
    walk: Walk<'_, '_, Global>,
    wanted: &[(&str, u32, u32, bool, Option<&str>)],
) {
    let mut left = wanted.iter();
    for visit in walk {
        let visit = visit.expect(rt, "memory");
        let (text, depth, level, begins, again) = left.next().expect(rt, "a node more");
        assert!(rt;
            visit.node.move_at() == Move::parse(text.as_bytes()),
            "{text}"
        );
        assert!(rt;
            visit.depth == *depth && visit.level == *level && visit.begins == *begins,
            "{text}"
        );
        assert!(rt;
            visit.again == again.and_then(|text| Move::parse(text.as_bytes())),
            "{text}"
        );
    }
    assert!(rt; left.next().is_none());
}

/// All nodes, and those of the main line.
#[test]
fn nodes_in_order(rt: HostRuntime) {
    let alloc = rt.alloc();
    let tree = a_tree(&rt, &alloc);
    let wanted = [
        ("e2e4", 1, 0, false, None),
        ("d2d4", 1, 1, true, None),
        ("d7d5", 2, 1, false, None),
        ("g8f6", 2, 2, true, None),
        ("c2c4", 3, 1, false, Some("d7d5")),
        ("c2c4", 1, 1, true, None),
        ("e7e5", 2, 0, false, Some("e2e4")),
        ("g1f3", 3, 0, false, None),
    ];
    assert_walk(&rt, Walk::of(&alloc, &tree).expect(&rt, "memory"), &wanted);
    let main = [
        ("e2e4", 1, 0, false, None),
        ("e7e5", 2, 0, false, None),
        ("g1f3", 3, 0, false, None),
    ];
    let walk = Walk::main_line(&alloc, &tree).expect(&rt, "memory");
    assert_walk(&rt, walk, &main);
}

#[test]
fn a_part_of_a_game(rt: HostRuntime) {
    let alloc = rt.alloc();
    let tree = a_tree(&rt, &alloc);
    let d4 = node_at(&tree, &[1]).expect(&rt, "1. d4");
    let wanted = [
        ("d7d5", 1, 0, false, None),
        ("g8f6", 1, 1, true, None),
        ("c2c4", 2, 0, false, Some("d7d5")),
    ];
    assert_walk(&rt, Walk::below(&alloc, &d4).expect(&rt, "memory"), &wanted);
    assert!(rt; node_at(&tree, &[1, 2]).is_none());
    let mut ended = Walk::of(&alloc, &tree).expect(&rt, "memory");
    ended.stop();
    assert!(rt; ended.next().is_none());
}

/// The texts of the moves that a walk makes, each after the one that leads to it.
fn assert_replay(rt: &impl Abort, replay: Replay<'_, '_, '_, Global>, wanted: &[(&str, u32)]) {
    let mut left = wanted.iter();
    for made in replay {
        let made = made.expect(rt, "memory");
        let (text, depth) = left.next().expect(rt, "a move more");
        assert!(rt;
            made.san.as_str() == *text && made.depth == *depth,
            "{text}"
        );
        assert!(rt;
            made.position.setup().number == 1 + made.depth / 2,
            "{text}"
        );
    }
    assert!(rt; left.next().is_none());
}

#[test]
fn moves_made(rt: HostRuntime) {
    let (alloc, table) = (rt.alloc(), KeyTable::fixed());
    let tree = a_tree(&rt, &alloc);
    let wanted = [
        ("e4", 1),
        ("d4", 1),
        ("d5", 2),
        ("Nf6", 2),
        ("c4", 3),
        ("c4", 1),
        ("e5", 2),
        ("Nf3", 3),
    ];
    let replay = Replay::of(&alloc, &table, &tree).expect(&rt, "memory");
    assert_replay(&rt, replay, &wanted);
    let replay = Replay::main_line(&alloc, &table, &tree).expect(&rt, "memory");
    assert_replay(&rt, replay, &[("e4", 1), ("e5", 2), ("Nf3", 3)]);
}
