//! Tests of best moves and their scores, beside plain minimax, and of searches a root at a time.

ghost use Rattle.std.specs.Prelude.{◌≡◌};

use crate::tests::plain::{MIDDLE_GAMES, START, at, plain_best};
use chess_draws::Line;
use chess_key::KeyTable;
use chess_search::{Nodes, Slices, best_counted, score_text};
use chess_types::Move;
use std::alloc::Allocator;
use std::process::Abort;

/// The best of all legal moves in the position of the FEN, which plain minimax finds, too, and how many positions were asked for.
#[tactic(auto, using(chess_search::proofs::RootLemmas::roots_legal))]
fn search<A: Allocator>(
    rt: &impl Abort,
    alloc: A,
    fen: &[u8],
    depth: u8,
    claims: bool,
) -> (Option<(Move, i32)>, u64) {
    assert!(rt; 1 <= depth && depth <= 16);
    let table = KeyTable::new([0; 768]);
    let mut line = Line::start(alloc, at(rt, fen), &table);
    let mut nodes = Nodes::new();
    let roots = line.moves();
    let best = best_counted(&mut line, depth, &roots, &mut nodes, claims);
    assert!(rt; best == plain_best(&mut line, depth, &roots, claims));
    (best, nodes.nodes())
}

/// Whether that is the text of the best move, and of its score.
fn is_written(best: Option<(Move, i32)>, wanted: Option<(&str, &str)>) -> bool {
    match (best, wanted) {
        (Some((m, value)), Some((text, score))) => {
            m.text().as_str() == text && score_text(value).as_str() == score
        }
        (None, None) => true,
        _ => false,
    }
}

/// A position and a depth, whether claims count, and the text of the best move with its score.
const BEST: &[(&[u8], u8, bool, Option<(&str, &str)>)] = &[
    (START, 1, false, Some(("b1c3", "cp 18"))),
    (START, 2, false, Some(("b1c3", "cp 0"))),
    (
        b"6k1/5ppp/8/8/8/8/8/R5K1 w - - 0 1",
        1,
        false,
        Some(("a1a8", "mate 1")),
    ),
    (
        b"k7/8/1K6/8/8/8/8/7R b - - 0 1",
        2,
        false,
        Some(("a8b8", "mate -1")),
    ),
    (
        b"4k3/8/8/8/8/8/8/R3K3 w - - 149 90",
        1,
        false,
        Some(("a1b1", "cp 0")),
    ),
    (b"7k/5Q2/6K1/8/8/8/8/8 b - - 0 1", 1, false, None),
    // a draw that may be claimed
    (CLAIMED, 1, false, Some(("a1a7", "cp 510"))),
    (CLAIMED, 1, true, Some(("a1b1", "cp 0"))),
];

const CLAIMED: &[u8] = b"4k3/8/8/8/8/8/8/R3K3 w - - 99 60";

#[test]
fn names_the_first_of_greatest_value(rt: HostRuntime) {
    for (fen, depth, claims, wanted) in BEST {
        let (best, _) = search(&rt, rt.alloc(), fen, *depth, *claims);
        assert!(rt; is_written(best, *wanted));
    }
}

/// Depths, and whether claims count.
const DEPTHS: [(u8, bool); 3] = [(1, false), (2, true), (3, false)];

#[test]
fn agrees_with_plain_minimax(rt: HostRuntime) {
    for fen in MIDDLE_GAMES {
        for (depth, claims) in DEPTHS {
            search(&rt, rt.alloc(), fen, depth, claims);
        }
    }
    search(&rt, rt.alloc(), START, 4, false);
    search(&rt, rt.alloc(), MIDDLE_GAMES[5], 4, true);
}

/// Fewer than plain minimax asks for.
#[test]
fn asks_for_few_positions(rt: HostRuntime) {
    let (_, asked) = search(&rt, rt.alloc(), START, 3, false);
    assert!(rt; asked > 20 && asked < 9_323);
}

/// The first legal move as a search by slices gives it after one slice, and the positions that were asked for.
#[tactic(auto, using(chess_search::proofs::RootLemmas::roots_legal))]
fn one_slice<A: Allocator>(line: &mut Line<'_, A>) -> (Option<(Move, i32)>, u64)
    requires none { line.old.looked ≡ 0 }
{
    let roots = line.moves();
    if roots.is_empty() {
        return (None, 0);
    }
    let mut slices = Slices::start(1, roots, false);
    slices.next(line);
    (slices.so_far(), slices.nodes())
}

#[test]
fn searches_a_root_at_a_time(rt: HostRuntime) {
    let table = KeyTable::new([0; 768]);
    let mut line = Line::start(rt.alloc(), at(&rt, START), &table);
    let first = Move::parse(b"b1a3").expect(&rt, "the text of a move");
    assert!(rt; one_slice(&mut line) == (Some((first, 6)), 2));
}
