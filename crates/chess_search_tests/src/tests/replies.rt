//! Tests of the line of a score, beside the best move of each of its positions.

ghost use Rattle.std.specs.Prelude.{◌≡◌};

use crate::tests::plain::{MIDDLE_GAMES, START, at, plain_value};
use arrayvec::ArrayVec;
use chess_draws::Line;
use chess_key::KeyTable;
use chess_search::{AtMost, Endless, Nodes, best_counted, replies_within};
use chess_types::Move;
use std::alloc::Allocator;
use std::process::Abort;

/// Plays the best move to the depth that is left, and says which it is.
#[tactic(auto, using(chess_search::proofs::RootLemmas::roots_legal))]
fn play_best<A: Allocator>(rt: &impl Abort, line: &mut Line<'_, A>, left: u8) -> Option<(Move, i32)>
    requires none { line.old.looked ≡ 0 }
    ensures none { line.new.looked ≡ 0 }
{
    assert!(rt; 1 <= left && left <= 16);
    let roots = line.moves();
    let mut nodes = Nodes::new();
    let (m, value) = best_counted(line, left, &roots, &mut nodes, false)?;
    assert!(rt; line.push(m).is_ok());
    Some((m, value))
}

/// The replies to the best move, and the value; the line is as before.
#[tactic(auto, using(chess_search::proofs::RootLemmas::roots_legal))]
fn best_line<A: Allocator>(
    rt: &impl Abort,
    line: &mut Line<'_, A>,
    depth: u8,
) -> Option<(ArrayVec<Move, 16>, i32)>
    requires none { line.old.looked ≡ 0 }
    ensures none { line.new.looked ≡ 0 }
{
    assert!(rt; 1 <= depth && depth <= 16);
    let roots = line.moves();
    let mut nodes = Nodes::new();
    let (m, value) = best_counted(line, depth, &roots, &mut nodes, false)?;
    assert!(rt; line.is_legal(m));
    let replies = replies_within(line, depth, m, value, &mut nodes, false, &mut Endless).expect(
        rt,
        "the replies",
    );
    let mut watch = AtMost {
        nodes: nodes.nodes().saturating_sub(1),
    };
    let abandoned = replies_within(line, depth, m, value, &mut nodes, false, &mut watch);
    assert!(rt; replies.is_empty() || abandoned.is_none());
    Some((replies, value))
}

/// Each reply is the best move of its position, and the line's end is worth the value.
fn follow<A: Allocator>(rt: &impl Abort, line: &mut Line<'_, A>, depth: u8)
    requires none { line.old.looked ≡ 0 }
{
    let Some((replies, value)) = best_line(rt, line, depth) else {
        return;
    };
    let _first = play_best(rt, line, depth);
    let mut distance: u8 = 1;
    for reply in replies.as_slice() {
        assert!(rt; distance < depth);
        let best = play_best(rt, line, depth - distance).expect(rt, "a best reply");
        assert!(rt; best.0 == *reply);
        distance += 1;
    }
    assert!(rt; distance <= 16);
    let end = plain_value(line, 0, distance, false);
    assert!(rt; value == if distance % 2 == 0 { end } else { -end });
    assert!(rt; distance == depth || line.moves().is_empty() || line.is_drawn(false));
}

#[test]
fn leads_to_the_score(rt: HostRuntime) {
    let table = KeyTable::new([0; 768]);
    for fen in MIDDLE_GAMES {
        for depth in 1..5 {
            let mut line = Line::start(rt.alloc(), at(&rt, fen), &table);
            follow(&rt, &mut line, depth);
        }
    }
    let mut line = Line::start(rt.alloc(), at(&rt, START), &table);
    follow(&rt, &mut line, 5);
}
