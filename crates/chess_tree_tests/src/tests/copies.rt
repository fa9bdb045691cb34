//! A tree copied, and the analysis of a tree that there is.
use super::analysis::Asked::{Moves, Plies, Seen};
use super::analysis::Call::{End, Goto, Read};
use super::analysis::Row::{Gives, Is};
use super::analysis::{Answer, READ, Row, grown, run};
use super::calls::Look::{ChildCount, Comment, Depth, Nags, Path};
use super::calls::is_seen;
use super::trees::a_table;
use chess_tree::Analysis;

/// Where the rows of `READ` end.
const COPIED: &[Row] = &[
    Is(Seen(Path(&[0, 1, 0]))),
    Is(Plies(3)),
    Is(Seen(Comment(b"the Sicilian"))),
    Gives(Answer::Done, Read(b"Nc6")),
    Is(Seen(Path(&[0, 1, 0, 0]))),
];

/// A copy has the same nodes, notes and cursor; what is done to it leaves the other as it was.
#[test]
fn copies_a_tree(rt: HostRuntime) {
    let alloc = rt.alloc();
    let table = a_table();
    let analysis = grown(&rt, &alloc, &table, READ);
    let Ok(mut copy) = analysis.tree().clone() else {
        panic!(rt; "no memory");
    };
    assert!(rt; is_seen(&rt, &copy, Path(&[0, 1, 0])));
    assert!(rt; is_seen(&rt, &copy, Comment(b"the Sicilian")));
    assert!(rt; is_seen(&rt, &copy, Nags(&[1])));
    assert!(rt; copy.delete() == Ok(()));
    assert!(rt; is_seen(&rt, &copy, Depth(2)));
    assert!(rt; is_seen(&rt, &copy, ChildCount(0)));
    assert!(rt; is_seen(&rt, analysis.tree(), Path(&[0, 1, 0])));
    assert!(rt; is_seen(&rt, analysis.tree(), Comment(b"the Sicilian")));
}

/// A copy of an analysis is at the same node, its line with it.
#[test]
fn copies_an_analysis(rt: HostRuntime) {
    let alloc = rt.alloc();
    let table = a_table();
    let mut analysis = grown(&rt, &alloc, &table, READ);
    let Ok(mut copy) = analysis.clone() else {
        panic!(rt; "no memory");
    };
    run(&rt, &mut copy, COPIED);
    run(&rt, &mut analysis, COPIED);
}

/// The rows of `READ` once more, from the root.
const AGAIN: &[Row] = &[
    Is(Plies(0)),
    Is(Moves(20)),
    Gives(Answer::Done, End),
    Is(Seen(Path(&[0, 0, 0]))),
    Is(Plies(3)),
    Gives(Answer::Done, Goto(&[0, 1, 0])),
    Is(Seen(Comment(b"the Sicilian"))),
    Is(Plies(3)),
    Gives(Answer::Done, Read(b"Nc6")),
    Is(Seen(Path(&[0, 1, 0, 0]))),
];

/// The analysis of a tree begins at its root, and goes on from any of its nodes.
#[test]
fn takes_up_a_tree(rt: HostRuntime) {
    let alloc = rt.alloc();
    let table = a_table();
    let analysis = grown(&rt, &alloc, &table, READ);
    let mut again = Analysis::of(analysis.into_tree(), &table).expect(&rt, "an analysis");
    run(&rt, &mut again, AGAIN);
}
