//! Tests of edits: variations promoted and deleted, notes, and children in order.

use super::calls::Call::{Add, AddNag, Back, Delete, End, Goto, Promote, SetComment, Start, Step};
use super::calls::Look::{
    Below, ChildCount, Comment, Depth, Find, Has, Nags, Path, Place, Played, RootCount,
};
use super::calls::Row::{Does, Fails, Shows};
use super::calls::{Row, grown, play_all};
use super::trees::{a_move, child_move};
use chess_tree::{Children, Tree, TreeFault};
use chess_types::Move;
use std::alloc::Allocator;
use std::process::Abort;

const PROMOTED: &[Row] = &[
    Does(Add("e2e4")),
    Does(Add("e7e5")),
    Does(Back),
    Does(Add("c7c5")),
    Shows(Path(&[0, 1])),
    Shows(Depth(2)),
    Shows(Place(1, Some(1))),
    Shows(Place(2, None)),
    Shows(Played(Some("c7c5"))),
    Shows(ChildCount(0)),
    Does(Promote),
    Shows(Path(&[0, 0])),
    Shows(Played(Some("c7c5"))),
    Does(Back),
    Shows(Find("e7e5", 1)),
    Does(Step(1)),
    Does(Delete),
    Shows(Path(&[0])),
    Shows(ChildCount(1)),
    Fails(TreeFault::NoSuch, Step(1)),
    Does(Start),
    Fails(TreeFault::AtRoot, Back),
    Fails(TreeFault::AtRoot, Delete),
    Fails(TreeFault::AtRoot, Promote),
    Shows(Played(None)),
];

/// e2e4 with the answers e7e5 and c7c5, the cursor on the second.
#[test]
fn a_variation_is_promoted_and_the_other_deleted(rt: HostRuntime) {
    play_all(&rt, &rt.alloc(), PROMOTED);
}

const NOTED: &[Row] = &[
    Fails(TreeFault::AtRoot, AddNag(1)),
    Does(SetComment(b"\t to begin \n with ")),
    Does(Add("e2e4")),
    Does(AddNag(1)),
    Does(AddNag(1)),
    Does(SetComment(b"a  b")),
    Does(Add("e7e5")),
    Does(Start),
    Shows(Comment(b"to begin with")),
    Shows(Nags(&[])),
    Does(End),
    Shows(Path(&[0, 0])),
    Does(Goto(&[0])),
    Shows(Comment(b"a b")),
    Shows(Nags(&[1, 1])),
    Fails(TreeFault::BadComment, SetComment(b"}")),
    Fails(TreeFault::NoSuch, Goto(&[0, 1])),
    Shows(Path(&[0])),
    Shows(Has(&[0, 0], true)),
    Shows(Has(&[1], false)),
    Does(SetComment(b" ")),
    Shows(Comment(b"")),
];

#[test]
fn notes_stay_with_their_node(rt: HostRuntime) {
    play_all(&rt, &rt.alloc(), NOTED);
}

const THREE: &[Row] = &[
    Does(Add("a2a3")),
    Does(Back),
    Does(Add("b2b3")),
    Does(Back),
    Does(Add("c2c3")),
    Does(Promote),
    Shows(Below(0, "c2c3")),
    Shows(Below(1, "a2a3")),
    Shows(Below(2, "b2b3")),
    Does(Goto(&[1])),
    Does(Delete),
    Shows(RootCount(2)),
    Shows(Below(1, "b2b3")),
    Does(Add("c2c3")),
    Does(Back),
    Shows(Find("c2c3", 0)),
];

#[test]
fn the_order_of_three_children(rt: HostRuntime) {
    play_all(&rt, &rt.alloc(), THREE);
}

const TWICE: &[Row] = &[
    Does(Add("e2e4")),
    Does(Back),
    Does(Add("d2d4")),
    Does(Back),
    Does(Add("d2d4")),
    Shows(Path(&[2])),
    Does(Back),
    Shows(Find("d2d4", 1)),
    Does(Step(2)),
    Does(Promote),
    Does(Back),
    Shows(Find("d2d4", 0)),
    Shows(Find("e2e4", 1)),
];

/// Of two children with one move the first is found.
#[test]
fn a_move_that_is_there_twice(rt: HostRuntime) {
    play_all(&rt, &rt.alloc(), TWICE);
}

const TAKEN_AGAIN: &[Row] = &[
    Does(Add("a2a3")),
    Does(AddNag(7)),
    Does(SetComment(b"noted")),
    Does(Back),
    Does(Add("b2b3")),
    Does(AddNag(7)),
    Does(SetComment(b"noted")),
    Does(Back),
    Does(Add("c2c3")),
    Does(AddNag(7)),
    Does(SetComment(b"noted")),
    Does(Back),
    Does(Step(1)),
    Does(Add("e7e5")),
    Does(SetComment(b"below")),
    Does(Back),
    Does(Delete),
    Shows(Below(0, "a2a3")),
    Shows(Below(1, "c2c3")),
    Does(Step(1)),
    Does(Promote),
    Shows(Path(&[0])),
    Does(Add("d7d5")),
    Shows(Nags(&[])),
    Shows(Comment(b"")),
    Does(Back),
    Does(Add("e7e5")),
    Shows(Nags(&[])),
    Shows(Comment(b"")),
    Does(Back),
    Does(Add("f7f5")),
    Shows(Nags(&[])),
    Shows(Comment(b"")),
    Does(Back),
    Shows(Nags(&[7])),
    Shows(Comment(b"noted")),
];

/// The child in the middle is deleted, the last one promoted, and a number taken again has none of the notes that it had.
#[test]
fn a_number_is_taken_again_without_its_notes(rt: HostRuntime) {
    play_all(&rt, &rt.alloc(), TAKEN_AGAIN);
}

/// The next child has that move, and a child with the other.
fn is_next<A: Allocator>(
    rt: &impl Abort,
    children: &mut Children<'_, '_, A>,
    text: &str,
    below: Option<Move>,
) {
    let child = children.next().expect(rt, "a child");
    assert!(rt; child.move_at() == Some(a_move(rt, text)));
    assert!(rt; child_move(&child, 0) == below);
}

fn is_gone_over<A: Allocator>(rt: &impl Abort, tree: &Tree<'_, A>) {
    let mut children = tree.root().again().below();
    is_next(rt, &mut children, "a2a3", Some(a_move(rt, "e7e5")));
    is_next(rt, &mut children, "b2b3", None);
    assert!(rt; children.next().is_none());
    assert!(rt; children.next().is_none());
}

const CHILDREN: &[Row] = &[
    Does(Add("a2a3")),
    Does(Add("e7e5")),
    Does(Start),
    Does(Add("b2b3")),
];

/// The children one by one, and the same node once more.
#[test]
fn children_are_gone_over(rt: HostRuntime) {
    is_gone_over(&rt, &grown(&rt, &rt.alloc(), CHILDREN));
}
