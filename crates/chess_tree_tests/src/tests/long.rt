//! Tests of long lines, full trees and nodes with many children.

use super::calls::Call::{Add, Back, Delete, End, First, Goto, Promote, Start, Step};
use super::calls::Look::{ChildCount, Depth, Path, Played};
use super::calls::Row::{Does, Fails, Shows};
use super::calls::{Row, run};
use super::trees::{SHUFFLE, a_table, add_by, add_on, begin, position_here};
use chess_tree::{Tree, TreeFault};
use std::alloc::Allocator;
use std::process::Abort;

/// 20,000 plies more below the root.
fn lengthen<A: Allocator>(rt: &impl Abort, tree: &mut Tree<'_, A>) -> Result<(), TreeFault> {
    tree.start();
    let table = a_table();
    let mut live = position_here(rt, tree, &table);
    for ply in 0..20_000usize {
        add_on(rt, tree, &mut live, SHUFFLE[ply % 4])?;
    }
    Ok(())
}

/// A tree of `lines` lines of 20,000 plies, the cursor at the end of the last.
fn long_lines<'a, A: Allocator>(
    rt: &impl Abort,
    alloc: &'a A,
    lines: u32,
) -> Result<Tree<'a, A>, TreeFault> {
    let mut tree = begin(alloc)?;
    for _ in 0..lines {
        lengthen(rt, &mut tree)?;
    }
    Ok(tree)
}

/// Goes by a table at the end of `lines` lines.
fn play_long<A: Allocator>(rt: &impl Abort, alloc: &A, lines: u32, rows: &[Row]) {
    let mut tree = long_lines(rt, alloc, lines).expect(rt, "a tree");
    run(rt, &mut tree, rows);
}

const WALKED: &[Row] = &[
    Does(Start),
    Shows(Depth(0)),
    Does(End),
    Shows(Depth(20_000)),
];

#[test]
fn a_long_main_line_is_walked(rt: HostRuntime) {
    play_long(&rt, &rt.alloc(), 1, WALKED);
}

const DELETED: &[Row] = &[
    Does(Start),
    Does(First),
    Does(Delete),
    Shows(Depth(0)),
    Shows(ChildCount(0)),
    Does(Add("e2e4")),
    Does(Add("e7e5")),
    Shows(ChildCount(0)),
    Shows(Path(&[0, 0])),
];

/// The node deleted has all the others below it; their numbers are taken again.
#[test]
fn a_long_main_line_is_deleted(rt: HostRuntime) {
    play_long(&rt, &rt.alloc(), 1, DELETED);
}

const FULL: &[Row] = &[
    Does(Back),
    Fails(TreeFault::Full, Add("f6g8")),
    Shows(Depth(19_999)),
    Shows(ChildCount(1)),
    Does(Step(0)),
    Does(Delete),
    Does(Add("f6g8")),
    Does(Back),
    Fails(TreeFault::Full, Add("f6g8")),
    Does(Goto(&[49])),
    Does(Delete),
    Does(Add("e2e4")),
    Shows(Path(&[49])),
];

/// Fifty lines of 20,000 plies are a million moves, and not one more; where one is deleted one is added.
#[test]
fn a_full_tree(rt: HostRuntime) {
    play_long(&rt, &rt.alloc(), 50, FULL);
}

/// Adds `moves` moves below the cursor, side by side.
fn widen<A: Allocator>(
    rt: &impl Abort,
    tree: &mut Tree<'_, A>,
    moves: u32,
) -> Result<(), TreeFault> {
    let table = a_table();
    for _ in 0..moves {
        add_by(rt, tree, &table, "e2e4")?;
        tree.back()?;
    }
    Ok(())
}

/// Goes by a table at a root with `moves` children.
fn play_wide<A: Allocator>(rt: &impl Abort, alloc: &A, moves: u32, rows: &[Row]) {
    let mut tree = begin(alloc).expect(rt, "a tree");
    widen(rt, &mut tree, moves).expect(rt, "a wide tree");
    run(rt, &mut tree, rows);
}

const WIDE: &[Row] = &[
    Fails(TreeFault::Full, Add("e2e4")),
    Shows(ChildCount(1_000_000)),
    Does(Step(0)),
    Does(Delete),
    Shows(ChildCount(999_999)),
    Does(Add("d2d4")),
    Shows(Path(&[999_999])),
    Does(Delete),
    Shows(ChildCount(999_999)),
    Does(Add("e2e4")),
    Does(Start),
    Does(Step(999_999)),
    Shows(Path(&[999_999])),
    Fails(TreeFault::NoSuch, Goto(&[1_000_000])),
    // The number of the deleted node is taken: there is none for another.
    Fails(TreeFault::Full, Add("e7e5")),
    Shows(Path(&[999_999])),
];

/// One node has a million children.
#[test]
fn a_wide_tree(rt: HostRuntime) {
    play_wide(&rt, &rt.alloc(), 1_000_000, WIDE);
}

const LIFTED: &[Row] = &[
    Does(Add("d2d4")),
    Does(Promote),
    Shows(Path(&[0])),
    Does(Start),
    Does(Step(1)),
    Shows(Played(Some("e2e4"))),
    Does(Goto(&[100_000])),
    Shows(Played(Some("e2e4"))),
    Does(Goto(&[0])),
    Shows(Played(Some("d2d4"))),
];

/// The last of 100,001 children is moved before the others.
#[test]
fn the_last_of_many_is_promoted(rt: HostRuntime) {
    play_wide(&rt, &rt.alloc(), 100_000, LIFTED);
}

const TAKEN_AGAIN: &[Row] = &[
    Does(Add("d2d4")),
    Does(Add("d7d5")),
    Does(Back),
    Does(Add("e7e5")),
    Does(Add("g1f3")),
    Does(Goto(&[1_000])),
    Does(Delete),
    Shows(ChildCount(1_000)),
    Does(Step(999)),
    Does(Add("e7e5")),
    Does(Add("g1f3")),
    Does(Add("g8f6")),
    Does(Back),
    Does(Add("b8c6")),
    Shows(Path(&[999, 0, 0, 1])),
    Does(Start),
    Does(Add("d2d4")),
    Shows(Path(&[1_000])),
    Shows(ChildCount(0)),
    Fails(TreeFault::NoSuch, Goto(&[1_000, 0])),
    Does(Goto(&[999, 0, 0, 0])),
    Shows(Played(Some("g8f6"))),
];

/// The numbers of a branch with variations are taken again, one after the other, and nothing of it is left.
#[test]
fn a_deleted_branch_is_taken_again(rt: HostRuntime) {
    play_wide(&rt, &rt.alloc(), 1_000, TAKEN_AGAIN);
}
