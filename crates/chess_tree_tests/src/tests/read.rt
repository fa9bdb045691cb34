//! A tree of 100,000 random moves, read by way of its root, and the same moves in a list.
use super::analysis::begin;
use super::trees::a_table;
use super::walk::{Entry, list_nodes};
use chess_key::KeyTable;
use chess_tree::{Analysis, Tree};
use chess_types::Move;
use rand_core::utils::NextWord;
use rand_pcg::Pcg64;
use std::alloc::{AllocError, Allocator};
use std::process::Abort;
use std::test::Fail;

/// How many moves are added.
const MOVES: usize = 100_000;

/// A node of the list. The number 0, the root's, stands for none.
#[derive(Clone, Copy)]
struct Linked {
    played: Move,
    /// The number of its first child, and of the last.
    first: usize,
    last: usize,
    /// That of the sibling after it.
    next: usize,
}

fn first_of(list: &[Linked], number: usize) -> usize {
    match list.get(number) {
        Some(entry) => entry.first,
        None => 0,
    }
}

fn last_of(list: &[Linked], number: usize) -> usize {
    match list.get(number) {
        Some(entry) => entry.last,
        None => 0,
    }
}

/// The sibling after a node; 0 where there is none, as after the root.
fn next_of(list: &[Linked], number: usize) -> usize {
    match list.get(number) {
        Some(entry) => entry.next,
        None => 0,
    }
}

fn set_first(list: &mut [Linked], number: usize, first: usize) {
    if number < list.len() {
        list[number].first = first;
    }
}

fn set_last(list: &mut [Linked], number: usize, last: usize) {
    if number < list.len() {
        list[number].last = last;
    }
}

fn set_next(list: &mut [Linked], number: usize, next: usize) {
    if number < list.len() {
        list[number].next = next;
    }
}

/// Makes a node the last child of another.
fn hang(list: &mut [Linked], at: usize, number: usize) {
    let last = last_of(list, at);
    if last == 0 {
        set_first(list, at, number);
    } else {
        set_next(list, last, number);
    }
    set_last(list, at, number);
}

/// Appends a move to those below a node. The first entry is the root's.
fn append<A: Allocator>(
    list: &mut Vec<Linked, &A>,
    at: usize,
    played: Move,
) -> Result<(), AllocError> {
    let number = list.len();
    list.push(Linked {
        played,
        first: 0,
        last: 0,
        next: 0,
    })?;
    if number > 0 {
        hang(list.as_mut_slice(), at, number);
    }
    Ok(())
}

/// The number of the child at a place; 0 where there is none.
fn child_of(list: &[Linked], at: usize, place: u64) -> usize {
    let mut child = first_of(list, at);
    for _passed in 0..place {
        child = next_of(list, child);
    }
    child
}

/// One of the moves, if there is one.
fn one_of(moves: &[Move], word: u64) -> Option<Move> {
    if moves.is_empty() {
        return None;
    }
    moves.get((word % 1_000) as usize % moves.len()).copied()
}

/// One random legal move, if there is one.
fn pick<A: Allocator>(analysis: &mut Analysis<'_, '_, A>, word: u64) -> Option<Move> {
    one_of(analysis.moves().as_slice(), word)
}

/// The node at that index is so deep, and has that move.
fn assert_node(rt: &impl Abort, nodes: &[Entry], index: usize, depth: usize, played: Move) {
    let node = nodes.get(index).copied().expect(rt, "a node");
    assert!(rt; node.depth == depth);
    assert!(rt; node.played == played);
}

/// Compares an entry with the node at that index; the sibling after it, and its first child, wait then.
fn visit<A: Allocator>(
    rt: &impl Abort,
    waiting: &mut Vec<usize, &A>,
    nodes: &[Entry],
    index: usize,
    linked: Linked,
) -> Result<(), AllocError> {
    waiting.push(linked.next)?;
    assert_node(rt, nodes, index, waiting.len(), linked.played);
    waiting.push(linked.first)?;
    Ok(())
}

/// Compares the nodes of the tree with the list, one by one.
fn compare<A: Allocator>(
    rt: &impl Abort,
    alloc: &A,
    nodes: &[Entry],
    list: &[Linked],
) -> Result<(), AllocError> {
    let mut waiting: Vec<usize, &A> = Vec::new(alloc);
    waiting.push(child_of(list, 0, 0))?;
    let mut index = 0usize;
    for _ in 0..4_000_000u32 {
        let Some(number) = waiting.pop() else {
            assert!(rt; index == nodes.len());
            return Ok(());
        };
        if number > 0 {
            let linked = list.get(number).copied().expect(rt, "an entry");
            visit(rt, &mut waiting, nodes, index, linked)?;
            index = index.saturating_add(1);
        }
    }
    panic!(rt; "the walk did not end");
}

/// A random legal move more below that node, else back to the start.
fn add_random<A: Allocator>(
    analysis: &mut Analysis<'_, '_, A>,
    list: &mut Vec<Linked, &A>,
    path: &mut Vec<usize, &A>,
    at: usize,
    word: u64,
) -> Result<(), Fail> {
    let Some(played) = pick(analysis, word) else {
        analysis.start();
        path.clear();
        return Ok(());
    };
    analysis.add(played)?;
    path.push(list.len())?;
    append(list, at, played)?;
    Ok(())
}

/// A step up, down, or back so far, or a random legal move more. The path has the numbers of the nodes on the way to the cursor.
fn step_or_add<A: Allocator>(
    analysis: &mut Analysis<'_, '_, A>,
    list: &mut Vec<Linked, &A>,
    path: &mut Vec<usize, &A>,
    word: u64,
) -> Result<(), Fail> {
    let at = path.as_slice().last().copied().unwrap_or(0);
    let more = word / 16;
    match word % 16 {
        0 => {
            let depth = (more % 32) as u32;
            analysis.back_to(depth);
            path.truncate(depth as usize);
        }
        1 | 2 => {
            let place = more % 64;
            if analysis.step(place as u32).is_ok() {
                path.push(child_of(list.as_slice(), at, place))?;
            }
        }
        3 => {
            if analysis.back().is_ok() {
                path.pop();
            }
        }
        _ => add_random(analysis, list, path, at, more)?,
    }
    Ok(())
}

/// Steps and adds until there are `MOVES` moves.
fn grow<A: Allocator>(
    alloc: &A,
    analysis: &mut Analysis<'_, '_, A>,
    list: &mut Vec<Linked, &A>,
) -> Result<(), Fail> {
    append(list, 0, Move::default())?;
    let mut path = Vec::new(alloc);
    let mut random = Pcg64::new(29, 31);
    for _ in 0..400_000u32 {
        if list.len() > MOVES {
            return Ok(());
        }
        step_or_add(analysis, list, &mut path, random.next_word())?;
    }
    Ok(())
}

/// The nodes of the tree are those of the list.
fn is_listed<A: Allocator>(
    rt: &impl Abort,
    alloc: &A,
    tree: &Tree<'_, A>,
    list: &[Linked],
) -> Result<(), AllocError> {
    let mut nodes = Vec::new(alloc);
    list_nodes(rt, alloc, tree, &mut nodes)?;
    assert!(rt; nodes.len() == MOVES);
    compare(rt, alloc, nodes.as_slice(), list)
}

fn is_read<A: Allocator>(rt: &impl Abort, alloc: &A, table: &KeyTable) -> Result<(), Fail> {
    let mut analysis = begin(alloc, table)?;
    let mut list = Vec::new(alloc);
    grow(alloc, &mut analysis, &mut list)?;
    assert!(rt; list.len() == MOVES + 1);
    is_listed(rt, alloc, analysis.tree(), list.as_slice())?;
    Ok(())
}

#[test]
fn a_tree_is_read(rt: HostRuntime) -> Result<(), Fail> {
    is_read(&rt, &rt.alloc(), &a_table())
}
