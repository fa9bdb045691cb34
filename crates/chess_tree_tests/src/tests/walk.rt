//! The nodes of a tree, one after another.
use chess_tree::{Children, NodeRef, Tree};
use chess_types::Move;
use std::alloc::{AllocError, Allocator};
use std::process::Abort;

/// A node in the order of the text of a game: each before those below it.
#[derive(Clone, Copy, PartialEq, Eq)]
pub struct Entry {
    /// How deep it is; a child of the root is 1 deep.
    pub depth: usize,
    pub played: Move,
    /// The digit that its comment is; 0 for none.
    pub note: u8,
}

/// The entry of a node that is so deep.
fn entry_of<A: Allocator>(rt: &impl Abort, node: &NodeRef<'_, '_, A>, depth: usize) -> Entry {
    Entry {
        depth,
        played: node.move_at().expect(rt, "a move"),
        note: node.notes().comment.first().copied().unwrap_or(0),
    }
}

/// The next node, if there is one more beside the last of those that wait; those below it wait then.
fn next<'t, 'a, A: Allocator>(
    rt: &impl Abort,
    waiting: &mut Vec<Children<'t, 'a, A>, &A>,
) -> Result<Option<Entry>, AllocError> {
    let Some(mut children) = waiting.pop() else {
        return Ok(None);
    };
    let Some(node) = children.next() else {
        return Ok(None);
    };
    waiting.push(children)?;
    let entry = entry_of(rt, &node, waiting.len());
    waiting.push(node.below())?;
    Ok(Some(entry))
}

/// Appends the nodes of a tree to a list.
pub fn list_nodes<A: Allocator>(
    rt: &impl Abort,
    alloc: &A,
    tree: &Tree<'_, A>,
    list: &mut Vec<Entry, &A>,
) -> Result<(), AllocError> {
    let mut waiting: Vec<Children<'_, '_, A>, &A> = Vec::new(alloc);
    waiting.push(tree.root().below())?;
    for _ in 0..4_000_000u32 {
        if waiting.is_empty() {
            return Ok(());
        }
        if let Some(entry) = next(rt, &mut waiting)? {
            list.push(entry)?;
        }
    }
    panic!(rt; "the walk did not end");
}
