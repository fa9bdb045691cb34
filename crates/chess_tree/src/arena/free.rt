//! The numbers of freed nodes, and how they are taken again.

ghost use Rattle.std.specs.Prelude.{◌≡◌, ◌<◌, ◌≤◌, [], length, IfOk, OnErr};
ghost use Rattle.chess_tree.specs.steps.Entries.{leaf_entry, entry_at, with_parent};
ghost use Rattle.chess_tree.specs.steps.Freed.{IsLoosened, IsPool, IsPut};
ghost use Rattle.chess_tree.specs.Forest.{most_moves};

use super::node_id::NodeId;
use super::nodes::Nodes;
use chess_types::Move;
use std::alloc::{AllocError, Allocator};

// Puts freed children before their parents, from the first freed node down along last children, until one has none: its number.
// Each node deleted is put there once, so this takes a step for each node deleted in all.
fn loosen<A: Allocator>(nodes: &mut Nodes<'_, A>, first: NodeId) -> NodeId
    requires pool { IsPool nodes.old first }
    requires some { 0 < first }
    ensures nodes { IsLoosened nodes.old first nodes.new result }
    ensures length { length nodes.new ≡ length nodes.old }
    ensures there { result < length nodes.old }
    ensures bare { (entry_at nodes.new result).children ≡ [] }
{
    let mut free = first;
    for _passed in 0..nodes.len() {
        let Some(child) = nodes.pop_child(free) else {
            return free;
        };
        nodes.set_parent(child, free);
        free = child;
    }
    free
}

/// Lays a node without children under a freed number, or under a new one where there is none: its number.
pub(crate) fn put<A: Allocator>(
    nodes: &mut Nodes<'_, A>,
    free: &mut NodeId,
    played: Move,
    parent: NodeId,
    place: u32,
) -> Result<NodeId, AllocError>
    requires pool { IsPool nodes.old free.old }
    requires room { free.old ≡ 0 → length nodes.old ≤ most_moves }
    requires few { length nodes.old ≤ 1000001 }
    ensures ok { IfOk result (λ number. IsPut nodes.old free.old (leaf_entry played parent place) nodes.new free.new number) }
    ensures few { length nodes.new ≤ 1000001 }
    ensures nodes { OnErr result (nodes.new ≡ nodes.old) }
    ensures free { OnErr result (free.new ≡ free.old) }
{
    let first = *free;
    if first == NodeId::root() {
        let number = NodeId::new(nodes.len() as u32);
        nodes.push(played, parent, place)?;
        return Ok(number);
    }
    let number = loosen(nodes, first);
    *free = nodes.parent(number);
    nodes.write(number, played, parent, place);
    Ok(number)
}

/// Puts a node that hangs nowhere, with all below it, before the freed ones.
pub(crate) fn let_go<A: Allocator>(nodes: &mut Nodes<'_, A>, free: &mut NodeId, number: NodeId)
    requires { number < length nodes.old }
    ensures nodes { nodes.new ≡ with_parent number free.old nodes.old }
    ensures free { free.new ≡ number }
{
    nodes.set_parent(number, *free);
    *free = number;
}
