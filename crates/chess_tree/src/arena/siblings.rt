//! Children of one node: found by their move, taken out, and moved before the others.

ghost use Rattle.std.specs.Prelude.{◌≡◌, ◌<◌, ◌≤◌, ◌+◌, ◌-◌, drop, length, take};
ghost use Rattle.std.proofs.Common.{get_or};
ghost use Rattle.chess_tree.specs.GameTree.{find, is_move};
ghost use Rattle.chess_tree.specs.steps.Entries.{entry_at};
ghost use Rattle.chess_tree.specs.steps.Siblings.{AreThere, HasChild, IsFind, IsOwner};
ghost use Rattle.chess_tree.specs.steps.Writes.{detached, lifted, placed};

use super::node_id::NodeId;
use super::nodes::Nodes;
use chess_types::Move;
use std::alloc::Allocator;

// Whether the moves are the same, promotion and all.
#[tactic(auto, using(crate::proofs::FindLemmas::same_move))]
fn is_move(m: Move, n: Move) -> bool
    ensures { result ≡ is_move m n }
{
    m == n
}

/// The place of the first child with that move.
pub(crate) fn find<A: Allocator>(nodes: &Nodes<'_, A>, at: NodeId, played: Move) -> Option<u32>
    requires owner { IsOwner nodes.now at }
    requires few { length (entry_at nodes.now at).children ≤ 1000001 }
    ensures { IsFind nodes.now at played result }
{
    for place in 0..nodes.child_count(at) {
        let Some(child) = nodes.child(at, place) else {
            unreachable!();
        };
        if is_move(nodes.played(child), played) {
            return Some(place);
        }
    }
    None
}

// The children of a node from one place up to another have these as their places.
fn renumber<A: Allocator>(nodes: &mut Nodes<'_, A>, at: NodeId, from: u32, to: u32)
    requires node { at < length nodes.old }
    requires children { AreThere nodes.old at }
    requires order { from ≤ to }
    requires end { to ≤ length (entry_at nodes.old at).children }
    ensures { nodes.new ≡ placed from (take (to - from) (drop from (entry_at nodes.old at).children)) nodes.old }
{
    for place in from..to {
        let Some(child) = nodes.child(at, place) else {
            unreachable!();
        };
        nodes.set_place(child, place);
    }
}

/// Whose child a node is, and at which place.
pub(crate) fn seat<A: Allocator>(nodes: &Nodes<'_, A>, child: NodeId) -> (NodeId, u32)
    requires { child < length nodes.now }
    ensures parent { result.0 ≡ (entry_at nodes.now child).parent }
    ensures place { result.1 ≡ (entry_at nodes.now child).place }
{
    (nodes.parent(child), nodes.place(child))
}

/// Takes the child at a place out of the children of a node. It goes over those after it.
pub(crate) fn detach<A: Allocator>(nodes: &mut Nodes<'_, A>, at: NodeId, place: u32)
    requires { HasChild nodes.old at place }
    ensures { nodes.new ≡ detached at place nodes.old }
{
    nodes.remove_child(at, place);
    let count = nodes.child_count(at);
    renumber(nodes, at, place, count);
}

/// Moves the child at a place before the other children of a node. It goes over those before it.
pub(crate) fn lift<A: Allocator>(nodes: &mut Nodes<'_, A>, at: NodeId, place: u32)
    requires { HasChild nodes.old at place }
    ensures { nodes.new ≡ lifted at place nodes.old }
{
    nodes.move_first(at, place);
    renumber(nodes, at, 0, place + 1);
}
