//! A tree's node looked up by its path.

ghost use Rattle.std.specs.Prelude.{◌≡◌, ◌≤◌, IfSome};
ghost use Rattle.chess_draws.specs.Pushes.{most_plies};
ghost use Rattle.chess_tree.specs.Forest.{height};
ghost use Rattle.chess_tree.specs.GameTree.{root_node};
ghost use Rattle.chess_walk.specs.Order.{node_along};

use chess_tree::{NodeRef, Tree};
use std::alloc::Allocator;

/// The node of a tree at a path from the root, by its places from 0, as `Tree::path` gives them; `None` where there is none. The cursor stays.
pub fn node_at<'t, 'a, A: Allocator>(
    tree: &'t Tree<'a, A>,
    path: &[u32],
) -> Option<NodeRef<'t, 'a, A>>
    ensures node { result ≡ node_along path.now (root_node tree.now.tree) }
    ensures high { IfSome result (λ node. height node.below ≤ most_plies) }
{
    let _ = tree.position();
    let mut node = tree.root();
    for place in path {
        node = node.child(*place)?;
    }
    Some(node)
}
