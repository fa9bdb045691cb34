//! A walk over a game: its nodes one after another, in the order in which a PGN text has their moves (PGN 8.2.5).
//!
//! `Walk` gives each node with its depth, without recursion and in time that grows as the number of nodes does; `Replay` makes the moves besides,
//! and gives each move's text and the position after it. `node_at` is the node at a path, from which a `Walk` may begin. Contracts see a walk as the list of visits that are still to come
//! (`specs/Order.antt`).
#![tactic(auto)]

mod node;
mod replay;
mod walk;

pub use node::node_at;
pub use replay::{Replay, Replayed};
pub use walk::{Visit, Walk};
