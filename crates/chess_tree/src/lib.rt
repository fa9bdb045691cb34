//! A game tree with a cursor, and its edits; and an analysis, which keeps the position at the cursor beside it.
//!
//! A `Tree` holds moves, annotation numbers and comments below a starting position. Contracts see the nested tree and the path
//! to the cursor (`specs/GameTree.antt`), and each edit is a function of them (`specs/Edits.antt`). The nodes lie in one
//! vector (`arena`) and are linked by their numbers, so that steps and edits need no walk from the root. An `Analysis` is such a
//! tree with the `Line` of moves from the root to the cursor, which follows each step and each edit.
#![tactic(auto)]

mod analysis;
mod arena;
mod fault;
mod laws;
mod node;
mod tree;

pub use analysis::{Analysis, AnalysisWith, PlainAnalysis};
pub use fault::{PlayFault, TreeFault};
pub use laws::undo_laws;
pub use node::{Children, NodeRef, Notes};
pub use tree::Tree;
