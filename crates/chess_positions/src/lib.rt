//! A game's main line as rows: one for each ply, with the columns that are asked for, as comma-separated values or as lines of JSON. A database's index
//! and a training set are made of them.
//!
//! What a row has in a column is defined from the starting position and the moves alone (`specs/Columns.antt`), how rows are written in `specs/Rows.antt`.
#![tactic(auto)]

mod cell;
mod column;
mod layout;
mod made;
mod plies;
mod put;
mod row;

pub use column::Column;
pub use layout::{Format, Layout};
pub use plies::{header, rows};
