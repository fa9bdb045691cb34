//! The two changes of a count: one up, one down.

/// How a count changes: up or down, by one.
#[derive(Clone, Copy, Debug, PartialEq, Eq)]
pub enum Change {
    Raise,
    Lower,
}
