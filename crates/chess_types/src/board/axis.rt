//! The four axes along which men move: ranks, files and the two kinds of diagonals.

/// The four axes through a square: its rank, its file, its rising and its falling diagonal.
#[derive(Clone, Copy, Debug, PartialEq, Eq)]
pub enum Axis {
    Rank,
    File,
    Rising,
    Falling,
}
