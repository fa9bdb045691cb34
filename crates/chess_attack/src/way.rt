//! The two ways along an axis.

/// Along an axis, to one side or the other.
#[derive(Clone, Copy)]
pub enum Way {
    /// To the squares of greater number.
    Up,
    /// To the squares of smaller number.
    Down,
}
