//! Which columns rows have, and how they are written.

use crate::column::Column;
use arrayvec::ArrayVec;

/// How rows are written.
#[derive(Clone, Copy, Debug, PartialEq, Eq)]
pub enum Format {
    /// Comma-separated values, after a row of the columns' names (RFC 4180). A value that isn't there is empty. No value has a comma, a quotation mark or a
    /// line's end, so none is between quotation marks.
    Csv,
    /// A JSON object a line, numbers as numbers and all else as strings (RFC 8259). A value that isn't there is `null`.
    Jsonl,
}

/// What rows have, and how they are written.
#[derive(Drop)]
pub struct Layout {
    pub format: Format,
    /// The columns, in this order. Only what they ask for is computed.
    pub columns: ArrayVec<Column, 10>,
}
