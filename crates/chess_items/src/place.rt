//! Where in a text an item is.

/// The place of an item, on which it depends what the item may be.
#[derive(Clone, Copy)]
pub enum Place {
    /// Where the reading of a game begins.
    GameStart,
    /// Right after a line feed.
    LineStart,
    /// Elsewhere outside of tags.
    InLine,
    /// Right after a line feed between the parts of a tag.
    TagLineStart,
    /// Elsewhere between the parts of a tag.
    InTag,
    /// Between the quotation marks of a tag.
    InValue,
}
