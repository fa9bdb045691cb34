//! The events of a session.

/// What happens to a session.
#[derive(Clone, Copy, Debug, PartialEq, Eq)]
pub enum Event<'a> {
    /// A line is read, given without its line feed.
    Line(&'a [u8]),
    /// There is time to search one root more.
    Slice,
    /// What the clock reads, in milliseconds from any beginning.
    Moment(u64),
}
