//! How a write into memory can be made to go wrong.

/// What a sink over memory does at the call that is to go wrong.
#[derive(Clone, Copy, Debug, PartialEq, Eq)]
pub enum WriteFailure {
    Fails,
    TakesNothing,
}
