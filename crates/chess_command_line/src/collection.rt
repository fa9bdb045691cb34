//! Why a collection of games isn't gone over to its end, and a game's place in it.

use byte_streams::Failed;
use std::alloc::AllocError;
use thiserror::Error;

/// More games than all reads have bytes.
pub const GAMES: u64 = 1 << 57;

/// Why not all games of a collection were gone over.
#[derive(Clone, Copy, Debug, PartialEq, Eq, Error)]
pub enum Failure {
    /// A read failed, or there were 2^40 reads.
    #[error("read fault")]
    Read,
    /// A write failed or took no byte.
    #[error("write fault")]
    Write,
    /// There was no memory for a game or for what is written of it.
    #[error("out of memory")]
    Memory,
}

impl From<AllocError> for Failure {
    fn from(_error: AllocError) -> Failure {
        Failure::Memory
    }
}

impl From<Failed> for Failure {
    fn from(_failed: Failed) -> Failure {
        Failure::Write
    }
}

/// A game's place in a collection.
#[derive(Clone, Copy, Debug, PartialEq, Eq)]
pub struct Place {
    /// Which one it is, from 1.
    pub number: u64,
    /// How many bytes come before it.
    pub offset: u64,
}
