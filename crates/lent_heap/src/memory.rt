//! The memory that a heap manages, as its caller lends it for good.

ghost use Rattle.std.specs.Prelude.{◌≡◌, ◌+◌, ◌%◌, ◌^◌, ◌<◌};
ghost use denote.RawPtr.{count_of};
ghost use Rattle.lent_heap.specs.Ownership.{bytes_at};

use std::marker::Model;
use std::mem::ManuallyDrop;

pub(crate) const UNIT: usize = 16;

/// Bytes that are lent for good: the caller neither reads nor writes them any more. Their address and their number are multiples of 16.
#[repr(C)]
pub struct Memory {
    pub(crate) ptr: *mut u8,
    pub(crate) size: usize,
    ghost fits: { (size % 16 ≡ 0) × (size < 2 ^ 63) },
    ghost below: { count_of ptr + size < 2 ^ 63 },
}

impl Model for Memory {
    ghost also_owns = { λ m. bytes_at m.ptr m.size };
}

impl Memory {
    // How many bytes they are, and the bytes again.
    pub(crate) fn with_size(self) -> (usize, Memory)
        ensures { (result.0 ≡ self.size) × (result.1 ≡ self) }
    {
        let Memory { ptr, size } = self;
        (size, Memory { ptr, size })
    }

    // They are of no use.
    pub(crate) fn leak(self) {
        let _leaked = unsafe { ManuallyDrop::new_unchecked(self) };
    }
}
