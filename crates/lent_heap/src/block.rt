//! Blocks of memory that a heap gave out.

ghost use Rattle.std.specs.Prelude.{◌≡◌, ℕ};
ghost use types.Logic.{sem};
ghost use Rattle.lent_heap.specs.Region.{Region, IsBlock};
ghost use Rattle.lent_heap.specs.Ownership.{bytes_at};

use std::fmt;
use std::marker::Model;

/// Memory that a `Heap` gave out. It goes back by `Heap::deallocate`.
pub struct Block {
    pub(crate) ptr: *mut u8,
    pub(crate) size: usize,
    pub ghost region: { Region },
    pub ghost at: { ℕ },
    pub ghost placed: { IsBlock region ptr at size },
}

impl Model for Block {
    ghost also_owns = { λ b. bytes_at b.ptr b.size };
}

impl Block {
    /// The block's size, and the block again.
    pub fn with_size(self) -> (usize, Block)
        ensures { (result.0 ≡ self.size) × (result.1 ≡ self) }
    {
        let Block { ptr, size } = self;
        (size, Block { ptr, size })
    }

    /// The block's address and size. The caller owns the bytes from here on.
    pub fn into_raw_parts(self) -> (*mut u8, usize)
        ensures parts { IsBlock self.region result.0 self.at result.1 × (result.1 ≡ self.size) }
        ensures* memory { sem 𝓛 (bytes_at result.0 result.1) }
    {
        let Block { ptr, size } = self;
        (ptr, size)
    }

    pub unsafe fn from_raw_parts(ptr: *mut u8, size: usize) -> Block
        ghost place: { Region × ℕ }
        requires placed { IsBlock place.0 ptr place.1 size }
        requires* memory { sem 𝓛 (bytes_at ptr size) }
        ensures { (result.region ≡ place.0) × (result.at ≡ place.1) × (result.size ≡ size) }
    {
        Block { ptr, size }
    }
}

impl fmt::Debug for Block {
    fn fmt<W: fmt::Write>(&self, f: &mut fmt::Formatter<W>) -> fmt::Result {
        f.write_str("Block")
    }
}
