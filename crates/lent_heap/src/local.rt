//! A heap as the allocator of one thread's collections.

ghost use Rattle.std.specs.Prelude.{◌≡◌, ◌^◌, ◌<◌, ◌≤◌, IfSome, None};
ghost use Rattle.lent_heap.specs.Region.{block_size};
ghost use Rattle.lent_heap.specs.Ownership.{block_token};

use crate::block::Block;
use crate::heap::{Heap, align_size, write_counts};
use crate::memory::{Memory, UNIT};
use crate::slot::Slot;
use std::alloc::{AllocError, Allocator};
use std::fmt;
use std::mem::ManuallyDrop;

/// A heap as the allocator of one thread's collections, which hold a `&` to it.
pub struct LentHeap {
    slot: Slot,
}

impl LentHeap {
    /// An allocator over memory that is lent for good; `None` where it has fewer than 32 bytes.
    pub fn new(memory: Memory) -> Option<LentHeap>
        ensures { result ≡ None → memory.size < 32 }
    {
        let heap = Heap::new(memory)?;
        Some(LentHeap {
            slot: Slot::new(heap),
        })
    }

    /// How many bytes it gives out at most.
    pub fn size(&self) -> usize {
        self.counts().0
    }

    /// How many of them it has given out.
    pub fn used(&self) -> usize {
        self.counts().1
    }

    /// How many it has left.
    pub fn free(&self) -> usize {
        self.counts().2
    }

    // The slot is empty only while one of the functions below runs, and they call nothing that
    // could come back here.
    fn counts(&self) -> (usize, usize, usize) {
        let Some(heap) = self.slot.replace(None) else {
            return (0, 0, 0);
        };
        let counts = (heap.size(), heap.used(), heap.free());
        self.slot.replace(Some(heap));
        counts
    }

    fn take(&self, size: usize, align: usize) -> Option<Block>
        ensures { IfSome result (λ b. (b.region ≡ self.now.slot) × (b.size ≡ block_size size) × (size < 2 ^ 63) × (align ≤ 16)) }
    {
        if align > UNIT || size > isize::MAX as usize {
            return None;
        }
        let mut heap = self.slot.replace(None)?;
        let block = heap.take(size);
        self.slot.replace(Some(heap));
        block
    }

    fn give(&self, block: Block)
        requires { block.region ≡ self.now.slot }
    {
        match self.slot.replace(None) {
            Some(mut heap) => {
                heap.deallocate(block);
                self.slot.replace(Some(heap));
            }
            None => {
                let _lost = unsafe { ManuallyDrop::new_unchecked(block) };
            }
        }
    }
}

unsafe impl Allocator for LentHeap {
    ghost dealloc_token = { λ heap. block_token heap.slot };

    fn allocate(&self, size: usize, align: usize) -> Result<*mut u8, AllocError> {
        match self.take(size, align) {
            Some(Block { ptr, size: _ }) => Ok(ptr),
            None => Err(AllocError),
        }
    }

    unsafe fn deallocate(&self, ptr: *mut u8, size: usize, _align: usize) {
        let size = align_size(size);
        self.give(Block { ptr, size });
    }
}

impl fmt::Debug for LentHeap {
    fn fmt<W: fmt::Write>(&self, f: &mut fmt::Formatter<W>) -> fmt::Result {
        write_counts(f, "LentHeap", self.size(), self.used())
    }
}

impl Drop for LentHeap {
    fn drop(self) {
        let LentHeap { slot } = self;
        drop(slot.into_inner());
    }
}
