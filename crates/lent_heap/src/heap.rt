//! A heap of a fixed size over memory that was lent.

ghost use Rattle.std.specs.Prelude.{◌≡◌, ◌+◌, ◌-◌, ◌/◌, ◌*◌, ◌^◌, ◌<◌, ◌≤◌, ◌↔◌, [], ◌∷◌, IsTrue, IsOk, IfOk, IfErr, MatchOption, IfSome, None};
ghost use Rattle.std.specs.Layout.{layout_size, layout_align};
ghost use Rattle.lent_heap.specs.Region.{block_size, bottom, IsRegionSize};
ghost use Rattle.lent_heap.specs.Holes.{HasHole, first_fit, taken_from, released, total, are_spaced};

use crate::block::Block;
use crate::hole::HoleList;
use crate::memory::{Memory, UNIT};
use core::mem::replace_with;
use std::alloc::{AllocError, Layout};
use std::fmt;

/// A heap of a fixed size. It gives the first hole that fits, and joins a freed block to the holes
/// beside it.
pub struct Heap {
    used: usize,
    // The bytes of the region, with the list's dummy.
    bytes: usize,
    holes: HoleList,
    ghost fits: { IsRegionSize bytes × (holes.region.start + bytes ≡ holes.region.end) },
    ghost coalesced: { IsTrue (are_spaced (bottom holes.region) holes.holes) },
    ghost counted: { used + total holes.holes + 16 ≡ bytes },
}

pub(crate) fn align_size(size: usize) -> usize
    requires { size < 2 ^ 63 }
    ensures { result ≡ block_size size }
{
    size.max(UNIT).next_multiple_of(UNIT)
}

// How a heap is shown: by its size, and by how much of it is given out.
pub(crate) fn write_counts<W: fmt::Write>(
    f: &mut fmt::Formatter<W>,
    name: &str,
    size: usize,
    used: usize,
) -> fmt::Result {
    f.debug_struct(name)
        .field("size", &size)
        .field("used", &used)
        .finish()
}

impl Heap {
    ghost use Rattle.lent_heap.specs.Heap.{heap_holes, heap_region, heap_size};

    /// A heap over memory that is lent for good; `None` where it has fewer than 32 bytes.
    pub fn new(memory: Memory) -> Option<Heap>
        ensures none { result ≡ None → memory.size < 32 }
        ensures size { IfSome result (λ h. heap_size h ≡ memory.size - 16) }
        ensures holes { IfSome result (λ h. heap_holes h ≡ (bottom (heap_region h), memory.size - 16) ∷ []) }
    {
        let (bytes, memory) = memory.with_size();
        if bytes < 2 * UNIT {
            memory.leak();
            return None;
        }
        Some(Heap {
            used: 0,
            bytes,
            holes: HoleList::new(memory),
        })
    }

    /// The block has the layout's size rounded up to 16, and is aligned to 16.
    pub fn allocate_first_fit(&mut self, layout: Layout) -> Result<Block, AllocError>
        ensures succeeds { IsOk result ↔ ((layout_align layout ≤ 16) × HasHole (block_size (layout_size layout)) (heap_holes self.old)) }
        ensures block { IfOk result (λ b. (b.region ≡ heap_region self.old) × (b.size ≡ block_size (layout_size layout)) × (b.at ≡ first_fit b.size (heap_holes self.old))) }
        ensures taken_from { IfOk result (λ b. heap_holes self.new ≡ taken_from b.size (heap_holes self.old)) }
        ensures unchanged { IfErr result (λ _. heap_holes self.new ≡ heap_holes self.old) }
        ensures region { (heap_region self.new ≡ heap_region self.old) × (heap_size self.new ≡ heap_size self.old) }
    {
        if layout.align() > UNIT {
            return Err(AllocError);
        }
        match self.take(layout.size()) {
            Some(block) => Ok(block),
            None => Err(AllocError),
        }
    }

    pub(crate) fn take(&mut self, size: usize) -> Option<Block>
        requires { size < 2 ^ 63 }
        ensures block { MatchOption result (¬ HasHole (block_size size) (heap_holes self.old)) (λ b. HasHole (block_size size) (heap_holes self.old) × (b.region ≡ heap_region self.old) × (b.size ≡ block_size size) × (b.at ≡ first_fit b.size (heap_holes self.old))) }
        ensures holes { heap_holes self.new ≡ taken_from (block_size size) (heap_holes self.old) }
        ensures region { (heap_region self.new ≡ heap_region self.old) × (heap_size self.new ≡ heap_size self.old) }
    {
        let size = align_size(size);
        match replace_with(&mut self.holes, size, HoleList::allocate_first_fit) {
            Some(block) => {
                self.used += size;
                Some(block)
            }
            None => None,
        }
    }

    pub fn deallocate(&mut self, block: Block)
        requires { block.region ≡ heap_region self.old }
        ensures holes { heap_holes self.new ≡ released (block.at, block.size) (heap_holes self.old) }
        ensures region { (heap_region self.new ≡ heap_region self.old) × (heap_size self.new ≡ heap_size self.old) }
    {
        let (size, block) = block.with_size();
        replace_with(&mut self.holes, block, HoleList::deallocate);
        self.used -= size;
    }

    pub fn size(&self) -> usize
        ensures { result ≡ heap_size self.now }
    {
        self.bytes - UNIT
    }

    pub fn used(&self) -> usize
        ensures value { result + total (heap_holes self.now) ≡ heap_size self.now }
        ensures whole { result ≡ 0 → heap_holes self.now ≡ (bottom (heap_region self.now), heap_size self.now) ∷ [] }
    {
        self.used
    }

    pub fn free(&self) -> usize
        ensures { result ≡ total (heap_holes self.now) }
    {
        self.size() - self.used
    }
}

impl fmt::Debug for Heap {
    fn fmt<W: fmt::Write>(&self, f: &mut fmt::Formatter<W>) -> fmt::Result {
        write_counts(f, "Heap", self.size(), self.used())
    }
}

// What was lent for good stays with nobody.
impl Drop for Heap {
    fn drop(self) {
        let Heap {
            used: _,
            bytes: _,
            holes,
        } = self;
        holes.leak();
    }
}
