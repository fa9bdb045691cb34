//! The list of holes, sorted by address. Each hole begins with its size and a pointer to the next.
//! The list begins with a dummy of size 0, in the first 16 bytes of the region.

ghost use Rattle.std.specs.Prelude.{◌≡◌, ℕ, ◌+◌, ◌-◌, ◌^◌, ◌<◌, ◌≤◌, List, [], ◌∷◌, ◌++◌, IsTrue, MatchResult, MatchOption};
ghost use denote.RawPtr.{block_ptr, block_of, count_of};
ghost use Rattle.lent_heap.specs.Region.{Region, IsRegion, IsBlockSize, region_of, bottom};
ghost use Rattle.lent_heap.specs.Holes.{Span, HasHole, first_fit, taken_from, released, in_order, IsCursor, Skips, Splits, Advances, Inserts, merged};
ghost use Rattle.lent_heap.specs.Ownership.{chain, chain_to};

use crate::block::Block;
use crate::memory::{Memory, UNIT};
use std::marker::Model;
use std::mem::ManuallyDrop;
use std::ptr::null_mut;

#[repr(C)]
pub(crate) struct Hole {
    size: usize,
    next: *mut Hole,
}

pub(crate) struct HoleList {
    first: *mut Hole,
    ghost region: { Region },
    ghost holes: { List Span },
    ghost placed: { (first ≡ block_ptr region.block region.start) × IsRegion region },
    ghost sorted: { IsTrue (in_order region.start region.end ((region.start, 0) ∷ holes)) },
}

impl Model for HoleList {
    ghost also_owns = { λ l. chain l.region.block ((l.region.start, 0) ∷ l.holes) };
}

// A place in the list: at the node `current`, with `before` behind it and `after` ahead.
struct Cursor {
    first: *mut Hole,
    hole: *mut Hole,
    ghost region: { Region },
    ghost before: { List Span },
    ghost current: { Span },
    ghost after: { List Span },
    ghost placed: { (first ≡ block_ptr region.block region.start) × (hole ≡ block_ptr region.block current.0) × IsRegion region },
    ghost sorted: { IsCursor region before current after },
}

impl Model for Cursor {
    ghost also_owns = { λ c. chain_to c.region.block c.before c.current c.after };
}

impl HoleList {
    pub(crate) fn new(memory: Memory) -> HoleList
        requires { 32 ≤ memory.size }
        ensures region { result.region ≡ region_of memory.ptr memory.size }
        ensures placed { memory.ptr ≡ block_ptr result.region.block result.region.start }
        ensures holes { result.holes ≡ (bottom result.region, memory.size - 16) ∷ [] }
    {
        let Memory { ptr, size } = memory;
        unsafe {
            let first = ptr as *mut Hole;
            let hole = ptr.add(UNIT) as *mut Hole;
            hole.write(Hole {
                size: size - UNIT,
                next: null_mut(),
            });
            first.write(Hole {
                size: 0,
                next: hole,
            });
            HoleList { first }
        }
    }

    fn cursor(self) -> Cursor
        ensures { (result.region ≡ self.region) × (result.before ≡ []) × (result.current ≡ (self.region.start, 0)) × (result.after ≡ self.holes) }
    {
        let HoleList { first } = self;
        Cursor { first, hole: first }
    }

    pub(crate) fn allocate_first_fit(self, size: usize) -> (HoleList, Option<Block>)
        requires { IsBlockSize size }
        ensures region { result.0.region ≡ self.region }
        ensures holes { result.0.holes ≡ taken_from size self.holes }
        ensures block { MatchOption result.1 (¬ HasHole size self.holes) (λ b. HasHole size self.holes × (b.at ≡ first_fit size self.holes) × (b.size ≡ size) × (b.region ≡ self.region)) }
    {
        let mut cursor = self.cursor();
        loop {
            match cursor.split_next(size) {
                Ok((block, split)) => return (split.into_list(), Some(block)),
                Err(skipped) => match skipped.next() {
                    Ok(next) => cursor = next,
                    Err(last) => return (last.into_list(), None),
                },
            }
        }
    }

    pub(crate) fn deallocate(self, block: Block) -> (HoleList, ())
        requires { block.region ≡ self.region }
        ensures region { result.0.region ≡ self.region }
        ensures holes { result.0.holes ≡ released (block.at, block.size) self.holes }
    {
        let mut cursor = self.cursor();
        let mut block = block;
        loop {
            match cursor.try_insert_after(block) {
                Ok(inserted) => {
                    let merged = inserted.try_merge_next().try_merge_next();
                    return (merged.into_list(), ());
                }
                Err((next, back)) => {
                    cursor = next;
                    block = back;
                }
            }
        }
    }

    pub(crate) fn leak(self) {
        let _leaked = unsafe { ManuallyDrop::new_unchecked(self) };
    }
}

impl Cursor {
    fn into_list(self) -> HoleList
        ensures { (result.region ≡ self.region) × ((self.region.start, 0) ∷ result.holes ≡ self.before ++ self.current ∷ self.after) }
    {
        let Cursor { first, hole: _ } = self;
        HoleList { first }
    }

    fn next(self) -> Result<Cursor, Cursor>
        ensures { MatchResult result (λ c. (c.region ≡ self.region) × Advances self.before self.current self.after c.before c.current c.after) (λ c. (c ≡ self) × (self.after ≡ [])) }
    {
        let Cursor { first, hole } = self;
        unsafe {
            let next = (*hole).next;
            if next.is_null() {
                Err(Cursor { first, hole })
            } else {
                Ok(Cursor { first, hole: next })
            }
        }
    }

    // Takes `size` bytes from the front of the next hole, if it has them. What is left takes its place.
    fn split_next(self, size: usize) -> Result<(Block, Cursor), Cursor>
        requires { IsBlockSize size }
        ensures { MatchResult result (λ r. (r.0.region ≡ self.region) × (r.0.size ≡ size) × (r.1.region ≡ self.region) × (r.1.before ≡ self.before) × (r.1.current ≡ self.current) × Splits size self.after r.0.at r.1.after) (λ c. (c ≡ self) × Skips size self.after) }
    {
        let Cursor { first, hole: prev } = self;
        unsafe {
            let hole = (*prev).next;
            if hole.is_null() {
                return Err(Cursor { first, hole: prev });
            }
            let hole_size = (*hole).size;
            if hole_size < size {
                return Err(Cursor { first, hole: prev });
            }
            let next = (*hole).next;
            let ptr = hole as *mut u8;
            if hole_size == size {
                (*prev).next = next;
            } else {
                let back_padding = ptr.add(size) as *mut Hole;
                back_padding.write(Hole {
                    size: hole_size - size,
                    next,
                });
                (*prev).next = back_padding;
            }
            Ok((Block { ptr, size }, Cursor { first, hole: prev }))
        }
    }

    // Makes the block a hole after this node, if it lies before the next. Else moves on.
    fn try_insert_after(self, block: Block) -> Result<Cursor, (Cursor, Block)>
        requires { (block.region ≡ self.region) × (self.current.0 ≤ block.at) }
        ensures { MatchResult result (λ c. (c.region ≡ self.region) × (c.before ≡ self.before) × (c.current ≡ self.current) × Inserts (block.at, block.size) self.current self.after c.after) (λ r. (r.0.region ≡ self.region) × (r.1 ≡ block) × (r.0.current.0 ≤ block.at) × Advances self.before self.current self.after r.0.before r.0.current r.0.after) }
    {
        let Cursor { first, hole } = self;
        let Block { ptr, size } = block;
        unsafe {
            let node = ptr as *mut Hole;
            let next = (*hole).next;
            if next.is_null() || node < next {
                node.write(Hole { size, next });
                (*hole).next = node;
                Ok(Cursor { first, hole })
            } else {
                Err((Cursor { first, hole: next }, Block { ptr, size }))
            }
        }
    }

    // Joins the next hole to this one if they touch, and else moves on to it.
    fn try_merge_next(self) -> Cursor
        ensures { (result.region ≡ self.region) × ((result.before, result.current, result.after) ≡ merged self.before self.current self.after) }
    {
        let Cursor { first, hole } = self;
        unsafe {
            let next = (*hole).next;
            if next.is_null() {
                return Cursor { first, hole };
            }
            let size = (*hole).size;
            let end = (hole as *mut u8).add(size) as *mut Hole;
            if end == next {
                (*hole).size = size + (*next).size;
                (*hole).next = (*next).next;
                Cursor { first, hole }
            } else {
                Cursor { first, hole: next }
            }
        }
    }
}
