//! The heap of `lent_heap` for a program in C that tests it: blocks are taken and given back, and what the heap says of itself is reported after each.
#![tactic(auto)]

use lent_heap::{LentHeap, Memory};
use std::alloc::Global;

/// A block of `size` bytes is taken; or, for 0, the block at place `at` among those held, from 0, is given back.
#[repr(C)]
#[derive(Clone, Copy)]
pub struct Step {
    size: usize,
    at: usize,
}

/// How many bytes the heap has, how many of them are given out, and how many are left.
#[repr(C)]
#[derive(Clone, Copy)]
pub struct Counts {
    size: usize,
    used: usize,
    free: usize,
}

// Blocks of the heap, in the order in which they were taken.
type Held<'h> = Vec<Vec<u8, &'h LentHeap>, Global>;

// Whether the step could be done.
fn is_done<'h>(heap: &'h LentHeap, held: &mut Held<'h>, step: Step) -> bool {
    if step.size == 0 {
        if step.at >= held.len() {
            return false;
        }
        drop(held.remove(step.at));
        return true;
    }
    match Vec::with_capacity(heap, step.size) {
        Ok(block) => held.push(block).is_ok(),
        Err(_) => false,
    }
}

/// Does the steps over the memory, one after another, up to one that can't be done, and writes the heap's counts after each. How many were done.
#[unsafe(no_mangle)]
pub extern "C" fn lent_heap_run(
    alloc: Global,
    memory: Memory,
    steps: &[Step],
    counts: &mut [Counts],
) -> usize {
    let Some(heap) = LentHeap::new(memory) else {
        return 0;
    };
    let mut held = Vec::new(alloc);
    let most = steps.len().min(counts.len());
    for done in 0..most {
        if !is_done(&heap, &mut held, steps[done]) {
            return done;
        }
        counts[done] = Counts {
            size: heap.size(),
            used: heap.used(),
            free: heap.free(),
        };
    }
    most
}
