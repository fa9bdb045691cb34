//! Each growth refused in turn.
use super::common::{all_of, game_of, layout_of};
use chess_pgn::read_game;
use chess_positions::{Column, Format};
use linked_list_allocator::LocalHeap;
use std::alloc::{AllocError, Global};
use std::process::Abort;
use std::test::Fail;

/// Whether memory is refused on a heap of that size, of which nothing is taken afterwards.
fn is_too_small(rt: &impl Abort, alloc: Global, size: usize) -> Result<bool, AllocError> {
    let heap = LocalHeap::new(alloc, size)?;
    let is_refused = match read_game(&heap, b"1. e4 e5 2. Nf3 Nc6 3. Bb5 a6 1-0") {
        Err(_) | Ok(None) => true,
        Ok(Some((game, _))) => {
            let layout = layout_of(Format::Csv, &Column::ALL);
            match all_of(&heap, &layout, 1, &game) {
                Err(_) => true,
                Ok(all) => {
                    assert!(rt; all.len() > 800);
                    false
                }
            }
        }
    };
    assert!(rt; heap.used() == 0);
    Ok(is_refused)
}

#[test]
fn without_memory(rt: HostRuntime) -> Result<(), Fail> {
    let mut refused = 0u32;
    for size in 1..400usize {
        if is_too_small(&rt, rt.alloc(), size * 64)? {
            refused = refused.saturating_add(1);
        }
    }
    assert!(rt; refused > 20 && refused < 390);
    Ok(())
}
