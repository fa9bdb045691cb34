//! How the path to the cursor is written.

ghost use Rattle.std.specs.Prelude.{◌≡◌, ◌+◌, ◌≤◌, ◌++◌, ◌∷◌, [], length};
ghost use Rattle.chess_cli.specs.Numbers.{path_text};
ghost use Rattle.chess_cli.specs.steps.Pieces.{next_place};
ghost use Rattle.chess_loop.specs.steps.Sending.{Sends};

use byte_streams::{Failed, Sink};
use chess_loop::OutputBuffer;
use chess_tree::Tree;
use itoa::Buffer;
use std::alloc::Allocator;

// The place at a ply, and a period between two.
fn put_place<A: Allocator>(page: &mut OutputBuffer<A>, ply: u32, place: u32)
    requires { length page.old + 2600 ≤ 65536 }
    ensures bytes { page.new ≡ page.old ++ next_place ply place }
    ensures len { length page.new ≤ length page.old + 11 }
{
    if ply > 0 {
        page.put(b".");
    }
    page.put(Buffer::new().format(place).as_bytes());
}

/// The path to the cursor and a line feed. It may be long: the page is written whenever it is full.
pub fn write_path<A: Allocator, B: Allocator, W: Sink>(
    tree: &Tree<'_, A>,
    page: &mut OutputBuffer<B>,
    writer: &mut W,
) -> Result<(), Failed>
    requires { length page.old + 2600 ≤ 65536 }
    ensures { Sends W.takes W.failed page.old writer.old (path_text tree.now.path ++ 10 ∷ []) page.new writer.new result }
{
    if tree.depth() == 0 {
        page.put(b"-\n");
        return Ok(());
    }
    for ply in 0..tree.depth() {
        if let Err(failed) = page.make_room(writer) {
            return Err(failed);
        }
        let Some(place) = tree.path_at(ply) else {
            unreachable!()
        };
        put_place(page, ply, place);
    }
    page.put(b"\n");
    Ok(())
}
