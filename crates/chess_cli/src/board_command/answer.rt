//! What is left of an answer to be written, and the answers `ok` and `refused`.

ghost use Rattle.std.specs.Prelude.{◌≡◌, ◌+◌, ◌≤◌, ◌++◌, length};
ghost use Rattle.chess_cli.specs.Answers.{refused, ok_or_refused};

use super::refusal::Refusal;
use chess_loop::OutputBuffer;
use itoa::Buffer;
use std::alloc::Allocator;

/// What there is of the answer to a line on the page: all of it, or nothing of the path to the cursor or of the game, which may be long.
#[derive(Clone, Copy)]
pub enum Pending {
    Nothing,
    Path,
    Game,
}

/// `refused N NAME`, and a line feed.
pub fn put_refused<A: Allocator>(page: &mut OutputBuffer<A>, refusal: Refusal)
    requires { length page.old + 2600 ≤ 65536 }
    ensures { page.new ≡ page.old ++ refused refusal }
{
    page.put(b"refused ");
    page.put(Buffer::new().format(refusal.number()).as_bytes());
    page.put(b" ");
    page.put_line(refusal.name());
}

/// `ok`, or the refusal, and a line feed.
pub fn put_done<X: Copy, A: Allocator>(page: &mut OutputBuffer<A>, ended: Result<X, Refusal>)
    requires { length page.old + 2600 ≤ 65536 }
    ensures { page.new ≡ page.old ++ ok_or_refused ended }
{
    match ended {
        Ok(_) => page.put(b"ok\n"),
        Err(refusal) => put_refused(page, refusal),
    }
}
