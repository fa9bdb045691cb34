//! The law of what answers lines.

ghost use Rattle.std.specs.Prelude.{◌≡◌, ◌+◌, ◌≤◌, false, length};
ghost use Rattle.chess_loop.specs.steps.Reads.{AnswersLine, Refuses};

use super::line_buffer::Unread;
use super::output_buffer::OutputBuffer;
use byte_streams::{Failed, Sink};
use std::alloc::Allocator;

/// What answers lines. Contracts know which text may answer a line, in which parts it is written, and which state follows.
pub trait LineHandler {
    ghost use Rattle.std.specs.Prelude.{ℕ, Bool, List};

    /// A line may be answered by these parts, and lead from the first state to the second. Before a further part begins, all that comes
    /// before it is written.
    ghost step: { Self → List ℕ → List (List ℕ) → Self → Type 0 };

    /// The same of a line of which answering was broken off, since a call of the sink failed: of the last part a prefix was written.
    ghost cut: { Self → List ℕ → List (List ℕ) → Self → Type 0 };

    /// No further line is taken.
    ghost over: { Self → Bool };

    /// Answers the line after what is on the page, where there is room for 2,600 bytes. A longer text is written on the way.
    fn answer<A: Allocator, W: Sink>(
        &mut self,
        line: &[u8],
        page: &mut OutputBuffer<A>,
        writer: &mut W,
    ) -> Result<(), Failed>
        requires awake { over self.old ≡ false }
        requires short { length line.now ≤ 1048576 }
        requires room { length page.old + 2600 ≤ 65536 }
        ensures { AnswersLine step cut W.takes W.failed line.now self.old self.new page.old writer.old page.new writer.new result };

    /// Answers a line that is not kept, by at most 2,600 bytes after what is on the page.
    fn refuse<A: Allocator>(&self, line: Unread, page: &mut OutputBuffer<A>)
        requires awake { over self.now ≡ false }
        requires room { length page.old + 2600 ≤ 65536 }
        ensures { Refuses step line self.now page.old page.new };

    /// Whether no further line is taken.
    fn is_over(&self) -> bool
        ensures { result ≡ over self.now };
}
