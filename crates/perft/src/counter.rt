//! Lines answered by the leaves that they ask for, over a reader and a writer.

ghost use Rattle.std.specs.Prelude.{◌≡◌, None, false};
ghost use Rattle.perft.specs.Lines.{CountEnds, kept, line_answer};

use crate::answer::answer;
use arrayvec::ArrayString;
use byte_streams::{Failed, Sink, Source};
use chess_loop::{LineHandler, OutputBuffer, RunEnd, Unread, run};
use std::alloc::Allocator;

/// The most bytes of a line, without its line feed.
const LINE_LIMIT: usize = 1024;

/// The most reads of a run.
const READS: u64 = 1 << 40;

/// What is written for a line.
type Text = ArrayString<65>;

/// Answers each line by the leaves that it asks for.
#[derive(Drop)]
pub struct Counter;

// What is written for a line that is too long.
fn long_line() -> Text
    ensures { result.bytes ≡ line_answer None }
{
    let mut text = Text::new();
    text.push_str("fault LongLine\n");
    text
}

// What is written for a line.
fn whole_line(line: &[u8]) -> Text
    ensures { result.bytes ≡ line_answer (kept line.now) }
{
    if line.len() > LINE_LIMIT {
        return long_line();
    }
    let mut text = Text::new();
    let said = answer(line);
    if said.is_empty() {
        return text;
    }
    text.push_str(said.as_str());
    text.push_str("\n");
    text
}

impl LineHandler for Counter {
    ghost use Rattle.std.specs.Prelude.{false};
    ghost use Rattle.chess_loop.specs.Runs.{InOne};
    ghost use Rattle.perft.specs.Lines.{AnswersAlone};

    ghost step = { InOne AnswersAlone };

    ghost cut = { InOne AnswersAlone };

    ghost over = { λ counter. false };

    // An answer may be long in coming, so it is written at once.
    fn answer<A: Allocator, W: Sink>(
        &mut self,
        line: &[u8],
        page: &mut OutputBuffer<A>,
        writer: &mut W,
    ) -> Result<(), Failed> {
        page.send(whole_line(line).as_str().as_bytes(), writer)
    }

    // A line that is not kept has more bytes than a line may have, whatever the reason.
    fn refuse<A: Allocator>(&self, _line: Unread, page: &mut OutputBuffer<A>) {
        let text = long_line();
        page.put(text.as_str().as_bytes());
    }

    fn is_over(&self) -> bool {
        false
    }
}

/// Answers the lines of the reader on the writer, each as soon as it is counted, until the input ends. `Memory` where there is none to begin with; then
/// nothing was read or written.
pub fn count_leaves<A: Allocator, R: Source, W: Sink>(
    alloc: &A,
    reader: &mut R,
    writer: &mut W,
) -> RunEnd
    requires reader { R.failed reader.old ≡ false }
    requires writer { W.failed writer.old ≡ false }
    ensures { CountEnds R.Source W.Sink result reader.old reader.new writer.old writer.new }
{
    let mut counter = Counter;
    run(alloc, &mut counter, reader, writer, READS)
}
