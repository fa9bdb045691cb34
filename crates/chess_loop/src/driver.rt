//! The loop over reads, lines and writes, for any handler: lines in, answers out.
//!
//! The answers to the lines of one read are written before the next, with as few calls as fit a page.
ghost use Rattle.std.specs.Prelude.{◌≡◌, ◌+◌, ◌≤◌, List, ℕ, [], ◌<◌, false, length, OnOk};
ghost use Rattle.chess_loop.specs.steps.Reads.{AnswersHeld, Feeds, Finishes, Holds};
ghost use Rattle.chess_loop.specs.RunEnds.{LoopEnds, in_parts};

use super::buffers::filled;
use super::handler::LineHandler;
use super::line_buffer::LineBuffer;
use super::output_buffer::OutputBuffer;
use byte_streams::{Failed, Sink, Source};
use memchr::memchr;
use std::alloc::Allocator;

/// The most bytes of a read.
const PIECE: usize = 65_536;

/// How a run ended.
#[derive(Clone, Copy, Debug, PartialEq, Eq)]
pub enum RunEnd {
    /// The whole input was read, or the handler takes no more lines, and all was written.
    Good,
    /// A read failed, or there were as many as there may be.
    ReadFault,
    /// A write failed or took no byte.
    WriteFault,
    /// There was no memory to begin with.
    Memory,
}

// Answers the line, whether it is kept or not.
fn answer_line<E: LineHandler, A: Allocator, W: Sink>(
    line: &LineBuffer<A>,
    engine: &mut E,
    page: &mut OutputBuffer<A>,
    writer: &mut W,
) -> Result<(), Failed>
    requires awake { E.over engine.old ≡ false }
    requires room { length page.old + 2600 ≤ 65536 }
    ensures { AnswersHeld E.step E.cut W.takes W.failed line.now engine.old engine.new page.old writer.old page.new writer.new result }
{
    match line.reading() {
        Ok(bytes) => engine.answer(bytes, page, writer),
        Err(unread) => {
            engine.refuse(unread, page);
            Ok(())
        }
    }
}

// Answers the lines that end in the piece, up to one after which the handler takes no more, keeps the rest of the piece, and writes the answers.
fn feed<E: LineHandler, A: Allocator, W: Sink>(
    engine: &mut E,
    line: &mut LineBuffer<A>,
    piece: &[u8],
    page: &mut OutputBuffer<A>,
    writer: &mut W,
) -> Result<(), Failed>
    requires awake { E.over engine.old ≡ false }
    requires empty { page.old ≡ [] }
    ensures fed { (begun : List ℕ) → Holds line.old begun →
        Feeds E.step E.cut W.takes W.failed E.over begun piece.now engine.old engine.new line.new writer.old [] writer.new result }
    ensures empty { OnOk result (page.new ≡ []) }
{
    let mut rest = piece;
    while let Some(at) = memchr(b'\n', rest) {
        let (prefix, others) = rest.split_at(at);
        line.add(prefix);
        if let Err(failed) = page.make_room(writer) {
            return Err(failed);
        }
        if let Err(failed) = answer_line(line, engine, page, writer) {
            return Err(failed);
        }
        line.restart();
        if engine.is_over() {
            return page.flush(writer);
        }
        rest = &others[1..];
    }
    line.add(rest);
    page.flush(writer)
}

// Answers what comes after the last line feed, and writes the answer.
fn finish<E: LineHandler, A: Allocator, W: Sink>(
    engine: &mut E,
    line: &LineBuffer<A>,
    page: &mut OutputBuffer<A>,
    writer: &mut W,
) -> Result<(), Failed>
    requires awake { E.over engine.old ≡ false }
    requires empty { page.old ≡ [] }
    ensures { (bytes : List ℕ) → Holds line.now bytes →
        Finishes E.step E.cut W.takes W.failed bytes engine.old engine.new writer.old writer.new result }
{
    if line.is_empty() {
        return Ok(());
    }
    let Err(failed) = answer_line(line, engine, page, writer) else {
        return page.flush(writer);
    };
    Err(failed)
}

// Reads and answers to the end.
fn answer_all<E: LineHandler, A: Allocator, R: Source, W: Sink>(
    engine: &mut E,
    line: &mut LineBuffer<A>,
    page: &mut OutputBuffer<A>,
    reader: &mut R,
    buffer: &mut [u8],
    writer: &mut W,
    most: u64,
) -> RunEnd
    requires awake { E.over engine.old ≡ false }
    requires line { Holds line.old [] }
    requires empty { page.old ≡ [] }
    requires reader { R.failed reader.old ≡ false }
    requires buffer { 0 < length buffer.old }
    requires writer { W.failed writer.old ≡ false }
    ensures { LoopEnds (in_parts E.step E.cut E.over engine.old) R.Source W.Sink most result engine.new reader.old reader.new writer.old writer.new }
{
    for _turn in 0..most {
        match reader.read(buffer) {
            Err(_) => return RunEnd::ReadFault,
            Ok(0) => {
                if let Err(_) = finish(engine, line, page, writer) {
                    return RunEnd::WriteFault;
                }
                return RunEnd::Good;
            }
            Ok(count) => {
                if let Err(_) = feed(engine, line, &buffer[..count], page, writer) {
                    return RunEnd::WriteFault;
                }
                if engine.is_over() {
                    return RunEnd::Good;
                }
            }
        }
    }
    RunEnd::ReadFault
}

/// Lets the handler answer the lines of the reader on the writer, until the input ends or the handler takes no more lines, with at most
/// `most` reads. `Memory` where there is none to begin with: then nothing was read or written.
pub fn run<E: LineHandler, A: Allocator, R: Source, W: Sink>(
    alloc: &A,
    engine: &mut E,
    reader: &mut R,
    writer: &mut W,
    most: u64,
) -> RunEnd
    requires awake { E.over engine.old ≡ false }
    requires reader { R.failed reader.old ≡ false }
    requires writer { W.failed writer.old ≡ false }
    ensures { LoopEnds (in_parts E.step E.cut E.over engine.old) R.Source W.Sink most result engine.new reader.old reader.new writer.old writer.new }
{
    let (Ok(mut buffer), Ok(mut line), Ok(mut page)) = (
        filled(alloc, 0u8, PIECE),
        LineBuffer::new(alloc),
        OutputBuffer::new(alloc),
    ) else {
        return RunEnd::Memory;
    };
    answer_all(
        engine,
        &mut line,
        &mut page,
        reader,
        buffer.as_mut_slice(),
        writer,
        most,
    )
}
