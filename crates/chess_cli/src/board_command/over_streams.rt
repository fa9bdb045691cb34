//! The command `board` over a reader and a writer, until the input ends or a call fails.

ghost use Rattle.std.specs.Prelude.{◌≡◌, false};
ghost use Rattle.chess_cli.specs.Endings.{BoardEnds};
ghost use Rattle.chess_loop.specs.RunEnds.{most_reads};

use super::machine::Board;
use crate::ended::Ended;
use byte_streams::{Sink, Source};
use chess_key::KeyTable;
use chess_loop::run;
use std::alloc::Allocator;

/// The most reads of a run.
pub const READS: u64 = 1 << 40;

/// Answers the lines of the reader, those of one read before more is read, on the writer, until the input ends.
///
/// `Good`: the whole input was read, and the writer took the answers to its lines. `ReadFault`: a read failed, or there were
/// 2^40 reads of some bytes each, and the writer took the answers to the lines that had ended. `WriteFault`: a write failed
/// or took no byte, and the writer took a prefix of the answers. `Memory`: there was no memory to begin with, and nothing was
/// read or written. After a call that fails none is made.
pub fn board<A: Allocator, R: Source, W: Sink>(alloc: A, reader: &mut R, writer: &mut W) -> Ended
    requires reader { R.failed reader.old ≡ false }
    requires writer { W.failed writer.old ≡ false }
    ensures { BoardEnds R.Source W.Sink most_reads result reader.old reader.new writer.old writer.new }
{
    board_with(alloc, reader, writer, &KeyTable::fixed())
}

/// `board` with keys by the table of the caller. No answer depends on it.
pub fn board_with<A: Allocator, R: Source, W: Sink>(
    alloc: A,
    reader: &mut R,
    writer: &mut W,
    table: &KeyTable,
) -> Ended
    requires reader { R.failed reader.old ≡ false }
    requires writer { W.failed writer.old ≡ false }
    ensures { BoardEnds R.Source W.Sink most_reads result reader.old reader.new writer.old writer.new }
{
    board_within(alloc, reader, writer, table, READS)
}

/// `board_with`, with at most `reads` reads instead of 2^40: for a caller who wants to come back to other work.
pub fn board_within<A: Allocator, R: Source, W: Sink>(
    alloc: A,
    reader: &mut R,
    writer: &mut W,
    table: &KeyTable,
    reads: u64,
) -> Ended
    requires reader { R.failed reader.old ≡ false }
    requires writer { W.failed writer.old ≡ false }
    ensures { BoardEnds R.Source W.Sink reads result reader.old reader.new writer.old writer.new }
{
    let Ok(mut board) = Board::new(&alloc, table) else {
        return Ended::Memory;
    };
    Ended::from(run(&alloc, &mut board, reader, writer, reads))
}
