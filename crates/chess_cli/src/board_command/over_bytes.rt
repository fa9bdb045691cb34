//! The command `board` over bytes in memory.

ghost use Rattle.std.specs.Prelude.{◌≡◌, ◌≢◌, ◌≤◌, ◌<◌, ℕ, List, [], ◌++◌, true, false, length, ◌⊎◌};
ghost use Rattle.chess_items.specs.declared.fault.PgnFault.{PgnFault};
ghost use Rattle.chess_tree.specs.GameTree.{TreeParts};
ghost use Rattle.chess_cli.specs.Answers.{Answers, new_tree};
ghost use Rattle.chess_loop.specs.RunEnds.{IsPrefix, most_reads};
ghost use Rattle.chess_loop.specs.InputLines.{lines_of, ended_lines};
ghost use Rattle.chess_loop.specs.Runs.{Runs};

use super::over_streams::board;
use crate::ended::Ended;
use byte_streams::{FromBytes, ToBytes};
use std::alloc::Allocator;

/// `board` over bytes that are lent. At `Good` the bytes taken are the answers to the lines of the bytes that were left; at
/// `ReadFault` the answers to the lines that had ended in the bytes given; at `WriteFault` a prefix of the answers to the first lines of the
/// bytes given.
pub fn board_over_bytes<A: Allocator>(
    alloc: A,
    reader: &mut FromBytes<'_>,
    writer: &mut ToBytes<'_>,
) -> Ended
    requires reader { reader.old.failed ≡ false }
    requires writer { writer.old.failed ≡ false }
    ensures good { result ≡ Ended.Good → (text : List ℕ) × (state : TreeParts)
        × Runs Answers new_tree (lines_of reader.old.left) text state × (writer.new.taken ≡ writer.old.taken ++ text)
        × (reader.new.failed ≡ false) × (writer.new.failed ≡ false) }
    ensures read_fault { result ≡ Ended.ReadFault → (given : List ℕ) × (text : List ℕ) × (state : TreeParts)
        × (reader.old.left ≡ given ++ reader.new.left) × ((reader.new.failed ≡ true) ⊎ (most_reads ≤ length given))
        × Runs Answers new_tree (ended_lines [] given) text state × (writer.new.taken ≡ writer.old.taken ++ text) × (writer.new.failed ≡ false) }
    ensures write_fault { result ≡ Ended.WriteFault → (given : List ℕ) × (lines : List (List ℕ)) × (text : List ℕ) × (prefix : List ℕ) × (rest : List ℕ) × (state : TreeParts)
        × (reader.old.left ≡ given ++ reader.new.left) × IsPrefix lines (lines_of given)
        × Runs Answers new_tree lines text state × (text ≡ prefix ++ rest) × (0 < length rest) × (writer.new.taken ≡ writer.old.taken ++ prefix)
        × (reader.new.failed ≡ false) × (writer.new.failed ≡ true) }
    ensures memory { result ≡ Ended.Memory → (reader.new ≡ reader.old) × (writer.new ≡ writer.old) }
    ensures input { (fault : PgnFault) → result ≢ Ended.Input fault }
{
    board(alloc, reader, writer)
}
