//! Answers of a board, which are gathered on a page, and replies of an engine; and how they are written to the caller.
ghost use Rattle.std.specs.Prelude.{◌≡◌, ◌≤◌, ◌+◌, ◌++◌, [], length, MatchResult};
ghost use Rattle.chess_cli.specs.TimedSessions.{reply_lines};
ghost use Rattle.chess_bindings.specs.Answers.{IsLineAnswered, IsReplied};
ghost use Rattle.chess_bindings.specs.Handed.{IsHanded};
ghost use Rattle.chess_bindings.specs.Within.{IsRepliedWithin};

use crate::codes::MEMORY;
use crate::gathered::{Gathered, Nowhere};
use crate::texts::{hand, hand_both};
use arrayvec::{ArrayString, ArrayVec};
use byte_streams::Failed;
use chess_cli::Board;
use chess_loop::OutputBuffer;
use chess_search::Watch;
use chess_uci::{Event, Reply, Session as Uci};
use std::alloc::Allocator;

/// Answers a line of the board, and writes the text: 0, or `ROOM` where it is longer than the room for it; the line has been answered all the same. Or
/// `MEMORY` where there is none to gather the answer to `path` or `pgn` in: all is as before. The page is empty between calls.
pub fn answer<A: Allocator, B: Allocator, C: Allocator>(
    board: &mut Board<'_, A>,
    page: &mut OutputBuffer<B>,
    alloc: C,
    line: &[u8],
    room: &mut [u8],
    count: &mut usize,
) -> u32
    requires { page.old ≡ [] }
    ensures answered { IsLineAnswered board.old line.now result count.old count.new room.old room.new board.new }
    ensures page { page.new ≡ [] }
{
    let mut gathered = Gathered::new(alloc);
    let answered = board.put_whole_answer(line, page, &mut gathered);
    let code = handed(answered, gathered.as_slice(), page.text(), room, count);
    clear(page);
    code
}

/// What an engine replies to an event, each reply on a line of its own, at most 260 bytes in all.
pub fn reply<A: Allocator>(
    engine: &mut Uci<'_, A>,
    event: Event<'_>,
    room: &mut [u8],
    count: &mut usize,
) -> u32
    ensures { IsReplied event.entry engine.old engine.new result count.new room.old room.new }
{
    let replies = engine.event(event);
    hand_replies(&replies, room, count)
}

/// What an engine replies to a slice that a watch may have abandoned, each reply on a line of its own; nothing where it was abandoned. `nodes` says how many
/// positions were asked for, `made` whether it wasn't abandoned.
pub fn reply_within<A: Allocator, W: Watch>(
    engine: &mut Uci<'_, A>,
    watch: &mut W,
    nodes: &mut u64,
    made: &mut bool,
    room: &mut [u8],
    count: &mut usize,
) -> u32
    ensures stays { W.says watch.new ≡ W.says watch.old }
    ensures engine { IsRepliedWithin (W.says watch.old) engine.old engine.new nodes.new made.new result count.new room.old room.new }
{
    match engine.slice_within(watch, nodes) {
        Some(replies) => {
            *made = true;
            hand_replies(&replies, room, count)
        }
        None => {
            *made = false;
            hand(&[], room, count)
        }
    }
}

// Writes the replies, each on a line of its own.
fn hand_replies(replies: &ArrayVec<Reply, 4>, room: &mut [u8], count: &mut usize) -> u32
    ensures { IsHanded (reply_lines replies.now.items) result count.new room.old room.new }
{
    let text = lines_of(replies);
    hand(text.as_str().as_bytes(), room, count)
}

// Each reply on a line of its own.
fn lines_of(replies: &ArrayVec<Reply, 4>) -> ArrayString<260>
    ensures { result.bytes ≡ reply_lines replies.now.items }
{
    let mut text = ArrayString::new();
    for reply in replies.as_slice() {
        text.push_str(reply.write().as_str());
        text.push_str("\n");
    }
    text
}

// The two parts of an answer, where the line was answered.
fn handed(
    answered: Result<(), Failed>,
    first: &[u8],
    second: &[u8],
    room: &mut [u8],
    count: &mut usize,
) -> u32
    ensures { MatchResult answered (λ _. IsHanded (first.now ++ second.now) result count.new room.old room.new) (λ _. (result ≡ 2) × (count.new ≡ count.old) × (room.new ≡ room.old)) }
{
    match answered {
        Ok(()) => hand_both(first, second, room, count),
        Err(_) => MEMORY,
    }
}

// The page is empty again.
fn clear<B: Allocator>(page: &mut OutputBuffer<B>)
    ensures { page.new ≡ [] }
{
    let Ok(()) = page.flush(&mut Nowhere) else {
        unreachable!();
    };
}
