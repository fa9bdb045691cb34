//! Tests of sessions by tables of events and replies: searches, clocks, `go` lines, and want of memory.

use chess_key::KeyTable;
use chess_search::AtMost;
use chess_types::Move;
use chess_uci::{Event, Reply, Session, session_laws};
use linked_list_allocator::LocalHeap;
use std::alloc::{AllocError, Allocator, Global};
use std::process::Abort;
use std::test::Fail;

/// What is seen of a session.
#[derive(Clone, Copy)]
enum Look {
    Ended,
    Searching(bool),
    Infinite(bool),
    Waiting(bool),
    DepthDone(u8),
    /// The best so far, with its value.
    SoFar(Option<(&'static [u8], i32)>),
}

/// A row of a table: what happens, and the lines that are replied.
#[derive(Clone, Copy)]
enum Row {
    Line(&'static [u8], &'static [&'static [u8]]),
    Moment(u64, &'static [&'static [u8]]),
    /// Of the given number of slices the last alone is replied anything.
    Slices(u32, &'static [&'static [u8]]),
    /// The given number of slices, whatever is replied.
    Unheard(u32),
    /// It is so then.
    Shows(Look),
}

use Look::{DepthDone, Ended, Infinite, Searching, SoFar, Waiting};
use Row::{Line, Moment, Shows, Slices, Unheard};

/// Whether the event is replied these lines.
fn is_replied<A: Allocator>(session: &mut Session<'_, A>, event: Event, want: &[&[u8]]) -> bool {
    let replies = session.event(event);
    for (reply, line) in replies.as_slice().iter().zip(want.iter()) {
        if reply.write().as_bytes() != *line {
            return false;
        }
    }
    replies.len() == want.len()
}

/// Whether of `number` slices the last alone is replied anything, and it these lines.
fn last_is_replied<A: Allocator>(
    session: &mut Session<'_, A>,
    number: u32,
    want: &[&[u8]],
) -> bool {
    for _ in 1..number {
        if !is_replied(session, Event::Slice, &[]) {
            return false;
        }
    }
    is_replied(session, Event::Slice, want)
}

/// `number` slices, whatever is replied.
fn unheard<A: Allocator>(session: &mut Session<'_, A>, number: u32) {
    for _ in 0..number {
        session.event(Event::Slice);
    }
}

/// The move of a text, with a value.
fn valued(rt: &impl Abort, best: Option<(&[u8], i32)>) -> Option<(Move, i32)> {
    match best {
        Some((text, value)) => Some((Move::parse(text).expect(rt, "the text of a move"), value)),
        None => None,
    }
}

/// Whether it is so.
fn is_seen<A: Allocator>(rt: &impl Abort, session: &Session<'_, A>, look: Look) -> bool {
    match look {
        Ended => session.ended(),
        Searching(searching) => session.searching() == searching,
        Infinite(infinite) => session.infinite() == infinite,
        Waiting(waiting) => session.waiting() == waiting,
        DepthDone(depth) => session.depth_done() == depth,
        SoFar(best) => session.so_far() == valued(rt, best),
    }
}

/// Whether the row is right.
fn holds<A: Allocator>(rt: &impl Abort, session: &mut Session<'_, A>, row: Row) -> bool {
    match row {
        Line(line, want) => is_replied(session, Event::Line(line), want),
        Moment(moment, want) => is_replied(session, Event::Moment(moment), want),
        Slices(number, want) => last_is_replied(session, number, want),
        Unheard(number) => {
            unheard(session, number);
            true
        }
        Shows(look) => is_seen(rt, session, look),
    }
}

/// The first row of a table that isn't right, if any.
fn wrong_row<A: Allocator>(
    rt: &impl Abort,
    session: &mut Session<'_, A>,
    rows: &[Row],
) -> Option<usize> {
    for (index, row) in rows.iter().enumerate() {
        if !holds(rt, session, *row) {
            return Some(index);
        }
    }
    None
}

/// Goes by a table.
fn run<A: Allocator>(rt: &impl Abort, session: &mut Session<'_, A>, rows: &[Row]) {
    assert_eq!(rt; wrong_row(rt, session, rows), None);
}

/// Goes by a table of that name in a new session.
fn run_named<A: Allocator>(rt: &impl Abort, alloc: &A, name: &str, rows: &[Row]) {
    let table = KeyTable::new([1; 768]);
    let mut session = Session::new(alloc, &table);
    assert_eq!(rt; wrong_row(rt, &mut session, rows), None, "{name}");
}

const IN_A_SEARCH: &[Row] = &[
    Line(b"go depth 2", &[]),
    Slices(1, &[]),
    Line(b"isready", &[b"readyok"]),
    Slices(1, &[]),
    Line(b"stop", &[b"bestmove b1a3"]),
    Line(b"stop", &[]),
    Line(b"go depth 1", &[]),
    Slices(20, &[b"info depth 1 score cp 18 pv b1c3", b"bestmove b1c3"]),
    Line(b"go depth 1 searchmoves e2e4 b1a3", &[]),
    Line(b"stop", &[b"bestmove b1a3"]),
];

const INTRODUCED: &[Row] = &[
    Line(
        b"uci\r",
        &[
            b"id name chess_uci 1",
            b"id author chess_uci project",
            b"option name Claims type check default false",
            b"uciok",
        ],
    ),
    Line(b"joho isready", &[b"readyok"]),
    Line(b"isready x uci", &[b"readyok"]),
    Line(b"UCI", &[]),
    Line(b"", &[]),
    Line(b"debug on", &[]),
    Line(b"quit", &[]),
    Shows(Ended),
    Line(b"uci", &[]),
];

const A_TIME_FOR_THE_MOVE: &[Row] = &[
    Moment(1000, &[]),
    Line(b"go movetime 100", &[]),
    Slices(1, &[]),
    Moment(1099, &[]),
    Moment(1100, &[b"bestmove b1a3"]),
];

const A_CLOCK: &[Row] = &[
    Line(b"go wtime 60000 btime 60000 winc 1000 binc 1000", &[]),
    Slices(1, &[]),
    Moment(3499, &[]),
    Moment(12, &[]),
    Moment(3500, &[b"bestmove b1a3"]),
    Moment(u64::MAX, &[]),
    Line(b"go depth 1 movetime 1", &[]),
    Moment(u64::MAX, &[]),
    Slices(20, &[b"info depth 1 score cp 18 pv b1c3", b"bestmove b1c3"]),
];

const MATED: &[u8] = b"position fen rnb1kbnr/pppp1ppp/8/4p3/6Pq/5P2/PPPPP2P/RNBQKBNR w KQkq - 1 3";

const REFUSED: &[&[u8]] = &[b"info string position refused"];

const BUSY: &[&[u8]] = &[b"info string busy"];

const LINES: &[Row] = &[
    Line(b"position startpos moves e2e5", REFUSED),
    Line(b"position", REFUSED),
    Line(b"position startpos e2e4", REFUSED),
    Line(b"position startpos moves e2e4 e4", REFUSED),
    Line(b"position startpos moves e2e4 moves e7e5", REFUSED),
    Line(b"position moves e2e4", REFUSED),
    Line(b"position fen", REFUSED),
    Line(b"position fen 8/8/8/8/8/8/8/8 w - - 0 1 moves", REFUSED),
    Line(
        b"position fen rnbqkbnr/pppppppp/8/8/8/8/PPPPPPPP/RNBQKBNR w KQkq - 0 1 e2e4",
        REFUSED,
    ),
    Line(b"go", &[]),
    Line(b"go", BUSY),
    Line(MATED, BUSY),
    Line(b"ucinewgame", BUSY),
    Line(b"stop", &[b"bestmove b1a3"]),
    Line(b"position startpos moves", &[]),
    Line(MATED, &[]),
    Line(b"go depth 3", &[b"bestmove 0000"]),
    Line(
        b"position\tfen rnbqkbnr/pppppppp/8/8/8/8/PPPPPPPP/RNBQKBNR \t w KQkq -  moves e2e4\x0be7e5 e1e2",
        &[],
    ),
    Line(b"go searchmoves a1a1 g8e7", &[]),
    Line(b"stop", &[b"bestmove g8e7"]),
];

const SO_FAR: &[Row] = &[
    Line(b"go depth 2", &[]),
    Shows(SoFar(None)),
    Slices(1, &[]),
    Shows(SoFar(Some((b"b1a3", 6)))),
    Slices(1, &[]),
    Shows(SoFar(Some((b"b1c3", 18)))),
    Shows(DepthDone(0)),
    Slices(18, &[b"info depth 1 score cp 18 pv b1c3"]),
    Shows(SoFar(None)),
    Shows(DepthDone(1)),
    Slices(1, &[]),
    Shows(SoFar(Some((b"b1a3", -12)))),
    Slices(19, &[b"info depth 2 score cp 0 pv b1c3", b"bestmove b1c3"]),
    Shows(Searching(false)),
    Shows(DepthDone(0)),
    Shows(SoFar(None)),
];

const STOPPED: &[Row] = &[
    Line(b"go infinite depth 1", &[]),
    Shows(Infinite(true)),
    Shows(Waiting(false)),
    Slices(20, &[b"info depth 1 score cp 18 pv b1c3"]),
    Shows(Waiting(true)),
    Slices(3, &[]),
    Line(b"stop", &[b"bestmove b1c3"]),
    Line(MATED, &[]),
    Line(b"go infinite", &[]),
    Shows(Waiting(true)),
    Slices(3, &[]),
    Line(b"stop", &[b"bestmove 0000"]),
];

const ROOK: &[u8] = b"position fen 4k3/8/8/8/8/8/8/R3K3 w - - 99 60";

const WITH_CLAIMS: &[Row] = &[
    Line(ROOK, &[]),
    Line(b"go depth 1", &[]),
    Line(b"setoption name Claims value true", BUSY),
    Slices(
        15,
        &[b"info depth 1 score cp 510 pv a1a7", b"bestmove a1a7"],
    ),
    Line(b"setoption name Claims value true", &[]),
    Line(b"ucinewgame", &[]),
    Line(b"setoption name Claims value false x", &[]),
    Line(ROOK, &[]),
    Line(b"go depth 1", &[]),
    Slices(15, &[b"info depth 1 score cp 0 pv a1b1", b"bestmove a1b1"]),
    Line(b"setoption NAME claims Value FALSE", &[]),
    Line(b"go depth 1", &[]),
    Slices(
        15,
        &[b"info depth 1 score cp 510 pv a1a7", b"bestmove a1a7"],
    ),
];

/// Tables by which a new session goes.
const TABLES: [(&str, &[Row]); 8] = [
    ("answers in a search", IN_A_SEARCH),
    ("is introduced", INTRODUCED),
    ("keeps the time for a move", A_TIME_FOR_THE_MOVE),
    ("shares the time of a clock", A_CLOCK),
    ("refuses lines", LINES),
    ("shows the best so far", SO_FAR),
    ("waits for stop", STOPPED),
    ("has the option Claims", WITH_CLAIMS),
];

#[test]
fn goes_by_the_tables(rt: HostRuntime) {
    for (name, rows) in TABLES {
        run_named(&rt, &rt.alloc(), name, rows);
    }
}

/// A slice within `most` positions: how many lines it was replied, or that it was abandoned; and how many positions it asked for.
fn within<A: Allocator>(session: &mut Session<'_, A>, most: u64) -> (Option<usize>, u64) {
    let mut nodes = 7;
    let made = match session.slice_within(&mut AtMost { nodes: most }, &mut nodes) {
        Some(replies) => Some(replies.len()),
        None => None,
    };
    (made, nodes)
}

const FIRST_SEARCHED: &[Row] = &[
    Shows(SoFar(Some((b"b1a3", 6)))),
    Slices(19, &[b"info depth 1 score cp 18 pv b1c3"]),
];

const SECOND_ABANDONED: &[Row] = &[
    Shows(SoFar(None)),
    Shows(DepthDone(1)),
    Slices(20, &[b"info depth 2 score cp 0 pv b1c3", b"bestmove b1c3"]),
];

/// At depth 1 each root asks for one position, at depth 2 for more.
#[test]
fn abandons_slices(rt: HostRuntime) {
    let alloc = rt.alloc();
    let table = KeyTable::new([1; 768]);
    let mut session = Session::new(&alloc, &table);
    assert!(rt; within(&mut session, 0) == (Some(0), 0));
    run(&rt, &mut session, &[Line(b"go depth 2", &[])]);
    assert!(rt; within(&mut session, 0) == (None, 1));
    run(&rt, &mut session, &[Shows(SoFar(None))]);
    assert!(rt; within(&mut session, 1) == (Some(0), 1));
    run(&rt, &mut session, FIRST_SEARCHED);
    assert!(rt; within(&mut session, 4) == (None, 5));
    run(&rt, &mut session, SECOND_ABANDONED);
    run(
        &rt,
        &mut session,
        &[Line(b"go depth 1", &[]), Line(b"quit", &[])],
    );
    assert!(rt; within(&mut session, 0) == (Some(0), 0));
}

const GAME: &[u8] =
    b"position fen rnbqkbnr/pppppppp/8/8/8/8/PPPPPPPP/RNBQKBNR w KQkq - 0 1 moves g1f3 g8f6 f3g1 f6g8 g1f3 g8f6 f3g1 f6g8 g1f3 g8f6 f3g1 f6g8";

const BEST: &[Row] = &[Line(b"go depth 1", &[b"bestmove 0000"])];

const GOES: &[Row] = &[Line(b"go depth 1", &[])];

/// The game is refused for want of memory.
fn is_game_refused<A: Allocator>(session: &mut Session<'_, A>) -> bool {
    session.event(Event::Line(GAME)).as_slice() == [Reply::OutOfMemory].as_slice()
}

const AGAIN: &[Row] = &[
    Line(GAME, &[]),
    Line(b"go depth 1", &[]),
    Line(b"stop", &[b"bestmove b1a3"]),
];

/// The game is set while `free` bytes of the heap are free: whether a growth was refused. Then it is set as usual, once they are free again.
fn is_starved_at(
    rt: &impl Abort,
    heap: &LocalHeap,
    session: &mut Session<'_, LocalHeap>,
    free: usize,
) -> Result<bool, AllocError> {
    let taken = 20_400usize.saturating_sub(heap.used()).saturating_sub(free);
    let hog: Vec<u8, _> = Vec::with_capacity(heap, taken)?;
    let starved = is_game_refused(session);
    run(rt, session, if starved { BEST } else { GOES });
    drop(hog);
    if starved {
        run(rt, session, AGAIN);
    }
    Ok(starved)
}

const MATE: &[Row] = &[Line(MATED, &[])];

/// A position is set while `free` bytes of the heap are free: whether a growth was refused. Then the mated position is still there.
fn is_starved(
    rt: &impl Abort,
    heap: &LocalHeap,
    table: &KeyTable,
    free: usize,
) -> Result<bool, AllocError> {
    let mut session = Session::new(heap, table);
    run(rt, &mut session, MATE);
    is_starved_at(rt, heap, &mut session, free)
}

/// The same on a heap of which nothing is taken afterwards.
fn is_starved_with(rt: &impl Abort, alloc: Global, free: usize) -> Result<bool, AllocError> {
    let heap = LocalHeap::new(alloc, 20_480)?;
    let starved = is_starved(rt, &heap, &KeyTable::new([1; 768]), free)?;
    assert!(rt; heap.used() == 0);
    Ok(starved)
}

#[test]
fn keeps_its_line_without_memory(rt: HostRuntime) -> Result<(), Fail> {
    let mut refused = 0u32;
    for free in 1..100usize {
        if is_starved_with(&rt, rt.alloc(), free * 8)? {
            refused = refused.saturating_add(1);
        }
    }
    assert!(rt; refused > 10 && refused < 90);
    Ok(())
}

const E2E4: &[&[u8]] = &[b"info depth 1 score cp 8 pv e2e4", b"bestmove e2e4"];

const AFTER_E4: &[Row] = &[
    Line(b"position startpos moves e2e4", &[]),
    Line(b"go depth 1", &[]),
    Slices(20, &[b"info depth 1 score cp 10 pv b8c6", b"bestmove b8c6"]),
];

/// `go` lines for which one slice is enough, which finds e2e4.
const ASKED_FOR: [&'static [u8]; 7] = [
    b"go depth 1 searchmoves e2e4",
    b"go depth -4 searchmoves e2e4",
    b"go depth x depth 1 searchmoves e2e4",
    b"go depth 7 depth 1 searchmoves d2d4 searchmoves e2e4",
    b"go searchmoves e2e4 depth 1 d2d4",
    b"go depth 1 searchmoves e2e4 ponder d2d4",
    b"go x depth 1 nodes 5 movestogo 3 mate 2 searchmoves e2e4",
];

#[test]
fn reads_what_go_asks_for(rt: HostRuntime) {
    run_named(&rt, &rt.alloc(), "after e4", AFTER_E4);
    let alloc = rt.alloc();
    let table = KeyTable::new([1; 768]);
    let mut session = Session::new(&alloc, &table);
    for text in ASKED_FOR {
        run(&rt, &mut session, &[Line(text, &[]), Slices(1, E2E4)]);
    }
}

/// A `go` line at moment 0 of a new session ends at this moment, and not before.
fn ends_at<A: Allocator>(rt: &impl Abort, alloc: &A, text: &'static [u8], end: u64) {
    let rows = [
        Line(text, &[]),
        Slices(1, &[]),
        Moment(end.saturating_sub(1), &[]),
        Shows(Searching(true)),
        Shows(Infinite(false)),
        Moment(end, &[b"bestmove b1a3"]),
    ];
    run_named(rt, alloc, "ends at the time", &rows);
}

const ENDS: [(&'static [u8], u64); 7] = [
    (b"go wtime 40", 1),
    (b"go wtime -40 winc 100", 1),
    (b"go movetime 99999999999 wtime 5", 1_000_000_000),
    (b"go movetime 7 movetime 9", 9),
    (b"go wtime 60000 btime 5", 3000),
    (b"go winc 8 wtime 100 btime 60000", 9),
    (b"go wtime 60 winc 1000", 10),
];

const BLACK_CLOCK: &[Row] = &[
    Line(b"position startpos moves e2e4", &[]),
    Line(b"go wtime 1 btime 60000 winc 4 binc 1000", &[]),
    Slices(1, &[]),
    Moment(3499, &[]),
    Shows(Searching(true)),
    Shows(Infinite(false)),
    Moment(3500, &[b"bestmove a7a5"]),
    Line(b"go infinite movetime 1 wtime 1", &[]),
    Moment(9000, &[]),
    Line(b"stop", &[b"bestmove a7a5"]),
];

#[test]
fn shares_the_time(rt: HostRuntime) {
    for (text, end) in ENDS {
        ends_at(&rt, &rt.alloc(), text, end);
    }
    run_named(&rt, &rt.alloc(), "the clock of Black", BLACK_CLOCK);
}

const KINGS: &[Row] = &[Line(b"position fen 7k/8/8/8/8/8/8/K7 w - - 140 90", &[])];

/// `go` lines, and whether they search on after four plies.
const FOUR_DEEP: [(&'static [u8], bool); 2] = [(b"go", false), (b"go wtime 900", true)];

#[test]
fn goes_four_plies_deep_or_as_time_allows(rt: HostRuntime) {
    session_laws();
    let alloc = rt.alloc();
    let table = KeyTable::new([1; 768]);
    let mut session = Session::new(&alloc, &table);
    run(&rt, &mut session, KINGS);
    for (text, searching) in FOUR_DEEP {
        let rows = [
            Line(text, &[]),
            Unheard(11),
            Shows(Searching(true)),
            Shows(DepthDone(3)),
            Unheard(1),
            Shows(Searching(searching)),
        ];
        run(&rt, &mut session, &rows);
    }
}

/// Appends the text `times` times.
fn put_times<A: Allocator>(
    out: &mut Vec<u8, A>,
    text: &[u8],
    times: u32,
) -> Result<(), AllocError> {
    for _ in 0..times {
        out.extend_from_slice(text)?;
    }
    Ok(())
}

const LONGEST_KEPT: &[Row] = &[
    Line(b"go depth 1", &[]),
    Slices(20, &[b"info depth 1 score cp 8 pv a2a4", b"bestmove a2a4"]),
];

/// A `position` line has 20,000 plies at most; one more is refused, and the line is kept, in which only a pawn's move is no draw.
#[test]
fn places_twenty_thousand_plies(rt: HostRuntime) -> Result<(), Fail> {
    let alloc = rt.alloc();
    let table = KeyTable::new([1; 768]);
    let mut session = Session::new(&alloc, &table);
    let mut text = Vec::new(&alloc);
    text.extend_from_slice(b"position startpos moves")?;
    put_times(&mut text, b" g1f3 g8f6 f3g1 f6g8", 5_000)?;
    assert!(rt; is_replied(&mut session, Event::Line(text.as_slice()), &[]));
    text.extend_from_slice(b" g1f3")?;
    assert!(rt; is_replied(&mut session, Event::Line(text.as_slice()), REFUSED));
    run(&rt, &mut session, LONGEST_KEPT);
    Ok(())
}
