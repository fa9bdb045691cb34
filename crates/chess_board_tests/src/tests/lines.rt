//! Tests of lines of moves: repetition, status and claims, their limits, and want of memory.

ghost use Rattle.std.specs.Prelude.{◌≡◌, ◌+◌, ◌<◌};

use chess_attack::{Follower, Nothing};
use chess_draws::{Claims, Line, LineFault, LineWith, Status};
use chess_fen::read;
use chess_key::KeyTable;
use chess_play::Followers;
use chess_types::{Move, Placement, Position};
use linked_list_allocator::LocalHeap;
use std::alloc::Allocator;
use std::process::Abort;
use std::test::Fail;

/// The move of a text.
fn named(rt: &impl Abort, text: &[u8]) -> Move {
    Move::parse(text).expect(rt, "the text of a move")
}

/// What is kept as a game begins is that of its position.
#[test]
fn begins_as_any_line(rt: HostRuntime) {
    let table = KeyTable::new([1; 768]);
    let kept = Followers::start(&table);
    let found = Followers::of(&Placement::start(), &table);
    assert!(rt; kept.key == found.key && kept.sum.white() == 0 && found.sum.white() == 0);
    assert!(rt; Placement::start() == Position::start().setup().placement);
}

/// The line of a game that begins.
fn begin<'k, A: Allocator>(rt: &impl Abort, alloc: A, table: &'k KeyTable) -> Line<'k, A>
    ensures none { result.looked ≡ 0 }
{
    let start = Position::start();
    assert!(rt; start.setup().clock == 0 && start.setup().number == 1);
    Line::start(alloc, start, table)
}

/// The line that begins in the position of the FEN.
fn begin_at<'k, A: Allocator>(
    rt: &impl Abort,
    alloc: A,
    fen: &[u8],
    table: &'k KeyTable,
) -> Line<'k, A>
    ensures none { result.looked ≡ 0 }
{
    Line::start(alloc, read(fen).expect(rt, "a FEN"), table)
}

/// Pushes the move of a text.
fn push<F: Follower, A: Allocator>(
    rt: &impl Abort,
    line: &mut LineWith<F, A>,
    text: &[u8],
) -> Result<(), LineFault>
    requires none { line.old.looked ≡ 0 }
    ensures none { line.new.looked ≡ 0 }
{
    line.push(named(rt, text))
}

/// Pushes the moves.
fn push_all<F: Follower, A: Allocator>(rt: &impl Abort, line: &mut LineWith<F, A>, texts: &[&[u8]])
    requires none { line.old.looked ≡ 0 }
    ensures none { line.new.looked ≡ 0 }
{
    for text in texts {
        assert!(rt; push(rt, line, text).is_ok());
    }
}

/// A call on a line, with its answer.
#[derive(Clone, Copy)]
enum Row {
    Push(&'static [u8], Result<(), LineFault>),
    Prepare(&'static [u8], Result<(), LineFault>),
    Pop(Option<&'static [u8]>),
    /// The last move made as many ticks as a move may make.
    Ticks,
    Plies(u32),
    /// How many legal moves there are.
    Moves(usize),
    Count(u32),
    /// The least and the most plies that the last count may have compared.
    Compared(u32, u32),
    Status(Status),
    Claims(Claims),
    ClaimsWith(&'static [u8], Option<Claims>),
    /// The side to move is that of the first position.
    SideOfRoot,
}

/// The move of a text.
fn named_or_none(rt: &impl Abort, text: Option<&[u8]>) -> Option<Move> {
    match text {
        Some(text) => Some(named(rt, text)),
        None => None,
    }
}

/// Whether the call is answered so.
fn is_answered<A: Allocator>(rt: &impl Abort, line: &mut Line<A>, row: Row) -> bool
    requires none { line.old.looked ≡ 0 }
    ensures none { line.new.looked ≡ 0 }
{
    match row {
        Row::Push(text, answer) => push(rt, line, text) == answer,
        Row::Prepare(text, answer) => line.prepare(named(rt, text)) == answer,
        Row::Pop(text) => line.pop() == named_or_none(rt, text),
        Row::Ticks => (1..=216).contains(&line.live().last_ticks()),
        Row::Plies(plies) => line.plies() == plies,
        Row::Moves(count) => line.moves().len() == count,
        Row::Count(count) => line.count() == count,
        Row::Compared(least, most) => (least..=most).contains(&line.compared()),
        Row::Status(status) => line.status() == status,
        Row::Claims(claims) => line.claims() == claims,
        Row::ClaimsWith(text, claims) => line.claims_with(named(rt, text)) == claims,
        Row::SideOfRoot => line.position().setup().side == line.root().setup().side,
    }
}

/// Goes by a table.
fn run<A: Allocator>(rt: &impl Abort, line: &mut Line<A>, rows: &[Row])
    requires none { line.old.looked ≡ 0 }
    ensures none { line.new.looked ≡ 0 }
{
    for (index, row) in rows.iter().enumerate() {
        assert!(rt; is_answered(rt, line, *row), "row {index}");
    }
}

/// Both knights out and back.
const ROUND: [&[u8]; 4] = [b"g1f3", b"g8f6", b"f3g1", b"f6g8"];

const ADDED: &[Row] = &[
    Row::Push(b"e2e4", Ok(())),
    Row::Ticks,
    Row::Push(b"e7e5", Ok(())),
    Row::Push(b"e4e5", Err(LineFault::Illegal)),
    Row::Plies(2),
    Row::Moves(29),
    Row::Pop(Some(b"e7e5")),
    Row::Pop(Some(b"e2e4")),
    Row::Pop(None),
    Row::SideOfRoot,
];

#[test]
fn adds_legal_moves(rt: HostRuntime) -> Result<(), Fail> {
    let table = KeyTable::new([1; 768]);
    let mut line = begin(&rt, rt.alloc(), &table);
    line.reserve(2)?;
    run(&rt, &mut line, ADDED);
    Ok(())
}

const NONE: Claims = Claims {
    threefold: false,
    fifty: false,
};

const THREEFOLD: Claims = Claims {
    threefold: true,
    fifty: false,
};

const COUNTED: &[Row] = &[
    Row::Push(b"e2e4", Ok(())),
    Row::Push(b"g8f6", Ok(())),
    Row::Push(b"g1f3", Ok(())),
    Row::Push(b"f6g8", Ok(())),
    Row::Push(b"f3g1", Ok(())),
    Row::Count(2),
    Row::Status(Status::Play),
    Row::Push(b"g8f6", Ok(())),
    Row::Push(b"g1f3", Ok(())),
    Row::Push(b"f6g8", Ok(())),
    Row::Claims(NONE),
    Row::ClaimsWith(b"f3g1", Some(THREEFOLD)),
    Row::ClaimsWith(b"f3f6", None),
    Row::Push(b"f3g1", Ok(())),
    Row::Claims(THREEFOLD),
];

#[test]
fn counts_by_positions_and_not_by_keys(rt: HostRuntime) {
    let table = KeyTable::new([0; 768]);
    let mut line = begin(&rt, rt.alloc(), &table);
    run(&rt, &mut line, COUNTED);
}

const COPIED: &[Row] = &[
    Row::Plies(9),
    Row::Count(3),
    Row::Claims(THREEFOLD),
    Row::Pop(Some(b"f3g1")),
    Row::Push(b"f3e5", Ok(())),
    Row::Count(1),
];

/// A copy has the moves, and what is done to it leaves the line as it was.
#[test]
fn copies_a_line(rt: HostRuntime) -> Result<(), Fail> {
    let table = KeyTable::new([1; 768]);
    let mut line = begin(&rt, rt.alloc(), &table);
    run(&rt, &mut line, COUNTED);
    let mut copy = line.copied(rt.alloc())?;
    run(&rt, &mut copy, COPIED);
    run(&rt, &mut line, COPIED);
    Ok(())
}

/// The ticks of the advance of the pawn on d2, in the position of the FEN.
fn ticks_of_advance<A: Allocator>(rt: &impl Abort, alloc: A, fen: &[u8]) -> u32 {
    let table = KeyTable::new([1; 768]);
    let mut line = begin_at(rt, alloc, fen, &table);
    push_all(rt, &mut line, &[b"d2d4"]);
    line.live().last_ticks()
}

#[test]
fn captures_that_are_tried_leave_no_ticks(rt: HostRuntime) {
    let beside = ticks_of_advance(&rt, rt.alloc(), b"4k3/8/8/8/4p3/8/3P4/4R1K1 w - - 0 1");
    let elsewhere = ticks_of_advance(&rt, rt.alloc(), b"4k3/8/8/8/8/4p3/3P4/4R1K1 w - - 0 1");
    // The advance changes as many counts with the black pawn beside the new square as with it elsewhere off the lines.
    assert!(rt; beside == elsewhere);
}

const ENDED: &[Row] = &[
    Row::Plies(20_000),
    Row::Push(b"g1f3", Err(LineFault::TooLong)),
    Row::Push(b"e2e5", Err(LineFault::Illegal)),
    Row::Count(5001),
    Row::Status(Status::Fivefold),
];

#[test]
fn ends_at_twenty_thousand_plies(rt: HostRuntime) {
    let table = KeyTable::new([1; 768]);
    let mut line = begin(&rt, rt.alloc(), &table);
    for _round in 0..5000u32 {
        push_all(&rt, &mut line, &ROUND);
    }
    run(&rt, &mut line, ENDED);
    assert!(rt; LineFault::TooLong.number() == 2);
}

/// Looks at the move of a text, which is its text, at how often the position has then come, and at how many plies were compared.
fn look_at<A: Allocator>(
    rt: &impl Abort,
    line: &mut Line<A>,
    text: &[u8],
    count: u32,
    compared: u32,
)
    requires few { line.old.looked < 16 }
    ensures looked { line.new.looked ≡ line.old.looked + 1 }
{
    let m = line.read_move(text).expect(rt, "a legal move");
    assert!(rt; line.write_move(m).as_bytes() == text);
    line.look(m);
    assert!(rt; line.count() == count && line.compared() == compared);
}

/// Whether there is a legal move, and neither a check nor a draw.
fn is_open<A: Allocator>(line: &mut Line<A>) -> bool
    ensures looked { line.new.looked ≡ line.old.looked }
{
    line.has_legal() && !line.in_check() && !line.is_drawn(true)
}

/// Takes two moves back that were looked at.
fn unlook_both<A: Allocator>(line: &mut Line<A>)
    requires both { line.old.looked ≡ 2 }
    ensures none { line.new.looked ≡ 0 }
{
    line.unlook();
    line.unlook();
}

const LOOKED: &[Row] = &[Row::Plies(3), Row::Pop(Some(b"f3g1"))];

/// The line speaks of the moves that are looked at, and is as before when they are taken back.
#[test]
fn looks_at_moves(rt: HostRuntime) {
    let table = KeyTable::new([1; 768]);
    let mut line = begin(&rt, rt.alloc(), &table);
    push_all(&rt, &mut line, &[b"g1f3", b"g8f6", b"f3g1"]);
    look_at(&rt, &mut line, b"Ng8", 2, 2);
    look_at(&rt, &mut line, b"e4", 1, 0);
    assert!(rt; is_open(&mut line));
    unlook_both(&mut line);
    run(&rt, &mut line, LOOKED);
}

const LOOKED_BACK: &[Row] = &[
    Row::Push(b"a1a5", Ok(())),
    Row::Count(1),
    Row::Compared(0, 41),
    Row::Push(b"e8e7", Ok(())),
    Row::Push(b"a5a1", Ok(())),
    Row::Push(b"e7e8", Ok(())),
    Row::Count(2),
    Row::Compared(1, 44),
];

/// The halfmove clock of the first position is larger than the line is long.
#[test]
fn looks_back_to_the_start(rt: HostRuntime) {
    let table = KeyTable::new([1; 768]);
    let fen = b"4k3/8/8/8/8/8/8/R3K3 w - - 40 60";
    let mut line = begin_at(&rt, rt.alloc(), fen, &table);
    run(&rt, &mut line, LOOKED_BACK);
}

#[test]
fn faults_say_what_they_are(rt: HostRuntime) -> Result<(), Fail> {
    let texts = [
        (LineFault::Illegal, "the move isn't legal"),
        (LineFault::TooLong, "a line has at most 20000 plies"),
        (LineFault::Memory, "there is no memory"),
    ];
    for (fault, text) in texts {
        assert!(rt; format!(in rt.alloc(); "{fault}")?.as_str() == text);
    }
    Ok(())
}

/// Prepares for the first move of a line, and pushes it.
fn push_first<A: Allocator>(
    rt: &impl Abort,
    line: &mut Line<A>,
    text: &[u8],
) -> Result<(), LineFault>
    requires none { line.old.looked ≡ 0 }
    ensures none { line.new.looked ≡ 0 }
{
    let m = named(rt, text);
    line.prepare(m)?;
    assert!(rt; line.plies() == 0);
    line.push_prepared(m);
    Ok(())
}

/// A move that was prepared is added, and one that the line refuses is prepared for as it is pushed.
#[test]
fn prepares_for_a_move(rt: HostRuntime) -> Result<(), Fail> {
    let table = KeyTable::new([1; 768]);
    let mut line = begin(&rt, rt.alloc(), &table);
    run(
        &rt,
        &mut line,
        &[Row::Prepare(b"e2e5", Err(LineFault::Illegal))],
    );
    push_first(&rt, &mut line, b"e2e4")?;
    run(&rt, &mut line, &[Row::Plies(1), Row::Ticks]);
    Ok(())
}

/// Pushes rounds until a push finds no memory, which leaves the line as long as it was: the move that was refused.
fn push_until_refused<A: Allocator>(rt: &impl Abort, line: &mut Line<A>) -> Option<Move>
    requires none { line.old.looked ≡ 0 }
    ensures none { line.new.looked ≡ 0 }
{
    for number in 0..1000usize {
        let m = named(rt, ROUND[number % 4]);
        let plies = line.plies();
        if line.push(m) == Err(LineFault::Memory) {
            assert!(rt; line.plies() == plies);
            return Some(m);
        }
    }
    None
}

/// Pushes rounds until a push finds no memory, and then neither does a `reserve`: the move that was refused.
fn refused<A: Allocator>(rt: &impl Abort, line: &mut Line<A>) -> Move
    requires none { line.old.looked ≡ 0 }
    ensures none { line.new.looked ≡ 0 }
{
    let m = push_until_refused(rt, line).expect(rt, "a refused growth");
    assert!(rt; line.reserve(1) == Err(LineFault::Memory));
    m
}

/// Pushes rounds while `taken` bytes of a heap are taken, until a push finds no memory; the same push answers Ok when they are free.
fn push_without_memory(rt: &impl Abort, heap: &LocalHeap, taken: usize) -> Result<(), Fail> {
    let table = KeyTable::new([1; 768]);
    let mut line = begin(rt, heap, &table);
    let hog: Vec<u8, _> = Vec::with_capacity(heap, taken)?;
    let m = refused(rt, &mut line);
    drop(hog);
    assert!(rt; line.push(m).is_ok());
    Ok(())
}

#[test]
fn refuses_where_there_is_no_memory(rt: HostRuntime) -> Result<(), Fail> {
    let heap = LocalHeap::new(rt.alloc(), 200_000)?;
    for taken in [199_000, 198_000, 190_000, 185_000] {
        push_without_memory(&rt, &heap, taken)?;
    }
    Ok(())
}

/// A line with nothing beside its positions gives the same answers.
#[test]
fn a_plain_line(rt: HostRuntime) {
    let start = Position::start();
    assert!(rt; start.setup().clock == 0 && start.setup().number == 1);
    let mut line = LineWith::with(rt.alloc(), start, Nothing);
    let out_and_back: [&[u8]; 4] = [b"g1f3", b"g8f6", b"f3g1", b"f6g8"];
    push_all(&rt, &mut line, &out_and_back);
    push_all(&rt, &mut line, &out_and_back);
    assert!(rt; line.count() == 3 && line.claims().threefold);
    let mate: [&[u8]; 4] = [b"f2f3", b"e7e5", b"g2g4", b"d8h4"];
    push_all(&rt, &mut line, &mate);
    assert!(rt; line.status() == Status::Mate && line.plies() == 12);
    assert!(rt; line.pop().is_some() && line.moves().len() == 30);
}
