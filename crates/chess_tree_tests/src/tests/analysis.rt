//! An analysis: its calls, as a reader of games makes them.
use super::calls::{Look, is_seen};
use super::trees::{a_move, a_table};
use chess_key::KeyTable;
use chess_san::SanFault;
use chess_tree::{Analysis, PlayFault, TreeFault};
use chess_types::{Claims, Position, Status};
use std::alloc::Allocator;
use std::process::Abort;

/// The analysis of a game that begins.
#[tactic(auto, unfolding(chess_types::specs::board::Position::start))]
pub fn begin<'a, A: Allocator>(
    alloc: &'a A,
    table: &'a KeyTable,
) -> Result<Analysis<'a, 'a, A>, TreeFault> {
    Analysis::new(alloc, Position::start(), table)
}

/// A call on an analysis.
#[derive(Clone, Copy)]
pub enum Call {
    /// The move that a text in standard algebraic notation names is added.
    Read(&'static [u8]),
    Play(&'static str),
    Add(&'static str),
    Back,
    Undo(bool),
    BackTo(u32),
    Step(u32),
    Start,
    End,
    Goto(&'static [u32]),
    Promote,
    Delete,
    AddNag(u8),
    SetComment(&'static [u8]),
}

/// What it answers.
#[derive(Clone, Copy, PartialEq, Eq)]
pub enum Answer {
    Done,
    /// The move was played, and a node added for it.
    Added,
    Illegal,
    AtRoot,
    NoSuch,
    Memory,
    /// What no row wants.
    Other,
}

/// What is asked at the cursor.
#[derive(Clone, Copy)]
pub enum Asked {
    /// It is seen of the tree.
    Seen(Look),
    Plies(u32),
    Status(Status),
    Count(u32),
    Moves(usize),
    Claims(Claims),
    ClaimsWith(&'static str, Option<Claims>),
    /// The text names no move.
    Unread(SanFault, &'static [u8]),
    /// The fullmove number.
    Number(u32),
    /// The same, by the position that the numbers are kept for.
    LiveNumber(u32),
}

/// A row of a table.
#[derive(Clone, Copy)]
pub enum Row {
    /// The call is answered so.
    Gives(Answer, Call),
    /// It is so then.
    Is(Asked),
}

fn of_fault(fault: PlayFault) -> Answer {
    match fault {
        PlayFault::Illegal => Answer::Illegal,
        PlayFault::Memory => Answer::Memory,
        _ => Answer::Other,
    }
}

fn of_add(added: Result<(), PlayFault>) -> Answer {
    match added {
        Ok(()) => Answer::Done,
        Err(fault) => of_fault(fault),
    }
}

fn of_play(played: Result<bool, PlayFault>) -> Answer {
    match played {
        Ok(true) => Answer::Added,
        Ok(false) => Answer::Done,
        Err(fault) => of_fault(fault),
    }
}

fn of_tree(edited: Result<(), TreeFault>) -> Answer {
    match edited {
        Ok(()) => Answer::Done,
        Err(TreeFault::AtRoot) => Answer::AtRoot,
        Err(TreeFault::NoSuch) => Answer::NoSuch,
        Err(TreeFault::Memory) => Answer::Memory,
        Err(_) => Answer::Other,
    }
}

/// Adds the move that a text in standard algebraic notation names.
fn read<A: Allocator>(analysis: &mut Analysis<'_, '_, A>, text: &[u8]) -> Answer {
    match analysis.read_move(text) {
        Ok(m) => of_add(analysis.add(m)),
        Err(_) => Answer::Other,
    }
}

/// Plays the move of a text.
fn play<A: Allocator>(
    rt: &impl Abort,
    analysis: &mut Analysis<'_, '_, A>,
    text: &str,
) -> Result<bool, PlayFault> {
    analysis.play(a_move(rt, text))
}

/// Makes a call.
pub fn make_call<A: Allocator>(
    rt: &impl Abort,
    analysis: &mut Analysis<'_, '_, A>,
    call: Call,
) -> Answer {
    match call {
        Call::Read(text) => read(analysis, text),
        Call::Play(text) => of_play(play(rt, analysis, text)),
        Call::Add(text) => of_add(analysis.add(a_move(rt, text))),
        Call::Back => of_tree(analysis.back()),
        Call::Undo(added) => of_tree(analysis.undo(added)),
        Call::BackTo(depth) => {
            analysis.back_to(depth);
            Answer::Done
        }
        Call::Step(place) => of_tree(analysis.step(place)),
        Call::Start => {
            analysis.start();
            Answer::Done
        }
        Call::End => {
            analysis.end();
            Answer::Done
        }
        Call::Goto(path) => of_tree(analysis.goto(path)),
        Call::Promote => of_tree(analysis.promote()),
        Call::Delete => of_tree(analysis.delete()),
        Call::AddNag(nag) => of_tree(analysis.add_nag(nag)),
        Call::SetComment(text) => of_tree(analysis.set_comment(text)),
    }
}

/// Whether it is so.
fn is_so<A: Allocator>(rt: &impl Abort, analysis: &mut Analysis<'_, '_, A>, asked: Asked) -> bool {
    match asked {
        Asked::Seen(look) => is_seen(rt, analysis.tree(), look),
        Asked::Plies(plies) => analysis.line().plies() == plies,
        Asked::Status(status) => analysis.status() == status,
        Asked::Count(count) => analysis.count() == count,
        Asked::Moves(number) => analysis.moves().len() == number,
        Asked::Claims(claims) => analysis.claims() == claims,
        Asked::ClaimsWith(text, claims) => analysis.claims_with(a_move(rt, text)) == claims,
        Asked::Unread(fault, text) => analysis.read_move(text) == Err(fault),
        Asked::Number(number) => analysis.position().setup().number == number,
        Asked::LiveNumber(number) => analysis.live().position().number == number,
    }
}

/// Makes a row's call, or asks: whether the row is right.
fn holds<A: Allocator>(rt: &impl Abort, analysis: &mut Analysis<'_, '_, A>, row: Row) -> bool {
    match row {
        Row::Gives(want, call) => make_call(rt, analysis, call) == want,
        Row::Is(asked) => is_so(rt, analysis, asked),
    }
}

/// Goes by a table.
pub fn run<A: Allocator>(rt: &impl Abort, analysis: &mut Analysis<'_, '_, A>, rows: &[Row]) {
    for (index, row) in rows.iter().enumerate() {
        assert!(rt; holds(rt, analysis, *row), "row {index}");
    }
}

/// The analysis of a game that begins, once a table was gone by.
pub fn grown<'a, A: Allocator>(
    rt: &impl Abort,
    alloc: &'a A,
    table: &'a KeyTable,
    rows: &[Row],
) -> Analysis<'a, 'a, A> {
    let mut analysis = begin(alloc, table).expect(rt, "an analysis");
    run(rt, &mut analysis, rows);
    analysis
}

/// Goes by a table from where a game begins.
fn run_all<A: Allocator>(rt: &impl Abort, alloc: &A, rows: &[Row]) {
    let table = a_table();
    let _analysis = grown(rt, alloc, &table, rows);
}

pub const READ: &[Row] = &[
    Row::Gives(Answer::Done, Call::Read(b"e4")),
    Row::Gives(Answer::Done, Call::Read(b"e5")),
    Row::Is(Asked::Seen(Look::Depth(2))),
    Row::Is(Asked::Seen(Look::Place(1, Some(0)))),
    Row::Gives(Answer::Done, Call::Back),
    Row::Gives(Answer::Done, Call::Read(b"c5")),
    Row::Gives(Answer::Done, Call::Read(b"Nf3")),
    Row::Gives(Answer::Done, Call::SetComment(b" the  Sicilian ")),
    Row::Gives(Answer::Done, Call::AddNag(1)),
    Row::Gives(Answer::Done, Call::BackTo(1)),
    Row::Gives(Answer::Done, Call::Step(0)),
    Row::Gives(Answer::Done, Call::Read(b"Nc3")),
    Row::Is(Asked::Seen(Look::Path(&[0, 0, 0]))),
    Row::Gives(Answer::Done, Call::Goto(&[0, 1, 0])),
    Row::Is(Asked::Seen(Look::Comment(b"the Sicilian"))),
    Row::Is(Asked::Seen(Look::Nags(&[1]))),
    Row::Is(Asked::Plies(3)),
];

/// The moves 1. e4 e5 (1... c5 2. Nf3) 2. Nc3, as a reader of the text adds them.
#[test]
fn a_variation_is_read(rt: HostRuntime) {
    run_all(&rt, &rt.alloc(), READ);
}

const PLAYED: &[Row] = &[
    Row::Gives(Answer::Added, Call::Play("e2e4")),
    Row::Gives(Answer::Done, Call::Back),
    Row::Gives(Answer::Done, Call::Play("e2e4")),
    Row::Gives(Answer::Done, Call::Back),
    Row::Is(Asked::Seen(Look::ChildCount(1))),
    Row::Gives(Answer::Done, Call::Add("e2e4")),
    Row::Is(Asked::Seen(Look::Path(&[1]))),
    Row::Gives(Answer::Illegal, Call::Add("e2e4")),
    Row::Gives(Answer::Illegal, Call::Play("e2e4")),
    Row::Gives(Answer::Done, Call::Promote),
    Row::Is(Asked::Seen(Look::Path(&[0]))),
    Row::Gives(Answer::Done, Call::Delete),
    Row::Is(Asked::Seen(Look::Depth(0))),
    Row::Is(Asked::Seen(Look::ChildCount(1))),
    Row::Gives(Answer::AtRoot, Call::Delete),
    Row::Gives(Answer::NoSuch, Call::Step(1)),
];

/// A move that is there is stepped to by `play`, and added once more by `add`.
#[test]
fn plays_and_adds(rt: HostRuntime) {
    run_all(&rt, &rt.alloc(), PLAYED);
}

const UNDONE: &[Row] = &[
    Row::Gives(Answer::AtRoot, Call::Undo(true)),
    Row::Gives(Answer::AtRoot, Call::Undo(false)),
    Row::Gives(Answer::Added, Call::Play("e2e4")),
    Row::Gives(Answer::Done, Call::Undo(true)),
    Row::Is(Asked::Seen(Look::ChildCount(0))),
    Row::Is(Asked::Plies(0)),
    // One that is there stays, whatever its place.
    Row::Gives(Answer::Added, Call::Play("d2d4")),
    Row::Gives(Answer::Done, Call::Undo(false)),
    Row::Gives(Answer::Added, Call::Play("c2c4")),
    Row::Gives(Answer::Done, Call::Undo(false)),
    Row::Gives(Answer::Done, Call::Play("d2d4")),
    Row::Gives(Answer::Done, Call::Undo(false)),
    Row::Is(Asked::Seen(Look::ChildCount(2))),
    // What a child, a comment or an annotation number hangs on stays, too.
    Row::Gives(Answer::Added, Call::Play("e2e4")),
    Row::Gives(Answer::Done, Call::SetComment(b"good")),
    Row::Gives(Answer::Done, Call::Undo(true)),
    Row::Is(Asked::Seen(Look::ChildCount(3))),
    Row::Gives(Answer::Added, Call::Play("a2a3")),
    Row::Gives(Answer::Done, Call::AddNag(6)),
    Row::Gives(Answer::Done, Call::Undo(true)),
    Row::Is(Asked::Seen(Look::ChildCount(4))),
    Row::Gives(Answer::Added, Call::Play("b2b3")),
    Row::Gives(Answer::Added, Call::Play("e7e5")),
    Row::Gives(Answer::Done, Call::Undo(false)),
    Row::Gives(Answer::Done, Call::Undo(true)),
    Row::Is(Asked::Seen(Look::ChildCount(5))),
    // Before its siblings it is taken out all the same.
    Row::Gives(Answer::Added, Call::Play("g1f3")),
    Row::Gives(Answer::Done, Call::Promote),
    Row::Gives(Answer::Done, Call::Undo(true)),
    Row::Is(Asked::Seen(Look::ChildCount(5))),
    Row::Is(Asked::Seen(Look::Below(0, "d2d4"))),
    Row::Is(Asked::Plies(0)),
];

/// A move is taken back: its node goes where it was added and nothing hangs on it.
#[test]
fn undoes(rt: HostRuntime) {
    run_all(&rt, &rt.alloc(), UNDONE);
}

const NONE: Claims = Claims {
    threefold: false,
    fifty: false,
};

const ASKED: &[Row] = &[
    Row::Gives(Answer::Added, Call::Play("f2f3")),
    Row::Gives(Answer::Added, Call::Play("e7e5")),
    Row::Gives(Answer::Added, Call::Play("g2g4")),
    Row::Gives(Answer::Added, Call::Play("d8h4")),
    Row::Is(Asked::Status(Status::Mate)),
    Row::Is(Asked::Count(1)),
    Row::Is(Asked::Moves(0)),
    Row::Is(Asked::Unread(SanFault::Illegal, b"e4")),
    Row::Is(Asked::Number(3)),
    Row::Gives(Answer::Done, Call::Start),
    Row::Is(Asked::Status(Status::Play)),
    Row::Is(Asked::Moves(20)),
    Row::Is(Asked::Claims(NONE)),
    Row::Is(Asked::ClaimsWith("e2e4", Some(NONE))),
    Row::Is(Asked::LiveNumber(1)),
    Row::Gives(Answer::Done, Call::End),
    Row::Is(Asked::Seen(Look::Depth(4))),
    Row::Is(Asked::Plies(4)),
];

/// What is asked at the cursor: the fool's mate, and where the game begins.
#[test]
fn asks_at_the_cursor(rt: HostRuntime) {
    run_all(&rt, &rt.alloc(), ASKED);
}
