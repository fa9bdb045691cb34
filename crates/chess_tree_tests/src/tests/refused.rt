//! Growths of trees and analyses that are refused, each in turn, and the texts of faults.
use super::analysis::Asked::Seen;
use super::analysis::Row::{Gives, Is};
use super::analysis::{self, Answer, begin as begin_analysis, make_call};
use super::calls::Call::{self, Add, AddNag, AskPath, Back, SetComment};
use super::calls::Look::{Comment, Depth, Nags, Path};
use super::calls::Row::{Does, Fails, Shows};
use super::calls::{Row, answer, grown, run};
use super::trees::{SHUFFLE, a_table, begin};
use chess_key::KeyTable;
use chess_tree::{Analysis, PlayFault, Tree, TreeFault};
use linked_list_allocator::LocalHeap;
use std::alloc::{AllocError, Allocator, Global};
use std::fmt::Display;
use std::process::Abort;
use std::test::Fail;

/// The comment of a few words, more than a small heap has room for.
const LONG: &[u8] = b"a comment of some words that takes memory of its own";

/// Whether there was no memory; any other fault is wrong.
fn is_memory(rt: &impl Abort, called: Result<(), TreeFault>) -> bool {
    assert!(rt; called.is_ok() || called == Err(TreeFault::Memory));
    called.is_err()
}

/// What is compared: the depth of the cursor, its notes and its children, and the depth of the line.
type State = (u32, usize, usize, u32, u32);

fn seen_of<A: Allocator>(tree: &Tree<'_, A>, plies: u32) -> State {
    let notes = tree.notes();
    (
        tree.depth(),
        notes.nags.len(),
        notes.comment.len(),
        tree.child_count(),
        plies,
    )
}

/// Something with calls in order, each of which may find no memory.
trait Called {
    /// How many calls there are.
    const CALLS: u32;

    /// Makes the call of that number: whether it found no memory.
    fn is_refused(&mut self, rt: &impl Abort, call: u32) -> bool;

    fn seen(&self) -> State;
}

/// How many calls on a tree there are.
const ON_A_TREE: u32 = 45;

/// The calls on a tree that may want memory.
fn on_a_tree(call: u32) -> Call {
    match call {
        0 => Add("e2e4"),
        1 => SetComment(LONG),
        2..=41 => AddNag(7),
        42 => Add("e7e5"),
        43 => AskPath,
        _ => SetComment(b"another comment"),
    }
}

impl<A: Allocator> Called for Tree<'_, A> {
    const CALLS: u32 = ON_A_TREE + 1;

    /// The last call is a copy.
    fn is_refused(&mut self, rt: &impl Abort, call: u32) -> bool {
        if call == ON_A_TREE {
            return self.clone().is_err();
        }
        is_memory(rt, answer(rt, self, on_a_tree(call)))
    }

    fn seen(&self) -> State {
        seen_of(self, 0)
    }
}

/// The calls on an analysis that may want memory.
fn on_an_analysis(call: u32) -> analysis::Call {
    match call {
        0..=11 => analysis::Call::Play(SHUFFLE[(call % 4) as usize]),
        12 | 13 => analysis::Call::SetComment(LONG),
        _ => analysis::Call::AddNag(7),
    }
}

/// To one place after another, for which no memory is wanted.
const WALKED: &[analysis::Row] = &[
    Gives(Answer::Done, analysis::Call::Start),
    Gives(Answer::Done, analysis::Call::Step(0)),
    Gives(Answer::Done, analysis::Call::End),
    Is(Seen(Depth(12))),
    Gives(Answer::Done, analysis::Call::Goto(&[0, 0, 0])),
];

impl<A: Allocator> Called for Analysis<'_, '_, A> {
    const CALLS: u32 = 31;

    /// The last call is the walk.
    fn is_refused(&mut self, rt: &impl Abort, call: u32) -> bool {
        if call == 30 {
            analysis::run(rt, self, WALKED);
            return false;
        }
        let answer = make_call(rt, self, on_an_analysis(call));
        assert!(rt; answer == Answer::Done || answer == Answer::Added || answer == Answer::Memory);
        answer == Answer::Memory
    }

    fn seen(&self) -> State {
        seen_of(self.tree(), self.line().plies())
    }
}

/// Calls in order, from one of them on, until one is refused, which leaves all as it was: its number, or how many there are.
fn first_refused<C: Called>(rt: &impl Abort, called: &mut C, from: u32) -> u32 {
    for call in from..C::CALLS {
        let before = called.seen();
        if called.is_refused(rt, call) {
            assert!(rt; called.seen() == before);
            return call;
        }
    }
    C::CALLS
}

/// Takes what a heap has left of `bytes` bytes, until it is dropped.
fn fill<'a>(rt: &impl Abort, heap: &'a LocalHeap, bytes: usize) -> Vec<u8, &'a LocalHeap> {
    Vec::with_capacity(heap, bytes.saturating_sub(heap.used())).expect(rt, "room")
}

/// The first call that is refused while `bytes` bytes of the heap are taken.
fn first_without<C: Called>(
    rt: &impl Abort,
    heap: &LocalHeap,
    called: &mut C,
    bytes: usize,
) -> u32 {
    let _other = fill(rt, heap, bytes);
    first_refused(rt, called, 0)
}

/// Calls while `bytes` bytes of the heap are taken, until one is refused, and on from there once there is memory: whether one was.
fn call_all<C: Called>(rt: &impl Abort, heap: &LocalHeap, called: &mut C, bytes: usize) -> bool {
    let call = first_without(rt, heap, called, bytes);
    assert!(rt; first_refused(rt, called, call) == C::CALLS);
    call < C::CALLS
}

const CALLED: &[Row] = &[Shows(Path(&[0, 0])), Does(Back), Shows(Nags(&[7; 40]))];

fn call_tree(rt: &impl Abort, heap: &LocalHeap, bytes: usize) -> bool {
    let mut tree = begin(heap).expect(rt, "a tree");
    let refused = call_all(rt, heap, &mut tree, bytes);
    run(rt, &mut tree, CALLED);
    refused
}

fn call_analysis(rt: &impl Abort, heap: &LocalHeap, table: &KeyTable, bytes: usize) -> bool {
    let mut analysis = begin_analysis(heap, table).expect(rt, "an analysis");
    call_all(rt, heap, &mut analysis, bytes)
}

/// Each call on a tree in turn.
fn grow_on<A: Allocator>(rt: &impl Abort, tree: &mut Tree<'_, A>) -> Result<(), TreeFault> {
    for call in 0..ON_A_TREE {
        answer(rt, tree, on_a_tree(call))?;
    }
    assert!(rt; tree.depth() == 2);
    Ok(())
}

/// A tree with moves, notes and comments, on so little memory that a growth is refused.
fn grow<A: Allocator>(rt: &impl Abort, alloc: &A) -> Result<(), TreeFault> {
    let mut tree = begin(alloc)?;
    grow_on(rt, &mut tree)
}

/// An analysis that begins.
fn begins<A: Allocator>(alloc: &A, table: &KeyTable) -> Result<(), TreeFault> {
    match begin_analysis(alloc, table) {
        Ok(_) => Ok(()),
        Err(fault) => Err(fault),
    }
}

/// What is tried on heaps with more and more room.
#[derive(Clone, Copy)]
enum Trial {
    /// A tree grows on a heap of its own size, or an analysis begins.
    Grow,
    Begin,
    /// The same call again: on a tree, or on an analysis.
    CallTree,
    CallAnalysis,
}

/// How large a heap is.
fn size_of(trial: Trial, number: usize) -> usize {
    match trial {
        Trial::Grow => number.saturating_mul(32).saturating_add(32),
        Trial::Begin => number.saturating_mul(16).saturating_add(16),
        Trial::CallTree => 16_384,
        Trial::CallAnalysis => 65_536,
    }
}

/// `bytes` bytes, but for room that grows with the number.
fn taken(bytes: usize, number: usize, step: usize) -> usize {
    bytes.saturating_sub(number.saturating_mul(step))
}

/// Whether a growth is refused on the heap.
fn is_refused_on(rt: &impl Abort, heap: &LocalHeap, trial: Trial, number: usize) -> bool {
    match trial {
        Trial::Grow => is_memory(rt, grow(rt, heap)),
        Trial::Begin => is_memory(rt, begins(heap, &a_table())),
        Trial::CallTree => call_tree(rt, heap, taken(16_200, number, 32)),
        Trial::CallAnalysis => call_analysis(rt, heap, &a_table(), taken(65_000, number, 64)),
    }
}

/// Whether a growth is refused on a heap of its own, of which nothing is taken afterwards.
fn is_refused(
    rt: &impl Abort,
    alloc: Global,
    trial: Trial,
    number: usize,
) -> Result<bool, AllocError> {
    let heap = LocalHeap::new(alloc, size_of(trial, number))?;
    let refused = is_refused_on(rt, &heap, trial, number);
    assert!(rt; heap.used() == 0);
    Ok(refused)
}

/// How often a growth is refused on `heaps` heaps.
fn count_refused(
    rt: &impl Abort,
    alloc: Global,
    trial: Trial,
    heaps: usize,
) -> Result<u32, AllocError> {
    let mut refused = 0u32;
    for number in 0..heaps {
        if is_refused(rt, alloc, trial, number)? {
            refused = refused.saturating_add(1);
        }
    }
    Ok(refused)
}

/// What is tried on how many heaps, and how often a growth is refused at least and at most.
const TRIALS: &[(Trial, usize, u32, u32)] = &[
    (Trial::Grow, 399, 11, 389),
    (Trial::Begin, 99, 2, 98),
    (Trial::CallTree, 80, 11, 80),
    (Trial::CallAnalysis, 700, 11, 699),
];

/// Each growth is refused in turn, as `Memory`, until all find their memory. All is as before then, and the same call is answered once there is
/// memory. Steps take none.
#[test]
fn without_memory(rt: HostRuntime) -> Result<(), Fail> {
    for (trial, heaps, least, most) in TRIALS {
        let refused = count_refused(&rt, rt.alloc(), *trial, *heaps)?;
        assert!(rt;
            *least <= refused && refused <= *most,
            "{refused} of {heaps}"
        );
    }
    Ok(())
}

/// Each fault has its text.
fn assert_texts<F: Display>(
    rt: &impl Abort,
    alloc: Global,
    texts: &[(F, &str)],
) -> Result<(), AllocError> {
    for (fault, text) in texts {
        assert!(rt; format!(in alloc; "{fault}")?.as_str() == *text);
    }
    Ok(())
}

const OF_A_TREE: &[(TreeFault, &str)] = &[
    (TreeFault::NoSuch, "there is no such node"),
    (TreeFault::AtRoot, "the cursor is at the root"),
    (TreeFault::Full, "the tree holds 1000000 moves"),
    (TreeFault::BadComment, "a right brace stands in the comment"),
    (TreeFault::Memory, "there is no memory"),
];

const OF_A_MOVE: &[(PlayFault, &str)] = &[
    (PlayFault::Illegal, "the move isn't legal"),
    (PlayFault::TooLong, "a line has at most 20000 plies"),
    (PlayFault::Full, "the tree holds 1000000 moves"),
    (PlayFault::Memory, "there is no memory"),
];

#[test]
fn faults_say_what_they_are(rt: HostRuntime) -> Result<(), Fail> {
    assert_texts(&rt, rt.alloc(), OF_A_TREE)?;
    assert_texts(&rt, rt.alloc(), OF_A_MOVE)?;
    Ok(())
}

const BEGUN: &[Row] = &[Does(Add("e2e4"))];

/// A comment that most of a small heap is for.
const LONGER: &[u8] = &[b'a'; 2_000];

const REFUSED: &[Row] = &[
    Fails(TreeFault::Memory, SetComment(LONGER)),
    Shows(Comment(b"")),
];

const SET: &[Row] = &[Does(SetComment(LONGER)), Shows(Comment(LONGER))];

/// Goes by a table while the heap is nearly full.
fn run_full(rt: &impl Abort, heap: &LocalHeap, tree: &mut Tree<'_, LocalHeap>, rows: &[Row]) {
    let _other = fill(rt, heap, 7_000);
    run(rt, tree, rows);
}

const NO_WORDS: &[Row] = &[Does(SetComment(b" \t "))];

/// Goes by a table, which takes nothing of the heap.
fn run_free(rt: &impl Abort, heap: &LocalHeap, tree: &mut Tree<'_, LocalHeap>, rows: &[Row]) {
    let used = heap.used();
    run(rt, tree, rows);
    assert!(rt; heap.used() == used);
}

fn are_comments_set(rt: &impl Abort, heap: &LocalHeap) {
    run_free(rt, heap, &mut grown(rt, heap, BEGUN), NO_WORDS);
    let mut tree = grown(rt, heap, BEGUN);
    run_full(rt, heap, &mut tree, REFUSED);
    run(rt, &mut tree, SET);
}

/// A comment of no words takes no memory. After a refusal all is as before, and the call is answered once there is memory.
#[test]
fn comments_without_memory(rt: HostRuntime) -> Result<(), Fail> {
    let heap = LocalHeap::new(rt.alloc(), 8_192)?;
    are_comments_set(&rt, &heap);
    Ok(())
}
