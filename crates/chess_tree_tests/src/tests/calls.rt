//! Calls on a tree and looks at it, as rows of a table.
use super::trees::{a_move, add, begin, child_move};
use chess_tree::{Tree, TreeFault};
use chess_types::Move;
use std::alloc::Allocator;
use std::process::Abort;

/// A call on a tree.
#[derive(Clone, Copy)]
pub enum Call {
    /// The move of that text, which is legal at the cursor, is added.
    Add(&'static str),
    Back,
    Step(u32),
    Start,
    First,
    End,
    Goto(&'static [u32]),
    Promote,
    Delete,
    AddNag(u8),
    SetComment(&'static [u8]),
    /// Asks for the path, whatever it is.
    AskPath,
}

/// What is seen of a tree.
#[derive(Clone, Copy)]
pub enum Look {
    Path(&'static [u32]),
    Depth(u32),
    /// The place at a ply of the path.
    Place(u32, Option<u32>),
    Played(Option<&'static str>),
    /// How many children the node at the cursor has.
    ChildCount(u32),
    /// The first child with that move.
    Find(&'static str, u32),
    /// How many children the root has.
    RootCount(u32),
    /// The move of a child of the root, at a place.
    Below(u32, &'static str),
    Nags(&'static [u8]),
    Comment(&'static [u8]),
    Has(&'static [u32], bool),
}

/// A row of a table.
#[derive(Clone, Copy)]
pub enum Row {
    /// The call is answered.
    Does(Call),
    /// The call is refused.
    Fails(TreeFault, Call),
    /// It is so then.
    Shows(Look),
}

/// Makes a call: its answer.
pub fn answer<A: Allocator>(
    rt: &impl Abort,
    tree: &mut Tree<'_, A>,
    call: Call,
) -> Result<(), TreeFault> {
    match call {
        Call::Add(text) => add(rt, tree, text),
        Call::Back => tree.back(),
        Call::Step(place) => tree.step(place),
        Call::Start => {
            tree.start();
            Ok(())
        }
        Call::First => tree.first(),
        Call::End => {
            tree.end();
            Ok(())
        }
        Call::Goto(path) => tree.goto(path),
        Call::Promote => tree.promote(),
        Call::Delete => tree.delete(),
        Call::AddNag(nag) => tree.add_nag(nag),
        Call::SetComment(text) => tree.set_comment(text),
        Call::AskPath => match tree.path() {
            Ok(_) => Ok(()),
            Err(fault) => Err(fault),
        },
    }
}

/// The move of a text.
fn move_of(rt: &impl Abort, text: Option<&str>) -> Option<Move> {
    match text {
        Some(text) => Some(a_move(rt, text)),
        None => None,
    }
}

fn is_path<A: Allocator>(tree: &Tree<'_, A>, path: &[u32]) -> bool {
    match tree.path() {
        Ok(found) => found.as_slice() == path,
        Err(_) => false,
    }
}

/// Whether it is so.
pub fn is_seen<A: Allocator>(rt: &impl Abort, tree: &Tree<'_, A>, look: Look) -> bool {
    match look {
        Look::Path(path) => is_path(tree, path),
        Look::Depth(depth) => tree.depth() == depth,
        Look::Place(ply, place) => tree.path_at(ply) == place,
        Look::Played(text) => tree.move_at() == move_of(rt, text),
        Look::ChildCount(count) => tree.child_count() == count,
        Look::Find(text, place) => tree.find(a_move(rt, text)) == Some(place),
        Look::RootCount(count) => tree.root().children() == count,
        Look::Below(place, text) => child_move(&tree.root(), place) == Some(a_move(rt, text)),
        Look::Nags(nags) => tree.notes().nags == nags,
        Look::Comment(comment) => tree.notes().comment == comment,
        Look::Has(path, has) => tree.has(path) == has,
    }
}

/// Makes a row's call, or looks at the tree: whether the row is right.
fn holds<A: Allocator>(rt: &impl Abort, tree: &mut Tree<'_, A>, row: Row) -> bool {
    match row {
        Row::Does(call) => answer(rt, tree, call) == Ok(()),
        Row::Fails(fault, call) => answer(rt, tree, call) == Err(fault),
        Row::Shows(look) => is_seen(rt, tree, look),
    }
}

/// Goes by a table: makes its calls, and looks at the tree.
pub fn run<A: Allocator>(rt: &impl Abort, tree: &mut Tree<'_, A>, rows: &[Row]) {
    for (index, row) in rows.iter().enumerate() {
        assert!(rt; holds(rt, tree, *row), "row {index}");
    }
}

/// The tree of a game that begins, once a table was gone by.
pub fn grown<'a, A: Allocator>(rt: &impl Abort, alloc: &'a A, rows: &[Row]) -> Tree<'a, A> {
    let mut tree = begin(alloc).expect(rt, "a tree");
    run(rt, &mut tree, rows);
    tree
}

/// Goes by a table from where a game begins.
pub fn play_all<A: Allocator>(rt: &impl Abort, alloc: &A, rows: &[Row]) {
    let _tree = grown(rt, alloc, rows);
}
