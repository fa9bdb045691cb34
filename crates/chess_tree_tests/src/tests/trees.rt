//! What the tests of a tree begin with: its moves by their texts, and the position at its cursor, replayed.
ghost use Rattle.std.specs.Prelude.{◌≡◌, true, OnOk, OnErr};
ghost use Rattle.chess_types.specs.board.After.{after};
ghost use Rattle.chess_types.specs.board.Legal.{is_legal};
ghost use Rattle.chess_types.specs.board.Lines.{extended, last};
ghost use Rattle.chess_tree.specs.GameTree.{line_to};

use chess_key::KeyTable;
use chess_moves::is_legal;
use chess_play::Live;
use chess_tree::{NodeRef, Tree, TreeFault};
use chess_types::{Move, Position};
use std::alloc::Allocator;
use std::process::Abort;

/// Four moves that lead back to where they began.
pub(crate) const SHUFFLE: [&str; 4] = ["g1f3", "g8f6", "f3g1", "f6g8"];

pub(crate) fn a_move(rt: &impl Abort, text: &str) -> Move {
    Move::parse(text.as_bytes()).expect(rt, "a move")
}

/// Words for keys.
pub(crate) fn a_table() -> KeyTable {
    KeyTable::new([7; 768])
}

/// The tree of a game that begins.
#[tactic(auto, unfolding(chess_types::specs::board::Position::start))]
pub(crate) fn begin<'a, A: Allocator>(alloc: &'a A) -> Result<Tree<'a, A>, TreeFault> {
    Tree::new(alloc, Position::start())
}

/// Makes a move, which is pseudo-legal, on the board.
fn make_on(rt: &impl Abort, live: &mut Live, played: Move)
    ensures { live.new.position ≡ after live.old.position played }
{
    assert!(rt; live.position().clock < 100_000 && live.position().number < 100_000);
    assert!(rt; live.is_pseudo(played));
    live.make(played).keep();
}

/// The position at the cursor, by the moves on the way to it.
pub(crate) fn position_here<'k, A: Allocator>(
    rt: &impl Abort,
    tree: &Tree<'_, A>,
    table: &'k KeyTable,
) -> Live<'k>
    ensures { result.position ≡ last (line_to tree.now) }
{
    let start = tree.position().clone().expect(rt, "a copy");
    let mut live = Live::new(start, table);
    let mut node = tree.root();
    for ply in 0..tree.depth() {
        let place = tree.path_at(ply).expect(rt, "a place");
        node = node.child(place).expect(rt, "a child");
        let played = node.move_at().expect(rt, "a move");
        make_on(rt, &mut live, played);
    }
    live
}

/// The move is legal on the board.
fn assert_legal(rt: &impl Abort, live: &mut Live, played: Move)
    ensures legal { is_legal live.old.position played ≡ true }
    ensures position { live.new.position ≡ live.old.position }
{
    assert!(rt; live.position().clock < 100_000 && live.position().number < 100_000);
    assert!(rt; is_legal(live, played));
}

/// Adds a move, which is legal at the cursor.
fn grow<A: Allocator>(
    rt: &impl Abort,
    tree: &mut Tree<'_, A>,
    played: Move,
) -> Result<(), TreeFault>
    requires legal { is_legal (last (line_to tree.old)) played ≡ true }
    ensures line { OnOk result (line_to tree.new ≡ extended (line_to tree.old) played) }
    ensures err { OnErr result (tree.new ≡ tree.old) }
{
    assert!(rt; tree.position().setup().number < 100_000);
    assert!(rt; tree.depth() < 20_000);
    tree.add(played)
}

/// Adds the move of that text, which is legal in the board's position, at the cursor.
pub(crate) fn add_on<A: Allocator>(
    rt: &impl Abort,
    tree: &mut Tree<'_, A>,
    live: &mut Live,
    text: &str,
) -> Result<(), TreeFault>
    requires { live.old.position ≡ last (line_to tree.old) }
    ensures ok { OnOk result (live.new.position ≡ last (line_to tree.new)) }
    ensures err { OnErr result (tree.new ≡ tree.old) }
{
    let played = a_move(rt, text);
    assert_legal(rt, live, played);
    grow(rt, tree, played)?;
    make_on(rt, live, played);
    Ok(())
}

/// Adds the move of that text, which is legal at the cursor, by those words.
pub(crate) fn add_by<A: Allocator>(
    rt: &impl Abort,
    tree: &mut Tree<'_, A>,
    table: &KeyTable,
    text: &str,
) -> Result<(), TreeFault> {
    let mut live = position_here(rt, tree, table);
    add_on(rt, tree, &mut live, text)
}

/// Adds the move of that text, which is legal at the cursor.
pub(crate) fn add<A: Allocator>(
    rt: &impl Abort,
    tree: &mut Tree<'_, A>,
    text: &str,
) -> Result<(), TreeFault> {
    add_by(rt, tree, &a_table(), text)
}

/// The move of the child at that place.
pub(crate) fn child_move<A: Allocator>(node: &NodeRef<'_, '_, A>, place: u32) -> Option<Move> {
    node.child(place)?.move_at()
}
