//! One game joined to another as a variation.

ghost use Rattle.std.specs.Prelude.{◌≡◌, ◌≢◌, ◌<◌, ◌≤◌, ◌+◌, List, ℕ, [], false, true, length, Err, IfErr, MatchBool, OnErr, OnOk};
ghost use Rattle.chess_types.specs.board.Legal.{is_legal};
ghost use Rattle.chess_types.specs.board.Lines.{extended, last};
ghost use Rattle.chess_draws.specs.Pushes.{most_plies};
ghost use Rattle.chess_tree.specs.Comments.{IsComment};
ghost use Rattle.chess_tree.specs.Edits.{change_below};
ghost use Rattle.chess_tree.specs.Forest.{append, height, most_moves, moves_held};
ghost use Rattle.chess_tree.specs.GameTree.{at_path, changed, commented_here, deleted, has, line_to, nodes_here};
ghost use Rattle.chess_tree.specs.WellFormed.{AreSound};
ghost use Rattle.chess_edit.specs.Joined.{line_joined, line_alone};
ghost use Rattle.chess_edit.specs.steps.Branches.{Begun, annotated_all, with_node};
ghost use Rattle.chess_edit.specs.declared.joining.JoinFault.TheVariants.{Full, Start};
ghost use Rattle.chess_tree.specs.declared.fault.TreeFault.TheVariants as tree_fault;

use chess_items::is;
use chess_pgn::Game;
use chess_tree::{NodeRef, Tree, TreeFault};
use chess_types::Move;
use std::alloc::Allocator;
use thiserror::Error;

/// Why one game isn't joined to another.
#[derive(Clone, Copy, Debug, PartialEq, Eq, Error)]
pub enum JoinFault {
    /// They begin in different positions.
    #[error("the games begin in different positions")]
    Start,
    /// The game would have more than 1,000,000 moves.
    #[error("a game has at most 1,000,000 moves")]
    Full,
    /// There is no memory.
    #[error("there is no memory")]
    Memory,
}

// Appends annotation numbers to those of the node at the cursor.
fn annotate<'a, A: Allocator>(tree: &mut Tree<'a, A>, nags: &[u8]) -> Result<(), TreeFault>
    ensures ok { OnOk result (tree.new ≡ annotated_all nags.now tree.old) }
    ensures err { OnErr result ((some : List ℕ) × (tree.new ≡ annotated_all some tree.old)) }
    ensures room { result ≢ Err tree_fault.Full }
    ensures line { line_to tree.new ≡ line_to tree.old }
{
    for nag in nags {
        tree.add_nag(*nag)?;
    }
    Ok(())
}

// The same, and sets the comment.
fn note<'a, A: Allocator>(
    tree: &mut Tree<'a, A>,
    nags: &[u8],
    comment: &[u8],
) -> Result<(), TreeFault>
    requires comment { IsComment comment.now }
    ensures ok { OnOk result (tree.new ≡ commented_here comment.now (annotated_all nags.now tree.old)) }
    ensures err { OnErr result ((some : List ℕ) × (tree.new ≡ annotated_all some tree.old)) }
    ensures room { result ≢ Err tree_fault.Full }
    ensures line { line_to tree.new ≡ line_to tree.old }
{
    annotate(tree, nags)?;
    tree.set_comment(comment)
}

// Adds a child with that legal move and those notes, and steps into it. Where that can't be, all is as before.
fn add_node<'a, A: Allocator>(
    tree: &mut Tree<'a, A>,
    m: Move,
    nags: &[u8],
    comment: &[u8],
) -> Result<(), TreeFault>
    requires legal { is_legal (last (line_to tree.old)) m ≡ true }
    requires deep { length tree.old.path < most_plies }
    requires comment { IsComment comment.now }
    ensures ok { OnOk result (tree.new ≡ with_node m nags.now comment.now tree.old) }
    ensures line { OnOk result (line_to tree.new ≡ extended (line_to tree.old) m) }
    ensures err { OnErr result (tree.new ≡ tree.old) }
    ensures full { result ≡ Err tree_fault.Full → most_moves < moves_held (with_node m nags.now comment.now tree.old).tree.below }
{
    let _start = tree.position();
    tree.add(m)?;
    if let Err(fault) = note(tree, nags, comment) {
        let _gone = tree.delete();
        return Err(fault);
    }
    Ok(())
}

// Adds the main line below a node at the cursor. Where that can't be, the first moves of it may have been added.
fn grow<'a, A: Allocator>(tree: &mut Tree<'a, A>, node: NodeRef<'_, 'a, A>) -> Result<(), TreeFault>
    requires sound { AreSound (last (line_to tree.old)) node.below }
    requires deep { length tree.old.path + height node.below ≤ most_plies }
    ensures ok { OnOk result (tree.new.tree ≡ changed (change_below (λ f. append f (line_alone node.entry.below)) tree.old.path) tree.old.tree) }
    ensures err { OnErr result (Begun tree.old tree.new) }
    ensures full { result ≡ Err tree_fault.Full → most_moves < moves_held (change_below (λ f. append f (line_alone node.entry.below)) tree.old.path tree.old.tree.below) }
{
    let mut node = node;
    loop {
        let Some(next) = node.child(0) else {
            return Ok(());
        };
        let Some(m) = next.move_at() else {
            unreachable!();
        };
        let notes = next.notes();
        if let Err(fault) = add_node(tree, m, notes.nags, notes.comment) {
            return Err(fault);
        }
        node = next;
    }
}

// Takes out what was added at that path, if anything was.
fn take_out<'a, A: Allocator>(tree: &mut Tree<'a, A>, place: &[u32])
    requires below { 0 < length place.now }
    ensures taken { has place.now tree.old.tree.below ≡ true → tree.new.tree ≡ (deleted (at_path place.now tree.old)).tree }
    ensures none { has place.now tree.old.tree.below ≡ false → tree.new.tree ≡ tree.old.tree }
{
    match tree.goto(place) {
        Ok(()) => {
            let _gone = tree.delete();
        }
        Err(_) => {}
    }
}

// The same as `grow`; where that can't be, the moves are as before.
fn add_line<'a, A: Allocator>(
    tree: &mut Tree<'a, A>,
    node: NodeRef<'_, 'a, A>,
) -> Result<(), TreeFault>
    requires sound { AreSound (last (line_to tree.old)) node.below }
    requires deep { length tree.old.path + height node.below ≤ most_plies }
    ensures ok { OnOk result (tree.new.tree ≡ changed (change_below (λ f. append f (line_alone node.entry.below)) tree.old.path) tree.old.tree) }
    ensures err { OnErr result (tree.new.tree ≡ tree.old.tree) }
    ensures full { result ≡ Err tree_fault.Full → most_moves < moves_held (change_below (λ f. append f (line_alone node.entry.below)) tree.old.path tree.old.tree.below) }
{
    let _start = tree.position();
    let mut place = tree.path()?;
    let Ok(()) = place.push(tree.child_count()) else {
        return Err(TreeFault::Memory);
    };
    if let Err(fault) = grow(tree, node) {
        take_out(tree, place.as_slice());
        return Err(fault);
    }
    Ok(())
}

// Steps along the main line below a node while the tree has its moves, and returns the last node whose move it has.
fn go_along<'t, 'a, A: Allocator>(
    tree: &mut Tree<'a, A>,
    node: NodeRef<'t, 'a, A>,
) -> NodeRef<'t, 'a, A>
    requires sound { AreSound (last (line_to tree.old)) node.below }
    requires deep { length tree.old.path + height node.below ≤ most_plies }
    ensures same { tree.new.tree ≡ tree.old.tree }
    ensures goes { change_below (line_joined result.below) tree.new.path tree.old.tree.below ≡ change_below (line_joined node.entry.below) tree.old.path tree.old.tree.below }
    ensures ends { line_joined result.below (nodes_here tree.new) ≡ append (nodes_here tree.new) (line_alone result.below) }
    ensures sound { AreSound (last (line_to tree.new)) result.below }
    ensures deep { length tree.new.path + height result.below ≤ most_plies }
{
    let mut node = node;
    loop {
        let Some(next) = node.child(0) else {
            return node;
        };
        let Some(m) = next.move_at() else {
            unreachable!();
        };
        let Some(place) = tree.find(m) else {
            return node;
        };
        let Ok(()) = tree.step(place) else {
            unreachable!();
        };
        node = next;
    }
}

// Steps to the node at that path, which is there.
fn step_back_to<'a, A: Allocator>(tree: &mut Tree<'a, A>, path: &[u32])
    requires there { has path.now tree.old.tree.below ≡ true }
    ensures { tree.new ≡ at_path path.now tree.old }
{
    let Ok(()) = tree.goto(path) else {
        unreachable!();
    };
}

// Joins two trees that begin in one position. Where that can't be, all is as before.
fn join_trees<'a, A: Allocator>(
    tree: &mut Tree<'a, A>,
    other: &Tree<'a, A>,
) -> Result<(), TreeFault>
    requires start { tree.old.tree.start ≡ other.now.tree.start }
    ensures ok { OnOk result (tree.new.tree ≡ changed (line_joined other.now.tree.below) tree.old.tree) }
    ensures err { OnErr result (tree.new ≡ tree.old) }
    ensures full { result ≡ Err tree_fault.Full → most_moves < moves_held (line_joined other.now.tree.below tree.old.tree.below) }
    ensures cursor { OnOk result (tree.new.path ≡ []) }
{
    let _here = tree.position();
    let _start = other.position();
    let path = tree.path()?;
    tree.start();
    let node = go_along(tree, other.root());
    if let Err(fault) = add_line(tree, node) {
        step_back_to(tree, path.as_slice());
        return Err(fault);
    }
    tree.start();
    Ok(())
}

// Whether two trees begin in the same position.
fn begin_alike<'a, A: Allocator>(tree: &Tree<'a, A>, other: &Tree<'a, A>) -> bool
    ensures { MatchBool result (tree.now.tree.start ≡ other.now.tree.start) (tree.now.tree.start ≢ other.now.tree.start) }
{
    let fen = chess_fen::write(tree.position());
    let other_fen = chess_fen::write(other.position());
    is(fen.as_bytes(), other_fen.as_bytes())
}

// The fault of a game whose tree has no room or no memory.
fn join_fault(fault: TreeFault) -> JoinFault
    ensures start { result ≢ Start }
    ensures full { result ≡ Full → fault ≡ tree_fault.Full }
{
    match fault {
        TreeFault::Full => JoinFault::Full,
        _ => JoinFault::Memory,
    }
}

/// Adds the main line of another game to this one (PGN 8.2.5): along the moves that this one has, in its main line or in a variation, and
/// from where they part as a variation after the others, with its annotation numbers and comments. What the game has stays; of the moves
/// that both have, the other's notes are not taken over. The cursor goes to the root.
///
/// # Errors
///
/// `Start` where the games begin in different positions, else `Full` only where the game would have more than 1,000,000 moves, or `Memory`
/// where there is none. All is then as before, the cursor, too.
pub fn join<'a, A: Allocator>(game: &mut Game<'a, A>, other: &Game<'a, A>) -> Result<(), JoinFault>
    ensures ok { OnOk result (game.new.tree.tree ≡ changed (line_joined other.now.tree.tree.below) game.old.tree.tree) }
    ensures err { OnErr result (game.new ≡ game.old) }
    ensures start { game.old.tree.tree.start ≢ other.now.tree.tree.start → result ≡ Err Start }
    ensures same { game.old.tree.tree.start ≡ other.now.tree.tree.start → IfErr result (λ fault. fault ≢ Start) }
    ensures full { result ≡ Err Full → most_moves < moves_held (line_joined other.now.tree.tree.below game.old.tree.tree.below) }
    ensures tags { game.new.tags ≡ game.old.tags }
    ensures result { game.new.result ≡ game.old.result }
    ensures cursor { OnOk result (game.new.tree.path ≡ []) }
{
    if !begin_alike(&game.tree, &other.tree) {
        return Err(JoinFault::Start);
    }
    match join_trees(&mut game.tree, &other.tree) {
        Ok(()) => Ok(()),
        Err(fault) => Err(join_fault(fault)),
    }
}
