//! A walk over a tree's nodes, in the order of a game's text.

ghost use Rattle.std.specs.Prelude.{◌≡◌, ◌+◌, ◌<◌, ◌≤◌, ◌∷◌, ◌++◌, [], true, false, length, vec_len, vec_capacity, is_none, if◌then◌else◌, IfOk, None};
ghost use Rattle.std.specs.Iterator.{at_most};
ghost use Rattle.chess_draws.specs.Pushes.{most_plies};
ghost use Rattle.chess_tree.specs.Forest.{child, height};
ghost use Rattle.chess_walk.specs.Order.{GivesNext, of_main, visits};
ghost use Rattle.chess_walk.specs.declared.walk.Kind.TheVariants as kind;

use chess_tree::{Children, NodeRef, Tree};
use chess_types::Move;
use std::alloc::{AllocError, Allocator};
use std::marker::Model;

/// A node, as a walk comes to it.
#[derive(Drop)]
pub struct Visit<'t, 'a, A: Allocator> {
    /// How many moves lead to it from where the walk began, its own included, 1 to 20,000.
    pub depth: u32,
    /// In how many variations it is, one within another; 0 in the main line.
    pub level: u32,
    /// Whether a variation begins with it.
    pub begins: bool,
    /// Where it goes on after variations of the move before it, that move.
    pub again: Option<Move>,
    /// The node: its move, its notes and what follows it.
    pub node: NodeRef<'t, 'a, A>,
}

/// How nodes side by side are visited.
#[derive(Clone, Copy)]
enum Kind {
    /// The first, and what follows it.
    Main,
    /// The first, the others as variations, and what follows the first.
    Line,
    /// Each as a variation.
    Variations,
}

/// Nodes side by side that are still to be visited.
#[derive(Drop)]
struct Todo<'t, 'a, A: Allocator> {
    kind: Kind,
    depth: u32,
    level: u32,
    again: Option<Move>,
    nodes: Children<'t, 'a, A>,
}

/// A walk over the nodes of a tree. Contracts see the visits that are still to come. Where there is no memory to go on with, it gives
/// `AllocError` once and ends.
#[derive(Drop)]
pub struct Walk<'t, 'a, A: Allocator> {
    /// What is still to be visited; the last comes first.
    todo: Vec<Todo<'t, 'a, A>, &'a A>,
}

impl<'t, 'a, A: Allocator> Model for Walk<'t, 'a, A> {
    ghost use Rattle.std.specs.Prelude.{List};
    ghost use Rattle.std.specs.Coded.{coded_list};
    ghost use Rattle.chess_walk.specs.Order.{Visit};
    ghost use Rattle.chess_walk.specs.steps.Code.{coded_visit};

    ghost Value = { List Visit };

    ghost coded = { coded_list coded_visit };

    ghost use Rattle.chess_walk.specs.steps.Todos.{all_left, AreFit};

    ghost view = { λ w. all_left w.todo.items };

    ghost invariant = { λ w. AreFit w.todo.items };
}

// The move of a node, where others are beside it.
fn resumed<A: Allocator>(node: &NodeRef<'_, '_, A>, others: &Children<'_, '_, A>) -> Option<Move>
    ensures { result ≡ (if is_none (child 0 others.now) then None else node.now.move) }
{
    if others.is_empty() {
        return None;
    }
    node.move_at()
}

impl<'t, 'a, A: Allocator> Todo<'t, 'a, A> {
    ghost use Rattle.chess_walk.specs.steps.Todos.{AreFit, Fits, all_left, is_some_node, left_of, seen};

    // Nodes side by side, by what is known of them.
    fn of(
        kind: Kind,
        depth: u32,
        level: u32,
        again: Option<Move>,
        nodes: Children<'t, 'a, A>,
    ) -> Todo<'t, 'a, A>
        ensures { result ≡ record { kind = kind; depth = depth; level = level; again = again; nodes = nodes.entry } }
    {
        Todo {
            kind,
            depth,
            level,
            again,
            nodes,
        }
    }

    // Keeps nodes for later, unless there is none.
    fn keep(self, todo: &mut Vec<Todo<'t, 'a, A>, &'a A>)
        requires room { vec_len todo.old < vec_capacity todo.old }
        requires fits { is_some_node self.nodes ≡ true → Fits self }
        requires fit { AreFit todo.old.items }
        ensures left { all_left todo.new.items ≡ left_of self.entry ++ all_left todo.old.items }
        ensures fit { AreFit todo.new.items }
        ensures len { vec_len todo.new ≤ vec_len todo.old + 1 }
        ensures capacity { vec_capacity todo.new ≡ vec_capacity todo.old }
    {
        if self.nodes.is_empty() {
            return;
        }
        todo.push_reserved(self);
    }

    // The first; the others and what follows are kept.
    fn visit(self, todo: &mut Vec<Todo<'t, 'a, A>, &'a A>) -> Visit<'t, 'a, A>
        requires room { vec_len todo.old + 1 < vec_capacity todo.old }
        requires fits { Fits self }
        requires fit { AreFit todo.old.items }
        ensures left { left_of self.entry ++ all_left todo.old.items ≡ seen result ∷ all_left todo.new.items }
        ensures fit { AreFit todo.new.items }
    {
        let Todo {
            kind,
            depth,
            level,
            again,
            mut nodes,
        } = self;
        let Some(node) = nodes.next() else {
            unreachable!();
        };
        let (level, begins, again) = match kind {
            Kind::Main => {
                Todo::of(Kind::Main, depth + 1, 0, None, node.below()).keep(todo);
                (0, false, None)
            }
            Kind::Line => {
                let goes_on = resumed(&node, &nodes);
                Todo::of(Kind::Line, depth + 1, level, goes_on, node.below()).keep(todo);
                Todo::of(Kind::Variations, depth, level + 1, None, nodes).keep(todo);
                (level, false, again)
            }
            Kind::Variations => {
                Todo::of(Kind::Variations, depth, level, None, nodes).keep(todo);
                Todo::of(Kind::Line, depth + 1, level, None, node.below()).keep(todo);
                (level, true, None)
            }
        };
        Visit {
            depth,
            level,
            begins,
            again,
            node,
        }
    }
}

impl<'t, 'a, A: Allocator> Walk<'t, 'a, A> {
    ghost use Rattle.chess_walk.specs.steps.Todos.{least_apart, left_as};

    // A walk over nodes side by side, to which depths count from the one above them.
    fn over(
        alloc: &'a A,
        kind: Kind,
        nodes: Children<'t, 'a, A>,
    ) -> Result<Walk<'t, 'a, A>, AllocError>
        requires level { least_apart kind ≤ 1 }
        requires height { height nodes ≤ most_plies }
        ensures { IfOk result (λ walk. walk ≡ left_as kind 1 0 None nodes.entry) }
    {
        let mut todo = Vec::with_capacity(alloc, 1)?;
        Todo::of(kind, 1, 0, None, nodes).keep(&mut todo);
        Ok(Walk { todo })
    }

    /// All nodes of a tree but the root. Want of memory is answered.
    pub fn of(alloc: &'a A, tree: &'t Tree<'a, A>) -> Result<Walk<'t, 'a, A>, AllocError>
        ensures { IfOk result (λ walk. walk ≡ visits false 1 0 None tree.now.tree.below) }
    {
        let _ = tree.position();
        Walk::over(alloc, Kind::Line, tree.root().below())
    }

    /// All nodes below a node, to which depths count from it. Want of memory is answered.
    pub fn below(alloc: &'a A, node: &NodeRef<'t, 'a, A>) -> Result<Walk<'t, 'a, A>, AllocError>
        requires { height node.now.below ≤ most_plies }
        ensures { IfOk result (λ walk. walk ≡ visits false 1 0 None node.now.below) }
    {
        Walk::over(alloc, Kind::Line, node.below())
    }

    /// The nodes of a tree's main line but the root. Want of memory is answered.
    pub fn main_line(alloc: &'a A, tree: &'t Tree<'a, A>) -> Result<Walk<'t, 'a, A>, AllocError>
        ensures { IfOk result (λ walk. walk ≡ of_main 1 tree.now.tree.below) }
    {
        let _ = tree.position();
        Walk::over(alloc, Kind::Main, tree.root().below())
    }

    /// Ends the walk: no node is given any more.
    pub fn stop(&mut self)
        ensures { self.new ≡ [] }
    {
        self.todo.clear();
    }
}

impl<'t, 'a, A: Allocator> Iterator for Walk<'t, 'a, A> {
    ghost use Rattle.chess_walk.specs.steps.Todos.{seen};

    type Item = Result<Visit<'t, 'a, A>, AllocError>;

    ghost next_gives = { GivesNext seen };

    ghost remaining = { λ walk. at_most (length walk) };

    /// The next node in order; `None` at the end.
    fn next(&mut self) -> Option<Result<Visit<'t, 'a, A>, AllocError>> {
        if self.todo.is_empty() {
            return None;
        }
        if self.todo.reserve(1).is_err() {
            self.todo.clear();
            return Some(Err(AllocError));
        }
        let todo = self.todo.pop()?;
        Some(Ok(todo.visit(&mut self.todo)))
    }
}
