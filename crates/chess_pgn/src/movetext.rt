//! The movetext of a game, written node by node with notes and variations (PGN 8.2).

ghost use Rattle.std.specs.Prelude.{◌≡◌, ◌++◌, ◌∷◌, [], Some, OnOk, IfOk, IfSome, IsTrue, is_none, length, ◌<◌, not, ◌||◌, true, false, codes};
ghost use Rattle.chess_types.specs.board.Position as position;
ghost use Rattle.chess_types.specs.board.Legal.{is_legal};
ghost use Rattle.chess_types.specs.board.Lines.{extended, last};
ghost use Rattle.chess_draws.specs.Pushes.{most_plies};
ghost use Rattle.chess_tree.specs.Forest.{child};
ghost use Rattle.chess_items.specs.Markers.{outcome_text};
ghost use Rattle.chess_pgn.specs.Written.{comment_text, is_noted, movetext, moves_text, nags_text, node_text};
ghost use Rattle.chess_pgn.specs.steps.Adding.{Adds};

use crate::lines::Lines;
use crate::speller::{Halt, Speller};
use crate::texts::Texts;
use chess_attack::Nothing;
use chess_draws::LineWith;
use chess_items::Outcome;
use chess_tree::{Children, Notes, Tree};
use chess_types::Move;
use itoa::Buffer;
use std::alloc::{AllocError, Allocator};

// Annotation numbers.
fn push_nags<'a, A: Allocator>(lines: &mut Lines<'a, A>, nags: &[u8]) -> Result<(), AllocError>
    ensures { OnOk result (Adds lines.old lines.new (nags_text nags.now)) }
{
    for nag in nags {
        lines.push(b" $")?;
        lines.push(Buffer::new().format(*nag).as_bytes())?;
    }
    Ok(())
}

// A comment, unless it is empty.
fn push_comment<'a, A: Allocator>(
    lines: &mut Lines<'a, A>,
    comment: &[u8],
) -> Result<(), AllocError>
    ensures { OnOk result (Adds lines.old lines.new (comment_text comment.now)) }
{
    if comment.is_empty() {
        return Ok(());
    }
    lines.push(b" {")?;
    lines.push(comment)?;
    lines.push(b"}")
}

// Whether a node has notes.
fn is_noted(notes: &Notes<'_>) -> bool
    ensures { result ≡ is_noted notes.now.nags.now notes.now.comment.now }
{
    !notes.nags.is_empty() || !notes.comment.is_empty()
}

// Whether something is between a node's move and the next.
fn is_separated<A: Allocator>(notes: &Notes<'_>, others: &Children<'_, '_, A>) -> bool
    ensures { result ≡ (is_noted notes.now.nags.now notes.now.comment.now || not (is_none (child 0 others.now))) }
{
    is_noted(notes) || !others.is_empty()
}

// Goes on by the move of a node, and writes it with its number where it is due, and its notes.
fn push_move<'t, 'a, A: Allocator>(
    lines: &mut Lines<'a, A>,
    speller: &mut Speller<'t, 'a, A>,
    opening: &[u8],
    due: bool,
    node: u32,
    played: Move,
    notes: &Notes<'_>,
) -> Result<(), Halt>
    requires legal { IsTrue (is_legal (last speller.old) played) }
    requires few { length speller.old.moves < most_plies }
    ensures adds { OnOk result (Adds lines.old lines.new (node_text opening.now due (last speller.old) played notes.now.nags.now notes.now.comment.now)) }
    ensures line { OnOk result (speller.new ≡ extended speller.old played) }
{
    speller.write(lines, opening, due, node as usize, played)?;
    push_nags(lines, notes.nags)?;
    push_comment(lines, notes.comment)?;
    Ok(())
}

/// What is still to be written.
#[derive(Drop)]
enum Task<'t, 'a, A: Allocator> {
    /// Nodes side by side, as a line, whose first number is due or not.
    Moves(Children<'t, 'a, A>, bool),
    /// The same, as variations.
    Variations(Children<'t, 'a, A>),
    /// The nodes below that of a move, by its number, which is still to be made.
    Below(Move, u32, Children<'t, 'a, A>, bool),
    /// The end of a variation.
    Close,
    /// A move taken back.
    Back,
}

/// Writes the moves of a tree. What is still to be written is in `tasks`, the next one last.
#[derive(Drop)]
struct Writer<'t, 'a, A: Allocator> {
    lines: Lines<'a, A>,
    /// The line after which the next task goes on.
    speller: Speller<'t, 'a, A>,
    tasks: Vec<Task<'t, 'a, A>, &'a A>,
}

impl<'t, 'a, A: Allocator> Writer<'t, 'a, A> {
    ghost use Rattle.chess_pgn.specs.steps.Tasks as tasks;
    ghost use Rattle.chess_pgn.specs.steps.Tasks.{AreTasks, tasks_text};
    ghost use Rattle.chess_pgn.specs.steps.TaskCode.{WritesSome, returning, todo, todos};

    // A task more, which is the next.
    fn add(&mut self, task: Task<'t, 'a, A>) -> Result<(), AllocError>
        ensures lines { self.new.lines ≡ self.old.lines }
        ensures line { self.new.speller ≡ self.old.speller }
        ensures tasks { OnOk result (self.new.tasks.items ≡ self.old.tasks.items ++ task.entry ∷ []) }
    {
        self.tasks.push(task)?;
        Ok(())
    }

    fn close(&mut self) -> Result<(), AllocError>
        requires { AreTasks self.old.speller (tasks.Close ∷ todos self.old.tasks.items) }
        ensures { OnOk result (WritesSome self.old.lines self.new.lines self.old.speller self.new.speller (tasks.Close ∷ todos self.old.tasks.items) (todos self.new.tasks.items)) }
    {
        self.lines.push(b")")
    }

    fn back(&mut self)
        requires { AreTasks self.old.speller (tasks.Back ∷ todos self.old.tasks.items) }
        ensures { WritesSome self.old.lines self.new.lines self.old.speller self.new.speller (tasks.Back ∷ todos self.old.tasks.items) (todos self.new.tasks.items) }
    {
        self.speller.back();
    }

    // The nodes one after another, up to the first that has variations, and the tasks of these and of what is below it.
    fn moves(&mut self, nodes: Children<'t, 'a, A>, due: bool) -> Result<(), Halt>
        requires { AreTasks self.old.speller (tasks.Moves nodes due ∷ todos self.old.tasks.items) }
        ensures { OnOk result (WritesSome self.old.lines self.new.lines self.old.speller self.new.speller (tasks.Moves nodes.entry due ∷ todos self.old.tasks.items) (todos self.new.tasks.items)) }
    {
        let mut others = nodes;
        let mut due = due;
        while let Some(node) = others.next() {
            let Some(played) = node.move_at() else {
                unreachable!();
            };
            let notes = node.notes();
            let number = node.number();
            push_move(
                &mut self.lines,
                &mut self.speller,
                b" ",
                due,
                number,
                played,
                &notes,
            )?;
            due = is_separated(&notes, &others);
            if !others.is_empty() {
                self.speller.back();
                self.add(Task::Below(played, number, node.below(), due))?;
                self.add(Task::Variations(others))?;
                return Ok(());
            }
            self.leave_back()?;
            others = node.below();
        }
        Ok(())
    }

    // The first node as a variation, and the tasks of what is below it, of its end, and of the others.
    fn variations(&mut self, nodes: Children<'t, 'a, A>) -> Result<(), Halt>
        requires { AreTasks self.old.speller (tasks.Variations nodes ∷ todos self.old.tasks.items) }
        ensures { OnOk result (WritesSome self.old.lines self.new.lines self.old.speller self.new.speller (tasks.Variations nodes.entry ∷ todos self.old.tasks.items) (todos self.new.tasks.items)) }
    {
        let mut others = nodes;
        let Some(node) = others.next() else {
            return Ok(());
        };
        let Some(played) = node.move_at() else {
            unreachable!();
        };
        let notes = node.notes();
        push_move(
            &mut self.lines,
            &mut self.speller,
            b" (",
            true,
            node.number(),
            played,
            &notes,
        )?;
        let due_below = is_noted(&notes);
        self.add(Task::Variations(others))?;
        self.add(Task::Close)?;
        self.go_on(node.below(), due_below)?;
        Ok(())
    }

    // After a move that is made, leaves the task of taking it back; none where no task is after it.
    fn leave_back(&mut self) -> Result<(), AllocError>
        ensures lines { self.new.lines ≡ self.old.lines }
        ensures line { self.new.speller ≡ self.old.speller }
        ensures tasks { OnOk result (todos self.new.tasks.items ≡ returning self.old.tasks.items) }
    {
        if !self.tasks.is_empty() {
            self.add(Task::Back)?;
        }
        Ok(())
    }

    // The same, and the task of what is below the move before it.
    fn go_on(&mut self, nodes: Children<'t, 'a, A>, due: bool) -> Result<(), AllocError>
        ensures lines { self.new.lines ≡ self.old.lines }
        ensures line { self.new.speller ≡ self.old.speller }
        ensures tasks { OnOk result (todos self.new.tasks.items ≡ tasks.Moves nodes.entry due ∷ returning self.old.tasks.items) }
    {
        self.leave_back()?;
        self.add(Task::Moves(nodes, due))
    }

    // Makes a move whose notes and variations are written, and leaves the tasks of what is below it and of taking it back.
    fn below(
        &mut self,
        played: Move,
        node: u32,
        nodes: Children<'t, 'a, A>,
        due: bool,
    ) -> Result<(), Halt>
        requires { AreTasks self.old.speller (tasks.Below played nodes due ∷ todos self.old.tasks.items) }
        ensures { OnOk result (WritesSome self.old.lines self.new.lines self.old.speller self.new.speller (tasks.Below played nodes.entry due ∷ todos self.old.tasks.items) (todos self.new.tasks.items)) }
    {
        self.speller.go_on(node as usize, played)?;
        self.go_on(nodes, due)?;
        Ok(())
    }

    fn step(&mut self, task: Task<'t, 'a, A>) -> Result<(), Halt>
        requires { AreTasks self.old.speller (todo task ∷ todos self.old.tasks.items) }
        ensures { OnOk result (WritesSome self.old.lines self.new.lines self.old.speller self.new.speller (todo task.entry ∷ todos self.old.tasks.items) (todos self.new.tasks.items)) }
    {
        match task {
            Task::Moves(nodes, due) => self.moves(nodes, due),
            Task::Variations(nodes) => self.variations(nodes),
            Task::Below(played, node, nodes, due) => self.below(played, node, nodes, due),
            Task::Close => {
                self.close()?;
                Ok(())
            }
            Task::Back => {
                self.back();
                Ok(())
            }
        }
    }

    // Does all the tasks.
    fn finish(&mut self) -> Result<(), Halt>
        requires { AreTasks self.old.speller (todos self.old.tasks.items) }
        ensures { OnOk result (Adds self.old.lines self.new.lines (tasks_text self.old.speller (todos self.old.tasks.items))) }
    {
        while let Some(task) = self.tasks.pop() {
            self.step(task)?;
        }
        Ok(())
    }
}

// The end of a movetext: how the game ended.
fn push_outcome<'a, A: Allocator>(
    lines: &mut Lines<'a, A>,
    outcome: Outcome,
) -> Result<(), AllocError>
    ensures { OnOk result (Adds lines.old lines.new (codes " " ++ outcome_text outcome)) }
{
    lines.push(b" ")?;
    lines.push(outcome.marker().as_bytes())
}

// The moves of a tree, of which a speller finds the texts from the beginning.
fn push_moves<'t, 'a, A: Allocator>(
    lines: Lines<'a, A>,
    alloc: &'a A,
    tree: &'t Tree<'a, A>,
    speller: Speller<'t, 'a, A>,
) -> Result<Lines<'a, A>, Halt>
    requires start { speller ≡ record { start = tree.now.tree.start; moves = [] } }
    ensures { IfOk result (λ after. Adds lines.entry after (moves_text false true tree.now.tree.start tree.now.tree.below)) }
{
    let _position = tree.position();
    let mut writer = Writer {
        lines,
        speller,
        tasks: Vec::new(alloc),
    };
    writer.add(Task::Moves(tree.root().below(), true))?;
    writer.finish()?;
    let Writer { lines, .. } = writer;
    Ok(lines)
}

// The moves of a tree, which are made on a line.
fn push_made<'a, A: Allocator>(
    lines: Lines<'a, A>,
    alloc: &'a A,
    tree: &Tree<'a, A>,
) -> Result<Lines<'a, A>, Halt>
    ensures { IfOk result (λ after. Adds lines.entry after (moves_text false true tree.now.tree.start tree.now.tree.below)) }
{
    let Ok(start) = tree.position().clone() else {
        unreachable!();
    };
    let speller = Speller::making(LineWith::with(alloc, start, Nothing));
    push_moves(lines, alloc, tree, speller)
}

// The moves of a tree, if it has any. Those of which the texts are known aren't made.
fn push_any_moves<'a, A: Allocator>(
    lines: Lines<'a, A>,
    alloc: &'a A,
    tree: &Tree<'a, A>,
    texts: Option<&Texts<'a, A>>,
) -> Result<Lines<'a, A>, Halt>
    requires usual { IfSome texts (λ _. tree.now.tree.start ≡ position.start) }
    ensures { IfOk result (λ after. Adds lines.entry after (moves_text false true tree.now.tree.start tree.now.tree.below)) }
{
    if tree.root().children() == 0 {
        return Ok(lines);
    }
    match texts {
        Some(texts) => push_moves(lines, alloc, tree, Speller::knowing(texts)),
        None => push_made(lines, alloc, tree),
    }
}

/// The movetext of a game, by the texts of its moves if they are given; they are of a game that begins as usual.
pub fn push_movetext<'a, A: Allocator>(
    lines: Lines<'a, A>,
    alloc: &'a A,
    tree: &Tree<'a, A>,
    outcome: Outcome,
    texts: Option<&Texts<'a, A>>,
) -> Result<Lines<'a, A>, Halt>
    requires usual { IfSome texts (λ _. tree.now.tree.start ≡ position.start) }
    ensures { IfOk result (λ after. Adds lines.entry after (movetext tree.now.tree outcome)) }
{
    let mut lines = lines;
    push_comment(&mut lines, tree.root().notes().comment)?;
    let mut lines = push_any_moves(lines, alloc, tree, texts)?;
    push_outcome(&mut lines, outcome)?;
    Ok(lines)
}
