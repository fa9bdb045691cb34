//! The tree and the line of a game that is read, begun only once there is a move or a comment.

ghost use Rattle.std.specs.Prelude.{◌≡◌, ◌<◌, ◌≤◌, ◌++◌, ◌∷◌, [], IfErr, IfOk, IsTrue, MatchResult, None, Ok, OnOk, length, slice_get, take, true};
ghost use Rattle.chess_types.specs.board.Position as position;
ghost use Rattle.chess_types.specs.board.Legal.{is_legal};
ghost use Rattle.chess_types.specs.board.Lines.{extended, last};
ghost use Rattle.chess_san.specs.Naming.{san_reading};
ghost use Rattle.chess_tree.specs.Comments.{normalised};
ghost use Rattle.chess_tree.specs.Edits.{parent};
ghost use Rattle.chess_tree.specs.Forest.{count};
ghost use Rattle.chess_tree.specs.GameTree.{added, annotated_here, at_path, commented_here, line_to, nodes_here};
ghost use Rattle.chess_tree.specs.Plays.{IsAnswer, add_answer};
ghost use Rattle.chess_tree.specs.WellFormed.{IsGameTree};
ghost use Rattle.chess_tree.specs.declared.fault.TreeFault.TheVariants.{AtRoot, NoSuch};
ghost use Rattle.chess_pgn.specs.steps.Following.{Follows};
ghost use Rattle.chess_pgn.specs.steps.KnownTexts.{line_at};
ghost use Rattle.chess_pgn.specs.steps.Readings.{said_here};
ghost use Rattle.chess_pgn.specs.steps.Unmoved.{parts_so_far, unmoved};

use crate::plain::{before as text_before, marked};
use crate::texts::{Known, Texts};
use chess_attack::Nothing;
use chess_san::SanFault;
use chess_tree::{AnalysisWith, PlainAnalysis, PlayFault, Tree, TreeFault};
use chess_types::{Move, Position};
use std::alloc::{AllocError, Allocator};
use std::marker::Model;
use std::mem;

/// The plies for which a line has room from the first move on, so that a usual game's grows twice at most.
const ROOM: u32 = 96;

/// An analysis that begins where the first move is read or the first comment is noted: a game without either costs its first position
/// alone. Contracts see the tree and the path to the cursor.
#[derive(Drop)]
pub struct Late<'a, A: Allocator> {
    alloc: &'a A,
    /// Where the game begins.
    start: Position,
    begun: Option<Box<PlainAnalysis<'a, A>, &'a A>>,
    /// The texts of the moves so far, and which of them is the cursor's; `None` where that isn't known.
    texts: Texts<'a, A>,
    at: Option<usize>,
}

impl<'a, A: Allocator> Model for Late<'a, A> {
    ghost use Rattle.std.specs.Prelude.{◌≤◌};
    ghost use Rattle.chess_tree.specs.GameTree.{TreeParts};
    ghost use Rattle.chess_tree.specs.steps.TreeCode.{coded_tree};
    ghost use Rattle.chess_pgn.specs.steps.Unmoved.{parts_so_far};

    ghost Value = { TreeParts };

    ghost coded = { coded_tree };

    ghost view = { λ l. parts_so_far l.start l.begun };

    ghost use Rattle.chess_pgn.specs.steps.Following.{Follows};

    ghost invariant = { λ l. (l.start.clock ≤ 99999) × (l.start.number ≤ 99999) × Follows l.at l.texts (parts_so_far l.start l.begun) };
}

// An analysis without a move. Apart from `begun`, whose frame is then small.
fn begin<'a, A: Allocator>(
    alloc: &'a A,
    start: &Position,
) -> Result<Box<PlainAnalysis<'a, A>, &'a A>, AllocError>
    requires clock { start.now.clock ≤ 99999 }
    requires number { start.now.number ≤ 99999 }
    ensures { IfOk result (λ analysis. analysis.value ≡ unmoved start.now) }
{
    let Ok(start) = start.clone() else {
        unreachable!();
    };
    let Ok(mut analysis) = AnalysisWith::with(alloc, start, Nothing) else {
        return Err(AllocError);
    };
    analysis.reserve(ROOM);
    match Box::new(alloc, analysis) {
        Ok(analysis) => Ok(analysis),
        Err(_) => Err(AllocError),
    }
}

// The analysis; one begins here unless it has before.
fn begun<'a, A: Allocator>(
    alloc: &'a A,
    start: &Position,
    held: Option<Box<PlainAnalysis<'a, A>, &'a A>>,
) -> Result<Box<PlainAnalysis<'a, A>, &'a A>, AllocError>
    requires clock { start.now.clock ≤ 99999 }
    requires number { start.now.number ≤ 99999 }
    ensures ok { IfOk result (λ analysis. analysis.value ≡ parts_so_far start.now held.entry) }
    ensures none { IfErr result (λ _. held.entry ≡ None) }
{
    if let Some(analysis) = held {
        return Ok(analysis);
    }
    begin(alloc, start)
}

// Sets the comment at the cursor.
fn set_comment<'a, A: Allocator>(
    analysis: &mut PlainAnalysis<'a, A>,
    text: &[u8],
) -> Result<(), AllocError>
    ensures ok { OnOk result (analysis.new ≡ commented_here (normalised text.now) analysis.old) }
    ensures line { line_to analysis.new ≡ line_to analysis.old }
{
    match analysis.set_comment(text) {
        Ok(()) => Ok(()),
        Err(_) => Err(AllocError),
    }
}

// Adds a comment after the one at the cursor.
fn say<'a, A: Allocator>(
    alloc: &'a A,
    analysis: &mut PlainAnalysis<'a, A>,
    text: &[u8],
) -> Result<(), AllocError>
    ensures said { OnOk result (analysis.new ≡ said_here (normalised text.now) analysis.old) }
    ensures line { line_to analysis.new ≡ line_to analysis.old }
{
    let said = analysis.tree().notes().comment;
    if said.is_empty() {
        return set_comment(analysis, text);
    }
    let mut both = Vec::new(alloc);
    both.extend_from_slice(said)?;
    both.push(b' ')?;
    both.extend_from_slice(text)?;
    set_comment(analysis, both.as_slice())
}

// Adds the legal move that a text names, and its text after that of the one at `before`. Returns the analysis's answer, and which text it is.
fn add_known<'a, A: Allocator>(
    analysis: &mut PlainAnalysis<'a, A>,
    texts: &mut Texts<'a, A>,
    before: usize,
    m: Move,
    read: &[u8],
) -> (Result<(), PlayFault>, Option<usize>)
    requires legal { IsTrue (is_legal (last (line_to analysis.old)) m) }
    requires read { san_reading (last (line_to analysis.old)) read.now ≡ Ok m }
    requires follows { line_to analysis.old ≡ line_at texts.old before }
    requires within { before ≤ length texts.old }
    ensures answer { IsAnswer (add_answer analysis.old m) result.0 }
    ensures ok { OnOk result.0 (analysis.new ≡ added m analysis.old) }
    ensures line { OnOk result.0 (line_to analysis.new ≡ extended (line_to analysis.old) m) }
    ensures follows { Follows result.1 texts.new analysis.new }
{
    let setup = analysis.live().position();
    let (side, number) = (setup.side, setup.number);
    let (text, whole) = text_before(analysis, m, read);
    if let Err(fault) = analysis.add_legal(m) {
        return (Err(fault), None);
    }
    let text = marked(analysis, text, whole);
    let known = Known {
        played: m,
        text,
        side,
        number,
        before,
    };
    (Ok(()), texts.add(known).ok())
}

// Steps to the child at that place, whose text is that known one, if it is after the one at `before`. Returns the analysis's answer, and
// which text it is.
fn step_known<'a, A: Allocator>(
    analysis: &mut PlainAnalysis<'a, A>,
    texts: &Texts<'a, A>,
    before: Option<usize>,
    place: u32,
    known: usize,
) -> (Result<(), TreeFault>, Option<usize>)
    requires follows { Follows before texts.now analysis.old }
    ensures ok { OnOk result.0 (analysis.new ≡ at_path (analysis.old.path ++ place ∷ []) analysis.old) }
    ensures no_such { MatchResult result.0 (λ _. place < count (nodes_here analysis.old)) (λ fault. (fault ≡ NoSuch) × (count (nodes_here analysis.old) ≤ place)) }
    ensures follows { Follows result.1 texts.now analysis.new }
{
    let depth = analysis.tree().depth();
    if let Err(fault) = analysis.step(place) {
        return (Err(fault), None);
    }
    let Some(before) = before else {
        return (Ok(()), None);
    };
    let Some(played) = analysis.played(depth) else {
        return (Ok(()), None);
    };
    if texts.find(known, before, played).is_none() {
        return (Ok(()), None);
    }
    (Ok(()), Some(known))
}

impl<'a, A: Allocator> Late<'a, A> {
    /// No move, from that position. Takes no memory.
    pub fn new(alloc: &'a A, start: Position, wanted: bool) -> Late<'a, A>
        requires clock { start.clock ≤ 99999 }
        requires number { start.number ≤ 99999 }
        requires usual { start ≡ position.start }
        ensures { result ≡ unmoved start }
    {
        Late {
            alloc,
            start,
            begun: None,
            texts: Texts::new(alloc),
            at: if wanted { Some(0) } else { None },
        }
    }

    /// No move, from another position. Takes no memory.
    pub fn begin_in(&mut self, start: Position)
        requires clock { start.clock ≤ 99999 }
        requires number { start.number ≤ 99999 }
        ensures { self.new ≡ unmoved start }
    {
        self.start = start;
        self.begun = None;
        self.at = None;
    }

    /// The legal move at the cursor that a text names.
    pub fn read_move(&mut self, text: &[u8]) -> Result<Result<Move, SanFault>, AllocError>
        ensures value { IfOk result (λ found. found ≡ san_reading (last (line_to self.old)) text.now) }
        ensures legal { IfOk result (λ found. IfOk found (λ m. is_legal (last (line_to self.old)) m ≡ true)) }
        ensures as_before { self.new ≡ self.old }
    {
        let mut analysis = begun(self.alloc, &self.start, self.begun.take())?;
        let found = analysis.read_move(text);
        self.begun = Some(analysis);
        Ok(found)
    }

    /// Adds the legal move at the cursor that a text names, and steps into it.
    pub fn add_legal(&mut self, m: Move, read: &[u8]) -> Result<(), PlayFault>
        requires legal { IsTrue (is_legal (last (line_to self.old)) m) }
        requires read { san_reading (last (line_to self.old)) read.now ≡ Ok m }
        ensures answer { IsAnswer (add_answer self.old m) result }
        ensures ok { OnOk result (self.new ≡ added m self.old) }
        ensures line { OnOk result (line_to self.new ≡ extended (line_to self.old) m) }
    {
        let Ok(mut analysis) = begun(self.alloc, &self.start, self.begun.take()) else {
            return Err(PlayFault::Memory);
        };
        let (added, at) = match self.at {
            Some(before) => add_known(&mut analysis, &mut self.texts, before, m, read),
            None => (analysis.add_legal(m), None),
        };
        self.at = at;
        self.begun = Some(analysis);
        added
    }

    /// Which of the known texts is that of the cursor's move, if it is known; 0 where the game begins.
    pub fn known(&self) -> usize {
        self.at.unwrap_or(0)
    }

    /// The texts of the moves, as far as they are known. They are forgotten.
    pub fn take_texts(&mut self) -> Texts<'a, A>
        ensures { self.new ≡ self.old }
    {
        self.at = None;
        mem::replace(&mut self.texts, Texts::new(self.alloc))
    }

    /// Adds a comment after the one at the cursor.
    pub fn say(&mut self, text: &[u8]) -> Result<(), AllocError>
        ensures said { OnOk result (self.new ≡ said_here (normalised text.now) self.old) }
        ensures line { OnOk result (line_to self.new ≡ line_to self.old) }
    {
        if text.is_empty() {
            return Ok(());
        }
        let mut analysis = begun(self.alloc, &self.start, self.begun.take())?;
        let said = say(self.alloc, &mut analysis, text);
        self.begun = Some(analysis);
        said
    }

    /// Appends an annotation number to those at the cursor.
    pub fn add_nag(&mut self, nag: u8) -> Result<(), TreeFault>
        ensures { OnOk result (self.new ≡ annotated_here nag self.old) }
    {
        match &mut self.begun {
            Some(analysis) => analysis.add_nag(nag),
            None => Err(TreeFault::AtRoot),
        }
    }

    /// How many plies the cursor is below the root.
    pub fn depth(&self) -> u32
        ensures { result ≡ length self.now.path }
    {
        match &self.begun {
            Some(analysis) => analysis.tree().depth(),
            None => 0,
        }
    }

    /// The child number taken at that ply of the path.
    pub fn path_at(&self, ply: u32) -> Option<u32>
        ensures { result ≡ slice_get self.now.path ply }
    {
        match &self.begun {
            Some(analysis) => analysis.tree().path_at(ply),
            None => None,
        }
    }

    /// Steps to the parent. `AtRoot` at the root.
    pub fn back(&mut self) -> Result<(), TreeFault>
        ensures ok { OnOk result (self.new ≡ at_path (parent self.old.path) self.old) }
        ensures at_root { MatchResult result (λ _. 0 < length self.old.path) (λ fault. (fault ≡ AtRoot) × (self.old.path ≡ [])) }
    {
        let Some(analysis) = &mut self.begun else {
            return Err(TreeFault::AtRoot);
        };
        analysis.back()?;
        if let Some(place) = self.at {
            self.at = Some(self.texts.before(place));
        }
        Ok(())
    }

    /// Steps back until the cursor is at most `depth` plies deep.
    pub fn back_to(&mut self, depth: u32)
        ensures { self.new ≡ at_path (take depth self.old.path) self.old }
    {
        while self.depth() > depth {
            let _stepped = self.back();
        }
    }

    /// Steps to the child at that place, from 0, whose text is that known one, if it is known. `NoSuch` where there is none.
    pub fn step(&mut self, place: u32, known: usize) -> Result<(), TreeFault>
        ensures ok { OnOk result (self.new ≡ at_path (self.old.path ++ place ∷ []) self.old) }
        ensures no_such { MatchResult result (λ _. place < count (nodes_here self.old)) (λ fault. (fault ≡ NoSuch) × (count (nodes_here self.old) ≤ place)) }
    {
        let Some(analysis) = &mut self.begun else {
            return Err(TreeFault::NoSuch);
        };
        let (stepped, at) = step_known(analysis, &self.texts, self.at, place, known);
        self.at = at;
        stepped
    }

    /// The tree with its cursor.
    pub fn into_tree(self) -> Result<Tree<'a, A>, AllocError>
        ensures tree { IfOk result (λ tree. tree ≡ self.entry) }
        ensures game { IfOk result (λ tree. IsGameTree tree) }
    {
        let Late {
            alloc,
            start,
            begun,
            texts: _,
            at: _,
        } = self;
        if let Some(analysis) = begun {
            return Ok(Box::into_inner(analysis).into_tree());
        }
        let Ok(tree) = Tree::new(alloc, start) else {
            return Err(AllocError);
        };
        let _ = tree.position();
        Ok(tree)
    }
}
