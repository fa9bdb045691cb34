//! Movetext read item by item: moves, annotations, comments and variations.

ghost use Rattle.std.specs.Prelude.{◌≡◌, ◌<◌, ◌≤◌, if◌then◌else◌, ◌||◌, not, ◌++◌, ◌∷◌, [], List, ℕ, drop, take, length, map, min, true, Ok, IfErr, IfOk, IsTrue, OnOk};
ghost use Rattle.chess_types.specs.board.Position as position;
ghost use Rattle.chess_types.specs.board.Position.{PositionParts};
ghost use Rattle.chess_types.specs.board.Legal.{is_legal};
ghost use Rattle.chess_types.specs.board.Lines.{extended, last};
ghost use Rattle.chess_items.specs.Items.{without_brace};
ghost use Rattle.chess_san.specs.Naming.{san_reading};
ghost use Rattle.chess_tree.specs.Comments.{normalised};
ghost use Rattle.chess_tree.specs.Forest.{below_at, count};
ghost use Rattle.chess_tree.specs.GameTree.{added, at_path, commented_here, line_to};
ghost use Rattle.chess_tree.specs.WellFormed.{IsGameTree};
ghost use Rattle.chess_pgn.specs.Grammar as grammar;
ghost use Rattle.chess_pgn.specs.steps.Readings.{IsRead, IsLed, IsRoomFault, Stands, fresh, is_nil, said_here};

use crate::reader::late::Late;
use crate::texts::Texts;
use chess_items::{FaultKind, PgnFault, at_place};
use chess_tree::{PlayFault, Tree};
use chess_types::{Move, Position};
use std::alloc::{AllocError, Allocator};

/// The most variations that are open at once.
const DEEPEST: usize = 128;

/// A line that a variation interrupts, after its last move.
#[derive(Clone, Copy)]
struct Interrupted {
    /// How many plies come before that move, its place among its siblings, and which known text is its own, if one is.
    depth: u32,
    place: u32,
    known: usize,
    /// Where its comments begin in `comments`.
    from: usize,
}

/// Reads movetext (PGN 8.2). The cursor is at the last move of the line that is being read; before its first move, where it begins.
#[derive(Drop)]
pub struct Moves<'a, A: Allocator> {
    analysis: Late<'a, A>,
    /// The lines around the one that is being read, the innermost last.
    interrupted: Vec<Interrupted, &'a A>,
    /// Whether that line has a move.
    played: bool,
    /// The comments of its last move from `from` on, each after a space; before that those of the lines around it.
    comments: Vec<u8, &'a A>,
    from: usize,
}

// A comment after a semicolon, as it is written between braces.
fn push_line<'a, A: Allocator>(text: &mut Vec<u8, &'a A>, line: &[u8]) -> Result<(), AllocError>
    ensures { OnOk result (text.new.items ≡ text.old.items ++ map without_brace line.now) }
{
    for b in line {
        text.push(if *b == b'}' { b')' } else { *b })?;
    }
    Ok(())
}

impl<'a, A: Allocator> Moves<'a, A> {
    ghost use Rattle.chess_pgn.specs.steps.Readings.{RefusesElements, StepsOn};

    /// No movetext, from that position. Takes no memory.
    pub fn new(alloc: &'a A, start: Position, wanted: bool) -> Moves<'a, A>
        requires clock { start.clock ≤ 99999 }
        requires number { start.number ≤ 99999 }
        requires usual { start ≡ position.start }
        ensures { Stands result (fresh start []) }
    {
        Moves {
            analysis: Late::new(alloc, start, wanted),
            interrupted: Vec::new(alloc),
            played: false,
            comments: Vec::new(alloc),
            from: 0,
        }
    }

    /// Begins in another position, before any move.
    pub fn begin_in(&mut self, start: Position)
        requires clock { start.clock ≤ 99999 }
        requires number { start.number ≤ 99999 }
        ensures { (first : PositionParts) (lead : List ℕ) → Stands self.old (fresh first lead) → Stands self.new (fresh start lead) }
    {
        self.analysis.begin_in(start);
    }

    /// Whether a variation is open.
    pub fn is_in_variation(&self) -> bool
        ensures { result ≡ not (is_nil self.now.interrupted.items) }
    {
        !self.interrupted.is_empty()
    }

    /// A comment.
    pub fn comment(&mut self, text: &[u8]) -> Result<(), AllocError>
        ensures steps { OnOk result (StepsOn (grammar.Remark (normalised text.now)) self.old self.new) }
        ensures first { OnOk result (IsLed (normalised text.now) self.old self.new) }
    {
        self.comments.push(b' ')?;
        self.comments.extend_from_slice(text)?;
        Ok(())
    }

    /// A comment after a semicolon.
    pub fn line_comment(&mut self, line: &[u8]) -> Result<(), AllocError>
        ensures steps { OnOk result (StepsOn (grammar.Remark (normalised (map without_brace line.now))) self.old self.new) }
        ensures first { OnOk result (IsLed (normalised (map without_brace line.now)) self.old self.new) }
    {
        self.comments.push(b' ')?;
        push_line(&mut self.comments, line)?;
        Ok(())
    }

    // Notes the comments at the cursor.
    fn note(&mut self) -> Result<(), AllocError>
        ensures analysis { OnOk result (self.new.analysis ≡ said_here (normalised (drop (min self.old.from (length self.old.comments.items)) self.old.comments.items)) self.old.analysis) }
        ensures line { OnOk result (line_to self.new.analysis ≡ line_to self.old.analysis) }
        ensures comments { OnOk result (self.new.comments.items ≡ take (min self.old.from (length self.old.comments.items)) self.old.comments.items) }
        ensures from { self.new.from ≡ self.old.from }
        ensures played { self.new.played ≡ self.old.played }
        ensures interrupted { self.new.interrupted ≡ self.old.interrupted }
    {
        let from = self.from.min(self.comments.len());
        self.analysis.say(&self.comments[from..])?;
        self.comments.truncate(from);
        Ok(())
    }

    // The same, where they are due.
    fn note_if(&mut self, due: bool) -> Result<(), AllocError>
        ensures analysis { OnOk result (self.new.analysis ≡ (if due then said_here (normalised (drop (min self.old.from (length self.old.comments.items)) self.old.comments.items)) self.old.analysis else self.old.analysis)) }
        ensures line { OnOk result (line_to self.new.analysis ≡ line_to self.old.analysis) }
        ensures comments { OnOk result (self.new.comments.items ≡ (if due then take (min self.old.from (length self.old.comments.items)) self.old.comments.items else self.old.comments.items)) }
        ensures from { self.new.from ≡ self.old.from }
        ensures played { self.new.played ≡ self.old.played }
        ensures interrupted { self.new.interrupted ≡ self.old.interrupted }
    {
        if !due {
            return Ok(());
        }
        self.note()
    }

    /// An annotation number, which is ignored before any move of its line.
    pub fn nag(&mut self, nag: u8) -> Result<(), AllocError>
        ensures { OnOk result (StepsOn (grammar.Annotation nag) self.old self.new) }
    {
        if !self.played {
            return Ok(());
        }
        match self.analysis.add_nag(nag) {
            Ok(()) => Ok(()),
            Err(_) => Err(AllocError),
        }
    }

    // Adds the legal move at the cursor that a text names.
    fn add(&mut self, at: usize, m: Move, read: &[u8]) -> Result<(), PgnFault>
        requires legal { IsTrue (is_legal (last (line_to self.old.analysis)) m) }
        requires read { san_reading (last (line_to self.old.analysis)) read.now ≡ Ok m }
        ensures analysis { OnOk result (self.new.analysis ≡ added m self.old.analysis) }
        ensures line { OnOk result (line_to self.new.analysis ≡ extended (line_to self.old.analysis) m) }
        ensures comments { OnOk result (self.new.comments ≡ self.old.comments) }
        ensures from { OnOk result (self.new.from ≡ self.old.from) }
        ensures played { OnOk result (self.new.played ≡ true) }
        ensures interrupted { OnOk result (self.new.interrupted ≡ self.old.interrupted) }
        ensures room { IfErr result (λ fault. IsRoomFault fault.kind (is_legal (last (line_to self.old.analysis)) m) self.old.analysis) }
    {
        match self.analysis.add_legal(m, read) {
            Ok(()) => {}
            Err(PlayFault::Memory) => return Err(AllocError.into()),
            Err(_) => return Err(at_place(at, FaultKind::TooLarge)),
        }
        self.played = true;
        Ok(())
    }

    // Whether the comments are the cursor's: after a move, and before the first move of the game.
    fn is_after_move(&self) -> bool
        ensures { result ≡ (self.now.played || is_nil self.now.interrupted.items) }
    {
        self.played || self.interrupted.is_empty()
    }

    /// A move's text.
    pub fn word(&mut self, at: usize, text: &[u8]) -> Result<(), PgnFault>
        ensures steps { OnOk result (StepsOn (grammar.Text text.now) self.old self.new) }
        ensures refuses { IfErr result (λ fault. RefusesElements (grammar.Text text.now ∷ []) fault.kind self.old) }
    {
        let Ok(m) = self.analysis.read_move(text)? else {
            return Err(at_place(at, FaultKind::Move));
        };
        self.note_if(self.is_after_move())?;
        if let Err(fault) = self.add(at, m, text) {
            return Err(fault);
        }
        Ok(())
    }

    /// The begin of a variation, which replaces the last move.
    pub fn open(&mut self, at: usize) -> Result<(), PgnFault>
        ensures steps { OnOk result (StepsOn grammar.Open self.old self.new) }
        ensures refuses { IfErr result (λ fault. RefusesElements (grammar.Open ∷ []) fault.kind self.old) }
    {
        if !self.played {
            return Err(at_place(at, FaultKind::Variation));
        }
        if self.interrupted.len() >= DEEPEST {
            return Err(at_place(at, FaultKind::Deep));
        }
        let depth = self.analysis.depth().saturating_sub(1);
        let place = self.analysis.path_at(depth).unwrap_or(0);
        self.interrupted.push(Interrupted {
            depth,
            place,
            known: self.analysis.known(),
            from: self.from,
        })?;
        let _stepped = self.analysis.back();
        self.from = self.comments.len();
        self.played = false;
        Ok(())
    }

    // Goes on with a line after its last move.
    fn resume(&mut self, line: Interrupted)
        ensures analysis { line.place < count (below_at (take line.depth self.old.analysis.path) self.old.analysis.tree.below)
            → self.new.analysis ≡ at_path (take line.depth self.old.analysis.path ++ line.place ∷ []) self.old.analysis }
        ensures comments { self.new.comments ≡ self.old.comments }
        ensures interrupted { self.new.interrupted ≡ self.old.interrupted }
        ensures from { self.new.from ≡ line.from }
        ensures played { self.new.played ≡ true }
    {
        self.analysis.back_to(line.depth);
        let _stepped = self.analysis.step(line.place, line.known);
        self.from = line.from;
        self.played = true;
    }

    /// The end of a variation. The comments of one without a move are those of the move before it.
    pub fn close(&mut self, at: usize) -> Result<(), PgnFault>
        ensures steps { OnOk result (StepsOn grammar.Close self.old self.new) }
        ensures refuses { IfErr result (λ fault. RefusesElements (grammar.Close ∷ []) fault.kind self.old) }
    {
        let Some(line) = self.interrupted.pop() else {
            return Err(at_place(at, FaultKind::Variation));
        };
        self.note_if(self.played)?;
        self.resume(line);
        Ok(())
    }

    /// The texts of the moves, as far as they are known. They are forgotten.
    pub fn take_texts(&mut self) -> Texts<'a, A>
        ensures { self.new ≡ self.old }
    {
        self.analysis.take_texts()
    }

    /// The tree, with its cursor at the root.
    pub fn into_tree(self) -> Result<Tree<'a, A>, AllocError>
        ensures read { IfOk result (λ tree. IsRead self.entry tree) }
        ensures game { IfOk result (λ tree. IsGameTree tree) }
    {
        let mut moves = self;
        moves.note()?;
        let mut tree = moves.analysis.into_tree()?;
        tree.start();
        Ok(tree)
    }
}
