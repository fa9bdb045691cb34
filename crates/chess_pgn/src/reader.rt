//! The reading of a game, item by item: its tags, then its movetext, then its end.

ghost use Rattle.std.specs.Prelude.{◌≡◌, ◌⊎◌, false, IfErr, IfOk, OnOk};
ghost use Rattle.chess_items.specs.declared.fault.FaultKind.TheVariants.{Memory};
ghost use Rattle.chess_items.specs.steps.Tokens.{item_of};
ghost use Rattle.chess_pgn.specs.steps.HeaderCode.{is_begun};
ghost use Rattle.chess_pgn.specs.steps.ReaderCode.{BeginsMoves, Closed, Finishes, IsNew, MayNotEnd, Moved, NoStart, ending_item, takes_when};

mod found;
mod header;
mod late;
mod moves;

use crate::basis::Basis;
use crate::game::Game;
use crate::texts::Texts;
use chess_items::{FaultKind, Outcome, PgnFault, Taken, Taker, Token, at_place};
use header::Header;
use moves::Moves;
use std::alloc::Allocator;

/// Reads a game, item by item (PGN 8). Tags and comments come first; the movetext begins at any other item but whitespace.
#[derive(Drop)]
pub struct Reader<'a, A: Allocator> {
    alloc: &'a A,
    header: Header<'a, A>,
    moves: Moves<'a, A>,
    outcome: Outcome,
    /// Whether the movetext has begun.
    moving: bool,
}

impl<'a, A: Allocator> Reader<'a, A> {
    /// Nothing read, and whether the texts of moves are wanted. Takes no memory.
    #[tactic(auto, unfolding(chess_types::specs::board::Position::start))]
    pub fn new(alloc: &'a A, basis: &Basis, wanted: bool) -> Reader<'a, A>
        ensures { IsNew result }
    {
        Reader {
            alloc,
            header: Header::new(alloc),
            moves: Moves::new(alloc, basis.start(), wanted),
            outcome: Outcome::Unfinished,
            moving: false,
        }
    }

    // The end of the tags: the game begins in the position that they give.
    fn begin_moves(&mut self) -> Result<(), PgnFault>
        requires { is_begun self.old.header.part ≡ false }
        ensures begins { OnOk result (BeginsMoves self.old self.new) }
        ensures none { IfErr result (λ fault. (fault.kind ≡ Memory) ⊎ NoStart self.old.header) }
    {
        self.moving = true;
        let Some(start) = self.header.start()? else {
            return Ok(());
        };
        self.moves.begin_in(start);
        Ok(())
    }

    // What ends the movetext: a marker, or before it the bracket of a tag.
    fn ending(&mut self, at: usize, marker: Option<Outcome>) -> Result<Taken, PgnFault>
        ensures moved { Moved (ending_item marker) result self.old self.new }
        ensures still { self.new.moving ≡ self.old.moving }
    {
        if self.moves.is_in_variation() {
            return Err(at_place(at, FaultKind::Variation));
        }
        match marker {
            Some(outcome) => {
                self.outcome = outcome;
                Ok(Taken::Ends)
            }
            None => Ok(Taken::Leaves),
        }
    }

    // An item of the movetext.
    #[inline(always)]
    fn movetext(&mut self, at: usize, token: Token<'_>) -> Result<Taken, PgnFault>
        ensures moved { Moved (item_of token.entry) result self.old self.new }
        ensures still { self.new.moving ≡ self.old.moving }
    {
        match token {
            Token::Mark => {}
            Token::Blank(_) => {}
            Token::Hidden => {}
            Token::Skipped => {}
            Token::Braced(text) => self.moves.comment(text)?,
            Token::Line(line) => self.moves.line_comment(line)?,
            Token::Nag(nag) => self.moves.nag(nag)?,
            Token::Open => self.moves.open(at)?,
            Token::Close => self.moves.close(at)?,
            Token::Word(text) => self.moves.word(at, text)?,
            Token::Marker(outcome) => return self.ending(at, Some(outcome)),
            Token::TagOpen => return self.ending(at, None),
            Token::TagClose
            | Token::Name(_)
            | Token::Quote
            | Token::Stretch(_)
            | Token::Escaped(_) => return Err(at_place(at, FaultKind::Token)),
        }
        Ok(Taken::GoesOn)
    }

    // An item before the movetext, or its first one.
    fn head(&mut self, at: usize, token: Token<'_>) -> Result<Taken, PgnFault>
        requires { is_begun self.old.header.part ≡ false }
        ensures { takes_when false (item_of token.entry) result self.old self.new }
    {
        match token {
            Token::Mark => Ok(Taken::GoesOn),
            Token::Blank(_) => Ok(Taken::GoesOn),
            Token::Hidden => Ok(Taken::GoesOn),
            Token::Braced(text) => {
                self.moves.comment(text)?;
                Ok(Taken::GoesOn)
            }
            Token::Line(line) => {
                self.moves.line_comment(line)?;
                Ok(Taken::GoesOn)
            }
            Token::TagOpen => {
                self.header.open(at);
                Ok(Taken::GoesOn)
            }
            _ => {
                self.begin_moves()?;
                self.movetext(at, token)
            }
        }
    }

    /// The fault where at that place there is no item.
    pub fn unspelled(&self, at: usize) -> PgnFault {
        if self.header.is_in_tag() {
            self.header.malformed()
        } else {
            at_place(at, FaultKind::Token)
        }
    }

    /// Whether the movetext has begun.
    pub fn is_moving(&self) -> bool
        ensures { result ≡ self.now.moving }
    {
        self.moving
    }

    /// The texts of the moves, as far as they are known. They are forgotten.
    pub fn take_texts(&mut self) -> Texts<'a, A>
        ensures { self.new ≡ self.old }
    {
        self.moves.take_texts()
    }

    /// The game that was read.
    pub fn into_game(self) -> Result<Game<'a, A>, PgnFault>
        ensures game { IfOk result (λ game. Closed self.entry game) }
        ensures memory { IfErr result (λ fault. fault.kind ≡ Memory) }
    {
        let Reader {
            alloc,
            header,
            moves,
            outcome,
            moving: _,
        } = self;
        Ok(Game {
            tags: header.into_tags(alloc)?,
            result: outcome,
            tree: moves.into_tree()?,
        })
    }

    /// Ends the game where the input ends at that place.
    ///
    /// # Errors
    ///
    /// `Truncated` in a tag or a variation; `Fen` where the tags give no position; `Memory`.
    pub fn finish(&mut self, at: usize) -> Result<(), PgnFault>
        ensures game { IfOk result (λ _. Finishes self.old self.new) }
        ensures refused { IfErr result (λ fault. (fault.kind ≡ Memory) ⊎ MayNotEnd self.old) }
    {
        if self.header.is_in_tag() || self.moves.is_in_variation() {
            return Err(at_place(at, FaultKind::Truncated));
        }
        if !self.moving {
            self.begin_moves()?;
        }
        Ok(())
    }
}

impl<'a, A: Allocator> Taker for Reader<'a, A> {
    ghost use Rattle.chess_pgn.specs.steps.ReaderCode.{TakesItem};

    ghost takes = { λ old at item result new. TakesItem old item result new };

    #[inline(always)]
    fn take(&mut self, at: usize, token: Token<'_>) -> Result<Taken, PgnFault> {
        if self.moving {
            return self.movetext(at, token);
        }
        if self.header.is_in_tag() {
            self.header.take(self.alloc, token)?;
            return Ok(Taken::GoesOn);
        }
        let taken = self.head(at, token);
        // A refused item begins no movetext.
        if taken.is_err() {
            self.moving = false;
        }
        taken
    }

    #[inline(always)]
    fn is_passing(&self) -> bool {
        self.moving
    }
}
