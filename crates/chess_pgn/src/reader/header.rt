//! Tags read item by item, and the position that they begin the game with.

ghost use Rattle.std.specs.Prelude.{◌≡◌, ◌≤◌, ◌⊎◌, [], List, ℕ, true, false, ◌||◌, ◌&&◌, if◌then◌else◌, is_some, bytes_eq, codes, IfOk, IfErr, IfSome, OnOk};
ghost use Rattle.chess_items.specs.Items.{TagOpen};
ghost use Rattle.chess_items.specs.declared.fault.FaultKind.TheVariants.{Memory, Tag};
ghost use Rattle.chess_items.specs.steps.Tokens.{item_of};
ghost use Rattle.chess_pgn.specs.Games.{tag_in};
ghost use Rattle.chess_pgn.specs.Reading.{is_heading, lead_after};
ghost use Rattle.chess_pgn.specs.Tags.{fen_in, is_tag_gap};
ghost use Rattle.chess_pgn.specs.steps.HeaderCode.{Closes, HasFound, Heads, RefusesTag, fen_place, fresh, heading, is_begun, is_first_fen, is_spaced, start_told};
ghost use Rattle.chess_pgn.specs.steps.OtherCode.{Finds};

use crate::reader::found::FoundTags;
use crate::tags::Tags;
use chess_items::{FaultKind, PgnFault, Token, at_place, is};
use chess_types::Position;
use std::alloc::{AllocError, Allocator};
use std::mem;

/// Which part of a tag comes next (PGN 8.1).
#[derive(Clone, Copy)]
enum Part {
    Name,
    Opening,
    Value,
    Closing,
    /// None: the tag is at its end.
    Nothing,
}

/// Reads tags, one after another.
#[derive(Drop)]
pub struct Header<'a, A: Allocator> {
    found: FoundTags<'a, A>,
    /// The place of the bracket at which the first tag with the name FEN begins.
    fen_at: usize,
    /// The place of the bracket at which the tag that is being read begins, its name and the value so far, and what comes next.
    at: usize,
    name: Vec<u8, &'a A>,
    value: Vec<u8, &'a A>,
    part: Part,
}

impl<'a, A: Allocator> Header<'a, A> {
    /// No tag.
    pub fn new(alloc: &'a A) -> Header<'a, A>
        ensures none { heading [] result ≡ fresh [] }
        ensures found { Finds [] result.found.tags }
    {
        Header {
            found: FoundTags::new(alloc),
            fen_at: 0,
            at: 0,
            name: Vec::new(alloc),
            value: Vec::new(alloc),
            part: Part::Nothing,
        }
    }

    /// Whether a tag has begun and not ended.
    pub fn is_in_tag(&self) -> bool
        ensures { result ≡ is_begun self.now.part }
    {
        !matches!(self.part, Part::Nothing)
    }

    /// The bracket at which a tag begins.
    pub fn open(&mut self, at: usize)
        ensures opens { is_begun self.old.part ≡ false → Heads TagOpen self.old self.new }
        ensures place { self.new.at ≡ at }
        ensures fen { self.new.fen_at ≡ self.old.fen_at }
    {
        self.at = at;
        self.part = Part::Name;
    }

    /// That the tag that is being read is malformed.
    pub fn malformed(&self) -> PgnFault
        ensures { result ≡ record { place = self.now.at; kind = Tag } }
    {
        at_place(self.at, FaultKind::Tag)
    }

    // Whether the tag that is being read isn't kept: one of its name came before, or it is the result's.
    fn is_dropped(&self) -> bool
        ensures { result ≡ (bytes_eq self.now.name.items (codes "Result") || is_some (tag_in self.now.name.items self.now.found.tags)) }
    {
        is(self.name.as_slice(), b"Result") || self.found.has(self.name.as_slice())
    }

    // The place of the bracket at which the first tag with the name FEN begins, where a tag that is kept ends.
    fn fen_place(&self) -> usize
        ensures { result ≡ (if bytes_eq self.now.name.items (codes "FEN") then self.now.at else self.now.fen_at) }
    {
        if is(self.name.as_slice(), b"FEN") {
            self.at
        } else {
            self.fen_at
        }
    }

    // The end of a tag.
    fn close(&mut self, alloc: &'a A) -> Result<(), AllocError>
        ensures ok { OnOk result (Closes self.old self.new) }
        ensures place { OnOk result (self.new.at ≡ self.old.at) }
        ensures fen { OnOk result (self.new.fen_at ≡ (if is_first_fen self.old.name.items self.old.found.tags then self.old.at else self.old.fen_at)) }
    {
        self.part = Part::Nothing;
        if self.is_dropped() {
            self.name.clear();
            self.value.clear();
            return Ok(());
        }
        self.fen_at = self.fen_place();
        let name = mem::replace(&mut self.name, Vec::new(alloc));
        let value = mem::replace(&mut self.value, Vec::new(alloc));
        self.found.add(name, value)
    }

    // Whether an item is whitespace between the tag's parts.
    fn passes(&self, token: Token<'_>) -> bool
        ensures { result ≡ (is_spaced self.now.part && is_tag_gap (item_of token.entry)) }
    {
        matches!(self.part, Part::Name | Part::Opening | Part::Closing)
            && matches!(token, Token::Blank(_) | Token::Hidden)
    }

    /// An item between a tag's brackets, the closing one included.
    pub fn take(&mut self, alloc: &'a A, token: Token<'_>) -> Result<(), PgnFault>
        ensures heading { OnOk result (is_heading (item_of token.entry) ≡ true) }
        ensures ok { OnOk result (Heads (item_of token.entry) self.old self.new) }
        ensures refused { IfErr result (λ fault. (fault ≡ record { place = 0; kind = Memory }) ⊎ RefusesTag (item_of token.entry) self.old fault) }
        ensures place { OnOk result (self.new.at ≡ self.old.at) }
        ensures fen { OnOk result (self.new.fen_at ≡ fen_place self.old (item_of token.entry)) }
        ensures no_comment { OnOk result ((lead : List ℕ) → lead_after lead (item_of token.entry) ≡ lead) }
    {
        if self.passes(token) {
            return Ok(());
        }
        match self.part {
            Part::Name => {
                let Token::Name(name) = token else {
                    return Err(self.malformed());
                };
                self.name.extend_from_slice(name)?;
                self.part = Part::Opening;
            }
            Part::Opening => {
                let Token::Quote = token else {
                    return Err(self.malformed());
                };
                self.part = Part::Value;
            }
            Part::Value => match token {
                Token::Stretch(text) => self.value.extend_from_slice(text)?,
                Token::Escaped(b) => self.value.push(b)?,
                Token::Quote => self.part = Part::Closing,
                _ => return Err(self.malformed()),
            },
            Part::Closing => {
                let Token::TagClose = token else {
                    return Err(self.malformed());
                };
                self.close(alloc)?;
            }
            Part::Nothing => return Err(self.malformed()),
        }
        Ok(())
    }

    /// The position that the tags give; `None` where they give none.
    pub fn start(&self) -> Result<Option<Position>, PgnFault>
        ensures start { (read : List (List ℕ × List ℕ)) → Finds read self.now.found.tags → result ≡ start_told self.now.fen_at (fen_in read) }
        ensures counters { IfOk result (λ start. IfSome start (λ p. (p.clock ≤ 99999) × (p.number ≤ 99999))) }
    {
        let Some(fen) = self.found.value(b"FEN") else {
            return Ok(None);
        };
        if self.found.value(b"SetUp") == Some(b"0".as_slice()) {
            return Ok(None);
        }
        match chess_fen::read(fen) {
            Ok(start) => Ok(Some(start)),
            Err(_) => Err(at_place(self.fen_at, FaultKind::Fen)),
        }
    }

    /// The tags of the game.
    pub fn into_tags(self, alloc: &'a A) -> Result<Tags<'a, A>, AllocError>
        ensures { IfOk result (λ tags. HasFound self.entry tags) }
    {
        self.found.into_tags(alloc)
    }
}
