//! What a game's text says beside its moves: its tags, and how it ended.
ghost use Rattle.std.specs.Prelude.{◌≡◌, Some, IfOk, OnErr, OnOk, map, option_map, slice_get};
ghost use Rattle.chess_pgn.specs.Games.{tag_value, unknown};
ghost use Rattle.chess_pgn.specs.Written.{game_text};
ghost use Rattle.chess_edit.specs.SetTags.{IsSet, IsTagAnswer, tag_answer};
ghost use Rattle.chess_bindings.specs.Headings.{tag_names, nothing_known};

use chess_edit::{TagFault, check_tag, clear_tag, set_tag, unknown_value};
use chess_pgn::{Outcome, PgnFault, Tags, write_as};
use chess_tree::Tree;
use std::alloc::{AllocError, Allocator};
use std::marker::Model;
use std::mem::replace;

/// The tags of a game and how it ended (PGN 8.1, 8.2.6). It takes no memory before a tag is set.
#[derive(Drop)]
pub struct Heading<'a, A: Allocator> {
    // Nothing where nothing is known.
    tags: Option<Tags<'a, A>>,
    outcome: Outcome,
    alloc: &'a A,
}

impl<'a, A: Allocator> Model for Heading<'a, A> {
    ghost use Rattle.chess_bindings.specs.Headings.{HeadingParts, coded_heading};
    ghost use Rattle.chess_bindings.specs.steps.HeadingCode.{tags_or_unknown};

    ghost Value = { HeadingParts };

    ghost coded = { coded_heading };

    ghost view = { λ h. record { tags = tags_or_unknown h.tags; outcome = h.outcome } };
}

// The name at that place among the others, from 0.
fn name_in<'t, 'a, A: Allocator>(tags: &'t Tags<'a, A>, place: usize) -> Option<&'t [u8]>
    ensures { option_map (λ name. name.now) result ≡ slice_get (map (λ tag. tag.0) tags.now.others) place }
{
    let mut left = place;
    for (name, _) in tags.others.as_map().iter() {
        if left == 0 {
            return Some(name.as_slice());
        }
        left -= 1;
    }
    None
}

impl<'a, A: Allocator> Clone for Heading<'a, A> {
    ghost is_clone = { λ heading copy. copy ≡ heading };

    /// The same tags and end, in the same allocator's memory; an error where there is none.
    fn clone(&self) -> Result<Heading<'a, A>, AllocError> {
        let tags = match &self.tags {
            Some(tags) => Some(tags.clone()?),
            None => None,
        };
        Ok(Heading {
            tags,
            outcome: self.outcome,
            alloc: self.alloc,
        })
    }
}

impl<'a, A: Allocator> Heading<'a, A> {
    ghost use Rattle.chess_pgn.specs.steps.GameCode.{tags_of};

    /// Nothing is known.
    pub fn new(alloc: &'a A) -> Heading<'a, A>
        ensures { result ≡ nothing_known }
    {
        Heading {
            tags: None,
            outcome: Outcome::Unfinished,
            alloc,
        }
    }

    /// These tags, and that end.
    pub fn of(alloc: &'a A, tags: Tags<'a, A>, outcome: Outcome) -> Heading<'a, A>
        ensures { result ≡ record { tags = tags_of tags.entry; outcome = outcome } }
    {
        Heading {
            tags: Some(tags),
            outcome,
            alloc,
        }
    }

    /// Where the memory of the tags comes from.
    pub fn alloc(&self) -> &'a A {
        self.alloc
    }

    /// The value of the tag with that name, if there is one.
    pub fn tag(&self, name: &[u8]) -> Option<&[u8]>
        ensures { option_map (λ value. value.now) result ≡ tag_value name.now self.now.tags }
    {
        match &self.tags {
            Some(tags) => tags.get(name),
            None => unknown_value(name),
        }
    }

    /// The name of the tag at that place, from 0: of the six that each game has besides Result, then of the others in ASCII order.
    pub fn name_at(&self, place: usize) -> Option<&[u8]>
        ensures { option_map (λ name. name.now) result ≡ slice_get (tag_names self.now.tags) place }
    {
        match place {
            0 => Some(b"Event"),
            1 => Some(b"Site"),
            2 => Some(b"Date"),
            3 => Some(b"Round"),
            4 => Some(b"White"),
            5 => Some(b"Black"),
            _ => self.other_at(place - 6),
        }
    }

    // The same of the others.
    fn other_at(&self, place: usize) -> Option<&[u8]>
        ensures { option_map (λ name. name.now) result ≡ slice_get (map (λ tag. tag.0) self.now.tags.others) place }
    {
        match &self.tags {
            Some(tags) => name_in(tags, place),
            None => None,
        }
    }

    /// How the game ended.
    pub fn outcome(&self) -> Outcome
        ensures { result ≡ self.now.outcome }
    {
        self.outcome
    }

    /// The game ended so.
    pub fn set_outcome(&mut self, outcome: Outcome)
        ensures { self.new ≡ record { tags = self.old.tags; outcome = outcome } }
    {
        self.outcome = outcome;
    }

    // Takes the tags out; where there are none, nothing is known.
    fn take_tags(&mut self) -> Result<Tags<'a, A>, AllocError>
        ensures tags { IfOk result (λ tags. tags_of tags ≡ self.old.tags) }
        ensures outcome { self.new.outcome ≡ self.old.outcome }
        ensures err { OnErr result (self.new ≡ self.old) }
    {
        match replace(&mut self.tags, None) {
            Some(tags) => Ok(tags),
            None => Tags::unknown(self.alloc),
        }
    }

    /// Gives the tag of that name the value (`chess_edit::set_tag`).
    ///
    /// # Errors
    ///
    /// Those of `set_tag`. All is then as before.
    pub fn set_tag(&mut self, name: &[u8], value: &[u8]) -> Result<(), TagFault>
        ensures answer { IsTagAnswer (tag_answer name.now value.now) result }
        ensures ok { OnOk result (IsSet name.now (Some value.now) self.old.tags self.new.tags) }
        ensures err { OnErr result (self.new.tags ≡ self.old.tags) }
        ensures outcome { self.new.outcome ≡ self.old.outcome }
    {
        check_tag(name, value)?;
        let Ok(mut tags) = self.take_tags() else {
            return Err(TagFault::Memory);
        };
        let ended = set_tag(self.alloc, &mut tags, name, value);
        self.tags = Some(tags);
        ended
    }

    /// Takes the tag of that name out (`chess_edit::clear_tag`): one of the six then says that nothing is known.
    ///
    /// # Errors
    ///
    /// Want of memory. All is then as before.
    pub fn clear_tag(&mut self, name: &[u8]) -> Result<(), AllocError>
        ensures ok { OnOk result (IsSet name.now (tag_value name.now unknown) self.old.tags self.new.tags) }
        ensures err { OnErr result (self.new.tags ≡ self.old.tags) }
        ensures outcome { self.new.outcome ≡ self.old.outcome }
    {
        let mut tags = self.take_tags()?;
        let ended = clear_tag(self.alloc, &mut tags, name);
        self.tags = Some(tags);
        ended
    }

    /// The export form of the game with these tags, that end and the moves of a tree (PGN 3.2).
    ///
    /// # Errors
    ///
    /// `Memory` at place 0, where there is none.
    pub fn write(&self, tree: &Tree<'a, A>) -> Result<Vec<u8, &'a A>, PgnFault>
        ensures { IfOk result (λ text. text.items ≡ game_text (record { tags = self.now.tags; outcome = self.now.outcome; tree = tree.now.tree })) }
    {
        match &self.tags {
            Some(tags) => write_as(self.alloc, tags, self.outcome, tree),
            None => {
                let tags = Tags::unknown(self.alloc)?;
                write_as(self.alloc, &tags, self.outcome, tree)
            }
        }
    }
}
