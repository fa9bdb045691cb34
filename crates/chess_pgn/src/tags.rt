//! The tags that each game has (PGN 8.1.1), and the others.

ghost use Rattle.std.specs.Prelude.{◌≡◌, Option, IfOk, option_map};
ghost use Rattle.chess_pgn.specs.Games.{tag_value, unknown};

use crate::others::OtherTags;
use chess_items::is;
use std::alloc::{AllocError, Allocator};

/// The tags that each game has, besides Result (PGN 8.1.1).
#[derive(Drop)]
pub struct Tags<'a, A: Allocator> {
    pub event: Vec<u8, &'a A>,
    pub site: Vec<u8, &'a A>,
    pub date: Vec<u8, &'a A>,
    pub round: Vec<u8, &'a A>,
    pub white: Vec<u8, &'a A>,
    pub black: Vec<u8, &'a A>,
    pub others: OtherTags<'a, A>,
}

fn value<'a, A: Allocator>(alloc: &'a A, text: &[u8]) -> Result<Vec<u8, &'a A>, AllocError>
    ensures { IfOk result (λ value. value.items ≡ text.now) }
{
    let mut value = Vec::new(alloc);
    value.extend_from_slice(text)?;
    Ok(value)
}

impl<'a, A: Allocator> Clone for Tags<'a, A> {
    ghost use Rattle.chess_pgn.specs.steps.GameCode.{tags_of};

    ghost is_clone = { λ tags copy. tags_of copy ≡ tags_of tags };

    /// The same tags in the same allocator's memory; an error where there is none.
    fn clone(&self) -> Result<Tags<'a, A>, AllocError> {
        Ok(Tags {
            event: self.event.clone()?,
            site: self.site.clone()?,
            date: self.date.clone()?,
            round: self.round.clone()?,
            white: self.white.clone()?,
            black: self.black.clone()?,
            others: self.others.clone()?,
        })
    }
}

impl<'a, A: Allocator> Tags<'a, A> {
    ghost use Rattle.chess_pgn.specs.steps.GameCode.{tags_of};

    /// The tags of a game of which nothing is known: `?`, and `????.??.??` for the date.
    pub fn unknown(alloc: &'a A) -> Result<Tags<'a, A>, AllocError>
        ensures { IfOk result (λ tags. tags_of tags ≡ unknown) }
    {
        Ok(Tags {
            event: value(alloc, b"?")?,
            site: value(alloc, b"?")?,
            date: value(alloc, b"????.??.??")?,
            round: value(alloc, b"?")?,
            white: value(alloc, b"?")?,
            black: value(alloc, b"?")?,
            others: OtherTags::new(alloc),
        })
    }

    /// The value of the tag with that name, if there is one.
    #[tactic(auto, unfolding(crate::specs::Games::tag_value))]
    pub fn get(&self, name: &[u8]) -> Option<&[u8]>
        ensures { option_map (λ value. value.now) result ≡ tag_value name.now (tags_of self.now) }
    {
        if is(name, b"Event") {
            Some(self.event.as_slice())
        } else if is(name, b"Site") {
            Some(self.site.as_slice())
        } else if is(name, b"Date") {
            Some(self.date.as_slice())
        } else if is(name, b"Round") {
            Some(self.round.as_slice())
        } else if is(name, b"White") {
            Some(self.white.as_slice())
        } else if is(name, b"Black") {
            Some(self.black.as_slice())
        } else {
            self.others.get(name)
        }
    }
}
