//! The tags that are found while a game is read, the first value of each name.

ghost use Rattle.std.specs.Prelude.{◌≡◌, [], List, ℕ, Option, Some, None, is_some, option_map, unwrap_or, IfOk, OnOk};
ghost use Rattle.chess_pgn.specs.Games.{tag_in};
ghost use Rattle.chess_pgn.specs.Tags.{Ascend, HasTags};
ghost use Rattle.chess_pgn.specs.steps.GameCode.{tags_of};
ghost use Rattle.chess_pgn.specs.steps.OtherCode.{Finds, Sets};

use crate::others::OtherTags;
use crate::tags::Tags;
use std::alloc::{AllocError, Allocator};

/// The tags that were found so far, with the first value of each name.
#[derive(Drop)]
pub struct FoundTags<'a, A: Allocator> {
    tags: OtherTags<'a, A>,
}

// The value of the tag with that name goes where it belongs; where there is no such tag, what is there stays.
fn move_to<'a, A: Allocator>(tags: &mut OtherTags<'a, A>, name: &[u8], to: &mut Vec<u8, &'a A>)
    ensures value { to.new.items ≡ unwrap_or (tag_in name.now tags.old) to.old.items }
    ensures removed { Sets name.now None tags.old tags.new }
    ensures ascend { Ascend tags.new }
{
    if let Some(value) = tags.remove(name) {
        *to = value;
    }
}

impl<'a, A: Allocator> FoundTags<'a, A> {
    /// None.
    pub fn new(alloc: &'a A) -> FoundTags<'a, A>
        ensures { result.tags ≡ [] }
    {
        FoundTags {
            tags: OtherTags::new(alloc),
        }
    }

    /// Whether there is a tag with that name.
    pub fn has(&self, name: &[u8]) -> bool
        ensures { result ≡ is_some (tag_in name.now self.now.tags) }
    {
        self.tags.get(name).is_some()
    }

    /// The value of the tag with that name.
    pub fn value(&self, name: &[u8]) -> Option<&[u8]>
        ensures { option_map (λ value. value.now) result ≡ tag_in name.now self.now.tags }
    {
        self.tags.get(name)
    }

    /// A tag more.
    pub fn add(&mut self, name: Vec<u8, &'a A>, value: Vec<u8, &'a A>) -> Result<(), AllocError>
        ensures { OnOk result (Sets name.entry.items (Some value.entry.items) self.old.tags self.new.tags) }
    {
        self.tags.insert(name, value)
    }

    /// The tags of the game, without those that give its start.
    pub fn into_tags(self, alloc: &'a A) -> Result<Tags<'a, A>, AllocError>
        ensures { IfOk result (λ tags. (given : List (List ℕ × List ℕ)) → Finds given self.entry.tags → HasTags given (tags_of tags)) }
    {
        let mut others = self.tags;
        drop(others.remove(b"FEN"));
        drop(others.remove(b"SetUp"));
        let mut tags = Tags::unknown(alloc)?;
        move_to(&mut others, b"Event", &mut tags.event);
        move_to(&mut others, b"Site", &mut tags.site);
        move_to(&mut others, b"Date", &mut tags.date);
        move_to(&mut others, b"Round", &mut tags.round);
        move_to(&mut others, b"White", &mut tags.white);
        move_to(&mut others, b"Black", &mut tags.black);
        tags.others = others;
        Ok(tags)
    }
}
