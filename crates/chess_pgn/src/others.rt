//! The tags of a game that not each game has, by their names.

ghost use Rattle.std.specs.Prelude.{◌≡◌, [], Option, Some, None, option_map, OnErr, OnOk};
ghost use Rattle.chess_pgn.specs.Games.{tag_in};
ghost use Rattle.chess_pgn.specs.Tags.{Ascend};
ghost use Rattle.chess_pgn.specs.steps.OtherCode.{Sets};

use std::alloc::{AllocError, Allocator};
use std::collections::BTreeMap;
use std::marker::Model;

/// Tags by their names, which ascend in ASCII order.
#[derive(Drop)]
pub struct OtherTags<'a, A: Allocator> {
    values: BTreeMap<Vec<u8, &'a A>, Vec<u8, &'a A>, &'a A>,
}

impl<'a, A: Allocator> Model for OtherTags<'a, A> {
    ghost use Rattle.std.specs.Prelude.{List, ℕ};
    ghost use Rattle.chess_pgn.specs.steps.OtherCode.{shown};

    ghost Value = { List (List ℕ × List ℕ) };

    ghost view = { λ tags. shown tags.values.entries };
}

impl<'a, A: Allocator> Clone for OtherTags<'a, A> {
    ghost is_clone = { λ tags copy. copy ≡ tags };

    /// The same tags in the same allocator's memory; an error where there is none.
    fn clone(&self) -> Result<OtherTags<'a, A>, AllocError> {
        Ok(OtherTags {
            values: self.values.clone()?,
        })
    }
}

impl<'a, A: Allocator> OtherTags<'a, A> {
    ghost use Rattle.chess_pgn.specs.steps.OtherCode.{shown};

    /// None.
    pub fn new(alloc: &'a A) -> OtherTags<'a, A>
        ensures { result ≡ [] }
    {
        OtherTags {
            values: BTreeMap::new(alloc),
        }
    }

    /// The value of the tag with that name.
    pub fn get(&self, name: &[u8]) -> Option<&[u8]>
        ensures { option_map (λ value. value.now) result ≡ tag_in name.now self.now }
    {
        match self.values.get(name) {
            Some(value) => Some(value.as_slice()),
            None => None,
        }
    }

    /// The map of them.
    pub fn as_map(&self) -> &BTreeMap<Vec<u8, &'a A>, Vec<u8, &'a A>, &'a A>
        ensures { shown result.now.entries ≡ self.now }
    {
        &self.values
    }

    /// Sets the value of the tag with that name. Where there is no memory, all is as before.
    pub fn insert(&mut self, name: Vec<u8, &'a A>, value: Vec<u8, &'a A>) -> Result<(), AllocError>
        ensures ok { OnOk result (Sets name.entry.items (Some value.entry.items) self.old self.new) }
        ensures ascend { Ascend self.new }
        ensures err { OnErr result (self.new ≡ self.old) }
    {
        match self.values.insert(name, value) {
            Ok(_) => Ok(()),
            Err(_) => Err(AllocError),
        }
    }

    /// Takes the tag with that name out.
    pub fn remove(&mut self, name: &[u8]) -> Option<Vec<u8, &'a A>>
        ensures value { option_map (λ value. value.items) result ≡ tag_in name.now self.old }
        ensures removed { Sets name.now None self.old self.new }
        ensures ascend { Ascend self.new }
    {
        self.values.remove(name)
    }
}
