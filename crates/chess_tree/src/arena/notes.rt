//! The comments and annotation numbers of nodes, by the nodes' numbers.

ghost use Rattle.std.specs.Prelude.{◌≡◌, ℕ, ◌<◌, ◌++◌, ◌∷◌, [], length, IsOk, OnOk, OnErr};
ghost use Rattle.chess_tree.specs.steps.Rooted.{no_notes};
ghost use Rattle.chess_tree.specs.steps.Notes.{noted_in, IsNotedAt};

use super::node_id::NodeId;
use smallvec::SmallVec;
use std::alloc::{AllocError, Allocator};
use std::marker::Model;

/// What is noted at a node: its annotation numbers, and its comment.
#[derive(Drop)]
pub(crate) struct Note<'a, A: Allocator> {
    pub(crate) nags: SmallVec<u8, 4, &'a A>,
    pub(crate) comment: Vec<u8, &'a A>,
}

impl<'a, A: Allocator> Model for Note<'a, A> {
    ghost use Rattle.chess_tree.specs.steps.Rooted.{Noted, coded_noted};

    ghost Value = { Noted };

    ghost coded = { coded_noted };

    ghost view = { λ n. record { nags = n.nags.items; comment = n.comment.items } };
}

impl<'a, A: Allocator> Clone for Note<'a, A> {
    ghost is_clone = { λ note copy. copy ≡ note };

    fn clone(&self) -> Result<Note<'a, A>, AllocError> {
        Ok(Note {
            nags: self.nags.clone()?,
            comment: self.comment.clone()?,
        })
    }
}

/// The notes of the nodes, by their numbers, up to the last node that was given some.
pub(crate) type NoteList<'a, A> = Vec<Note<'a, A>, &'a A>;

impl<'a, A: Allocator> Note<'a, A> {
    /// None.
    fn new(alloc: &'a A) -> Note<'a, A>
        ensures { result ≡ record { nags = []; comment = [] } }
    {
        Note {
            nags: SmallVec::new(alloc),
            comment: Vec::new(alloc),
        }
    }

    fn push_nag(&mut self, nag: u8) -> Result<(), AllocError>
        ensures ok { OnOk result (self.new ≡ record { nags = self.old.nags ++ nag ∷ []; comment = self.old.comment }) }
        ensures err { OnErr result (self.new ≡ self.old) }
    {
        self.nags.push(nag)?;
        Ok(())
    }
}

// Room for the notes at a number, and at those before it.
fn reach<'a, A: Allocator>(
    notes: &mut NoteList<'a, A>,
    alloc: &'a A,
    number: NodeId,
) -> Result<(), AllocError>
    ensures same { (j : ℕ) → noted_in notes.new.items j ≡ noted_in notes.old.items j }
    ensures within { OnOk result (number < length notes.new.items) }
    ensures there { number < length notes.old.items → IsOk result }
{
    while notes.len() <= number.index() {
        notes.push(Note::new(alloc))?;
    }
    Ok(())
}

/// A nag more at a number.
pub(crate) fn add_nag<'a, A: Allocator>(
    notes: &mut NoteList<'a, A>,
    alloc: &'a A,
    number: NodeId,
    nag: u8,
) -> Result<(), AllocError>
    ensures ok { OnOk result (IsNotedAt (noted_in notes.old.items) (noted_in notes.new.items) number (record { nags = (noted_in notes.old.items number).nags ++ nag ∷ []; comment = (noted_in notes.old.items number).comment })) }
    ensures err { OnErr result ((j : ℕ) → noted_in notes.new.items j ≡ noted_in notes.old.items j) }
{
    reach(notes, alloc, number)?;
    notes[number.index()].push_nag(nag)
}

/// No nags at a number.
pub(crate) fn clear_nags<'a, A: Allocator>(notes: &mut NoteList<'a, A>, number: NodeId)
    ensures { IsNotedAt (noted_in notes.old.items) (noted_in notes.new.items) number (record { nags = []; comment = (noted_in notes.old.items number).comment }) }
{
    if let Some(note) = notes.get_mut(number.index()) {
        note.nags.clear();
    }
}

/// Another comment at a number. An empty one takes no memory.
pub(crate) fn set_comment<'a, A: Allocator>(
    notes: &mut NoteList<'a, A>,
    alloc: &'a A,
    number: NodeId,
    comment: Vec<u8, &'a A>,
) -> Result<(), AllocError>
    ensures ok { OnOk result (IsNotedAt (noted_in notes.old.items) (noted_in notes.new.items) number (record { nags = (noted_in notes.old.items number).nags; comment = comment.entry.items })) }
    ensures err { OnErr result ((j : ℕ) → noted_in notes.new.items j ≡ noted_in notes.old.items j) }
    ensures removed { comment.entry.items ≡ [] → IsOk result }
{
    if comment.is_empty() && notes.len() <= number.index() {
        return Ok(());
    }
    reach(notes, alloc, number)?;
    notes[number.index()].comment = comment;
    Ok(())
}

/// No notes at a number.
pub(crate) fn forget<'a, A: Allocator>(notes: &mut NoteList<'a, A>, alloc: &'a A, number: NodeId)
    ensures { IsNotedAt (noted_in notes.old.items) (noted_in notes.new.items) number no_notes }
{
    if let Some(note) = notes.get_mut(number.index()) {
        *note = Note::new(alloc);
    }
}

/// The nags at a number.
pub(crate) fn nags<'t, 'a, A: Allocator>(notes: &'t NoteList<'a, A>, number: NodeId) -> &'t [u8]
    ensures { result.now ≡ (noted_in notes.now.items number).nags }
{
    match notes.get(number.index()) {
        Some(note) => note.nags.as_slice(),
        None => &[],
    }
}

/// The comment at a number.
pub(crate) fn comment<'t, 'a, A: Allocator>(notes: &'t NoteList<'a, A>, number: NodeId) -> &'t [u8]
    ensures { result.now ≡ (noted_in notes.now.items number).comment }
{
    match notes.get(number.index()) {
        Some(note) => note.comment.as_slice(),
        None => &[],
    }
}
