//! A text that is written anew: what is kept of it, and what is repaired.

ghost use Rattle.std.specs.Prelude.{◌≡◌, ◌+◌, ◌∷◌, ◌++◌, [], List, ℕ, IfOk, IfSome, OnErr, OnOk, length};
ghost use Rattle.chess_repair.specs.Repairs.{IsRepair, Rewrites, padded, quoted};
ghost use Rattle.chess_repair.specs.Words.{quiet};

use crate::ends::{ends_comment, ends_game, is_prose, is_result};
use crate::repair::{Repair, RepairKind};
use std::alloc::{AllocError, Allocator};
use std::marker::Model;

/// A text, what is left of it, what is written for the rest, and the repairs. Contracts see the text.
#[derive(Drop)]
pub struct Pen<'t, 'a, A: Allocator> {
    text: &'t [u8],
    rest: &'t [u8],
    out: Vec<u8, &'a A>,
    repairs: Vec<Repair, &'a A>,
}

impl<'t, 'a, A: Allocator> Model for Pen<'t, 'a, A> {
    ghost use Rattle.std.specs.Prelude.{List, ℕ, length};
    ghost use Rattle.chess_repair.specs.Repairs.{Rewrites};

    ghost Value = { List ℕ };

    ghost view = { λ p. p.text.now };

    ghost invariant = { λ p. Rewrites (length p.text.now) p.text.now p.repairs.items p.out.items p.rest.now };
}

// A byte as it may be in a comment: no brace, and no bracket that a reader of commands or of tags would take.
#[tactic(auto, unfolding(crate::specs::Words::quiet))]
fn quiet(b: u8) -> u8
    ensures { result ≡ quiet b }
{
    match b {
        b'{' | b'[' => b'(',
        b'}' | b']' => b')',
        b => b,
    }
}

// What comes after these bytes, where the text begins with them.
fn without<'t>(text: &'t [u8], first: &[u8]) -> Option<&'t [u8]>
    ensures { IfSome result (λ rest. text.now ≡ first.now ++ rest.now) }
{
    if text.len() < first.len() {
        return None;
    }
    let (prefix, rest) = text.split_at(first.len());
    if prefix == first { Some(rest) } else { None }
}

// Some bytes between two spaces, but within a word.
fn padded<'a, A: Allocator>(
    alloc: &'a A,
    kind: RepairKind,
    now: &[u8],
) -> Result<Vec<u8, &'a A>, AllocError>
    ensures { IfOk result (λ text. text.items ≡ padded kind now.now) }
{
    let mut text = Vec::new(alloc);
    match kind {
        RepairKind::Sign => text.extend_from_slice(now)?,
        _ => {
            text.push(b' ')?;
            text.extend_from_slice(now)?;
            text.push(b' ')?;
        }
    }
    Ok(text)
}

// Some bytes as a comment, after a head.
fn quoted<'a, A: Allocator>(
    alloc: &'a A,
    head: &[u8],
    was: &[u8],
) -> Result<Vec<u8, &'a A>, AllocError>
    ensures { IfOk result (λ text. text.items ≡ quoted head.now was.now) }
{
    let mut text = Vec::new(alloc);
    text.push(b'{')?;
    text.extend_from_slice(head)?;
    for b in was {
        text.push(quiet(*b))?;
    }
    text.push(b'}')?;
    Ok(text)
}

// Adds a repair, and what is written for it; nothing where there is no memory.
fn put<'a, A: Allocator>(
    repairs: &mut Vec<Repair, &'a A>,
    out: &mut Vec<u8, &'a A>,
    repair: Repair,
    text: &[u8],
) -> Result<(), AllocError>
    ensures repairs { OnOk result (repairs.new.items ≡ repairs.old.items ++ repair ∷ []) }
    ensures text { OnOk result (out.new.items ≡ out.old.items ++ text.now) }
    ensures no_repairs { OnErr result (repairs.new.items ≡ repairs.old.items) }
    ensures no_text { OnErr result (out.new.items ≡ out.old.items) }
{
    repairs.push(repair)?;
    if let Err(fault) = out.extend_from_slice(text) {
        let _ = repairs.pop();
        return Err(fault);
    }
    Ok(())
}

impl<'t, 'a, A: Allocator> Pen<'t, 'a, A> {
    /// At the beginning of a text.
    pub fn new(alloc: &'a A, text: &'t [u8]) -> Pen<'t, 'a, A>
        ensures { result ≡ text.now }
    {
        Pen {
            text,
            rest: text,
            out: Vec::new(alloc),
            repairs: Vec::new(alloc),
        }
    }

    /// The bytes that aren't written yet.
    pub fn rest(&self) -> &'t [u8] {
        self.rest
    }

    /// How many bytes are.
    pub fn at(&self) -> usize {
        self.text.len().saturating_sub(self.rest.len())
    }

    /// The bytes that are.
    pub fn before(&self) -> &'t [u8] {
        &self.text[..self.at().min(self.text.len())]
    }

    /// Keeps the next bytes.
    pub fn keep(&mut self, len: usize) -> Result<(), AllocError>
        ensures { self.new ≡ self.old }
    {
        let (kept, rest) = self.rest.split_at(len.min(self.rest.len()));
        self.out.extend_from_slice(kept)?;
        self.rest = rest;
        Ok(())
    }

    /// Writes this for the next bytes, if they are these.
    pub fn mend(&mut self, was: &[u8], kind: RepairKind, now: &[u8]) -> Result<(), AllocError>
        requires { IsRepair kind was.now now.now }
        ensures { self.new ≡ self.old }
    {
        let left = self.rest;
        let Some(rest) = without(left, was) else {
            return Ok(());
        };
        let alloc = *self.out.allocator();
        let text = padded(alloc, kind, now)?;
        let repair = Repair {
            place: self.text.len() - left.len(),
            length: was.len(),
            written: text.len(),
            kind,
        };
        put(&mut self.repairs, &mut self.out, repair, text.as_slice())?;
        self.rest = rest;
        Ok(())
    }

    /// Closes a comment, if the text ends here or a tag section comes.
    pub fn close_comment(&mut self) -> Result<(), AllocError>
        ensures { self.new ≡ self.old }
    {
        let left = self.rest;
        if !ends_comment(left) {
            return Ok(());
        }
        let repair = Repair {
            place: self.text.len() - left.len(),
            length: 0,
            written: 3,
            kind: RepairKind::Comment,
        };
        put(&mut self.repairs, &mut self.out, repair, b" } ")?;
        Ok(())
    }

    /// Closes some variations, if the game ends after the next bytes, which are its result or none.
    pub fn close(&mut self, count: u32, result_len: usize) -> Result<(), AllocError>
        ensures { self.new ≡ self.old }
    {
        let left = self.rest;
        let (word, more) = left.split_at(result_len.min(left.len()));
        if !is_result(word) || !ends_game(more) {
            return Ok(());
        }
        let repair = Repair {
            place: self.text.len() - left.len(),
            length: 0,
            written: 4,
            kind: RepairKind::Unclosed,
        };
        for _ in 0..count {
            put(&mut self.repairs, &mut self.out, repair, b" \n) ")?;
        }
        Ok(())
    }

    /// Leaves out the next bytes, if none of their lines begins with a tag.
    pub fn pass_over(&mut self, len: usize) -> Result<(), AllocError>
        ensures { self.new ≡ self.old }
    {
        let left = self.rest;
        let (was, rest) = left.split_at(len.min(left.len()));
        if !is_prose(was, rest, left) {
            return Ok(());
        }
        let repair = Repair {
            place: self.text.len() - left.len(),
            length: was.len(),
            written: 2,
            kind: RepairKind::Prose,
        };
        put(&mut self.repairs, &mut self.out, repair, b"  ")?;
        self.rest = rest;
        Ok(())
    }

    /// Writes the next bytes, if they are these, as a comment after a head.
    pub fn quote(&mut self, was: &[u8], kind: RepairKind, head: &[u8]) -> Result<(), AllocError>
        requires { (now : List ℕ) → now ≡ quoted head.now was.now → IsRepair kind was.now now }
        ensures { self.new ≡ self.old }
    {
        let alloc = *self.out.allocator();
        let text = quoted(alloc, head, was)?;
        self.mend(was, kind, text.as_slice())
    }

    /// What is written, the repairs, and how many bytes of the text that took.
    pub fn finish(self) -> (Vec<u8, &'a A>, Vec<Repair, &'a A>, usize)
        ensures { (rest : List ℕ) × Rewrites (length self.entry) self.entry result.1.items result.0.items rest × (result.2 + length rest ≡ length self.entry) }
    {
        let used = self.text.len() - self.rest.len();
        let Pen {
            text: _,
            rest: _,
            out,
            repairs,
        } = self;
        (out, repairs, used)
    }
}
