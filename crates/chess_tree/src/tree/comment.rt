//! Comments at a tree's cursor, their words with one space between two.

ghost use Rattle.std.specs.Prelude.{◌≡◌, [], IfOk, IsOk, OnOk};
ghost use Rattle.chess_tree.specs.Calls.{Comments};
ghost use Rattle.chess_tree.specs.Comments.{normalised, with_next_word};

use super::Tree;
use crate::fault::TreeFault;
use byte_streams::split_word;
use std::alloc::{AllocError, Allocator};

/// The bytes of whitespace: from the horizontal tab to the carriage return, and the space.
const BLANKS: &[u8] = b"\t\n\x0b\x0c\r ";

// Appends a word, after a space unless it is the first: with that comes room for the others.
fn add_word<'a, A: Allocator>(
    comment: &mut Vec<u8, &'a A>,
    word: &[u8],
    others: &[u8],
) -> Result<(), AllocError>
    ensures { OnOk result (comment.new.items ≡ with_next_word comment.old.items word.now) }
{
    if comment.is_empty() {
        comment.reserve_exact(word.len().saturating_add(others.len()))?;
    } else {
        comment.push(b' ')?;
    }
    comment.extend_from_slice(word)
}

// The words of the text, one space between two.
fn normalised<'a, A: Allocator>(alloc: &'a A, text: &[u8]) -> Result<Vec<u8, &'a A>, AllocError>
    ensures ok { IfOk result (λ comment. comment.items ≡ normalised text.now) }
    ensures no_words { normalised text.now ≡ [] → IsOk result }
{
    let mut comment = Vec::new(alloc);
    let mut rest = text;
    while let Some((word, others)) = split_word(rest, BLANKS) {
        add_word(&mut comment, word, others)?;
        rest = others;
    }
    Ok(comment)
}

impl<'a, A: Allocator> Tree<'a, A> {
    /// Sets the comment at the cursor (PGN 5): the words of the text with one space between two; an empty one removes it.
    /// `BadComment` where a right brace is in it, else `Memory` where there is none; a text without words takes none.
    pub fn set_comment(&mut self, text: &[u8]) -> Result<(), TreeFault>
        ensures { Comments text.now self.old result self.new }
    {
        if text.contains(&b'}') {
            return Err(TreeFault::BadComment);
        }
        let comment = normalised(self.nodes.alloc(), text)?;
        self.nodes.set_comment(comment)?;
        Ok(())
    }
}
