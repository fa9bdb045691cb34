//! A text broken into lines of at most 79 bytes as it is written.

ghost use Rattle.std.specs.Prelude.{◌≡◌, ◌<◌, ◌++◌, ◌∷◌, [], List, ℕ, length, codes, ◌≢◌, slice_set, vec_len, ◌+◌, ◌≤◌, IfOk, OnOk};
ghost use Rattle.byte_streams.specs.Words.{words};
ghost use Rattle.chess_pgn.specs.Layout.{in_lines, line_width};

use std::alloc::{AllocError, Allocator};

/// The most bytes of a line.
const WIDTH: usize = 79;

/// A text that is written in lines, after another text and an empty line.
#[derive(Drop)]
pub struct Lines<'a, A: Allocator> {
    text: Vec<u8, &'a A>,
    /// Where the space before the last word is, which may become a line feed.
    space: usize,
    /// How many bytes of that line are before it.
    column: usize,
    ghost within: { space < vec_len text },
}

impl<'a, A: Allocator> Lines<'a, A> {
    ghost use Rattle.chess_pgn.specs.steps.Adding.{Adds, HoldsText};

    /// No text after `before`, which ends with a line feed.
    pub fn new(before: Vec<u8, &'a A>) -> Result<Lines<'a, A>, AllocError>
        ensures { IfOk result (λ lines. HoldsText before.entry.items lines []) }
    {
        let mut text = before;
        let space = text.len();
        text.push(b' ')?;
        Ok(Lines {
            text,
            space,
            column: WIDTH,
        })
    }

    // Ends the last word, of `len` bytes, in its line.
    fn stay(&mut self, len: usize) -> Result<(), AllocError>
        requires fits { self.old.column + 1 + len ≤ line_width }
        ensures text { OnOk result (self.new.text.items ≡ self.old.text.items ++ 32 ∷ []) }
        ensures space { OnOk result (self.new.space ≡ length self.old.text.items) }
        ensures column { OnOk result (self.new.column ≡ self.old.column + 1 + len) }
    {
        let space = self.text.len();
        self.text.push(b' ')?;
        self.space = space;
        self.column += 1 + len;
        Ok(())
    }

    // Ends the last word, of `len` bytes, in a line of its own.
    fn break_line(&mut self, len: usize) -> Result<(), AllocError>
        ensures text { OnOk result (self.new.text.items ≡ slice_set self.old.text.items self.old.space 10 ++ 32 ∷ []) }
        ensures space { OnOk result (self.new.space ≡ length self.old.text.items) }
        ensures column { OnOk result (self.new.column ≡ len) }
    {
        let space = self.text.len();
        self.text[self.space] = b'\n';
        self.text.push(b' ')?;
        self.space = space;
        self.column = len;
        Ok(())
    }

    // Ends the last word: its line has room for it, or it begins another.
    fn end_word(&mut self) -> Result<(), AllocError>
        ensures ended { OnOk result (length self.new.text.items ≡ self.new.space + 1) }
        ensures text { OnOk result (Adds self.old self.new (32 ∷ [])) }
    {
        let len = self.text.len() - self.space - 1;
        if len == 0 {
            return Ok(());
        }
        if len < WIDTH.saturating_sub(self.column) {
            return self.stay(len);
        }
        self.break_line(len)
    }

    // A byte more.
    #[inline(always)]
    fn put(&mut self, b: u8) -> Result<(), AllocError>
        ensures { OnOk result (Adds self.old self.new (b ∷ [])) }
    {
        if b == b' ' {
            self.end_word()
        } else {
            self.text.push(b)?;
            Ok(())
        }
    }

    /// More of the text.
    #[inline(always)]
    pub fn push(&mut self, part: &[u8]) -> Result<(), AllocError>
        ensures { OnOk result (Adds self.old self.new part.now) }
    {
        for b in part {
            self.put(*b)?;
        }
        Ok(())
    }

    /// The two texts, with a line feed and an empty line after them.
    pub fn finish(self) -> Result<Vec<u8, &'a A>, AllocError>
        ensures { IfOk result (λ bytes. (before text : List ℕ) → HoldsText before self.entry text
            → words (codes " ") text ≢ [] → bytes.items ≡ before ++ 10 ∷ (in_lines text ++ 10 ∷ 10 ∷ [])) }
    {
        let mut lines = self;
        lines.end_word()?;
        let Lines {
            mut text,
            space,
            ..
        } = lines;
        text[space] = b'\n';
        text.push(b'\n')?;
        Ok(text)
    }
}
