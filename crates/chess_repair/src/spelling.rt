//! One pass over the text of a game, item by item: what strict reading refuses wherever it is, is written as it was meant.

ghost use Rattle.std.specs.Prelude.{◌≡◌, [], List, ℕ, IfOk};
ghost use Rattle.chess_repair.specs.Repairs.{IsRepair, SaysNothing, quoted};
ghost use Rattle.chess_repair.specs.Tags.{IsTagMeant};
ghost use Rattle.chess_repair.specs.Spelled.{IsRewritten};

use crate::ends::ends_game;
use crate::letters::Letters;
use crate::marks::{
    after, are_glyphs, blanks, digits, glyphs, is_blank, is_name, is_stray, len_to, lump_len,
    say_nothing,
};
use crate::moves::{is_form, mend};
use crate::pen::Pen;
use crate::repair::{Repair, RepairKind};
use crate::tags::{MendedTag, TagFault, begins_tag, mend_tag, opens_tag, tag_len};
use crate::words::{is_marker, is_said, result_of, sign_of, value_of};
use chess_items::is;
use std::alloc::{AllocError, Allocator};
use std::marker::Model;

/// The most bytes that a text between brackets has where it becomes a comment.
const ASIDE: usize = 4_096;

/// The last item but whitespace.
#[derive(Clone, Copy, PartialEq, Eq)]
enum Last {
    /// None, or what says nothing of what may follow.
    Nothing,
    Tag,
    /// A move, an annotation, a comment or a variation: an annotation may follow.
    Noted,
}

/// A text that is spelled.
#[derive(Drop)]
pub struct Spelled<'a, A: Allocator> {
    /// What is written for the bytes that were used.
    pub text: Vec<u8, &'a A>,
    /// The repairs, in the order of their places.
    pub repairs: Vec<Repair, &'a A>,
    /// How many bytes were used: up to the next game.
    pub used: usize,
}

#[derive(Drop)]
struct Spelling<'t, 'a, A: Allocator> {
    alloc: &'a A,
    pen: Pen<'t, 'a, A>,
    /// The letters of a language, where the text may have those.
    letters: Option<Letters>,
    /// Where they are to be written otherwise.
    places: Vec<usize, &'a A>,
    /// How many variations are open.
    depth: u32,
    has_tags: bool,
    has_moves: bool,
    is_over: bool,
    last: Last,
    /// Whether whitespace or a comment comes right before.
    is_apart: bool,
    /// Whether the last item but whitespace is a comment with a left brace in it.
    is_nested: bool,
}

impl<'t, 'a, A: Allocator> Model for Spelling<'t, 'a, A> {
    ghost use Rattle.std.specs.Prelude.{List, ℕ};

    ghost Value = { List ℕ };

    ghost view = { λ s. s.pen };
}

// Whether the text ends in whitespace that ends a line, or is empty.
fn is_line_start(before: &[u8]) -> bool {
    for b in before.iter().rev() {
        match *b {
            b'\n' => return true,
            9 | 11..=13 | b' ' | 0xef | 0xbb | 0xbf => {}
            _ => return false,
        }
    }
    true
}

// How many bytes come before the next tag that is first on its line, after the first byte.
fn len_to_tag(text: &[u8]) -> usize {
    let mut is_first = false;
    for at in 1..text.len() {
        if is_first && opens_tag(&text[at..]) {
            return at;
        }
        is_first = text[at] == b'\n' || is_first && is_blank(text[at]);
    }
    text.len()
}

/// How a comment ends.
#[derive(Clone, Copy, PartialEq, Eq)]
enum CommentEnd {
    /// With its right brace.
    Brace,
    /// Before an empty line and a tag.
    Section,
    /// With the text.
    Text,
}

// How many bytes the comment at the start of a text has, and how it ends: with the first right brace, or before an empty line after which a tag begins.
fn comment_end(text: &[u8]) -> (usize, CommentEnd) {
    let mut feed = None;
    let mut has_empty_line = false;
    for at in 1..text.len() {
        match text[at] {
            b'}' => return (at.saturating_add(1), CommentEnd::Brace),
            b'\n' => {
                has_empty_line = feed.is_some();
                feed = feed.or(Some(at));
            }
            b if is_blank(b) => {}
            b => {
                if let Some(feed) = feed {
                    if has_empty_line && b == b'[' && begins_tag(&text[at..]) {
                        return (feed, CommentEnd::Section);
                    }
                }
                feed = None;
                has_empty_line = false;
            }
        }
    }
    (text.len(), CommentEnd::Text)
}

// An aside in these brackets on one line at the start of a text, which holds none of them and no braces; nothing where it is none.
fn aside(text: &[u8], open: u8, close: u8) -> Option<&[u8]> {
    let inner = after(text, 1);
    let len = inner
        .iter()
        .take_while(|b| !matches!(**b, b'{' | b'}' | b'\n') && **b != open && **b != close)
        .count();
    if len > ASIDE || after(inner, len).first() != Some(&close) {
        return None;
    }
    Some(&text[..len.saturating_add(2).min(text.len())])
}

// What comes after a comment within a comment, up to the outer one's right brace; nothing where it isn't so.
fn outer(text: &[u8]) -> Option<&[u8]> {
    let len = text
        .iter()
        .take_while(|b| !matches!(**b, b'{' | b'}' | b'(' | b')' | b'[' | b']'))
        .count();
    if len > ASIDE || after(text, len).first() != Some(&b'}') {
        return None;
    }
    Some(&text[..len.saturating_add(1).min(text.len())])
}

// What is at the end of an annotation that stands alone: signs of annotation or periods, and then whitespace, a bracket or the end.
fn is_alone(rest: &[u8]) -> bool {
    let len = rest
        .iter()
        .take_while(|b| matches!(**b, b'!' | b'?' | b'.'))
        .count();
    match after(rest, len).first() {
        None => true,
        Some(b) => is_blank(*b) || matches!(*b, b'(' | b')' | b'{' | b';' | b'$'),
    }
}

// A result with blanks around its sign at the start of the text: how many bytes it has.
fn spaced_result(text: &[u8]) -> Option<usize> {
    for result in [
        &b"1 - 0"[..],
        b"0 - 1",
        b"1/2 - 1/2",
        b"0.5 - 0.5",
        b"0.5-0.5",
        b"1\xe2\x80\x930",
        b"0\xe2\x80\x931",
    ] {
        if text.starts_with(result)
            && !after(text, result.len())
                .first()
                .is_some_and(|b| is_name(*b) || matches!(*b, b'/' | b'-' | b'.'))
        {
            return Some(result.len());
        }
    }
    None
}

// `e.p.` at the start of the text; no bytes where it isn't there.
fn en_passant(text: &[u8]) -> &'static [u8] {
    match text {
        [b'e', b'.', b'p', b'.', ..] => b"e.p.",
        [b'e', b'.', b'p', b, ..] if is_name(*b) => b"",
        [b'e', b'.', b'p', ..] => b"e.p",
        _ => b"",
    }
}

// Whether the digits are an annotation number, from 0 to 255.
fn is_nag(digits: &[u8]) -> bool {
    let mut value = 0u32;
    for d in digits {
        value = value
            .saturating_mul(10)
            .saturating_add(u32::from(d.saturating_sub(b'0')));
    }
    !digits.is_empty() && value <= 255
}

// The first three bytes, or the first two where these are a sign.
fn sign_at(text: &[u8]) -> &[u8] {
    let two = &text[..text.len().min(2)];
    if sign_of(two).is_some() {
        two
    } else {
        &text[..text.len().min(3)]
    }
}

// A promotion in parentheses at the start of the text, after its square.
fn parenthesis(text: &[u8]) -> usize {
    match text {
        [
            b'(',
            b'Q' | b'R' | b'B' | b'N' | b'q' | b'r' | b'b' | b'n',
            b')',
            ..
        ] => 3,
        _ => 0,
    }
}

impl<'t, 'a, A: Allocator> Spelling<'t, 'a, A> {
    // At the beginning of a text.
    fn new(alloc: &'a A, letters: Option<Letters>, text: &'t [u8]) -> Spelling<'t, 'a, A>
        ensures { result ≡ text.now }
    {
        Spelling {
            alloc,
            pen: Pen::new(alloc, text),
            letters,
            places: Vec::new(alloc),
            depth: 0,
            has_tags: false,
            has_moves: false,
            is_over: false,
            last: Last::Nothing,
            is_apart: true,
            is_nested: false,
        }
    }

    fn keep(&mut self, len: usize, last: Last) -> Result<(), AllocError>
        ensures { self.new ≡ self.old }
    {
        self.last = last;
        self.is_apart = false;
        self.is_nested = false;
        self.pen.keep(len)
    }

    // Keeps whitespace or a comment.
    fn keep_apart(&mut self, len: usize) -> Result<(), AllocError>
        ensures { self.new ≡ self.old }
    {
        self.is_apart = true;
        self.pen.keep(len)
    }

    fn keep_moves(&mut self, len: usize, last: Last) -> Result<(), AllocError>
        ensures { self.new ≡ self.old }
    {
        self.has_moves = true;
        self.keep(len, last)
    }

    // Writes this for the next bytes, as what may have an annotation after it.
    fn mend(&mut self, was: &[u8], kind: RepairKind, now: &[u8]) -> Result<(), AllocError>
        requires { IsRepair kind was.now now.now }
        ensures { self.new ≡ self.old }
    {
        self.is_apart = true;
        self.pen.mend(was, kind, now)
    }

    // Leaves bytes out.
    fn leave_out(&mut self, was: &[u8], kind: RepairKind) -> Result<(), AllocError>
        requires { IsRepair kind was.now [] }
        ensures { self.new ≡ self.old }
    {
        self.mend(was, kind, b"")
    }

    // Leaves out bytes that say nothing.
    fn leave_out_quiet(&mut self, was: &[u8], kind: RepairKind) -> Result<(), AllocError>
        requires { (was : List ℕ) → SaysNothing was → IsRepair kind was [] }
        ensures { self.new ≡ self.old }
    {
        if !say_nothing(was) {
            return self.keep(1, Last::Nothing);
        }
        self.leave_out(was, kind)
    }

    // Leaves out a byte that says nothing.
    fn leave_out_one(&mut self, rest: &[u8], kind: RepairKind) -> Result<(), AllocError>
        requires { (was : List ℕ) → SaysNothing was → IsRepair kind was [] }
        ensures { self.new ≡ self.old }
    {
        self.leave_out_quiet(&rest[..rest.len().min(1)], kind)
    }

    fn quote(&mut self, was: &[u8], kind: RepairKind) -> Result<(), AllocError>
        requires { (now : List ℕ) → now ≡ quoted [] was.now → IsRepair kind was.now now }
        ensures { self.new ≡ self.old }
    {
        self.is_apart = true;
        self.pen.quote(was, kind, b"")
    }

    // Closes the variations that are open, before a result of some bytes.
    fn close(&mut self, result_len: usize) -> Result<(), AllocError>
        ensures { self.new ≡ self.old }
    {
        self.pen.close(self.depth, result_len)?;
        self.depth = 0;
        Ok(())
    }

    // Takes a marker of the game's end.
    fn marker(&mut self, word: &[u8]) -> Result<(), AllocError>
        ensures { self.new ≡ self.old }
    {
        if self.depth > 0 {
            if !ends_game(after(self.pen.rest(), word.len())) {
                return self.quote(word, RepairKind::Marker);
            }
            self.close(word.len())?;
        }
        self.is_over = true;
        self.has_moves = true;
        match result_of(word) {
            None => self.pen.keep(word.len()),
            Some(now) => self.pen.mend(word, RepairKind::Result, now),
        }
    }

    // A left brace. A comment that isn't closed before the tags of the next game ends this game.
    fn comment(&mut self, rest: &[u8]) -> Result<(), AllocError>
        ensures { self.new ≡ self.old }
    {
        let (len, end) = comment_end(rest);
        self.is_apart = true;
        self.last = Last::Noted;
        self.pen.keep(len)?;
        match end {
            CommentEnd::Brace => {
                self.is_nested = after(&rest[..len.min(rest.len())], 1).contains(&b'{');
                return Ok(());
            }
            CommentEnd::Section => self.is_over = self.has_tags || self.has_moves,
            CommentEnd::Text => {}
        }
        self.pen.close_comment()
    }

    // A tag that is mended.
    fn tag(&mut self, tag: MendedTag<'_, 'a, A>) -> Result<(), AllocError>
        requires { IsTagMeant tag.was.now tag.text.items }
        ensures { self.new ≡ self.old }
    {
        let MendedTag { was, text, fault } = tag;
        self.has_tags = true;
        self.last = Last::Tag;
        let now = text.as_slice();
        match fault {
            TagFault::Quotes => self.mend(was, RepairKind::TagQuotes, now),
            TagFault::Bracket => self.mend(was, RepairKind::TagBracket, now),
            TagFault::Name => self.mend(was, RepairKind::TagName, now),
        }
    }

    // A left bracket: a tag, the next game, or an aside.
    fn bracket(&mut self, rest: &[u8]) -> Result<(), AllocError>
        ensures { self.new ≡ self.old }
    {
        if self.has_moves {
            if self.depth == 0 || is_line_start(self.pen.before()) && opens_tag(rest) {
                self.close(0)?;
                self.is_over = true;
                return Ok(());
            }
            return match aside(rest, b'[', b']') {
                Some(aside) => self.quote(aside, RepairKind::Bracket),
                None => self.leave_out_one(rest, RepairKind::Stray),
            };
        }
        if let Some(len) = tag_len(rest) {
            self.has_tags = true;
            return self.keep(len, Last::Tag);
        }
        match mend_tag(self.alloc, rest)? {
            Some(tag) => self.tag(tag),
            None if begins_tag(rest) => self.leave_out_one(rest, RepairKind::Stray),
            None => self.prose(rest),
        }
    }

    // Text that belongs to no game: the rest of a line after a tag, or all up to the next tag.
    fn prose(&mut self, rest: &[u8]) -> Result<(), AllocError>
        ensures { self.new ≡ self.old }
    {
        let len = if self.has_tags {
            len_to(b'\n', rest)
        } else {
            len_to_tag(rest)
        };
        self.is_apart = true;
        self.pen.pass_over(len.max(1))
    }

    // A word that is no move, no number and no marker in any form.
    fn unknown(&mut self, rest: &[u8], len: usize) -> Result<(), AllocError>
        ensures { self.new ≡ self.old }
    {
        if self.is_nested && self.is_apart {
            if let Some(aside) = outer(rest) {
                return self.quote(aside, RepairKind::Nested);
            }
        }
        let begins = !self.has_moves && self.depth == 0;
        if begins
            && (!self.has_tags
                || matches!(self.last, Last::Tag) && !is_line_start(self.pen.before()))
        {
            return self.prose(rest);
        }
        self.keep_moves(len, Last::Nothing)
    }

    // An annotation apart from its move. Whether it was one.
    fn annotation(&mut self, word: &[u8], rest: &[u8]) -> Result<bool, AllocError>
        ensures { self.new ≡ self.old }
    {
        if !(self.has_moves
            && self.is_apart
            && matches!(self.last, Last::Noted)
            && is_alone(after(rest, word.len())))
        {
            return Ok(false);
        }
        if let Some(value) = value_of(word) {
            self.mend(word, RepairKind::Value, value)?;
            return Ok(true);
        }
        if is_said(word) {
            self.leave_out(word, RepairKind::Said)?;
            return Ok(true);
        }
        let is_symbol = !word.iter().any(|b| is_name(*b)
            || matches!(*b, b'-' | b'+' | b'=' | b':' | b'#' | b'/' | b'@' | b'_'));
        if is_symbol {
            self.quote(word, RepairKind::Symbol)?;
        }
        Ok(is_symbol)
    }

    // A move whose text goes on with what it says itself, or with an evaluation, as `Bb5ch` or `Qh5+-`. Whether it was one.
    fn glued(&mut self, word: &[u8]) -> Result<bool, AllocError>
        ensures { self.new ≡ self.old }
    {
        for at in 2..word.len() {
            let (first, tail) = word.split_at(at);
            if let Some(value) = value_of(tail) {
                if !is(tail, b"D") && self.one_move(first)? {
                    self.mend(tail, RepairKind::Value, value)?;
                    return Ok(true);
                }
            } else if is_said(tail) && self.one_move(first)? {
                self.leave_out(tail, RepairKind::Said)?;
                return Ok(true);
            }
        }
        Ok(false)
    }

    // A move in a form that strict reading takes, or one that is mended. Whether it was one.
    fn one_move(&mut self, word: &[u8]) -> Result<bool, AllocError>
        ensures { self.new ≡ self.old }
    {
        if is_form(word) {
            self.keep_moves(word.len(), Last::Noted)?;
            return Ok(true);
        }
        let Some(mended) = mend(word) else {
            return Ok(false);
        };
        self.has_moves = true;
        self.last = Last::Noted;
        self.is_apart = false;
        self.pen.mend(word, mended.kind, mended.text.as_slice())?;
        Ok(true)
    }

    // A word.
    fn word(&mut self, rest: &[u8], word: &[u8]) -> Result<(), AllocError>
        ensures { self.new ≡ self.old }
    {
        if is_marker(word) || result_of(word).is_some() {
            return self.marker(word);
        }
        if word.iter().all(|b| b.is_ascii_digit()) {
            return self.keep_moves(word.len(), Last::Nothing);
        }
        let paren = parenthesis(after(rest, word.len()));
        if paren > 0
            && matches!(word, [.., b'1' | b'8'])
            && self.one_move(&rest[..word.len().saturating_add(paren).min(rest.len())])?
        {
            return Ok(());
        }
        if self.annotation(word, rest)? || self.one_move(word)? || self.glued(word)? {
            return Ok(());
        }
        self.unknown(rest, word.len())
    }

    // Keeps a word with a letter that is to be written otherwise. Whether it has one.
    fn letter(&mut self, word: &[u8], next: &[u8]) -> Result<bool, AllocError>
        ensures { self.new ≡ self.old }
    {
        let Some(letters) = self.letters else {
            return Ok(false);
        };
        let Some(at) = letters.place_in(word, next) else {
            return Ok(false);
        };
        self.places.push(self.pen.at().saturating_add(at))?;
        self.keep_moves(word.len(), Last::Noted)?;
        Ok(true)
    }

    // A sign of a word, of more than one byte. Whether it was one.
    fn word_sign(&mut self, rest: &[u8]) -> Result<bool, AllocError>
        ensures { self.new ≡ self.old }
    {
        let [0xc2..=0xf4, ..] = rest else {
            return Ok(false);
        };
        let sign = sign_at(rest);
        let Some(now) = sign_of(sign) else {
            return Ok(false);
        };
        self.pen.mend(sign, RepairKind::Sign, now)?;
        Ok(true)
    }

    // Bytes up to a space or a sign: a word, or a result with blanks.
    fn lump(&mut self, rest: &[u8], word: &[u8]) -> Result<(), AllocError>
        ensures { self.new ≡ self.old }
    {
        if let Some(len) = spaced_result(rest) {
            return self.marker(&rest[..len.min(rest.len())]);
        }
        if self.letter(word, after(rest, word.len()))? {
            return Ok(());
        }
        let e = word.len().saturating_sub(1);
        let said = en_passant(after(rest, e));
        if is_said(said) && (e == 0 || self.one_move(&word[..e.min(word.len())])?) {
            return self.leave_out(said, RepairKind::Said);
        }
        self.word(rest, word)
    }

    // A left parenthesis.
    fn open(&mut self, rest: &[u8]) -> Result<(), AllocError>
        ensures { self.new ≡ self.old }
    {
        if let [b'(', b'=' | b'A'..=b'Z' | b'a'..=b'z', b')', ..] = rest {
            return self.quote(&rest[..rest.len().min(3)], RepairKind::Offer);
        }
        self.depth = self.depth.saturating_add(1);
        self.keep_moves(1, Last::Nothing)
    }

    fn close_one(&mut self) -> Result<(), AllocError>
        ensures { self.new ≡ self.old }
    {
        if self.depth == 0 {
            let rest = self.pen.rest();
            return self.leave_out_one(rest, RepairKind::Stray);
        }
        self.depth -= 1;
        self.keep_moves(1, Last::Noted)
    }

    // An annotation number.
    fn number(&mut self, rest: &[u8]) -> Result<(), AllocError>
        ensures { self.new ≡ self.old }
    {
        let text = after(rest, 1);
        let number = &text[..digits(text).min(text.len())];
        let len = number.len().saturating_add(1);
        if !is_nag(number) {
            return self.quote(&rest[..len.min(rest.len())], RepairKind::Number);
        }
        self.keep_moves(len, Last::Noted)
    }

    // Signs of annotation.
    fn glyphs(&mut self, rest: &[u8]) -> Result<(), AllocError>
        ensures { self.new ≡ self.old }
    {
        let len = glyphs(rest);
        self.last = Last::Noted;
        self.has_moves = true;
        if len <= 2 {
            self.keep_moves(len, Last::Noted)?;
            self.is_apart = true;
            return Ok(());
        }
        let glyphs = &rest[..len.min(rest.len())];
        if glyphs.len() < 2 || !are_glyphs(glyphs) {
            return self.keep(1, Last::Nothing);
        }
        self.mend(glyphs, RepairKind::Glyphs, &glyphs[..2])
    }

    // What begins with another byte than those of words and whitespace.
    fn sign(&mut self, rest: &[u8], b: u8) -> Result<(), AllocError>
        ensures { self.new ≡ self.old }
    {
        match b {
            b'{' => self.comment(rest),
            b'[' => self.bracket(rest),
            b'(' => self.open(rest),
            b')' => self.close_one(),
            b'*' => self.marker(b"*"),
            b'.' => self.keep_moves(1, Last::Nothing),
            b'$' => self.number(rest),
            b'!' | b'?' => self.glyphs(rest),
            b'<' => match aside(rest, b'<', b'>') {
                Some(aside) => self.quote(aside, RepairKind::Angles),
                None => self.leave_out_one(rest, RepairKind::Stray),
            },
            0xa0 => self.leave_out_one(rest, RepairKind::Space),
            0..=31 | 127 => self.leave_out_one(rest, RepairKind::Control),
            _ => self.leave_out_one(rest, RepairKind::Stray),
        }
    }

    // All is written.
    fn finish(self) -> Result<Spelled<'a, A>, AllocError>
        ensures { IfOk result (λ s. IsRewritten self.entry s) }
    {
        let Spelling {
            alloc: _,
            pen,
            letters: _,
            places: _,
            depth: _,
            has_tags: _,
            has_moves: _,
            is_over: _,
            last: _,
            is_apart: _,
            is_nested: _,
        } = self;
        let (text, repairs, used) = pen.finish();
        Ok(Spelled {
            text,
            repairs,
            used,
        })
    }

    // The next item.
    fn step(&mut self) -> Result<(), AllocError>
        ensures { self.new ≡ self.old }
    {
        let rest = self.pen.rest();
        let white = blanks(rest);
        if white > 0 {
            return self.keep_apart(white);
        }
        match rest {
            [] => Ok(()),
            [0xc2, 0xa0, ..] => self.leave_out_quiet(b"\xc2\xa0", RepairKind::Space),
            [0xef, 0xbb, 0xbf, ..] if self.pen.at() == 0 => self.keep_apart(3),
            [0xef, 0xbb, 0xbf, ..] => self.leave_out_quiet(b"\xef\xbb\xbf", RepairKind::Space),
            [0xe2, 0x80, 0xa6, ..] => self.pen.mend(b"\xe2\x80\xa6", RepairKind::Dots, b"..."),
            [b';', ..] => self.keep_apart(len_to(b'\n', rest).saturating_add(1)),
            [b'%', ..] if matches!(self.pen.before(), [] | [.., b'\n'] | [0xef, 0xbb, 0xbf]) =>
                self.keep_apart(len_to(b'\n', rest)),
            [b, ..] if is_stray(*b) || *b == b'@' => self.leave_out_one(rest, RepairKind::Stray),
            [b, ..] => {
                if self.word_sign(rest)? {
                    return Ok(());
                }
                let len = lump_len(rest);
                if len > 0 {
                    self.lump(rest, &rest[..len.min(rest.len())])
                } else {
                    self.sign(rest, *b)
                }
            }
        }
    }

    // All items.
    fn run(&mut self, len: usize) -> Result<(), AllocError>
        ensures { self.new ≡ self.old }
    {
        for _ in 0..len {
            if self.is_over || self.pen.rest().is_empty() {
                break;
            }
            self.step()?;
        }
        self.close(0)
    }
}

/// The text of the game at the start of a text, up to the next game, with what strict reading refuses wherever it is written as it was meant.
///
/// # Errors
///
/// There is no memory.
pub fn spell<'a, A: Allocator>(alloc: &'a A, text: &[u8]) -> Result<Spelled<'a, A>, AllocError>
    ensures { IfOk result (λ s. IsRewritten text.now s) }
{
    let mut spelling = Spelling::new(alloc, None, text);
    spelling.run(text.len())?;
    spelling.finish()
}

/// The places of the letters of men in the moves of that game which the standard has otherwise.
///
/// # Errors
///
/// There is no memory.
pub fn letters_in<'a, A: Allocator>(
    alloc: &'a A,
    letters: Letters,
    text: &[u8],
) -> Result<Vec<usize, &'a A>, AllocError> {
    let mut spelling = Spelling::new(alloc, Some(letters), text);
    spelling.run(text.len())?;
    let Spelling { places, .. } = spelling;
    Ok(places)
}
