//! The items of a game's text, and the place that each leads to.

ghost use Rattle.std.specs.Prelude.{◌≡◌};
ghost use Rattle.chess_items.specs.Items.{place_after};
ghost use Rattle.chess_items.specs.steps.Tokens.{item_of};

use crate::outcome::Outcome;
use crate::place::Place;

/// An item of a text. Its bytes are the text's own.
#[derive(Clone, Copy)]
pub enum Token<'t> {
    /// EF BB BF
    Mark,
    /// A byte of whitespace.
    Blank(u8),
    /// A line that `%` hides.
    Hidden,
    /// A comment between braces.
    Braced(&'t [u8]),
    /// A comment up to the line's end.
    Line(&'t [u8]),
    /// A move number or a period.
    Skipped,
    /// A move's text.
    Word(&'t [u8]),
    /// An annotation number.
    Nag(u8),
    Open,
    Close,
    Marker(Outcome),
    TagOpen,
    TagClose,
    /// A tag's name.
    Name(&'t [u8]),
    Quote,
    /// A stretch of a tag's value.
    Stretch(&'t [u8]),
    /// The same, a quotation mark or backslash that was after a backslash.
    Escaped(u8),
}

impl Token<'_> {
    ghost use Rattle.std.specs.Prelude.{◌≡◌};
    ghost use Rattle.chess_items.specs.Items.{is_white};
    ghost use Rattle.chess_items.specs.steps.Tokens.{item_of};

    /// Whether it is whitespace, a mark or a hidden line.
    #[inline(always)]
    pub fn is_white(self) -> bool
        ensures { result ≡ is_white (item_of self.entry) }
    {
        matches!(self, Token::Mark | Token::Blank(_) | Token::Hidden)
    }
}

impl Place {
    /// The place after a token that is here.
    #[inline(always)]
    pub fn after(self, token: Token<'_>) -> Place
        ensures { result ≡ place_after self (item_of token.entry) }
    {
        let in_tag = matches!(self, Place::TagLineStart | Place::InTag);
        match token {
            Token::Mark => Place::LineStart,
            Token::Blank(b'\n') if in_tag => Place::TagLineStart,
            Token::Blank(b'\n') => Place::LineStart,
            Token::Blank(_) | Token::Hidden if in_tag => Place::InTag,
            Token::Quote if matches!(self, Place::InValue) => Place::InTag,
            Token::TagOpen | Token::Name(_) => Place::InTag,
            Token::Quote | Token::Stretch(_) | Token::Escaped(_) => Place::InValue,
            _ => Place::InLine,
        }
    }
}
