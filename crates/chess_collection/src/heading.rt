//! What the tags of a text say, of which no game may be read: the values of three of them at once.

ghost use Rattle.std.specs.Prelude.{◌≡◌, ◌∷◌, List, [], IfOk, OnOk, option_map};
ghost use Rattle.chess_items.specs.Abandoned.{moves_begin};
ghost use Rattle.chess_items.specs.Items.{Item};
ghost use Rattle.chess_items.specs.steps.Tokens.{item_of};
ghost use Rattle.chess_collection.specs.Headings.{IsHeadingOf, IsThreeOf, tag_among};
ghost use Rattle.chess_collection.specs.steps.Finding.{given, is_refused};

use chess_items::{FaultKind, PgnFault, Stop, Taken, Taker, Token, Whole, at_place, is, pass};
use std::alloc::{AllocError, Global};
use std::marker::Model;

/// The most bytes of a game.
const LIMIT: usize = 1_048_576;

/// How a game's tags say that it ended, and where it began: the values of the tags Result (PGN 8.1.1.7), FEN and SetUp (PGN 9.7), of each name the first.
#[derive(Drop)]
pub struct Heading {
    result: Option<Vec<u8>>,
    fen: Option<Vec<u8>>,
    set_up: Option<Vec<u8>>,
}

impl Model for Heading {
    ghost use Rattle.std.specs.Prelude.{option_map};
    ghost use Rattle.chess_collection.specs.Headings as headings;

    ghost Value = { headings.Heading };

    ghost view = { λ h. record { result = option_map (λ v. v.items) h.result; fen = option_map (λ v. v.items) h.fen; set_up = option_map (λ v. v.items) h.set_up } };
}

/// The values of three tags, of each name the first.
#[derive(Drop)]
pub struct Three {
    first: Option<Vec<u8>>,
    second: Option<Vec<u8>>,
    third: Option<Vec<u8>>,
}

impl Model for Three {
    ghost use Rattle.std.specs.Prelude.{option_map};
    ghost use Rattle.chess_collection.specs.Headings as headings;

    ghost Value = { headings.Three };

    ghost view = { λ t. record { first = option_map (λ v. v.items) t.first; second = option_map (λ v. v.items) t.second; third = option_map (λ v. v.items) t.third } };
}

/// How much of a tag has come.
#[derive(Clone, Copy)]
enum Part {
    Before,
    Within,
    After,
}

/// Looks for the first tag of a name.
#[derive(Drop)]
struct Finder<'n> {
    name: &'n [u8],
    part: Part,
    value: Vec<u8>,
}

impl<'n> Finder<'n> {
    ghost use Rattle.std.specs.Prelude.{◌≡◌, ◌∷◌, List, [], IfOk, OnOk, option_map};
    ghost use Rattle.chess_items.specs.Items.{Item};
    ghost use Rattle.chess_items.specs.steps.Tokens.{item_of};
    ghost use Rattle.chess_collection.specs.Headings.{tag_among};
    ghost use Rattle.chess_collection.specs.steps.Finding.{given};

    fn new(alloc: Global, name: &'n [u8]) -> Finder<'n>
        ensures { (is : List Item) → given result is ≡ tag_among name.now is }
    {
        Finder {
            name,
            part: Part::Before,
            value: Vec::new(alloc),
        }
    }

    // Looks at an item.
    fn look(&mut self, token: Token<'_>) -> Result<(), AllocError>
        ensures { OnOk result ((is : List Item) → given self.new is ≡ given self.old (item_of token.entry ∷ is)) }
    {
        match self.part {
            Part::Before => {
                if let Token::Name(name) = token {
                    if is(name, self.name) {
                        self.part = Part::Within;
                        self.value.clear();
                    }
                }
            }
            Part::Within => match token {
                Token::TagClose => self.part = Part::After,
                Token::Stretch(text) => self.value.extend_from_slice(text)?,
                Token::Escaped(byte) => self.value.push(byte)?,
                _ => {}
            },
            Part::After => {}
        }
        Ok(())
    }

    // What was found.
    fn into_value(self) -> Option<Vec<u8>>
        ensures { option_map (λ v. v.items) result ≡ given self.entry [] }
    {
        match self.part {
            Part::Before => None,
            Part::Within | Part::After => Some(self.value),
        }
    }
}

/// Looks for three tags.
#[derive(Drop)]
struct Heads<'n> {
    first: Finder<'n>,
    second: Finder<'n>,
    third: Finder<'n>,
}

impl<'n> Heads<'n> {
    ghost use Rattle.std.specs.Prelude.{◌≡◌, ◌∷◌, List, OnOk};
    ghost use Rattle.chess_items.specs.Items.{Item};
    ghost use Rattle.chess_items.specs.steps.Tokens.{item_of};
    ghost use Rattle.chess_collection.specs.steps.Finding.{given};

    // Looks at an item.
    fn look(&mut self, token: Token<'_>) -> Result<(), AllocError>
        ensures first { OnOk result ((is : List Item) → given self.new.first is ≡ given self.old.first (item_of token.entry ∷ is)) }
        ensures second { OnOk result ((is : List Item) → given self.new.second is ≡ given self.old.second (item_of token.entry ∷ is)) }
        ensures third { OnOk result ((is : List Item) → given self.new.third is ≡ given self.old.third (item_of token.entry ∷ is)) }
    {
        self.first.look(token)?;
        self.second.look(token)?;
        self.third.look(token)
    }
}

// Whether no head has the item.
fn begins_moves(token: Token<'_>) -> bool
    ensures { result ≡ moves_begin (item_of token.entry) }
{
    matches!(
        token,
        Token::Skipped
            | Token::Word(_)
            | Token::Nag(_)
            | Token::Open
            | Token::Close
            | Token::Marker(_)
    )
}

impl Taker for Heads<'_> {
    ghost use Rattle.chess_collection.specs.steps.Finding.{TakesOn};

    ghost takes = { λ old at item result new. TakesOn old item result new };

    fn take(&mut self, _at: usize, token: Token<'_>) -> Result<Taken, PgnFault> {
        if begins_moves(token) {
            return Ok(Taken::Leaves);
        }
        match self.look(token) {
            Ok(()) => Ok(Taken::GoesOn),
            Err(_) => Err(at_place(0, FaultKind::Memory)),
        }
    }

    #[inline(always)]
    fn is_passing(&self) -> bool {
        false
    }
}

// Whether an item was refused.
fn is_refused(why: Stop) -> bool
    ensures { result ≡ is_refused why }
{
    matches!(why, Stop::Refused(_))
}

// A text, if it is there.
fn shown(value: &Option<Vec<u8>>) -> Option<&[u8]>
    ensures { option_map (λ v. v.now) result ≡ option_map (λ v. v.items) value.now }
{
    match value {
        Some(value) => Some(value.as_slice()),
        None => None,
    }
}

impl Three {
    ghost use Rattle.std.specs.Prelude.{◌≡◌, [], option_map};
    ghost use Rattle.chess_collection.specs.Headings.{three_none};
    ghost use Rattle.chess_collection.specs.steps.Finding.{given};

    /// The value of the first.
    pub fn first(&self) -> Option<&[u8]>
        ensures { option_map (λ v. v.now) result ≡ self.now.first }
    {
        shown(&self.first)
    }

    /// The value of the second.
    pub fn second(&self) -> Option<&[u8]>
        ensures { option_map (λ v. v.now) result ≡ self.now.second }
    {
        shown(&self.second)
    }

    /// The value of the third.
    pub fn third(&self) -> Option<&[u8]>
        ensures { option_map (λ v. v.now) result ≡ self.now.third }
    {
        shown(&self.third)
    }

    // Nothing is said.
    fn none() -> Three
        ensures { result ≡ three_none }
    {
        Three {
            first: None,
            second: None,
            third: None,
        }
    }

    // What was found.
    fn of(heads: Heads<'_>) -> Three
        ensures first { result.first ≡ given heads.entry.first [] }
        ensures second { result.second ≡ given heads.entry.second [] }
        ensures third { result.third ≡ given heads.entry.third [] }
    {
        let Heads {
            first,
            second,
            third,
        } = heads;
        Three {
            first: first.into_value(),
            second: second.into_value(),
            third: third.into_value(),
        }
    }
}

/// The values of three tags of the head of a text, as far as its items go.
///
/// # Errors
///
/// There is no memory.
pub fn three_of(
    alloc: Global,
    text: &[u8],
    first: &[u8],
    second: &[u8],
    third: &[u8],
) -> Result<Three, AllocError>
    ensures { IfOk result (λ three. IsThreeOf text.now first.now second.now third.now three) }
{
    let mut heads = Heads {
        first: Finder::new(alloc, first),
        second: Finder::new(alloc, second),
        third: Finder::new(alloc, third),
    };
    let mut whole = Whole { left: text };
    match pass(&mut whole, &mut heads, LIMIT) {
        Ok(Some(stopped)) => {
            if is_refused(stopped.why) {
                return Err(AllocError);
            }
            Ok(Three::of(heads))
        }
        Ok(None) => Ok(Three::none()),
        Err(_) => Err(AllocError),
    }
}

impl Heading {
    ghost use Rattle.std.specs.Prelude.{◌≡◌, option_map};

    /// The value of the tag Result.
    pub fn result(&self) -> Option<&[u8]>
        ensures { option_map (λ v. v.now) result ≡ self.now.result }
    {
        shown(&self.result)
    }

    /// The value of the tag FEN.
    pub fn fen(&self) -> Option<&[u8]>
        ensures { option_map (λ v. v.now) result ≡ self.now.fen }
    {
        shown(&self.fen)
    }

    /// The value of the tag SetUp.
    pub fn set_up(&self) -> Option<&[u8]>
        ensures { option_map (λ v. v.now) result ≡ self.now.set_up }
    {
        shown(&self.set_up)
    }

    // The tags of that name in that order.
    fn of(three: Three) -> Heading
        ensures result { result.result ≡ three.first }
        ensures fen { result.fen ≡ three.second }
        ensures set_up { result.set_up ≡ three.third }
    {
        Heading {
            result: three.first,
            fen: three.second,
            set_up: three.third,
        }
    }
}

/// What the tags of the head of a text say of the game's end and its beginning, as far as its items go.
///
/// # Errors
///
/// There is no memory.
pub fn heading_of(alloc: Global, text: &[u8]) -> Result<Heading, AllocError>
    ensures { IfOk result (λ heading. IsHeadingOf text.now heading) }
{
    let three = three_of(alloc, text, b"Result", b"FEN", b"SetUp")?;
    Ok(Heading::of(three))
}
