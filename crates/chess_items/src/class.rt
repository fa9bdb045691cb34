//! The bytes that make up a run of an item: a table of their classes, and the longest run at a text's beginning.

ghost use Rattle.std.specs.Prelude.{◌≡◌, ◌==◌, not, ◌≤◌, length};
ghost use Rattle.std.specs.List.{prefix_len};
ghost use Rattle.chess_items.specs.Items.{is_blank, is_escapable};
ghost use Rattle.chess_items.specs.steps.Classes.{bit_of, has_byte};

use memchr::memchr;

/// What the bytes of a run have in common, with its bit in the table.
#[derive(Clone, Copy)]
pub enum Class {
    /// Moves, numbers and markers.
    Word = 1,
    Digit = 2,
    /// `!` and `?`
    Glyph = 4,
    /// A tag's name.
    Name = 8,
    /// A tag's value as it stands.
    Plain = 16,
    /// All but the line feed.
    Line = 32,
    /// All but the right brace.
    Braced = 64,
}

// The bits of the classes that each byte is of.
#[rattlefmt::skip]
static CLASSES: [u8; 256] = [
    112, 112, 112, 112, 112, 112, 112, 112, 112, 112, 64, 112, 112, 112, 112, 112,
    112, 112, 112, 112, 112, 112, 112, 112, 112, 112, 112, 112, 112, 112, 112, 112,
    112, 116, 96, 113, 112, 112, 112, 112, 112, 112, 112, 113, 112, 113, 112, 113,
    123, 123, 123, 123, 123, 123, 123, 123, 123, 123, 113, 112, 112, 113, 112, 116,
    112, 121, 121, 121, 121, 121, 121, 121, 121, 121, 121, 121, 121, 121, 121, 121,
    121, 121, 121, 121, 121, 121, 121, 121, 121, 121, 121, 112, 96, 112, 112, 121,
    112, 121, 121, 121, 121, 121, 121, 121, 121, 121, 121, 121, 121, 121, 121, 121,
    121, 121, 121, 121, 121, 121, 121, 121, 121, 121, 121, 112, 112, 48, 112, 112,
    112, 112, 112, 112, 112, 112, 112, 112, 112, 112, 112, 112, 112, 112, 112, 112,
    112, 112, 112, 112, 112, 112, 112, 112, 112, 112, 112, 112, 112, 112, 112, 112,
    112, 112, 112, 112, 112, 112, 112, 112, 112, 112, 112, 112, 112, 112, 112, 112,
    112, 112, 112, 112, 112, 112, 112, 112, 112, 112, 112, 112, 112, 112, 112, 112,
    112, 112, 112, 112, 112, 112, 112, 112, 112, 112, 112, 112, 112, 112, 112, 112,
    112, 112, 112, 112, 112, 112, 112, 112, 112, 112, 112, 112, 112, 112, 112, 112,
    112, 112, 112, 112, 112, 112, 112, 112, 112, 112, 112, 112, 112, 112, 112, 112,
    112, 112, 112, 112, 112, 112, 112, 112, 112, 112, 112, 112, 112, 112, 112, 112,
];

/// Whitespace: from the horizontal tab to the carriage return, and the space.
#[tactic(auto, unfolding(crate::specs::Items::is_blank))]
#[inline(always)]
pub fn is_blank(b: u8) -> bool
    ensures { result ≡ is_blank b }
{
    matches!(b, 9..=13 | b' ')
}

/// What may follow a backslash in a tag's value.
pub fn is_escapable(b: u8) -> bool
    ensures { result ≡ is_escapable b }
{
    matches!(b, b'"' | b'\\')
}

// How many bytes come before the first that is this one.
fn len_before(stop: u8, bytes: &[u8]) -> usize
    ensures run { result ≡ prefix_len (λ b. not (b == stop)) bytes.now }
    ensures within { result ≤ length bytes.now }
{
    match memchr(stop, bytes) {
        Some(at) => at,
        None => bytes.len(),
    }
}

impl Class {
    // Its bit in the table.
    #[inline(always)]
    fn bit(self) -> u8
        ensures { result ≡ bit_of self }
    {
        self as u8
    }

    #[inline(always)]
    pub fn has(self, b: u8) -> bool
        ensures { result ≡ has_byte self b }
    {
        CLASSES[usize::from(b)] & self.bit() != 0
    }

    /// The length of the longest run at the beginning.
    #[inline(always)]
    pub fn run_len(self, bytes: &[u8]) -> usize
        ensures run { result ≡ prefix_len (has_byte self) bytes.now }
        ensures within { result ≤ length bytes.now }
    {
        match self {
            Class::Line => len_before(b'\n', bytes),
            Class::Braced => len_before(b'}', bytes),
            _ => bytes.iter().take_while(|b| self.has(**b)).count(),
        }
    }
}
