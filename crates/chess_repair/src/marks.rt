//! What bytes are, and how far some of them go.

ghost use Rattle.std.specs.Prelude.{◌≡◌, not};
ghost use Rattle.std.specs.List.{list_all};
ghost use Rattle.chess_items.specs.Items.{is_blank, is_glyph, is_name_byte};

/// Whitespace: from the horizontal tab to the carriage return, and the space.
#[tactic(auto, unfolding(chess_items::specs::Items::is_blank))]
pub fn is_blank(b: u8) -> bool
    ensures { result ≡ is_blank b }
{
    matches!(b, 9..=13 | b' ')
}

/// A letter, a digit or the underscore: a byte of a tag's name (PGN 8.1.1).
#[tactic(auto, unfolding(chess_items::specs::Items::is_name_byte, chess_items::specs::Items::is_digit))]
pub fn is_name(b: u8) -> bool
    ensures { result ≡ is_name_byte b }
{
    matches!(b, b'0'..=b'9' | b'A'..=b'Z' | b'a'..=b'z' | b'_')
}

/// How many bytes come before the first that is this one; all, where none is.
pub fn len_to(stop: u8, bytes: &[u8]) -> usize {
    bytes.iter().take_while(|b| **b != stop).count()
}

/// How many blank bytes there are at the beginning.
pub fn blanks(bytes: &[u8]) -> usize {
    bytes.iter().take_while(|b| is_blank(**b)).count()
}

/// How many bytes of names there are at the beginning.
pub fn name_len(bytes: &[u8]) -> usize {
    bytes.iter().take_while(|b| is_name(**b)).count()
}

/// Whether no byte is a letter, a digit or the underscore.
pub fn say_nothing(bytes: &[u8]) -> bool
    ensures { result ≡ list_all (λ b. not (is_name_byte b)) bytes.now }
{
    bytes.iter().all(|b| !is_name(*b))
}

// A sign of annotation.
#[tactic(auto, unfolding(chess_items::specs::Items::is_glyph))]
fn is_glyph(b: u8) -> bool
    ensures { result ≡ is_glyph b }
{
    b == b'!' || b == b'?'
}

/// Whether all are signs of annotation.
pub fn are_glyphs(bytes: &[u8]) -> bool
    ensures { result ≡ list_all is_glyph bytes.now }
{
    bytes.iter().all(|b| is_glyph(*b))
}

/// How many signs of annotation there are at the beginning.
pub fn glyphs(bytes: &[u8]) -> usize {
    bytes.iter().take_while(|b| is_glyph(**b)).count()
}

/// How many digits there are at the beginning.
pub fn digits(bytes: &[u8]) -> usize {
    bytes.iter().take_while(|b| b.is_ascii_digit()).count()
}

/// The bytes after the first `len` of them.
pub fn after(bytes: &[u8], len: usize) -> &[u8] {
    &bytes[len.min(bytes.len())..]
}

/// Punctuation that belongs to no item.
pub fn is_stray(b: u8) -> bool {
    matches!(
        b,
        b',' | b'&' | b'\'' | b'"' | b'`' | b'^' | b'|' | b'\\' | b'%'
    )
}

// A byte of a word: what is no item of its own.
fn is_lump(b: u8) -> bool {
    !is_stray(b)
        && !matches!(
            b,
            0..=32
                | 127
                | b'('
                | b')'
                | b'{'
                | b'}'
                | b'['
                | b']'
                | b';'
                | b'$'
                | b'!'
                | b'?'
                | b'.'
                | b'*'
                | b'<'
                | b'>'
                | 0xa0
        )
}

// Whether a byte begins a character of UTF-8 that is no word's: a space, an ellipsis, a mark.
fn is_apart(bytes: &[u8]) -> bool {
    matches!(
        bytes,
        [0xc2, 0xa0, ..] | [0xe2, 0x80, 0xa6, ..] | [0xef, 0xbb, 0xbf, ..]
    )
}

/// How many bytes a word at the beginning has: all up to a sign of its own, a space or a control byte.
pub fn lump_len(bytes: &[u8]) -> usize {
    let mut before = 0u8;
    for at in 0..bytes.len() {
        let b = bytes[at];
        // (the byte A0 is a space, unless it is within a character)
        let is_within = before >= 0x80 && matches!(b, 0x80..=0xbf);
        if !is_within && (!is_lump(b) || is_apart(&bytes[at..])) {
            return at;
        }
        before = b;
    }
    bytes.len()
}

/// The bytes without those at their end that are blank.
pub fn without_blanks(bytes: &[u8]) -> &[u8] {
    let blank = bytes.iter().rev().take_while(|b| is_blank(**b)).count();
    &bytes[..bytes.len().saturating_sub(blank)]
}

/// The place of the last byte that is this one.
pub fn last_of(wanted: u8, bytes: &[u8]) -> Option<usize> {
    let mut found = None;
    for at in 0..bytes.len() {
        if bytes[at] == wanted {
            found = Some(at);
        }
    }
    found
}
