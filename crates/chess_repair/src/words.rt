//! Words that aren't moves, and what is meant by them.

ghost use Rattle.std.specs.Prelude.{◌≡◌, IfSome, Some};
ghost use Rattle.chess_repair.specs.Words.{castling_of, is_dash, says_draw, is_figurine, says_loss, is_said, says_win, result_of, sign_of, number_for};

use chess_items::is;

/// The annotation number, as it is written, for a word of evaluation.
#[tactic(auto, unfolding(crate::specs::Words::number_for))]
pub fn value_of(word: &[u8]) -> Option<&'static [u8]>
    ensures { IfSome result (λ now. number_for word.now ≡ Some now.now) }
{
    if is(word, b"=") {
        Some(b"$10")
    } else if is(word, b"~") || is(word, b"\xe2\x88\x9e") {
        Some(b"$13")
    } else if is(word, b"+=") || is(word, b"+/=") || is(word, b"\xe2\xa9\xb2") {
        Some(b"$14")
    } else if is(word, b"=+") || is(word, b"=/+") || is(word, b"\xe2\xa9\xb1") {
        Some(b"$15")
    } else if is(word, b"+/-") || is(word, b"\xc2\xb1") {
        Some(b"$16")
    } else if is(word, b"-/+") || is(word, b"\xe2\x88\x93") {
        Some(b"$17")
    } else if is(word, b"+-") {
        Some(b"$18")
    } else if is(word, b"-+") {
        Some(b"$19")
    } else if is(word, b"N") || is(word, b"TN") {
        Some(b"$146")
    } else if is(word, b"D") {
        Some(b"$220")
    } else {
        None
    }
}

/// Whether the move itself says what the word does.
#[tactic(auto, unfolding(crate::specs::Words::is_said))]
pub fn is_said(word: &[u8]) -> bool
    ensures { result ≡ is_said word.now }
{
    is(word, b"ep")
        || is(word, b"e.p.")
        || is(word, b"e.p")
        || is(word, b"ch")
        || is(word, b"dis")
        || is(word, b"dbl")
        || is(word, b"disch")
        || is(word, b"dblch")
        || is(word, b"check")
        || is(word, b"mate")
        || is(word, b"+")
        || is(word, b"++")
        || is(word, b"#")
}

/// A draw in another form.
#[tactic(auto, unfolding(crate::specs::Words::says_draw))]
pub fn is_draw(word: &[u8]) -> bool
    ensures { result ≡ says_draw word.now }
{
    is(word, b"1/2")
        || is(word, b"\xc2\xbd-\xc2\xbd")
        || is(word, b"\xc2\xbd")
        || is(word, b"1/2:1/2")
        || is(word, b"0.5-0.5")
        || is(word, b"1/2 - 1/2")
        || is(word, b"0.5 - 0.5")
}

/// White's win in another form.
#[tactic(auto, unfolding(crate::specs::Words::says_win))]
pub fn is_win(word: &[u8]) -> bool
    ensures { result ≡ says_win word.now }
{
    is(word, b"1:0") || is(word, b"1-O") || is(word, b"1 - 0") || is(word, b"1\xe2\x80\x930")
}

/// Black's.
#[tactic(auto, unfolding(crate::specs::Words::says_loss))]
pub fn is_loss(word: &[u8]) -> bool
    ensures { result ≡ says_loss word.now }
{
    is(word, b"0:1") || is(word, b"O-1") || is(word, b"0 - 1") || is(word, b"0\xe2\x80\x931")
}

/// The marker for a result in another form.
#[tactic(auto, unfolding(crate::specs::Words::result_of))]
pub fn result_of(word: &[u8]) -> Option<&'static [u8]>
    ensures { IfSome result (λ now. result_of word.now ≡ Some now.now) }
{
    if is_draw(word) {
        Some(b"1/2-1/2")
    } else if is_win(word) {
        Some(b"1-0")
    } else if is_loss(word) {
        Some(b"0-1")
    } else {
        None
    }
}

/// Castling that is meant by the squares of king and rook.
#[tactic(auto, unfolding(crate::specs::Words::castling_of))]
pub fn castling_of(word: &[u8]) -> Option<&'static [u8]>
    ensures { IfSome result (λ now. castling_of word.now ≡ Some now.now) }
{
    if is(word, b"e1h1") || is(word, b"e8h8") {
        Some(b"O-O")
    } else if is(word, b"e1a1") || is(word, b"e8a8") {
        Some(b"O-O-O")
    } else {
        None
    }
}

/// Whether the word is a move of neither man.
pub fn is_null(word: &[u8]) -> bool {
    is(word, b"--")
        || is(word, b"Z0")
        || is(word, b"null")
        || is(word, b"Null")
        || is(word, b"NULL")
        || is(word, b"pass")
        || is(word, b"@@@@")
}

/// Whether the word is the marker of a game's end (PGN 8.2.6).
pub fn is_marker(word: &[u8]) -> bool {
    is(word, b"1-0") || is(word, b"0-1") || is(word, b"1/2-1/2")
}

// A dash of UTF-8, or its sign of minus.
#[tactic(auto, unfolding(crate::specs::Words::is_dash))]
fn is_dash(sign: &[u8]) -> bool
    ensures { result ≡ is_dash sign.now }
{
    is(sign, b"\xe2\x80\x90")
        || is(sign, b"\xe2\x80\x91")
        || is(sign, b"\xe2\x80\x92")
        || is(sign, b"\xe2\x80\x93")
        || is(sign, b"\xe2\x80\x94")
        || is(sign, b"\xe2\x80\x95")
        || is(sign, b"\xe2\x88\x92")
}

// A figurine of UTF-8, by the last bytes of the white and the black one.
#[tactic(auto, unfolding(crate::specs::Words::is_figurine))]
fn is_figurine(white: u8, black: u8, sign: &[u8]) -> bool
    ensures { result ≡ is_figurine white black sign.now }
{
    is(sign, &[0xe2, 0x99, white]) || is(sign, &[0xe2, 0x99, black])
}

/// What is written for a sign of more than one byte within a word: a dash, a sign of captures, a figurine.
#[tactic(auto, unfolding(crate::specs::Words::sign_of))]
pub fn sign_of(sign: &[u8]) -> Option<&'static [u8]>
    ensures { IfSome result (λ now. sign_of sign.now ≡ Some now.now) }
{
    if is_dash(sign) || is_figurine(0x99, 0x9f, sign) {
        Some(b"")
    } else if is(sign, b"\xc3\x97") {
        Some(b"x")
    } else if is_figurine(0x94, 0x9a, sign) {
        Some(b"K")
    } else if is_figurine(0x95, 0x9b, sign) {
        Some(b"Q")
    } else if is_figurine(0x96, 0x9c, sign) {
        Some(b"R")
    } else if is_figurine(0x97, 0x9d, sign) {
        Some(b"B")
    } else if is_figurine(0x98, 0x9e, sign) {
        Some(b"N")
    } else {
        None
    }
}
