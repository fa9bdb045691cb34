//! Ends that a text lacks, and text that belongs to no game.

ghost use Rattle.std.specs.Prelude.{◌≡◌, ◌++◌, true};
ghost use Rattle.chess_repair.specs.Ends.{ends_comment, ends_game, ends_here, has_feed, is_prose, is_result, is_section};

use crate::marks::is_blank;
use crate::runs::past_blanks;
use crate::tags::{begins_tag, opens_tag};
use crate::words::{is_draw, is_loss, is_marker, is_win};
use chess_items::is;

// Whether whitespace at the beginning has a line feed.
fn has_feed(text: &[u8]) -> bool
    ensures { result ≡ has_feed text.now }
{
    let mut rest = text;
    while let [b, more @ ..] = rest {
        if *b == b'\n' {
            return true;
        }
        if !is_blank(*b) {
            return false;
        }
        rest = more;
    }
    false
}

// Whether an empty line comes with the line feed at the start of the text, and then a tag.
fn is_section(text: &[u8]) -> bool
    ensures { result ≡ is_section text.now }
{
    match text {
        [b, more @ ..] => *b == b'\n' && has_feed(more) && begins_tag(past_blanks(more)),
        [] => false,
    }
}

/// Whether a comment may be closed here: at the end of the text, or before an empty line and a tag.
pub fn ends_comment(text: &[u8]) -> bool
    ensures { result ≡ ends_comment text.now }
{
    match text {
        [] => true,
        _ => is_section(text),
    }
}

// Whether the text ends here, or a tag may begin.
fn ends_here(text: &[u8]) -> bool
    ensures { result ≡ ends_here text.now }
{
    match text {
        [] => true,
        _ => opens_tag(text),
    }
}

/// Whether the text ends after whitespace, or a tag may begin.
pub fn ends_game(text: &[u8]) -> bool
    ensures { result ≡ ends_game text.now }
{
    ends_here(past_blanks(text))
}

/// Whether a word is the marker of a game's end in any form, or no word.
#[tactic(auto, unfolding(crate::specs::Ends::is_result))]
pub fn is_result(word: &[u8]) -> bool
    ensures { result ≡ is_result word.now }
{
    is(word, b"")
        || is(word, b"*")
        || is(word, b"1-0")
        || is(word, b"0-1")
        || is(word, b"1/2-1/2")
        || is_draw(word)
        || is_win(word)
        || is_loss(word)
}

/// Whether no line of a text begins with a tag. The other bytes follow it, and `all` is both.
pub fn is_prose(text: &[u8], others: &[u8], all: &[u8]) -> bool
    requires { all.now ≡ text.now ++ others.now }
    ensures { result ≡ true → is_prose true text.now others.now ≡ true }
{
    let mut is_first = true;
    let mut rest = text;
    let mut left = all;
    while let [b, more @ ..] = rest {
        if is_first && begins_tag(left) {
            return false;
        }
        is_first = *b == b'\n' || is_first && is_blank(*b);
        rest = more;
        let [_, next @ ..] = left else {
            return false;
        };
        left = next;
    }
    true
}
