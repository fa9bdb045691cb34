//! The numbers that words of a line write: a child's place, and a search's depth.

ghost use Rattle.std.specs.Prelude.{◌≡◌, ◌≤◌, IfSome};
ghost use Rattle.std.specs.Char.{is_ascii_digit};
ghost use Rattle.std.specs.List.{list_all};
ghost use Rattle.chess_cli.specs.Numbers.{depth_in, is_number, number_in};

/// The most digits of a number.
const DIGITS: usize = 6;

fn are_digits(word: &[u8]) -> bool
    ensures { result ≡ list_all is_ascii_digit word.now }
{
    word.iter().all(|byte| byte.is_ascii_digit())
}

fn is_number(word: &[u8]) -> bool
    ensures { result ≡ is_number word.now }
{
    are_digits(word) && !word.is_empty() && word.len() <= DIGITS
}

/// The number of one to six decimal digits that the word writes; zeros may come first.
pub fn number_in(word: &[u8]) -> Option<u32>
    ensures { result ≡ number_in word.now }
{
    if !is_number(word) {
        return None;
    }
    let Ok(text) = str::from_utf8(word) else {
        return None;
    };
    text.parse::<u32>().ok()
}

/// The depth of a search that the word writes, 1 to 16 plies.
pub fn depth_in(word: &[u8]) -> Option<u8>
    ensures value { result ≡ depth_in word.now }
    ensures in_range { IfSome result (λ depth. (1 ≤ depth) × (depth ≤ 16)) }
{
    match number_in(word) {
        Some(depth @ 1..=16) => Some(depth as u8),
        _ => None,
    }
}
