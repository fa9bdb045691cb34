//! How the attack counts of a colour and the evaluation are written.

ghost use Rattle.std.specs.Prelude.{◌≡◌, ℕ, ◌+◌, ◌*◌, ◌<◌, ◌≤◌, ◌++◌, decimal};
ghost use Rattle.std.specs.Fmt.{signed_decimal};
ghost use Rattle.arrayvec.specs.ArrayString.{array_string_len};
ghost use Rattle.chess_cli.specs.Answers.{rank_numbers, counts_text};

use arrayvec::ArrayString;
use chess_play::Live;
use chess_types::{Colour, Square};
use itoa::Buffer;

/// Numbers that are kept for a position.
pub trait Kept {
    ghost use Rattle.std.specs.Prelude.{ℤ};
    ghost use Rattle.chess_types.specs.declared.board.man.Colour.{Colour};

    /// The attack count of a colour on a square.
    ghost counts: { Self → Colour → ℕ → ℕ };

    /// The evaluation for White, in centipawns.
    ghost evaluation: { Self → ℤ };

    /// How many men of the colour attack the square.
    fn count(&self, colour: Colour, square: Square) -> u8
        ensures { result ≡ counts self.now colour square };

    /// The evaluation for White, in centipawns.
    fn white(&self) -> i32
        ensures { result ≡ evaluation self.now };
}

// Most are a digit alone.
#[inline(always)]
fn push_number(text: &mut ArrayString<320>, number: u8)
    requires { array_string_len text.old + 3 ≤ 320 }
    ensures bytes { text.new.bytes ≡ text.old.bytes ++ decimal number }
    ensures len { array_string_len text.new ≤ array_string_len text.old + 3 }
{
    if number < 10 {
        text.push(char::from(b'0' + number));
    } else {
        text.push_str(Buffer::new().format(number));
    }
}

// The numbers of files a to h on a rank.
fn push_rank<K: Kept>(text: &mut ArrayString<320>, kept: &K, colour: Colour, rank: u8)
    requires on_board { rank < 8 }
    requires room { array_string_len text.old + 31 ≤ 320 }
    ensures bytes { text.new.bytes ≡ text.old.bytes ++ rank_numbers (K.counts kept.now colour) rank }
    ensures len { array_string_len text.new ≤ array_string_len text.old + 31 }
{
    push_number(text, kept.count(colour, Square::from_index(8 * rank)));
    for file in 1..8 {
        text.push_str(" ");
        push_number(
            text,
            kept.count(colour, Square::from_index(8 * rank + file)),
        );
    }
}

/// The attack counts of a colour: ranks 1 to 8 separated by ` / `, in each the counts of files a to h separated by one space.
pub fn counts_text<K: Kept>(kept: &K, colour: Colour) -> ArrayString<320>
    ensures { result.bytes ≡ counts_text (K.counts kept.now colour) }
{
    let mut text = ArrayString::new();
    push_rank(&mut text, kept, colour, 0);
    for rank in 1..8 {
        text.push_str(" / ");
        push_rank(&mut text, kept, colour, rank);
    }
    text
}

/// The evaluation in centipawns, with `-` where it is negative.
pub fn eval_text<K: Kept>(kept: &K) -> ArrayString<16>
    ensures { result.bytes ≡ signed_decimal (K.evaluation kept.now) }
{
    let mut text = ArrayString::new();
    text.push_str(Buffer::new().format(kept.white()));
    text
}

impl<'k> Kept for Live<'k> {
    ghost use Rattle.chess_types.specs.board.Attack.{count};
    ghost use Rattle.chess_types.specs.board.Position.{man_on};
    ghost use Rattle.chess_eval.specs.Evaluation.{evaluation};

    ghost counts = { λ live. count (man_on live.position) };

    ghost evaluation = { λ live. evaluation (man_on live.position) };

    fn count(&self, colour: Colour, square: Square) -> u8 {
        self.counts().count(colour, square)
    }

    fn white(&self) -> i32 {
        Live::white(self)
    }
}
