//! The law of what takes items, one after another.

ghost use Rattle.std.specs.Prelude.{◌≡◌, ℕ, true, Ok, Result};
ghost use Rattle.chess_items.specs.Items.{Item};
ghost use Rattle.chess_items.specs.steps.Idle.{is_idle};
ghost use Rattle.chess_items.specs.steps.Tokens.{item_of};
ghost use Rattle.chess_items.specs.declared.taker.Taken.TheVariants.{GoesOn};

use crate::fault::PgnFault;
use crate::token::Token;

/// What becomes of an item that is offered.
#[derive(Clone, Copy)]
pub enum Taken {
    /// It is used, and more may come.
    GoesOn,
    /// It is used, and is the last one.
    Ends,
    /// It isn't used: all ended before it.
    Leaves,
}

/// What takes items, one after another.
pub trait Taker {
    ghost use Rattle.chess_items.specs.declared.fault.PgnFault.{PgnFault};
    ghost use Rattle.chess_items.specs.declared.taker.Taken.{Taken};

    /// The item at that place, counted in bytes from where reading began, may be taken with this answer, and lead from the first
    /// state to the second.
    ghost takes: { Self → ℕ → Item → Result Taken PgnFault → Self → Type 0 };

    fn take(&mut self, at: usize, token: Token<'_>) -> Result<Taken, PgnFault>
        ensures { takes self.old at (item_of token.entry) result self.new };

    /// Whether whitespace, periods and move numbers are passed over: they are taken and change nothing, and more may come.
    fn is_passing(&self) -> bool
        ensures { result ≡ true → (at : ℕ) (item : Item) → is_idle item ≡ true → takes self.now at item (Ok GoesOn) self.now };
}
