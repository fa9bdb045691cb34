//! A share of the games of a collection, so that many processes write them together.

ghost use Rattle.std.specs.Prelude.{◌≡◌, ℕ, None, IfSome, MatchOption};
ghost use Rattle.chess_games.specs.Parts as parts;
ghost use Rattle.chess_games.specs.Parts.{IsNumber, IsPart, IsWhole, is_in};

use std::marker::Model;

/// Every `step`-th game, from the one with the number `first`; both count from 1, and `first` is at most `step`.
#[derive(Clone, Copy)]
pub struct Part {
    first: u64,
    step: u64,
}

impl Model for Part {
    ghost use Rattle.std.specs.Prelude.{◌≤◌};
    ghost use Rattle.chess_games.specs.Parts as parts;

    ghost Value = { parts.Part };

    ghost view = { λ p. record { first = p.first; step = p.step } };

    ghost invariant = { λ p. (1 ≤ p.first) × (p.first ≤ p.step) };

    ghost inverse = { λ v. record { first = v.first; step = v.step } };
}

/// The number that a text spells, from 1.
pub fn positive(text: &str) -> Option<u64>
    ensures { MatchOption result ((n : ℕ) → IsNumber text.now n → ⊥) (λ n. IsNumber text.now n) }
{
    match text.parse::<u64>() {
        Ok(number) if number > 0 => Some(number),
        _ => None,
    }
}

impl Part {
    /// All games.
    pub fn whole() -> Part
        ensures { IsWhole result }
    {
        Part { first: 1, step: 1 }
    }

    /// The part that a text `K/N` spells: every N-th game, from game K. `None` where K or N is no number from 1 of digits, at most 2^64 - 1, or
    /// K is greater than N.
    pub fn parse(text: &str) -> Option<Part>
        ensures part { IfSome result (λ part. IsPart text.now part) }
        ensures none { result ≡ None → (part : parts.Part) → IsPart text.now part → ⊥ }
    {
        let Some((first, step)) = text.split_once('/') else {
            return None;
        };
        let Some(first) = positive(first) else {
            return None;
        };
        let Some(step) = positive(step) else {
            return None;
        };
        if first > step {
            return None;
        }
        Some(Part { first, step })
    }

    /// Whether the game after `before` others is in the part.
    pub fn has(self, before: u64) -> bool
        ensures { result ≡ is_in self before }
    {
        before % self.step == self.first - 1
    }
}
