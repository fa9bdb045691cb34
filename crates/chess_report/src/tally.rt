//! What a report keeps while it goes over a line, ply by ply.

ghost use Rattle.std.specs.Prelude.{◌≡◌, length, max, None};
ghost use Rattle.chess_types.specs.board.Lines.{last};
ghost use Rattle.chess_types.specs.board.Repetition.{repetitions};
ghost use Rattle.chess_types.specs.board.Outcome.{status, claims};
ghost use Rattle.chess_draws.specs.LineParts.{IsAsBefore};
ghost use Rattle.chess_report.specs.MainLine.{else_here};
ghost use Rattle.chess_report.specs.steps.Tallies.{over_or};

use crate::report::Over;
use chess_draws::PlainLine;
use chess_types::Status;
use std::alloc::Allocator;

/// What is kept of the plies so far.
#[derive(Clone, Copy)]
pub(crate) struct Tally {
    pub over: Option<Over>,
    pub threefold: Option<u32>,
    pub fifty: Option<u32>,
    pub repetitions: u32,
    pub quiet: u32,
}

// What was found, else this ply where it has the property.
fn else_here(found: Option<u32>, has: bool, ply: u32) -> Option<u32>
    ensures { result ≡ else_here found has ply }
{
    match found {
        Some(_) => found,
        None if has => Some(ply),
        None => None,
    }
}

// The first end of the game, else this one where it is over.
fn over_or(over: Option<Over>, why: Status, ply: u32) -> Option<Over>
    ensures { result ≡ over_or over why ply }
{
    match over {
        Some(_) => over,
        None if why != Status::Play => Some(Over { ply, why }),
        None => None,
    }
}

impl Tally {
    /// Of no ply.
    pub(crate) fn new() -> Tally
        ensures over { result.over ≡ None }
        ensures threefold { result.threefold ≡ None }
        ensures fifty { result.fifty ≡ None }
        ensures repetitions { result.repetitions ≡ 0 }
        ensures quiet { result.quiet ≡ 0 }
    {
        Tally {
            over: None,
            threefold: None,
            fifty: None,
            repetitions: 0,
            quiet: 0,
        }
    }

    /// The last ply of the line is gone over.
    pub(crate) fn add<A: Allocator>(&mut self, line: &mut PlainLine<A>)
        requires none { line.old.looked ≡ 0 }
        ensures over { self.new.over ≡ over_or self.old.over (status line.old.line) (length line.old.line.moves) }
        ensures threefold { self.new.threefold ≡ else_here self.old.threefold (claims line.old.line).threefold (length line.old.line.moves) }
        ensures fifty { self.new.fifty ≡ else_here self.old.fifty (claims line.old.line).fifty (length line.old.line.moves) }
        ensures repetitions { self.new.repetitions ≡ max self.old.repetitions (repetitions line.old.line) }
        ensures quiet { self.new.quiet ≡ max self.old.quiet (last line.old.line).clock }
        ensures as_before { IsAsBefore line.old line.new }
    {
        let ply = line.plies();
        self.over = over_or(self.over, line.status(), ply);
        let claims = line.claims();
        self.threefold = else_here(self.threefold, claims.threefold, ply);
        self.fifty = else_here(self.fifty, claims.fifty, ply);
        self.repetitions = self.repetitions.max(line.count());
        self.quiet = self.quiet.max(line.live().position().clock);
    }
}
