//! The legal move that a text names in standard algebraic notation (PGN 8.2.3).

ghost use Rattle.std.specs.Prelude.{IfOk, ◌≡◌, ◌<◌, ◌≤◌, ℕ, true, filter};
ghost use Rattle.std.specs.FinSet.{contains};
ghost use Rattle.chess_types.specs.board.MoveParts.{MoveParts};
ghost use Rattle.chess_types.specs.board.Squares.{file_of, rank_of, squares};
ghost use Rattle.chess_types.specs.board.Legal.{is_legal, legal_moves};
ghost use Rattle.chess_san.specs.declared.form.Form.TheVariants.{Plain};
ghost use Rattle.chess_san.specs.Naming.{san_reading, the_one, names};
ghost use Rattle.chess_san.specs.steps.Origins.{Begins, BeginsAmong, ComesBy, from_each, legal_and};

use crate::course::form_in;
use crate::fault::SanFault;
use crate::form::{Course, Form};
use crate::names::names;
use crate::origins::origins;
use chess_attack::Follower;
use chess_moves::is_legal;
use chess_play::LiveWith;
use chess_types::{Kind, Move, Setup, Square, SquareSet};

/// The square of the file and the rank alone, where both are below 8.
fn square_on(file: u8, rank: u8) -> SquareSet
    ensures { (s : ℕ) → s < 64 → file_of s ≡ file → rank_of s ≡ rank → contains result s ≡ true }
{
    if file < 8 && rank < 8 {
        SquareSet::single(Square::at(file, rank))
    } else {
        SquareSet::empty()
    }
}

/// The squares from which a move without a letter may come: the one that is given, or a pawn's.
fn plain_origins(setup: &Setup, course: &Course) -> SquareSet
    ensures { ComesBy result setup.now (Plain course.now) }
{
    let Some(file) = course.origin.file else {
        return origins(setup, Kind::Pawn, course.to);
    };
    let Some(rank) = course.origin.rank else {
        return origins(setup, Kind::Pawn, course.to);
    };
    square_on(file, rank)
}

/// The squares from which a move of the form may come.
fn form_origins(setup: &Setup, form: &Form) -> SquareSet
    ensures { ComesBy result setup.now form.now }
{
    match form {
        Form::Castles(_) => setup.placement.king(setup.side),
        Form::Piece(kind, course) => origins(setup, *kind, course.to),
        Form::Plain(course) => plain_origins(setup, course),
    }
}

/// Whether the form names the move, and it is legal.
fn is_named<F: Follower>(live: &mut LiveWith<F>, form: &Form, m: Move) -> bool
    requires clock { live.old.position.clock ≤ 1000000 }
    requires number { live.old.position.number ≤ 1000000 }
    ensures value { result ≡ legal_and (names live.old.position form.now) live.old.position m }
    ensures position { live.new.position ≡ live.old.position }
    ensures words { live.new.words ≡ live.old.words }
{
    names(live.position(), form, m) && is_legal(live, m)
}

/// Those of the squares from which legal moves of the form go to the target, where their man becomes that.
fn named_among<F: Follower>(
    live: &mut LiveWith<F>,
    form: &Form,
    all: SquareSet,
    to: Square,
    promo: Option<Kind>,
) -> SquareSet
    requires clock { live.old.position.clock ≤ 1000000 }
    requires number { live.old.position.number ≤ 1000000 }
    ensures named { BeginsAmong all result (names live.old.position form.now) live.old.position to promo }
    ensures position { live.new.position ≡ live.old.position }
    ensures words { live.new.words ≡ live.old.words }
{
    let mut named = SquareSet::empty();
    for from in all.iter() {
        let passes = is_named(live, form, Move { from, to, promo });
        named.insert_if(from, passes);
    }
    named
}

/// All of them.
fn named_from<F: Follower>(
    live: &mut LiveWith<F>,
    form: &Form,
    to: Square,
    promo: Option<Kind>,
) -> SquareSet
    requires clock { live.old.position.clock ≤ 1000000 }
    requires number { live.old.position.number ≤ 1000000 }
    ensures named { Begins result (names live.old.position form.now) live.old.position to promo }
    ensures position { live.new.position ≡ live.old.position }
    ensures words { live.new.words ≡ live.old.words }
{
    let all = form_origins(live.position(), form);
    named_among(live, form, all, to, promo)
}

/// The only move from those squares.
fn only_from(from: SquareSet, to: Square, promo: Option<Kind>) -> Result<Move, SanFault>
    ensures { result ≡ the_one (from_each to promo (filter (contains from) squares)) }
{
    let mut rest = from.iter();
    let Some(from) = rest.next() else {
        return Err(SanFault::Illegal);
    };
    match rest.next() {
        None => Ok(Move { from, to, promo }),
        Some(_) => Err(SanFault::Ambiguous),
    }
}

/// The only legal move of the form to the target: the form says where its moves go and what they become.
fn only_named<F: Follower>(
    live: &mut LiveWith<F>,
    form: &Form,
    to: Square,
    promo: Option<Kind>,
) -> Result<Move, SanFault>
    requires clock { live.old.position.clock ≤ 1000000 }
    requires number { live.old.position.number ≤ 1000000 }
    requires goes { (m : MoveParts) → names live.old.position form.now m ≡ true → is_legal live.old.position m ≡ true → (m.to ≡ to) × (m.promo ≡ promo) }
    ensures value { result ≡ the_one (filter (names live.old.position form.now) (legal_moves live.old.position)) }
    ensures position { live.new.position ≡ live.old.position }
    ensures words { live.new.words ≡ live.old.words }
{
    let from = named_from(live, form, to, promo);
    only_from(from, to, promo)
}

/// The only legal move that the form names.
fn named<F: Follower>(live: &mut LiveWith<F>, form: &Form) -> Result<Move, SanFault>
    requires clock { live.old.position.clock ≤ 1000000 }
    requires number { live.old.position.number ≤ 1000000 }
    ensures value { result ≡ the_one (filter (names live.old.position form.now) (legal_moves live.old.position)) }
    ensures position { live.new.position ≡ live.old.position }
    ensures words { live.new.words ≡ live.old.words }
{
    match form {
        Form::Castles(wing) => {
            let to = wing.reached(live.position().side);
            only_named(live, form, to, None)
        }
        Form::Piece(_, course) => only_named(live, form, course.to, course.promo),
        Form::Plain(course) => only_named(live, form, course.to, course.promo),
    }
}

/// The legal move that a text names (PGN 8.2.3). The halfmove clock and the fullmove number are at most 1,000,000. All is as
/// before but for the ticks.
///
/// # Errors
///
/// `Form` where the text has none of the forms, `Illegal` where it names no legal move, `Ambiguous` where it names more than one.
#[tactic(auto, unfolding(crate::specs::Naming::san_reading))]
pub fn read<F: Follower>(live: &mut LiveWith<F>, text: &[u8]) -> Result<Move, SanFault>
    requires clock { live.old.position.clock ≤ 1000000 }
    requires number { live.old.position.number ≤ 1000000 }
    ensures value { result ≡ san_reading live.old.position text.now }
    ensures legal { IfOk result (λ m. is_legal live.old.position m ≡ true) }
    ensures position { live.new.position ≡ live.old.position }
    ensures words { live.new.words ≡ live.old.words }
{
    match form_in(text) {
        None => Err(SanFault::Form),
        Some(form) => named(live, &form),
    }
}
