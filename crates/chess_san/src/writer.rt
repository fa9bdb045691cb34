//! The text of a legal move in standard algebraic notation, with what distinguishes it, and its mark (PGN 8.2.3).

ghost use Rattle.std.specs.Prelude.{◌≡◌, ◌+◌, ◌<◌, ◌≤◌, ◌++◌, ◌∷◌, [], IfSome, IsTrue, Ok, Some, false, length, filter, None, ◌==◌};
ghost use Rattle.std.specs.List.{list_any};
ghost use Rattle.std.specs.FinSet.{contains};
ghost use Rattle.chess_types.specs.board.Squares.{file_of, rank_of, squares};
ghost use Rattle.arrayvec.specs.ArrayString.{array_string_len};
ghost use Rattle.chess_types.specs.board.Men.{is_pawn};
ghost use Rattle.chess_types.specs.board.Texts.{square_text};
ghost use Rattle.chess_types.specs.board.Position.{man_on};
ghost use Rattle.chess_types.specs.board.After.{after};
ghost use Rattle.chess_types.specs.board.Legal.{is_legal};
ghost use Rattle.chess_san.specs.steps.Origins.{Begins, BeginsAmong, legal_and};
ghost use Rattle.chess_san.specs.Naming.{named, san_reading};
ghost use Rattle.chess_san.specs.Writing.{piece_letter, byte_from, captures, capture_text, becoming_text, pawn_text, piece_text, rivals, is_rival, origin_by, origin_among, mark_text, text_by, bare_text, san};

use crate::form::Origin;
use crate::names::is_kind;
use crate::origins::origins;
use arrayvec::ArrayString;
use chess_attack::Follower;
use chess_moves::{has_legal, in_check, is_legal};
use chess_play::{LiveWith, is_en_passant};
use chess_types::{Kind, Man, Move, Setup, Square, SquareSet, Wing};

fn is_rival(setup: &Setup, kind: Kind, from: Square, to: Square, other: Move) -> bool
    ensures { result ≡ is_rival setup.now kind from to other }
{
    other.to == to && other.from != from && is_kind(kind, setup.placement.get(other.from))
}

/// Whether the move is that of a rival, and legal.
fn is_legal_rival<F: Follower>(
    live: &mut LiveWith<F>,
    kind: Kind,
    from: Square,
    to: Square,
    other: Move,
) -> bool
    requires clock { live.old.position.clock ≤ 1000000 }
    requires number { live.old.position.number ≤ 1000000 }
    ensures value { result ≡ legal_and (is_rival live.old.position kind from to) live.old.position other }
    ensures position { live.new.position ≡ live.old.position }
    ensures words { live.new.words ≡ live.old.words }
{
    is_rival(live.position(), kind, from, to, other) && is_legal(live, other)
}

/// Those of the squares from which rivals have a legal move to the target.
fn rivals_among<F: Follower>(
    live: &mut LiveWith<F>,
    kind: Kind,
    all: SquareSet,
    from: Square,
    to: Square,
) -> SquareSet
    requires clock { live.old.position.clock ≤ 1000000 }
    requires number { live.old.position.number ≤ 1000000 }
    ensures rivals { BeginsAmong all result (is_rival live.old.position kind from to) live.old.position to None }
    ensures position { live.new.position ≡ live.old.position }
    ensures words { live.new.words ≡ live.old.words }
{
    let mut others = SquareSet::empty();
    for other in all.iter() {
        let m = Move {
            from: other,
            to,
            promo: None,
        };
        let passes = is_legal_rival(live, kind, from, to, m);
        others.insert_if(other, passes);
    }
    others
}

/// All of them.
fn rivals<F: Follower>(live: &mut LiveWith<F>, kind: Kind, from: Square, to: Square) -> SquareSet
    requires clock { live.old.position.clock ≤ 1000000 }
    requires number { live.old.position.number ≤ 1000000 }
    ensures rivals { Begins result (is_rival live.old.position kind from to) live.old.position to None }
    ensures position { live.new.position ≡ live.old.position }
    ensures words { live.new.words ≡ live.old.words }
{
    let all = origins(live.position(), kind, to);
    rivals_among(live, kind, all, from, to)
}

/// Whether there is none of them.
fn are_none(others: SquareSet) -> bool
    ensures { result ≡ (length (filter (contains others) squares) == 0) }
{
    others.iter().next().is_none()
}

/// Whether one of them is on the file of the square.
fn share_file(others: SquareSet, from: Square) -> bool
    ensures { result ≡ list_any (λ s. file_of s == file_of from) (filter (contains others) squares) }
{
    !are_none(others.intersection(SquareSet::file(from.file())))
}

/// Whether one of them is on the rank of the square.
fn share_rank(others: SquareSet, from: Square) -> bool
    ensures { result ≡ list_any (λ s. rank_of s == rank_of from) (filter (contains others) squares) }
{
    !are_none(others.intersection(SquareSet::rank(from.rank())))
}

/// What distinguishes a man from others: whether there are none, and whether one of them shares its file, or its rank (PGN 8.2.3.4).
fn origin_by(none: bool, file: bool, rank: bool, from: Square) -> Origin
    ensures value { result ≡ origin_by none file rank from }
    ensures file { IfSome result.file (λ f. f < 8) }
    ensures rank { IfSome result.rank (λ r. r < 8) }
{
    if none {
        Origin::NOWHERE
    } else if !file {
        Origin {
            file: Some(from.file()),
            rank: None,
        }
    } else if !rank {
        Origin {
            file: None,
            rank: Some(from.rank()),
        }
    } else {
        Origin {
            file: Some(from.file()),
            rank: Some(from.rank()),
        }
    }
}

/// What distinguishes the man that moves from its rivals.
fn origin_of<F: Follower>(live: &mut LiveWith<F>, kind: Kind, from: Square, to: Square) -> Origin
    requires plain { is_pawn kind ≡ false }
    requires clock { live.old.position.clock ≤ 1000000 }
    requires number { live.old.position.number ≤ 1000000 }
    ensures value { result ≡ origin_among (rivals live.old.position kind from to) from }
    ensures file { IfSome result.file (λ f. f < 8) }
    ensures rank { IfSome result.rank (λ r. r < 8) }
    ensures position { live.new.position ≡ live.old.position }
    ensures words { live.new.words ≡ live.old.words }
{
    let others = rivals(live, kind, from, to);
    let none = are_none(others);
    let file = share_file(others, from);
    let rank = share_rank(others, from);
    origin_by(none, file, rank, from)
}

fn captures(setup: &Setup, man: Man, m: Move) -> bool
    ensures { result ≡ captures setup.now man m }
{
    setup.placement.get(m.to).is_some() || is_en_passant(setup.target, man, m)
}

// One of the eight bytes that begin with the first, if its number is given: the letter of a file, or the digit of a rank.
fn push_one_of(text: &mut ArrayString<8>, first: u8, number: Option<u8>)
    requires ascii { first ≤ 120 }
    requires below { IfSome number (λ n. n < 8) }
    requires room { array_string_len text.old + 1 ≤ 8 }
    ensures bytes { text.new.bytes ≡ text.old.bytes ++ byte_from first number }
    ensures len { array_string_len text.new ≤ array_string_len text.old + 1 }
{
    if let Some(number) = number {
        text.push(char::from(first + number));
    }
}

fn push_capture(text: &mut ArrayString<8>, taken: bool)
    requires room { array_string_len text.old + 1 ≤ 8 }
    ensures bytes { text.new.bytes ≡ text.old.bytes ++ capture_text taken }
    ensures len { array_string_len text.new ≤ array_string_len text.old + 1 }
{
    if taken {
        text.push_str("x");
    }
}

fn push_square(text: &mut ArrayString<8>, square: Square)
    requires room { array_string_len text.old + 2 ≤ 8 }
    ensures bytes { text.new.bytes ≡ text.old.bytes ++ square_text square }
    ensures len { array_string_len text.new ≤ array_string_len text.old + 2 }
{
    text.push_str(&square.text());
}

fn push_letter(text: &mut ArrayString<8>, kind: Kind)
    requires room { array_string_len text.old + 1 ≤ 8 }
    ensures bytes { text.new.bytes ≡ text.old.bytes ++ piece_letter kind ∷ [] }
    ensures len { array_string_len text.new ≤ array_string_len text.old + 1 }
{
    text.push(kind.letter().to_ascii_uppercase());
}

fn push_promotion(text: &mut ArrayString<8>, promo: Option<Kind>)
    requires room { array_string_len text.old + 2 ≤ 8 }
    ensures bytes { text.new.bytes ≡ text.old.bytes ++ becoming_text promo }
    ensures len { array_string_len text.new ≤ array_string_len text.old + 2 }
{
    if let Some(kind) = promo {
        text.push_str("=");
        push_letter(text, kind);
    }
}

// A pawn's move; the file that it leaves is given where it captures.
#[tactic(auto, unfolding(crate::specs::Writing::pawn_text))]
fn pawn_text(taken: bool, m: Move) -> ArrayString<8>
    ensures bytes { result.bytes ≡ pawn_text taken m }
    ensures len { array_string_len result ≤ 6 }
{
    let file = if taken { Some(m.from.file()) } else { None };
    let mut text = ArrayString::new();
    push_one_of(&mut text, b'a', file);
    push_capture(&mut text, taken);
    push_square(&mut text, m.to);
    push_promotion(&mut text, m.promo);
    text
}

#[tactic(auto, unfolding(crate::specs::Writing::piece_text))]
fn piece_text(kind: Kind, origin: Origin, taken: bool, to: Square) -> ArrayString<8>
    requires file { IfSome origin.file (λ f. f < 8) }
    requires rank { IfSome origin.rank (λ r. r < 8) }
    ensures bytes { result.bytes ≡ piece_text kind origin taken to }
    ensures len { array_string_len result ≤ 6 }
{
    let mut text = ArrayString::new();
    push_letter(&mut text, kind);
    push_one_of(&mut text, b'a', origin.file);
    push_one_of(&mut text, b'1', origin.rank);
    push_capture(&mut text, taken);
    push_square(&mut text, to);
    text
}

// The text of a man's move without the mark of check or mate, where that distinguishes him from others.
pub(crate) fn text_by(setup: &Setup, man: Man, origin: Origin, m: Move) -> ArrayString<8>
    requires file { IfSome origin.file (λ f. f < 8) }
    requires rank { IfSome origin.rank (λ r. r < 8) }
    ensures bytes { result.bytes ≡ text_by setup.now man origin m }
    ensures len { array_string_len result ≤ 6 }
{
    if Wing::KingSide.is_castling(man, m) {
        let mut text = ArrayString::new();
        text.push_str("O-O");
        return text;
    }
    if Wing::QueenSide.is_castling(man, m) {
        let mut text = ArrayString::new();
        text.push_str("O-O-O");
        return text;
    }
    let taken = captures(setup, man, m);
    match man.kind {
        Kind::Pawn => pawn_text(taken, m),
        Kind::Knight | Kind::Bishop | Kind::Rook | Kind::Queen | Kind::King => {
            piece_text(man.kind, origin, taken, m.to)
        }
    }
}

// The text of a man's move without the mark of check or mate.
fn bare_text<F: Follower>(live: &mut LiveWith<F>, man: Man, m: Move) -> ArrayString<8>
    requires here { man_on live.old.position m.from ≡ Some man }
    requires clock { live.old.position.clock ≤ 1000000 }
    requires number { live.old.position.number ≤ 1000000 }
    ensures bytes { result.bytes ≡ bare_text live.old.position (Some man) m }
    ensures len { array_string_len result ≤ 6 }
    ensures position { live.new.position ≡ live.old.position }
    ensures words { live.new.words ≡ live.old.words }
{
    if man.kind.is_pawn() {
        return text_by(live.position(), man, Origin::NOWHERE, m);
    }
    let origin = origin_of(live, man.kind, m.from, m.to);
    text_by(live.position(), man, origin, m)
}

/// The mark after the text of the move that led to a position: `+` where its king is in check, `#` where it is mated,
/// nothing else (PGN 8.2.3.5). Both counters are at most 1,000,000. All is as before but for the ticks.
#[tactic(auto, unfolding(crate::specs::Writing::mark_text))]
pub fn write_mark<F: Follower>(live: &mut LiveWith<F>) -> &'static str
    requires clock { live.old.position.clock ≤ 1000000 }
    requires number { live.old.position.number ≤ 1000000 }
    ensures value { result.now ≡ mark_text live.old.position }
    ensures len { length result.now ≤ 1 }
    ensures position { live.new.position ≡ live.old.position }
    ensures words { live.new.words ≡ live.old.words }
{
    if !in_check(live) {
        ""
    } else if has_legal(live) {
        "+"
    } else {
        "#"
    }
}

/// The man that makes the move.
pub(crate) fn man_of(setup: &Setup, m: Move) -> Option<Man>
    ensures { result ≡ man_on setup.now m.from }
{
    setup.placement.get(m.from)
}

/// The text of a legal move in standard algebraic notation (PGN 8.2.3) without its mark, at most 6 bytes: `write_mark`, asked after the
/// move, gives the rest. The halfmove clock and the fullmove number are below 1,000,000. All is as before but for the ticks.
#[tactic(auto, unfolding(crate::specs::Writing::san))]
pub fn write_unmarked<F: Follower>(live: &mut LiveWith<F>, m: Move) -> ArrayString<8>
    requires legal { IsTrue (is_legal live.old.position m) }
    requires clock { live.old.position.clock < 1000000 }
    requires number { live.old.position.number < 1000000 }
    ensures bytes { result.bytes ++ mark_text (after live.old.position m) ≡ san live.old.position m }
    ensures len { array_string_len result ≤ 6 }
    ensures position { live.new.position ≡ live.old.position }
    ensures words { live.new.words ≡ live.old.words }
{
    match man_of(live.position(), m) {
        None => unreachable!(),
        Some(man) => bare_text(live, man, m),
    }
}

/// The text of a legal move in standard algebraic notation (PGN 8.2.3), at most 7 bytes. It names that move alone, and `read`
/// answers it. The halfmove clock and the fullmove number are below 1,000,000. All is as before but for the ticks.
pub fn write<F: Follower>(live: &mut LiveWith<F>, m: Move) -> ArrayString<8>
    requires legal { IsTrue (is_legal live.old.position m) }
    requires clock { live.old.position.clock < 1000000 }
    requires number { live.old.position.number < 1000000 }
    ensures bytes { result.bytes ≡ san live.old.position m }
    ensures named { named live.old.position result.bytes ≡ m ∷ [] }
    ensures read_back { san_reading live.old.position result.bytes ≡ Ok m }
    ensures position { live.new.position ≡ live.old.position }
    ensures words { live.new.words ≡ live.old.words }
{
    let mut text = write_unmarked(live, m);
    let made = live.make(m);
    let mark = write_mark(live);
    live.undo(made);
    text.push_str(mark);
    text
}
