//! The theorem that a best move's value is the line's value, unless the line is drawn already.

ghost use Rattle.chess_theorems.specs.SearchLaws.{BestIsWorth};

/// What the best of all legal moves is worth is what the line is worth, so the number beside a best move means what `mate_laws` of `chess_search` says
/// of a line's value: `mate N` is reported exactly where mate with the N-th move is forced. A line that is drawn already is worth nothing, whatever its
/// moves are worth.
pub fn search_laws()
    ensures best { BestIsWorth }
{}
