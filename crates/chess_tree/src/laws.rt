//! The law of moves that are taken back.

ghost use Rattle.chess_tree.specs.Undo.{LosesOneAtMost, UndoesAdd, UndoesPlay};

/// What holds of every tree whose cursor is at a node, where a move is taken back: after `play`, with its answer, and after `add`, all is as it was before
/// the move. Whatever comes between, no node goes but the one that was added, and that one only while nothing hangs on it.
pub fn undo_laws()
    ensures played { UndoesPlay }
    ensures added { UndoesAdd }
    ensures at_most_one { LosesOneAtMost }
{}
