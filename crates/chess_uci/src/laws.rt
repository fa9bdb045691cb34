//! Laws of sessions, whatever events come.

ghost use Rattle.chess_uci.specs.Laws.{AnswersEachGo, AnswersAtTheEnd, IsReadyAlone, SilentAfterQuit, ReportsTheBest, SearchStays};

/// What holds of every list of events, from a session's beginning: its clauses are laws of the machine that `Session::event` is, and it
/// does nothing. There are as many best moves as `go` lines before `quit` that are not refused as busy, less one where a search
/// runs or ran at `quit`; each is reported where its search ends by its last depth, by time or by `stop`, or at once where there is no
/// legal move. `isready` is answered at its own event and changes nothing else. Nothing is answered after `quit`. What is reported of a
/// depth, and each best move, is the best among the roots, whatever events came between. The line, the roots, the last depth and the
/// end of a search stay while it runs.
pub fn session_laws()
    ensures each_go { AnswersEachGo }
    ensures at_the_end { AnswersAtTheEnd }
    ensures ready { IsReadyAlone }
    ensures silent { SilentAfterQuit }
    ensures best { ReportsTheBest }
    ensures stays { SearchStays }
{}
