//! A plain machine that answers as a session has to. It reads no line, and searches no root by itself: it asks for the best of all at each
//! completed depth.
ghost use Rattle.std.specs.Prelude.{◌≡◌, true, filter, IfSome};
ghost use Rattle.std.specs.List.{All};
ghost use Rattle.chess_types.specs.board.Texts.{move_text};
ghost use Rattle.chess_types.specs.board.Legal.{is_legal};
ghost use Rattle.chess_types.specs.board.Lines.{last};
ghost use Rattle.chess_draws.specs.LineParts.{IsAsBefore};
ghost use Rattle.chess_uci_tests.specs.Named.{is_named};

use crate::tests::lines::{BARE_KINGS, Going, Said, asked_by, is_named, names_moves, placed_by};
use arrayvec::ArrayVec;
use chess_draws::Line;
use chess_fen::read;
use chess_key::KeyTable;
use chess_search::{Nodes, best_counted};
use chess_types::Move;
use chess_uci::Reply;
use std::alloc::Allocator;

/// The line that a `position` line names.
fn line_of<'a, A: Allocator>(
    alloc: &'a A,
    table: &'a KeyTable,
    number: u64,
) -> Option<Line<'a, &'a A>>
    ensures none_looked { IfSome result (λ line. line.looked ≡ 0) }
{
    let (fen, texts) = placed_by(number);
    let mut line = Line::start(alloc, read(fen.as_bytes()).ok()?, table);
    for text in texts {
        line.push(Move::parse(text.as_bytes())?).ok()?;
    }
    Some(line)
}

/// Those of the moves that are named.
fn named_among(moves: &ArrayVec<Move, 432>) -> ArrayVec<Move, 432>
    ensures { result.items ≡ filter (λ m. is_named (move_text m)) moves.now.items }
{
    let mut named = ArrayVec::new();
    for m in moves.as_slice() {
        if is_named(m.text().as_str().as_bytes()) {
            named.push(*m);
        }
    }
    named
}

/// The roots of a `go` line: the legal moves that it names, and all where it names none of them.
#[tactic(auto, using(chess_search::proofs::RootLemmas::roots_legal, chess_search::proofs::RootLemmas::part_legal))]
fn roots_of<A: Allocator>(line: &mut Line<'_, A>, go: u64) -> ArrayVec<Move, 432>
    ensures legal { All (λ m. is_legal (last line.new.line) m ≡ true) result.items }
    ensures line { IsAsBefore line.old line.new }
{
    let moves = line.moves();
    if !names_moves(go) {
        return moves;
    }
    let named = named_among(&moves);
    if named.is_empty() { moves } else { named }
}

/// What is replied to an event.
type Replies = ArrayVec<Reply, 4>;

fn silence() -> Replies {
    ArrayVec::new()
}

fn one<T: Default + Drop>(item: T) -> ArrayVec<T, 4> {
    let mut list = ArrayVec::new();
    list.push(item);
    list
}

fn two<T: Default + Drop>(first: T, second: T) -> ArrayVec<T, 4> {
    let mut list = ArrayVec::new();
    list.push(first);
    list.push(second);
    list
}

/// A search that runs.
#[derive(Clone, Copy)]
struct Running {
    going: Going,
    roots: usize,
    searched: usize,
    done: u8,
    line: u64,
    claims: bool,
    begin: u64,
    depth: u8,
    chosen: Option<Move>,
}

/// The plain machine.
#[derive(Drop)]
pub(crate) struct Plain<'a, A: Allocator> {
    alloc: &'a A,
    table: &'a KeyTable,
    pub(crate) moment: u64,
    pub(crate) ended: bool,
    search: Option<Running>,
    position: u64,
    claims: bool,
}

impl<'a, A: Allocator> Plain<'a, A> {
    /// As it begins.
    pub(crate) fn new(alloc: &'a A, table: &'a KeyTable) -> Plain<'a, A> {
        Plain {
            alloc,
            table,
            moment: 0,
            ended: false,
            search: None,
            position: 0,
            claims: false,
        }
    }

    /// Whether a search runs, whether it is infinite, whether it waits for `stop`, and the last depth that it has completed.
    pub(crate) fn shown(&self) -> (bool, bool, bool, u8) {
        match self.search {
            None => (false, false, false, 0),
            Some(search) => {
                let infinite = search.going.infinite;
                let waits = infinite && search.searched >= search.roots;
                (true, infinite, waits, search.done)
            }
        }
    }

    /// How many roots a search has, and the first.
    fn count_roots(&self, go: u64) -> (usize, Option<Move>) {
        let Some(mut line) = line_of(self.alloc, self.table, self.position) else {
            return (0, None);
        };
        let roots = roots_of(&mut line, go);
        (roots.len(), roots.as_slice().first().copied())
    }

    /// The best of the first `number` roots of a `go` line.
    #[tactic(auto, using(crate::proofs::FirstLemmas::first_legal))]
    fn best_of_first(
        &self,
        go: u64,
        depth: u8,
        claims: bool,
        number: usize,
    ) -> Option<(Move, i32)> {
        let mut line = line_of(self.alloc, self.table, self.position)?;
        let mut roots = roots_of(&mut line, go);
        roots.truncate(number);
        let depth = depth.max(1).min(16);
        best_counted(&mut line, depth, &roots, &mut Nodes::new(), claims)
    }

    fn stop(&mut self) -> Replies {
        let running = self.search;
        self.search = None;
        match running {
            None => silence(),
            Some(search) => one(Reply::BestMove(search.chosen)),
        }
    }

    fn go(&mut self, line: u64) -> Replies {
        let going = asked_by(line);
        let (roots, chosen) = self.count_roots(line);
        if roots == 0 && !going.infinite {
            return one(Reply::BestMove(None));
        }
        self.search = Some(Running {
            going,
            roots,
            searched: 0,
            done: 0,
            line,
            claims: self.claims,
            begin: self.moment,
            depth: 1,
            chosen,
        });
        silence()
    }

    fn obey(&mut self, said: Said) -> Replies {
        match said {
            Said::NewGame => self.position = 0,
            Said::Place(number) => self.position = number,
            Said::Misplace => return one(Reply::Refused),
            Said::Claims(claims) => self.claims = claims,
            Said::Go(number) => return self.go(number),
            _ => {}
        }
        silence()
    }

    /// Hears a line.
    pub(crate) fn hear(&mut self, said: Said) -> Replies {
        match said {
            Said::Nothing => silence(),
            Said::Uci => ArrayVec::from([
                Reply::Name,
                Reply::Author,
                Reply::ClaimsOption,
                Reply::UciOk,
            ]),
            Said::Ready => one(Reply::ReadyOk),
            Said::Stop => self.stop(),
            Said::Quit => {
                self.ended = true;
                self.search = None;
                silence()
            }
            _ => {
                if self.search.is_some() {
                    return one(Reply::Busy);
                }
                self.obey(said)
            }
        }
    }

    /// Reaches a moment.
    pub(crate) fn reach(&mut self, moment: u64) -> Replies {
        self.moment = self.moment.max(moment);
        let running = self.search;
        let Some(search) = running else {
            return silence();
        };
        match search.going.budget {
            Some(budget) if self.moment.saturating_sub(search.begin) >= budget => self.stop(),
            _ => silence(),
        }
    }

    fn report(&mut self, running: Running, best: Move, value: i32) -> Replies {
        let depth = running.depth;
        let info = Reply::Info { depth, best, value };
        let is_last = depth >= running.going.last;
        if is_last && !running.going.infinite {
            self.search = None;
            return two(info, Reply::BestMove(Some(best)));
        }
        let (next, searched) = if is_last {
            (depth, running.roots)
        } else {
            (depth.saturating_add(1), 0)
        };
        self.search = Some(Running {
            depth: next,
            searched,
            done: depth,
            chosen: Some(best),
            ..running
        });
        one(info)
    }

    /// Searches one root more.
    pub(crate) fn slice(&mut self) -> Replies {
        let running = self.search;
        match running {
            Some(search) if search.searched < search.roots => self.search_one(search),
            _ => silence(),
        }
    }

    fn search_one(&mut self, running: Running) -> Replies {
        let (line, depth, claims) = (running.line, running.depth, running.claims);
        let roots = running.roots;
        let searched = running.searched.saturating_add(1);
        if searched < roots {
            self.search = Some(Running {
                searched,
                ..running
            });
            return silence();
        }
        match self.best_of_first(line, depth, claims, roots) {
            Some((best, value)) => self.report(running, best, value),
            None => silence(),
        }
    }

    /// A search that is deep enough for a test.
    pub(crate) fn is_deep(&self) -> bool {
        let running = self.search;
        match running {
            Some(search) => search.done >= 3 && self.position != BARE_KINGS,
            None => false,
        }
    }

    /// The best of the roots that were searched at the last depth.
    pub(crate) fn so_far(&self) -> Option<(Move, i32)> {
        let running = self.search?;
        let (line, depth, claims) = (running.line, running.depth, running.claims);
        self.best_of_first(line, depth, claims, running.searched)
    }
}
