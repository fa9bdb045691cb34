//! A session of the universal chess interface, event by event.

ghost use Rattle.std.specs.Prelude.{◌≡◌, ◌⊎◌, ◌≤◌, min, max, None, true, is_some, IfSome, IfNone};
ghost use Rattle.byte_streams.specs.Words.{words};
ghost use Rattle.chess_uci.specs.Commands.{gaps, command_in, claims_set as claims_set_of, without_memory, Unplaced};
ghost use Rattle.chess_uci.specs.Placing.{Grows, placed};
ghost use Rattle.chess_uci.specs.Machine.{beginning, slice_step, moment_step, line_step, idle_command, placed_at, go, quit, set_claims, introduction, is_infinite, is_waiting, depth_done, so_far, time_left, AsksForMemory, IsAhead};
ghost use Rattle.chess_uci.specs.steps.Commands.{command_of};
ghost use Rattle.chess_uci.specs.Events.{Does, Follows};
ghost use Rattle.chess_uci.specs.Within.{IsWatched, search_size, slice_size};
ghost use Rattle.chess_search.specs.Slices.{IsInRange};

use crate::command::{Command, claims_set, read_command};
use crate::event::Event;
use crate::fields::read_fields;
use crate::go::{after_searchmoves, budget, last_depth};
use crate::placing::{PlaceFault, place, start_line};
use crate::reply::Reply;
use crate::roots::roots_among;
use crate::search::{Search, Turn, one, silence};
use arrayvec::ArrayVec;
use chess_draws::Line;
use chess_key::KeyTable;
use chess_search::{Endless, Slices, Watch};
use chess_types::Move;
use std::alloc::Allocator;
use std::marker::Model;

/// A session of the universal chess interface.
#[derive(Drop)]
pub struct Session<'a, A: Allocator> {
    line: Line<'a, &'a A>,
    moment: u64,
    ended: bool,
    claims: bool,
    search: Option<Search>,
    alloc: &'a A,
    table: &'a KeyTable,
}

impl<'a, A: Allocator> Model for Session<'a, A> {
    ghost use Rattle.std.specs.Prelude.{◌≡◌};
    ghost use Rattle.chess_uci.specs.Machine.{State};
    ghost use Rattle.chess_uci.specs.steps.StateCode.{coded_session};
    ghost use Rattle.chess_uci.specs.steps.Searches.{seen, IsGoing, HasStarted};

    ghost Value = { State };

    ghost coded = { coded_session };

    ghost view = { λ s. record { line = s.line.line; moment = s.moment; ended = s.ended; claims = s.claims; search = seen s.search } };

    ghost invariant = { λ s. IsGoing s.line.line s.search × HasStarted s.moment s.search × (s.line.looked ≡ 0) };
}

// The replies to `uci`.
fn introduction() -> ArrayVec<Reply, 4>
    ensures { result.items ≡ introduction }
{
    ArrayVec::from([
        Reply::Name,
        Reply::Author,
        Reply::ClaimsOption,
        Reply::UciOk,
    ])
}

impl<'a, A: Allocator> Session<'a, A> {
    /// A session that begins, on the line of a game as it begins. Takes no memory.
    pub fn new(alloc: &'a A, table: &'a KeyTable) -> Session<'a, A>
        ensures { result ≡ beginning }
    {
        Session {
            line: start_line(alloc, table),
            moment: 0,
            ended: false,
            claims: false,
            search: None,
            alloc,
            table,
        }
    }

    // A slice of the search that runs.
    fn search_within<W: Watch>(
        &mut self,
        watch: &mut W,
        nodes: &mut u64,
    ) -> Option<ArrayVec<Reply, 4>>
        ensures made { IfSome result (λ replies. Does (slice_step self.old.search self.old) replies.items self.new) }
        ensures abandoned { IfNone result (self.new ≡ self.old) }
        ensures stays { W.says watch.new ≡ W.says watch.old }
        ensures watched { IsWatched (W.says watch.old) nodes.new (is_some result) }
        ensures at_least { min 1 (search_size self.old.line self.old.search) ≤ nodes.new }
        ensures at_most { nodes.new ≤ search_size self.old.line self.old.search }
    {
        *nodes = 0;
        let Some(search) = &mut self.search else {
            return Some(silence());
        };
        let Turn { replies, over } = search.slice_within(&mut self.line, watch, nodes)?;
        if over {
            self.search = None;
        }
        Some(replies)
    }

    // There is time to search one root more.
    fn slice(&mut self) -> ArrayVec<Reply, 4>
        ensures { Does (slice_step self.old.search self.old) result.items self.new }
    {
        let mut nodes = 0;
        let Some(replies) = self.search_within(&mut Endless, &mut nodes) else {
            unreachable!();
        };
        replies
    }

    // The clock reads the moment.
    fn reach(&mut self, moment: u64) -> ArrayVec<Reply, 4>
        ensures { Does (moment_step self.old.search (record self.old { moment = max self.old.moment moment })) result.items self.new }
    {
        self.moment = self.moment.max(moment);
        match &self.search {
            Some(search) if search.is_reached(self.moment) => self.stop(),
            _ => silence(),
        }
    }

    // A search, if one runs, ends.
    fn stop(&mut self) -> ArrayVec<Reply, 4>
        ensures { Does (line_step self.old self.old.search (command_of Command.Stop)) result.items self.new }
    {
        let Some(search) = self.search.take() else {
            return silence();
        };
        search.end()
    }

    fn quit(&mut self) -> ArrayVec<Reply, 4>
        ensures { Does (quit self.old) result.items self.new }
    {
        self.ended = true;
        self.search = None;
        silence()
    }

    fn place(&mut self, rest: &[u8]) -> ArrayVec<Reply, 4>
        requires { self.old.search ≡ None }
        ensures { Does (placed_at (placed (words gaps rest.now)) self.old) result.items self.new
            ⊎ (Grows (words gaps rest.now) × Does (idle_command self.old Unplaced) result.items self.new) }
    {
        match place(self.alloc, self.table, rest) {
            Ok(line) => {
                self.line = line;
                silence()
            }
            Err(PlaceFault::Refused) => one(Reply::Refused),
            Err(PlaceFault::Memory) => one(Reply::OutOfMemory),
        }
    }

    fn begin(&mut self) -> ArrayVec<Reply, 4>
        requires { self.old.search ≡ None }
        ensures { Does (idle_command self.old (command_of Command.NewGame)) result.items self.new }
    {
        self.line = start_line(self.alloc, self.table);
        silence()
    }

    fn go(&mut self, rest: &[u8]) -> ArrayVec<Reply, 4>
        requires { self.old.search ≡ None }
        ensures { Does (go self.old (words gaps rest.now)) result.items self.new }
    {
        let fields = read_fields(rest);
        let moves = self.line.moves();
        if moves.is_empty() && !fields.infinite {
            return one(Reply::BestMove(None));
        }
        let side = self.line.live().position().side;
        self.search = Some(Search {
            slices: Slices::start(1, roots_among(moves, after_searchmoves(rest)), self.claims),
            last: last_depth(fields, side),
            infinite: fields.infinite,
            begin: self.moment,
            budget: budget(fields, side),
            done: 0,
            completed: None,
        });
        silence()
    }

    fn set_option(&mut self, rest: &[u8]) -> ArrayVec<Reply, 4>
        ensures { Does (set_claims (claims_set_of (words gaps rest.now)) self.old) result.items self.new }
    {
        if let Some(claims) = claims_set(rest) {
            self.claims = claims;
        }
        silence()
    }

    // What a command does while no search runs.
    fn obey_idle(&mut self, command: Command) -> ArrayVec<Reply, 4>
        requires { self.old.search ≡ None }
        ensures { Does (idle_command self.old (command_of command.entry)) result.items self.new
            ⊎ (AsksForMemory (command_of command.entry) × Does (idle_command self.old (without_memory (command_of command.entry))) result.items self.new) }
    {
        match command {
            Command::Idle | Command::Stop => silence(),
            Command::Uci => introduction(),
            Command::IsReady => one(Reply::ReadyOk),
            Command::NewGame => self.begin(),
            Command::Position(rest) => self.place(rest),
            Command::Go(rest) => self.go(rest),
            Command::Quit => self.quit(),
            Command::SetOption(rest) => self.set_option(rest),
        }
    }

    // What a command does while a search runs.
    fn obey_busy(&mut self, command: Command) -> ArrayVec<Reply, 4>
        requires { is_some self.old.search ≡ true }
        ensures { Does (line_step self.old self.old.search (command_of command.entry)) result.items self.new }
    {
        match command {
            Command::Idle => silence(),
            Command::Uci => introduction(),
            Command::IsReady => one(Reply::ReadyOk),
            Command::Stop => self.stop(),
            Command::Quit => self.quit(),
            Command::NewGame | Command::Position(_) | Command::Go(_) | Command::SetOption(_) => one(
                Reply::Busy,
            ),
        }
    }

    // Obeys a line.
    fn obey(&mut self, line: &[u8]) -> ArrayVec<Reply, 4>
        ensures { Does (line_step self.old self.old.search (command_in line.now)) result.items self.new
            ⊎ (AsksForMemory (command_in line.now) × Does (line_step self.old self.old.search (without_memory (command_in line.now))) result.items self.new) }
    {
        let command = read_command(line);
        if self.searching() {
            self.obey_busy(command)
        } else {
            self.obey_idle(command)
        }
    }

    /// What the event is replied, line by line. Nothing is replied after `quit`. A slice searches one root. Memory is taken by a
    /// `position` line alone, for a FEN and for legal moves, and where it is refused, `OutOfMemory` is replied and nothing changes.
    pub fn event(&mut self, event: Event) -> ArrayVec<Reply, 4>
        ensures { Follows self.old event.entry result.items self.new }
    {
        if self.ended {
            return silence();
        }
        match event {
            Event::Line(line) => self.obey(line),
            Event::Slice => self.slice(),
            Event::Moment(moment) => self.reach(moment),
        }
    }

    /// A slice that a watch may have abandoned: what `Event::Slice` is replied, or `None` where it was abandoned, and then the session is as before. The watch
    /// is asked at each position, with the number of those that this slice has asked for, the first being 1; `nodes` says how many they were.
    pub fn slice_within<W: Watch>(
        &mut self,
        watch: &mut W,
        nodes: &mut u64,
    ) -> Option<ArrayVec<Reply, 4>>
        ensures made { IfSome result (λ replies. Follows self.old Event.Slice replies.items self.new) }
        ensures abandoned { IfNone result (self.new ≡ self.old) }
        // It is abandoned where the watch says that the time is up, and nowhere else.
        ensures stays { W.says watch.new ≡ W.says watch.old }
        ensures watched { IsWatched (W.says watch.old) nodes.new (is_some result) }
        // One position at least is asked for where a root is left, and no more than plain minimax asks for it.
        ensures at_least { min 1 (slice_size self.old) ≤ nodes.new }
        ensures at_most { nodes.new ≤ slice_size self.old }
    {
        *nodes = 0;
        if self.ended {
            return Some(silence());
        }
        let replies = self.search_within(watch, nodes)?;
        Some(replies)
    }

    /// Whether a search runs.
    pub fn searching(&self) -> bool
        ensures { result ≡ is_some self.now.search }
    {
        self.search.is_some()
    }

    /// Whether an infinite search runs, one that ends by `stop` alone.
    pub fn infinite(&self) -> bool
        ensures { result ≡ is_infinite self.now.search }
    {
        match &self.search {
            Some(search) => search.infinite,
            None => false,
        }
    }

    /// Whether an infinite search runs that has completed its last depth, or has no root: a slice does nothing then.
    pub fn waiting(&self) -> bool
        ensures value { result ≡ is_waiting self.now.search }
        ensures ahead { IsAhead self.now.search }
    {
        match &self.search {
            Some(search) => search.infinite
                && search.slices.searched() >= search.slices.roots().len(),
            None => false,
        }
    }

    /// The last depth, in plies, that the search that runs has completed; 0 before the first, and where none runs.
    pub fn depth_done(&self) -> u8
        ensures { result ≡ depth_done self.now.search }
    {
        match &self.search {
            Some(search) => search.done,
            None => 0,
        }
    }

    /// The best of the roots that were searched at the depth that is searched, and what it is worth to the side to move; `None`
    /// where none was, and where no search runs.
    pub fn so_far(&self) -> Option<(Move, i32)>
        ensures best { result ≡ so_far self.now.line self.now.search }
        ensures in_range { IsInRange result }
    {
        match &self.search {
            Some(search) => search.slices.so_far(),
            None => None,
        }
    }

    /// After how many milliseconds from the last moment the clock ends the search that runs; `None` where no clock ends it, and where none runs.
    pub fn time_left(&self) -> Option<u64>
        ensures { result ≡ time_left self.now }
    {
        match &self.search {
            Some(search) => search.time_left(self.moment),
            None => None,
        }
    }

    /// Whether `quit` came.
    pub fn ended(&self) -> bool
        ensures { result ≡ self.now.ended }
    {
        self.ended
    }
}
