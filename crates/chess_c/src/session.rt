//! What stays where C keeps it: a board, a search, an engine, and the page on which answers to lines are written.
ghost use Rattle.std.specs.Prelude.{◌≡◌, ◌≤◌, [], IfOk, IfSome, is_some};
ghost use Rattle.chess_tree.specs.GameTree.{line_to};
ghost use Rattle.chess_pgn.specs.Written.{game_text};
ghost use Rattle.chess_bindings.specs.Answers.{IsLineAnswered};
ghost use Rattle.chess_bindings.specs.Handed.{IsAnsweredBy};
ghost use Rattle.chess_bindings.specs.Within.{says_within};
ghost use Rattle.chess_c.specs.Asked.{IsBest, IsBestWithin, IsFollowed};
ghost use Rattle.chess_c.specs.Moves.{move_meant};
ghost use Rattle.chess_c.specs.Calls.{IsLeft};
ghost use Rattle.chess_uci.specs.Machine.{is_infinite, is_waiting, time_left};
ghost use Rattle.chess_c.specs.Engines.{IsRepliedFrom, IsRepliedWithinFrom};
ghost use Rattle.chess_c.specs.Held.{new_board, copy_of};
ghost use Rattle.chess_bindings.specs.Loads.{LoadsFrom};
ghost use Rattle.chess_bindings.specs.Next.{LoadsNext};
ghost use Rattle.chess_c.specs.Searches.{IsBegunFrom, SlicedFrom, SlicedWithinFrom, best_of};

use crate::kept_engine::Engine;
use crate::moves::{CMove, hand_moves};
use crate::search::{Search, best_of_all};
use chess_bindings::{
    ABANDONED, ARGUMENT, Heading, ILLEGAL, MEMORY, NONE, OK, Within, answer, cursor_line, load,
    load_next, whole_game,
};
use chess_cli::Board;
use chess_key::KeyTable;
use chess_loop::OutputBuffer;
use chess_memory::{Handle, Heap, handle_to};
use chess_search::{Nodes, replies_within};
use chess_tree::TreeFault;
use chess_types::Move;
use chess_uci::Event;
use std::marker::Model;

/// A board, a search and an engine whose allocator and keys stay for good. A search takes memory once it is begun, an engine once an event comes, and the page once a
/// line is answered; it is empty between calls.
#[derive(Drop)]
pub struct Session {
    pub board: Board<'static, Heap>,
    pub heading: Heading<'static, Heap>,
    pub search: Option<Box<Search, Handle>>,
    engine: Engine,
    page: Option<OutputBuffer<Handle>>,
    table: &'static KeyTable,
}

impl Model for Session {
    ghost use Rattle.std.specs.Prelude.{◌≡◌, [], IfSome, option_map};
    ghost use Rattle.chess_c.specs.Held.{Held, coded_held};

    ghost Value = { Held };

    ghost coded = { coded_held };

    ghost view = { λ s. record { board = s.board; heading = s.heading; search = option_map (λ kept. kept.value) s.search; engine = s.engine } };

    ghost invariant = { λ s. IfSome s.page (λ page. page ≡ []) };
}

// The best move and its value, if there is one.
fn hand_best(best: Option<(Move, i32)>, m: &mut CMove, value: &mut i32) -> u32
    ensures { IsBest best result m.old m.new value.old value.new }
{
    match best {
        None => NONE,
        Some((found, worth)) => {
            *m = CMove::of(found);
            *value = worth;
            OK
        }
    }
}

impl Session {
    /// A board as a game begins, and an engine at its start; `Memory` where there is none.
    pub fn new(alloc: &'static Heap, table: &'static KeyTable) -> Result<Session, TreeFault>
        ensures { IfOk result (λ s. s ≡ new_board) }
    {
        let board = Board::new(alloc, table)?;
        Ok(Session {
            board,
            heading: Heading::new(alloc),
            search: None,
            engine: Engine::new(),
            page: None,
            table,
        })
    }

    /// Another one with the same game, at the same node, no search, and an engine at its start; `Memory` where there is none.
    pub fn copy(&self) -> Result<Session, TreeFault>
        ensures { IfOk result (λ s. s ≡ copy_of self.now) }
    {
        let board = self.board.copy()?;
        let heading = self.heading.clone()?;
        Ok(Session {
            board,
            heading,
            search: None,
            engine: Engine::new(),
            page: None,
            table: self.table,
        })
    }

    /// What it takes memory by.
    pub fn handle(&self) -> Handle {
        handle_to(self.heading.alloc())
    }

    // The page, taken out; where there is none yet, another one. `None` where there is no memory for that.
    fn take_page(&mut self) -> Option<OutputBuffer<Handle>>
        ensures empty { IfSome result (λ page. page ≡ []) }
        ensures as_before { self.new ≡ self.old }
    {
        if let Some(page) = self.page.take() {
            return Some(page);
        }
        match OutputBuffer::new(self.handle()) {
            Ok(page) => Some(page),
            Err(_) => None,
        }
    }

    /// Gives the page back, if there is one; the next line asks for its memory again.
    pub fn trim(&mut self)
        ensures { self.new ≡ self.old }
    {
        self.page = None;
    }

    /// Answers a line, and writes the text: 0, or `ROOM` where it is longer than the room for it; the line has been answered all the same. Or `MEMORY` where
    /// there is none for the page or to gather the answer in: all is as before.
    pub fn answer(&mut self, line: &[u8], room: &mut [u8], count: &mut usize) -> u32
        ensures board { IsLineAnswered self.old.board line.now result count.old count.new room.old room.new self.new.board }
        ensures heading { self.new.heading ≡ self.old.heading }
        ensures search { self.new.search ≡ self.old.search }
        ensures engine { self.new.engine ≡ self.old.engine }
    {
        let handle = self.handle();
        let Some(mut page) = self.take_page() else {
            return MEMORY;
        };
        let code = answer(&mut self.board, &mut page, handle, line, room, count);
        self.page = Some(page);
        code
    }

    /// Writes the whole game in export form, with its tags and its end (PGN 3.2).
    pub fn whole_game(&self, room: &mut [u8], count: &mut usize) -> u32
        ensures { IsAnsweredBy (game_text (record { tags = self.now.heading.tags; outcome = self.now.heading.outcome; tree = self.now.board.tree })) result count.old count.new room.old room.new }
    {
        whole_game(&self.heading, self.board.tree(), room, count)
    }

    /// What the event is replied, each reply on a line of its own; `MEMORY` where it is the first one, and there is no memory for the engine.
    pub fn event(&mut self, event: Event, room: &mut [u8], count: &mut usize) -> u32
        ensures engine { IsRepliedFrom event.entry self.old.engine self.new.engine result count.old count.new room.old room.new }
        ensures board { self.new.board ≡ self.old.board }
        ensures heading { self.new.heading ≡ self.old.heading }
        ensures search { self.new.search ≡ self.old.search }
    {
        let alloc = self.heading.alloc();
        self.engine.event(alloc, self.table, event, room, count)
    }

    /// What a slice that may be abandoned is replied, each reply on a line of its own; `MEMORY` as at `event`.
    pub fn slice_of_engine(
        &mut self,
        watch: Within<'_>,
        visited: &mut u64,
        searched: &mut bool,
        room: &mut [u8],
        count: &mut usize,
    ) -> u32
        ensures engine { IsRepliedWithinFrom (says_within watch.entry.nodes (is_some watch.entry.flag)) self.old.engine self.new.engine visited.old visited.new searched.old searched.new result count.old count.new room.old room.new }
        ensures board { self.new.board ≡ self.old.board }
        ensures heading { self.new.heading ≡ self.old.heading }
        ensures search { self.new.search ≡ self.old.search }
    {
        let alloc = self.heading.alloc();
        self.engine
            .slice(alloc, self.table, watch, visited, searched, room, count)
    }

    /// Whether the engine searches.
    pub fn searching(&self) -> bool
        ensures { result ≡ is_some self.now.engine.search }
    {
        self.engine.searching()
    }

    /// Whether the engine has an infinite search, one that ends by `stop` alone.
    pub fn infinite(&self) -> bool
        ensures { result ≡ is_infinite self.now.engine.search }
    {
        self.engine.infinite()
    }

    /// Whether the engine has an infinite search that has done all that it has to do.
    pub fn waiting(&self) -> bool
        ensures { result ≡ is_waiting self.now.engine.search }
    {
        self.engine.waiting()
    }

    /// Whether `quit` came.
    pub fn ended(&self) -> bool
        ensures { result ≡ self.now.engine.ended }
    {
        self.engine.ended()
    }

    /// The milliseconds after which the clock ends the engine's search; `NONE` where it ends none.
    pub fn time_left(&self, left: &mut u64) -> u32
        ensures { IsLeft (time_left self.now.engine) result left.old left.new }
    {
        self.engine.time_left(left)
    }

    /// Begins with the game at the start of a text, and says how many bytes of the text it takes; else what `load` of chess_bindings answers of the text.
    pub fn load(&mut self, text: &[u8], used: &mut usize) -> u32
        ensures board { LoadsFrom text.now self.old.board self.old.heading result used.old used.new self.new.board self.new.heading }
        ensures search { self.new.search ≡ self.old.search }
        ensures engine { self.new.engine ≡ self.old.engine }
    {
        load(&mut self.board, &mut self.heading, text, used)
    }

    /// The same of a text of which only the first bytes are known, or all.
    pub fn load_next(&mut self, text: &[u8], is_last: bool, used: &mut usize) -> u32
        ensures board { LoadsNext text.now is_last self.old.board self.old.heading result used.old used.new self.new.board self.new.heading }
        ensures search { self.new.search ≡ self.old.search }
        ensures engine { self.new.engine ≡ self.old.engine }
    {
        load_next(&mut self.board, &mut self.heading, text, is_last, used)
    }

    /// Begins a search of the position at the cursor; one that was there is ended.
    pub fn begin(&mut self, depth: u8) -> u32
        ensures search { IsBegunFrom depth self.old.board result self.old.search self.new.search }
        ensures board { self.new.board ≡ self.old.board }
        ensures heading { self.new.heading ≡ self.old.heading }
        ensures engine { self.new.engine ≡ self.old.engine }
    {
        if depth < 1 || depth > 16 {
            return ARGUMENT;
        }
        let handle = self.handle();
        match Search::start(handle, self.table, self.board.tree(), depth) {
            Ok(Some(search)) => {
                let Ok(kept) = Box::new(handle, search) else {
                    return MEMORY;
                };
                self.search = Some(kept);
                OK
            }
            Ok(None) => NONE,
            Err(_) => MEMORY,
        }
    }

    /// Searches one root more, and says how many are left.
    pub fn slice(&mut self, left: &mut usize) -> u32
        ensures search { SlicedFrom self.old.search result left.old left.new self.new.search }
        ensures board { self.new.board ≡ self.old.board }
        ensures heading { self.new.heading ≡ self.old.heading }
        ensures engine { self.new.engine ≡ self.old.engine }
    {
        let Some(search) = &mut self.search else {
            return NONE;
        };
        search.next();
        *left = search.left();
        OK
    }

    /// Searches one root more, unless that is abandoned, and says how many are left.
    pub fn slice_within(
        &mut self,
        mut watch: Within<'_>,
        left: &mut usize,
        visited: &mut u64,
    ) -> u32
        ensures search { SlicedWithinFrom (says_within watch.entry.nodes (is_some watch.entry.flag)) self.old.search result left.old left.new visited.old visited.new self.new.search }
        ensures board { self.new.board ≡ self.old.board }
        ensures heading { self.new.heading ≡ self.old.heading }
        ensures engine { self.new.engine ≡ self.old.engine }
    {
        let Some(search) = &mut self.search else {
            return NONE;
        };
        if !search.next_within(&mut watch, visited) {
            return ABANDONED;
        }
        *left = search.left();
        OK
    }

    /// The best move of the position at the cursor at a depth of 1 to 16 plies, unless the search for it is abandoned; on a line of its own.
    pub fn best_within(
        &self,
        depth: u8,
        mut watch: Within<'_>,
        m: &mut CMove,
        value: &mut i32,
        visited: &mut u64,
    ) -> u32
        requires { 1 ≤ watch.nodes }
        ensures { IsBestWithin (says_within watch.entry.nodes (is_some watch.entry.flag)) (line_to self.now.board) depth result m.old m.new value.old value.new visited.old visited.new }
    {
        if depth < 1 || depth > 16 {
            return ARGUMENT;
        }
        let Ok(mut line) = cursor_line(self.handle(), self.table, self.board.tree()) else {
            return MEMORY;
        };
        let legal = line.moves();
        if legal.is_empty() {
            return NONE;
        }
        let mut nodes = Nodes::new();
        let found = best_of_all(&mut line, depth, &legal, &mut watch, &mut nodes);
        *visited = nodes.nodes();
        match found {
            Some(best) => hand_best(best, m, value),
            None => ABANDONED,
        }
    }

    /// The replies to a move of the position at the cursor along which its value is held, unless the search for them is abandoned; on a line
    /// of its own.
    pub fn replies_within(
        &self,
        m: CMove,
        depth: u8,
        value: i32,
        mut watch: Within<'_>,
        room: &mut [CMove],
        count: &mut usize,
        visited: &mut u64,
    ) -> u32
        requires { 1 ≤ watch.nodes }
        ensures { IsFollowed (says_within watch.entry.nodes (is_some watch.entry.flag)) (line_to self.now.board) (move_meant m) depth value result count.old count.new visited.old visited.new room.old room.new }
    {
        if depth < 1 || depth > 16 || value < -30000 || value > 30000 {
            return ARGUMENT;
        }
        let Some(m) = m.read() else {
            return ILLEGAL;
        };
        let Ok(mut line) = cursor_line(self.handle(), self.table, self.board.tree()) else {
            return MEMORY;
        };
        if !line.is_legal(m) {
            return ILLEGAL;
        }
        let mut asked = Nodes::new();
        let found = replies_within(&mut line, depth, m, value, &mut asked, false, &mut watch);
        *visited = asked.nodes();
        match found {
            Some(moves) => hand_moves(moves.as_slice(), room, count),
            None => ABANDONED,
        }
    }

    /// The best root so far, and what it is worth.
    pub fn so_far(&self, m: &mut CMove, value: &mut i32) -> u32
        ensures { IsBest (best_of self.now.search) result m.old m.new value.old value.new }
    {
        hand_best(self.best(), m, value)
    }

    // The best root so far, if a search was begun.
    fn best(&self) -> Option<(Move, i32)>
        ensures { result ≡ best_of self.now.search }
    {
        match &self.search {
            None => None,
            Some(search) => search.so_far(),
        }
    }
}
