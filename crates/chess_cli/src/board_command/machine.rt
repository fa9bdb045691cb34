//! The board between two lines of input, and how it answers each line.

ghost use Rattle.std.specs.Prelude.{◌≡◌, ℕ, List, ◌+◌, ◌<◌, ◌≤◌, ◌++◌, ◌∷◌, [], IfErr, IfOk, IfSome, OnErr, OnOk, decimal, is_some, length, map, nat_lt, false, true};
ghost use Rattle.std.specs.FinSet.{contains};
ghost use Rattle.std.specs.Fmt.{signed_decimal};
ghost use Rattle.chess_types.specs.board.Texts.{move_text};
ghost use Rattle.chess_types.specs.board.Attack.{checks_from};
ghost use Rattle.chess_types.specs.board.Legal.{is_legal, legal_moves};
ghost use Rattle.chess_types.specs.board.Lines.{last};
ghost use Rattle.chess_types.specs.board.Repetition.{repetitions};
ghost use Rattle.chess_types.specs.board.Outcome.{status, status_text, claims, claims_with};
ghost use Rattle.chess_types.specs.board.Position.{start, man_on};
ghost use Rattle.chess_eval.specs.Evaluation.{evaluation};
ghost use Rattle.chess_tree.specs.Forest.{count as count_children};
ghost use Rattle.chess_tree.specs.Edits.{parent};
ghost use Rattle.chess_tree.specs.GameTree.{TreeParts, annotated_here, at_path, deleted, line_to, main_line, nodes_here, promoted_here, unannotated_here};
ghost use Rattle.chess_tree.specs.Plays.{is_new};
ghost use Rattle.chess_tree.specs.Undo.{undone};
ghost use Rattle.chess_tree.specs.declared.fault.TreeFault.TheVariants.{Memory as NoMemory};
ghost use Rattle.chess_cli.specs.Loads.{from_root};
ghost use Rattle.chess_cli.specs.Outcomes.{claims_text};
ghost use Rattle.chess_cli.specs.Numbers.{depth_in, path_in};
ghost use Rattle.chess_cli.specs.Answers.{Answers, AnswersRequest, Does, HasEffect, new_tree, checks_of, claim_effect, comment_effect, counts_of, has_words, if_it_exists, list_text, move_effect, names_new, not_at_root, play_effect, set_effect, reply, takes_memory, tree_from};
ghost use Rattle.chess_cli.specs.steps.Replies.{IsGameText, IsOnPage, best_effect, path_effect};
ghost use Rattle.chess_cli.specs.Requests.{Pgn, Play, request};
ghost use Rattle.chess_loop.specs.steps.Sending.{Sends};
ghost use Rattle.chess_fen.specs.Reading.{fen_reading};
ghost use Rattle.chess_san.specs.Naming.{san_reading};
ghost use Rattle.chess_san.specs.Writing.{san};
ghost use Rattle.chess_search.specs.Best.{best};
ghost use Rattle.chess_fen.specs.Writing.{identity, written};

use super::answer::{Pending, put_done, put_refused};
use super::command::{Command, read_command};
use super::goto::{find_node, follow};
use super::lists::{put_moves, squares_text};
use super::numbers::depth_in;
use super::outcomes::{best_text, claims_text};
use super::path::write_path;
use super::refusal::Refusal;
use super::texts::{counts_text, eval_text};
use arrayvec::{ArrayString, ArrayVec};
use byte_streams::{Failed, Sink};
use chess_attack::checkers;
use chess_draws::Line;
use chess_key::KeyTable;
use chess_loop::{LineHandler, OutputBuffer, Unread};
use chess_moves::is_legal;
use chess_pgn::write_tree;
use chess_play::{Followers, Live};
use chess_san::SanFault;
use chess_tree::{Analysis, Tree, TreeFault};
use chess_types::{Claims, Colour, Move, Position, SquareSet, Status};
use itoa::Buffer;
use std::alloc::Allocator;
use std::marker::Model;

/// The board between two lines of input: an analysis, which is a game tree with a cursor and the line from the root to it.
#[derive(Drop)]
pub struct Board<'k, A: Allocator> {
    analysis: Analysis<'k, 'k, A>,
    alloc: &'k A,
    table: &'k KeyTable,
}

impl<'k, A: Allocator> Model for Board<'k, A> {
    ghost use Rattle.chess_tree.specs.GameTree.{TreeParts};
    ghost use Rattle.chess_tree.specs.steps.TreeCode.{coded_tree};

    ghost Value = { TreeParts };

    ghost coded = { coded_tree };

    ghost view = { λ b. b.analysis };
}

// The position in which a game begins.
fn start_position() -> Position
    ensures value { result ≡ start }
    ensures clock { result.clock ≤ 99999 }
    ensures number { result.number ≤ 99999 }
{
    Position::start()
}

impl<'k, A: Allocator> Board<'k, A> {
    /// The board as a game begins, with the keys of that table; `Memory` where there is none.
    pub fn new(alloc: &'k A, table: &'k KeyTable) -> Result<Board<'k, A>, TreeFault>
        ensures { IfOk result (λ board. board ≡ new_tree) }
    {
        let analysis = Analysis::with(alloc, start_position(), Followers::start(table))?;
        Ok(Board {
            analysis,
            alloc,
            table,
        })
    }

    /// Another board with the same tree and the cursor at the same node; `Memory` where there is none.
    pub fn copy(&self) -> Result<Board<'k, A>, TreeFault>
        ensures same { IfOk result (λ board. board ≡ self.now) }
        ensures memory { IfErr result (λ fault. fault ≡ NoMemory) }
    {
        Ok(Board {
            analysis: self.analysis.clone()?,
            alloc: self.alloc,
            table: self.table,
        })
    }

    /// The tree and its cursor.
    pub fn tree(&self) -> &Tree<'k, A>
        ensures { result.now ≡ self.now }
    {
        self.analysis.tree()
    }

    /// The line of moves from the root to the cursor, to look at.
    pub fn line(&self) -> &Line<'k, &'k A>
        ensures line { result.now.line ≡ line_to self.now }
        ensures still { result.now.looked ≡ 0 }
    {
        self.analysis.line()
    }

    /// The position at the cursor with the numbers kept for it. The move that led to it, made or taken back, changed at most 216 counts.
    pub fn live(&self) -> &Live<'k>
        ensures position { result.now.position ≡ last (line_to self.now) }
        ensures at_most { result.now.ticks ≤ 216 }
    {
        self.analysis.live()
    }

    /// The legal moves at the cursor, in order (FIDE Laws 3.1 to 3.10).
    pub fn legal_moves(&mut self) -> ArrayVec<Move, 432>
        ensures listed { result.items ≡ legal_moves (last (line_to self.old)) }
        ensures as_before { self.new ≡ self.old }
    {
        self.analysis.moves()
    }

    /// Whether the move, any at all, is legal at the cursor (FIDE Laws 3.9.2, 3.10.1).
    pub fn is_legal(&mut self, m: Move) -> bool
        ensures value { result ≡ is_legal (last (line_to self.old)) m }
        ensures as_before { self.new ≡ self.old }
    {
        self.analysis.is_legal(m)
    }

    /// Makes a move: steps to the first child that has it, else to a new one. Says whether it added a node, for `undo`.
    pub fn make(&mut self, m: Move) -> Result<bool, Refusal>
        ensures effect { HasEffect (is_new self.old m) (move_effect self.old m) self.old result self.new }
        ensures adds { IfOk result (λ is_added. is_added ≡ is_new self.old m) }
    {
        Ok(self.analysis.play(m)?)
    }

    /// The legal move at the cursor that a text in standard algebraic notation or from square to square names (PGN 8.2.3).
    pub fn read_move(&mut self, text: &[u8]) -> Result<Move, SanFault>
        ensures value { result ≡ san_reading (last (line_to self.old)) text.now }
        ensures as_before { self.new ≡ self.old }
    {
        self.analysis.read_move(text)
    }

    /// The text in standard algebraic notation (PGN 8.2.3) of a move at the cursor; `None` where it isn't legal.
    pub fn write_move(&self, m: Move) -> Option<ArrayString<8>>
        ensures value { IfSome result (λ text. text.bytes ≡ san (last (line_to self.now)) m) }
        ensures legal { is_some result ≡ is_legal (last (line_to self.now)) m }
    {
        let mut live = Live::new(self.analysis.line().position(), self.table);
        if !is_legal(&mut live, m) {
            return None;
        }
        Some(chess_san::write(&mut live, m))
    }

    /// The FEN of the position at the cursor (PGN 16.1).
    pub fn fen_text(&self) -> ArrayString<128>
        ensures { result.bytes ≡ written (last (line_to self.now)) }
    {
        chess_fen::write(&self.analysis.position())
    }

    /// The text that shows whether another position is the same as the one at the cursor (FIDE Laws 9.2.3): the first four fields of its FEN, with the
    /// en passant target only where a legal move captures on it.
    pub fn identity_text(&self) -> ArrayString<128>
        ensures { result.bytes ≡ identity (last (line_to self.now)) }
    {
        self.analysis.line().identity()
    }

    /// The squares of the men that check the side to move (FIDE Laws 3.9.1).
    pub fn checking(&self) -> SquareSet
        ensures { (a : ℕ) → a < 64 → contains result a ≡ checks_from (man_on (last (line_to self.now))) (last (line_to self.now)).side a }
    {
        let setup = self.live().position();
        checkers(&setup.placement, setup.side)
    }

    /// How often the position at the cursor has come up on the way to it, this time included (FIDE Laws 9.2.2).
    pub fn repetitions(&mut self) -> u32
        ensures value { result ≡ repetitions (line_to self.old) }
        ensures as_before { self.new ≡ self.old }
    {
        self.analysis.count()
    }

    /// The game's status at the cursor (FIDE Laws 5.1.1, 5.2.1, 5.2.2, 9.6).
    pub fn outcome(&mut self) -> Status
        ensures value { result ≡ status (line_to self.old) }
        ensures as_before { self.new ≡ self.old }
    {
        self.analysis.status()
    }

    /// The draws that may be claimed at the cursor (FIDE Laws 9.2.2, 9.3.2).
    pub fn claimable(&mut self) -> Claims
        ensures value { result ≡ claims (line_to self.old) }
        ensures as_before { self.new ≡ self.old }
    {
        self.analysis.claims()
    }

    /// Those that may be claimed with a move (FIDE Laws 9.2.1, 9.3.1); `None` where it isn't legal.
    pub fn claimable_with(&mut self, m: Move) -> Option<Claims>
        ensures value { result ≡ claims_with (line_to self.old) m }
        ensures as_before { self.new ≡ self.old }
    {
        self.analysis.claims_with(m)
    }

    /// The first legal move at the cursor of greatest minimax value, 1 to 16 plies deep, with its value for the side to move: centipawns, or
    /// 30,000 less the plies to a mate. `None` where there is no legal move.
    pub fn best_move(&mut self, depth: u8) -> Option<(Move, i32)>
        requires deep { 1 ≤ depth }
        requires shallow { depth ≤ 16 }
        ensures value { result ≡ best false depth (line_to self.old) (legal_moves (last (line_to self.old))) }
        ensures as_before { self.new ≡ self.old }
    {
        self.analysis.best(depth)
    }

    /// Answers a line that was read whole, after what is on the page; of the answers to `path` and `pgn` there is nothing yet.
    pub fn put_answer<B: Allocator>(&mut self, line: &[u8], page: &mut OutputBuffer<B>) -> Pending
        requires { length page.old + 2600 ≤ 65536 }
        ensures reply { (text : List ℕ) × AnswersRequest self.old (request line.now) text self.new × IsOnPage result self.new page.old page.new text }
        ensures game { result ≡ Pending.Game → request line.now ≡ Pgn }
        ensures path_looks { result ≡ Pending.Path → self.new ≡ self.old }
        ensures game_looks { result ≡ Pending.Game → self.new ≡ self.old }
    {
        match read_command(line) {
            Command::Blank => {}
            Command::New => put_done(page, self.begin(start_position())),
            Command::Set(fen) => put_done(page, self.set(fen)),
            Command::Counts(colour) => self.counts(colour, page),
            Command::Eval => self.eval(page),
            Command::Fen => self.fen(page),
            Command::Moves => self.moves(page),
            Command::Checks => self.checks(page),
            Command::Play(word) => put_done(page, self.play(word)),
            Command::Back => put_done(page, self.back()),
            Command::Step(place) => put_done(page, self.step(place)),
            Command::Start => put_done(page, self.start()),
            Command::End => put_done(page, self.end()),
            Command::Goto(word) => put_done(page, self.goto(word)),
            Command::Path => return Pending::Path,
            Command::Promote => put_done(page, self.promote()),
            Command::Delete => put_done(page, self.delete()),
            Command::Comment(comment) => put_done(page, self.comment(comment)),
            Command::Nag(nag) => put_done(page, self.nag(nag)),
            Command::Count => self.count(page),
            Command::Status => self.status(page),
            Command::Claims => self.claims(page),
            Command::Claim(word) => self.claim(word, page),
            Command::Best(word) => self.best(word, page),
            Command::Pgn => return Pending::Game,
            Command::Unknown => put_refused(page, Refusal::Command),
            Command::Malformed => put_refused(page, Refusal::Argument),
        }
        Pending::Nothing
    }

    /// The same with the whole answer, a prefix of which may be written; where a write fails the board is as it was.
    pub fn put_whole_answer<B: Allocator, W: Sink>(
        &mut self,
        line: &[u8],
        page: &mut OutputBuffer<B>,
        writer: &mut W,
    ) -> Result<(), Failed>
        requires { length page.old + 2600 ≤ 65536 }
        ensures answers { (text : List ℕ) × AnswersRequest self.old (request line.now) text self.new × Sends W.takes W.failed page.old writer.old text page.new writer.new result }
        ensures as_before { OnErr result (self.new ≡ self.old) }
    {
        match self.put_answer(line, page) {
            Pending::Nothing => {}
            Pending::Path => return write_path(self.tree(), page, writer),
            Pending::Game => return self.write_game(page, writer),
        }
        Ok(())
    }

    // The whole game, or that there is no memory for its text.
    fn write_game<B: Allocator, W: Sink>(
        &self,
        page: &mut OutputBuffer<B>,
        writer: &mut W,
    ) -> Result<(), Failed>
        requires { length page.old + 2600 ≤ 65536 }
        ensures { (text : List ℕ) × IsGameText self.now text × Sends W.takes W.failed page.old writer.old text page.new writer.new result }
    {
        let Ok(text) = write_tree(self.alloc, self.tree()) else {
            put_refused(page, Refusal::Memory);
            return Ok(());
        };
        page.send(text.as_slice(), writer)
    }

    // Begins a tree from the position.
    fn begin(&mut self, position: Position) -> Result<(), Refusal>
        requires clock { position.clock ≤ 99999 }
        requires number { position.number ≤ 99999 }
        ensures { HasEffect true (Does (tree_from position)) self.old result self.new }
    {
        self.analysis = Analysis::new(self.alloc, position, self.table)?;
        Ok(())
    }

    /// Begins a tree from the position of the FEN, which replaces the tree.
    pub fn set(&mut self, fen: &[u8]) -> Result<(), Refusal>
        ensures { HasEffect true (set_effect (fen_reading fen.now)) self.old result self.new }
    {
        self.begin(chess_fen::read(fen)?)
    }

    /// Begins with that tree, the cursor at its root; the one that was there is freed. Where there is no memory the board is as it was.
    pub fn begin_with(&mut self, tree: Tree<'k, A>) -> Result<(), TreeFault>
        ensures ok { OnOk result (self.new ≡ from_root tree.entry.tree) }
        ensures err { OnErr result (self.new ≡ self.old) }
    {
        self.analysis = Analysis::of(tree, self.table)?;
        Ok(())
    }

    // The attack counts of the colour.
    fn counts<B: Allocator>(&self, colour: Colour, page: &mut OutputBuffer<B>)
        requires room { length page.old + 2600 ≤ 65536 }
        ensures { page.new ≡ page.old ++ (counts_of (last (line_to self.now)) colour ++ 10 ∷ []) }
    {
        page.put_line(counts_text(self.live(), colour).as_str());
    }

    // The evaluation.
    fn eval<B: Allocator>(&self, page: &mut OutputBuffer<B>)
        requires room { length page.old + 2600 ≤ 65536 }
        ensures { page.new ≡ page.old ++ (signed_decimal (evaluation (man_on (last (line_to self.now)))) ++ 10 ∷ []) }
    {
        page.put_line(eval_text(self.live()).as_str());
    }

    // The FEN.
    fn fen<B: Allocator>(&self, page: &mut OutputBuffer<B>)
        requires room { length page.old + 2600 ≤ 65536 }
        ensures { page.new ≡ page.old ++ (written (last (line_to self.now)) ++ 10 ∷ []) }
    {
        page.put_line(chess_fen::write(&self.analysis.position()).as_str());
    }

    // The legal moves.
    fn moves<B: Allocator>(&mut self, page: &mut OutputBuffer<B>)
        requires room { length page.old + 2600 ≤ 65536 }
        ensures text { page.new ≡ page.old ++ (list_text (map move_text (legal_moves (last (line_to self.old)))) ++ 10 ∷ []) }
        ensures state { self.new ≡ self.old }
    {
        let moves = self.analysis.moves();
        put_moves(page, moves.as_slice());
        page.put(b"\n");
    }

    // The squares of the men that check the side to move.
    fn checks<B: Allocator>(&self, page: &mut OutputBuffer<B>)
        requires room { length page.old + 2600 ≤ 65536 }
        ensures { page.new ≡ page.old ++ (checks_of (last (line_to self.now)) ++ 10 ∷ []) }
    {
        let setup = self.live().position();
        page.put_line(squares_text(&checkers(&setup.placement, setup.side)).as_str());
    }

    /// Makes the move that a text names: steps to the first child that has it, else to a new one. Says whether it added a node, for `undo`.
    pub fn play(&mut self, word: &[u8]) -> Result<bool, Refusal>
        ensures effect { HasEffect (takes_memory self.old (Play word.now)) (play_effect self.old (san_reading (last (line_to self.old)) word.now)) self.old result self.new }
        ensures adds { IfOk result (λ is_added. is_added ≡ names_new self.old (san_reading (last (line_to self.old)) word.now)) }
    {
        let m = self.analysis.read_move(word)?;
        Ok(self.analysis.play_legal(m)?)
    }

    /// Steps to the parent.
    pub fn back(&mut self) -> Result<(), Refusal>
        ensures { HasEffect false (not_at_root self.old.path (at_path (parent self.old.path) self.old)) self.old result self.new }
    {
        Ok(self.analysis.back()?)
    }

    /// Takes a made move back: steps to the parent. The node that it leaves is taken out where it was added, as the call that made the move
    /// said, and nothing hangs on it, no child, comment or annotation number.
    pub fn undo(&mut self, added: bool) -> Result<(), Refusal>
        ensures { HasEffect false (not_at_root self.old.path (undone added self.old)) self.old result self.new }
    {
        Ok(self.analysis.undo(added)?)
    }

    /// Steps to a child, by its place among its siblings, from 0.
    pub fn step(&mut self, place: u32) -> Result<(), Refusal>
        ensures { HasEffect false (if_it_exists (nat_lt place (count_children (nodes_here self.old))) (at_path (self.old.path ++ place ∷ []) self.old)) self.old result self.new }
    {
        Ok(self.analysis.step(place)?)
    }

    /// Goes to the root.
    pub fn start(&mut self) -> Result<(), Refusal>
        ensures { HasEffect false (Does (at_path [] self.old)) self.old result self.new }
    {
        self.analysis.start();
        Ok(())
    }

    /// Goes along the main continuations, as far as they lead.
    pub fn end(&mut self) -> Result<(), Refusal>
        ensures { HasEffect false (Does (at_path (self.old.path ++ main_line (nodes_here self.old)) self.old)) self.old result self.new }
    {
        self.analysis.end();
        Ok(())
    }

    // Goes to the node at the path that the word writes.
    fn goto(&mut self, word: &[u8]) -> Result<(), Refusal>
        ensures { HasEffect false (path_effect self.old (path_in word.now)) self.old result self.new }
    {
        if word == b"-".as_slice() {
            return self.start();
        }
        if let Err(refusal) = find_node(self.analysis.tree(), word) {
            return Err(refusal);
        }
        follow(&mut self.analysis, word);
        Ok(())
    }

    /// Puts the node before its siblings.
    pub fn promote(&mut self) -> Result<(), Refusal>
        ensures { HasEffect false (not_at_root self.old.path (promoted_here self.old)) self.old result self.new }
    {
        Ok(self.analysis.promote()?)
    }

    /// Takes out the node and all below it; the cursor is then at its parent.
    pub fn delete(&mut self) -> Result<(), Refusal>
        ensures { HasEffect false (not_at_root self.old.path (deleted self.old)) self.old result self.new }
    {
        Ok(self.analysis.delete()?)
    }

    /// A text for the node's comment, which replaces the one that it had.
    pub fn comment(&mut self, comment: &[u8]) -> Result<(), Refusal>
        ensures { HasEffect (has_words comment.now) (comment_effect self.old comment.now) self.old result self.new }
    {
        Ok(self.analysis.set_comment(comment)?)
    }

    /// An annotation number more.
    pub fn nag(&mut self, nag: u8) -> Result<(), Refusal>
        ensures { HasEffect true (not_at_root self.old.path (annotated_here nag self.old)) self.old result self.new }
    {
        Ok(self.analysis.add_nag(nag)?)
    }

    /// No annotation number.
    pub fn clear_nags(&mut self) -> Result<(), Refusal>
        ensures { HasEffect false (not_at_root self.old.path (unannotated_here self.old)) self.old result self.new }
    {
        Ok(self.analysis.clear_nags()?)
    }

    // How often the position has come up.
    fn count<B: Allocator>(&mut self, page: &mut OutputBuffer<B>)
        requires room { length page.old + 2600 ≤ 65536 }
        ensures text { page.new ≡ page.old ++ (decimal (repetitions (line_to self.old)) ++ 10 ∷ []) }
        ensures state { self.new ≡ self.old }
    {
        page.put_line(Buffer::new().format(self.analysis.count()));
    }

    // The game's status.
    fn status<B: Allocator>(&mut self, page: &mut OutputBuffer<B>)
        requires room { length page.old + 2600 ≤ 65536 }
        ensures text { page.new ≡ page.old ++ (status_text (status (line_to self.old)) ++ 10 ∷ []) }
        ensures state { self.new ≡ self.old }
    {
        page.put_line(self.analysis.status().name());
    }

    // The draws that may be claimed.
    fn claims<B: Allocator>(&mut self, page: &mut OutputBuffer<B>)
        requires room { length page.old + 2600 ≤ 65536 }
        ensures text { page.new ≡ page.old ++ (claims_text (claims (line_to self.old)) ++ 10 ∷ []) }
        ensures state { self.new ≡ self.old }
    {
        page.put_line(claims_text(self.analysis.claims()));
    }

    // Those that may be claimed with the move of the text.
    fn claim<B: Allocator>(&mut self, word: &[u8], page: &mut OutputBuffer<B>)
        requires room { length page.old + 2600 ≤ 65536 }
        ensures text { page.new ≡ page.old ++ reply (claim_effect (line_to self.old) (san_reading (last (line_to self.old)) word.now)) }
        ensures state { self.new ≡ self.old }
    {
        let m = match self.analysis.read_move(word) {
            Ok(m) => m,
            Err(fault) => return put_refused(page, Refusal::from(fault)),
        };
        match self.analysis.claims_with(m) {
            None => put_refused(page, Refusal::Illegal),
            Some(claims) => page.put_line(claims_text(claims)),
        }
    }

    // The best move, as deep as the word writes.
    fn best<B: Allocator>(&mut self, word: &[u8], page: &mut OutputBuffer<B>)
        requires room { length page.old + 2600 ≤ 65536 }
        ensures text { page.new ≡ page.old ++ reply (best_effect self.old (depth_in word.now)) }
        ensures state { self.new ≡ self.old }
    {
        match depth_in(word) {
            None => put_refused(page, Refusal::Argument),
            Some(depth) => page.put_line(best_text(self.analysis.best(depth)).as_str()),
        }
    }
}

impl<'k, A: Allocator> LineHandler for Board<'k, A> {
    ghost use Rattle.std.specs.Prelude.{false};
    ghost use Rattle.chess_loop.specs.Runs.{InOne};

    ghost step = { InOne Answers };

    ghost cut = { InOne Answers };

    ghost over = { λ board. false };

    fn answer<B: Allocator, W: Sink>(
        &mut self,
        line: &[u8],
        page: &mut OutputBuffer<B>,
        writer: &mut W,
    ) -> Result<(), Failed> {
        self.put_whole_answer(line, page, writer)
    }

    fn refuse<B: Allocator>(&self, line: Unread, page: &mut OutputBuffer<B>) {
        match line {
            Unread::TooLong => put_refused(page, Refusal::LongLine),
            Unread::NoMemory => put_refused(page, Refusal::Memory),
        }
    }

    fn is_over(&self) -> bool {
        false
    }
}
