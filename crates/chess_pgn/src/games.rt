//! Games of a text or of a source, one after another.

ghost use Rattle.std.specs.Prelude.{◌≡◌, ◌⊎◌, ◌<◌, ◌≤◌, ◌+◌, ◌^◌, ℕ, false, [], true, Some, None, Ok, Err, IfErr, IfOk, IfSome};
ghost use Rattle.chess_items.specs.Abandoned.{GivesUpFrom, GivesUpInPart, Halts};
ghost use Rattle.chess_items.specs.Coming as coming;
ghost use Rattle.chess_items.specs.Coming.{Breaks, Came, unread};
ghost use Rattle.chess_items.specs.Sections.{PassesOver};
ghost use Rattle.chess_items.specs.steps.Seeking.{GiveUpBreaks as Broken, SeekBreaks as Stops};
ghost use Rattle.chess_items.specs.declared.fault.FaultKind.TheVariants.{Memory};
ghost use Rattle.chess_pgn.specs.Games as games;
ghost use Rattle.chess_pgn.specs.declared.games.GamesFault.TheVariants.{Pgn};
ghost use Rattle.chess_pgn.specs.Reading.{HasNoGame, IsAnswered, BeginsWithGame, IsWhite};
ghost use Rattle.chess_pgn.specs.Sources.{HasFault, HasNone, IsGivenUp, IsGivenUpInPart, IsPlaced, IsSound, Leaves, MayGoOn, NotGivenUp, NotPassed, ReadsNext, seeks, used_of};
ghost use Rattle.chess_pgn.specs.steps.GameAt.{HaltsAt, TakesGame, halt_at, is_flood};
ghost use Rattle.chess_pgn.specs.steps.GameCode.{game_of};
ghost use Rattle.chess_pgn.specs.steps.Next.{HasKind, staying};
ghost use Rattle.chess_pgn.specs.steps.ReaderCode.{Answered, EndsReading, Unanswered};

use crate::basis::Basis;
use crate::game::Game;
use crate::reader::Reader;
use crate::texts::Texts;
use byte_streams::Source;
use chess_items::{
    AtHand, Fault, FaultKind, Halt, PgnFault, Place, Stop, Stopped, Text, Whole, at_place, pass,
};
use std::alloc::Allocator;
use std::marker::Model;
use thiserror::Error;

/// The most bytes of a game.
const LIMIT: usize = 1_048_576;

/// Why no game comes.
#[derive(Clone, Copy, Debug, PartialEq, Eq, Error)]
pub enum GamesFault {
    /// The text there is no game, or there is no memory for it. The place is counted from the input's beginning.
    #[error("what stands there is no game")]
    Pgn(PgnFault),
    /// A read failed, or there were 2^40 reads.
    #[error("a read failed")]
    Read,
}

// The fault where there is no item: a comment without its end is cut off by the end of the input.
fn aground<A: Allocator>(
    reader: &Reader<'_, A>,
    unread: &[u8],
    at: usize,
    place: Place,
) -> PgnFault {
    let is_outside = matches!(place, Place::GameStart | Place::LineStart | Place::InLine);
    if is_outside && unread.first() == Some(&b'{') {
        return at_place(at.saturating_add(unread.len()), FaultKind::Truncated);
    }
    reader.unspelled(at)
}

// Ends the reading that has stopped; a fault where what was read is no game.
fn end_reading<A: Allocator>(
    reader: &mut Reader<'_, A>,
    stopped: Stopped,
    unread: &[u8],
) -> Result<(), PgnFault>
    ensures ends { IfOk result (λ _. EndsReading stopped.why reader.old reader.new) }
    ensures refused { IfErr result (λ fault. Unanswered stopped.why reader.old fault) }
{
    let at = stopped.at;
    match stopped.why {
        Stop::Full | Stop::Left => Ok(()),
        Stop::End => reader.finish(at),
        Stop::Refused(fault) => Err(fault),
        Stop::NoItem => Err(aground(reader, unread, at, stopped.place)),
        Stop::TooLarge => Err(at_place(LIMIT, FaultKind::TooLarge)),
    }
}

// The game whose reading has stopped.
fn stopped_game<'a, A: Allocator>(
    reader: Reader<'a, A>,
    stopped: Stopped,
    unread: &[u8],
    texts: &mut Texts<'a, A>,
) -> Result<Game<'a, A>, PgnFault>
    ensures game { IfOk result (λ game. Answered stopped.why reader.entry game) }
    ensures refused { IfErr result (λ fault. Unanswered stopped.why reader.entry fault) }
{
    let mut reader = reader;
    end_reading(&mut reader, stopped, unread)?;
    *texts = reader.take_texts();
    reader.into_game()
}

// Whether whitespace alone came before what reaches past the limit.
fn is_flooded(stopped: Stopped) -> bool
    ensures { result ≡ is_flood stopped.why stopped.white }
{
    match stopped.why {
        Stop::TooLarge => stopped.white,
        _ => false,
    }
}

// Where the reading has stopped; none, where whitespace alone came before what reaches past the limit, and all of it is used.
fn halt_of<A: Allocator>(reader: &Reader<'_, A>, stopped: Stopped) -> Option<Halt>
    ensures { result ≡ halt_at (is_flood stopped.why stopped.white) (record { place = stopped.place; at = stopped.at; begun = reader.now.moving; white = stopped.white }) }
{
    if is_flooded(stopped) {
        return None;
    }
    Some(Halt {
        place: stopped.place,
        at: stopped.at,
        begun: reader.is_moving(),
        white: stopped.white,
    })
}

// The game at the start of a text, and how many bytes it took; and what is known of its moves' texts. Where it can't be read, how far its items
// were used.
fn take_game<'a, X: Text, A: Allocator>(
    alloc: &'a A,
    basis: &Basis,
    text: &mut X,
    texts: &mut Texts<'a, A>,
    halt: &mut Option<Halt>,
) -> Result<Option<(Game<'a, A>, usize)>, GamesFault>
    requires sound { X.sound text.old }
    requires within { IfSome halt.old (λ halt. halt.at ≤ 1048576) }
    ensures sound { IfOk result (λ _. X.sound text.new) }
    ensures game { TakesGame X.comes X.at_hand X.all X.sound X.reads X.breaks text.old text.new result }
    ensures halts { HaltsAt X.comes X.at_hand X.all X.reads text.old text.new halt.new result }
    ensures within { IfSome halt.new (λ halt. halt.at ≤ 1048576) }
{
    let mut reader = Reader::new(alloc, basis, texts.are_wanted());
    let stopped = match pass(text, &mut reader, LIMIT) {
        Ok(Some(stopped)) => stopped,
        Ok(None) => return Ok(None),
        Err(Fault::Memory) => return Err(GamesFault::Pgn(at_place(0, FaultKind::Memory))),
        Err(Fault::Read) => return Err(GamesFault::Read),
    };
    *halt = halt_of(&reader, stopped);
    match stopped_game(reader, stopped, text.unread(), texts) {
        Ok(game) => Ok(Some((game, stopped.at))),
        Err(fault) => Err(GamesFault::Pgn(fault)),
    }
}

/// The game that the text begins with, and how many bytes of it that took; `None` where there are only whitespace and hidden lines.
///
/// # Errors
///
/// The first fault of the text, with its place in bytes from the text's beginning; `8 Memory` has place 0.
pub fn read_game<'a, A: Allocator>(
    alloc: &'a A,
    input: &[u8],
) -> Result<Option<(Game<'a, A>, usize)>, PgnFault>
    ensures game { IfOk result (λ found. IfSome found (λ x. BeginsWithGame input.now (game_of x.0) x.1)) }
    ensures cursor { IfOk result (λ found. IfSome found (λ x. x.0.tree.path ≡ [])) }
    ensures none { result ≡ Ok None → IsWhite input.now }
    ensures white { IsWhite input.now → IfOk result (λ found. found ≡ None) × IfErr result (λ fault. fault.kind ≡ Memory) }
    ensures fault { IfErr result (λ fault. (fault.kind ≡ Memory) ⊎ HasNoGame input.now) }
    ensures memory { IfErr result (λ fault. fault.kind ≡ Memory → fault.place ≡ 0) }
    ensures only { (game : games.Game) (used : ℕ) → BeginsWithGame input.now game used → IsAnswered game used result }
{
    let mut texts = Texts::unwanted(alloc);
    let mut halt = None;
    match take_game(
        alloc,
        &Basis::new(),
        &mut Whole { left: input },
        &mut texts,
        &mut halt,
    ) {
        Ok(game) => Ok(game),
        Err(GamesFault::Pgn(fault)) => Err(placed_after(fault, 0)),
        // Nothing is read of a whole text.
        Err(GamesFault::Read) => unreachable!(),
    }
}

// A fault of a text with its place `used` bytes further on; want of memory has its place after those.
fn placed_after(fault: PgnFault, used: u64) -> PgnFault
    ensures kind { result.kind ≡ fault.kind }
    ensures place { IsPlaced used (Pgn result) }
{
    match fault.kind {
        FaultKind::Memory => PgnFault {
            place: used,
            kind: FaultKind::Memory,
        },
        kind => PgnFault {
            place: fault.place.saturating_add(used),
            kind,
        },
    }
}

// A fault with its place `used` bytes further on.
fn placed(fault: GamesFault, used: u64) -> GamesFault
    ensures kind { HasKind fault result }
    ensures place { IsPlaced used result }
{
    match fault {
        GamesFault::Read => GamesFault::Read,
        GamesFault::Pgn(fault) => GamesFault::Pgn(placed_after(fault, used)),
    }
}

/// The games of a source, one after another. After a fault `next` returns that fault again, until `pass_over` goes on to the next section of
/// tags. Contracts see the bytes at hand, how many were used before them, the fault, and how far the items of its game were used, unless all
/// of them were: whitespace alone, before what reaches past 1,048,576 bytes.
#[derive(Drop)]
pub struct Games<'a, R, A: Allocator> {
    text: AtHand<'a, R, A>,
    fault: Option<GamesFault>,
    /// How far the items of the game with the fault were used; none, where all of them were.
    halt: Option<Halt>,
    alloc: &'a A,
    basis: Basis,
}

impl<'a, R, A: Allocator> Model for Games<'a, R, A> {
    ghost use Rattle.std.specs.Prelude.{◌≤◌, IfSome};
    ghost use Rattle.chess_pgn.specs.Sources as sources;

    ghost Value = { sources.Games R };

    ghost view = { λ g. record { text = g.text; fault = g.fault; halt = g.halt } };

    ghost invariant = { λ g. IfSome g.halt (λ halt. halt.at ≤ 1048576) };
}

impl<'a, R: Source, A: Allocator> Games<'a, R, A> {
    /// The games of a source of which no call has failed. Takes no memory.
    pub fn new(alloc: &'a A, source: R) -> Games<'a, R, A>
        ensures sound { IsSound R.ended result }
        ensures none { result.fault ≡ None }
        ensures source { result.text.source ≡ source }
        ensures nothing { unread result.text ≡ [] }
        ensures goes_on { result.text.has_ended ≡ false }
        ensures reads { result.text.reads ≡ 1099511627776 }
        ensures used { result.text.used ≡ 0 }
    {
        Games {
            text: AtHand::new(alloc, source),
            fault: None,
            halt: None,
            alloc,
            basis: Basis::new(),
        }
    }

    /// The source as it was left.
    pub fn into_source(self) -> R
        ensures { result ≡ self.entry.text.source }
    {
        let Games {
            text,
            fault: _,
            halt: _,
            alloc: _,
            basis: _,
        } = self;
        text.into_source()
    }

    /// How many bytes of the source were used: those of the games so far, those that were passed over, and after a fault those of its game
    /// that were read before it; after want of memory those before the call that reported it.
    pub fn used(&self) -> u64
        ensures { result ≡ used_of self.now }
    {
        let used = self.text_used();
        match self.fault {
            None | Some(GamesFault::Read) => used,
            Some(GamesFault::Pgn(PgnFault { place, kind })) => match kind {
                FaultKind::Memory => place,
                _ => used,
            },
        }
    }

    // How many bytes were used, whatever came.
    fn text_used(&self) -> u64
        ensures { result ≡ self.now.text.used }
    {
        self.text.used()
    }

    // The fault that came, if one did.
    fn reported(&self) -> Option<GamesFault>
        ensures { result ≡ self.now.fault }
    {
        self.fault
    }

    // The fault that came, if it stays.
    fn staying(&self) -> Option<GamesFault>
        ensures { result ≡ staying self.now.fault }
    {
        match self.fault {
            None => None,
            Some(GamesFault::Read) => self.fault,
            Some(GamesFault::Pgn(PgnFault { place: _, kind })) => match kind {
                FaultKind::Memory => self.fault,
                _ => None,
            },
        }
    }

    // The same with the bytes it took, and a fault's place from the game's beginning.
    fn take(&mut self, texts: &mut Texts<'a, A>) -> Result<Option<(Game<'a, A>, usize)>, GamesFault>
        requires sound { IsSound R.ended self.old }
        requires none { self.old.fault ≡ None }
        ensures sound { IfOk result (λ _. self.new.text.has_ended ≡ true → R.ended self.new.text.source) }
        ensures none { self.new.fault ≡ None }
        ensures game { TakesGame (λ s bytes t. Came R.gives R.failed s bytes t) unread (λ s. s.has_ended ≡ true) (λ s. s.has_ended ≡ true → R.ended s.source) (λ s. s.reads) (λ s t. Breaks R.gives R.failed s t) self.old.text self.new.text result }
        ensures halts { HaltsAt (λ s bytes t. Came R.gives R.failed s bytes t) unread (λ s. s.has_ended ≡ true) (λ s. s.reads) self.old.text self.new.text self.new.halt result }
    {
        take_game(
            self.alloc,
            &self.basis,
            &mut self.text,
            texts,
            &mut self.halt,
        )
    }

    // Uses the bytes before the next section of tags, and those of a bad game before them.
    fn go_on(&mut self) -> Result<u64, Fault>
        requires ended { self.old.text.has_ended ≡ true → R.ended self.old.text.source }
        ensures passes { seeks self.old.fault self.old.halt ≡ None → IfOk result (λ count. PassesOver R.gives R.failed self.old.text self.new.text count) }
        ensures gives_up { (halt : Halt) (before : coming.AtHand R) → seeks self.old.fault self.old.halt ≡ Some halt → Halts R.gives R.failed before self.old.text halt → IfOk result (λ count. GivesUpFrom R.gives R.failed before self.new.text (halt.at + count)) }
        ensures used { IfOk result (λ count. self.new.text.used ≡ self.old.text.used + count) }
        ensures ended { IfOk result (λ _. self.new.text.has_ended ≡ true → R.ended self.new.text.source) }
        ensures stops { seeks self.old.fault self.old.halt ≡ None → IfErr result (λ fault. Stops R.gives R.failed self.old.text self.new.text fault) }
        ensures broken { IfErr result (λ fault. Broken R.gives R.failed self.old.text self.new.text fault) }
        ensures in_part { (halt : Halt) (before : coming.AtHand R) → seeks self.old.fault self.old.halt ≡ Some halt → Halts R.gives R.failed before self.old.text halt → IfErr result (λ fault. GivesUpInPart R.gives R.failed before self.new.text fault) }
    {
        match self.halted() {
            None => self.text.pass_to_section(),
            Some(halt) => self.text.give_up_from(halt),
        }
    }

    // How far the items of a bad game were used, from which reading is to go on.
    fn halted(&self) -> Option<Halt>
        ensures value { result ≡ seeks self.now.fault self.now.halt }
        ensures within { IfSome result (λ halt. halt.at ≤ 1048576) }
    {
        match self.fault {
            None => None,
            Some(_) => self.halt,
        }
    }

    // Passes over bytes, and forgets the fault where that goes well.
    fn pass(&mut self) -> Result<u64, GamesFault>
        requires sound { IsSound R.ended self.old }
        requires goes_on { MayGoOn self.old.fault }
        ensures good { IfOk result (λ _. self.new.fault ≡ None) }
        ensures sound { IfOk result (λ _. self.new.text.has_ended ≡ true → R.ended self.new.text.source) }
        ensures passes { self.old.fault ≡ None → IfOk result (λ count. PassesOver R.gives R.failed self.old.text self.new.text count) }
        ensures gives_up { (fault : GamesFault) (before : coming.AtHand R) → self.old.fault ≡ Some fault → Leaves R.gives R.failed before self.old.text self.old.halt → IfOk result (λ _. IsGivenUp R.gives R.failed before self.new.text) }
        ensures used { IfOk result (λ count. self.new.text.used ≡ self.old.text.used + count) }
        ensures fault { self.old.fault ≡ None → IfErr result (λ fault. NotPassed R.gives R.failed self.old.text self.new.text fault) }
        ensures broken { IfErr result (λ fault. NotGivenUp R.gives R.failed self.old.text self.new.text fault) }
        ensures in_part { (fault : GamesFault) (before : coming.AtHand R) → self.old.fault ≡ Some fault → Leaves R.gives R.failed before self.old.text self.old.halt → IfErr result (λ fault. IsGivenUpInPart R.gives R.failed before self.new.text fault) }
    {
        match self.go_on() {
            Ok(count) => {
                self.fault = None;
                Ok(count)
            }
            Err(Fault::Memory) => Err(GamesFault::Pgn(at_place(0, FaultKind::Memory))),
            Err(Fault::Read) => Err(GamesFault::Read),
        }
    }

    // Keeps a fault with its place from the input's beginning, `used` bytes further on, and returns it.
    fn keep(&mut self, fault: GamesFault, used: u64) -> GamesFault
        ensures text { self.new.text ≡ self.old.text }
        ensures halt { self.new.halt ≡ self.old.halt }
        ensures fault { self.new.fault ≡ Some result }
        ensures kind { HasKind fault result }
        ensures place { IsPlaced used result }
    {
        let placed = placed(fault, used);
        self.fault = Some(placed);
        placed
    }

    /// The same as `next`, and what is found out on the way of the texts of the game's moves is put into `texts`, so that
    /// `write_game_with` need not make the moves again.
    ///
    /// # Errors
    ///
    /// Those of `next`.
    pub fn next_with(&mut self, texts: &mut Texts<'a, A>) -> Result<Option<Game<'a, A>>, GamesFault>
        requires { IsSound R.ended self.old }
        ensures { ReadsNext R.gives R.failed R.ended self.old self.new result }
    {
        if let Some(fault) = self.reported() {
            return Err(fault);
        }
        let used = self.text_used();
        match self.take(texts) {
            Ok(Some((game, _))) => Ok(Some(game)),
            Ok(None) => Ok(None),
            Err(fault) => Err(self.keep(fault, used)),
        }
    }

    /// The next game; `None` where there are only whitespace and hidden lines. It is read before the next: the source is asked for more,
    /// at most 65,536 bytes at a time, only where no one game is at the start of the bytes at hand, whatever follows them, and their items may
    /// still be the beginning of one; so a read that fails never takes the place of a fault.
    ///
    /// # Errors
    ///
    /// The first fault of the game, its place in bytes from the input's beginning; for want of memory, how many bytes were used before the
    /// game. `Read` where a read failed or 2^40 were made. Each later call returns the same fault and reads nothing, until `pass_over` is
    /// called.
    pub fn next(&mut self) -> Result<Option<Game<'a, A>>, GamesFault>
        requires { IsSound R.ended self.old }
        ensures { ReadsNext R.gives R.failed R.ended self.old self.new result }
    {
        let mut texts = Texts::unwanted(self.alloc);
        self.next_with(&mut texts)
    }

    /// Passes over bytes, from where reading stopped to the next section of tags, and returns how many: `next` goes on there, as if the input
    /// began there. A section begins with `[` and the first byte of a tag's name (a letter, a digit or `_`) where they are first on a
    /// line, after whitespace at most; a line begins after a line feed or a byte order mark, and where the search begins. Where none
    /// begins, all bytes are passed over, and `next` returns `None`.
    ///
    /// After a fault the search begins after the items of the game that has it, whatever they mean: they end at the bracket of a tag after
    /// movetext, at what is no item, or at 1,048,576 bytes; where whitespace alone comes before what reaches past these, at its end. So
    /// the text alone decides where reading goes on, and not where it stopped; a bracket in a comment of that game begins no section, and a
    /// left brace without a right one ends its items. Without a fault the search begins after the last game. The source is asked for more only where
    /// the bytes before it don't decide where reading goes on.
    ///
    /// # Errors
    ///
    /// `Read` where a read failed or 2^40 were made, and `8 Memory`: these stay, also where they came before. Each later call returns the
    /// same fault and reads nothing.
    pub fn pass_over(&mut self) -> Result<u64, GamesFault>
        requires { IsSound R.ended self.old }
        ensures sound { IsSound R.ended self.new }
        ensures again { (fault : GamesFault) → self.old.fault ≡ Some fault → (MayGoOn (Some fault) → ⊥) → result ≡ Err fault }
        ensures untouched { (fault : GamesFault) → self.old.fault ≡ Some fault → (MayGoOn (Some fault) → ⊥) → self.new ≡ self.old }
        ensures sticky { IfErr result (λ fault. self.new.fault ≡ Some fault) }
        ensures good { IfOk result (λ _. self.new.fault ≡ None) }
        ensures goes_on { IfOk result (λ _. MayGoOn self.old.fault) }
        ensures passes { self.old.fault ≡ None → IfOk result (λ count. PassesOver R.gives R.failed self.old.text self.new.text count) }
        ensures gives_up { (fault : GamesFault) (before : coming.AtHand R) → self.old.fault ≡ Some fault → Leaves R.gives R.failed before self.old.text self.old.halt → IfOk result (λ _. IsGivenUp R.gives R.failed before self.new.text) }
        ensures used { IfOk result (λ count. self.new.text.used ≡ self.old.text.used + count) }
        ensures fault { self.old.fault ≡ None → IfErr result (λ fault. NotPassed R.gives R.failed self.old.text self.new.text fault) }
        ensures broken { MayGoOn self.old.fault → IfErr result (λ fault. NotGivenUp R.gives R.failed self.old.text self.new.text fault) }
        ensures in_part { (fault : GamesFault) (before : coming.AtHand R) → self.old.fault ≡ Some fault → MayGoOn (Some fault) → Leaves R.gives R.failed before self.old.text self.old.halt → IfErr result (λ fault. IsGivenUpInPart R.gives R.failed before self.new.text fault) }
        ensures place { MayGoOn self.old.fault → IfErr result (λ fault. IsPlaced self.old.text.used fault) }
    {
        if let Some(fault) = self.staying() {
            return Err(fault);
        }
        let used = self.text_used();
        match self.pass() {
            Ok(count) => Ok(count),
            Err(fault) => Err(self.keep(fault, used)),
        }
    }
}
