//! Going over a collection.

ghost use Rattle.std.specs.Prelude.{◌≡◌, ◌≤◌, ◌<◌, ◌+◌, ◌*◌, ℕ, [], true, None, length, IfErr, IfOk, IfSome};
ghost use Rattle.chess_loop.specs.steps.Sending.{Flows, Sends};
ghost use Rattle.chess_command_line.specs.declared.collection.Failure.{Failure};
ghost use Rattle.chess_command_line.specs.declared.collection.Failure.TheVariants as by;
ghost use Rattle.chess_collection.specs.Handling.{GoesOver, IsEarly};
ghost use Rattle.chess_collection.specs.Windows.{Comes, IsWide, KnowsItsEnd, StayFew};
ghost use Rattle.chess_collection.specs.steps.Going.{BreaksOff, Fills, Finishes, IsEnough, has_broken};

use crate::handler::{Fate, GameHandler, Handled};
use crate::window::Window;
use byte_streams::{Failed, Sink, Source};
use chess_command_line::{Failure, GAMES, Place, Progress};
use chess_loop::OutputBuffer;
use std::alloc::{Allocator, Global};

/// What was gone over.
#[derive(Clone, Copy, Debug)]
pub struct Totals {
    /// Stretches: games, and those that could not be read.
    pub games: u64,
    /// Bytes of the collection.
    pub bytes: u64,
    /// Those of games that could not be read.
    pub passed: u64,
    /// Games that could not be read, as far as they are counted.
    pub bad: u64,
    /// How much was repaired.
    pub repaired: u64,
}

// Puts a text after what is on the page, or writes both.
fn put_text<W: Sink>(
    page: &mut OutputBuffer<Global>,
    text: &[u8],
    writer: &mut W,
) -> Result<(), Failed>
    ensures { Sends W.takes W.failed page.old writer.old text.now page.new writer.new result }
{
    if page.text().len() > 65_536 || text.len() > 65_536 - page.text().len() {
        return page.send(text, writer);
    }
    page.put(text);
    Ok(())
}

// Reads until a good game is decided, or as many bytes are at hand as are looked at for a game.
fn widen<'a, R: Source, A: Allocator, H: GameHandler>(
    handler: &H,
    window: &mut Window<'a, R, A>,
    place: Place,
) -> Result<Option<Handled>, Failure>
    requires sound { KnowsItsEnd R.ended window.old }
    requires first { 1 ≤ place.number }
    requires few { place.number ≤ 144115188075855872 }
    ensures came { IfOk result (λ _. Comes R.gives R.failed window.old window.new) }
    ensures sound { IfOk result (λ _. KnowsItsEnd R.ended window.new) }
    ensures wide { IfOk result (λ found. found ≡ None → IsWide window.new) }
    ensures few { IfOk result (λ _. StayFew H.white window.old.bytes window.new.bytes) }
    ensures early { IfOk result (λ found. IfSome found (λ h. IsEarly window.new.bytes h.used h.fate)) }
    ensures handled { IfOk result (λ found. IfSome found (λ h. H.handles handler.now place.number place.offset window.new.bytes h.used h.fate h.text.items)) }
    ensures broken { IfErr result (λ failure. BreaksOff R.gives R.failed R.ended H.white window.old window.new failure) }
{
    let mut least = 0usize;
    while !window.is_wide() {
        window.read_more()?;
        let count = window.unread().len();
        // (Once they are an eighth more, so that bytes are gone over a few times, however few come at once.)
        if count >= least {
            least = count.saturating_add(count / 8);
            if let Some(handled) = handler.early(place, window.unread())? {
                return Ok(Some(handled));
            }
        }
    }
    Ok(None)
}

// What becomes of the stretch that the bytes at hand begin with, and more where they are white; `None` where nothing but what the handler calls white is left.
fn decided<'a, R: Source, A: Allocator, H: GameHandler>(
    handler: &H,
    window: &mut Window<'a, R, A>,
    place: Place,
) -> Result<Option<Handled>, Failure>
    requires sound { KnowsItsEnd R.ended window.old }
    requires wide { IsWide window.old }
    requires first { 1 ≤ place.number }
    requires few { place.number ≤ 144115188075855872 }
    ensures came { IfOk result (λ _. Comes R.gives R.failed window.old window.new) }
    ensures sound { IfOk result (λ _. KnowsItsEnd R.ended window.new) }
    ensures wide { IfOk result (λ _. IsWide window.new) }
    ensures few { IfOk result (λ _. StayFew H.white window.old.bytes window.new.bytes) }
    ensures fits { IfOk result (λ found. IfSome found (λ h. h.used ≤ length window.new.bytes)) }
    ensures handled { IfOk result (λ found. IfSome found (λ h. H.handles handler.now place.number place.offset window.new.bytes h.used h.fate h.text.items)) }
    ensures end { IfOk result (λ found. found ≡ None → (window.new.has_ended ≡ true) × H.white window.new.bytes) }
    ensures broken { IfErr result (λ failure. BreaksOff R.gives R.failed R.ended H.white window.old window.new failure) }
{
    loop {
        if let Some(handled) = handler.handle(place, window.unread())? {
            return Ok(Some(handled));
        }
        if window.has_ended() {
            return Ok(None);
        }
        // White as far as the bytes at hand go: as many again, and once more.
        let most = window.unread().len().saturating_mul(2);
        window.read_more()?;
        window.fill(most)?;
    }
}

// What becomes of the next stretch, which was found early, or for which more is read; `None` where nothing but what the handler calls white is left.
fn next_handled<'a, R: Source, A: Allocator, H: GameHandler>(
    handler: &H,
    window: &mut Window<'a, R, A>,
    place: Place,
    early: Option<Handled>,
) -> Result<Option<Handled>, Failure>
    requires sound { KnowsItsEnd R.ended window.old }
    requires first { 1 ≤ place.number }
    requires few { place.number ≤ 144115188075855872 }
    requires early { IfSome early (λ h. IsEarly window.old.bytes h.used h.fate) }
    requires handled { IfSome early (λ h. H.handles handler.now place.number place.offset window.old.bytes h.used h.fate h.text.items) }
    ensures came { IfOk result (λ _. Comes R.gives R.failed window.old window.new) }
    ensures sound { IfOk result (λ _. KnowsItsEnd R.ended window.new) }
    ensures enough { IfOk result (λ found. IfSome found (λ h. IsEnough window.new h.used h.fate)) }
    ensures few { IfOk result (λ _. StayFew H.white window.old.bytes window.new.bytes) }
    ensures fits { IfOk result (λ found. IfSome found (λ h. h.used ≤ length window.new.bytes)) }
    ensures handled { IfOk result (λ found. IfSome found (λ h. H.handles handler.now place.number place.offset window.new.bytes h.used h.fate h.text.items)) }
    ensures end { IfOk result (λ found. found ≡ None → (window.new.has_ended ≡ true) × H.white window.new.bytes) }
    ensures broken { IfErr result (λ failure. BreaksOff R.gives R.failed R.ended H.white window.old window.new failure) }
{
    if let Some(handled) = early {
        return Ok(Some(handled));
    }
    if let Some(handled) = widen(handler, window, place)? {
        return Ok(Some(handled));
    }
    decided(handler, window, place)
}

impl Totals {
    ghost use Rattle.std.specs.Prelude.{◌≡◌, ◌≤◌, ◌<◌, ◌+◌, length};
    ghost use Rattle.chess_collection.specs.Handling.{bad_of, passed_of};

    // Of nothing.
    fn none() -> Totals
        ensures games { result.games ≡ 0 }
        ensures bytes { result.bytes ≡ 0 }
        ensures passed { result.passed ≡ 0 }
        ensures bad { result.bad ≡ 0 }
    {
        Totals {
            games: 0,
            bytes: 0,
            passed: 0,
            bad: 0,
            repaired: 0,
        }
    }

    // A stretch more.
    fn add(&mut self, handled: &Handled)
        requires bytes { self.old.bytes + handled.now.used < 18446744073709551616 }
        requires passed { self.old.passed ≤ self.old.bytes }
        requires bad { self.old.bad < 18446744073709551615 }
        ensures bytes { self.new.bytes ≡ self.old.bytes + handled.now.used }
        ensures passed { self.new.passed ≡ self.old.passed + passed_of handled.now.fate handled.now.used }
        ensures bad { self.new.bad ≡ self.old.bad + bad_of handled.now.fate }
    {
        self.repaired = self.repaired.saturating_add(handled.repaired);
        match handled.fate {
            Fate::Read | Fate::Saved => {}
            Fate::Lost => {
                self.bad += 1;
                self.passed += handled.used as u64;
            }
            Fate::Left => self.passed += handled.used as u64,
        }
        self.bytes += handled.used as u64;
    }

    // All stretches, after which `rest` bytes are left.
    fn with_rest(self, games: u64, rest: usize) -> Totals
        requires bytes { self.bytes + rest < 18446744073709551616 }
        ensures games { result.games ≡ games }
        ensures bytes { result.bytes ≡ self.bytes + rest }
        ensures passed { result.passed ≡ self.passed }
        ensures bad { result.bad ≡ self.bad }
    {
        Totals {
            games,
            bytes: self.bytes + rest as u64,
            passed: self.passed,
            bad: self.bad,
            repaired: self.repaired,
        }
    }
}

// Writes what is on the page, where more may be read.
fn let_go<W: Sink>(
    early: &Option<Handled>,
    page: &mut OutputBuffer<Global>,
    writer: &mut W,
) -> Result<(), Failed>
    ensures { Flows W.takes W.failed page.old writer.old page.new writer.new result }
{
    if early.is_some() {
        return Ok(());
    }
    page.flush(writer)
}

// Goes over what is at hand after a failed read, as if the source had ended there, after `before` stretches of `offset` bytes: up to a stretch that reaches the
// last byte, since bytes that didn't come might have made it longer.
fn finish<'a, R: Source, W: Sink, A: Allocator, H: GameHandler>(
    handler: &H,
    window: &mut Window<'a, R, A>,
    page: &mut OutputBuffer<Global>,
    writer: &mut W,
    before: u64,
    offset: u64,
) -> Failure
    requires few { before < 144115188075855872 }
    requires fits { offset + length window.old.bytes < 18446744073709551616 }
    ensures finishes { Finishes (λ n o b u is t. H.handles handler.now n o b u is t) W.takes W.failed H.white before offset window.old.bytes page.old writer.old page.new writer.new result }
    ensures source { window.new.source ≡ window.old.source }
{
    let mut offset = offset;
    for done in before..GAMES {
        let place = Place {
            number: done + 1,
            offset,
        };
        let handled = match handler.handle(place, window.unread()) {
            Err(failure) => return failure,
            Ok(None) => return Failure::Read,
            Ok(Some(handled)) => handled,
        };
        let used = handled.used;
        if used >= window.unread().len() {
            return Failure::Read;
        }
        match put_text(page, handled.text.as_slice(), writer) {
            Ok(()) => {}
            Err(_) => return Failure::Write,
        }
        window.use_first(used);
        offset += used as u64;
    }
    Failure::Read
}

// Puts what is written of the stretches on the page, and writes it when the page is full and before more is read; it ends where the source has ended, or where
// nothing is left of the bytes before a failed read.
fn fill<'a, R: Source, W: Sink, A: Allocator, H: GameHandler>(
    handler: &H,
    window: &mut Window<'a, R, A>,
    page: &mut OutputBuffer<Global>,
    writer: &mut W,
    progress: &mut Progress<'_>,
) -> Result<Totals, Failure>
    requires sound { KnowsItsEnd R.ended window.old }
    requires fresh { window.old.bytes ≡ [] }
    requires reads { window.old.reads ≤ 1099511627776 }
    ensures { Fills (λ n o b u is t. H.handles handler.now n o b u is t) W.takes W.failed R.gives R.failed R.ended H.white window.old page.old writer.old window.new page.new writer.new result }
{
    let mut totals = Totals::none();
    for before in 0..GAMES {
        progress.show(totals.bytes, before);
        let place = Place {
            number: before + 1,
            offset: totals.bytes,
        };
        let early = match handler.early(place, window.unread()) {
            Ok(early) => early,
            Err(failure) => return Err(failure),
        };
        match let_go(&early, page, writer) {
            Ok(()) => {}
            Err(_) => return Err(Failure::Write),
        }
        let handled = match next_handled(handler, window, place, early) {
            Err(Failure::Read) => {
                return Err(finish(handler, window, page, writer, before, totals.bytes));
            }
            Err(Failure::Memory) => return Err(Failure::Memory),
            Err(Failure::Write) => return Err(Failure::Write),
            Ok(None) => return Ok(totals.with_rest(before, window.unread().len())),
            Ok(Some(handled)) => handled,
        };
        match put_text(page, handled.text.as_slice(), writer) {
            Ok(()) => {}
            Err(_) => return Err(Failure::Write),
        }
        window.use_first(handled.used);
        totals.add(&handled);
    }
    Err(Failure::Read)
}

// Whether a write has failed.
fn has_broken(ended: &Result<Totals, Failure>) -> bool
    ensures { result ≡ has_broken ended.now }
{
    matches!(ended, Err(Failure::Write))
}

/// Goes over a collection to its end, stretch by stretch, and writes a text and then what the handler writes of each. What is written is gathered, and goes out
/// before more is read.
///
/// # Errors
///
/// `Read`: a read failed, there were 2^40, or there were 2^57 stretches. The bytes that came are gone over as if the source had ended there, and what is written
/// of all their stretches is written, but for one that reaches the last byte. `Write`: a write failed or took no byte, and a prefix is written. `Memory`: there
/// was none; what is written of all stretches before is written.
pub fn go_over<'a, R: Source, W: Sink, A: Allocator, H: GameHandler>(
    alloc: Global,
    handler: &H,
    head: &[u8],
    window: &mut Window<'a, R, A>,
    writer: &mut W,
    progress: &mut Progress<'_>,
) -> Result<Totals, Failure>
    requires sound { KnowsItsEnd R.ended window.old }
    requires fresh { window.old.bytes ≡ [] }
    requires reads { window.old.reads ≤ 1099511627776 }
    ensures { GoesOver R.gives R.failed (λ n o b u is t. H.handles handler.now n o b u is t) H.white R.ended window.old.reads W.takes W.failed head.now window.old.source window.new writer.old writer.new result }
{
    let Ok(page) = OutputBuffer::new(alloc) else {
        return Err(Failure::Memory);
    };
    let mut page = page;
    match put_text(&mut page, head, writer) {
        Ok(()) => {}
        Err(_) => return Err(Failure::Write),
    }
    let ended = fill(handler, window, &mut page, writer, progress);
    if has_broken(&ended) {
        return ended;
    }
    match page.flush(writer) {
        Ok(()) => ended,
        Err(_) => Err(Failure::Write),
    }
}
