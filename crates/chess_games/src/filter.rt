//! The games of a reader gone over: good ones written, bad ones reported by number, place and fault.

ghost use Rattle.std.specs.Prelude.{◌≡◌, ◌≤◌, ◌<◌, ◌⊎◌, if◌then◌else◌, [], true, false, None, Some, IfErr, IfOk, OnOk};
ghost use Rattle.byte_streams.specs.Calls.{Carries};
ghost use Rattle.chess_items.specs.Coming.{AtHand};
ghost use Rattle.chess_pgn.specs.Sources.{IsGivenUp, IsSound, Leaves, MayGoOn};
ghost use Rattle.chess_pgn.specs.declared.games.GamesFault.{GamesFault};
ghost use Rattle.chess_pgn.specs.declared.games.GamesFault.TheVariants.{Pgn};
ghost use Rattle.chess_pgn.specs.steps.GameCode.{game_of};
ghost use Rattle.chess_games.specs.Filtered.{IsFiltered, IsFilteredInPart, IsGoneOver, IsLeftOff, IsUnwritten, most_games};
ghost use Rattle.chess_games.specs.Forms.{IsHeaded, head_in, text_in};
ghost use Rattle.chess_games.specs.steps.Leaving.{IsFor, NotPassed};

use crate::form::Form;
use crate::part::Part;
use crate::put::put;
use byte_streams::{Sink, Source};
use chess_command_line::{Failure, GAMES, Progress};
use chess_pgn::{FaultKind, Game, Games, GamesFault, PgnFault, Texts};
use chess_repair::Letters;
use std::alloc::Allocator;

/// What is asked of a run over games.
#[derive(Drop)]
pub struct Wanted {
    /// How good games are written.
    pub form: Form,
    /// The games that are written or reported.
    pub part: Part,
    /// At the end a line with the number of games, of bytes, and of the bytes of bad games, on the standard error.
    pub totals: bool,
    /// The letters of the men where bad games are salvaged, if they aren't the standard's.
    pub letters: Option<Letters>,
}

// Writes what comes before all games.
fn put_head<A: Allocator, W: Sink>(alloc: &A, form: &Form, writer: &mut W) -> Result<(), Failure>
    ensures all { OnOk result (Carries W.takes writer.old (head_in form.now) writer.new) }
    ensures well { OnOk result (W.failed writer.new ≡ W.failed writer.old) }
    ensures unwritten { IfErr result (λ failure. IsUnwritten W.takes W.failed (head_in form.now) writer.old writer.new failure) }
{
    let Ok(text) = form.head(alloc) else {
        return Err(Failure::Memory);
    };
    put(writer, text.as_slice())
}

// Writes a game, if it is asked for.
fn write_if<'a, A: Allocator, W: Sink>(
    alloc: &'a A,
    form: &Form,
    is_asked: bool,
    before: u64,
    game: &Game<'a, A>,
    texts: &Texts<'a, A>,
    writer: &mut W,
) -> Result<(), Failure>
    requires few { before < most_games }
    ensures all { OnOk result (Carries W.takes writer.old (if is_asked then text_in form.now before (game_of game.now) else []) writer.new) }
    ensures well { OnOk result (W.failed writer.new ≡ W.failed writer.old) }
    ensures asked { IfErr result (λ _. is_asked ≡ true) }
    ensures unwritten { IfErr result (λ failure. IsUnwritten W.takes W.failed (text_in form.now before (game_of game.now)) writer.old writer.new failure) }
{
    if !is_asked {
        return Ok(());
    }
    let Ok(text) = form.text(alloc, before, game, texts) else {
        return Err(Failure::Memory);
    };
    put(writer, text.as_slice())
}

// Why a run ends after the most games.
const TOO_MANY: Failure = Failure::Read;

// A line on the standard error with the number of a game, from 1, and its fault. A fault of the standard error is ignored.
pub fn report(rt: &HostRuntime, number: u64, fault: PgnFault) {
    let (place, kind, name) = (fault.place, fault.kind.number(), fault.kind.name());
    let _ = eprintln!(rt; "game {number}: fault {place} {kind} {name}");
}

// A line on the standard error with the number of all games and of their bytes, and of the bytes that were passed over with bad games. A fault of the
// standard error is ignored.
fn report_totals(rt: &HostRuntime, games: u64, bytes: u64, passed: u64) {
    let _ = eprintln!(rt; "games {games}, bytes {bytes}, passed over {passed}");
}

// The same of the game after `before` others, if it is asked for; how many lines that were.
fn report_if(rt: &HostRuntime, is_asked: bool, before: u64, fault: PgnFault) -> u64
    ensures count { result ≡ (if is_asked then 1 else 0) }
    ensures one { result ≤ 1 }
{
    if !is_asked {
        return 0;
    }
    report(rt, before.saturating_add(1), fault);
    1
}

// The fault of a game that can be passed over; else why reading ends with it.
fn passable(fault: GamesFault) -> Result<PgnFault, Failure>
    ensures fault { IfOk result (λ found. fault ≡ Pgn found) }
    ensures goes_on { OnOk result (MayGoOn (Some fault)) }
    ensures failure { IfErr result (λ failure. IsFor failure fault) }
{
    match fault {
        GamesFault::Read => Err(Failure::Read),
        GamesFault::Pgn(fault) => match fault.kind {
            FaultKind::Memory => Err(Failure::Memory),
            _ => Ok(fault),
        },
    }
}

// Passes over the rest of a bad game.
fn pass<'a, A: Allocator, R: Source>(games: &mut Games<'a, R, A>) -> Result<(), Failure>
    requires sound { IsSound R.ended games.old }
    ensures sound { IsSound R.ended games.new }
    ensures good { OnOk result (games.new.fault ≡ None) }
    ensures goes_on { OnOk result (MayGoOn games.old.fault) }
    ensures gives_up { (fault : GamesFault) (before : AtHand R) → games.old.fault ≡ Some fault → Leaves R.gives R.failed before games.old.text games.old.halt → OnOk result (IsGivenUp R.gives R.failed before games.new.text) }
    ensures in_part { (fault : GamesFault) (before : AtHand R) → games.old.fault ≡ Some fault → MayGoOn (Some fault) → Leaves R.gives R.failed before games.old.text games.old.halt → IfErr result (λ failure. NotPassed R.gives R.failed before games.new.text failure) }
{
    match games.pass_over() {
        Ok(_count) => Ok(()),
        Err(GamesFault::Read) => Err(Failure::Read),
        Err(GamesFault::Pgn(_)) => Err(Failure::Memory),
    }
}

// Writes the good games of a part, and goes on after the others; how many there were of those in it.
fn write_good<'a, A: Allocator, R: Source, W: Sink>(
    rt: &HostRuntime,
    alloc: &'a A,
    wanted: &Wanted,
    games: &mut Games<'a, R, A>,
    writer: &mut W,
    progress: &mut Progress<'_>,
) -> Result<u64, Failure>
    requires sound { IsSound R.ended games.old }
    requires none { games.old.fault ≡ None }
    ensures good { IfOk result (λ bad. IsGoneOver R.gives R.failed R.ended W.takes W.failed wanted.now.form wanted.now.part games.old.text writer.old writer.new bad) }
    ensures off { IfErr result (λ failure. IsLeftOff R.gives R.failed R.ended W.takes W.failed wanted.now.form wanted.now.part games.old.text writer.old writer.new failure) }
{
    let mut bad = 0u64;
    let mut passed = 0u64;
    let mut texts = Texts::new(alloc);
    for before in 0..GAMES {
        let from = games.used();
        progress.show(from, before);
        let is_asked = wanted.part.has(before);
        match games.next_with(&mut texts) {
            Ok(None) => {
                if wanted.totals {
                    report_totals(rt, before, games.used(), passed);
                }
                return Ok(bad);
            }
            Ok(Some(game)) => {
                write_if(alloc, &wanted.form, is_asked, before, &game, &texts, writer)?;
            }
            Err(fault) => {
                let fault = passable(fault)?;
                bad += report_if(rt, is_asked, before, fault);
                pass(games)?;
                passed = passed.saturating_add(games.used().saturating_sub(from));
            }
        }
    }
    Err(TOO_MANY)
}

// The same, from the beginning of a reader.
fn filter_games<A: Allocator, R: Source + Drop, W: Sink>(
    rt: &HostRuntime,
    alloc: A,
    wanted: &Wanted,
    reader: R,
    writer: &mut W,
    progress: &mut Progress<'_>,
) -> Result<u64, Failure>
    ensures good { IfOk result (λ bad. IsFiltered R.gives R.failed R.ended W.takes W.failed wanted.now.form wanted.now.part reader writer.old writer.new bad) }
    ensures short { IfErr result (λ failure. IsFilteredInPart R.gives R.failed R.ended W.takes W.failed wanted.now.form wanted.now.part reader writer.old writer.new failure) }
{
    let mut games = Games::new(&alloc, reader);
    write_good(rt, &alloc, wanted, &mut games, writer, progress)
}

/// Writes what comes before all games, and the good games of a part of the reader's games, each before the next is read, and reports the others of the part by
/// number, place and fault on the standard error. Returns how many others there were in it.
///
/// # Errors
///
/// The first failure of a stream, or want of memory; what was written before it stays written.
pub fn filter<A: Allocator, R: Source + Drop, W: Sink>(
    rt: &HostRuntime,
    alloc: A,
    wanted: Wanted,
    reader: R,
    writer: &mut W,
    progress: &mut Progress<'_>,
) -> Result<u64, Failure>
    requires reader { R.failed reader ≡ false }
    requires writer { W.failed writer.old ≡ false }
    ensures good { IfOk result (λ bad. IsHeaded W.takes W.failed wanted.form writer.old (λ mid. IsFiltered R.gives R.failed R.ended W.takes W.failed wanted.form wanted.part reader mid writer.new bad)) }
    ensures short { IfErr result (λ failure. IsUnwritten W.takes W.failed (head_in wanted.form) writer.old writer.new failure ⊎ IsHeaded W.takes W.failed wanted.form writer.old (λ mid. IsFilteredInPart R.gives R.failed R.ended W.takes W.failed wanted.form wanted.part reader mid writer.new failure)) }
{
    put_head(&alloc, &wanted.form, writer)?;
    filter_games(rt, alloc, &wanted, reader, writer, progress)
}
