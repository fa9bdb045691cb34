//! A collection whose bad games are salvaged: read from what their text is repaired to.

ghost use Rattle.std.specs.Prelude.{◌≡◌, ◌≤◌, ◌<◌, ◌≢◌, ◌-◌, true, false, [], Some, None, IfErr, IfOk, IfSome, length};
ghost use Rattle.chess_items.specs.Abandoned.{GivesUp};
ghost use Rattle.chess_items.specs.declared.fault.FaultKind.TheVariants.{Memory};
ghost use Rattle.chess_pgn.specs.Reading.{HasNoGame};
ghost use Rattle.chess_pgn.specs.steps.GameCode.{game_of};
ghost use Rattle.chess_repair.specs.Letters.{IsInLetters};
ghost use Rattle.chess_salvage.specs.Endings.{ComesLast, is_end};
ghost use Rattle.chess_salvage.specs.Salvaging.{IsSalvaged};
ghost use Rattle.chess_collection.specs.Handling.{GoesOver, IsEarly};
ghost use Rattle.chess_collection.specs.Windows.{KnowsItsEnd};
ghost use Rattle.chess_games.specs.Forms.{head_in};
ghost use Rattle.chess_games.specs.Parts.{is_in};
ghost use Rattle.chess_command_line.specs.declared.collection.Failure.TheVariants as by;
ghost use Rattle.chess_games.specs.Salvaged.{IsSavedAs, IsSavedIn, SavingEnds, found_text, lost_fate};

use crate::filter::{Wanted, report};
use byte_streams::{Sink, Source};
use chess_collection::{Fate, GameHandler, Handled, Totals, Window, go_over};
use chess_command_line::{Failure, Place, Progress};
use chess_items::given_up;
use chess_pgn::{FaultKind, Game, PgnFault, Texts, read_game};
use chess_repair::{LETTER, respell};
use chess_salvage::{Salvaged, is_end, salvage};
use std::alloc::{AllocError, Allocator, Global};

// A line on the standard error with the number of a game, from 1, and what was repaired in it. A fault of the standard error is ignored.
fn report_repair(rt: &HostRuntime, number: u64, place: u64, name: &str) {
    let _ = eprintln!(rt; "game {number}: repaired {place} {name}");
}

// The same of all that was repaired in a game that begins after `from` bytes.
fn report_repairs<'a, A: Allocator>(
    rt: &HostRuntime,
    number: u64,
    from: u64,
    found: &Salvaged<'a, A>,
) {
    for repair in found.repairs.as_slice() {
        report_repair(
            rt,
            number,
            from.saturating_add(repair.place as u64),
            repair.kind.name(),
        );
    }
    for (at, cut) in found.cuts.as_slice().iter().enumerate() {
        report_repair(
            rt,
            number,
            from.saturating_add(found.place_of(at) as u64),
            cut.kind.name(),
        );
    }
}

// A line on the standard error with the number of all games and of their bytes, of the bytes that were passed over, and of what was repaired. A fault of the
// standard error is ignored.
fn report_sums(rt: &HostRuntime, totals: &Totals) {
    let (games, bytes, passed, repaired) = (
        totals.games,
        totals.bytes,
        totals.passed,
        totals.repaired,
    );
    let _ = eprintln!(rt;
        "games {games}, bytes {bytes}, passed over {passed}, repaired {repaired}"
    );
}

// A fault with its place `from` bytes further on.
fn placed(fault: PgnFault, from: u64) -> PgnFault {
    PgnFault {
        place: fault.place.saturating_add(from),
        kind: fault.kind,
    }
}

/// Writes the good games of a part, and those that are saved.
#[derive(Drop)]
struct Saver<'a> {
    rt: &'a HostRuntime,
    alloc: &'a Global,
    wanted: &'a Wanted,
}

impl<'a> Saver<'a> {
    // Whether a game is of the part.
    fn has(&self, place: Place) -> bool
        ensures { result ≡ is_in self.now.wanted.now.part (place.number - 1) }
    {
        self.wanted.part.has(place.number.saturating_sub(1))
    }

    // What is written of a game.
    fn written(&self, place: Place, game: &Game<'a, Global>) -> Result<Vec<u8>, AllocError>
        requires first { 1 ≤ place.number }
        requires few { place.number ≤ 144115188075855872 }
        ensures { IfOk result (λ text. text.items ≡ found_text self.now.wanted.now.form (place.number - 1) (is_in self.now.wanted.now.part (place.number - 1)) (Some (game_of game.now))) }
    {
        if !self.has(place) {
            return Ok(Vec::new(*self.alloc));
        }
        let texts = Texts::new(self.alloc);
        let text = self
            .wanted
            .form
            .text(self.alloc, place.number - 1, game, &texts)?;
        Vec::from_slice(*self.alloc, text.as_slice())
    }

    // What becomes of a game that is saved.
    fn saved(
        &self,
        place: Place,
        bytes: &[u8],
        found: &Salvaged<'a, Global>,
        game: &Game<'a, Global>,
    ) -> Result<Handled, AllocError>
        requires first { 1 ≤ place.number }
        requires few { place.number ≤ 144115188075855872 }
        requires none { HasNoGame bytes.now }
        requires goes_on { is_end bytes.now ≡ false }
        requires some { 0 < found.now.used }
        requires salvaged { IsSalvaged bytes.now found.now.repairs.items found.now.cuts.items found.now.used (Some (game_of game.now)) }
        ensures fits { IfOk result (λ h. h.used ≤ length bytes.now) }
        ensures row { IfOk result (λ h. IsSavedAs self.now.wanted.now.form self.now.wanted.now.part place.number place.offset bytes.now h.used h.fate h.text.items) }
    {
        if self.has(place) {
            report_repairs(self.rt, place.number, place.offset, found);
        }
        let text = self.written(place, game)?;
        let cuts = found.cuts.len() as u64;
        Ok(Handled {
            used: found.used,
            fate: Fate::Saved,
            repaired: (found.repairs.len() as u64).saturating_add(cuts),
            text,
        })
    }

    // What a game that is passed over is.
    fn lost_fate(&self, place: Place, fault: PgnFault) -> Fate
        ensures { result ≡ lost_fate (is_in self.now.wanted.now.part (place.number - 1)) }
    {
        if self.has(place) {
            report(self.rt, place.number, placed(fault, place.offset));
            return Fate::Lost;
        }
        Fate::Left
    }

    // What becomes of a game that can't be read.
    fn bad(&self, place: Place, bytes: &[u8], fault: PgnFault) -> Result<Handled, AllocError>
        requires first { 1 ≤ place.number }
        requires few { place.number ≤ 144115188075855872 }
        requires none { HasNoGame bytes.now }
        requires goes_on { is_end bytes.now ≡ false }
        ensures fits { IfOk result (λ h. h.used ≤ length bytes.now) }
        ensures row { IfOk result (λ h. IsSavedAs self.now.wanted.now.form self.now.wanted.now.part place.number place.offset bytes.now h.used h.fate h.text.items) }
    {
        let found = salvage(self.alloc, bytes)?;
        if let Some(game) = &found.game {
            if found.used > 0 {
                return self.saved(place, bytes, &found, game);
            }
        }
        Ok(Handled {
            used: given_up(bytes),
            fate: self.lost_fate(place, fault),
            repaired: 0,
            text: Vec::new(*self.alloc),
        })
    }

    // The same, and of the end of a file, which is no game.
    fn unread(
        &self,
        place: Place,
        bytes: &[u8],
        fault: PgnFault,
    ) -> Result<Option<Handled>, Failure>
        requires first { 1 ≤ place.number }
        requires few { place.number ≤ 144115188075855872 }
        requires none { HasNoGame bytes.now }
        ensures fits { IfOk result (λ found. IfSome found (λ h. h.used ≤ length bytes.now)) }
        ensures row { IfOk result (λ found. IfSome found (λ h. IsSavedAs self.now.wanted.now.form self.now.wanted.now.part place.number place.offset bytes.now h.used h.fate h.text.items)) }
        ensures last { IfOk result (λ found. found ≡ None → is_end bytes.now ≡ true) }
        ensures memory { IfErr result (λ failure. failure ≡ by.Memory) }
    {
        if is_end(bytes) {
            return Ok(None);
        }
        match self.bad(place, bytes, fault) {
            Ok(handled) => Ok(Some(handled)),
            Err(_) => Err(Failure::Memory),
        }
    }

    // What becomes of the game that a text begins with, in the standard's letters.
    fn spelt(&self, place: Place, bytes: &[u8]) -> Result<Option<Handled>, Failure>
        requires first { 1 ≤ place.number }
        requires few { place.number ≤ 144115188075855872 }
        ensures fits { IfOk result (λ found. IfSome found (λ h. h.used ≤ length bytes.now)) }
        ensures row { IfOk result (λ found. IfSome found (λ h. IsSavedAs self.now.wanted.now.form self.now.wanted.now.part place.number place.offset bytes.now h.used h.fate h.text.items)) }
        ensures last { IfOk result (λ found. found ≡ None → ComesLast bytes.now) }
        ensures memory { IfErr result (λ failure. failure ≡ by.Memory) }
    {
        match read_game(self.alloc, bytes) {
            Ok(None) => Ok(None),
            Ok(Some((game, used))) => match self.written(place, &game) {
                Ok(text) => Ok(Some(Handled {
                    used,
                    fate: Fate::Read,
                    repaired: 0,
                    text,
                })),
                Err(_) => Err(Failure::Memory),
            },
            Err(fault) => match fault.kind {
                FaultKind::Memory => Err(Failure::Memory),
                _ => self.unread(place, bytes, fault),
            },
        }
    }

    // How many letters at these places are of the first `used` bytes; they are reported.
    fn report_letters(&self, place: Place, places: &[usize], used: usize) -> u64 {
        let mut count = 0u64;
        for at in places {
            if *at < used {
                count = count.saturating_add(1);
                if self.has(place) {
                    let at = place.offset.saturating_add(*at as u64);
                    report_repair(self.rt, place.number, at, LETTER);
                }
            }
        }
        count
    }

    // The same of a game with letters at these places written otherwise, where it is read.
    fn letters(&self, place: Place, places: &[usize], used: usize, fate: Fate) -> u64 {
        match fate {
            Fate::Read | Fate::Saved => self.report_letters(place, places, used),
            Fate::Lost | Fate::Left => 0,
        }
    }
}

impl<'a> Saver<'a> {
    // What becomes of the good game that a text in the standard's letters begins with, if it ends before the last byte.
    fn early_spelt(&self, place: Place, bytes: &[u8]) -> Result<Option<Handled>, Failure>
        requires first { 1 ≤ place.number }
        requires few { place.number ≤ 144115188075855872 }
        ensures early { IfOk result (λ found. IfSome found (λ h. IsEarly bytes.now h.used h.fate)) }
        ensures row { IfOk result (λ found. IfSome found (λ h. IsSavedAs self.now.wanted.now.form self.now.wanted.now.part place.number place.offset bytes.now h.used h.fate h.text.items)) }
        ensures memory { IfErr result (λ failure. failure ≡ by.Memory) }
    {
        match read_game(self.alloc, bytes) {
            Ok(None) => Ok(None),
            Ok(Some((game, used))) => {
                if used >= bytes.len() {
                    return Ok(None);
                }
                match self.written(place, &game) {
                    Ok(text) => Ok(Some(Handled {
                        used,
                        fate: Fate::Read,
                        repaired: 0,
                        text,
                    })),
                    Err(_) => Err(Failure::Memory),
                }
            }
            Err(fault) => match fault.kind {
                FaultKind::Memory => Err(Failure::Memory),
                _ => Ok(None),
            },
        }
    }

    // The same with the letters at these places counted and reported, where a game was found.
    fn with_letters(&self, place: Place, places: &[usize], handled: Handled) -> Handled
        ensures used { result.used ≡ handled.used }
        ensures fate { result.fate ≡ handled.fate }
        ensures text { result.text.items ≡ handled.text.items }
    {
        let Handled {
            used,
            fate,
            repaired,
            text,
        } = handled;
        let letters = self.letters(place, places, used, fate);
        Handled {
            used,
            fate,
            repaired: repaired.saturating_add(letters),
            text,
        }
    }
}

impl GameHandler for Saver<'_> {
    ghost use Rattle.chess_salvage.specs.Endings.{ComesLast};
    ghost use Rattle.chess_games.specs.Salvaged.{IsSavedIn};

    ghost handles = { λ s number offset bytes used fate text. IsSavedIn s.wanted.now.letters s.wanted.now.form s.wanted.now.part number offset bytes used fate text };

    ghost white = { λ bytes. ComesLast bytes };

    #[tactic(auto, using(crate::proofs::SavingLemmas::saved_in))]
    fn early(&self, place: Place, bytes: &[u8]) -> Result<Option<Handled>, Failure> {
        match respell(self.alloc, self.wanted.letters, bytes) {
            Ok(Some(respelled)) => match self.early_spelt(place, respelled.text.as_slice()) {
                Ok(Some(handled)) => Ok(Some(self.with_letters(
                    place,
                    respelled.places.as_slice(),
                    handled,
                ))),
                Ok(None) => Ok(None),
                Err(failure) => Err(failure),
            },
            Ok(None) => self.early_spelt(place, bytes),
            Err(_) => Err(Failure::Memory),
        }
    }

    #[tactic(auto, using(crate::proofs::SavingLemmas::saved_in))]
    fn handle(&self, place: Place, bytes: &[u8]) -> Result<Option<Handled>, Failure> {
        match respell(self.alloc, self.wanted.letters, bytes) {
            Ok(Some(respelled)) => match self.spelt(place, respelled.text.as_slice()) {
                Ok(Some(handled)) => Ok(Some(self.with_letters(
                    place,
                    respelled.places.as_slice(),
                    handled,
                ))),
                Ok(None) => self.spelt(place, bytes),
                Err(failure) => Err(failure),
            },
            Ok(None) => self.spelt(place, bytes),
            Err(_) => Err(Failure::Memory),
        }
    }
}

// Writes what comes before all games, and then the good and the saved ones.
fn save_all<'a, R: Source, W: Sink>(
    rt: &'a HostRuntime,
    alloc: &'a Global,
    wanted: &'a Wanted,
    window: &mut Window<'a, R, Global>,
    writer: &mut W,
    progress: &mut Progress<'_>,
) -> Result<Totals, Failure>
    requires sound { KnowsItsEnd R.ended window.old }
    requires fresh { window.old.bytes ≡ [] }
    requires reads { window.old.reads ≤ 1099511627776 }
    ensures { GoesOver R.gives R.failed (λ number offset bytes used fate text. IsSavedIn wanted.now.letters wanted.now.form wanted.now.part number offset bytes used fate text) (λ bytes. ComesLast bytes) R.ended window.old.reads W.takes W.failed (head_in wanted.now.form) window.old.source window.new writer.old writer.new result }
{
    let Ok(head) = wanted.form.head(alloc) else {
        return Err(Failure::Memory);
    };
    let saver = Saver { rt, alloc, wanted };
    go_over(*alloc, &saver, head.as_slice(), window, writer, progress)
}

// Says how much there was, if that is wanted.
fn report_ended(rt: &HostRuntime, is_wanted: bool, ended: &Result<Totals, Failure>) {
    if let Ok(totals) = ended {
        if is_wanted {
            report_sums(rt, totals);
        }
    }
}

/// Writes what comes before all games, the good games of a part of the reader's games, and of a bad game what strict reading gives of its text after
/// repair, if it gives one. Where letters of a language are given, each text is read with letters of men as the standard has them. What was repaired is
/// reported on the standard error by number, place and name, and a game that can't be saved by number, place and fault. At most 1,048,576 bytes of whitespace,
/// NUL and ^Z after the last game are no game. Returns how many games of the part can't be saved, and how much there was.
///
/// # Errors
///
/// The first failure of a stream, or want of memory; what was written before it stays written. If a read fails, all games that were read are written, except one
/// that reaches the last byte.
pub fn filter_saving<R: Source + Drop, W: Sink>(
    rt: &HostRuntime,
    alloc: Global,
    wanted: Wanted,
    reader: R,
    writer: &mut W,
    progress: &mut Progress<'_>,
) -> Result<Totals, Failure>
    ensures { SavingEnds R.gives R.failed R.ended W.takes W.failed wanted.letters wanted.form wanted.part reader writer.old writer.new result }
{
    let mut window = Window::new(&alloc, reader);
    let ended = save_all(rt, &alloc, &wanted, &mut window, writer, progress);
    report_ended(rt, wanted.totals, &ended);
    ended
}
