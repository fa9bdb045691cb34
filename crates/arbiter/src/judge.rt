//! A row for each game of a collection.

ghost use Rattle.std.specs.Prelude.{◌≡◌, ◌≤◌, ◌≢◌, true, false, [], None, Some, IfErr, IfOk, IfSome, length};
ghost use Rattle.chess_collection.specs.Handling.{IsEarly};
ghost use Rattle.chess_collection.specs.Headings.{IsHeadingOf};
ghost use Rattle.chess_collection.specs.Windows.{KnowsItsEnd};
ghost use Rattle.chess_collection.specs.declared.handler.Fate.TheVariants.{Read};
ghost use Rattle.chess_items.specs.declared.fault.FaultKind.TheVariants.{Memory};
ghost use Rattle.chess_command_line.specs.declared.collection.Failure.TheVariants as by;
ghost use Rattle.chess_pgn.specs.Reading.{BeginsWithGame, HasNoGame};
ghost use Rattle.chess_pgn.specs.steps.GameCode.{game_of};
ghost use Rattle.chess_repair.specs.Letters.{IsInLetters};
ghost use Rattle.chess_salvage.specs.Endings.{ComesLast, is_end};
ghost use Rattle.chess_salvage.specs.Salvaging.{found_in};
ghost use Rattle.arbiter.specs.Collections.{Bad, Found, IsRow, IsRowIn, JudgeEnds, header_text, row_of};
ghost use Rattle.arbiter.specs.Cells.{row_text};
ghost use Rattle.arbiter.specs.Rows.{game_cells, is_unmarked};
ghost use Rattle.arbiter.specs.steps.Reports.{IsReportOf};

use crate::columns::{HEADER, Said, fault_row, game_row};
use crate::findings::{has_finding, is_unmarked};
use crate::roster::{LostRoster, roster_of};
use crate::row::Format;
use byte_streams::{Sink, Source};
use chess_collection::{Fate, GameHandler, Handled, Heading, Totals, Window, go_over, heading_of};
use chess_command_line::{Failure, Place, Progress};
use chess_items::given_up;
use chess_pgn::{FaultKind, Game, PgnFault, read_game};
use chess_repair::{Letters, respell};
use chess_report::Report;
use chess_salvage::{is_end, salvage};
use std::alloc::{AllocError, Allocator, Global};

/// Which rows are written, and how.
#[derive(Clone, Copy)]
pub struct Asked {
    pub format: Format,
    /// Only the games that have a finding, and those that can't be read.
    pub findings: bool,
    /// The letters of the men in the games, where they aren't the standard's.
    pub letters: Option<Letters>,
}

// The names of the columns, where the format has a row of them.
fn header(format: Format) -> &'static [u8]
    ensures { result.now ≡ header_text format }
{
    match format {
        Format::Csv => HEADER.as_bytes(),
        Format::Jsonl => b"",
    }
}

// What the Laws say of a game.
fn report_of(alloc: &Global, game: &Game<'_, Global>) -> Result<Report, AllocError>
    ensures { IfOk result (λ report. IsReportOf report (game_of game.now)) }
{
    Report::of(alloc, game)
}

/// Makes a row of each game.
#[derive(Drop)]
struct RowMaker {
    alloc: Global,
    asked: Asked,
}

// A fault with its place `offset` bytes further on.
fn placed(fault: PgnFault, offset: u64) -> PgnFault
    ensures kind { result.kind ≡ fault.kind }
    ensures place { offset ≤ result.place }
{
    PgnFault {
        place: fault.place.saturating_add(offset),
        kind: fault.kind,
    }
}

impl RowMaker {
    // A game's row, where it is asked for; else no bytes.
    fn good_row(
        &self,
        place: Place,
        game: &Game<'_, Global>,
        heading: &Heading,
        unmarked: bool,
    ) -> Result<Vec<u8>, AllocError>
        ensures { IfOk result (λ row. row.items ≡ row_of self.now.asked place.number place.offset (Found (game_of game.now) heading.now unmarked)) }
    {
        let report = report_of(&self.alloc, game)?;
        let start = game.tree.position();
        let fen = chess_fen::write(start);
        let first = fen.as_str();
        if self.asked.findings & !has_finding(game, &report, start, heading, unmarked) {
            return Ok(Vec::new(self.alloc));
        }
        let said = Said {
            heading,
            is_unmarked: Some(unmarked),
            fault: None,
        };
        game_row(
            self.alloc,
            self.asked.format,
            place,
            game,
            said,
            start,
            first,
            &report,
        )
    }

    // The row of a game that can't be read, and is repaired.
    fn mended_row(
        &self,
        place: Place,
        game: &Game<'_, Global>,
        heading: &Heading,
        fault: PgnFault,
    ) -> Result<Vec<u8>, AllocError>
        ensures { IfOk result (λ row. row.items ≡ row_text self.now.asked.format (game_cells place.number place.offset (game_of game.now) heading.now None (Some fault))) }
    {
        let report = report_of(&self.alloc, game)?;
        let start = game.tree.position();
        let fen = chess_fen::write(start);
        let first = fen.as_str();
        let said = Said {
            heading,
            is_unmarked: None,
            fault: Some(fault),
        };
        game_row(
            self.alloc,
            self.asked.format,
            place,
            game,
            said,
            start,
            first,
            &report,
        )
    }

    // The row of a game that can't be read; the game that its text is repaired to, if there is one, is given.
    fn bad_row(
        &self,
        place: Place,
        mended: &Option<Game<'_, Global>>,
        heading: &Heading,
        roster: &LostRoster,
        fault: PgnFault,
    ) -> Result<Vec<u8>, AllocError>
        ensures { IfOk result (λ row. row.items ≡ row_of self.now.asked place.number place.offset (Bad fault (found_in mended.now) heading.now roster.now)) }
    {
        match mended {
            Some(game) => self.mended_row(place, game, heading, fault),
            None => fault_row(
                self.alloc,
                self.asked.format,
                place,
                roster.roster(),
                heading,
                fault,
            ),
        }
    }

    // What becomes of a game.
    fn good(
        &self,
        place: Place,
        bytes: &[u8],
        game: &Game<'_, Global>,
        used: usize,
    ) -> Result<Handled, AllocError>
        requires begins { BeginsWithGame bytes.now (game_of game.now) used }
        requires fits { used ≤ length bytes.now }
        ensures used { IfOk result (λ h. h.used ≡ used) }
        ensures fate { IfOk result (λ h. h.fate ≡ Read) }
        ensures row { IfOk result (λ h. IsRow self.now.asked place.number place.offset bytes.now used h.fate h.text.items) }
    {
        let heading = heading_of(self.alloc, bytes)?;
        let unmarked = is_unmarked(&bytes[..used], game.result);
        let text = self.good_row(place, game, &heading, unmarked)?;
        Ok(Handled {
            used,
            fate: Fate::Read,
            repaired: 0,
            text,
        })
    }

    // What becomes of a game that can't be read.
    fn bad(&self, place: Place, bytes: &[u8], fault: PgnFault) -> Result<Handled, AllocError>
        requires none { HasNoGame bytes.now }
        requires goes_on { is_end bytes.now ≡ false }
        requires kind { fault.kind ≢ Memory }
        requires place { place.offset ≤ fault.place }
        ensures fits { IfOk result (λ h. h.used ≤ length bytes.now) }
        ensures row { IfOk result (λ h. IsRow self.now.asked place.number place.offset bytes.now h.used h.fate h.text.items) }
    {
        let heading = heading_of(self.alloc, bytes)?;
        let roster = roster_of(self.alloc, bytes)?;
        let found = salvage(&self.alloc, bytes)?;
        let text = self.bad_row(place, &found.game, &heading, &roster, fault)?;
        Ok(Handled {
            used: given_up(bytes),
            fate: Fate::Lost,
            repaired: 0,
            text,
        })
    }

    // The same, and of the end of a file, which is no game.
    fn unread(
        &self,
        place: Place,
        bytes: &[u8],
        fault: PgnFault,
    ) -> Result<Option<Handled>, Failure>
        requires none { HasNoGame bytes.now }
        requires kind { fault.kind ≢ Memory }
        requires place { place.offset ≤ fault.place }
        ensures fits { IfOk result (λ found. IfSome found (λ h. h.used ≤ length bytes.now)) }
        ensures row { IfOk result (λ found. IfSome found (λ h. IsRow self.now.asked place.number place.offset bytes.now h.used h.fate h.text.items)) }
        ensures last { IfOk result (λ found. found ≡ None → is_end bytes.now ≡ true) }
        ensures memory { IfErr result (λ failure. failure ≡ by.Memory) }
    {
        if is_end(bytes) {
            return Ok(None);
        }
        match self.bad(place, bytes, fault) {
            Ok(handled) => Ok(Some(handled)),
            Err(_) => Err(Failure::Memory),
        }
    }

    // What becomes of the game that a text begins with, in the standard's letters.
    fn spelt(&self, place: Place, bytes: &[u8]) -> Result<Option<Handled>, Failure>
        ensures fits { IfOk result (λ found. IfSome found (λ h. h.used ≤ length bytes.now)) }
        ensures row { IfOk result (λ found. IfSome found (λ h. IsRow self.now.asked place.number place.offset bytes.now h.used h.fate h.text.items)) }
        ensures last { IfOk result (λ found. found ≡ None → ComesLast bytes.now) }
        ensures memory { IfErr result (λ failure. failure ≡ by.Memory) }
    {
        match read_game(&self.alloc, bytes) {
            Ok(None) => Ok(None),
            Ok(Some((game, used))) => match self.good(place, bytes, &game, used) {
                Ok(handled) => Ok(Some(handled)),
                Err(_) => Err(Failure::Memory),
            },
            Err(fault) => match fault.kind {
                FaultKind::Memory => Err(Failure::Memory),
                _ => self.unread(place, bytes, placed(fault, place.offset)),
            },
        }
    }
}

impl RowMaker {
    // What becomes of the good game that a text in the standard's letters begins with, if it ends before the last byte.
    fn early_spelt(&self, place: Place, bytes: &[u8]) -> Result<Option<Handled>, Failure>
        ensures early { IfOk result (λ found. IfSome found (λ h. IsEarly bytes.now h.used h.fate)) }
        ensures row { IfOk result (λ found. IfSome found (λ h. IsRow self.now.asked place.number place.offset bytes.now h.used h.fate h.text.items)) }
        ensures memory { IfErr result (λ failure. failure ≡ by.Memory) }
    {
        match read_game(&self.alloc, bytes) {
            Ok(None) => Ok(None),
            Ok(Some((game, used))) => {
                if used >= bytes.len() {
                    return Ok(None);
                }
                match self.good(place, bytes, &game, used) {
                    Ok(handled) => Ok(Some(handled)),
                    Err(_) => Err(Failure::Memory),
                }
            }
            Err(fault) => match fault.kind {
                FaultKind::Memory => Err(Failure::Memory),
                _ => Ok(None),
            },
        }
    }
}

impl GameHandler for RowMaker {
    ghost use Rattle.chess_salvage.specs.Endings.{ComesLast};
    ghost use Rattle.arbiter.specs.Collections.{IsRowIn};

    ghost handles = { λ maker number offset bytes used fate text. IsRowIn maker.asked number offset bytes used fate text };

    ghost white = { λ bytes. ComesLast bytes };

    #[tactic(auto, using(crate::proofs::RowLemmas::row_in))]
    fn early(&self, place: Place, bytes: &[u8]) -> Result<Option<Handled>, Failure> {
        match respell(&self.alloc, self.asked.letters, bytes) {
            Ok(Some(respelled)) => match self.early_spelt(place, respelled.text.as_slice()) {
                Ok(Some(handled)) => Ok(Some(handled)),
                Ok(None) => Ok(None),
                Err(failure) => Err(failure),
            },
            Ok(None) => self.early_spelt(place, bytes),
            Err(_) => Err(Failure::Memory),
        }
    }

    #[tactic(auto, using(crate::proofs::RowLemmas::row_in))]
    fn handle(&self, place: Place, bytes: &[u8]) -> Result<Option<Handled>, Failure> {
        match respell(&self.alloc, self.asked.letters, bytes) {
            Ok(Some(respelled)) => match self.spelt(place, respelled.text.as_slice()) {
                Ok(Some(handled)) => Ok(Some(handled)),
                Ok(None) => self.spelt(place, bytes),
                Err(failure) => Err(failure),
            },
            Ok(None) => self.spelt(place, bytes),
            Err(_) => Err(Failure::Memory),
        }
    }
}

/// Writes a row for each game of a collection: what the Laws say of it; of one that can't be read its fault, and what is said of the game that its text is
/// repaired to, or of what its tags say where there is none; where letters of a language are given, each game is read with letters of men as the standard has
/// them. At most 1,048,576 bytes of whitespace, NUL and ^Z after the last game are no game. Returns how many there were, and how many of them could not be read.
///
/// # Errors
///
/// `Read`: a read failed, there were 2^40, or there were 2^57 games; the rows of all games that were read are written, except that of one which reaches the last
/// byte. `Write`: a write failed or took no
/// byte, and a prefix of the rows is written. `Memory`: there was none for the next game or its row; the rows of all before it are written.
pub fn judge<'a, R: Source, W: Sink, A: Allocator>(
    alloc: Global,
    asked: Asked,
    window: &mut Window<'a, R, A>,
    writer: &mut W,
    progress: &mut Progress<'_>,
) -> Result<Totals, Failure>
    requires sound { KnowsItsEnd R.ended window.old }
    requires fresh { window.old.bytes ≡ [] }
    requires reads { window.old.reads ≤ 1099511627776 }
    ensures { JudgeEnds R.gives R.failed R.ended W.takes W.failed asked window.old.reads window.old.source window.new writer.old writer.new result }
{
    let maker = RowMaker { alloc, asked };
    go_over(
        alloc,
        &maker,
        header(asked.format),
        window,
        writer,
        progress,
    )
}
