//! A game that is read, or saved from a text that strict reading refuses.
ghost use Rattle.std.specs.Prelude.{◌≡◌, ◌++◌, map, None, IfErr, IfOk, IfSome};
ghost use Rattle.chess_bindings.specs.Saved.{AreAsBefore, ListsAll, IsListed, IsReadOrSaved, IsSaved, cut_report, kind_code, repair_report, unplaced};

use crate::codes::{MEMORY, NO_GAME, fault_code};
use crate::games::is_of_text;
use crate::texts::hand;
use chess_items::given_up;
use chess_pgn::{read_game, write_game};
use chess_salvage::{Repair, RepairKind, Salvaged, is_end, salvage};
use std::alloc::{AllocError, Allocator};

/// A repair of a game's text, as a caller sees it.
#[repr(C)]
#[derive(Clone, Copy)]
pub struct RepairReport {
    /// The place of its first byte, in bytes of the text; of a line that is cut off, as near as it can be said.
    pub place: usize,
    /// How many bytes it replaces.
    pub length: usize,
    /// How many bytes are written for them.
    pub written: usize,
    /// Its kind, as a number of `kind_code`.
    pub kind: u32,
}

/// The number of a kind of repair, from 0 on in the order of their list.
pub fn kind_code(kind: RepairKind) -> u32
    ensures { result ≡ kind_code kind }
{
    match kind {
        RepairKind::TagQuotes => 0,
        RepairKind::TagBracket => 1,
        RepairKind::TagName => 2,
        RepairKind::Castling => 3,
        RepairKind::Hyphen => 4,
        RepairKind::Colon => 5,
        RepairKind::Pawn => 6,
        RepairKind::Small => 7,
        RepairKind::Large => 8,
        RepairKind::Promotion => 9,
        RepairKind::Sign => 10,
        RepairKind::Said => 11,
        RepairKind::Value => 12,
        RepairKind::Result => 13,
        RepairKind::Glyphs => 14,
        RepairKind::Number => 15,
        RepairKind::Dots => 16,
        RepairKind::Space => 17,
        RepairKind::Control => 18,
        RepairKind::Stray => 19,
        RepairKind::Offer => 20,
        RepairKind::Angles => 21,
        RepairKind::Bracket => 22,
        RepairKind::Marker => 23,
        RepairKind::Symbol => 24,
        RepairKind::Nested => 25,
        RepairKind::Comment => 26,
        RepairKind::Unclosed => 27,
        RepairKind::Prose => 28,
        RepairKind::Fen => 29,
        RepairKind::Squares => 30,
        RepairKind::Null => 31,
        RepairKind::Illegal => 32,
        RepairKind::Unreadable => 33,
        RepairKind::Variation => 34,
    }
}

impl RepairReport {
    // A repair in numbers, at a place of its own.
    fn at(place: usize, repair: Repair) -> RepairReport
        ensures { result ≡ record { place = place; length = repair.length; written = repair.written; kind = kind_code repair.kind } }
    {
        RepairReport {
            place,
            length: repair.length,
            written: repair.written,
            kind: kind_code(repair.kind),
        }
    }
}

// The repairs in numbers, each at its place.
fn list_repairs<A: Allocator>(
    repairs: &[Repair],
    reports: &mut Vec<RepairReport, A>,
) -> Result<(), AllocError>
    ensures { IfOk result (λ _. reports.new.items ≡ reports.old.items ++ map repair_report repairs.now) }
{
    for repair in repairs {
        reports.push(RepairReport::at(repair.place, *repair))?;
    }
    Ok(())
}

// The cuts in numbers, each at its place in the text before all repairs.
fn list_cuts<'a, A: Allocator>(
    alloc: &'a A,
    found: &Salvaged<'a, A>,
) -> Result<Vec<RepairReport, &'a A>, AllocError>
    ensures { IfOk result (λ reports. map unplaced reports.items ≡ map cut_report found.now.cuts.items) }
{
    let mut reports = Vec::new(alloc);
    let mut at = 0usize;
    for cut in found.cuts.as_slice() {
        reports.push(RepairReport::at(found.place_of(at), *cut))?;
        at = at.saturating_add(1);
    }
    Ok(reports)
}

// Puts as many as there is room for first, and says how many there are.
fn put_reports(reports: &[RepairReport], room: &mut [RepairReport], count: &mut usize)
    ensures { IsListed reports.now count.new room.old room.new }
{
    *count = reports.len();
    let fits = reports.len().min(room.len());
    room[..fits].copy_from_slice(&reports[..fits]);
}

// All that was repaired, in numbers.
fn list<'a, A: Allocator>(
    alloc: &'a A,
    found: &Salvaged<'a, A>,
) -> Result<Vec<RepairReport, &'a A>, AllocError>
    ensures { IfOk result (λ reports. ListsAll found.now.repairs.items found.now.cuts.items reports.items) }
{
    let mut reports = Vec::new(alloc);
    list_repairs(found.repairs.as_slice(), &mut reports)?;
    let cuts = list_cuts(alloc, found)?;
    reports.extend_from_slice(cuts.as_slice())?;
    Ok(reports)
}

// Writes what a text is salvaged to; `None` where that is no game. Then, and where there is no memory, all is as it was.
fn save<A: Allocator>(
    alloc: &A,
    text: &[u8],
    room: &mut [u8],
    count: &mut usize,
    reports: &mut [RepairReport],
    listed: &mut usize,
    used: &mut usize,
) -> Result<Option<u32>, AllocError>
    ensures saved { IfOk result (λ code. IfSome code (λ c. IsSaved text.now c count.new used.new listed.new room.old room.new reports.old reports.new)) }
    ensures none { IfOk result (λ code. code ≡ None → AreAsBefore count.old count.new used.old used.new listed.old listed.new room.old room.new reports.old reports.new) }
    ensures memory { IfErr result (λ _. AreAsBefore count.old count.new used.old used.new listed.old listed.new room.old room.new reports.old reports.new) }
{
    let found = salvage(alloc, text)?;
    let Some(game) = &found.game else {
        return Ok(None);
    };
    if found.used == 0 {
        return Ok(None);
    }
    let Ok(export) = write_game(alloc, game) else {
        return Err(AllocError);
    };
    let all = list(alloc, &found)?;
    put_reports(all.as_slice(), reports, listed);
    *used = found.used;
    Ok(Some(hand(export.as_slice(), room, count)))
}

/// The game at the start of a text in export form, as by `game`; where strict reading refuses it, what that gives of the text after repair (`salvage` of
/// chess_salvage), with the repairs, as many of them as there is room for, and how many bytes of the text were used: 0, and no repair where none was made. 16
/// where only whitespace follows, or at most 1,048,576 bytes of whitespace, NUL and ^Z. Where no game can be saved, the number of the first fault of strict
/// reading and 40, and the bytes that are given up with it. 2 where there is no memory, and nothing is written.
pub fn saved_game<A: Allocator>(
    alloc: &A,
    text: &[u8],
    room: &mut [u8],
    count: &mut usize,
    reports: &mut [RepairReport],
    listed: &mut usize,
    used: &mut usize,
) -> u32
    ensures { IsReadOrSaved text.now result count.old count.new used.old used.new listed.old listed.new room.old room.new reports.old reports.new }
{
    match read_game(alloc, text) {
        Ok(Some((found, taken))) => match write_game(alloc, &found) {
            Ok(export) => {
                *used = taken;
                *listed = 0;
                hand(export.as_slice(), room, count)
            }
            Err(_) => MEMORY,
        },
        Ok(None) => NO_GAME,
        Err(fault) => {
            if !is_of_text(fault.kind) {
                return MEMORY;
            }
            if is_end(text) {
                return NO_GAME;
            }
            match save(alloc, text, room, count, reports, listed, used) {
                Ok(Some(code)) => code,
                Ok(None) => {
                    *used = given_up(text);
                    fault_code(fault.kind)
                }
                Err(_) => MEMORY,
            }
        }
    }
}
