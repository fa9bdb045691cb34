//! A game that strict reading refuses, read from its repaired text.

ghost use Rattle.std.specs.Prelude.{◌≡◌, ◌+◌, ◌++◌, ◌<◌, true, false, ℕ, List, [], ◌∷◌, length, None, IfNone, IfOk, IfSome};
ghost use Rattle.chess_pgn.specs.Reading.{HasNoGame, IsWhite};
ghost use Rattle.chess_repair.specs.Repairs.{Rewrites};
ghost use Rattle.chess_repair.specs.declared.repair.Repair.{Repair};
ghost use Rattle.chess_salvage.specs.Salvaging.{HoldsFound, CutsOff, HoldsNone, IsSalvaged, found_in};

use chess_pgn::{FaultKind, Game, PgnFault, read_game};
use chess_repair::{Repair, Spelled, mend_at, spell};
use std::alloc::{AllocError, Allocator};

/// How often the text of a game is written anew where strict reading refuses it, at most.
const CUTS: usize = 64;

/// A game of a repaired text.
#[derive(Drop)]
pub struct Salvaged<'a, A: Allocator> {
    /// The game; none, where the repaired text has none, or more than one.
    pub game: Option<Game<'a, A>>,
    /// What was written otherwise before the text was read, in the order of the places.
    pub repairs: Vec<Repair, &'a A>,
    /// What was written otherwise or cut off where reading stopped, one after another: each with its place in the text that came before it.
    pub cuts: Vec<Repair, &'a A>,
    /// How many bytes of the text were used.
    pub used: usize,
}

// The place in a text before some repairs, for one after them.
fn place_before(repairs: &[Repair], place: usize) -> usize {
    let mut before = place;
    for repair in repairs {
        if repair.place <= before {
            before = before
                .saturating_add(repair.length)
                .saturating_sub(repair.written)
                .max(repair.place);
        }
    }
    before
}

impl<'a, A: Allocator> Salvaged<'a, A> {
    /// Where one of the cuts was made, in bytes of the text before all repairs; 0, where there is no such cut. It is a place to be reported, which no
    /// clause speaks of.
    pub fn place_of(&self, cut: usize) -> usize {
        let cuts = self.cuts.as_slice();
        let (earlier, later) = cuts.split_at(cut.min(cuts.len()));
        let Some(found) = later.first() else {
            return 0;
        };
        let mut place = found.place;
        for before in earlier.iter().rev() {
            place = place_before(&[*before], place);
        }
        place_before(self.repairs.as_slice(), place)
    }
}

// Whether a text is whitespace.
fn is_white<A: Allocator>(alloc: &A, text: &[u8]) -> Result<bool, AllocError>
    ensures white { IfOk result (λ white. white ≡ true → IsWhite text.now) }
    ensures dark { IfOk result (λ white. white ≡ false → IsWhite text.now → ⊥) }
{
    match read_game(alloc, text) {
        Ok(None) => Ok(true),
        Ok(Some(_)) => Ok(false),
        Err(fault) => match fault.kind {
            FaultKind::Memory => Err(AllocError),
            _ => Ok(false),
        },
    }
}

// Reads a text strictly: its game, where it holds one; the fault, where there is one that isn't want of memory.
fn read_strictly<'a, A: Allocator>(
    alloc: &'a A,
    text: &[u8],
    game: &mut Option<Game<'a, A>>,
) -> Result<Option<PgnFault>, AllocError>
    requires { game.old ≡ None }
    ensures read { IfOk result (λ fault. IfNone fault (HoldsFound text.now [] (found_in game.new))) }
    ensures fault { IfOk result (λ fault. IfSome fault (λ _. (game.new ≡ None) × HasNoGame text.now)) }
{
    match read_game(alloc, text) {
        Ok(None) => Ok(None),
        Ok(Some((found, used))) => {
            if is_white(alloc, &text[used..])? {
                *game = Some(found);
            }
            Ok(None)
        }
        Err(fault) => match fault.kind {
            FaultKind::Memory => Err(AllocError),
            _ => Ok(Some(fault)),
        },
    }
}

// Writes a text anew where its reading stopped, and adds the one repair to the others. False where that can't be.
fn cut_once<'a, A: Allocator>(
    alloc: &'a A,
    text: &mut Vec<u8, &'a A>,
    cuts: &mut Vec<Repair, &'a A>,
    fault: PgnFault,
) -> Result<bool, AllocError>
    ensures cut { IfOk result (λ is. is ≡ true → (cut : Repair) × Rewrites (length text.old.items) text.old.items (cut ∷ []) text.new.items [] × (cuts.new.items ≡ cuts.old.items ++ cut ∷ [])) }
    ensures none { IfOk result (λ is. is ≡ false → (text.new ≡ text.old) × (cuts.new ≡ cuts.old)) }
{
    let Some(
        Spelled {
            text: mended,
            repairs,
            used,
        },
    ) = mend_at(alloc, text.as_slice(), fault)?
    else {
        return Ok(false);
    };
    if used < text.len() {
        return Ok(false);
    }
    match repairs.as_slice() {
        [cut] => cuts.push(*cut)?,
        _ => return Ok(false),
    }
    *text = mended;
    Ok(true)
}

// Reads a text strictly; where an item is refused it is written anew there, and read again.
fn read_cutting<'a, A: Allocator>(
    alloc: &'a A,
    text: Vec<u8, &'a A>,
    cuts: &mut Vec<Repair, &'a A>,
    game: &mut Option<Game<'a, A>>,
) -> Result<(), AllocError>
    requires none { cuts.old.items ≡ [] }
    requires nothing { game.old ≡ None }
    ensures { IfOk result (λ _. (last : List ℕ) × CutsOff text.entry.items cuts.new.items last × HoldsFound last cuts.new.items (found_in game.new)) }
{
    let mut text = text;
    for before in 0..CUTS {
        let Some(fault) = read_strictly(alloc, text.as_slice(), game)? else {
            return Ok(());
        };
        if !cut_once(alloc, &mut text, cuts, fault)? {
            return Ok(());
        }
    }
    Ok(())
}

/// The game at the start of a text, read strictly after what was repaired.
///
/// # Errors
///
/// There is no memory.
pub fn salvage<'a, A: Allocator>(alloc: &'a A, text: &[u8]) -> Result<Salvaged<'a, A>, AllocError>
    ensures salvaged { IfOk result (λ found. IsSalvaged text.now found.repairs.items found.cuts.items found.used (found_in found.game)) }
{
    let Spelled {
        text: spelled,
        repairs,
        used,
    } = spell(alloc, text)?;
    let mut cuts = Vec::new(alloc);
    let mut game = None;
    read_cutting(alloc, spelled, &mut cuts, &mut game)?;
    Ok(Salvaged {
        game,
        repairs,
        cuts,
        used,
    })
}
