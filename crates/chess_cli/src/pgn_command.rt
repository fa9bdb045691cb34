//! The command `pgn`: the games of a reader, each written in export form before the next is read (PGN 3.2).

ghost use Rattle.std.specs.Prelude.{◌≡◌, [], false, None};
ghost use Rattle.chess_items.specs.Coming.{unread};
ghost use Rattle.chess_pgn.specs.Written.{game_text};
ghost use Rattle.chess_pgn.specs.steps.GameCode.{game_of};
ghost use Rattle.chess_pgn.specs.Sources.{IsSound};
ghost use Rattle.chess_cli.specs.Endings.{CollectionEnds};
ghost use Rattle.chess_loop.specs.RunEnds.{most_reads};
ghost use Rattle.chess_cli.specs.steps.Collecting.{EndsBy, WritesAll, WritesOne};

use super::ended::Ended;
use byte_streams::{Failed, Sink, Source};
use chess_loop::write_all;
use chess_pgn::{FaultKind, Game, Games, GamesFault, PgnFault, Texts, write_game_with};
use std::alloc::Allocator;

/// More games than all reads have bytes.
const GAMES: u64 = 1 << 57;

// A source that is lent, so that what is left of it is its owner's again.
struct Lent<'s, R> {
    reader: &'s mut R,
}

impl<'s, R: Source> Source for Lent<'s, R> {
    ghost use Rattle.std.specs.Prelude.{◌≡◌};

    ghost gives = { λ s bytes t. (t.reader.ghost_name ≡ s.reader.ghost_name) × R.gives s.reader.now bytes t.reader.now };

    ghost ended = { λ s. R.ended s.reader.now };

    ghost failed = { λ s. R.failed s.reader.now };

    fn read(&mut self, buf: &mut [u8]) -> Result<usize, Failed> {
        self.reader.read(buf)
    }
}

// Writes the export form of a game.
fn write_one<'a, A: Allocator, W: Sink>(
    alloc: &'a A,
    game: &Game<'a, A>,
    texts: &Texts<'a, A>,
    writer: &mut W,
) -> Result<(), Ended>
    ensures { WritesOne W.Sink (game_text (game_of game.now)) writer.old writer.new result }
{
    let Ok(text) = write_game_with(alloc, game, texts) else {
        return Err(Ended::Memory);
    };
    match write_all(writer, text.as_slice()) {
        Ok(()) => Ok(()),
        Err(_) => Err(Ended::WriteFault),
    }
}

// How the run ends at a fault of the text: a want of memory is none.
fn ended_by(fault: PgnFault) -> Ended
    ensures { EndsBy fault result }
{
    if fault.kind == FaultKind::Memory {
        return Ended::Memory;
    }
    Ended::Input(fault)
}

// Writes each game before it reads the next.
fn write_games<'a, A: Allocator, R: Source, W: Sink>(
    alloc: &'a A,
    games: &mut Games<'a, R, A>,
    writer: &mut W,
) -> Ended
    requires sound { IsSound R.ended games.old }
    requires none { games.old.fault ≡ None }
    requires nothing { unread games.old.text ≡ [] }
    requires reads { games.old.text.reads ≡ most_reads }
    requires reader { R.failed games.old.text.source ≡ false }
    requires writer { W.failed writer.old ≡ false }
    ensures { WritesAll R.Source W.Sink games.old.text.source games.new.text.source writer.old writer.new result }
{
    let mut texts = Texts::new(alloc);
    for _game in 0..GAMES {
        match games.next_with(&mut texts) {
            Ok(None) => return Ended::Good,
            Ok(Some(game)) => {
                if let Err(ended) = write_one(alloc, &game, &texts, writer) {
                    return ended;
                }
            }
            Err(GamesFault::Pgn(fault)) => return ended_by(fault),
            Err(GamesFault::Read) => return Ended::ReadFault,
        }
    }
    Ended::ReadFault
}

// The same, of a source that is lent.
fn write_lent<'a, A: Allocator, R: Source, W: Sink>(
    alloc: &'a A,
    games: &mut Games<'a, Lent<'_, R>, A>,
    writer: &mut W,
) -> Ended
    requires sound { IsSound (λ s. R.ended s.reader.now) games.old }
    requires none { games.old.fault ≡ None }
    requires nothing { unread games.old.text ≡ [] }
    requires reads { games.old.text.reads ≡ most_reads }
    requires reader { R.failed games.old.text.source.reader.now ≡ false }
    requires writer { W.failed writer.old ≡ false }
    ensures same { games.new.text.source.reader.ghost_name ≡ games.old.text.source.reader.ghost_name }
    ensures ends { CollectionEnds R.Source W.Sink result games.old.text.source.reader.now games.new.text.source.reader.now writer.old writer.new }
{
    write_games(alloc, games, writer)
}

/// Reads the games of the reader one after another, and writes each in export form (PGN 3.2) on the writer before it reads the next.
///
/// `Good`: the input has ended, all its games are written, and no call failed. `Input`: the games before the fault are written, and no game
/// comes after them, whatever comes next, and not white alone. `ReadFault`: a read failed, the last, or there were 2^40, each of a byte or
/// more; each game that is in what was read, whatever comes next, is written. `WriteFault`: a write failed or took no byte, and a prefix
/// of the games is written. `Memory`: there was none to read on, or for the text of a game; those before it are written. No read failed but
/// at `ReadFault`, and nothing is read after any of these.
pub fn pgn<A: Allocator, R: Source, W: Sink>(alloc: A, reader: &mut R, writer: &mut W) -> Ended
    requires reader { R.failed reader.old ≡ false }
    requires writer { W.failed writer.old ≡ false }
    ensures { CollectionEnds R.Source W.Sink result reader.old reader.new writer.old writer.new }
{
    let mut games = Games::new(&alloc, Lent { reader });
    let ended = write_lent(&alloc, &mut games, writer);
    let Lent { reader: _left } = games.into_source();
    ended
}
