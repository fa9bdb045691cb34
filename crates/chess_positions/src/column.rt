//! The columns that rows may have, and their names.

ghost use Rattle.std.specs.Prelude.{◌≡◌};
ghost use Rattle.chess_positions.specs.declared.column.Column.{Column};
ghost use Rattle.chess_positions.specs.declared.column.Column.TheVariants.{Game};
ghost use Rattle.chess_positions.specs.Columns.{all_columns, column_of, column_name};

/// A column of the rows. What a row says is of the position after its ply, a number of moves made: ply 0 is the start.
#[derive(Clone, Copy, Debug, PartialEq, Eq)]
pub enum Column {
    /// The number of the game, from 1, as the caller counts.
    Game,
    /// How many moves are made, 0 to 20,000.
    Ply,
    /// The move that led here, in the long algebraic notation of UCI; nothing at ply 0.
    Uci,
    /// The same in standard algebraic notation (PGN 8.2.3); nothing at ply 0.
    San,
    /// The position's FEN (PGN 16.1.3).
    Fen,
    /// Its first four fields, with the en passant target only where a legal move captures on it: the same text exactly where the Laws call positions the
    /// same (FIDE Laws 9.2.3).
    Epd,
    /// The position's key in Polyglot's opening books, 16 digits of base 16 in lower case.
    Key,
    /// How often the position has come up, this time included (FIDE Laws 9.2.2).
    Repetitions,
    /// The game's status: `mate`, `stalemate`, `dead`, `fivefold`, `seventyfive` or `play` (FIDE Laws 5.1.1, 5.2.1, 5.2.2, 9.6).
    Status,
    /// The marker at the game's end, the same in each of its rows (PGN 8.2.6).
    Result,
}

impl Column {
    /// All columns, each once.
    pub const ALL: [Column; 10] = [
        Column::Game,
        Column::Ply,
        Column::Uci,
        Column::San,
        Column::Fen,
        Column::Epd,
        Column::Key,
        Column::Repetitions,
        Column::Status,
        Column::Result,
    ];

    /// The column's name: `game`, `ply`, `uci`, `san`, `fen`, `epd`, `key`, `repetitions`, `status` or `result`.
    pub fn name(self) -> &'static str
        ensures { result.now ≡ column_name self }
    {
        match self {
            Column::Game => "game",
            Column::Ply => "ply",
            Column::Uci => "uci",
            Column::San => "san",
            Column::Fen => "fen",
            Column::Epd => "epd",
            Column::Key => "key",
            Column::Repetitions => "repetitions",
            Column::Status => "status",
            Column::Result => "result",
        }
    }

    /// The column of that name.
    pub fn parse(name: &[u8]) -> Option<Column>
        ensures { result ≡ column_of name.now }
    {
        for column in &Column::ALL {
            if name == column.name().as_bytes() {
                return Some(*column);
            }
        }
        None
    }
}

impl Default for Column {
    ghost is_default = { λ column. column ≡ Game };

    /// The first of them: it fills the free places of a list of fixed capacity.
    fn default() -> Column {
        Column::Game
    }
}
