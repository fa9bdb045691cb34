//! What a repair is.

/// What is repaired.
#[derive(Clone, Copy, Debug, PartialEq, Eq)]
pub enum RepairKind {
    /// A tag whose value has no quotation marks or bare ones.
    TagQuotes,
    /// A tag without its right bracket.
    TagBracket,
    /// A tag whose name has other bytes than letters, digits and the underscore.
    TagName,
    /// Castling in small letters, in other zeros, or without hyphens.
    Castling,
    /// A move with a hyphen between its squares.
    Hyphen,
    /// A capture with a colon.
    Colon,
    /// A pawn's move with a P.
    Pawn,
    /// A man's letter that is small, at the beginning of a move.
    Small,
    /// A file's letter that is large, at the beginning of a move and before a rank.
    Large,
    /// A promotion with another sign, or in parentheses.
    Promotion,
    /// A figurine, a dash or a sign of captures within a word.
    Sign,
    /// A word that the move says itself, as `e.p.` or `mate`.
    Said,
    /// A word of evaluation, for which there is an annotation number.
    Value,
    /// A result in another form.
    Result,
    /// More than two signs of annotation together, or two that aren't of the standard.
    Glyphs,
    /// An annotation number that isn't one from 0 to 255.
    Number,
    /// An ellipsis of one character.
    Dots,
    /// A space that isn't one of ASCII, or a byte order mark after the beginning of the text.
    Space,
    /// A control byte.
    Control,
    /// Punctuation that belongs to nothing.
    Stray,
    /// An offer of a draw or another letter in parentheses.
    Offer,
    /// A text in angle brackets.
    Angles,
    /// A text in square brackets within the moves.
    Bracket,
    /// A result within a variation.
    Marker,
    /// A sign that no other row has.
    Symbol,
    /// A comment within a comment: what comes after the inner one.
    Nested,
    /// A comment without its right brace, or with an empty line and a tag before it: a brace at the text's end, or before that line.
    Comment,
    /// A variation without its right parenthesis: it is closed before the game's result, the next tag, or the text's end.
    Unclosed,
    /// Text that belongs to no game: none of its lines begins with a tag.
    Prose,
    /// A FEN tag without its last fields, with castling rights by files, or with blanks and question marks for a value.
    Fen,
    /// Castling by the squares of king and rook.
    Squares,
    /// The rest of a line after a null move, which is cut off.
    Null,
    /// The rest of a line after a word that names no legal move, or more than one.
    Illegal,
    /// The rest of a line after what is no move.
    Unreadable,
    /// A variation that can't begin where it does.
    Variation,
}

impl RepairKind {
    /// The kind's name, as `TagQuotes`.
    pub fn name(self) -> &'static str {
        match self {
            RepairKind::TagQuotes => "TagQuotes",
            RepairKind::TagBracket => "TagBracket",
            RepairKind::TagName => "TagName",
            RepairKind::Castling => "Castling",
            RepairKind::Hyphen => "Hyphen",
            RepairKind::Colon => "Colon",
            RepairKind::Pawn => "Pawn",
            RepairKind::Small => "Small",
            RepairKind::Large => "Large",
            RepairKind::Promotion => "Promotion",
            RepairKind::Sign => "Sign",
            RepairKind::Said => "Said",
            RepairKind::Value => "Value",
            RepairKind::Result => "Result",
            RepairKind::Glyphs => "Glyphs",
            RepairKind::Number => "Number",
            RepairKind::Dots => "Dots",
            RepairKind::Space => "Space",
            RepairKind::Control => "Control",
            RepairKind::Stray => "Stray",
            RepairKind::Offer => "Offer",
            RepairKind::Angles => "Angles",
            RepairKind::Bracket => "Bracket",
            RepairKind::Marker => "Marker",
            RepairKind::Symbol => "Symbol",
            RepairKind::Nested => "Nested",
            RepairKind::Comment => "Comment",
            RepairKind::Unclosed => "Unclosed",
            RepairKind::Prose => "Prose",
            RepairKind::Fen => "Fen",
            RepairKind::Squares => "Squares",
            RepairKind::Null => "Null",
            RepairKind::Illegal => "Illegal",
            RepairKind::Unreadable => "Unreadable",
            RepairKind::Variation => "Variation",
        }
    }
}

/// One repair.
#[derive(Clone, Copy, Debug, PartialEq, Eq)]
pub struct Repair {
    /// The place of its first byte, from the text's beginning.
    pub place: usize,
    /// How many bytes of the text it replaces.
    pub length: usize,
    /// How many bytes are written for them.
    pub written: usize,
    pub kind: RepairKind,
}
