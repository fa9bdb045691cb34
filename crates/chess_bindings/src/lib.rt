//! What the library for C is made of: what is kept in a slot, and how answers are written.
//!
//! `Loose` is a `Box` as a raw pointer, which a slot can keep; the slots are the library's own, since a type that crosses to C has no parameters. The others
//! are calls over a text, a board or an engine, which write what they answer: `game`, `passed` and `report` of a text, `saved_game` of one that may need
//! repair, `load` of one into a board and its heading, `next_game` and `load_next` of bytes of which more may come, `answer` of a line of the board, `reply`
//! of an event of an engine; and over a `Heading`, a game's tags and its end: `tag`, `tag_name`, `set_tag`, `clear_tag`, `set_outcome`, `whole_game`. Each
//! returns a status, of which 0 is success (`specs/Codes.antt`).
#![tactic(auto)]

mod along;
mod answers;
mod codes;
mod coming;
mod games;
mod gathered;
mod heading;
mod headings;
mod loads;
mod loose;
mod next;
mod reports;
mod saved;
mod texts;
mod within;

pub use along::cursor_line;
pub use answers::{answer, reply, reply_within};
pub use codes::{
    ABANDONED, ARGUMENT, AT_ROOT, EMPTY, FORM, ILLEGAL, MEMORY, NONE, OK, ROOM, outcome_code,
};
pub use games::{game, passed, report};
pub use heading::Heading;
pub use headings::{clear_tag, set_outcome, set_tag, tag, tag_name, whole_game};
pub use loads::load;
pub use loose::Loose;
pub use next::{load_next, next_game};
pub use reports::{GameReport, NEVER, marker_code};
pub use saved::{RepairReport, saved_game};
pub use texts::hand;
pub use within::Within;
