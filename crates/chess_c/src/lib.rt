//! The board for C: each exported function takes the slot in which C keeps a board, and says what it returns and what it leaves there.
//!
//! `include/jatshegi.h` declares them. A slot holds a board or nothing; every function returns a status, of which 0 is success and 1 an empty
//! slot (`specs/Codes.antt`). Contracts say both by two relations of `specs/Calls.antt`: `Asks` of a call that leaves the board as it was, `Acts` of
//! one that may change it. `chess_memory` says where the memory comes from: from C's `malloc`, `realloc` and `free`, for which C passes nothing; or, in
//! WebAssembly, from what the page lends (`docs/WEB.md`).
#![tactic(auto)]

mod asked;
mod books;
mod codes;
mod edits;
mod engine;
mod flag;
mod games;
mod kept_engine;
mod keys;
mod kinds;
mod life;
mod lines;
mod moves;
mod nodes;
mod positions;
mod search;
mod searches;
mod session;
mod slot;
mod squares;
mod stop;
mod stops;
mod tags;
mod version;
