//! Polyglot's opening books (http://hgm.nubati.net/book_format.html): the key of a position, which many programs name positions by, and
//! what the entries of a book say.
//!
//! `key` is the key of a position; a book is a list of `Entry`s of 16 bytes in ascending order of their keys, `find` finds those of a key
//! among a book's bytes, `named_move` is the move that an entry stands for, and `book_move` that move, if it is legal. Contracts speak of the definitions in
//! `specs/Keys.antt` and `specs/Books.antt`.
#![tactic(auto)]

mod books;
mod keys;
mod numbers;

pub use books::{Entry, book_move, entries_in, find, named_move};
pub use keys::key;
