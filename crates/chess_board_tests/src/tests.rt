//! The tests by subject: squares, boards, attacks, moves, notation, lines, streams.

mod asked;
mod attacking;
mod boards;
mod books;
mod counts;
mod drafts;
mod evaluation;
mod followers;
mod following;
mod ground;
mod keys;
mod lines;
mod listing;
mod live;
mod moves_written;
mod notation;
mod sets;
mod shown;
mod streams;
mod walks;
