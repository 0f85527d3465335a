//! Reads texts as data: integers, truth values, symbols, strings and lists, with blanks and comments between them.
#![tactic(auto)]

mod atoms;
mod bytes;
mod front;
mod reader;

pub use bytes::is_blank;
pub use reader::{OneStop, ReadStop, one_reading, printed_text_reads, read_all, read_one};
