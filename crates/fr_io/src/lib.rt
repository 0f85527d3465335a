//! Files that are read by position, and sinks of bytes, each with a count of its faults.
#![tactic(auto)]

mod calls;
mod mem_shelf;
mod mem_sink;
mod named_files;
mod real;
mod shelf;
mod sink;
mod sure;

pub use mem_shelf::MemShelf;
pub use mem_sink::MemSink;
pub use real::{DirShelf, StdSink};
pub use shelf::{FileStop, Shelf, read_up_to};
pub use sink::{Failed, Sink, write_all};
pub use sure::{SureShelf, SureSink};
