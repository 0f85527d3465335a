//! Reads event scripts in pieces: the instants that a script's lines give, and its first bad line.
#![tactic(auto)]

mod laws;
mod line_reader;
mod lines;
mod progress;
mod reader;
mod rest;
mod said;
mod sources;
mod turn;

pub use laws::good_scripts_are_short;
pub use reader::ScriptReader;
pub use turn::{LineKind, Turn};
