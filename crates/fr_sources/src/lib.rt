//! The values of a program's sources from one instant to the next, where only those that a line of the script sets are
//! touched. Nothing uses it yet.
#![tactic(auto)]

mod beginning;
mod sources;
mod writing;

pub use sources::Sources;
