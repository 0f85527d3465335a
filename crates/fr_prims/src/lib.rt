//! The primitives of the language: arithmetic, comparisons, tests, lists and strings, each with its refusals.
#![tactic(auto)]

mod comparisons;
mod integers;
mod kinds;
mod lists;
mod names;
mod strings;
mod table;

pub use names::prim_named;
pub use table::{PrimStop, apply};
