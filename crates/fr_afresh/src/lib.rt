//! Evaluates a program afresh at every instant, over its inputs and what it kept.
#![tactic(auto)]

mod bodies;
mod evaluation;
mod joining;
mod places;
mod running;
mod sources;
mod trees;
mod world;

pub use running::{Afresh, AfreshStop, FirstBad};
