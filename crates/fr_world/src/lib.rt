//! A graph of signals over a store, eras and an agenda. Nothing uses it yet.
#![tactic(auto)]

mod held;
mod making;
mod parts;
mod running;
mod sources;
mod world;

pub use sources::Source;
pub use world::World;
