//! Doubly linked lists of items, by index in one vector.
#![tactic(auto)]

mod links;
mod place;

pub use links::Links;
