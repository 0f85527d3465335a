//! What a program's graph is as its first instant begins: laws of the definitions. Nothing uses it yet.
#![tactic(auto)]

mod laws;

pub use laws::{a_body_can_be_built_behind_sources, what_a_body_begins_with};
