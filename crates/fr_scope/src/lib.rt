//! What names mean at a place of a program: variables, sources, functions and primitives.
#![tactic(auto)]

mod globals;
mod meaning;
mod scope;

pub use globals::Globals;
pub use meaning::Meaning;
pub use scope::Scope;
