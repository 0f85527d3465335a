//! The building of the choices of a program's switches while instants run. Nothing uses it yet.
#![tactic(auto)]

mod choosing;
mod laws;

pub use choosing::ProgramChoices;
pub use laws::{what_is_built_first_is_fit, what_stands_is_fit};
