//! What lowering gives is what building asks for, and the choices at each site of a lowered program. Nothing uses it yet.
#![tactic(auto)]

mod choices;
mod laws;
mod sources;

pub use choices::{Branches, ChoicesAt};
pub use laws::{choices_are_those_of_the_switches, what_is_lowered_can_be_built};
pub use sources::count_sources;
