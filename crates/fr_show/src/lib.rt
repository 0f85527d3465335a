//! Which texts are accepted as programs, and how the run of one may end.
#![tactic(auto)]

mod acceptance;
mod laws;
mod shows;
mod stop;

pub use acceptance::{AcceptStop, PROGRAM_LIMIT, accept, program_from, read_forms};
pub use laws::{front_decides, verdict_is_one};
pub use shows::{Shows, all_numbers};
pub use stop::{ProgramKind, Stop};
