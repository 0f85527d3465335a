//! Which functions of a program are closed and which are pure, and which expressions are pure and fit.
#![tactic(auto)]

mod calling;
mod classification;
mod fitness;
mod judging;
mod naming;
mod removal;

pub use classification::{Classes, classify};
pub use fitness::{is_fit, is_pure, is_pure_over_parts};
