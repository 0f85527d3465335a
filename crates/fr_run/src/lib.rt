//! Runs a program over a script: instant by instant, each written once it is whole.
#![tactic(auto)]

mod afresh;
mod evaluator;
mod session;
mod turns;
mod whole;

pub use afresh::run_afresh;
pub use evaluator::{Evaluator, InstantStop};
pub use session::run_begun;
pub use whole::WholeEvaluator;
