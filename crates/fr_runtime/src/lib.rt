//! Programs that run over the graph of signals, as evaluators of instants: their graphs are built and run over instant 0, and
//! then over each further instant. Nothing uses this yet.
#![tactic(auto)]

mod engine;
mod evaluator;
mod kinds;
mod shown;
mod starting;

pub use engine::Engine;
pub use evaluator::GraphEvaluator;
pub use starting::start;
