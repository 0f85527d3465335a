//! What building and the running of instants ask of a graph of signals.
#![tactic(auto)]

mod nodes;
mod signals;

pub use nodes::{Nodes, Switch};
pub use signals::Signals;
