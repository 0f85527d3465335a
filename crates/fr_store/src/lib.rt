//! The nodes of the graph of signals, by number, and for each node the places among the inputs of others that name it.
#![tactic(auto)]

mod cell;
mod change;
mod edges;
mod inputs;
mod node;
mod source;
mod store;
mod table;
mod variables;
mod wiring;

pub use cell::{Cell, NodeCell, SeenCell};
pub use inputs::{Input, Inputs};
pub use node::{Code, Node, NodeKind};
pub use source::Source;
pub use store::{MakeStop, Store};
pub use variables::Variables;
