//! Eras of the graph of signals: which nodes live together and end together.
#![tactic(auto)]

mod burial;
mod ending;
mod eras;
mod order;
mod raise;
mod work;

pub use eras::{Eras, MOST_OWNERS};
pub use order::Members;
