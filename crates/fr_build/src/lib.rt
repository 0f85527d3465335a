//! The building of nodes: an expression is walked once, what never changes is computed at once, and each part that varies
//! becomes a node. Nothing uses it yet.
#![tactic(auto)]

mod building;
mod items;
mod laws;
mod plan;
mod stops;
mod works;

pub use building::build;
pub use items::build_items;
pub use laws::what_is_built_grows;
pub use plan::{Plan, Runner};
pub use stops::BuildStop;
