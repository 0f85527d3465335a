//! Lowering: the body of each handler and loop, and each region, becomes a kernel. Nothing uses it yet.
#![tactic(auto)]

mod building;
mod closing;
mod copying;
mod finding;
mod lowering;
mod making;
mod outside;
mod tops;

pub use lowering::{lower, plain};
