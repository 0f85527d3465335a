//! Sums over the graph of signals: how many nodes live, and what an instant spends of its fuel. Definitions and laws over
//! plain data.
#![tactic(auto)]

mod laws;

pub use laws::{
    building_is_within_cost, live_nodes_are_sites, spending_is_within_cost,
    spending_under_way_is_within_cost, spending_while_building_is_within_cost,
};
