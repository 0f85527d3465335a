//! Agendas: nodes that are to be computed, the lowest first.
#![tactic(auto)]

mod agenda;
mod tree;

pub use agenda::Agenda;
pub use tree::TreeAgenda;
