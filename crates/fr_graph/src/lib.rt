//! What the graph of signals stands for: definitions and laws over plain data.
#![tactic(auto)]

mod laws;

pub use laws::{
    errors_are_those_of_evaluating_afresh, failing_to_build_is_an_error, instants_are_afresh,
    what_is_built_has_a_value,
};
