//! What programs mean: evaluation, state forms, instants and texts, as definitions that contracts cite, and their laws.
#![tactic(auto)]

mod laws;

pub use laws::{
    body_visits_are_in_order, ends_are_ordered, evaluation_is_local, pure_is_steady, visits_add_up,
    visits_are_in_order, visits_go_by_what_they_use,
};
