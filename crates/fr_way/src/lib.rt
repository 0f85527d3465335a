//! What an instant does to the graph of signals, step by step: definitions and laws over plain data.
#![tactic(auto)]

mod laws;
mod looping;
mod turning;

pub use laws::{
    eras_stand_alone, errors_at_the_end_are_those_of_evaluating_afresh,
    errors_on_the_way_are_those_of_evaluating_afresh, instants_begin, instants_end, instants_go_on,
    members_stay_used, what_is_below_is_right, what_is_placed_is_calm,
};
pub use looping::{
    burying_changes_nothing_that_lives, instants_keep_what_their_loop_needs,
    what_has_closed_is_afresh, what_is_shown_lives,
};
pub use turning::{
    a_turning_keeps_what_is_under_way, each_step_of_a_turning_can_be_made, heights_can_be_raised,
    nothing_that_lives_names_what_ended, raising_takes_and_gives, what_awaits_burial_is_levelled,
};
