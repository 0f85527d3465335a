//! The lines of the event and state forms: what a form gives over the values of its parts and what its cell holds.
//!
//! Values and cells are borrowed. Nothing here evaluates an expression, or knows how what is kept hangs together.
#![tactic(auto)]

mod applying;
mod handlers;
mod lines;
mod operators;
mod rounds;
mod seen;

pub use applying::apply_primitive;
pub use handlers::{Begun, CallArgs, begin_handler, end_handler};
pub use lines::{Cell, CellKind, LentCell, Line, handler_cell, operator_cell};
pub use operators::{fed_value, feedback_line, operator_line};
pub use rounds::{Round, Rounds, rounds_of};
pub use seen::{Seen, share_option, share_part, share_seen, test_in};
