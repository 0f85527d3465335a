//! The forms of a program and their expressions, as they stand in a text that was read: with names that aren't looked up yet.
#![tactic(auto)]

mod bindings;
mod clauses;
mod expr;
mod exprs;
mod form;
mod functions;
mod handlers;
mod keyword;
mod layouts;
mod lists;
mod openings;
mod outlines;
mod parts;
mod shapes;

pub use expr::Expr;
pub use form::Form;
pub use keyword::{Keyword, keyword_named};
pub use outlines::{Outline, Sort, outline_of};
pub use shapes::form_of;
