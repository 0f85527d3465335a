//! Core programs and what the script sets, as plain data.
#![tactic(auto)]

mod core_form;
mod inputs;
mod kept;
mod lowered;
mod path;
mod program;
mod site;
mod text;
mod words;

pub use core_form::{Core, Handler, Loop, Operator};
pub use inputs::{Entry, Inputs, Sets};
pub use kept::{Kept, Key};
pub use lowered::{Low, LowFunction, LowItem, Lowered, Slot};
pub use path::Path;
pub use program::{Event, Function, Input, Item, Program};
pub use text::core_text;
