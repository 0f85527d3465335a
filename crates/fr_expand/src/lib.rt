//! Programs from the forms of their text, or the first form that is refused.
#![tactic(auto)]

mod bindings;
mod building;
mod cores;
mod depth;
mod earlier;
mod expansion;
mod faults;
mod first_pass;
mod laws;
mod name_set;
mod refusal;
mod second_pass;
mod shaping;
mod translation;
mod view;

pub use expansion::{ExpandStop, expand};
pub use laws::expansion_is_one;
pub use refusal::{Kind, Refusal};
