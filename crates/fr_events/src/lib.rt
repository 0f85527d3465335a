//! One node of the graph of signals: its value and its next cell, from its cell and the values of its inputs. Nothing uses
//! it yet.
//!
//! A node is put through the lines of `fr_forms` and the runs of `fr_kernel`. What a form gives is said there alone.
#![tactic(auto)]

mod handlers;
mod kernels;
mod latching;
mod lines;
mod operators;
mod stepping;
mod works;

pub use latching::{LatchStop, latched};
pub use lines::Stepped;
pub use stepping::step;
pub use works::is_late;
