//! Kernels: pure expressions that are run over slots, with fuel. Nothing uses it yet.
#![tactic(auto)]

mod fuel;
mod integers;
mod laws;
mod looping;
mod machine;
mod names;
mod naming;
mod placing;
mod running;
mod table;
mod walking;

pub use fuel::{Fuel, KernStop};
pub use laws::{equal_inputs_tell_the_same, numbering_keeps_the_meaning};
pub use machine::Machine;
pub use table::{KernTable, loop_code, run_code, run_fold, run_kern, run_repeat};
