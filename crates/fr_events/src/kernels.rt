//! Nodes of kernels as a whole and of loops.
ghost use Rattle.std.specs.Prelude.{◌≡◌, ◌<◌, length, drop};
ghost use Rattle.fr_meaning.specs.Cells.{Cell};
ghost use Rattle.std.specs.Prelude.{Option};
ghost use Rattle.fr_kernel.specs.Answers.{Ran};
ghost use Rattle.fr_graph.specs.Graph.{loops, runs, kernel_run, work_line};
ghost use Rattle.fr_events.specs.Steps.{StepRan};

use crate::lines::{Stepped, run_stepped};
use fr_core::Loop;
use fr_forms::Seen;
use fr_kernel::{Fuel, KernStop, KernTable, Machine, loop_code, run_code};
use fr_value::{KernId, Now};
use std::alloc::Global;

/// The values behind so many of them.
pub(crate) fn behind(values: &[Seen], count: usize) -> &[Seen]
    ensures { result.now ≡ drop count values.now }
{
    if count <= values.len() {
        &values[count..]
    } else {
        &[]
    }
}

/// Runs a kernel to a number of levels, over the values of its slots other than its parameters and then of these.
pub(crate) fn run_kernel(
    alloc: Global,
    table: &KernTable,
    id: KernId,
    slots: &[Seen],
    args: &[Seen],
    levels: u32,
    machine: &mut Machine,
    fuel: &mut Fuel,
) -> Result<Now, KernStop>
    requires { id.0 < length table.now.kernels }
    ensures { Ran result fuel.old.left fuel.new.left (kernel_run table.now levels id.0 slots.now args.now) }
{
    run_code(alloc, table, id, slots, args, levels, machine, fuel)
}

/// Computes a node that is a kernel as a whole, below whose expression so many levels are left.
pub(crate) fn step_kernel(
    alloc: Global,
    table: &KernTable,
    id: KernId,
    inputs: &[Seen],
    levels: u32,
    machine: &mut Machine,
    fuel: &mut Fuel,
) -> Result<Stepped, KernStop>
    requires number { id.0 < length table.now.kernels }
    requires levels { levels < u32.MAX }
    ensures { (cell : Option Cell) → StepRan result fuel.old.left fuel.new.left (work_line table.now levels (runs id.0) cell inputs.now) }
{
    run_stepped(run_kernel(alloc, table, id, inputs, &[], levels + 1, machine, fuel))
}

/// Computes a node of a loop: its inputs are the first accumulator, the list or count, and then those of the loop's body.
pub(crate) fn step_loop(
    alloc: Global,
    table: &KernTable,
    looped: Loop,
    body: KernId,
    inputs: &[Seen],
    levels: u32,
    machine: &mut Machine,
    fuel: &mut Fuel,
) -> Result<Stepped, KernStop>
    requires { body.0 < length table.now.kernels }
    ensures { (cell : Option Cell) → StepRan result fuel.old.left fuel.new.left (work_line table.now levels (loops looped body.0) cell inputs.now) }
{
    let slots = behind(inputs, 2);
    run_stepped(loop_code(
        alloc, table, looped, body, inputs, slots, levels, machine, fuel,
    ))
}
