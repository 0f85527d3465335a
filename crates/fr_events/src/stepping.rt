//! The computing of a node.
ghost use Rattle.std.specs.Prelude.{◌≡◌, ◌-◌, ◌<◌, Some, IsSome};
ghost use Rattle.fr_meaning.specs.Evaluation.{most_levels};
ghost use Rattle.fr_forms.specs.Lent.{earlier};
ghost use Rattle.fr_graph.specs.Graph.{Work, work_line};
ghost use Rattle.fr_events.specs.Works.{work_of as node_work_of, graph_work, HasKernel, cell_at};
ghost use Rattle.fr_events.specs.Steps.{StepRan};

use crate::handlers::step_handler;
use crate::kernels::{step_kernel, step_loop};
use crate::lines::Stepped;
use crate::operators::{step_feeds, step_operator};
use crate::works::{NodeWork, lent_cell, work_of};
use fr_forms::{LentCell, Seen};
use fr_kernel::{Fuel, KernStop, KernTable, Machine};
use fr_store::{NodeKind, SeenCell};
use fr_value::Bad;
use std::alloc::Global;

/// How many levels are left below an expression that is evaluated at a nest.
fn levels_below(nest: u32) -> u32
    ensures { result ≡ most_levels - nest }
{
    2000u32.saturating_sub(nest)
}

/// Computes a node that is a work, at a nest: its value and its next cell by its cell and the values of its inputs.
///
/// The inputs are those of the form, and behind them those of its kernel, where it has one. Ok gives what the work's line
/// gives, which is then clean, and exactly its cost was spent. `Bad` has the kind of the line's first error, and `Fuel`
/// comes only where its cost is above what was left; after either, and where there is no memory, what is left of the fuel
/// is of no meaning.
pub fn step(
    alloc: Global,
    kind: &NodeKind,
    cell: Option<SeenCell<'_>>,
    inputs: &[Seen],
    table: &KernTable,
    nest: u32,
    machine: &mut Machine,
    fuel: &mut Fuel,
) -> Result<Stepped, KernStop>
    requires work { IsSome (node_work_of kind.now) }
    requires kernel { (w : Work) → node_work_of kind.now ≡ Some w → HasKernel table.now w }
    ensures { (w : Work) → node_work_of kind.now ≡ Some w → StepRan result fuel.old.left fuel.new.left (work_line table.now (most_levels - nest) w (cell_at cell.entry) inputs.now) }
{
    match work_of(kind) {
        None => Err(KernStop::Bad(Bad::Deep)),
        Some(work) => step_work(
            alloc,
            table,
            work,
            lent_cell(cell),
            inputs,
            levels_below(nest),
            machine,
            fuel,
        ),
    }
}

/// Computes a node of this work, below whose expression so many levels are left.
fn step_work(
    alloc: Global,
    table: &KernTable,
    work: NodeWork,
    cell: Option<LentCell<'_>>,
    inputs: &[Seen],
    levels: u32,
    machine: &mut Machine,
    fuel: &mut Fuel,
) -> Result<Stepped, KernStop>
    requires kernel { HasKernel table.now (graph_work work) }
    requires levels { levels < u32.MAX }
    ensures { StepRan result fuel.old.left fuel.new.left (work_line table.now levels (graph_work work) (earlier cell.entry) inputs.now) }
{
    match work {
        NodeWork::Operates(operator) => step_operator(alloc, operator, cell, inputs),
        NodeWork::Handles(handler, body) => step_handler(
            alloc, table, handler, body, cell, inputs, levels, machine, fuel,
        ),
        NodeWork::Loops(looped, body) => {
            step_loop(alloc, table, looped, body, inputs, levels, machine, fuel)
        }
        NodeWork::Runs(id) => step_kernel(alloc, table, id, inputs, levels, machine, fuel),
        NodeWork::Feeds => step_feeds(alloc, cell, inputs),
    }
}
