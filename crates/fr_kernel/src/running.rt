ghost use Rattle.std.specs.Prelude.{◌≡◌, ◌≤◌, ◌-◌, ◌++◌, length};
ghost use Rattle.fr_core.specs.declared.kept.Kept.{Kept};
ghost use Rattle.fr_meaning.specs.Words.{Done as Evaluated};
ghost use Rattle.fr_meaning.specs.Evaluation.{eval};
ghost use Rattle.fr_kernel.specs.declared.machine.Machine.{Machine as AnyMachine};
ghost use Rattle.fr_kernel.specs.Purity.{IsPureOver};
ghost use Rattle.fr_kernel.specs.Answers.{world, here, scope, slot_values, Tells, Ran};

use crate::fuel::{Fuel, KernStop};
use crate::machine::{Kind, Machine, begin, begin_over, value_of};
use crate::walking::walk;
use fr_core::{Core, Function};
use fr_forms::Seen;
use fr_value::Now;
use std::alloc::Global;

/// How many levels an expression may nest that stands at a nest.
fn levels_from(nest: u32) -> u32
    ensures { result ≡ 2001 - nest }
{
    2001u32.saturating_sub(nest)
}

/// Evaluates an expression at a nest, where these inputs are its variables, the first `params` of them behind the
/// others, and it names no source.
///
/// Ok gives its value, where the evaluation has no error, and exactly its cost was spent. `Bad` has the kind of the
/// evaluation's first error, and `Fuel` comes only where its cost is above what was left; after either, and where there
/// is no memory, what is left of the fuel is of no meaning.
pub(crate) fn run(
    alloc: Global,
    functions: &[Function],
    expr: &Core,
    params: usize,
    inputs: &[Now],
    nest: u32,
    machine: &mut Machine,
    fuel: &mut Fuel,
) -> Result<Now, KernStop>
    requires inputs { params ≤ length inputs.now }
    requires pure { IsPureOver functions.now expr.now }
    ensures { (k : Kept) → Ran result fuel.old.left fuel.new.left (eval (world functions.now) nest expr.now (slot_values params inputs.now) k) }
{
    let (first, others) = inputs.split_at(params);
    match begin(machine, others, first, fuel.left) {
        Err(e) => Err(KernStop::Memory(e)),
        Ok(()) => run_begun(alloc, functions, expr, levels_from(nest), machine, fuel),
    }
}

/// Evaluates an expression to a number of levels, where these values are its variables, first the former, and it names
/// no source.
///
/// What it answers is told of this evaluation as in `run`.
pub(crate) fn run_over(
    alloc: Global,
    functions: &[Function],
    expr: &Core,
    first: &[Seen],
    others: &[Seen],
    levels: u32,
    machine: &mut Machine,
    fuel: &mut Fuel,
) -> Result<Now, KernStop>
    requires { IsPureOver functions.now expr.now }
    ensures { (k : Kept) → Ran result fuel.old.left fuel.new.left (here functions.now levels expr.now (first.now ++ others.now) k) }
{
    match begin_over(machine, first, others, fuel.left) {
        Err(e) => Err(KernStop::Memory(e)),
        Ok(()) => run_begun(alloc, functions, expr, levels, machine, fuel),
    }
}

/// The same, where the machine has the values and the fuel.
fn run_begun(
    alloc: Global,
    functions: &[Function],
    expr: &Core,
    levels: u32,
    machine: &mut Machine,
    fuel: &mut Fuel,
) -> Result<Now, KernStop>
    requires { IsPureOver functions.now expr.now }
    ensures { (k : Kept) → Ran result machine.old.fuel fuel.new.left (here functions.now levels expr.now (scope 0 machine.old) k) }
{
    let kind = walk(alloc, functions, levels, machine, 0, expr);
    finish(machine, kind, fuel)
}

/// What a run gives that ended with an answer of this kind, and what is left of the fuel.
pub(crate) fn finish(machine: &mut Machine, kind: Kind, fuel: &mut Fuel) -> Result<Now, KernStop>
    ensures { (start : AnyMachine) (d : Evaluated) → Tells kind start machine.old d → Ran result start.fuel fuel.new.left d }
{
    fuel.left = machine.fuel;
    match value_of(machine, kind) {
        Some(Ok(now)) => Ok(now),
        Some(Err(bad)) => Err(KernStop::Bad(bad)),
        None => Err(machine.stop),
    }
}
