//! Loops that are run over given values.
ghost use Rattle.std.specs.Prelude.{◌≡◌, ◌≤◌, ◌-◌, ◌+◌, IfOk, Ok, map, drop, length};
ghost use Rattle.fr_meaning.specs.Evaluation.{eval, body_with};
ghost use Rattle.fr_kernel.specs.Purity.{IsPureOver};
ghost use Rattle.fr_kernel.specs.Answers.{world, here, scope, Ran};
ghost use Rattle.fr_kernel.specs.Loops.{loop_over};

use crate::fuel::{Fuel, KernStop};
use crate::machine::{Machine, begin, begin_over, share_behind};
use crate::running::finish;
use crate::walking::walk_rounds;
use fr_core::{Core, Function, Loop};
use fr_forms::Seen;
use fr_value::Now;
use sqlite_items::Items;
use std::alloc::{AllocError, Global};

/// How many levels a body may nest of a loop that stands at a nest.
fn levels_below(nest: u32) -> u32
    ensures { result ≡ 2001 - (nest + 1) }
{
    2000u32.saturating_sub(nest)
}

/// Evaluates the turns of a loop at a nest over these inputs: the first accumulator, the list or count, and then the
/// variables around the body, behind which the body's own come. It names no source.
///
/// What it answers is told of these turns as of an evaluation in `run`.
pub(crate) fn run_loop(
    alloc: Global,
    functions: &[Function],
    looped: Loop,
    body: &Core,
    inputs: &[Now],
    nest: u32,
    machine: &mut Machine,
    fuel: &mut Fuel,
) -> Result<Now, KernStop>
    requires inputs { 2 ≤ length inputs.now }
    requires pure { IsPureOver functions.now body.now }
    ensures { let turn = body_with (eval (world functions.now) (nest + 1)) (map (λ n. Ok n) (drop 2 inputs.now)) body.now in Ran result fuel.old.left fuel.new.left (loop_over looped turn (map (λ n. Ok n) inputs.now)) }
{
    let (parts, others) = inputs.split_at(2);
    match begin(machine, others, &[], fuel.left) {
        Err(e) => Err(KernStop::Memory(e)),
        Ok(()) => loop_begun(alloc, functions, looped, body, parts, nest, machine, fuel),
    }
}

/// The same, where the machine has the variables and the fuel.
fn loop_begun(
    alloc: Global,
    functions: &[Function],
    looped: Loop,
    body: &Core,
    parts: &[Now],
    nest: u32,
    machine: &mut Machine,
    fuel: &mut Fuel,
) -> Result<Now, KernStop>
    requires { IsPureOver functions.now body.now }
    ensures { let turn = body_with (eval (world functions.now) (nest + 1)) (scope 0 machine.old) body.now in Ran result machine.old.fuel fuel.new.left (loop_over looped turn (map (λ n. Ok n) parts.now)) }
{
    match values_of(alloc, parts) {
        Err(e) => Err(KernStop::Memory(e)),
        Ok(values) => {
            let kind = walk_rounds(
                alloc,
                functions,
                levels_below(nest),
                machine,
                0,
                looped,
                values.as_slice(),
                body,
            );
            finish(machine, kind, fuel)
        }
    }
}

/// Evaluates the turns of a loop over these values, the first of which are the first accumulator and the list or count,
/// where the variables around its body have others and the body may nest so many levels. It names no source.
///
/// What it answers is told of these turns as of an evaluation in `run`.
pub(crate) fn loop_over_seen(
    alloc: Global,
    functions: &[Function],
    looped: Loop,
    body: &Core,
    values: &[Seen],
    slots: &[Seen],
    levels: u32,
    machine: &mut Machine,
    fuel: &mut Fuel,
) -> Result<Now, KernStop>
    requires { IsPureOver functions.now body.now }
    ensures { let turn = body_with (here functions.now levels) slots.now body.now in Ran result fuel.old.left fuel.new.left (loop_over looped turn values.now) }
{
    match begin_over(machine, slots, &[], fuel.left) {
        Err(e) => Err(KernStop::Memory(e)),
        Ok(()) => {
            let kind = walk_rounds(alloc, functions, levels, machine, 0, looped, values, body);
            finish(machine, kind, fuel)
        }
    }
}

/// The values that a loop goes over. It fails only where there is no memory.
fn values_of(alloc: Global, parts: &[Now]) -> Result<Items<Seen>, AllocError>
    ensures { IfOk result (λ vs. vs ≡ map (λ n. Ok n) parts.now) }
{
    let mut values = Items::new(alloc);
    share_behind(&mut values, parts)?;
    Ok(values)
}
