ghost use Rattle.std.specs.Prelude.{◌≡◌, ◌<◌, [], IfOk, IfErr, length};
ghost use Rattle.fr_core.specs.declared.core_form.Loop.TheVariants as loop;
ghost use Rattle.fr_kernel.specs.Kernels.{kernel_for};
ghost use Rattle.fr_kernel.specs.Purity.{IsPureOver};
ghost use Rattle.fr_kernel.specs.Runs.{with_kernel, TakesInputs, TakesTurns, KernelRan, LoopRan, CodeRan, CodeLooped};
ghost use Rattle.fr_kernel.specs.Slots.{slots_of};

use crate::fuel::{Fuel, KernStop};
use crate::looping::{loop_over_seen, run_loop};
use crate::machine::Machine;
use crate::names::Names;
use crate::placing::place;
use crate::running::{run, run_over};
use fr_core::{Core, Function, Loop, Program, Slot};
use fr_forms::Seen;
use fr_value::{KernId, Now};
use sqlite_items::Items;
use std::alloc::{AllocError, Global};
use std::marker::Model;

/// A kernel: an expression over slots, and what the slots stand for.
#[derive(Drop)]
pub(crate) struct Kern {
    pub(crate) code: Core,
    pub(crate) names: Names,
}

/// The kernels of a program, beside its functions.
///
/// Contracts see the functions, and of each kernel the expression that it was made from, the number of its first
/// parameter, how many parameters it has, and what its other slots stand for. The expression is pure over the functions.
#[derive(Drop)]
pub struct KernTable {
    functions: Items<Function>,
    kernels: Items<Kern>,
}

impl Model for KernTable {
    ghost use Rattle.std.specs.Prelude.{map};
    ghost use Rattle.fr_kernel.specs.Kernels.{Kernels, kernels_code};

    ghost Value = { Kernels };

    ghost coded = { kernels_code };

    ghost use Rattle.fr_kernel.specs.Tables.{kernel_of, AreKernels};

    ghost view = { λ t. record { functions = t.functions; kernels = map kernel_of t.kernels } };

    ghost invariant = { λ t. AreKernels t.functions t.kernels };
}

fn copy_function(alloc: Global, function: &Function) -> Result<Function, AllocError>
    ensures { IfOk result (λ f. f ≡ function.now) }
{
    Ok(Function {
        name: function.name.share()?,
        params: function.params,
        body: place(alloc, None, u32::MAX, &function.body)?,
    })
}

fn copy_functions(alloc: Global, functions: &[Function]) -> Result<Items<Function>, AllocError>
    ensures { IfOk result (λ fs. fs ≡ functions.now) }
{
    let mut copies = Items::new(alloc);
    for function in functions {
        copies.push(copy_function(alloc, function)?)?;
    }
    Ok(copies)
}

impl KernTable {
    /// A table with a program's functions and no kernel. It fails only where there is no memory.
    pub fn new(alloc: Global, program: &Program) -> Result<KernTable, AllocError>
        ensures { IfOk result (λ t. t ≡ record { functions = program.now.functions; kernels = [] }) }
    {
        Ok(KernTable {
            functions: copy_functions(alloc, program.functions.as_slice())?,
            kernels: Items::new(alloc),
        })
    }

    /// Puts the kernel of an expression behind the others. It gives its number, and what the slots behind its parameters
    /// stand for.
    ///
    /// The expression is pure over the table's functions. The variables from `first` on, `params` of them, are the
    /// parameters: the kernel's inputs begin with their values, whether they are named or not. Behind them come those of
    /// the variables below `first` that the expression names and then of its sources, each once and in rising order. The
    /// variables that the expression binds itself are numbered from `first` and `params` together on. It fails only where
    /// there is no memory, and the table is then unchanged.
    pub fn add(
        &mut self,
        alloc: Global,
        expr: &Core,
        first: u32,
        params: u32,
    ) -> Result<(KernId, Items<Slot>), AllocError>
        requires pure { IsPureOver self.old.functions expr.now }
        ensures number { IfOk result (λ added. added.0.0 ≡ length self.old.kernels) }
        ensures slots { IfOk result (λ added. added.1 ≡ slots_of first expr.now) }
        ensures appended { IfOk result (λ added. self.new ≡ with_kernel self.old (kernel_for first params expr.now)) }
        ensures failed { IfErr result (λ e. self.new ≡ self.old) }
    {
        let names = Names::of(alloc, expr, first, params)?;
        let slots = names.slots(alloc)?;
        let code = place(alloc, Some(&names), u32::MAX, expr)?;
        let id = self.kernels.len() as u64;
        self.kernels.push(Kern { code, names })?;
        Ok((KernId(id), slots))
    }
}

/// Runs a kernel at a nest, over the values of its parameters and then of its other slots.
///
/// Ok gives the value of evaluating the kernel's expression at that nest, wherever the variables and sources that it
/// names have these values and whatever was kept; nothing errs in that evaluation, and exactly its cost was spent. `Bad`
/// has the kind of the evaluation's first error, and `Fuel` comes only where its cost is above what was left; after
/// either, and where there is no memory, what is left of the fuel is of no meaning.
pub fn run_kern(
    alloc: Global,
    table: &KernTable,
    id: KernId,
    inputs: &[Now],
    nest: u32,
    machine: &mut Machine,
    fuel: &mut Fuel,
) -> Result<Now, KernStop>
    requires number { id.0 < length table.now.kernels }
    requires inputs { TakesInputs table.now id.0 (length inputs.now) }
    ensures { KernelRan table.now id.0 inputs.now nest fuel.old.left fuel.new.left result }
{
    let kernel = &table.kernels.as_slice()[id.0 as usize];
    run(
        alloc,
        table.functions.as_slice(),
        &kernel.code,
        kernel.names.params as usize,
        inputs,
        nest,
        machine,
        fuel,
    )
}

/// Runs a `for/fold` whose body is a kernel with two parameters, the accumulator and the item, at the loop's nest.
///
/// The inputs are the first accumulator, the list, and then the values of the body's slots other than its parameters.
/// Value, cost and refusals are those of evaluating the loop over these values, as of a kernel in `run_kern`.
pub fn run_fold(
    alloc: Global,
    table: &KernTable,
    body: KernId,
    inputs: &[Now],
    nest: u32,
    machine: &mut Machine,
    fuel: &mut Fuel,
) -> Result<Now, KernStop>
    requires number { body.0 < length table.now.kernels }
    requires body { TakesTurns table.now body.0 loop.Fold (length inputs.now) }
    ensures { LoopRan table.now body.0 loop.Fold inputs.now nest fuel.old.left fuel.new.left result }
{
    let kernel = &table.kernels.as_slice()[body.0 as usize];
    run_loop(
        alloc,
        table.functions.as_slice(),
        Loop::Fold,
        &kernel.code,
        inputs,
        nest,
        machine,
        fuel,
    )
}

/// Runs a `repeat` whose body is a kernel with one parameter, the accumulator, at the loop's nest.
///
/// The inputs are the first accumulator, the count, and then the values of the body's slots other than its parameter.
/// Value, cost and refusals are those of evaluating the loop over these values, as of a kernel in `run_kern`.
pub fn run_repeat(
    alloc: Global,
    table: &KernTable,
    body: KernId,
    inputs: &[Now],
    nest: u32,
    machine: &mut Machine,
    fuel: &mut Fuel,
) -> Result<Now, KernStop>
    requires number { body.0 < length table.now.kernels }
    requires body { TakesTurns table.now body.0 loop.Repeat (length inputs.now) }
    ensures { LoopRan table.now body.0 loop.Repeat inputs.now nest fuel.old.left fuel.new.left result }
{
    let kernel = &table.kernels.as_slice()[body.0 as usize];
    run_loop(
        alloc,
        table.functions.as_slice(),
        Loop::Repeat,
        &kernel.code,
        inputs,
        nest,
        machine,
        fuel,
    )
}

/// Runs a kernel to a number of levels, over the values of its slots other than its parameters and then of these, some
/// of which may be Bad.
///
/// What it answers is told as in `run_kern` of evaluating the kernel's code over these values, whatever was kept.
pub fn run_code(
    alloc: Global,
    table: &KernTable,
    id: KernId,
    slots: &[Seen],
    args: &[Seen],
    levels: u32,
    machine: &mut Machine,
    fuel: &mut Fuel,
) -> Result<Now, KernStop>
    requires { id.0 < length table.now.kernels }
    ensures { CodeRan table.now id.0 slots.now args.now levels fuel.old.left fuel.new.left result }
{
    let kernel = &table.kernels.as_slice()[id.0 as usize];
    run_over(
        alloc,
        table.functions.as_slice(),
        &kernel.code,
        slots,
        args,
        levels,
        machine,
        fuel,
    )
}

/// Runs a loop whose body is a kernel that may nest so many levels, over values of which the first is the first
/// accumulator and the second the list or count, where the slots of the body other than its parameters have others. Some
/// may be Bad.
///
/// What it answers is told as in `run_kern` of evaluating the turns over these values.
pub fn loop_code(
    alloc: Global,
    table: &KernTable,
    looped: Loop,
    body: KernId,
    values: &[Seen],
    slots: &[Seen],
    levels: u32,
    machine: &mut Machine,
    fuel: &mut Fuel,
) -> Result<Now, KernStop>
    requires { body.0 < length table.now.kernels }
    ensures { CodeLooped table.now body.0 looped values.now slots.now levels fuel.old.left fuel.new.left result }
{
    let kernel = &table.kernels.as_slice()[body.0 as usize];
    loop_over_seen(
        alloc,
        table.functions.as_slice(),
        looped,
        &kernel.code,
        values,
        slots,
        levels,
        machine,
        fuel,
    )
}
