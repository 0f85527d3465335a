//! Nodes of forms with a handler.
ghost use Rattle.std.specs.Prelude.{◌≡◌, ◌<◌, ◌+◌, ℕ, ◌∷◌, [], None, IfOk, length};
ghost use Rattle.fr_core.specs.Shapes.{handler_parts};
ghost use Rattle.fr_meaning.specs.Words.{plain};
ghost use Rattle.fr_meaning.specs.States.{Called, handler_end};
ghost use Rattle.fr_forms.specs.Lent.{earlier};
ghost use Rattle.fr_forms.specs.Begins.{args_of};
ghost use Rattle.fr_kernel.specs.Answers.{Ran};
ghost use Rattle.fr_graph.specs.Graph.{handles, kernel_run, kernel_call, work_line};
ghost use Rattle.fr_events.specs.Steps.{StepRan};

use crate::kernels::{behind, run_kernel};
use crate::lines::{Stepped, line_stepped};
use fr_core::Handler;
use fr_forms::{Begun, CallArgs, LentCell, Seen, begin_handler, end_handler};
use fr_kernel::{Fuel, KernStop, KernTable, Machine};
use fr_value::{KernId, Now, Value};
use std::alloc::{AllocError, Global};

/// How many inputs a form with a handler has before those of the handler's body.
fn parts_of(handler: Handler) -> usize
    ensures { result ≡ handler_parts handler }
{
    match handler {
        Handler::MapE => 1,
        Handler::FilterE => 1,
        Handler::CollectB => 2,
        Handler::CollectE => 2,
    }
}

/// A plain value, with one more owner. It fails only where there is no memory.
fn plain_shared(value: &Value) -> Result<Seen, AllocError>
    ensures { IfOk result (λ v. v ≡ plain value.now) }
{
    Ok(Ok(Now::Plain(value.share()?)))
}

/// Two plain values, with one more owner each. It fails only where there is no memory.
fn both_shared(first: &Value, second: &Value) -> Result<[Seen; 2], AllocError>
    ensures { IfOk result (λ vs. vs ≡ plain first.now ∷ plain second.now ∷ []) }
{
    Ok([plain_shared(first)?, plain_shared(second)?])
}

/// Runs a handler's body over a payload alone.
fn run_on_payload(
    alloc: Global,
    table: &KernTable,
    body: KernId,
    slots: &[Seen],
    payload: &Value,
    levels: u32,
    machine: &mut Machine,
    fuel: &mut Fuel,
) -> Result<Now, KernStop>
    requires { body.0 < length table.now.kernels }
    ensures { Ran result fuel.old.left fuel.new.left (kernel_run table.now levels body.0 slots.now (plain payload.now ∷ [])) }
{
    match plain_shared(payload) {
        Err(e) => Err(KernStop::Memory(e)),
        Ok(payload) => run_kernel(alloc, table, body, slots, &[payload], levels, machine, fuel),
    }
}

/// Runs a handler's body over a payload and a state.
fn run_on_both(
    alloc: Global,
    table: &KernTable,
    body: KernId,
    slots: &[Seen],
    payload: &Value,
    state: &Value,
    levels: u32,
    machine: &mut Machine,
    fuel: &mut Fuel,
) -> Result<Now, KernStop>
    requires { body.0 < length table.now.kernels }
    ensures { Ran result fuel.old.left fuel.new.left (kernel_run table.now levels body.0 slots.now (plain payload.now ∷ plain state.now ∷ [])) }
{
    match both_shared(payload, state) {
        Err(e) => Err(KernStop::Memory(e)),
        Ok(args) => run_kernel(alloc, table, body, slots, &args, levels, machine, fuel),
    }
}

/// Runs a handler's body over its call's arguments.
fn run_body(
    alloc: Global,
    table: &KernTable,
    body: KernId,
    slots: &[Seen],
    args: CallArgs<'_>,
    levels: u32,
    machine: &mut Machine,
    fuel: &mut Fuel,
) -> Result<Now, KernStop>
    requires { body.0 < length table.now.kernels }
    ensures { Ran result fuel.old.left fuel.new.left (kernel_run table.now levels body.0 slots.now (args_of args.entry)) }
{
    let payload = args.payload;
    match args.state {
        None => run_on_payload(alloc, table, body, slots, payload, levels, machine, fuel),
        Some(state) => run_on_both(
            alloc, table, body, slots, payload, state, levels, machine, fuel,
        ),
    }
}

/// What a form with a handler makes of what the handler's call gave.
fn end_call(handler: Handler, args: CallArgs<'_>, given: Seen) -> Result<Stepped, KernStop>
    ensures { (start after : ℕ) (c : Called) → c.value ≡ given → c.first ≡ None → after + c.cost ≡ start → StepRan result start after (handler_end handler (args_of args.entry) c) }
{
    match end_handler(handler, args, &given) {
        Err(e) => Err(KernStop::Memory(e)),
        Ok(line) => line_stepped(line),
    }
}

/// Calls a handler, whose body is a kernel that may nest so many levels, and gives the form's line behind the call.
fn call_handler(
    alloc: Global,
    table: &KernTable,
    handler: Handler,
    body: KernId,
    slots: &[Seen],
    args: CallArgs<'_>,
    levels: u32,
    machine: &mut Machine,
    fuel: &mut Fuel,
) -> Result<Stepped, KernStop>
    requires { body.0 < length table.now.kernels }
    ensures { StepRan result fuel.old.left fuel.new.left (handler_end handler (args_of args.entry) (kernel_call table.now levels body.0 slots.now (args_of args.entry))) }
{
    if !fuel.spend() {
        return Err(KernStop::Fuel);
    }
    match run_body(alloc, table, body, slots, args, levels, machine, fuel) {
        Err(stop) => Err(stop),
        Ok(value) => end_call(handler, args, Ok(value)),
    }
}

/// Computes a node of a form with a handler: its inputs are those of the form and then those of the handler's body.
pub(crate) fn step_handler(
    alloc: Global,
    table: &KernTable,
    handler: Handler,
    body: KernId,
    cell: Option<LentCell<'_>>,
    inputs: &[Seen],
    levels: u32,
    machine: &mut Machine,
    fuel: &mut Fuel,
) -> Result<Stepped, KernStop>
    requires { body.0 < length table.now.kernels }
    ensures { StepRan result fuel.old.left fuel.new.left (work_line table.now levels (handles handler body.0) (earlier cell.entry) inputs.now) }
{
    match begin_handler(handler, cell, inputs) {
        Err(e) => Err(KernStop::Memory(e)),
        Ok(Begun::Gives(line)) => line_stepped(line),
        Ok(Begun::Asks(args)) => {
            let slots = behind(inputs, parts_of(handler));
            call_handler(
                alloc, table, handler, body, slots, args, levels, machine, fuel,
            )
        }
    }
}
