//! What a node comes to by its rule.
ghost use Rattle.std.specs.Prelude.{◌≡◌, ◌<◌, ◌-◌, ℕ, Some, Ok, IfOk, IsSome, length, slice_get, MatchResult};
ghost use Rattle.std.specs.Option.{option_map};
ghost use Rattle.fr_meaning.specs.Words.{test_of};
ghost use Rattle.fr_meaning.specs.Evaluation.{most_levels};
ghost use Rattle.fr_graph.specs.Graph.{Work, part_values, work_line};
ghost use Rattle.fr_kernel.specs.Answers.{IsWant};
ghost use Rattle.fr_events.specs.Works.{work_of, HasKernel, cell_of};
ghost use Rattle.fr_nodes.specs.Kinds.{Sites, parts_of};
ghost use Rattle.fr_nodes.specs.Makes.{AreThere};
ghost use Rattle.fr_nodes.specs.Signals.{Lives};
ghost use Rattle.fr_engine.specs.Rules.{HasKernels, role_of as role_in, only_of, KeepsCell, WorkComes, WatchComes, GivesPassed, ComputedOr};

use crate::values::{input_test, input_value, input_values, only_input};
use fr_events::{Stepped, is_late, step};
use fr_kernel::{Fuel, KernStop, KernTable, Machine};
use fr_nodes::Signals;
use fr_store::{Cell, Node, NodeCell, NodeKind, SeenCell};
use fr_value::{NodeId, Now, Value};
use std::alloc::{AllocError, Global};

/// What a node is for.
#[derive(Clone, Copy)]
pub(crate) enum Role {
    /// It has the value of a source.
    Fed,
    /// It is a work.
    Worked,
    /// It tells which choice of a switch holds.
    Watched,
    /// It has the value of its input.
    Passed,
}

fn role_of(kind: &NodeKind) -> Role
    ensures { result ≡ role_in kind.now }
{
    match kind {
        NodeKind::Now | NodeKind::Input | NodeKind::Event => Role::Fed,
        NodeKind::IfWatch(_, _) => Role::Watched,
        NodeKind::Result => Role::Passed,
        _ => Role::Worked,
    }
}

/// A cell that a node has, with one more owner of what is in it. It fails only where there is no memory.
fn owned(cell: &NodeCell) -> Result<Option<Cell>, AllocError>
    ensures { IfOk result (λ owned. owned ≡ cell.now) }
{
    match cell.get() {
        None => Ok(None),
        Some(SeenCell::Kept(value)) => Ok(Some(Cell::Kept(value.share()?))),
        Some(SeenCell::Silent) => Ok(Some(Cell::Payload(None))),
        Some(SeenCell::Payload(value)) => Ok(Some(Cell::Payload(Some(value.share()?)))),
    }
}

/// A value without a cell.
fn alone(value: Result<Now, AllocError>) -> Result<Stepped, KernStop>
    ensures { MatchResult result (λ s. value ≡ Ok s.value) IsWant }
{
    match value {
        Err(e) => Err(KernStop::Memory(e)),
        Ok(value) => Ok(Stepped { value, cell: None }),
    }
}

/// The present value of a source.
fn fed(sources: &[Now], id: NodeId) -> Result<Stepped, KernStop>
    requires { id.0 < length sources.now }
    ensures { MatchResult result (λ s. slice_get sources.now id.0 ≡ Some s.value) IsWant }
{
    alone(sources[id.0 as usize].share())
}

/// What a work has come to: the cell of a late one stays.
fn with_cell(
    late: bool,
    before: Option<Cell>,
    stepped: Result<Stepped, KernStop>,
) -> Result<Stepped, KernStop>
    ensures { KeepsCell late before stepped result }
{
    match stepped {
        Err(stop) => Err(stop),
        Ok(Stepped { value, cell }) => {
            let cell = if late { before } else { cell };
            Ok(Stepped { value, cell })
        }
    }
}

/// What a work comes to by its line.
fn worked<N: Signals>(
    alloc: Global,
    nodes: &N,
    node: &Node,
    table: &KernTable,
    machine: &mut Machine,
    fuel: &mut Fuel,
) -> Result<Stepped, KernStop>
    requires work { IsSome (work_of node.now.kind) }
    requires kernel { (w : Work) → work_of node.now.kind ≡ Some w → HasKernel table.now w }
    requires there { (sites : Sites) →
        AreThere (N.way nodes.now sites) (parts_of node.now.inputs) }
    ensures { (sites : Sites) (w : Work) → work_of node.now.kind ≡ Some w →
        WorkComes result fuel.old.left fuel.new.left w (option_map cell_of node.now.cell)
        (work_line table.now (most_levels - node.now.nest) w (option_map cell_of node.now.cell)
        (part_values (N.way nodes.now sites).graph (parts_of node.now.inputs))) }
{
    let values = match input_values(alloc, nodes, &node.inputs) {
        Err(e) => return Err(KernStop::Memory(e)),
        Ok(values) => values,
    };
    let before = match owned(&node.cell) {
        Err(e) => return Err(KernStop::Memory(e)),
        Ok(before) => before,
    };
    let stepped = step(
        alloc,
        &node.kind,
        node.cell.get(),
        values.as_slice(),
        table,
        node.nest,
        machine,
        fuel,
    );
    with_cell(is_late(&node.kind), before, stepped)
}

/// The value of a watch, by its key.
fn keyed(holds: bool) -> Stepped
    ensures { test_of (Ok result.value) ≡ Ok holds }
{
    Stepped {
        value: Now::Plain(Value::Bool(holds)),
        cell: None,
    }
}

/// What a watch comes to by its test.
fn watched<N: Signals>(nodes: &N, node: &Node) -> Result<Stepped, KernStop>
    requires { (sites : Sites) → AreThere (N.way nodes.now sites) (parts_of node.now.inputs) }
    ensures { (sites : Sites) →
        WatchComes result (N.way nodes.now sites).graph (only_of (parts_of node.now.inputs)) }
{
    match only_input(&node.inputs) {
        None => Ok(keyed(false)),
        Some(test) => match input_test(nodes, test) {
            Err(bad) => Err(KernStop::Bad(bad)),
            Ok(holds) => Ok(keyed(holds)),
        },
    }
}

/// The value of a node that passes its input on.
fn passed_value<N: Signals>(nodes: &N, node: &Node) -> Result<Now, AllocError>
    requires { (sites : Sites) → AreThere (N.way nodes.now sites) (parts_of node.now.inputs) }
    ensures { IfOk result (λ now. (sites : Sites) →
        GivesPassed (N.way nodes.now sites).graph (only_of (parts_of node.now.inputs)) now) }
{
    match only_input(&node.inputs) {
        None => Ok(node.value.share()?),
        Some(input) => Ok(input_value(nodes, input)?),
    }
}

/// What a node comes to by its rule: its value and the cell that it has with it. A late work keeps its cell.
///
/// `Bad` comes only where the rule gives nothing, and `Fuel` only where it costs more than what was left; after either, and
/// where there is no memory, what is left of the fuel is of no meaning.
pub fn compute<N: Signals>(
    alloc: Global,
    nodes: &N,
    id: NodeId,
    sources: &[Now],
    table: &KernTable,
    machine: &mut Machine,
    fuel: &mut Fuel,
) -> Result<Stepped, KernStop>
    requires there { Lives (N.way nodes.now) id.0 }
    requires inputs { (sites : Sites) ×
        AreThere (N.way nodes.now sites) ((N.way nodes.now sites).graph.inputs id.0) }
    requires kernels { (sites : Sites) ×
        HasKernels table.now (length sources.now) (N.way nodes.now sites).graph }
    ensures { (sites : Sites) → ComputedOr result fuel.old.left fuel.new.left table.now
        sources.now (N.way nodes.now sites) id.0 }
{
    nodes.is_sound();
    let node = nodes.node(id);
    match role_of(&node.kind) {
        Role::Fed => fed(sources, id),
        Role::Worked => worked(alloc, nodes, node, table, machine, fuel),
        Role::Watched => watched(nodes, node),
        Role::Passed => alone(passed_value(nodes, node)),
    }
}
