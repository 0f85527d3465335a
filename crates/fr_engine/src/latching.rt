//! What the late works take behind the instant: the values of their last parts.
ghost use Rattle.std.specs.Prelude.{◌≡◌, ℕ, true, [], ◌∷◌, Some, Ok, IfErr, IsSome, OnOk};
ghost use Rattle.fr_store.specs.Rows.{held_of};
ghost use Rattle.fr_events.specs.Works.{work_of};
ghost use Rattle.fr_events.specs.Steps.{Latched as CellTaken};
ghost use Rattle.fr_graph.specs.Graph.{Work, part_value};
ghost use Rattle.fr_graph.specs.Known.{latch};
ghost use Rattle.fr_nodes.specs.Kinds.{Sites, part_of};
ghost use Rattle.fr_nodes.specs.Makes.{AreThere};
ghost use Rattle.fr_nodes.specs.Signals.{Lives};
ghost use Rattle.fr_engine.specs.Notes.{AreTaken};
ghost use Rattle.fr_engine.specs.Latching.{Latched, LatchRefused, LatersLive, TakesOr};

use crate::values::input_value;
use fr_events::{LatchStop, is_late, latched};
use fr_nodes::Signals;
use fr_store::{Cell, Input, NodeKind};
use fr_value::NodeId;
use std::alloc::Global;

/// What the cell of a node takes from a part.
fn taken_from<N: Signals>(
    alloc: Global,
    nodes: &N,
    kind: &NodeKind,
    last: Input<'_>,
) -> Result<Cell, LatchStop>
    requires work { IsSome (work_of kind.now) }
    requires there { (sites : Sites) →
        AreThere (N.way nodes.now sites) (part_of (held_of last) ∷ []) }
    ensures { (sites : Sites) (w : Work) → work_of kind.now ≡ Some w → CellTaken result
        (latch w (part_value (N.way nodes.now sites).graph (part_of (held_of last.entry)))) }
{
    match input_value(nodes, last) {
        Err(e) => Err(LatchStop::Memory(e)),
        Ok(value) => latched(alloc, kind, &value),
    }
}

/// What the cell of a live node takes behind the instant, if it takes anything.
fn taken_by<N: Signals>(alloc: Global, nodes: &N, id: NodeId) -> Result<Option<Cell>, LatchStop>
    requires there { Lives (N.way nodes.now) id.0 }
    requires laters { (sites : Sites) → LatersLive (N.way nodes.now sites).graph }
    ensures { (sites : Sites) → TakesOr result (N.way nodes.now sites).graph id.0 }
{
    let node = nodes.node(id);
    if !is_late(&node.kind) {
        return Ok(None);
    }
    match node.source.get() {
        None => Ok(None),
        Some(last) => match taken_from(alloc, nodes, &node.kind, last) {
            Err(stop) => Err(stop),
            Ok(cell) => Ok(Some(cell)),
        },
    }
}

/// Lets a node take the value of its last part, where it lives and is a late work.
fn latch_one<N: Signals>(alloc: Global, nodes: &mut N, id: NodeId) -> Result<(), LatchStop>
    requires taken { (sites : Sites) → (N.way nodes.old sites).taken id.0 ≡ true }
    requires laters { (sites : Sites) → LatersLive (N.way nodes.old sites).graph }
    ensures latched { OnOk result ((sites : Sites) →
        Latched (N.way nodes.old sites) (N.way nodes.new sites) (id ∷ [])) }
    ensures refused { IfErr result (λ stop. (sites : Sites) →
        LatchRefused stop (N.way nodes.old sites).graph) }
    ensures eras { (x : ℕ) → N.has_era nodes.new x ≡ N.has_era nodes.old x }
{
    if !nodes.lives(id) {
        return Ok(());
    }
    if let Some(cell) = taken_by(alloc, nodes, id)? {
        nodes.latch(id, cell);
    }
    Ok(())
}

/// Lets each late work that lives take the value of its last part. `Bad` comes only where one refuses that value; after an
/// error it isn't told which have taken theirs.
pub fn latch_all<N: Signals>(alloc: Global, nodes: &mut N, late: &[NodeId]) -> Result<(), LatchStop>
    requires taken { (sites : Sites) × AreTaken (N.way nodes.old sites) late.now }
    requires laters { (sites : Sites) × LatersLive (N.way nodes.old sites).graph }
    ensures latched { OnOk result ((sites : Sites) →
        Latched (N.way nodes.old sites) (N.way nodes.new sites) late.now) }
    ensures refused { IfErr result (λ stop. (sites : Sites) →
        LatchRefused stop (N.way nodes.old sites).graph) }
    ensures eras { (x : ℕ) → N.has_era nodes.new x ≡ N.has_era nodes.old x }
{
    nodes.is_sound();
    for id in late {
        latch_one(alloc, nodes, *id)?;
    }
    Ok(())
}
