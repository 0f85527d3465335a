// A chain of nodes, each the next member of the program's era, and its raising. `bench/graph_parts` takes it too.
ghost use Rattle.std.specs.Prelude.{◌≡◌, ◌+◌, ◌^◌, ◌<◌, ◌≤◌, IfOk, OnOk, length};
ghost use Rattle.fr_queue.specs.Queue.{IsEmpty};
ghost use Rattle.fr_queue.specs.Tree.{heights_in};
ghost use Rattle.fr_tests.specs.Chains.{IsChain, ReadsBefore};

use fr_eras::Eras;
use fr_queue::TreeAgenda;
use fr_store::{MakeStop, NodeKind, Store};
use fr_value::{EraId, Held, NodeId};
use std::alloc::AllocError;

/// Makes the next node of a chain.
pub(crate) fn add_node(
    eras: &mut Eras,
    store: &mut Store,
    kind: NodeKind,
    inputs: &[Held],
) -> Result<NodeId, MakeStop>
    requires chain { IsChain eras.old store.old }
    requires before { ReadsBefore (length store.old.nodes) inputs.now }
    ensures chain { OnOk result (IsChain eras.new store.new) }
    ensures number { IfOk result (λ id. id.0 ≡ length store.old.nodes) }
    ensures longer { OnOk result (length store.new.nodes ≡ length store.old.nodes + 1) }
{
    let nodes = store.count();
    let id = store.make(kind, inputs, EraId(0), nodes as u128, 1, 0)?;
    eras.join(EraId(0), id)?;
    Ok(id)
}

/// Lifts the first node of a chain to a height, and raises all that stands above it.
pub(crate) fn lift_first(
    eras: &mut Eras,
    store: &mut Store,
    agenda: &mut TreeAgenda,
    height: u128,
) -> Result<(), AllocError>
    requires chain { IsChain eras.old store.old }
    requires some { 0 < length store.old.nodes }
    requires empty { IsEmpty (heights_in agenda.old) }
    requires mild { height ≤ 2 ^ 100 }
{
    store.lift(NodeId(0), height);
    eras.raise_from(NodeId(0), store, agenda)
}
