//! What becomes of the agenda and the eras, apart from a world.
ghost use Rattle.std.specs.Prelude.{◌≡◌, ℕ, ◌+◌, ◌++◌, false, OnOk, IsSome, IsTrue};
ghost use Rattle.fr_store.specs.Nodes.{AreDependents, dependents_at, node_at};
ghost use Rattle.fr_eras.specs.Heights.{AreEarlier, AreQueuedRight, AreThere};
ghost use Rattle.fr_eras.specs.Lives.{is_era, members};
ghost use Rattle.fr_eras.specs.Order.{nodes_of};
ghost use Rattle.fr_world.specs.Calls.{Ends, QueuesAll, QueuesOne, late_among};
ghost use Rattle.fr_world.specs.World.{AreQueued};

use fr_eras::Eras;
use fr_events::is_late;
use fr_queue::Agenda;
use fr_store::Store;
use fr_value::{EraId, NodeId};
use std::alloc::AllocError;

/// Queues a node at its height, if it lives and isn't queued.
pub(crate) fn queue_one<A: Agenda>(
    store: &Store,
    eras: &Eras,
    agenda: &mut A,
    id: NodeId,
) -> Result<(), AllocError>
    requires there { IsSome (node_at store.now id.0) }
    requires right { AreQueuedRight (A.queued agenda.old) store.now }
    ensures { OnOk result (QueuesOne store.now eras.now (A.queued agenda.old) (A.queued agenda.new) id.0) }
{
    if eras.in_grave(id) {
        return Ok(());
    }
    if agenda.has(id) {
        return Ok(());
    }
    let height = store.node(id).height;
    agenda.add(id, height)
}

/// Queues every live node that reads this one.
pub(crate) fn queue_all<A: Agenda>(
    store: &Store,
    eras: &Eras,
    agenda: &mut A,
    id: NodeId,
) -> Result<(), AllocError>
    requires there { IsSome (node_at store.now id.0) }
    requires queue { AreQueued store.now eras.now (A.queued agenda.old) }
    ensures queues { OnOk result (QueuesAll store.now eras.now (A.queued agenda.old) (A.queued agenda.new) (dependents_at store.now id.0)) }
    ensures exact { AreDependents store.now id.0 (dependents_at store.now id.0) }
{
    let mut at = store.first_dependent(id);
    while let Some(edge) = at {
        queue_one(store, eras, agenda, store.edge_node(edge))?;
        at = store.next_dependent(edge);
    }
    Ok(())
}

/// Ends the era of a node with all eras inside, where it has one.
pub(crate) fn end_owned<A: Agenda>(store: &Store, eras: &mut Eras, agenda: &mut A, owner: NodeId)
    requires there { AreThere eras.old store.now }
    requires earlier { AreEarlier eras.old store.now (owner.0 + 1) }
    ensures ends { Ends eras.old eras.new (A.queued agenda.old) (A.queued agenda.new) (owner.0 + 1) }
    ensures gone { is_era eras.new (owner.0 + 1) ≡ false }
{
    if let Some(era) = eras.owned(owner) {
        eras.kill(era, store, agenda);
    }
}

/// Lists those members of an era that take their last part's value behind the instant, behind what was listed.
pub(crate) fn list_late_members(
    store: &Store,
    eras: &Eras,
    era: EraId,
    late: &mut Vec<NodeId>,
) -> Result<(), AllocError>
    requires there { AreThere eras.now store.now }
    requires era { IsTrue (is_era eras.now era.0) }
    ensures { OnOk result (late.new.items ≡ late.old.items ++ late_among store.now (nodes_of (members eras.now era.0))) }
{
    for id in eras.in_order(era) {
        if is_late(&store.node(id).kind) {
            late.push(id)?;
        }
    }
    Ok(())
}
