//! The writing of what a node has come to.
ghost use Rattle.std.specs.Prelude.{◌≡◌, ◌↔◌, ◌||◌, not, ℕ, List, Ok, OnOk, IsTrue};
ghost use Rattle.std.specs.Option.{option_map};
ghost use Rattle.fr_events.specs.Works.{cell_of};
ghost use Rattle.fr_way.specs.Frame.{occurs_now as occurs_in};
ghost use Rattle.fr_nodes.specs.Kinds.{Sites};
ghost use Rattle.fr_nodes.specs.Signals.{Lives};
ghost use Rattle.fr_engine.specs.Notes.{Lists, NotesNode, Settles, Wakes};

use fr_events::Stepped;
use fr_nodes::Signals;
use fr_value::{NodeId, Now, same};
use std::alloc::AllocError;

/// What an instant notes of the nodes that it computes.
#[derive(Drop)]
pub struct Notes {
    /// Those that occur, which are computed again at the next instant.
    pub wakes: Vec<NodeId>,
    /// Those that have another value than before.
    pub changed: Vec<NodeId>,
}

/// Whether a value is an occurrence.
fn occurs_now(value: &Now) -> bool
    ensures { occurs_in (Ok value.now) ≡ result }
{
    match value {
        Now::Plain(_) => false,
        Now::Occ(None) => false,
        Now::Occ(Some(_)) => true,
    }
}

/// Whether two values are the same.
pub(crate) fn same_now(a: &Now, b: &Now) -> bool
    ensures { IsTrue result ↔ (a.now ≡ b.now) }
{
    match (a, b) {
        (Now::Plain(x), Now::Plain(y)) => same(x, y),
        (Now::Occ(None), Now::Occ(None)) => true,
        (Now::Occ(Some(x)), Now::Occ(Some(y))) => same(x, y),
        _ => false,
    }
}

/// Lists a node where that is asked for.
pub(crate) fn note(ids: &mut Vec<NodeId>, id: NodeId, needed: bool) -> Result<(), AllocError>
    ensures { OnOk result (Lists needed ids.old.items ids.new.items id.0) }
{
    if needed {
        ids.push(id)?;
    }
    Ok(())
}

/// Queues the readers of a node unless its value stayed and doesn't occur.
fn wake<N: Signals>(
    nodes: &mut N,
    id: NodeId,
    occurs: bool,
    differs: bool,
) -> Result<(), AllocError>
    requires { Lives (N.way nodes.old) id.0 }
    ensures wakes { OnOk result ((sites : Sites) →
        Wakes (occurs || differs) (N.way nodes.old sites) (N.way nodes.new sites) id.0) }
    ensures eras { (x : ℕ) → N.has_era nodes.new x ≡ N.has_era nodes.old x }
{
    if occurs || differs {
        nodes.queue_readers(id)?;
    }
    Ok(())
}

/// Writes what a node that was taken has come to, queues what reads it unless its value stayed and doesn't occur, and notes
/// that it occurs or has another value. It fails only where there is no memory.
pub fn settle<N: Signals>(
    nodes: &mut N,
    id: NodeId,
    computed: Stepped,
    notes: &mut Notes,
) -> Result<(), AllocError>
    requires { Lives (N.way nodes.old) id.0 }
    ensures settles { OnOk result ((sites : Sites) → Settles (N.way nodes.old sites)
        (N.way nodes.new sites) id.0 computed.value (option_map cell_of computed.cell)) }
    ensures noted { OnOk result ((sites : Sites) → NotesNode (N.way nodes.old sites) id.0
        computed.value notes.old notes.new) }
    ensures eras { (x : ℕ) → N.has_era nodes.new x ≡ N.has_era nodes.old x }
{
    let occurs = occurs_now(&computed.value);
    let differs = !same_now(&computed.value, &nodes.node(id).value);
    note(&mut notes.wakes, id, occurs)?;
    note(&mut notes.changed, id, differs)?;
    nodes.set(id, computed.value, computed.cell);
    wake(nodes, id, occurs, differs)
}
