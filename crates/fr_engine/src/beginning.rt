//! Where a further instant begins: what may change by itself is queued.
ghost use Rattle.std.specs.Prelude.{◌≡◌, ◌⊎◌, ◌<◌, ℕ, true, [], ◌∷◌, Ok, IsSome, IsTrue, OnOk, length};
ghost use Rattle.std.specs.Option.{option_map};
ghost use Rattle.fr_events.specs.Works.{cell_of};
ghost use Rattle.fr_way.specs.Ends.{shown_of};
ghost use Rattle.fr_way.specs.Loop.{Starts};
ghost use Rattle.fr_nodes.specs.Kinds.{Sites};
ghost use Rattle.fr_nodes.specs.Signals.{Lives};
ghost use Rattle.fr_engine.specs.Beginning.{AllLive, AreLive, HasNow, HaveSources, IsResting, KeptWoken, ListedWoken, SourcesWoken, Woken};

use crate::setting::same_now;
use fr_nodes::Signals;
use fr_store::{NodeCell, SeenCell};
use fr_value::{NodeId, Now, same};
use std::alloc::AllocError;

/// Whether a cell shows this value. A node without a cell shows nothing.
fn shows(cell: &NodeCell, value: &Now) -> bool
    ensures { result ≡ true → shown_of (option_map cell_of cell.now) ≡ Ok value.now }
{
    match (cell.get(), value) {
        (Some(SeenCell::Kept(kept)), Now::Plain(value)) => same(kept, value),
        (Some(SeenCell::Silent), Now::Occ(None)) => true,
        (Some(SeenCell::Payload(kept)), Now::Occ(Some(payload))) => same(kept, payload),
        _ => false,
    }
}

/// Queues a node where that is asked for.
fn queue_if<N: Signals>(nodes: &mut N, id: NodeId, needed: bool) -> Result<(), AllocError>
    requires { Lives (N.way nodes.old) id.0 }
    ensures woken { OnOk result ((sites : Sites) →
        Woken (N.way nodes.old sites) (N.way nodes.new sites)) }
    ensures queued { OnOk result (IsTrue needed → (sites : Sites) →
        IsSome ((N.way nodes.new sites).queued id.0)) }
    ensures eras { (x : ℕ) → N.has_era nodes.new x ≡ N.has_era nodes.old x }
{
    if needed {
        nodes.queue(id)?;
    }
    Ok(())
}

/// Queues the node of a source whose value changes.
fn wake_source<N: Signals>(nodes: &mut N, sources: &[Now], place: u32) -> Result<(), AllocError>
    requires place { place < length sources.now }
    requires there { Lives (N.way nodes.old) place }
    ensures woken { OnOk result ((sites : Sites) →
        Woken (N.way nodes.old sites) (N.way nodes.new sites)) }
    ensures queued { OnOk result ((sites : Sites) → IsSome ((N.way nodes.new sites).queued place)
        ⊎ HasNow (N.way nodes.old sites).graph sources.now place) }
    ensures eras { (x : ℕ) → N.has_era nodes.new x ≡ N.has_era nodes.old x }
{
    let id = NodeId(place);
    let changes = !same_now(&sources[place as usize], &nodes.node(id).value);
    queue_if(nodes, id, changes)
}

/// Queues a late work that shows another value than it keeps.
fn wake_late<N: Signals>(nodes: &mut N, id: NodeId) -> Result<(), AllocError>
    requires { Lives (N.way nodes.old) id.0 }
    ensures woken { OnOk result ((sites : Sites) →
        Woken (N.way nodes.old sites) (N.way nodes.new sites)) }
    ensures queued { OnOk result ((sites : Sites) → IsSome ((N.way nodes.new sites).queued id.0)
        ⊎ (shown_of ((N.way nodes.old sites).graph.cell id.0)
        ≡ (N.way nodes.old sites).graph.value id.0)) }
    ensures eras { (x : ℕ) → N.has_era nodes.new x ≡ N.has_era nodes.old x }
{
    let node = nodes.node(id);
    let changes = !shows(&node.cell, &node.value);
    queue_if(nodes, id, changes)
}

/// Queues the nodes of all sources whose values change.
fn wake_sources<N: Signals>(nodes: &mut N, sources: &[Now]) -> Result<(), AllocError>
    requires few { length sources.now < u32.MAX }
    requires there { (sites : Sites) →
        AllLive (length sources.now) (N.way nodes.old sites).graph }
    ensures woken { OnOk result ((sites : Sites) → SourcesWoken (N.way nodes.old sites)
        (N.way nodes.new sites) sources.now (length sources.now)) }
    ensures eras { (x : ℕ) → N.has_era nodes.new x ≡ N.has_era nodes.old x }
{
    for place in 0..sources.len() as u32 {
        wake_source(nodes, sources, place)?;
    }
    Ok(())
}

/// Queues all nodes that are listed.
fn wake_listed<N: Signals>(nodes: &mut N, wakes: &[NodeId]) -> Result<(), AllocError>
    requires { (sites : Sites) → AreLive (N.way nodes.old sites).graph wakes.now }
    ensures woken { OnOk result ((sites : Sites) →
        ListedWoken (N.way nodes.old sites) (N.way nodes.new sites) wakes.now) }
    ensures eras { (x : ℕ) → N.has_era nodes.new x ≡ N.has_era nodes.old x }
{
    for id in wakes {
        queue_if(nodes, *id, true)?;
    }
    Ok(())
}

/// Queues all late works that show other values than they keep.
fn wake_kept<N: Signals>(nodes: &mut N, late: &[NodeId]) -> Result<(), AllocError>
    requires { (sites : Sites) → AreLive (N.way nodes.old sites).graph late.now }
    ensures woken { OnOk result ((sites : Sites) →
        KeptWoken (N.way nodes.old sites) (N.way nodes.new sites) late.now) }
    ensures eras { (x : ℕ) → N.has_era nodes.new x ≡ N.has_era nodes.old x }
{
    for id in late {
        wake_late(nodes, *id)?;
    }
    Ok(())
}

/// Begins a further instant over a graph at rest: queues the sources whose values change, the nodes that occur, and the late
/// works that show other values than they keep. It fails only where there is no memory.
pub fn begin_instant<N: Signals>(
    nodes: &mut N,
    sources: &[Now],
    wakes: &[NodeId],
    late: &[NodeId],
) -> Result<(), AllocError>
    requires few { length sources.now < u32.MAX }
    requires there { (sites : Sites) ×
        AllLive (length sources.now) (N.way nodes.old sites).graph }
    requires wakes_live { (sites : Sites) × AreLive (N.way nodes.old sites).graph wakes.now }
    requires late_live { (sites : Sites) × AreLive (N.way nodes.old sites).graph late.now }
    ensures starts { OnOk result ((sites : Sites) →
        HaveSources (length sources.now) (N.way nodes.old sites).graph →
        IsResting (N.way nodes.old sites) wakes.now late.now →
        Starts sources.now (N.way nodes.old sites) (N.way nodes.new sites)) }
    ensures eras { (x : ℕ) → N.has_era nodes.new x ≡ N.has_era nodes.old x }
{
    nodes.is_sound();
    nodes.begin()?;
    wake_sources(nodes, sources)?;
    wake_listed(nodes, wakes)?;
    wake_kept(nodes, late)
}
