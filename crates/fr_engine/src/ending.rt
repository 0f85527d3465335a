//! Where an instant ends: what ended in it is buried.
ghost use Rattle.std.specs.Prelude.{◌≡◌, ℕ, List, IfErr, IfOk, OnOk};
ghost use Rattle.fr_core.specs.declared.lowered.LowItem.{LowItem};
ghost use Rattle.fr_graph.specs.Graph.{Graph};
ghost use Rattle.fr_graph.specs.Walk.{Plan};
ghost use Rattle.fr_way.specs.Way.{UnderWay};
ghost use Rattle.fr_queue.specs.Queue.{IsEmpty};
ghost use Rattle.fr_value.specs.declared.now.Now.{Now};
ghost use Rattle.fr_nodes.specs.Kinds.{Sites};
ghost use Rattle.fr_nodes.specs.Signals.{BuriesAll};
ghost use Rattle.fr_engine.specs.Notes.{AreLate, AreNoted, AreTaken};
ghost use Rattle.fr_engine.specs.Ending.{AreLiving, Closes, EndsWell};
ghost use Rattle.fr_engine.specs.Latching.{IsMemory, LatchRefused, LatersLive};

use crate::latching::latch_all;
use crate::setting::{Notes, note};
use fr_events::LatchStop;
use fr_nodes::Signals;
use fr_value::NodeId;
use fr_way::instants_end;
use std::alloc::{AllocError, Global};

/// Those among listed nodes that live. It fails only where there is no memory.
fn living<N: Signals>(alloc: Global, nodes: &N, ids: &[NodeId]) -> Result<Vec<NodeId>, AllocError>
    requires { (sites : Sites) → AreTaken (N.way nodes.now sites) ids.now }
    ensures { IfOk result (λ living. (sites : Sites) →
        AreLiving (N.way nodes.now sites).graph ids.now living.items) }
{
    let mut living = Vec::new(alloc);
    for id in ids {
        note(&mut living, *id, nodes.lives(*id))?;
    }
    Ok(living)
}

/// Buries what ended in an instant in which nothing is queued any more: of the late works and of the nodes that occur those stay listed that
/// live, and the numbers of all others are given up. It fails only where there is no memory.
fn bury_ended<N: Signals>(
    alloc: Global,
    nodes: &mut N,
    late: &mut Vec<NodeId>,
    wakes: &mut Vec<NodeId>,
) -> Result<(), AllocError>
    requires empty { (sites : Sites) × IsEmpty (N.way nodes.old sites).queued }
    requires late { (sites : Sites) × AreTaken (N.way nodes.old sites) late.old.items }
    requires wakes { (sites : Sites) × AreTaken (N.way nodes.old sites) wakes.old.items }
    ensures buries { OnOk result ((sites : Sites) →
        BuriesAll (N.way nodes.old sites) (N.way nodes.new sites)) }
    ensures late { OnOk result ((sites : Sites) → AreLiving (N.way nodes.old sites).graph
        late.old.items late.new.items) }
    ensures wakes { OnOk result ((sites : Sites) → AreLiving (N.way nodes.old sites).graph
        wakes.old.items wakes.new.items) }
    ensures eras { (x : ℕ) → N.has_era nodes.new x ≡ N.has_era nodes.old x }
{
    nodes.is_sound();
    let living_late = living(alloc, nodes, late.as_slice())?;
    let living_wakes = living(alloc, nodes, wakes.as_slice())?;
    *late = living_late;
    *wakes = living_wakes;
    nodes.bury();
    Ok(())
}

/// The same, with what stops it.
fn bury_noted<N: Signals>(
    alloc: Global,
    nodes: &mut N,
    notes: &mut Notes,
    late: &mut Vec<NodeId>,
) -> Result<(), LatchStop>
    requires empty { (sites : Sites) × IsEmpty (N.way nodes.old sites).queued }
    requires late { (sites : Sites) × AreTaken (N.way nodes.old sites) late.old.items }
    requires wakes { (sites : Sites) × AreTaken (N.way nodes.old sites) notes.old.wakes.items }
    ensures buries { OnOk result ((sites : Sites) →
        BuriesAll (N.way nodes.old sites) (N.way nodes.new sites)) }
    ensures late { OnOk result ((sites : Sites) → AreLiving (N.way nodes.old sites).graph
        late.old.items late.new.items) }
    ensures wakes { OnOk result ((sites : Sites) → AreLiving (N.way nodes.old sites).graph
        notes.old.wakes.items notes.new.wakes.items) }
    ensures changed { notes.new.changed.items ≡ notes.old.changed.items }
    ensures stops { IfErr result IsMemory }
    ensures eras { (x : ℕ) → N.has_era nodes.new x ≡ N.has_era nodes.old x }
{
    match bury_ended(alloc, nodes, late, &mut notes.wakes) {
        Err(e) => Err(LatchStop::Memory(e)),
        Ok(()) => Ok(()),
    }
}

/// The late works take the values of their last parts, and what ended is buried.
fn close<N: Signals>(
    alloc: Global,
    nodes: &mut N,
    notes: &mut Notes,
    late: &mut Vec<NodeId>,
) -> Result<(), LatchStop>
    requires empty { (sites : Sites) × IsEmpty (N.way nodes.old sites).queued }
    requires late { (sites : Sites) × AreTaken (N.way nodes.old sites) late.old.items }
    requires wakes { (sites : Sites) × AreTaken (N.way nodes.old sites) notes.old.wakes.items }
    requires laters { (sites : Sites) × LatersLive (N.way nodes.old sites).graph }
    ensures closes { OnOk result ((sites : Sites) → Closes (N.way nodes.old sites)
        (N.way nodes.new sites) notes.old notes.new late.old.items late.new.items) }
    ensures refused { IfErr result (λ stop. (sites : Sites) →
        LatchRefused stop (N.way nodes.old sites).graph) }
    ensures eras { (x : ℕ) → N.has_era nodes.new x ≡ N.has_era nodes.old x }
{
    match latch_all(alloc, nodes, late.as_slice()) {
        Err(stop) => Err(stop),
        Ok(()) => bury_noted(alloc, nodes, notes, late),
    }
}

/// Ends an instant in which nothing is queued any more: each late work takes the value of its last part, the numbers of the
/// nodes that ended are given up, and of those that are noted and listed the ones stay that live.
///
/// `Bad` comes only where a late work refuses the value of its last part. After an error the graph is of no use.
pub fn end_instant<N: Signals>(
    alloc: Global,
    nodes: &mut N,
    notes: &mut Notes,
    late: &mut Vec<NodeId>,
) -> Result<(), LatchStop>
    requires empty { (sites : Sites) × IsEmpty (N.way nodes.old sites).queued }
    requires late { (sites : Sites) × AreTaken (N.way nodes.old sites) late.old.items }
    requires wakes { (sites : Sites) × AreTaken (N.way nodes.old sites) notes.old.wakes.items }
    requires laters { (sites : Sites) × LatersLive (N.way nodes.old sites).graph }
    ensures ends { OnOk result ((sites : Sites) (p : Plan) (is : List LowItem) (ms : List ℕ)
        (sources : List Now) (old : Graph) → UnderWay p is ms sources old (N.way nodes.old sites) →
        IsEmpty (N.way nodes.old sites).queued →
        AreNoted old (N.way nodes.old sites) notes.old.wakes.items notes.old.changed.items →
        AreLate (N.way nodes.old sites) late.old.items →
        EndsWell p is ms sources old (N.way nodes.old sites) (N.way nodes.new sites) notes.new
        late.new.items) }
    ensures refused { IfErr result (λ stop. (sites : Sites) →
        LatchRefused stop (N.way nodes.old sites).graph) }
    ensures eras { (x : ℕ) → N.has_era nodes.new x ≡ N.has_era nodes.old x }
{
    instants_end();
    close(alloc, nodes, notes, late)
}
