//! The running of an instant: nodes are taken by least height and dealt with until nothing is queued.
ghost use Rattle.std.specs.Prelude.{◌≡◌, ℕ, IfErr, OnOk};
ghost use Rattle.fr_nodes.specs.Kinds.{Sites};
ghost use Rattle.fr_nodes.specs.Signals.{Lives, TakesOut};
ghost use Rattle.fr_way.specs.Way.{Way};
ghost use Rattle.fr_engine.specs.Moment.{Moment};
ghost use Rattle.fr_engine.specs.Running.{CanDeal, ErrsOnTheWay, HasKey, HasRun, IsOnItsWay, NotesChange, run_stop, Steps, TurnsBy};
ghost use Rattle.fr_engine.specs.Stops.{StopsWhere};

use crate::choices::Choices;
use crate::computing::compute;
use crate::keys::{keeps_key, key_of};
use crate::setting::{Notes, settle};
use crate::stops::RunStop;
use crate::turning::turn;
use fr_events::Stepped;
use fr_kernel::{Fuel, KernStop, Machine};
use fr_nodes::Signals;
use fr_value::{NodeId, Now};
use std::alloc::AllocError;

/// A kernel's stop as one of the whole.
fn stop_of(stop: KernStop) -> RunStop
    ensures { result ≡ run_stop stop }
{
    match stop {
        KernStop::Memory(e) => RunStop::Memory(e),
        KernStop::Bad(bad) => RunStop::Bad(bad),
        KernStop::Fuel => RunStop::Fuel,
    }
}

/// Notes that a node has another value.
fn note_change(notes: &mut Notes, id: NodeId) -> Result<(), AllocError>
    ensures { OnOk result (NotesChange notes.old notes.new id.0) }
{
    notes.changed.push(id)?;
    Ok(())
}

/// The key by which a node turns, if it is a watch and that isn't the key by which it chose before.
fn turning_key<N: Signals>(nodes: &N, id: NodeId, value: &Now) -> Option<bool>
    requires there { Lives (N.way nodes.now) id.0 }
    requires key { (sites : Sites) × HasKey (N.way nodes.now sites).graph id.0 value.now }
    ensures { (sites : Sites) → TurnsBy result (N.way nodes.now sites).graph id.0 value.now }
{
    nodes.is_sound();
    if !nodes.node(id).kind.is_watch() || keeps_key(nodes, id, value) {
        return None;
    }
    match key_of(value) {
        Ok(holds) => Some(holds),
        Err(_) => unreachable!(),
    }
}

/// Writes what a node that was taken has come to: a watch with another key turns.
fn deal<N: Signals, C: Choices<N>>(
    nodes: &mut N,
    choices: &C,
    id: NodeId,
    sources: &[Now],
    computed: Stepped,
    machine: &mut Machine,
    fuel: &mut Fuel,
    notes: &mut Notes,
    late: &mut Vec<NodeId>,
) -> Result<(), RunStop>
    requires { (t : Moment) × ((at : Way) × CanDeal (C.can choices.now) (C.plan choices.now)
        (C.many choices.now) sources.now t at (N.way nodes.old (C.sites choices.now)) id.0 notes.old
        late.old.items computed) }
    ensures steps { OnOk result ((t : Moment) (at : Way) → CanDeal (C.can choices.now)
        (C.plan choices.now) (C.many choices.now) sources.now t at
        (N.way nodes.old (C.sites choices.now)) id.0 notes.old late.old.items computed
        → Steps (C.can choices.now) (C.plan choices.now) (C.many choices.now) sources.now t at
        (N.way nodes.new (C.sites choices.now)) id.0 notes.new late.new.items) }
    ensures stops { IfErr result (λ stop. StopsWhere stop ((t : Moment) (at : Way)
        → CanDeal (C.can choices.now) (C.plan choices.now) (C.many choices.now) sources.now t at
        (N.way nodes.old (C.sites choices.now)) id.0 notes.old late.old.items computed
        → ErrsOnTheWay (C.plan choices.now) sources.now t)) }
{
    nodes.is_sound();
    match turning_key(nodes, id, &computed.value) {
        Some(holds) => {
            note_change(notes, id)?;
            turn(nodes, choices, id, computed, holds, machine, fuel, late)?;
            Ok(())
        }
        None => {
            settle(nodes, id, computed, notes)?;
            Ok(())
        }
    }
}

/// Computes a node that was taken, and writes what it has come to.
fn step<N: Signals, C: Choices<N>>(
    nodes: &mut N,
    choices: &C,
    id: NodeId,
    sources: &[Now],
    machine: &mut Machine,
    fuel: &mut Fuel,
    notes: &mut Notes,
    late: &mut Vec<NodeId>,
) -> Result<(), RunStop>
    requires { (t : Moment) × ((at : Way) × (IsOnItsWay (C.can choices.now) (C.plan choices.now)
        (C.many choices.now) sources.now t at notes.old late.old.items
        × TakesOut at (N.way nodes.old (C.sites choices.now)) id.0)) }
    ensures steps { OnOk result ((t : Moment) (at : Way) → IsOnItsWay (C.can choices.now)
        (C.plan choices.now) (C.many choices.now) sources.now t at notes.old late.old.items
        → TakesOut at (N.way nodes.old (C.sites choices.now)) id.0
        → Steps (C.can choices.now) (C.plan choices.now) (C.many choices.now) sources.now t at
        (N.way nodes.new (C.sites choices.now)) id.0 notes.new late.new.items) }
    ensures stops { IfErr result (λ stop. StopsWhere stop ((t : Moment) (at : Way)
        → IsOnItsWay (C.can choices.now) (C.plan choices.now) (C.many choices.now) sources.now t at
        notes.old late.old.items → TakesOut at (N.way nodes.old (C.sites choices.now)) id.0
        → ErrsOnTheWay (C.plan choices.now) sources.now t)) }
{
    nodes.is_sound();
    let table = choices.table();
    match compute(choices.alloc(), nodes, id, sources, table, machine, fuel) {
        Err(stop) => Err(stop_of(stop)),
        Ok(computed) => {
            deal(
                nodes, choices, id, sources, computed, machine, fuel, notes, late,
            )?;
            Ok(())
        }
    }
}

/// Runs an instant that is under way: each queued node is taken by least height and computed, until nothing is queued. Nodes
/// that occur or have another value are noted, and new works that take their last part's value behind the instant are listed.
///
/// `Bad` comes only where a node that was taken errs, `Fuel` only where more would be spent than was left, and `TooMany` only
/// where as many numbers are in use as the limit. After an error the graph is of no use.
pub fn run<N: Signals, C: Choices<N>>(
    nodes: &mut N,
    choices: &C,
    sources: &[Now],
    machine: &mut Machine,
    fuel: &mut Fuel,
    notes: &mut Notes,
    late: &mut Vec<NodeId>,
) -> Result<(), RunStop>
    requires { (t : Moment) × IsOnItsWay (C.can choices.now) (C.plan choices.now)
        (C.many choices.now) sources.now t (N.way nodes.old (C.sites choices.now)) notes.old
        late.old.items }
    ensures runs { OnOk result ((t : Moment) → IsOnItsWay (C.can choices.now)
        (C.plan choices.now) (C.many choices.now) sources.now t
        (N.way nodes.old (C.sites choices.now)) notes.old late.old.items
        → HasRun (C.can choices.now) (C.plan choices.now) (C.many choices.now) sources.now t
        (N.way nodes.new (C.sites choices.now)) notes.new late.new.items) }
    ensures stops { IfErr result (λ stop. StopsWhere stop ((t : Moment) → IsOnItsWay
        (C.can choices.now) (C.plan choices.now) (C.many choices.now) sources.now t
        (N.way nodes.old (C.sites choices.now)) notes.old late.old.items
        → ErrsOnTheWay (C.plan choices.now) sources.now t)) }
{
    'taking: loop {
        nodes.is_sound();
        let Some(id) = nodes.take() else {
            return Ok(());
        };
        step(nodes, choices, id, sources, machine, fuel, notes, late)?;
    }
}
