//! The turning of a watch: its era ends, the choice of its key is built in it, and its result reads what stands for that.
ghost use Rattle.std.specs.Prelude.{◌≡◌, ℕ, true, List, IfOk, IfErr, OnOk};
ghost use Rattle.std.specs.Option.{option_map};
ghost use Rattle.fr_value.specs.declared.now.Now.{Now};
ghost use Rattle.fr_events.specs.Works.{cell_of};
ghost use Rattle.fr_nodes.specs.Kinds.{Sites, part_of};
ghost use Rattle.fr_store.specs.Nodes.{is_watch};
ghost use Rattle.fr_store.specs.declared.node.NodeKind.TheVariants as kind;
ghost use Rattle.fr_way.specs.Fronts.{ErrsAt};
ghost use Rattle.fr_way.specs.Way.{Way};
ghost use Rattle.fr_engine.specs.Moment.{Moment};
ghost use Rattle.fr_engine.specs.Stops.{StopsWhere};
ghost use Rattle.fr_engine.specs.Turning.{CanLead, CanRenew, CanTurn, FailsToRenew, HasTurned, Leads, Renews};

use crate::choices::Choices;
use crate::stops::RunStop;
use fr_events::Stepped;
use fr_kernel::{Fuel, Machine};
use fr_nodes::Signals;
use fr_store::{Node, NodeKind};
use fr_value::{Held, NodeId, SiteId};
use sqlite_items::Items;
use std::alloc::{AllocError, Global};

/// Where a switch stands, and over what.
#[derive(Drop)]
struct Place {
    site: SiteId,
    held: Items<Held>,
    nest: u32,
}

/// A part, with one more owner of its value.
fn shared(held: &Held) -> Result<Held, AllocError>
    ensures { IfOk result (λ h. h ≡ held.now) }
{
    match held {
        Held::Steady(value) => Ok(Held::Steady(value.share()?)),
        Held::Signal(id) => Ok(Held::Signal(*id)),
    }
}

/// Parts, with one more owner of each value.
fn all_shared(alloc: Global, held: &[Held]) -> Result<Items<Held>, AllocError>
    ensures { IfOk result (λ items. items ≡ held.now) }
{
    let mut items = Items::new(alloc);
    for part in held {
        items.push(shared(part)?)?;
    }
    Ok(items)
}

/// The place of the switch that a node is the watch of.
fn place_of(alloc: Global, node: &Node) -> Result<Place, AllocError>
    requires { is_watch node.now.kind ≡ true }
    ensures kind { IfOk result (λ place. node.now.kind ≡ kind.IfWatch place.site place.held) }
    ensures nest { IfOk result (λ place. place.nest ≡ node.now.nest) }
{
    match &node.kind {
        NodeKind::IfWatch(site, held) => Ok(Place {
            site: *site,
            held: all_shared(alloc, held.as_slice())?,
            nest: node.nest,
        }),
        _ => unreachable!(),
    }
}

/// Ends the era of a watch and builds the choice of a key in it.
fn renew<N: Signals, C: Choices<N>>(
    nodes: &mut N,
    choices: &C,
    watch: NodeId,
    holds: bool,
    machine: &mut Machine,
    fuel: &mut Fuel,
    late: &mut Vec<NodeId>,
) -> Result<Held, RunStop>
    requires { CanRenew (C.can choices.now) (C.many choices.now) (N.way nodes.old (C.sites choices.now)) watch.0 }
    ensures renews { IfOk result (λ part. Renews (C.can choices.now) (C.plan choices.now)
        (N.way nodes.old (C.sites choices.now)) (N.way nodes.new (C.sites choices.now)) watch.0
        holds (part_of part) late.old.items late.new.items) }
    ensures stops { IfErr result (λ stop. StopsWhere stop (FailsToRenew (C.plan choices.now)
        (N.way nodes.old (C.sites choices.now)).graph watch.0 holds)) }
{
    nodes.is_sound();
    let place = place_of(choices.alloc(), nodes.node(watch))?;
    let era = nodes.renew(watch)?;
    let held = place.held.as_slice();
    let part = choices.build(
        nodes, place.site, holds, held, watch, era, place.nest, machine, fuel, late,
    )?;
    Ok(part)
}

/// Makes a node read a part, and raises heights until every edge leads upwards.
fn lead<N: Signals>(nodes: &mut N, id: NodeId, part: Held) -> Result<(), AllocError>
    requires { (sites : Sites) × ((h : ℕ) × CanLead h (N.way nodes.old sites) id.0 (part_of part)) }
    ensures { OnOk result ((sites : Sites) (h : ℕ) → CanLead h (N.way nodes.old sites) id.0 (part_of part)
        → Leads h (N.way nodes.old sites) (N.way nodes.new sites) id.0 (part_of part)) }
{
    nodes.is_sound();
    match part {
        Held::Steady(value) => {
            nodes.rewire(id, Held::Steady(value));
            Ok(())
        }
        Held::Signal(from) => {
            nodes.rewire(id, Held::Signal(from));
            nodes.is_sound();
            nodes.raise(from)?;
            Ok(())
        }
    }
}

/// Writes the value of a watch that was taken, which has come to another key than it had or to its first, builds the choice
/// of the key in its era, which ends before, and queues its result, which reads what stands for the choice.
///
/// `Bad` comes only where the building of the choice fails. After an error the graph is of no use.
pub fn turn<N: Signals, C: Choices<N>>(
    nodes: &mut N,
    choices: &C,
    watch: NodeId,
    computed: Stepped,
    holds: bool,
    machine: &mut Machine,
    fuel: &mut Fuel,
    late: &mut Vec<NodeId>,
) -> Result<(), RunStop>
    requires { (t : Moment) × ((sources : List Now) × ((at : Way) × CanTurn (C.can choices.now)
        (C.plan choices.now) (C.many choices.now) sources t at (N.way nodes.old (C.sites choices.now))
        watch.0 computed.value (option_map cell_of computed.cell) holds)) }
    ensures turned { OnOk result ((t : Moment) (sources : List Now) (at : Way)
        → CanTurn (C.can choices.now) (C.plan choices.now) (C.many choices.now) sources t at
        (N.way nodes.old (C.sites choices.now)) watch.0 computed.value
        (option_map cell_of computed.cell) holds
        → HasTurned (C.can choices.now) (C.plan choices.now) sources t.old at
        (N.way nodes.new (C.sites choices.now)) watch.0 late.old.items late.new.items) }
    ensures stops { IfErr result (λ stop. StopsWhere stop ((t : Moment) (sources : List Now) (at : Way)
        (can : CanTurn (C.can choices.now) (C.plan choices.now) (C.many choices.now) sources t at
        (N.way nodes.old (C.sites choices.now)) watch.0 computed.value (option_map cell_of computed.cell) holds)
        → ErrsAt at can.takes.height (C.plan choices.now) t.old watch.0)) }
{
    nodes.is_sound();
    nodes.set(watch, computed.value, computed.cell);
    nodes.is_sound();
    let id = nodes.result_of(watch);
    let part = renew(nodes, choices, watch, holds, machine, fuel, late)?;
    nodes.is_sound();
    lead(nodes, id, part)?;
    nodes.is_sound();
    nodes.queue(id)?;
    Ok(())
}
