//! A program's graph as it begins: built behind the nodes of its sources, and run over instant 0.
ghost use Rattle.std.specs.Prelude.{◌≡◌, ◌+◌, ℕ, [], IfOk, IfErr, IsTrue};
ghost use Rattle.fr_core.specs.WellFormed.{IsWellFormed, last_source};
ghost use Rattle.fr_eras.specs.Lives.{is_era};
ghost use Rattle.fr_graph.specs.Items.{AreLowered};
ghost use Rattle.fr_meaning.specs.Afresh.{beginning, first_instant as inputs_at_first, instant as instant_after};
ghost use Rattle.fr_nodes.specs.Kinds.{Sites, parts_of};
ghost use Rattle.fr_queue.specs.Tree.{heights_in};
ghost use Rattle.fr_ready.specs.Planning.{IsLoweredFrom, ItemsReady};
ghost use Rattle.fr_ready.specs.Ready.{IsPlanReady, PlanMatches, plan_of};
ghost use Rattle.fr_ready.specs.Switches.{ItemsMatch, sites_by};
ghost use Rattle.fr_world.specs.Calls.{HasSources};
ghost use Rattle.fr_world.specs.World.{way_by, way_of};
ghost use Rattle.fr_engine.specs.Stops.{StopsWhere};
ghost use Rattle.fr_switch.specs.Fit.{IsBuildable};
ghost use Rattle.fr_switch.specs.Stops.{stop_of as building_stop};
ghost use Rattle.fr_run.specs.Standing.{WasBegun};
ghost use Rattle.fr_runtime.specs.States.{CannotBuild, ComesTo, DoesErr, IsUp, IsUpFor, ShowsState};

use crate::engine::Engine;
use crate::evaluator::{GraphEvaluator, most_fuel, stand_behind, stop_of};
use crate::kinds::source_kinds;
use fr_build::{BuildStop, Plan, Runner, build_items};
use fr_core::{LowItem, Lowered, Program};
use fr_engine::{Choices, Notes, RunStop, first_instant};
use fr_graph::failing_to_build_is_an_error;
use fr_kernel::{KernTable, Machine};
use fr_nodes::Signals;
use fr_queue::TreeAgenda;
use fr_ready::{
    ChoicesAt, choices_are_those_of_the_switches, count_sources, what_is_lowered_can_be_built,
};
use fr_run::InstantStop;
use fr_sources::Sources;
use fr_start::{a_body_can_be_built_behind_sources, what_a_body_begins_with};
use fr_store::MakeStop;
use fr_switch::{ProgramChoices, what_stands_is_fit};
use fr_value::{EraId, Held, NodeId};
use fr_world::World;
use sqlite_items::Items;
use std::alloc::{AllocError, Global};

/// The most nodes of a graph.
const MOST_NODES: u32 = 4_194_304;

/// Why nodes were not made, as why an instant doesn't come to its end.
fn stop_in_building(stop: BuildStop) -> RunStop
    ensures { result ≡ building_stop stop }
{
    match stop {
        BuildStop::Memory(e) => RunStop::Memory(e),
        BuildStop::Bad(bad) => RunStop::Bad(bad),
        BuildStop::Fuel => RunStop::Fuel,
        BuildStop::TooMany => RunStop::TooMany,
    }
}

/// Makes the nodes of a body behind those of the sources, lists the late works among them, and gives what stands for each
/// show.
fn build_up<N: Signals>(
    plan: &Plan<'_>,
    items: &[LowItem],
    nodes: &mut N,
    late: &mut Vec<NodeId>,
) -> Result<Items<Held>, RunStop>
    requires plan { IsPlanReady plan.now }
    requires ready { ItemsReady plan.now 0 items.now }
    requires sources { (sites : Sites) → HasSources (N.way nodes.old sites) plan.now.sources }
    requires era { IsTrue (N.has_era nodes.old 0) }
    requires none { late.old.items ≡ [] }
    ensures up { IfOk result (λ parts. (sites : Sites) → PlanMatches sites plan.now
        → ItemsMatch sites 0 items.now → IsUp (IsBuildable plan.now sites) (plan_of plan.now)
        plan.now.sources items.now (parts_of parts) late.new.items (N.way nodes.new sites)) }
    ensures stops { IfErr result (λ stop. StopsWhere stop (CannotBuild plan.now items.now)) }
{
    a_body_can_be_built_behind_sources();
    what_a_body_begins_with();
    what_stands_is_fit();
    let mut runner = Runner {
        machine: Machine::new(plan.alloc()),
        fuel: most_fuel(),
    };
    let parts = match build_items(plan, items, &mut runner, nodes) {
        Ok(parts) => parts,
        Err(stop) => return Err(stop_in_building(stop)),
    };
    nodes.list_late(EraId(0), late)?;
    Ok(parts)
}

/// Runs instant 0 over a program's graph that was built. `Bad` comes only where that errs.
fn first<N: Signals + Drop, C: Choices<N>>(
    alloc: Global,
    program: &Program,
    choices: &C,
    mut nodes: N,
    parts: Items<Held>,
    mut late: Vec<NodeId>,
) -> Result<Engine<N>, RunStop>
    requires well_formed { IsWellFormed program.now }
    requires up { IsUpFor (C.can choices.now) program.now (C.plan choices.now) (C.many choices.now)
        (parts_of parts) late.items (N.way nodes (C.sites choices.now)) }
    ensures ok { IfOk result (λ e. ComesTo (C.can choices.now) program.now (C.plan choices.now)
        (C.many choices.now) e.sources (parts_of e.parts) e.notes.wakes.items e.late.items
        (N.way e.nodes (C.sites choices.now))
        (instant_after program.now (beginning program.now) inputs_at_first)) }
    ensures err { IfErr result (λ stop. StopsWhere stop
        (DoesErr (instant_after program.now (beginning program.now) inputs_at_first))) }
{
    let sources = Sources::first(alloc, program)?;
    let mut machine = Machine::new(alloc);
    let mut notes = Notes {
        wakes: Vec::new(alloc),
        changed: Vec::new(alloc),
    };
    let mut fuel = most_fuel();
    first_instant(
        &mut nodes,
        choices,
        sources.values(),
        &mut machine,
        &mut fuel,
        &mut notes,
        &mut late,
    )?;
    Ok(Engine {
        alloc,
        nodes,
        machine,
        sources,
        parts,
        notes,
        late,
    })
}

/// Builds the graph of a program behind the nodes of its sources, and runs instant 0. It fails with `Errs` only where that
/// errs, and is never Ok there; with `Memory` where there is no memory.
fn start_over<'a, N: Signals + Drop>(
    alloc: Global,
    program: &'a Program,
    items: &[LowItem],
    plan: Plan<'a>,
    found: ChoicesAt<'a>,
    mut nodes: N,
) -> Result<GraphEvaluator<'a, N, ProgramChoices<'a>>, InstantStop>
    requires well_formed { IsWellFormed program.now }
    requires lowered { AreLowered program.now (plan_of plan) items.now }
    requires counted { plan.sources ≡ last_source program.now + 1 }
    requires plan { IsPlanReady plan }
    requires matches { PlanMatches (sites_by found) plan }
    requires ready { ItemsReady plan 0 items.now }
    requires items { ItemsMatch (sites_by found) 0 items.now }
    requires sources { (sites : Sites) → HasSources (N.way nodes sites) plan.sources }
    requires era { IsTrue (N.has_era nodes 0) }
    ensures { WasBegun (λ e s. ShowsState (IsBuildable e.choices.planned (sites_by e.choices.found))
        e.program.now (plan_of e.choices.planned) e.choices.planned.sources e.engine.sources
        (parts_of e.engine.parts) e.engine.notes.wakes.items e.engine.late.items
        (N.way e.engine.nodes (sites_by e.choices.found)) e.shown.items s)
        (λ e. record { program = e.program.now; shown = e.shown.items; changed = e.changed.items })
        program.now result }
{
    failing_to_build_is_an_error();
    let mut late = Vec::new(alloc);
    let parts = match build_up(&plan, items, &mut nodes, &mut late) {
        Ok(parts) => parts,
        Err(stop) => return Err(stop_of(stop)),
    };
    let choices = ProgramChoices::of(plan, found);
    match first(alloc, program, &choices, nodes, parts, late) {
        Ok(engine) => stand_behind(alloc, program, choices, engine),
        Err(stop) => Err(stop_of(stop)),
    }
}

/// A graph with the nodes of a program's sources alone.
fn world_of(alloc: Global, lowered: &Lowered, many: u32) -> Result<World<TreeAgenda>, AllocError>
    ensures sources { IfOk result (λ w. (sites : Sites) →
        HasSources (way_by w.whole (way_of sites w.store w.eras (heights_in w.agenda) w.instant)) many) }
    ensures eras { IfOk result (λ w. IsTrue (is_era w.eras 0)) }
{
    let kinds = source_kinds(alloc, lowered, many)?;
    match World::with_sources(alloc, TreeAgenda::new(alloc), MOST_NODES, &kinds) {
        Ok(world) => Ok(world),
        Err(MakeStop::Memory(e)) => Err(e),
        Err(MakeStop::TooMany) => Err(AllocError),
    }
}

/// Builds the graph of a lowered program and runs instant 0. It fails with `Errs` only where that instant errs, and is never
/// Ok there; with `Memory` where there is no memory, or where more than 4,194,304 nodes would live. After an error nothing
/// is left to go on with.
pub fn start<'a>(
    alloc: Global,
    program: &'a Program,
    lowered: &'a Lowered,
    table: &'a KernTable,
) -> Result<GraphEvaluator<'a, World<TreeAgenda>, ProgramChoices<'a>>, InstantStop>
    requires well_formed { IsWellFormed program.now }
    requires lowered { IsLoweredFrom program.now lowered.now table.now }
    ensures { WasBegun (λ e s. ShowsState (IsBuildable e.choices.planned (sites_by e.choices.found))
        e.program.now (plan_of e.choices.planned) e.choices.planned.sources e.engine.sources
        (parts_of e.engine.parts) e.engine.notes.wakes.items e.engine.late.items
        (way_by e.engine.nodes.whole (way_of (sites_by e.choices.found) e.engine.nodes.store
        e.engine.nodes.eras (heights_in e.engine.nodes.agenda) e.engine.nodes.instant)) e.shown.items s)
        (λ e. record { program = e.program.now; shown = e.shown.items; changed = e.changed.items })
        program.now result }
{
    what_is_lowered_can_be_built();
    choices_are_those_of_the_switches();
    let Some(many) = count_sources(lowered) else {
        return Err(InstantStop::Memory(AllocError));
    };
    let plan = Plan::of(alloc, lowered.functions.as_slice(), table, many);
    let found = ChoicesAt::of(alloc, lowered)?;
    let world = world_of(alloc, lowered, many)?;
    start_over(alloc, program, lowered.body.as_slice(), plan, found, world)
}
