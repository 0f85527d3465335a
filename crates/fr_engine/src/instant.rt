//! An instant over a graph of signals as one call: the first one over a graph that was built, and each further one over a
//! graph at rest.
ghost use Rattle.std.specs.Prelude.{◌≡◌, ◌≢◌, ◌⊎◌, ◌<◌, ℕ, true, false, List, [], Option, IfErr, OnOk, length};
ghost use Rattle.fr_value.specs.declared.now.Now.{Now};
ghost use Rattle.fr_core.specs.declared.kept.Kept.{Kept};
ghost use Rattle.fr_core.specs.declared.kept.Kept.TheVariants as kept;
ghost use Rattle.fr_core.specs.declared.lowered.LowItem.{LowItem};
ghost use Rattle.fr_core.specs.declared.program.Program.{Program};
ghost use Rattle.fr_meaning.specs.Cells.{Cell};
ghost use Rattle.fr_graph.specs.Graph.{Graph};
ghost use Rattle.fr_graph.specs.Goes.{Goes};
ghost use Rattle.fr_graph.specs.Items.{AreLowered, IsAfresh, StandsForTree};
ghost use Rattle.fr_nodes.specs.Kinds.{Sites};
ghost use Rattle.fr_way.specs.Loop.{Starts};
ghost use Rattle.fr_way.specs.Way.{cell_in, occurs_now};
ghost use Rattle.fr_engine.specs.Beginning.{AllLive, AreLive, HaveSources, IsResting};
ghost use Rattle.fr_engine.specs.Instant.{AreClear, AtRest, ending_stop, ErrsAtFirst, ErrsFurther, ErrsOnceRun, ErrsOnceUnderWay, HasPassed, IsBuiltUp, IsToldBuilt};
ghost use Rattle.fr_engine.specs.Moment.{Moment};
ghost use Rattle.fr_engine.specs.Notes.{Named};
ghost use Rattle.fr_engine.specs.Running.{HasRun, IsOnItsWay};
ghost use Rattle.fr_engine.specs.Stops.{StopsWhere};

use crate::beginning::begin_instant;
use crate::choices::Choices;
use crate::ending::end_instant;
use crate::running::run;
use crate::setting::Notes;
use crate::stops::RunStop;
use fr_events::LatchStop;
use fr_kernel::{Fuel, Machine};
use fr_nodes::Signals;
use fr_value::{NodeId, Now};
use fr_way::{
    errors_at_the_end_are_those_of_evaluating_afresh,
    errors_on_the_way_are_those_of_evaluating_afresh, instants_keep_what_their_loop_needs,
    what_has_closed_is_afresh,
};
use std::alloc::AllocError;

/// Why the late works refuse the values of their last parts, as a stop of the whole.
fn stop_at_end(stop: LatchStop) -> RunStop
    ensures { result ≡ ending_stop stop }
{
    match stop {
        LatchStop::Memory(e) => RunStop::Memory(e),
        LatchStop::Bad(bad) => RunStop::Bad(bad),
    }
}

/// Forgets what was noted.
fn forget(notes: &mut Notes)
    ensures { AreClear notes.new }
{
    notes.wakes.clear();
    notes.changed.clear();
}

/// Ends an instant that was run, with what stops it as a stop of the whole.
fn close_instant<N: Signals, C: Choices<N>>(
    nodes: &mut N,
    choices: &C,
    sources: &[Now],
    notes: &mut Notes,
    late: &mut Vec<NodeId>,
) -> Result<(), RunStop>
    requires { (t : Moment) × HasRun (C.can choices.now) (C.plan choices.now)
        (C.many choices.now) sources.now t (N.way nodes.old (C.sites choices.now)) notes.old
        late.old.items }
    ensures passes { OnOk result ((t : Moment) → HasRun (C.can choices.now)
        (C.plan choices.now) (C.many choices.now) sources.now t
        (N.way nodes.old (C.sites choices.now)) notes.old late.old.items
        → HasPassed (C.can choices.now) (C.plan choices.now) (C.many choices.now) sources.now t
        (N.way nodes.new (C.sites choices.now)) notes.new late.new.items) }
    ensures stops { IfErr result (λ stop. StopsWhere stop (ErrsOnceRun (C.can choices.now)
        (C.plan choices.now) (C.many choices.now) sources.now
        (N.way nodes.old (C.sites choices.now)) notes.old late.old.items)) }
{
    nodes.is_sound();
    match end_instant(choices.alloc(), nodes, notes, late) {
        Err(stop) => Err(stop_at_end(stop)),
        Ok(()) => Ok(()),
    }
}

/// Runs an instant that is under way, and ends it.
fn pass<N: Signals, C: Choices<N>>(
    nodes: &mut N,
    choices: &C,
    sources: &[Now],
    machine: &mut Machine,
    fuel: &mut Fuel,
    notes: &mut Notes,
    late: &mut Vec<NodeId>,
) -> Result<(), RunStop>
    requires { (t : Moment) × IsOnItsWay (C.can choices.now) (C.plan choices.now)
        (C.many choices.now) sources.now t (N.way nodes.old (C.sites choices.now)) notes.old
        late.old.items }
    ensures passes { OnOk result ((t : Moment) → IsOnItsWay (C.can choices.now)
        (C.plan choices.now) (C.many choices.now) sources.now t
        (N.way nodes.old (C.sites choices.now)) notes.old late.old.items
        → HasPassed (C.can choices.now) (C.plan choices.now) (C.many choices.now) sources.now t
        (N.way nodes.new (C.sites choices.now)) notes.new late.new.items) }
    ensures stops { IfErr result (λ stop. StopsWhere stop (ErrsOnceUnderWay
        (C.can choices.now) (C.plan choices.now) (C.many choices.now) sources.now
        (N.way nodes.old (C.sites choices.now)) notes.old late.old.items)) }
{
    run(nodes, choices, sources, machine, fuel, notes, late)?;
    close_instant(nodes, choices, sources, notes, late)
}

/// Begins a further instant, of which nothing is noted yet.
fn start<N: Signals>(
    nodes: &mut N,
    sources: &[Now],
    notes: &mut Notes,
    late: &[NodeId],
) -> Result<(), AllocError>
    requires few { length sources.now < u32.MAX }
    requires there { (sites : Sites) ×
        AllLive (length sources.now) (N.way nodes.old sites).graph }
    requires wakes_live { (sites : Sites) ×
        AreLive (N.way nodes.old sites).graph notes.old.wakes.items }
    requires late_live { (sites : Sites) × AreLive (N.way nodes.old sites).graph late.now }
    ensures starts { OnOk result ((sites : Sites) →
        HaveSources (length sources.now) (N.way nodes.old sites).graph →
        IsResting (N.way nodes.old sites) notes.old.wakes.items late.now →
        Starts sources.now (N.way nodes.old sites) (N.way nodes.new sites)) }
    ensures clear { OnOk result (AreClear notes.new) }
    ensures eras { (x : ℕ) → N.has_era nodes.new x ≡ N.has_era nodes.old x }
{
    begin_instant(nodes, sources, notes.wakes.as_slice(), late)?;
    forget(notes);
    Ok(())
}

/// A graph that was built for a program has what its first instant asks, where this is told of its members. It does nothing.
pub fn what_is_told_is_built_up<N: Signals, C: Choices<N>>(nodes: &N, choices: &C, late: &[NodeId])
    ensures { (is : List LowItem) (ms : List ℕ) (old : Graph) → IsToldBuilt
        (C.can choices.now) (C.plan choices.now) (C.many choices.now) is ms old
        (N.way nodes.now (C.sites choices.now)) late.now
        → IsBuiltUp (C.can choices.now) (C.plan choices.now) (C.many choices.now) is ms old
        (N.way nodes.now (C.sites choices.now)) late.now }
{}

/// Runs the first instant over a graph that was built, and ends it: the graph is at rest then, shows what evaluating the
/// program's body afresh over nothing kept shows, and stands for what that keeps. Nothing is noted before.
///
/// `Bad` comes only where evaluating the body afresh errs. No clause tells of the other errors, which come where memory is
/// wanting, where the instant costs more than what was left, and where as many numbers are in use as the limit. After an
/// error the graph is of no use.
pub fn first_instant<N: Signals, C: Choices<N>>(
    nodes: &mut N,
    choices: &C,
    sources: &[Now],
    machine: &mut Machine,
    fuel: &mut Fuel,
    notes: &mut Notes,
    late: &mut Vec<NodeId>,
) -> Result<(), RunStop>
    requires many { length sources.now ≡ C.many choices.now }
    requires clear { AreClear notes.old }
    requires built { (is : List LowItem) × ((ms : List ℕ) × ((old : Graph) × IsBuiltUp
        (C.can choices.now) (C.plan choices.now) (C.many choices.now) is ms old
        (N.way nodes.old (C.sites choices.now)) late.old.items)) }
    ensures rests { OnOk result ((is : List LowItem) (ms : List ℕ) (old : Graph) → IsBuiltUp
        (C.can choices.now) (C.plan choices.now) (C.many choices.now) is ms old
        (N.way nodes.old (C.sites choices.now)) late.old.items
        → AtRest (C.can choices.now) (C.plan choices.now) (C.many choices.now) is ms sources.now
        (cell_in old) (N.way nodes.new (C.sites choices.now)) notes.new.wakes.items
        late.new.items) }
    ensures afresh { OnOk result ((is : List LowItem) (ms : List ℕ) (old : Graph) (pr : Program)
        → IsBuiltUp (C.can choices.now) (C.plan choices.now) (C.many choices.now) is ms old
        (N.way nodes.old (C.sites choices.now)) late.old.items
        → AreLowered pr (C.plan choices.now) is
        → IsAfresh (N.way nodes.new (C.sites choices.now)).graph pr (C.plan choices.now) is ms
        sources.now kept.Nothing) }
    ensures errs { IfErr result (λ stop. StopsWhere stop (ErrsAtFirst (C.can choices.now)
        (C.plan choices.now) (C.many choices.now) sources.now
        (N.way nodes.old (C.sites choices.now)) late.old.items)) }
{
    nodes.is_sound();
    instants_keep_what_their_loop_needs();
    what_has_closed_is_afresh();
    errors_on_the_way_are_those_of_evaluating_afresh();
    errors_at_the_end_are_those_of_evaluating_afresh();
    pass(nodes, choices, sources, machine, fuel, notes, late)
}

/// Runs a further instant over a graph at rest, and ends it: the graph is at rest again, shows what evaluating the program's
/// body afresh shows over each kept tree for which it stood before, and stands for what that keeps.
///
/// `notes` says which nodes occurred at the instant before, and then which occur at this one and which have another value
/// than before: of the nodes that lived before and still live, one that isn't among the latter has the value that it had,
/// and one that is hasn't; and of all that live just those occur that are among the former.
///
/// `Bad` comes only where evaluating the body afresh errs. No clause tells of the other errors, which come where memory is
/// wanting, where the instant costs more than what was left, and where as many numbers are in use as the limit. After an
/// error the graph is of no use.
pub fn further_instant<N: Signals, C: Choices<N>>(
    nodes: &mut N,
    choices: &C,
    sources: &[Now],
    machine: &mut Machine,
    fuel: &mut Fuel,
    notes: &mut Notes,
    late: &mut Vec<NodeId>,
) -> Result<(), RunStop>
    requires many { length sources.now ≡ C.many choices.now }
    requires rest { (is : List LowItem) × ((ms : List ℕ) × ((was : List Now) × ((before : ℕ → Option Cell)
        × AtRest (C.can choices.now) (C.plan choices.now) (C.many choices.now) is ms was before
        (N.way nodes.old (C.sites choices.now)) notes.old.wakes.items late.old.items))) }
    ensures rests { OnOk result ((is : List LowItem) (ms : List ℕ) (was : List Now) (before : ℕ → Option Cell)
        → AtRest (C.can choices.now) (C.plan choices.now) (C.many choices.now) is ms was before
        (N.way nodes.old (C.sites choices.now)) notes.old.wakes.items late.old.items
        → AtRest (C.can choices.now) (C.plan choices.now) (C.many choices.now) is ms sources.now
        (cell_in (N.way nodes.old (C.sites choices.now)).graph)
        (N.way nodes.new (C.sites choices.now)) notes.new.wakes.items late.new.items) }
    ensures afresh { OnOk result ((is : List LowItem) (ms : List ℕ) (was : List Now) (before : ℕ → Option Cell)
        (pr : Program) (k : Kept) → AtRest (C.can choices.now) (C.plan choices.now)
        (C.many choices.now) is ms was before (N.way nodes.old (C.sites choices.now))
        notes.old.wakes.items late.old.items → AreLowered pr (C.plan choices.now) is
        → StandsForTree (N.way nodes.old (C.sites choices.now)).graph (C.plan choices.now) is ms k
        → IsAfresh (N.way nodes.new (C.sites choices.now)).graph pr (C.plan choices.now) is ms
        sources.now k) }
    ensures unchanged { OnOk result ((m : ℕ)
        → (N.way nodes.new (C.sites choices.now)).graph.live m ≡ true
        → (N.way nodes.old (C.sites choices.now)).graph.live m ≡ true
        → Named notes.new.changed.items m
        ⊎ ((N.way nodes.new (C.sites choices.now)).graph.value m
        ≡ (N.way nodes.old (C.sites choices.now)).graph.value m)) }
    ensures differ { OnOk result ((m : ℕ) → Named notes.new.changed.items m
        → (N.way nodes.new (C.sites choices.now)).graph.live m ≡ true
        → (N.way nodes.old (C.sites choices.now)).graph.live m ≡ true
        → (N.way nodes.new (C.sites choices.now)).graph.value m
        ≢ (N.way nodes.old (C.sites choices.now)).graph.value m) }
    ensures goes { OnOk result (Goes (N.way nodes.old (C.sites choices.now)).graph
        (N.way nodes.new (C.sites choices.now)).graph
        (cell_in (N.way nodes.old (C.sites choices.now)).graph)) }
    ensures silent { OnOk result ((m : ℕ)
        → (N.way nodes.new (C.sites choices.now)).graph.live m ≡ true
        → Named notes.new.wakes.items m
        ⊎ (occurs_now ((N.way nodes.new (C.sites choices.now)).graph.value m) ≡ false)) }
    ensures errs { IfErr result (λ stop. StopsWhere stop (ErrsFurther (C.can choices.now)
        (C.plan choices.now) (C.many choices.now) sources.now
        (N.way nodes.old (C.sites choices.now)) notes.old.wakes.items late.old.items)) }
{
    instants_keep_what_their_loop_needs();
    what_has_closed_is_afresh();
    errors_on_the_way_are_those_of_evaluating_afresh();
    errors_at_the_end_are_those_of_evaluating_afresh();
    start(nodes, sources, notes, late.as_slice())?;
    pass(nodes, choices, sources, machine, fuel, notes, late)
}
