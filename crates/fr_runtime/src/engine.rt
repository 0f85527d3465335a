//! A program's graph, from one instant to the next.
ghost use Rattle.std.specs.Prelude.{◌≡◌, ◌≤◌, ◌<◌, ℕ, IfOk, IfErr, OnOk, length, map, Ok};
ghost use Rattle.fr_core.specs.Sets.{greatest_time};
ghost use Rattle.fr_core.specs.declared.program.Program.{Program};
ghost use Rattle.fr_meaning.specs.Afresh.{State, instant as instant_after};
ghost use Rattle.fr_graph.specs.Graph.{part_values};
ghost use Rattle.fr_nodes.specs.Kinds.{Sites, parts_of};
ghost use Rattle.fr_nodes.specs.Makes.{AreThere};
ghost use Rattle.fr_engine.specs.Stops.{StopsWhere};
ghost use Rattle.fr_runtime.specs.States.{ComesTo, DoesErr, StandsForState};

use crate::shown::values_of;
use fr_core::Inputs;
use fr_engine::{Choices, Notes, RunStop, further_instant};
use fr_kernel::{Fuel, Machine};
use fr_nodes::Signals;
use fr_sources::Sources;
use fr_value::{Held, NodeId, Now};
use sqlite_items::Items;
use std::alloc::{AllocError, Global};

/// The graph of a program between two instants, with what instants keep beside it.
#[derive(Drop)]
pub struct Engine<N: Signals + Drop> {
    pub(crate) alloc: Global,
    pub(crate) nodes: N,
    pub(crate) machine: Machine,
    pub(crate) sources: Sources,
    /// What stands for each show.
    pub(crate) parts: Items<Held>,
    /// The nodes that occurred or changed at the last instant.
    pub(crate) notes: Notes,
    /// The works whose cells take a value behind the instant.
    pub(crate) late: Vec<NodeId>,
}

impl<N: Signals + Drop> Engine<N> {
    /// Runs the next instant, over what the last one left. `Bad` comes only where it errs, over each state that the graph
    /// stands for. After an error the graph is of no use.
    pub fn advance<C: Choices<N>>(
        &mut self,
        choices: &C,
        inputs: &Inputs,
        mut fuel: Fuel,
    ) -> Result<(), RunStop>
        requires time { inputs.now.time ≤ greatest_time }
        requires stands { (pr : Program) × ((s : State) × StandsForState (C.can choices.now) pr (C.plan choices.now)
            (C.many choices.now) self.old.sources (parts_of self.old.parts) self.old.notes.wakes.items self.old.late.items
            (N.way self.old.nodes (C.sites choices.now)) s) }
        ensures ok { OnOk result ((pr : Program) (s : State) → StandsForState (C.can choices.now) pr
            (C.plan choices.now) (C.many choices.now) self.old.sources (parts_of self.old.parts)
            self.old.notes.wakes.items self.old.late.items (N.way self.old.nodes (C.sites choices.now)) s
            → ComesTo (C.can choices.now) pr (C.plan choices.now) (C.many choices.now) self.new.sources
            (parts_of self.new.parts) self.new.notes.wakes.items self.new.late.items
            (N.way self.new.nodes (C.sites choices.now)) (instant_after pr s inputs.now)) }
        ensures err { IfErr result (λ stop. StopsWhere stop ((pr : Program) (s : State)
            → StandsForState (C.can choices.now) pr
            (C.plan choices.now) (C.many choices.now) self.old.sources (parts_of self.old.parts)
            self.old.notes.wakes.items self.old.late.items (N.way self.old.nodes (C.sites choices.now)) s
            → DoesErr (instant_after pr s inputs.now))) }
    {
        self.sources.advance(inputs)?;
        further_instant(
            &mut self.nodes,
            choices,
            self.sources.values(),
            &mut self.machine,
            &mut fuel,
            &mut self.notes,
            &mut self.late,
        )
    }

    /// The values of the shows, in program order, with one more owner of each. It fails only where there is no memory.
    pub fn shown(&self) -> Result<Vec<Now>, AllocError>
        requires { (sites : Sites) → AreThere (N.way self.now.nodes sites) (parts_of self.now.parts) }
        ensures { IfOk result (λ shown. (sites : Sites) → map (λ v. Ok v) shown.items
            ≡ part_values (N.way self.now.nodes sites).graph (parts_of self.now.parts)) }
    {
        values_of(self.alloc, &self.nodes, self.parts.as_slice())
    }
}
