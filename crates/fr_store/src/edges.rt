ghost use Rattle.std.specs.Prelude.{◌≡◌, ℕ, ◌+◌, ◌^◌, ◌<◌, ◌≤◌, [], false, None, OnOk, OnErr, IsOk, length};
ghost use Rattle.fr_links.specs.Lists.{has_item, list_at};
ghost use Rattle.fr_store.specs.Nodes.{most_nodes, signal_at};
ghost use Rattle.fr_store.specs.Kept.{AreEdges, SameEdges, Widened, Wires, edge_count, first_at, owner_at, room_at};

use crate::inputs::Inputs;
use crate::wiring::{link, unlink};
use fr_links::Links;
use fr_value::NodeId;
use std::alloc::{AllocError, Global};

/// Edges of one number lie side by side in groups of so many.
const GROUP: usize = 4;

/// How many edges there can be.
const MOST: usize = 1 << 31;

/// The edges of a number: one for each of so many places, from the first on.
#[derive(Clone, Copy)]
pub(crate) struct Run {
    pub(crate) first: u32,
    pub(crate) room: u32,
}

/// For each number the edges of its places, and the list of the edges that name it.
///
/// A number keeps its edges while it is used again, and gets new ones only where it needs more.
#[derive(Drop)]
pub(crate) struct Edges {
    pub(crate) runs: Vec<Run>,
    /// The number of each group of edges.
    pub(crate) owners: Vec<u32>,
    pub(crate) links: Links,
}

impl Edges {
    pub(crate) fn new(alloc: Global) -> Edges
        ensures sound { AreEdges result }
        ensures runs { result.runs.items ≡ [] }
        ensures lists { result.links.lists ≡ [] }
    {
        Edges {
            runs: Vec::new(alloc),
            owners: Vec::new(alloc),
            links: Links::new(alloc),
        }
    }

    fn run(&self, number: usize) -> Run
        ensures first { result.first ≡ first_at self.now.runs.items number }
        ensures room { result.room ≡ room_at self.now.runs.items number }
    {
        match self.runs.get(number) {
            Some(run) => *run,
            None => Run { first: 0, room: 0 },
        }
    }

    /// The number of an edge.
    pub(crate) fn owner(&self, edge: usize) -> NodeId
        requires { edge < edge_count self.now }
        ensures { result.0 ≡ owner_at self.now.owners.items edge }
    {
        NodeId(self.owners[edge / GROUP])
    }

    /// Takes the memory for so many places of a number that names none. An error leaves all as it was.
    pub(crate) fn widen(&mut self, number: usize, places: usize) -> Result<(), AllocError>
        requires sound { AreEdges self.old }
        requires near { number ≤ length self.old.runs.items }
        requires few { number < most_nodes }
        requires idle { (l p : ℕ) → p < room_at self.old.runs.items number → has_item (list_at self.old.links.lists l) (first_at self.old.runs.items number + p) ≡ false }
        ensures sound { AreEdges self.new }
        ensures ok { OnOk result (Widened self.old self.new number places) }
        ensures err { OnErr result (SameEdges self.old self.new) }
    {
        if number < self.runs.len() && places <= self.run(number).room as usize {
            return Ok(());
        }
        let before = self.owners.len();
        let first = GROUP * before;
        let places = places.max(1);
        if places > MOST - first {
            return Err(AllocError);
        }
        let groups = (places - 1) / GROUP + 1;
        let room = GROUP * groups;
        self.runs.reserve(1)?;
        self.owners.reserve(groups)?;
        self.links.reserve(number + 1, first + room)?;
        self.owners.resize(before + groups, number as u32)?;
        let run = Run {
            first: first as u32,
            room: room as u32,
        };
        if number < self.runs.len() {
            self.runs[number] = run;
        } else {
            self.runs.push_reserved(run);
        }
        Ok(())
    }

    /// Makes the places of a number name what these inputs name.
    pub(crate) fn wire(&mut self, number: usize, inputs: &Inputs)
        requires sound { AreEdges self.old }
        requires there { number < length self.old.runs.items }
        requires room { length inputs.now ≤ room_at self.old.runs.items number }
        requires lists { (l p : ℕ) → signal_at inputs.now p ≡ Some l → l < length self.old.links.lists }
        ensures sound { AreEdges self.new }
        ensures runs { self.new.runs ≡ self.old.runs }
        ensures owners { self.new.owners ≡ self.old.owners }
        ensures wired { Wires self.old.links.lists self.new.links.lists (first_at self.old.runs.items number) (room_at self.old.runs.items number) (signal_at inputs.now) }
    {
        let run = self.run(number);
        unlink(&mut self.links, run.first as usize, run.room as usize);
        link(
            &mut self.links,
            run.first as usize,
            run.room as usize,
            inputs,
        );
    }

    /// Makes the places of a number name nothing.
    pub(crate) fn release(&mut self, number: usize)
        requires sound { AreEdges self.old }
        requires there { number < length self.old.runs.items }
        ensures sound { AreEdges self.new }
        ensures runs { self.new.runs ≡ self.old.runs }
        ensures owners { self.new.owners ≡ self.old.owners }
        ensures wired { Wires self.old.links.lists self.new.links.lists (first_at self.old.runs.items number) (room_at self.old.runs.items number) (λ _. None) }
    {
        let run = self.run(number);
        unlink(&mut self.links, run.first as usize, run.room as usize);
    }
}
