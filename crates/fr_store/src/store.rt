ghost use Rattle.std.specs.Prelude.{◌≡◌, ℕ, ◌+◌, ◌^◌, ◌<◌, ◌≤◌, ◌↔◌, [], ◌∷◌, true, Some, None, Err, IfOk, OnOk, OnErr, length, IsSome, IsTrue, is_some, count_by};
ghost use Rattle.fr_store.specs.Kept.{AreEdges, AreListed, IsReady, IsTable, KeepsInputs, SameEdges, SameTable, Widened, changed, inputs_at, next_number, nodes_of};
ghost use Rattle.fr_store.specs.Nodes.{most_height, most_nodes, Edge, Stored, StandsAt, IsEdge, AreDependents, AreLive, AreLow, Makes, Renames, node_at, node_in, height_in, reads, dependents_at, edge_number, new_node, least_height, computed, latched, rewired, tied, lifted, cleared, with_node};

use crate::cell::Cell;
use crate::change::Change;
use crate::edges::Edges;
use crate::inputs::Inputs;
use crate::node::{Node, NodeKind};
use crate::table::Table;
use fr_value::{EraId, Held, NodeId, Now};
use std::alloc::{AllocError, Global};
use std::marker::Model;

/// Why a node was not made.
#[derive(Debug, Drop)]
pub enum MakeStop {
    /// Memory is wanting.
    Memory(AllocError),
    /// There are as many nodes as the limit.
    TooMany,
}

impl From<AllocError> for MakeStop {
    ghost use Rattle.std.specs.Prelude.{◌≡◌};
    ghost use Rattle.fr_store.specs.declared.store.MakeStop.TheVariants as MakeStop;

    ghost from_gives = { λ e r. r ≡ MakeStop.Memory e };

    fn from(e: AllocError) -> MakeStop {
        MakeStop::Memory(e)
    }
}

/// The nodes of the graph. A node has a number below the limit; a number that was given up is used again.
///
/// Contracts see the node of each number and, for each number, the edges: the places among the inputs of nodes that name it.
/// Every call but `make` takes no memory, and all but `make`, `rewire` and `clear` a constant time; these three go through
/// the inputs of the one node.
#[derive(Drop)]
pub struct Store {
    limit: u32,
    table: Table,
    edges: Edges,
    alloc: Global,
}

impl Model for Store {
    ghost use Rattle.fr_store.specs.Nodes.{Stored, stored_code};

    ghost Value = { Stored };

    ghost coded = { stored_code };

    ghost use Rattle.fr_store.specs.Kept.{stored_in, IsStore};

    ghost view = { λ s. stored_in s.limit s.table s.edges };

    ghost invariant = { λ s. IsStore s.limit s.table s.edges };
}

impl Store {
    /// A store without nodes, for at most so many. It takes no memory.
    pub fn new(alloc: Global, limit: u32) -> Store
        requires { limit ≤ most_nodes }
        ensures { result ≡ record { limit = limit; nodes = []; dependents = [] } }
    {
        Store {
            limit,
            table: Table::new(alloc),
            edges: Edges::new(alloc),
            alloc,
        }
    }

    /// Makes a node, with one more owner of each steady input. Its height is the least that is at least the floor and above each
    /// node that it is computed of.
    ///
    /// `TooMany` comes exactly where there are as many nodes as the limit. After an error the store is as before. The node takes
    /// here all the memory that other calls need for it.
    pub fn make(
        &mut self,
        kind: NodeKind,
        inputs: &[Held],
        era: EraId,
        floor: u128,
        nest: u32,
        instant: u64,
    ) -> Result<NodeId, MakeStop>
        requires live { AreLive self.old inputs.now }
        requires low { AreLow self.old inputs.now }
        requires floor { floor ≤ most_height }
        ensures made { IfOk result (λ id. Makes self.old self.new id.0 (new_node kind inputs.now era (least_height self.old.nodes floor inputs.now) nest instant)) }
        ensures too_many { (result ≡ Err MakeStop.TooMany) ↔ (count_by is_some self.old.nodes ≡ self.old.limit) }
        ensures err { OnErr result (self.new ≡ self.old) }
    {
        if self.table.count == self.limit {
            return Err(MakeStop::TooMany);
        }
        let height = least_height(&self.table, floor, inputs);
        let inputs = prepare(self.alloc, &mut self.table, &mut self.edges, inputs)?;
        self.edges.wire(self.table.next(), &inputs);
        let node = Node::new(kind, inputs, era, height, nest, instant);
        let id = self.table.put(node);
        Ok(id)
    }

    /// Writes what a node computed at an instant.
    pub fn set(&mut self, id: NodeId, now: Now, cell: Option<Cell>, instant: u64)
        requires { IsSome (node_at self.old id.0) }
        ensures { (n : Node) → node_at self.old id.0 ≡ Some n → self.new ≡ with_node self.old id.0 (Some (computed n now cell instant)) }
    {
        self.change(id, Change::Computed(now, cell, instant));
    }

    /// Writes the cell of a node.
    pub fn latch(&mut self, id: NodeId, cell: Cell)
        requires { IsSome (node_at self.old id.0) }
        ensures { (n : Node) → node_at self.old id.0 ≡ Some n → self.new ≡ with_node self.old id.0 (Some (latched n cell)) }
    {
        self.change(id, Change::Latched(cell));
    }

    /// Makes this the only input of a node, which is the result of a watch.
    pub fn rewire(&mut self, id: NodeId, input: Held)
        requires there { IsSome (node_at self.old id.0) }
        requires live { AreLive self.old (input ∷ []) }
        ensures { (n : Node) → node_at self.old id.0 ≡ Some n → Renames self.old self.new id.0 (rewired n input) }
    {
        let inputs = Inputs::one(input);
        self.edges.wire(id.0 as usize, &inputs);
        self.table.change(id, Change::Inputs(inputs));
    }

    /// Gives a delay or a feedback its source.
    pub fn tie(&mut self, id: NodeId, source: Held)
        requires { IsSome (node_at self.old id.0) }
        ensures { (n : Node) → node_at self.old id.0 ≡ Some n → self.new ≡ with_node self.old id.0 (Some (tied n source)) }
    {
        self.change(id, Change::Tied(source));
    }

    /// Writes the height of a node, which is to be raised.
    pub fn lift(&mut self, id: NodeId, height: u128)
        requires { IsSome (node_at self.old id.0) }
        ensures { (n : Node) → node_at self.old id.0 ≡ Some n → self.new ≡ with_node self.old id.0 (Some (lifted n height)) }
    {
        self.change(id, Change::Lifted(height));
    }

    /// Makes a node name no node: it has no inputs and no source, a watch holds nothing of its place, and the value is `#f`.
    pub fn clear(&mut self, id: NodeId)
        requires { IsSome (node_at self.old id.0) }
        ensures { (n : Node) → node_at self.old id.0 ≡ Some n → Renames self.old self.new id.0 (cleared n) }
    {
        self.edges.release(id.0 as usize);
        self.table.change(id, Change::Cleared(self.alloc));
    }

    /// Frees the number of a node without inputs.
    pub fn give_up(&mut self, id: NodeId)
        requires { (n : Node) × (node_at self.old id.0 ≡ Some n) × (n.inputs ≡ []) }
        ensures { self.new ≡ with_node self.old id.0 None }
    {
        self.table.remove(id);
    }

    /// The node of a number.
    pub fn node(&self, id: NodeId) -> &Node
        requires { IsSome (node_at self.now id.0) }
        ensures { node_at self.now id.0 ≡ Some result.now }
    {
        match self.table.get(id) {
            Some(node) => node,
            None => unreachable!(),
        }
    }

    /// The value of a node.
    pub fn value(&self, id: NodeId) -> &Now
        requires { IsSome (node_at self.now id.0) }
        ensures { (n : Node) → node_at self.now id.0 ≡ Some n → result.now ≡ n.value }
    {
        &self.node(id).value
    }

    /// Whether there is a node of this number.
    pub fn live(&self, id: NodeId) -> bool
        ensures { IsTrue result ↔ IsSome (node_at self.now id.0) }
    {
        self.table.get(id).is_some()
    }

    /// How many nodes there are.
    pub fn count(&self) -> u32
        ensures value { result ≡ count_by is_some self.now.nodes }
        ensures below { result ≤ self.now.limit }
        ensures limit { self.now.limit ≤ most_nodes }
    {
        self.table.count
    }

    /// The first edge of a node, or None exactly where no place names it. The edges are exactly the places that name it.
    pub fn first_dependent(&self, id: NodeId) -> Option<usize>
        requires { IsSome (node_at self.now id.0) }
        ensures first { result ≡ edge_number (dependents_at self.now id.0) 0 }
        ensures exact { AreDependents self.now id.0 (dependents_at self.now id.0) }
    {
        self.edges.links.first(id.0 as usize)
    }

    /// The edge after one, or None exactly where that is the last of its node.
    pub fn next_dependent(&self, edge: usize) -> Option<usize>
        requires { IsEdge self.now edge }
        ensures { (i place : ℕ) (e : Edge) → StandsAt self.now edge i place e → result ≡ edge_number (dependents_at self.now i) (place + 1) }
    {
        self.edges.links.next(edge)
    }

    /// The node whose place an edge is.
    pub fn edge_node(&self, edge: usize) -> NodeId
        requires { IsEdge self.now edge }
        ensures { (i place : ℕ) (e : Edge) → StandsAt self.now edge i place e → result.0 ≡ e.node }
    {
        self.edges.owner(edge)
    }

    /// Writes what leaves a node's inputs as they are.
    fn change(&mut self, id: NodeId, change: Change)
        requires there { IsSome (node_at self.old id.0) }
        requires inputs { KeepsInputs change }
        ensures { (n : Node) → node_at self.old id.0 ≡ Some n → self.new ≡ with_node self.old id.0 (Some (changed change n)) }
    {
        self.table.change(id, change);
    }
}

/// Takes all the memory that a node of these inputs needs, and gives the inputs as they are kept.
fn prepare(
    alloc: Global,
    table: &mut Table,
    edges: &mut Edges,
    inputs: &[Held],
) -> Result<Inputs, AllocError>
    requires table { IsTable table.old }
    requires edges { AreEdges edges.old }
    requires runs { length edges.old.runs.items ≡ length table.old.keys.items }
    requires few { table.old.count < most_nodes }
    requires listed { AreListed edges.old (inputs_at table.old) }
    ensures inputs { IfOk result (λ held. held ≡ inputs.now) }
    ensures table { IsTable table.new }
    ensures same { SameTable table.old table.new }
    ensures ready { OnOk result (IsReady table.new) }
    ensures edges { AreEdges edges.new }
    ensures wide { OnOk result (Widened edges.old edges.new (next_number table.new) (length inputs.now)) }
    ensures err { OnErr result (SameEdges edges.old edges.new) }
{
    let held = Inputs::of(alloc, inputs)?;
    table.reserve()?;
    edges.widen(table.next(), held.len())?;
    Ok(held)
}

fn least_height(table: &Table, floor: u128, inputs: &[Held]) -> u128
    requires live { (i : ℕ) → reads i inputs.now ≡ true → IsSome (node_in (nodes_of table.now) i) }
    requires low { (i : ℕ) (n : Node) → reads i inputs.now ≡ true → node_in (nodes_of table.now) i ≡ Some n → n.height ≤ most_height }
    requires floor { floor ≤ most_height }
    ensures { result ≡ least_height (nodes_of table.now) floor inputs.now }
{
    let mut height = floor;
    for input in inputs {
        if let Held::Signal(id) = input {
            height = height.max(height_of(table, *id) + 1);
        }
    }
    height
}

/// The height of a node, and 0 where there is none.
fn height_of(table: &Table, id: NodeId) -> u128
    ensures { result ≡ height_in (node_in (nodes_of table.now) id.0) }
{
    match table.get(id) {
        Some(node) => node.height,
        None => 0,
    }
}
