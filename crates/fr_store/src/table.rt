ghost use Rattle.std.specs.Prelude.{◌≡◌, ℕ, ◌+◌, ◌<◌, ◌≤◌, ◌↔◌, [], Some, None, OnOk, OnErr, IsSome, length, slice_set};
ghost use Rattle.std.specs.Option.{option_copied};
ghost use Rattle.slab.specs.Slab.{Updates};
ghost use Rattle.fr_store.specs.Nodes.{most_nodes, node_in, placed};
ghost use Rattle.fr_store.specs.Kept.{IsTable, IsReady, SameTable, SameNumbers, changed, key_at, next_number, nodes_of};

use crate::change::Change;
use crate::node::Node;
use fr_value::NodeId;
use slab::Slab;
use std::alloc::{AllocError, Global};

/// Nodes by number.
#[derive(Drop)]
pub(crate) struct Table {
    /// The key of each number's node, or None where the number is free.
    pub(crate) keys: Vec<Option<u32>>,
    /// The free numbers.
    pub(crate) free: Vec<u32>,
    pub(crate) nodes: Slab<Node>,
    /// How many nodes there are.
    pub(crate) count: u32,
}

impl Table {
    pub(crate) fn new(alloc: Global) -> Table
        ensures sound { IsTable result }
        ensures empty { nodes_of result ≡ [] }
        ensures count { result.count ≡ 0 }
    {
        Table {
            keys: Vec::new(alloc),
            free: Vec::new(alloc),
            nodes: Slab::new(alloc),
            count: 0,
        }
    }

    /// The key of a number's node.
    fn key(&self, id: NodeId) -> Option<usize>
        ensures { result ≡ key_at self.now.keys.items id.0 }
    {
        let key = (*self.keys.get(id.0 as usize)?)?;
        Some(key as usize)
    }

    pub(crate) fn get(&self, id: NodeId) -> Option<&Node>
        ensures { option_copied result ≡ node_in (nodes_of self.now) id.0 }
    {
        self.nodes.get(self.key(id)?)
    }

    pub(crate) fn change(&mut self, id: NodeId, change: Change)
        requires sound { IsTable self.old }
        requires there { IsSome (node_in (nodes_of self.old) id.0) }
        ensures sound { IsTable self.new }
        ensures changed { (n : Node) → node_in (nodes_of self.old) id.0 ≡ Some n → nodes_of self.new ≡ slice_set (nodes_of self.old) id.0 (Some (changed change n)) }
        ensures keys { SameNumbers self.old self.new }
    {
        if let Some(key) = self.key(id) {
            change.write(&mut self.nodes, key);
        }
    }

    /// The number that the next node gets.
    pub(crate) fn next(&self) -> usize
        requires { IsTable self.now }
        ensures { result ≡ next_number self.now }
    {
        match self.free.last() {
            Some(number) => *number as usize,
            None => self.keys.len(),
        }
    }

    /// Takes the memory for one more node.
    pub(crate) fn reserve(&mut self) -> Result<(), AllocError>
        requires { IsTable self.old }
        ensures sound { IsTable self.new }
        ensures same { SameTable self.old self.new }
        ensures ready { OnOk result (IsReady self.new) }
    {
        self.keys.reserve(1)?;
        self.free.reserve(self.keys.len() + 1 - self.free.len())?;
        self.nodes.reserve(1)?;
        if u32::try_from(self.nodes.vacant_key()).is_err() {
            return Err(AllocError);
        }
        Ok(())
    }

    /// Puts a node at the next number, for which there is memory.
    pub(crate) fn put(&mut self, node: Node) -> NodeId
        requires sound { IsTable self.old }
        requires ready { IsReady self.old }
        requires few { self.old.count < most_nodes }
        ensures sound { IsTable self.new }
        ensures number { result.0 ≡ next_number self.old }
        ensures count { self.new.count ≡ self.old.count + 1 }
        ensures placed { nodes_of self.new ≡ placed (nodes_of self.old) result.0 node }
    {
        let key = Some(self.nodes.insert_reserved(node) as u32);
        self.count += 1;
        match self.free.pop() {
            Some(number) => {
                self.keys[number as usize] = key;
                NodeId(number)
            }
            None => {
                let number = self.keys.len() as u32;
                self.keys.push_reserved(key);
                NodeId(number)
            }
        }
    }

    /// Takes a node out, and frees its number.
    pub(crate) fn remove(&mut self, id: NodeId)
        requires sound { IsTable self.old }
        requires there { IsSome (node_in (nodes_of self.old) id.0) }
        ensures sound { IsTable self.new }
        ensures len { length self.new.keys.items ≡ length self.old.keys.items }
        ensures count { self.new.count + 1 ≡ self.old.count }
        ensures removed { nodes_of self.new ≡ slice_set (nodes_of self.old) id.0 None }
    {
        let NodeId(number) = id;
        if let Some(key) = self.key(id) {
            discard(&mut self.nodes, key);
            self.keys[number as usize] = None;
            self.free.push_reserved(number);
            self.count -= 1;
        }
    }
}

fn discard(nodes: &mut Slab<Node>, key: usize)
    ensures { Updates nodes.old nodes.new key None }
{
    nodes.try_remove(key);
}
