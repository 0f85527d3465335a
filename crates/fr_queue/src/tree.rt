ghost use Rattle.std.specs.Prelude.{◌≡◌, ℕ, false};
ghost use Rattle.std.specs.BTreeMap as map;
ghost use Rattle.std.specs.BTreeSet as set;
ghost use Rattle.std.specs.Ordering.{nat_cmp};
ghost use Rattle.fr_queue.specs.Pairs.{by_height};
ghost use Rattle.fr_queue.specs.Queue.{IsEmpty, is_height};

use crate::agenda::Agenda;
use fr_value::NodeId;
use std::alloc::{AllocError, Global};
use std::collections::{BTreeMap, BTreeSet};

/// An agenda over std's trees. A call costs the logarithm of the number of nodes, and there is never room without memory.
#[derive(Drop)]
pub struct TreeAgenda {
    heights: BTreeMap<u32, u128>,
    /// The heights with their nodes, the least height first.
    order: BTreeSet<(u128, u32)>,
    ghost agree: { (n h : ℕ) → set.contains by_height order (h, n) ≡ is_height (map.get nat_cmp heights n) h },
}

impl TreeAgenda {
    ghost use Rattle.fr_queue.specs.Tree.{heights_in};

    /// An empty agenda. It takes no memory.
    pub fn new(alloc: Global) -> TreeAgenda
        ensures { IsEmpty (heights_in result) }
    {
        TreeAgenda {
            heights: BTreeMap::new(alloc),
            order: BTreeSet::new(alloc),
        }
    }
}

impl Agenda for TreeAgenda {
    ghost use Rattle.fr_queue.specs.Tree.{heights_in};

    ghost queued = { heights_in };

    ghost room = { λ _ _ _. false };

    fn reserve(&mut self, _nodes: u32, _top: u128) -> Result<(), AllocError> {
        Ok(())
    }

    fn add(&mut self, node: NodeId, height: u128) -> Result<(), AllocError> {
        let NodeId(node) = node;
        self.order.insert((height, node))?;
        match self.heights.insert(node, height) {
            Ok(_) => Ok(()),
            Err(_) => {
                self.order.remove(&(height, node));
                Err(AllocError)
            }
        }
    }

    fn raise(&mut self, node: NodeId, height: u128) -> Result<(), AllocError> {
        let NodeId(node) = node;
        let Some(old) = self.heights.get(&node).copied() else {
            return Ok(());
        };
        if old == height {
            return Ok(());
        }
        self.order.insert((height, node))?;
        self.order.remove(&(old, node));
        if let Some(h) = self.heights.get_mut(&node) {
            *h = height;
        }
        Ok(())
    }

    fn drop_node(&mut self, node: NodeId) {
        let NodeId(node) = node;
        if let Some(old) = self.heights.remove(&node) {
            self.order.remove(&(old, node));
        }
    }

    fn has(&self, node: NodeId) -> bool {
        self.heights.contains_key(&node.0)
    }

    fn take(&mut self) -> Option<NodeId> {
        let (_, node) = self.order.pop_first()?;
        self.heights.remove(&node);
        Some(NodeId(node))
    }
}
