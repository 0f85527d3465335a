ghost use Rattle.std.specs.Prelude.{◌≡◌, Some};
ghost use Rattle.slab.specs.Slab.{ContainsKey, get, with_value};
ghost use Rattle.fr_store.specs.Kept.{changed};
ghost use Rattle.fr_store.specs.Nodes.{cleared};

use crate::cell::{Cell, NodeCell};
use crate::inputs::Inputs;
use crate::node::{Node, NodeKind};
use crate::source::Source;
use fr_value::{Held, Now, Value};
use slab::Slab;
use std::alloc::Global;

/// What is written of a node.
#[derive(Drop)]
pub(crate) enum Change {
    /// Value, cell and stamp.
    Computed(Now, Option<Cell>, u64),
    Latched(Cell),
    Tied(Held),
    Lifted(u128),
    Inputs(Inputs),
    /// The node names no node any more.
    Cleared(Global),
}

impl Change {
    /// Writes it into the node at a key.
    pub(crate) fn write(self, nodes: &mut Slab<Node>, key: usize)
        requires { ContainsKey nodes.old key }
        ensures { (n : Node) → get nodes.old key ≡ Some n → nodes.new ≡ with_value nodes.old key (changed self n) }
    {
        let node = &mut nodes[key];
        match self {
            Change::Computed(now, cell, instant) => {
                node.value = now;
                node.cell = NodeCell::of(cell);
                node.stamp = Some(instant);
            }
            Change::Latched(cell) => node.cell = NodeCell::some(cell),
            Change::Tied(source) => node.source = Source::some(source),
            Change::Lifted(height) => node.height = height,
            Change::Inputs(inputs) => node.inputs = inputs,
            Change::Cleared(alloc) => clear(node, alloc),
        }
    }
}

fn clear(node: &mut Node, alloc: Global)
    ensures { node.new ≡ cleared node.old }
{
    if let NodeKind::IfWatch(_, held) = &mut node.kind {
        held.clear(alloc);
    }
    node.inputs = Inputs::none();
    node.source = Source::none();
    node.value = Now::Plain(Value::Bool(false));
}
