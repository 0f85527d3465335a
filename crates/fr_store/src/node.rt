ghost use Rattle.std.specs.Prelude.{◌≡◌};
ghost use Rattle.fr_store.specs.Nodes.{is_watch, new_node};

use crate::cell::NodeCell;
use crate::inputs::Inputs;
use crate::source::Source;
use crate::variables::Variables;
use fr_value::{EraId, KernId, Now, Primitive, SiteId, Value};

/// What a kernel node computes of its inputs.
#[derive(Clone, Copy, Debug, PartialEq, Eq)]
pub enum Code {
    /// A primitive, of its arguments.
    Prim(Primitive),
    /// A pure expression that is computed as a whole, of its slots.
    Kern(KernId),
    /// A fold over a list, with the kernel of its body.
    Fold(KernId),
    /// A repetition, with the kernel of its body.
    Repeat(KernId),
}

/// What a node is for.
#[derive(Drop)]
pub enum NodeKind {
    /// The time of the instant.
    Now,
    /// An input of the program.
    Input,
    /// An event of the program.
    Event,
    /// A pure expression.
    Kernel(Code),
    /// The test of an `if` that varies: its site, and what the variables of its place hold.
    IfWatch(SiteId, Variables),
    /// What the choice of a watch gives.
    Result,
    /// An event whose payloads a handler makes anew.
    MapE(KernId),
    /// An event of which a handler keeps some occurrences.
    FilterE(KernId),
    /// The leftmost occurrence among events.
    MergeE,
    /// An event's last payload.
    Hold,
    /// A state that a handler makes of each occurrence.
    CollectB(KernId),
    /// A state that a handler makes of each occurrence, as an event.
    CollectE(KernId),
    /// The changes of a value, as an event.
    Changes,
    /// The first occurrence of an event.
    OnceE,
    /// A value one instant later.
    Delay,
    /// An event one instant later.
    DelayE,
    /// The value that a variable bound by `feedback` had at the instant before.
    Feedback,
}

impl NodeKind {
    /// Whether it is a watch. It takes no memory.
    pub fn is_watch(&self) -> bool
        ensures { result ≡ is_watch self.now }
    {
        matches!(self, NodeKind::IfWatch(_, _))
    }
}

/// A node of the graph.
#[derive(Drop)]
pub struct Node {
    pub kind: NodeKind,
    /// What it is computed of.
    pub inputs: Inputs,
    /// Of a `Delay`, `DelayE` or `Feedback`, what it shows one instant later.
    pub source: Source,
    /// `#f` until the node is computed.
    pub value: Now,
    pub cell: NodeCell,
    /// Above that of each node that it is computed of.
    pub height: u128,
    /// The number of the instant at which it was computed last, and None before.
    pub stamp: Option<u64>,
    /// The number of the instant at which it was made.
    pub born: u64,
    /// How many levels of evaluation its expression stands below the outermost one.
    pub nest: u32,
    pub era: EraId,
}

impl Node {
    pub(crate) fn new(
        kind: NodeKind,
        inputs: Inputs,
        era: EraId,
        height: u128,
        nest: u32,
        instant: u64,
    ) -> Node
        ensures { result ≡ new_node kind inputs era height nest instant }
    {
        Node {
            kind,
            inputs,
            source: Source::none(),
            value: Now::Plain(Value::Bool(false)),
            cell: NodeCell::none(),
            height,
            stamp: None,
            born: instant,
            nest,
            era,
        }
    }
}
