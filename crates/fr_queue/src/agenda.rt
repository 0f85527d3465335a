ghost use Rattle.std.specs.Prelude.{◌≡◌, ℕ, ◌≤◌, true, Option, Some, None, OnOk, OnErr, IsOk, IsTrue, IsSome, IfSome, ◌↔◌};
ghost use Rattle.fr_queue.specs.Queue.{IsEmpty, KeepsRoom, Queued, Room, Same, Sets, Takes};

use fr_value::NodeId;
use std::alloc::AllocError;

/// A set of nodes with heights, from which a node of the least height is taken first.
pub trait Agenda {
    /// The height of each node in it.
    ghost queued: { Self → Queued };

    /// For which nodes and heights `add` and `raise` succeed without memory. No call takes room away.
    ghost room: { Self → Room };

    /// Takes memory beforehand for nodes with numbers below `nodes`, at heights below `top`. What is in the agenda stays.
    /// It fails only where memory is wanting.
    fn reserve(&mut self, nodes: u32, top: u128) -> Result<(), AllocError>
        ensures same { Same (queued self.old) (queued self.new) }
        ensures keeps_room { KeepsRoom (room self.old) (room self.new) };

    /// Puts in a node that isn't in it, at this height. It fails only where memory is wanting, and then the agenda is as before.
    fn add(&mut self, node: NodeId, height: u128) -> Result<(), AllocError>
        requires { queued self.old node.0 ≡ None }
        ensures ok { OnOk result (Sets (queued self.old) (queued self.new) node.0 (Some height)) }
        ensures err { OnErr result (Same (queued self.old) (queued self.new)) }
        ensures in_room { IsTrue (room self.old node.0 height) → IsOk result }
        ensures keeps_room { KeepsRoom (room self.old) (room self.new) };

    /// Raises a node that is in it to this height, which isn't below its own. It fails only where memory is wanting, and then
    /// the agenda is as before.
    fn raise(&mut self, node: NodeId, height: u128) -> Result<(), AllocError>
        requires { (was : ℕ) × (queued self.old node.0 ≡ Some was) × (was ≤ height) }
        ensures ok { OnOk result (Sets (queued self.old) (queued self.new) node.0 (Some height)) }
        ensures err { OnErr result (Same (queued self.old) (queued self.new)) }
        ensures in_room { IsTrue (room self.old node.0 height) → IsOk result }
        ensures keeps_room { KeepsRoom (room self.old) (room self.new) };

    /// Takes a node out where it is in. It takes no memory.
    fn drop_node(&mut self, node: NodeId)
        ensures out { Sets (queued self.old) (queued self.new) node.0 None }
        ensures keeps_room { KeepsRoom (room self.old) (room self.new) };

    /// Whether a node is in it. It takes no memory.
    fn has(&self, node: NodeId) -> bool
        ensures { IsTrue result ↔ IsSome (queued self.now node.0) };

    /// Takes out a node of the least height, or answers None exactly where the agenda is empty. It takes no memory.
    fn take(&mut self) -> Option<NodeId>
        ensures taken { IfSome result (λ node. Takes (queued self.old) (queued self.new) node.0) }
        ensures empty { result ≡ None → IsEmpty (queued self.old) }
        ensures same { result ≡ None → Same (queued self.old) (queued self.new) }
        ensures keeps_room { KeepsRoom (room self.old) (room self.new) };
}
