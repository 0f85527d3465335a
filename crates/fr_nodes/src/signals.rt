ghost use Rattle.std.specs.Prelude.{◌≡◌, ◌≢◌, ℕ, suc, ◌<◌, ◌∷◌, [], true, false, None, IfOk, IfSome, OnOk, IsSome, IsTrue};
ghost use Rattle.std.specs.Option.{option_map};
ghost use Rattle.fr_events.specs.Works.{cell_of};
ghost use Rattle.fr_graph.specs.Graph.{result};
ghost use Rattle.fr_nodes.specs.Kinds.{Sites, part_of};
ghost use Rattle.fr_nodes.specs.Listed.{ListsLate};
ghost use Rattle.fr_nodes.specs.Makes.{AreThere};
ghost use Rattle.fr_nodes.specs.Signals.{BuriesAll, IsAnew, IsNodeOf, IsSound, Latches, Lives, QueuesReaders, RaisesFrom, TakesNone, TakesOut, Writes};
ghost use Rattle.fr_queue.specs.Queue.{IsEmpty};
ghost use Rattle.fr_way.specs.Frame.{Inside, is_watch};
ghost use Rattle.fr_way.specs.Order.{IsOrdered, IsOver};
ghost use Rattle.fr_way.specs.Turns.{Kills, Queues, Rewires};
ghost use Rattle.fr_way.specs.Way.{Way};

use crate::nodes::Nodes;
use fr_store::{Cell, Node};
use fr_value::{EraId, Held, NodeId, Now};
use std::alloc::AllocError;

/// A graph of signals over which instants run. After an error the graph is of no use.
pub trait Signals: Nodes {
    /// What holds of the graph at all times. It does nothing.
    fn is_sound(&self)
        ensures { IsSound (Self.way self.now) };

    /// Begins an instant: no node counts as computed. It fails only where memory is wanting.
    fn begin(&mut self) -> Result<(), AllocError>
        ensures begins { OnOk result ((sites : Sites) → IsAnew (Self.way self.old sites) (Self.way self.new sites)) }
        ensures eras { (x : ℕ) → Self.has_era self.new x ≡ Self.has_era self.old x };

    /// Takes a node of the least height from the agenda, or answers None exactly where nothing is queued. It takes no memory.
    fn take(&mut self) -> Option<NodeId>
        ensures taken { IfSome result (λ id. (sites : Sites) → TakesOut (Self.way self.old sites) (Self.way self.new sites) id.0) }
        ensures none { result ≡ None → (sites : Sites) → TakesNone (Self.way self.old sites) (Self.way self.new sites) }
        ensures eras { (x : ℕ) → Self.has_era self.new x ≡ Self.has_era self.old x };

    /// Whether a node whose number is in use lives.
    fn lives(&self, id: NodeId) -> bool
        requires { (sites : Sites) → (Self.way self.now sites).taken id.0 ≡ true }
        ensures { (sites : Sites) → (Self.way self.now sites).graph.live id.0 ≡ result };

    /// A live node.
    fn node(&self, id: NodeId) -> &Node
        requires { Lives (Self.way self.now) id.0 }
        ensures { (sites : Sites) → IsNodeOf sites (Self.way self.now sites) id.0 result.now };

    /// The result of a watch that has one.
    fn result_of(&self, watch: NodeId) -> NodeId
        requires there { Lives (Self.way self.now) watch.0 }
        requires result { (sites : Sites) × (Self.way self.now sites).graph.live ((Self.way self.now sites).graph.result_of watch.0) ≡ true }
        ensures { (sites : Sites) → (Self.way self.now sites).graph.result_of watch.0 ≡ result.0 };

    /// Writes what a live node has come to. It takes no memory.
    fn set(&mut self, id: NodeId, value: Now, cell: Option<Cell>)
        requires { Lives (Self.way self.old) id.0 }
        ensures writes { (sites : Sites) → Writes (Self.way self.old sites) (Self.way self.new sites) id.0 value (option_map cell_of cell) }
        ensures eras { (x : ℕ) → Self.has_era self.new x ≡ Self.has_era self.old x };

    /// Queues a live node at its height, if it isn't queued. It fails only where memory is wanting.
    fn queue(&mut self, id: NodeId) -> Result<(), AllocError>
        requires { Lives (Self.way self.old) id.0 }
        ensures queues { OnOk result ((sites : Sites) → Queues (Self.way self.old sites) (Self.way self.new sites) id.0) }
        ensures eras { (x : ℕ) → Self.has_era self.new x ≡ Self.has_era self.old x };

    /// Queues every live node that reads this one. It fails only where memory is wanting.
    fn queue_readers(&mut self, id: NodeId) -> Result<(), AllocError>
        requires { Lives (Self.way self.old) id.0 }
        ensures queues { OnOk result ((sites : Sites) → QueuesReaders (Self.way self.old sites) (Self.way self.new sites) id.0) }
        ensures eras { (x : ℕ) → Self.has_era self.new x ≡ Self.has_era self.old x };

    /// Ends the era of a watch with all eras inside, where it has one, and begins it anew, without members. The watch was
    /// computed at this instant, and no node in its era was. It fails only where memory is wanting.
    fn renew(&mut self, watch: NodeId) -> Result<EraId, AllocError>
        requires there { Lives (Self.way self.old) watch.0 }
        requires done { (sites : Sites) → (Self.way self.old sites).done watch.0 ≡ true }
        requires earlier { (sites : Sites) (m : ℕ) → Inside (Self.way self.old sites).graph (suc watch.0) m → (Self.way self.old sites).done m ≡ false }
        ensures number { IfOk result (λ era. era.0 ≡ suc watch.0) }
        ensures kills { OnOk result ((sites : Sites) → Kills (Self.way self.old sites) (Self.way self.new sites) (suc watch.0)) }
        ensures era { OnOk result (Self.has_era self.new (suc watch.0) ≡ true) };

    /// Makes a part the one input of the result of a watch. It takes no memory.
    fn rewire(&mut self, id: NodeId, input: Held)
        requires there { Lives (Self.way self.old) id.0 }
        requires input { (sites : Sites) → AreThere (Self.way self.old sites) (part_of input ∷ []) }
        ensures rewires { (sites : Sites) → Rewires (Self.way self.old sites) (Self.way self.new sites) id.0 (part_of input) }
        ensures eras { (x : ℕ) → Self.has_era self.new x ≡ Self.has_era self.old x };

    /// Raises what depends on a node until every edge leads upwards. Only what stands above this node may stand too low before.
    /// It fails only where memory is wanting.
    fn raise(&mut self, from: NodeId) -> Result<(), AllocError>
        requires there { Lives (Self.way self.old) from.0 }
        requires results { (sites : Sites) × ((w : ℕ) → (Self.way self.old sites).graph.live w ≡ true → is_watch ((Self.way self.old sites).graph.kind w) ≡ true
            → (Self.way self.old sites).graph.live ((Self.way self.old sites).graph.result_of w) ≡ true) }
        requires levelled { (sites : Sites) × ((a b : ℕ) → IsOver (Self.way self.old sites) a b → a ≢ from.0
            → (Self.way self.old sites).height a < (Self.way self.old sites).height b) }
        requires ordered { (sites : Sites) × IsOrdered (Self.way self.old sites) }
        ensures raises { OnOk result ((sites : Sites) → RaisesFrom (Self.way self.old sites) (Self.way self.new sites) from.0) }
        ensures eras { (x : ℕ) → Self.has_era self.new x ≡ Self.has_era self.old x };

    /// Writes the cell of a live node. It takes no memory.
    fn latch(&mut self, id: NodeId, cell: Cell)
        requires { Lives (Self.way self.old) id.0 }
        ensures latches { (sites : Sites) → Latches (Self.way self.old sites) (Self.way self.new sites) id.0 (cell_of cell) }
        ensures eras { (x : ℕ) → Self.has_era self.new x ≡ Self.has_era self.old x };

    /// Lists those members of an era that take their last part's value behind the instant, behind what was listed. It fails
    /// only where memory is wanting.
    fn list_late(&self, era: EraId, late: &mut Vec<NodeId>) -> Result<(), AllocError>
        requires { IsTrue (Self.has_era self.now era.0) }
        ensures { OnOk result ((sites : Sites) →
            ListsLate (Self.way self.now sites).graph era.0 late.old.items late.new.items) };

    /// Gives up the numbers of all nodes that have ended, where nothing is queued. It takes no memory.
    fn bury(&mut self)
        requires { (sites : Sites) × IsEmpty (Self.way self.old sites).queued }
        ensures buries { (sites : Sites) → BuriesAll (Self.way self.old sites) (Self.way self.new sites) }
        ensures eras { (x : ℕ) → Self.has_era self.new x ≡ Self.has_era self.old x };
}
