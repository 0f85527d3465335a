ghost use Rattle.std.specs.Prelude.{◌≡◌, ℕ, ◌-◌, ◌≤◌, true, Bool, IfOk, IsSome, IsTrue};
ghost use Rattle.fr_events.specs.Works.{work_of};
ghost use Rattle.fr_nodes.specs.Kinds.{Sites, kind_of, part_of, parts_of};
ghost use Rattle.fr_nodes.specs.Makes.{AreThere, Makes, MakesSwitch, Ties};
ghost use Rattle.fr_meaning.specs.Evaluation.{most_levels};
ghost use Rattle.fr_way.specs.Way.{Way};

use fr_store::{MakeStop, NodeKind};
use fr_value::{EraId, Held, NodeId, SiteId};

/// The watch and the result of a switch.
#[derive(Clone, Copy)]
pub struct Switch {
    pub watch: NodeId,
    pub result: NodeId,
}

/// A graph of signals in which nodes can be made. After an error the graph is of no use.
pub trait Nodes {
    /// The graph as it stands while an instant is under way, by the choices at the program's sites.
    ghost way: { Self → Sites → Way };

    /// Whether an era has begun.
    ghost has_era: { Self → ℕ → Bool };

    /// Makes a node, which is no watch and no result, as the last member of an era, and queues it. Its expression stands so
    /// many levels below the outermost one, which is at most 2,000. `TooMany` comes only where as many numbers are in use as
    /// the limit.
    fn make(
        &mut self,
        kind: NodeKind,
        inputs: &[Held],
        era: EraId,
        nest: u32,
    ) -> Result<NodeId, MakeStop>
        requires work { IsSome (work_of kind) }
        requires era { IsTrue (has_era self.old era.0) }
        requires there { (sites : Sites) → AreThere (way self.old sites) (parts_of inputs.now) }
        requires nest { nest ≤ most_levels }
        ensures makes { IfOk result (λ id. (sites : Sites) →
            Makes (way self.old sites) (way self.new sites) id.0 era.0 (most_levels - nest)
            (kind_of sites id.0 kind) (parts_of inputs.now)) }
        ensures eras { (x : ℕ) → has_era self.new x ≡ has_era self.old x };

    /// Makes the watch and the result of a switch at a site, whose test is a node, as the last members of an era, and queues
    /// them. The watch holds what stands for the variables in scope. The errors are those of `make`.
    fn make_switch(
        &mut self,
        site: SiteId,
        env: &[Held],
        test: NodeId,
        era: EraId,
        nest: u32,
    ) -> Result<Switch, MakeStop>
        requires era { IsTrue (has_era self.old era.0) }
        requires there { (sites : Sites) → (way self.old sites).graph.live test.0 ≡ true }
        requires env { (sites : Sites) → AreThere (way self.old sites) (parts_of env.now) }
        requires nest { nest ≤ most_levels }
        ensures makes { IfOk result (λ made. (sites : Sites) →
            MakesSwitch (way self.old sites) (way self.new sites) made.watch.0 made.result.0 era.0
            (most_levels - nest) (sites site.0).yes (sites site.0).no (parts_of env.now) test.0) }
        ensures eras { (x : ℕ) → has_era self.new x ≡ has_era self.old x };

    /// Gives a delay or a feedback the part that its cell takes behind the instant. It takes no memory.
    fn tie(&mut self, id: NodeId, last: Held)
        requires there { (sites : Sites) → (way self.old sites).graph.live id.0 ≡ true }
        ensures ties { (sites : Sites) → Ties (way self.old sites) (way self.new sites) id.0 (part_of last) }
        ensures eras { (x : ℕ) → has_era self.new x ≡ has_era self.old x };
}
