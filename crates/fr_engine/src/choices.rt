ghost use Rattle.std.specs.Prelude.{◌≡◌, ◌-◌, ◌≤◌, ℕ, suc, List, IfOk, IfErr, IsTrue, if◌then◌else◌};
ghost use Rattle.fr_core.specs.declared.lowered.Low.{Low};
ghost use Rattle.fr_meaning.specs.Evaluation.{most_levels};
ghost use Rattle.fr_graph.specs.Graph.{Part};
ghost use Rattle.fr_graph.specs.Walk.{Plan};
ghost use Rattle.fr_nodes.specs.Kinds.{Sites, part_of, parts_of};
ghost use Rattle.fr_way.specs.Turns.{IsClear};
ghost use Rattle.fr_engine.specs.Choices.{ChoiceFails, Chooses};
ghost use Rattle.fr_engine.specs.Moment.{HaveSources};
ghost use Rattle.fr_engine.specs.Stops.{StopsWhere};

use crate::stops::RunStop;
use fr_kernel::{Fuel, KernTable, Machine};
use fr_nodes::Signals;
use fr_value::{EraId, Held, NodeId, SiteId};
use std::alloc::Global;

/// A program whose switches' choices can be built.
pub trait Choices<N: Signals> {
    /// What every walk of the program goes by.
    ghost plan: { Self → Plan };

    /// The choices at each site.
    ghost sites: { Self → Sites };

    /// How many sources there are.
    ghost many: { Self → ℕ };

    /// Which two choices can be built over some parts in scope.
    ghost can: { Self → Low → Low → List Part → Type 0 };

    /// What memory is taken from.
    fn alloc(&self) -> Global;

    /// The kernels.
    fn table(&self) -> &KernTable
        ensures { result.now ≡ (plan self.now).table };

    /// Builds the choice of a site in an era without members, that of a watch, over what stands for the variables in scope,
    /// and gives what stands for it. Each work that takes its last part's value behind the instant is listed.
    ///
    /// `Bad` comes only where the building fails, `Fuel` only where what never changes costs more than what was left, and
    /// `TooMany` only where as many numbers are in use as the limit. After an error the graph is of no use.
    fn build(
        &self,
        nodes: &mut N,
        site: SiteId,
        holds: bool,
        held: &[Held],
        watch: NodeId,
        era: EraId,
        nest: u32,
        machine: &mut Machine,
        fuel: &mut Fuel,
        late: &mut Vec<NodeId>,
    ) -> Result<Held, RunStop>
        requires nest { nest ≤ most_levels }
        requires number { era.0 ≡ suc watch.0 }
        requires era { IsTrue (N.has_era nodes.old era.0) }
        requires clear { IsClear (N.way nodes.old (sites self.now)) watch.0 (parts_of held.now) }
        requires fed { HaveSources (N.way nodes.old (sites self.now)).graph (many self.now) }
        requires fits { can self.now (sites self.now site.0).yes (sites self.now site.0).no
            (parts_of held.now) }
        ensures chooses { IfOk result (λ part.
            Chooses (can self.now) (plan self.now) (N.way nodes.old (sites self.now))
            (N.way nodes.new (sites self.now)) watch.0 (most_levels - nest)
            (if holds then (sites self.now site.0).yes else (sites self.now site.0).no)
            (parts_of held.now) (part_of part) late.old.items late.new.items) }
        ensures stops { IfErr result (λ stop. StopsWhere stop (ChoiceFails (plan self.now)
            (most_levels - nest)
            (if holds then (sites self.now site.0).yes else (sites self.now site.0).no)
            (parts_of held.now))) };
}
