//! Worlds with the nodes of a program's sources.
ghost use Rattle.std.specs.Prelude.{◌≡◌, ◌≤◌, ℕ, true, nat_eq, length, IfOk};
ghost use Rattle.fr_eras.specs.Lives.{is_era};
ghost use Rattle.fr_graph.specs.Graph.{source};
ghost use Rattle.fr_nodes.specs.Kinds.{Sites, kind_of};
ghost use Rattle.fr_queue.specs.Queue.{IsEmpty};
ghost use Rattle.fr_store.specs.Nodes.{most_nodes};
ghost use Rattle.fr_world.specs.Calls.{HasSources};
ghost use Rattle.fr_world.specs.World.{way_by, way_of};

use crate::world::World;
use fr_queue::Agenda;
use fr_store::{MakeStop, NodeKind};
use fr_value::EraId;
use std::alloc::Global;

/// What a source of a program is.
#[derive(Clone, Copy)]
pub enum Source {
    Now,
    Input,
    Event,
}

impl Source {
    fn kind(self) -> NodeKind
        ensures { (sites : Sites) (m : ℕ) → kind_of sites m result ≡ source m }
    {
        match self {
            Source::Now => NodeKind::Now,
            Source::Input => NodeKind::Input,
            Source::Event => NodeKind::Event,
        }
    }
}

impl<A: Agenda + Drop> World<A> {
    /// A graph with a node for each source of a program, in order, so that the number of a node is that of its source. It is
    /// for at most so many nodes, and `TooMany` comes only where that is too few.
    pub fn with_sources(
        alloc: Global,
        agenda: A,
        limit: u32,
        sources: &[Source],
    ) -> Result<World<A>, MakeStop>
        requires limit { limit ≤ most_nodes }
        requires empty { IsEmpty (A.queued agenda) }
        ensures sources { IfOk result (λ w. (sites : Sites) →
            HasSources (way_by w.whole (way_of sites w.store w.eras (A.queued w.agenda) w.instant)) (length sources.now)) }
        ensures eras { IfOk result (λ w. (x : ℕ) → is_era w.eras x ≡ nat_eq x 0) }
    {
        let mut world = World::new(alloc, agenda, limit)?;
        for source in sources {
            world.add(source.kind(), &[], EraId(0), 0, 0)?;
        }
        Ok(world)
    }
}
