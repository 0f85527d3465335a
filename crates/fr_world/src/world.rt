ghost use Rattle.std.specs.Prelude.{◌≡◌, ◌≤◌, ℕ, [], true, nat_eq, IfOk};
ghost use Rattle.fr_eras.specs.Lives.{is_era};
ghost use Rattle.fr_nodes.specs.Kinds.{Sites};
ghost use Rattle.fr_queue.specs.Queue.{IsEmpty};
ghost use Rattle.fr_store.specs.Nodes.{most_nodes};
ghost use Rattle.fr_world.specs.Calls.{HasSources};
ghost use Rattle.fr_world.specs.World.{IsWorld, way_by, way_of};

use fr_eras::Eras;
use fr_queue::Agenda;
use fr_store::Store;
use std::alloc::{AllocError, Global};

/// The height above which no node is put: no run of instants that ends comes near it.
pub(crate) const MOST_HIGH: u128 = 1 << 100;

/// The nodes of a graph, the eras in which they live, and which of them are queued at the instant that is under way.
#[derive(Drop)]
pub struct World<A: Agenda + Drop> {
    pub(crate) store: Store,
    pub(crate) eras: Eras,
    pub(crate) agenda: A,
    /// The number of the instant that is under way.
    pub(crate) instant: u64,
    /// No node stands above this height.
    pub(crate) highest: u128,
    /// Whether no call has failed, so that the parts fit together. Else the graph counts as empty.
    pub(crate) whole: bool,
    pub(crate) alloc: Global,
    ghost is: { whole ≡ true → IsWorld store eras (A.queued agenda) instant highest },
}

impl<A: Agenda + Drop> World<A> {
    /// A graph without nodes, for at most so many, at its instant 0. It fails only where memory is wanting.
    pub fn new(alloc: Global, agenda: A, limit: u32) -> Result<World<A>, AllocError>
        requires limit { limit ≤ most_nodes }
        requires empty { IsEmpty (A.queued agenda) }
        ensures empty { IfOk result (λ w. (sites : Sites) → HasSources (way_by w.whole (way_of sites w.store w.eras (A.queued w.agenda) w.instant)) 0) }
        ensures eras { IfOk result (λ w. (x : ℕ) → is_era w.eras x ≡ nat_eq x 0) }
        ensures whole { IfOk result (λ w. w.whole ≡ true) }
        ensures none { IfOk result (λ w. w.store.nodes ≡ []) }
    {
        Ok(World {
            store: Store::new(alloc, limit),
            eras: Eras::new(alloc)?,
            agenda,
            instant: 0,
            highest: 0,
            whole: true,
            alloc,
        })
    }
}
