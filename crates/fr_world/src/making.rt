//! The making of nodes.
ghost use Rattle.std.specs.Prelude.{◌≡◌, ℕ, suc, ◌+◌, ◌^◌, ◌≤◌, true, IfOk, OnOk, IsTrue};
ghost use Rattle.fr_meaning.specs.Evaluation.{most_levels};
ghost use Rattle.fr_store.specs.Nodes.{AreLive, least_height, new_node};
ghost use Rattle.fr_eras.specs.Heights.{height_at};
ghost use Rattle.fr_eras.specs.Lives.{is_era};
ghost use Rattle.fr_world.specs.Calls.{Adds};
ghost use Rattle.fr_world.specs.World.{way_by, way_of};

use crate::held::shared;
use crate::world::{MOST_HIGH, World};
use fr_nodes::{Nodes, Switch};
use fr_queue::Agenda;
use fr_store::{MakeStop, NodeKind, Variables};
use fr_value::{EraId, Held, NodeId, SiteId};
use std::alloc::AllocError;

impl<A: Agenda + Drop> World<A> {
    /// The least height of a member of an era: above the owner.
    fn floor(&self, era: EraId) -> u128
        requires whole { self.now.whole ≡ true }
        requires era { IsTrue (is_era self.now.eras era.0) }
        ensures low { result ≤ self.now.highest + 1 }
        ensures above { (w : ℕ) → era.0 ≡ suc w → result ≡ height_at self.now.store w + 1 }
    {
        match self.eras.owner(era) {
            None => 0,
            Some(owner) => self.store.node(owner).height + 1,
        }
    }

    /// Makes a node, puts it behind the other members of its era, and queues it.
    pub(crate) fn add(
        &mut self,
        kind: NodeKind,
        inputs: &[Held],
        era: EraId,
        floor: u128,
        nest: u32,
    ) -> Result<NodeId, MakeStop>
        requires whole { self.old.whole ≡ true }
        requires era { IsTrue (is_era self.old.eras era.0) }
        requires live { AreLive self.old.store inputs.now }
        requires floor { floor ≤ self.old.highest + 1 }
        requires nest { nest ≤ most_levels }
        ensures adds { IfOk result (λ id.
            Adds self.old.store self.new.store self.old.eras self.new.eras
            (A.queued self.old.agenda) (A.queued self.new.agenda) id.0 era.0
            (new_node kind inputs.now era (least_height self.old.store.nodes floor inputs.now)
            nest self.old.instant)) }
        ensures instant { self.new.instant ≡ self.old.instant }
        ensures eras { (x : ℕ) → is_era self.new.eras x ≡ is_era self.old.eras x }
        ensures whole { OnOk result (self.new.whole ≡ true) }
    {
        self.whole = false;
        if self.highest >= MOST_HIGH {
            return Err(MakeStop::Memory(AllocError));
        }
        let id = self
            .store
            .make(kind, inputs, era, floor, nest, self.instant)?;
        let height = self.store.node(id).height;
        self.highest = self.highest.max(height);
        self.eras.join(era, id)?;
        self.agenda.add(id, height)?;
        self.whole = true;
        Ok(id)
    }
}

impl<A: Agenda + Drop> Nodes for World<A> {
    ghost way = { λ w sites. way_by w.whole (way_of sites w.store w.eras (A.queued w.agenda) w.instant) };

    ghost has_era = { λ w x. is_era w.eras x };

    fn make(
        &mut self,
        kind: NodeKind,
        inputs: &[Held],
        era: EraId,
        nest: u32,
    ) -> Result<NodeId, MakeStop> {
        if !self.whole {
            return Err(MakeStop::Memory(AllocError));
        }
        let floor = self.floor(era);
        self.add(kind, inputs, era, floor, nest)
    }

    fn make_switch(
        &mut self,
        site: SiteId,
        env: &[Held],
        test: NodeId,
        era: EraId,
        nest: u32,
    ) -> Result<Switch, MakeStop> {
        let held = Variables::of(self.alloc, shared(self.alloc, env)?)?;
        let floor = self.floor(era);
        let test = [Held::Signal(test)];
        let watch = self.add(NodeKind::IfWatch(site, held), &test, era, floor, nest)?;
        let above = self.store.node(watch).height + 1;
        let result = self.add(NodeKind::Result, &[], era, above, nest)?;
        Ok(Switch { watch, result })
    }

    fn tie(&mut self, id: NodeId, last: Held) {
        self.store.tie(id, last);
    }
}
