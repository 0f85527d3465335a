//! The calls of an instant.
ghost use Rattle.std.specs.Prelude.{◌≡◌};

use crate::parts::{end_owned, list_late_members, queue_all, queue_one};
use crate::world::{MOST_HIGH, World};
use fr_nodes::Signals;
use fr_queue::Agenda;
use fr_store::{Cell, Node};
use fr_value::{EraId, Held, NodeId, Now};
use std::alloc::AllocError;

impl<A: Agenda + Drop> Signals for World<A> {
    fn is_sound(&self) {}

    fn begin(&mut self) -> Result<(), AllocError> {
        if self.instant == u64::MAX {
            return Err(AllocError);
        }
        self.instant += 1;
        Ok(())
    }

    fn take(&mut self) -> Option<NodeId> {
        if !self.whole {
            return None;
        }
        self.agenda.take()
    }

    fn lives(&self, id: NodeId) -> bool {
        !self.eras.in_grave(id)
    }

    fn node(&self, id: NodeId) -> &Node {
        self.store.node(id)
    }

    fn result_of(&self, watch: NodeId) -> NodeId {
        match self.eras.next_member(watch) {
            Some(result) => result,
            None => unreachable!(),
        }
    }

    fn set(&mut self, id: NodeId, value: Now, cell: Option<Cell>) {
        self.store.set(id, value, cell, self.instant);
    }

    fn queue(&mut self, id: NodeId) -> Result<(), AllocError> {
        self.whole = false;
        queue_one(&self.store, &self.eras, &mut self.agenda, id)?;
        self.whole = true;
        Ok(())
    }

    fn queue_readers(&mut self, id: NodeId) -> Result<(), AllocError> {
        self.whole = false;
        queue_all(&self.store, &self.eras, &mut self.agenda, id)?;
        self.whole = true;
        Ok(())
    }

    fn renew(&mut self, watch: NodeId) -> Result<EraId, AllocError> {
        self.whole = false;
        end_owned(&self.store, &mut self.eras, &mut self.agenda, watch);
        let era = self.eras.begin(watch)?;
        self.whole = true;
        Ok(era)
    }

    fn rewire(&mut self, id: NodeId, input: Held) {
        self.store.rewire(id, input);
    }

    fn raise(&mut self, from: NodeId) -> Result<(), AllocError> {
        self.whole = false;
        let top = self.highest + u128::from(self.store.count());
        if top > MOST_HIGH {
            return Err(AllocError);
        }
        self.eras
            .raise_from(from, &mut self.store, &mut self.agenda)?;
        self.highest = top;
        self.whole = true;
        Ok(())
    }

    fn latch(&mut self, id: NodeId, cell: Cell) {
        self.store.latch(id, cell);
    }

    fn list_late(&self, era: EraId, late: &mut Vec<NodeId>) -> Result<(), AllocError> {
        if !self.whole {
            return Ok(());
        }
        list_late_members(&self.store, &self.eras, era, late)
    }

    fn bury(&mut self) {
        if !self.whole {
            return;
        }
        self.eras.bury(&mut self.store);
    }
}
