ghost use Rattle.std.specs.Prelude.{◌≡◌, ◌∷◌, ◌+◌, ◌≤◌, ◌<◌, ◌^◌, [], Some, None, IfOk, IfSome, OnErr, OnOk};
ghost use Rattle.fr_eras.specs.Raise.{noted};

use fr_links::Links;
use std::alloc::{AllocError, Global};
use std::marker::Model;

/// Nodes that wait, each once, the one that came first in front.
#[derive(Drop)]
pub struct Work {
    links: Links,
    /// Nodes with numbers below this take no memory.
    room: usize,
}

impl Model for Work {
    ghost use Rattle.fr_eras.specs.Work.{IsWork, Working, working};

    ghost Value = { Working };

    ghost view = { λ work. working work.links };

    ghost invariant = { λ work. IsWork work.links work.room };
}

impl Work {
    /// No nodes, and no room.
    pub fn new(alloc: Global) -> Result<Work, AllocError>
        ensures { IfOk result (λ work. work.nodes ≡ []) }
    {
        let mut links = Links::new(alloc);
        links.reserve(1, 0)?;
        Ok(Work { links, room: 0 })
    }

    /// Takes room for a node. It fails only where memory is wanting, and then all is as before.
    pub fn make_room(&mut self, node: usize) -> Result<(), AllocError>
        requires { node < 2 ^ 32 }
        ensures nodes { self.new.nodes ≡ self.old.nodes }
        ensures more { self.old.room ≤ self.new.room }
        ensures room { OnOk result (node < self.new.room) }
        ensures none { OnErr result (self.old.room ≤ node) }
    {
        if node < self.room {
            return Ok(());
        }
        self.links.reserve(1, node + 1)?;
        self.room = node + 1;
        Ok(())
    }

    /// Puts a node at the end, unless it waits already. It fails only where there is no room for it and memory is
    /// wanting, and then the nodes are as before.
    pub fn note(&mut self, node: usize) -> Result<(), AllocError>
        requires { node < 2 ^ 32 }
        ensures nodes { OnOk result (self.new.nodes ≡ noted self.old.nodes node) }
        ensures more { self.old.room ≤ self.new.room }
        ensures none { OnErr result (self.old.room ≤ node) }
    {
        self.make_room(node)?;
        if self.links.list_of(node).is_none() {
            self.links.push_back(0, node);
        }
        Ok(())
    }

    /// Takes the first node, or answers None exactly where there is none.
    pub fn take(&mut self) -> Option<usize>
        ensures room { self.new.room ≡ self.old.room }
        ensures small { IfSome result (λ node. node < 2 ^ 32) }
        ensures taken { IfSome result (λ node. self.old.nodes ≡ node ∷ self.new.nodes) }
        ensures none { result ≡ None → self.old.nodes ≡ [] }
        ensures same { result ≡ None → self.new.nodes ≡ [] }
    {
        let node = self.links.first(0)?;
        self.links.unlink(node);
        Some(node)
    }

    /// Forgets all nodes.
    pub fn clear(&mut self)
        ensures nodes { self.new.nodes ≡ [] }
        ensures room { self.new.room ≡ self.old.room }
    {
        while self.take().is_some() {}
    }
}
