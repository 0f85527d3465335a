// The members of an era, one after another.
ghost use Rattle.std.specs.Prelude.{◌≡◌};
ghost use Rattle.fr_links.specs.Lists.{list_at};
ghost use Rattle.fr_eras.specs.Kept.{AreApart};
ghost use Rattle.fr_eras.specs.Order.{nodes_of};

use fr_links::Links;
use fr_value::NodeId;
use std::marker::Model;

/// The members of an era in order of creation. Contracts see those that are left.
#[derive(Drop)]
pub struct Members<'a> {
    links: &'a Links,
    list: usize,
    at: Option<usize>,
}

impl<'a> Model for Members<'a> {
    ghost use Rattle.std.specs.Prelude.{List};
    ghost use Rattle.fr_value.specs.declared.ids.NodeId.{NodeId};
    ghost use Rattle.fr_links.specs.Lists.{list_at};
    ghost use Rattle.fr_eras.specs.Left.{AreLeft};
    ghost use Rattle.fr_eras.specs.Order.{from_here, nodes_of};

    ghost Value = { List NodeId };

    ghost view = { λ it. nodes_of (from_here (list_at it.links.now.lists it.list) it.at) };

    ghost invariant = { λ it. AreLeft it.links.now.lists it.list it.at };
}

impl<'a> Members<'a> {
    /// The items of a list of links, as nodes.
    pub fn of(links: &'a Links, list: usize) -> Members<'a>
        requires { AreApart links.now.lists }
        ensures { result ≡ nodes_of (list_at links.now.lists list) }
    {
        let at = links.first(list);
        Members { links, list, at }
    }
}

impl<'a> Iterator for Members<'a> {
    type Item = NodeId;

    ghost use Rattle.std.specs.Iterator.{YieldsFirst, item_count};

    ghost next_gives = { YieldsFirst (λ it. it) };

    ghost remaining = { item_count (λ it. it) };

    fn next(&mut self) -> Option<NodeId> {
        let item = self.at?;
        self.at = self.links.next(item);
        Some(NodeId(item as u32))
    }
}
