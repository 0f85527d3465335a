ghost use Rattle.std.specs.Prelude.{◌≡◌, ℕ, ◌+◌, ◌^◌, ◌<◌, ◌≤◌, false, Some, None, length};
ghost use Rattle.fr_links.specs.Lists.{has_item, list_at};
ghost use Rattle.fr_store.specs.Nodes.{number_of, signal_at};
ghost use Rattle.fr_store.specs.Kept.{Wires};

use crate::inputs::Inputs;
use fr_links::Links;
use fr_value::NodeId;

/// Takes the edges of a run out of all lists.
pub(crate) fn unlink(links: &mut Links, first: usize, room: usize)
    requires small { first + room < 2 ^ 63 }
    ensures lists { length links.new.lists ≡ length links.old.lists }
    ensures items { links.new.items ≡ links.old.items }
    ensures wired { Wires links.old.lists links.new.lists first room (λ _. None) }
{
    for place in 0..room {
        unlink_one(links, first + place);
    }
}

fn unlink_one(links: &mut Links, edge: usize)
    ensures lists { length links.new.lists ≡ length links.old.lists }
    ensures items { links.new.items ≡ links.old.items }
    ensures wired { Wires links.old.lists links.new.lists edge 1 (λ _. None) }
{
    if links.list_of(edge).is_some() {
        links.unlink(edge);
    }
}

/// Puts the edges of a run, which are in no list, into the lists of the nodes that the inputs name.
pub(crate) fn link(links: &mut Links, first: usize, room: usize, inputs: &Inputs)
    requires room { length inputs.now ≤ room }
    requires small { first + room < 2 ^ 63 }
    requires items { first + room ≤ links.old.items }
    requires lists { (l p : ℕ) → signal_at inputs.now p ≡ Some l → l < length links.old.lists }
    requires idle { (l p : ℕ) → p < room → has_item (list_at links.old.lists l) (first + p) ≡ false }
    ensures lists { length links.new.lists ≡ length links.old.lists }
    ensures items { links.new.items ≡ links.old.items }
    ensures wired { Wires links.old.lists links.new.lists first room (signal_at inputs.now) }
{
    for place in 0..inputs.len() {
        let id = inputs.signal(place);
        link_one(links, first + place, id);
    }
}

fn link_one(links: &mut Links, edge: usize, id: Option<NodeId>)
    requires item { edge < links.old.items }
    requires list { (l : ℕ) → number_of id ≡ Some l → l < length links.old.lists }
    requires idle { (l : ℕ) → has_item (list_at links.old.lists l) edge ≡ false }
    ensures lists { length links.new.lists ≡ length links.old.lists }
    ensures items { links.new.items ≡ links.old.items }
    ensures wired { Wires links.old.lists links.new.lists edge 1 (λ _. number_of id) }
{
    if let Some(NodeId(number)) = id {
        links.push_back(number as usize, edge);
    }
}
