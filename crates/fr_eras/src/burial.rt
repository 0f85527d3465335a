// The burial of dead nodes.
ghost use Rattle.std.specs.Prelude.{◌≡◌, ℕ, ◌<◌, IsSome, IsTrue};
ghost use Rattle.fr_links.specs.Lists.{has_item, list_at};
ghost use Rattle.fr_store.specs.Nodes.{node_at};
ghost use Rattle.fr_eras.specs.Kept.{AreApart};
ghost use Rattle.fr_eras.specs.Burial.{Empties, GivesUp};

use crate::ending::GRAVE;
use fr_links::Links;
use fr_store::Store;
use fr_value::NodeId;

/// Clears the nodes in the grave and gives up their numbers.
pub fn bury_all(links: &mut Links, store: &mut Store)
    requires apart { AreApart links.old.lists }
    requires live { (node : ℕ) → IsTrue (has_item (list_at links.old.lists 0) node) → IsSome (node_at store.old node) }
    ensures empties { Empties links.old.lists links.new.lists }
    ensures gives_up { GivesUp (list_at links.old.lists 0) store.old store.new }
{
    while let Some(item) = links.first(GRAVE) {
        let node = NodeId(item as u32);
        store.clear(node);
        store.give_up(node);
        links.unlink(item);
    }
}
