// The end of eras, as far as their lists go.
ghost use Rattle.std.specs.Prelude.{◌≡◌, ◌≢◌, ℕ, ◌+◌, ◌^◌, ◌<◌, ◌≤◌, [], false, length};
ghost use Rattle.fr_links.specs.Lists.{list_at};
ghost use Rattle.fr_queue.specs.Queue.{KeepsRoom};
ghost use Rattle.fr_eras.specs.Lives.{EndsEra, Killed, LeavesQueue, Under, is_set};
ghost use Rattle.fr_eras.specs.Kept.{AreApart, AreLives, Moving, NoneCame, lives_of};

use fr_links::Links;
use fr_queue::Agenda;
use fr_value::NodeId;

/// The list of the nodes that are dead.
pub const GRAVE: usize = 0;

/// The list with the members of an era.
pub fn list_of_era(era: usize) -> usize
    requires { era < 2 ^ 33 }
    ensures { result ≡ era + 1 }
{
    era + 1
}

/// Moves all items of a list to the end of the grave.
fn move_members(links: &mut Links, list: usize)
    requires apart { AreApart links.old.lists }
    requires grave { 0 < length links.old.lists }
    requires other { list ≢ 0 }
    ensures moves { Moving links.old.lists links.new.lists list }
    ensures empty { list_at links.new.lists list ≡ [] }
{
    while let Some(node) = links.first(list) {
        links.move_to(node, GRAVE);
    }
}

/// Makes a flag false; those past the end are.
fn clear_flag(flags: &mut Vec<bool>, number: usize)
    ensures len { length flags.new.items ≡ length flags.old.items }
    ensures here { is_set flags.new.items number ≡ false }
    ensures others { (other : ℕ) → other ≢ number → is_set flags.new.items other ≡ is_set flags.old.items other }
{
    if number < flags.len() {
        flags[number] = false;
    }
}

/// Ends one era, or does nothing where there is none with this number.
fn end_era(links: &mut Links, begun: &mut Vec<bool>, era: usize)
    requires lives { AreLives (lives_of links.old.lists begun.old.items) }
    requires not_program { era ≢ 0 }
    requires small { era < 2 ^ 33 }
    ensures ends { EndsEra (lives_of links.old.lists begun.old.items) (lives_of links.new.lists begun.new.items) era }
    ensures lives { AreLives (lives_of links.new.lists begun.new.items) }
    ensures came { NoneCame links.old.lists links.new.lists }
{
    move_members(links, list_of_era(era));
    clear_flag(begun, era);
}

/// Ends an era with all eras under it, and takes their nodes out of the agenda. The end of the grave is the list of what
/// is still to do.
pub fn end_with_nested<A: Agenda>(
    links: &mut Links,
    begun: &mut Vec<bool>,
    agenda: &mut A,
    era: usize,
)
    requires lives { AreLives (lives_of links.old.lists begun.old.items) }
    requires not_program { era ≢ 0 }
    requires small { era < 2 ^ 33 }
    ensures killed { Killed (lives_of links.old.lists begun.old.items) (lives_of links.new.lists begun.new.items) era }
    ensures lives { AreLives (lives_of links.new.lists begun.new.items) }
    ensures came { NoneCame links.old.lists links.new.lists }
    ensures queue { LeavesQueue (Under (lives_of links.old.lists begun.old.items) era) (A.queued agenda.old) (A.queued agenda.new) }
    ensures keeps_room { KeepsRoom (A.room agenda.old) (A.room agenda.new) }
{
    let mut at = links.first(list_of_era(era));
    end_era(links, begun, era);
    while let Some(node) = at {
        agenda.drop_node(NodeId(node as u32));
        end_era(links, begun, node + 1);
        at = links.next(node);
    }
}
