ghost use Rattle.std.specs.Prelude.{◌≡◌, ◌≢◌, ℕ, ◌+◌, ◌<◌, ◌≤◌, [], false, length, max, Some, None, IsOk, IsSome, IsTrue, IfOk, IfSome, OnErr, OnOk, ◌↔◌, slice_get};
ghost use Rattle.fr_links.specs.Lists.{has_item};
ghost use Rattle.fr_queue.specs.Queue.{KeepsRoom};
ghost use Rattle.fr_eras.specs.Lives.{AreNew, AreSame, BeginsEra, IsAlone, IsMember, JoinsEra, Killed, LeavesQueue, Under, grave, is_era, is_set, members};
ghost use Rattle.fr_eras.specs.Burial.{Buries, GivesUp};
ghost use Rattle.fr_eras.specs.Heights.{AreEarlier, AreLevelledBut, AreMild, AreQueuedRight, AreThere, HasRoomToRaise, IsLive, OnlyHeights, QueueFollows, RaisesFrom, RisesAlong, above, height_at};
ghost use Rattle.fr_eras.specs.Order.{node_at, nodes_of};

use crate::burial::bury_all;
use crate::ending::{GRAVE, end_with_nested, list_of_era};
use crate::order::Members;
use crate::raise::raise_all;
use crate::work::Work;
use fr_links::Links;
use fr_queue::Agenda;
use fr_store::Store;
use fr_value::{EraId, NodeId};
use std::alloc::{AllocError, Global};
use std::marker::Model;

/// Nodes with numbers from here on own no era.
pub const MOST_OWNERS: u32 = 1 << 24;

/// Which nodes live together: each era has an owner, which is a node or the program, and members in order of creation.
/// Nodes whose era has ended lie in the grave until they are buried. A node stands in one era at most, or in the grave.
///
/// The era of the program has the number 0, and that of a node the node's number plus 1.
#[derive(Drop)]
pub struct Eras {
    links: Links,
    /// Which numbers are eras'.
    begun: Vec<bool>,
    /// The nodes from which heights are still to be raised.
    work: Work,
}

impl Model for Eras {
    ghost use Rattle.fr_eras.specs.Lives.{Lives};
    ghost use Rattle.fr_eras.specs.Kept.{AreEras, lives_of};

    ghost Value = { Lives };

    ghost view = { λ eras. lives_of eras.links.lists eras.begun.items };

    ghost invariant = { λ eras. AreEras (lives_of eras.links.lists eras.begun.items) eras.work.room };
}

impl Eras {
    /// The era of the program alone, without members.
    pub fn new(alloc: Global) -> Result<Eras, AllocError>
        ensures { IfOk result AreNew }
    {
        let mut links = Links::new(alloc);
        links.reserve(2, 0)?;
        let work = Work::new(alloc)?;
        let mut begun = Vec::new(alloc);
        begun.push(true)?;
        Ok(Eras { links, begun, work })
    }

    /// Begins the era of a node that owns none. It has no members. It fails only where memory is wanting, and then the
    /// eras are as before.
    pub fn begin(&mut self, owner: NodeId) -> Result<EraId, AllocError>
        requires small { owner.0 < MOST_OWNERS }
        requires owns_none { is_era self.old (owner.0 + 1) ≡ false }
        ensures number { IfOk result (λ era. era.0 ≡ owner.0 + 1) }
        ensures begins { OnOk result (BeginsEra self.old self.new (owner.0 + 1)) }
        ensures err { OnErr result (AreSame self.old self.new) }
    {
        let era = owner.0 + 1;
        self.links.reserve(list_of_era(era as usize) + 1, 0)?;
        add_flags(&mut self.begun, era as usize + 1)?;
        self.begun[era as usize] = true;
        Ok(EraId(era))
    }

    /// Makes a node the last member of an era, and takes the room that `kill` and `raise_from` need for it. It fails only
    /// where memory is wanting, and then the eras are as before.
    pub fn join(&mut self, era: EraId, node: NodeId) -> Result<(), AllocError>
        requires there { IsTrue (is_era self.old era.0) }
        requires alone { IsAlone self.old node.0 }
        ensures joins { OnOk result (JoinsEra self.old self.new era.0 node.0) }
        ensures err { OnErr result (AreSame self.old self.new) }
    {
        let item = node.0 as usize;
        self.links.reserve(0, item + 1)?;
        self.work.make_room(item)?;
        self.links.push_back(list_of_era(era.0 as usize), item);
        Ok(())
    }

    /// Ends an era with all eras that its members own, at any depth: their members go to the grave and leave the agenda.
    /// None of them was computed at the latest instant. It takes no memory: `begin` and `join` made the room.
    pub fn kill<A: Agenda>(&mut self, era: EraId, _store: &Store, agenda: &mut A)
        requires there { IsTrue (is_era self.old era.0) }
        requires not_program { era.0 ≢ 0 }
        requires live { AreThere self.old _store.now }
        requires earlier { AreEarlier self.old _store.now era.0 }
        ensures killed { Killed self.old self.new era.0 }
        ensures queue { LeavesQueue (Under self.old era.0) (A.queued agenda.old) (A.queued agenda.new) }
        ensures keeps_room { KeepsRoom (A.room agenda.old) (A.room agenda.new) }
    {
        end_with_nested(&mut self.links, &mut self.begun, agenda, era.0 as usize);
    }

    /// Clears the nodes in the grave and gives up their numbers, so that the grave is empty. Nothing that lives is to name
    /// one of them. It takes no memory.
    pub fn bury(&mut self, store: &mut Store)
        requires live { AreThere self.old store.old }
        ensures buries { Buries self.old self.new }
        ensures gives_up { GivesUp (grave self.old) store.old store.new }
    {
        bury_all(&mut self.links, store);
    }

    /// Raises what depends on a node, until every input and owner stands below what depends on it, and every watch below its
    /// result. It fails only where memory is wanting, and takes none where the agenda has room; after an error the heights
    /// are not told.
    pub fn raise_from<A: Agenda>(
        &mut self,
        id: NodeId,
        store: &mut Store,
        agenda: &mut A,
    ) -> Result<(), AllocError>
        requires live { AreThere self.old store.old }
        requires there { IsLive store.old id.0 }
        requires mild { AreMild store.old }
        requires queue { AreQueuedRight (A.queued agenda.old) store.old }
        requires levelled { AreLevelledBut (above self.old store.old) (height_at store.old) id.0 }
        requires ordered { (rank : ℕ → ℕ) × RisesAlong (above self.old store.old) rank }
        ensures raised { OnOk result (RaisesFrom self.old store.old store.new id.0) }
        ensures queue { OnOk result (QueueFollows (A.queued agenda.old) (A.queued agenda.new) store.new) }
        ensures only { OnlyHeights store.old store.new }
        ensures same { self.new ≡ self.old }
        ensures keeps_room { KeepsRoom (A.room agenda.old) (A.room agenda.new) }
        ensures in_room { HasRoomToRaise (A.room agenda.old) self.old store.old → IsOk result }
    {
        raise_all(&self.links, &mut self.work, store, agenda, id)
    }

    /// The members of an era in order of creation.
    pub fn in_order(&self, era: EraId) -> Members<'_>
        requires { IsTrue (is_era self.now era.0) }
        ensures { result ≡ nodes_of (members self.now era.0) }
    {
        Members::of(&self.links, list_of_era(era.0 as usize))
    }

    /// The era that a node owns, or None exactly where it owns none.
    pub fn owned(&self, watch: NodeId) -> Option<EraId>
        ensures exact { IsSome result ↔ IsTrue (is_era self.now (watch.0 + 1)) }
        ensures number { IfSome result (λ era. era.0 ≡ watch.0 + 1) }
    {
        let era = watch.0 as usize + 1;
        match self.begun.get(era) {
            Some(true) => Some(EraId(era as u32)),
            _ => None,
        }
    }

    /// The node that owns an era, or None exactly for the era of the program.
    pub fn owner(&self, era: EraId) -> Option<NodeId>
        requires { IsTrue (is_era self.now era.0) }
        ensures program { (result ≡ None) ↔ (era.0 ≡ 0) }
        ensures number { IfSome result (λ node. era.0 ≡ node.0 + 1) }
    {
        if era.0 == 0 {
            None
        } else {
            Some(NodeId(era.0 - 1))
        }
    }

    /// The member of the same era that was made next after a member, or None exactly where it is the last. The next
    /// member after a watch is its result.
    pub fn next_member(&self, node: NodeId) -> Option<NodeId>
        requires { IsMember self.now node.0 }
        ensures { (era place : ℕ) → slice_get (members self.now era) place ≡ Some node.0 → result ≡ node_at (slice_get (members self.now era) (place + 1)) }
    {
        let next = self.links.next(node.0 as usize)?;
        Some(NodeId(next as u32))
    }

    /// Whether a node is in the grave.
    pub fn in_grave(&self, node: NodeId) -> bool
        ensures { IsTrue result ↔ IsTrue (has_item (grave self.now) node.0) }
    {
        self.links.list_of(node.0 as usize) == Some(GRAVE)
    }
}

/// Makes room for so many flags; new ones are false.
fn add_flags(flags: &mut Vec<bool>, many: usize) -> Result<(), AllocError>
    ensures enough { OnOk result (many ≤ length flags.new.items) }
    ensures few { length flags.new.items ≤ max (length flags.old.items) many }
    ensures same { (number : ℕ) → is_set flags.new.items number ≡ is_set flags.old.items number }
{
    if flags.len() < many {
        flags.resize(many, false)?;
    }
    Ok(())
}
