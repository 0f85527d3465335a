// The raising of heights.
ghost use Rattle.std.specs.Prelude.{◌≡◌, ℕ, ◌+◌, ◌^◌, ◌<◌, ◌≤◌, ◌⊎◌, Some, None, IfSome, IsOk, IsSome, IsTrue, OnOk, length, true, count_by, is_some};
ghost use Rattle.fr_links.specs.Lists.{has_item};
ghost use Rattle.fr_queue.specs.Queue.{KeepsRoom};
ghost use Rattle.fr_store.specs.Nodes.{node_at};
ghost use Rattle.fr_eras.specs.Lives.{eras_in};
ghost use Rattle.fr_eras.specs.Kept.{AreApart};
ghost use Rattle.fr_eras.specs.Raise.{AreRaised, Lifts};
ghost use Rattle.fr_eras.specs.Heights.{AreLevelledBut, AreMild, AreQueuedRight, HasRoomFor, IsAbove, IsKept, IsResult, QueueFollows, Requeues, RisesAlong, greatest_height, height_at};
ghost use Rattle.fr_eras.specs.Rising.{Advances, GoesOn, KeepsAll, WantsNone, nothing};

use crate::ending::{GRAVE, list_of_era};
use crate::work::Work;
use fr_links::Links;
use fr_queue::Agenda;
use fr_store::Store;
use fr_value::NodeId;
use std::alloc::AllocError;

/// Raises a node in the agenda, where it is in it.
fn raise_queued<A: Agenda>(agenda: &mut A, node: NodeId, height: u128) -> Result<(), AllocError>
    requires { (was : ℕ) → A.queued agenda.old node.0 ≡ Some was → was ≤ height }
    ensures ok { OnOk result (Requeues (A.queued agenda.old) (A.queued agenda.new) node.0 height) }
    ensures in_room { IsTrue (A.room agenda.old node.0 height) → IsOk result }
    ensures keeps_room { KeepsRoom (A.room agenda.old) (A.room agenda.new) }
{
    if agenda.has(node) {
        agenda.raise(node, height)?;
    }
    Ok(())
}

/// Lifts a node above another, in the agenda too, and notes it, unless it stands above already.
fn raise_one<A: Agenda>(
    work: &mut Work,
    store: &mut Store,
    agenda: &mut A,
    lower: NodeId,
    upper: NodeId,
) -> Result<(), AllocError>
    requires lower { IsSome (node_at store.old lower.0) }
    requires upper { IsSome (node_at store.old upper.0) }
    requires low { height_at store.old lower.0 < 2 ^ 120 }
    requires queue { AreQueuedRight (A.queued agenda.old) store.old }
    ensures lifts { OnOk result (Lifts (height_at store.old) (height_at store.new) lower.0 upper.0 work.old.nodes work.new.nodes) }
    ensures queue { OnOk result (QueueFollows (A.queued agenda.old) (A.queued agenda.new) store.new) }
    ensures keeps { KeepsAll store.old store.new (A.room agenda.old) (A.room agenda.new) work.old work.new }
    ensures in_room { IsTrue (A.room agenda.old upper.0 (height_at store.old lower.0 + 1)) → upper.0 < work.old.room → IsOk result }
{
    let height = store.node(lower).height;
    if store.node(upper).height > height {
        return Ok(());
    }
    store.lift(upper, height + 1);
    raise_queued(agenda, upper, height + 1)?;
    work.note(upper.0 as usize)?;
    Ok(())
}

/// Raises the nodes that read a node.
fn raise_readers<A: Agenda>(
    links: &Links,
    work: &mut Work,
    store: &mut Store,
    agenda: &mut A,
    lower: NodeId,
) -> Result<(), AllocError>
    requires there { IsSome (node_at store.old lower.0) }
    requires queue { AreQueuedRight (A.queued agenda.old) store.old }
    requires goes_on { GoesOn (eras_in links.now.lists) store.old work.old.nodes lower.0 (λ base. IsAbove base (eras_in links.now.lists) lower.0) }
    ensures advances { OnOk result (Advances (eras_in links.now.lists) lower.0 (λ base. IsAbove base (eras_in links.now.lists) lower.0) (λ base. IsKept base (eras_in links.now.lists) lower.0) store.old store.new (A.queued agenda.old) (A.queued agenda.new) work.old.nodes work.new.nodes) }
    ensures keeps { KeepsAll store.old store.new (A.room agenda.old) (A.room agenda.new) work.old work.new }
    ensures in_room { WantsNone (eras_in links.now.lists) store.old (A.room agenda.old) work.old lower.0 (λ base. IsAbove base (eras_in links.now.lists) lower.0) (IsOk result) }
{
    let mut edge = store.first_dependent(lower);
    while let Some(at) = edge {
        raise_one(work, store, agenda, lower, store.edge_node(at))?;
        edge = store.next_dependent(at);
    }
    Ok(())
}

/// Raises the members of the era that a node owns.
fn raise_members<A: Agenda>(
    links: &Links,
    work: &mut Work,
    store: &mut Store,
    agenda: &mut A,
    lower: NodeId,
) -> Result<(), AllocError>
    requires apart { AreApart links.now.lists }
    requires live { (member : ℕ) → IsTrue (has_item (eras_in links.now.lists (lower.0 + 1)) member) → IsSome (node_at store.old member) }
    requires there { IsSome (node_at store.old lower.0) }
    requires queue { AreQueuedRight (A.queued agenda.old) store.old }
    requires goes_on { GoesOn (eras_in links.now.lists) store.old work.old.nodes lower.0 (λ base. IsKept base (eras_in links.now.lists) lower.0) }
    ensures advances { OnOk result (Advances (eras_in links.now.lists) lower.0 (λ base. IsKept base (eras_in links.now.lists) lower.0) (λ base. IsResult base (eras_in links.now.lists) lower.0) store.old store.new (A.queued agenda.old) (A.queued agenda.new) work.old.nodes work.new.nodes) }
    ensures keeps { KeepsAll store.old store.new (A.room agenda.old) (A.room agenda.new) work.old work.new }
    ensures in_room { WantsNone (eras_in links.now.lists) store.old (A.room agenda.old) work.old lower.0 (λ base. IsKept base (eras_in links.now.lists) lower.0) (IsOk result) }
{
    let mut next = links.first(list_of_era(lower.0 as usize + 1));
    while let Some(member) = next {
        raise_one(work, store, agenda, lower, NodeId(member as u32))?;
        next = links.next(member);
    }
    Ok(())
}

/// Raises the result of a watch.
fn raise_result<A: Agenda>(
    links: &Links,
    work: &mut Work,
    store: &mut Store,
    agenda: &mut A,
    lower: NodeId,
) -> Result<(), AllocError>
    requires apart { AreApart links.now.lists }
    requires live { (list member : ℕ) → IsTrue (has_item (eras_in links.now.lists list) member) → IsSome (node_at store.old member) }
    requires there { IsSome (node_at store.old lower.0) }
    requires queue { AreQueuedRight (A.queued agenda.old) store.old }
    requires goes_on { GoesOn (eras_in links.now.lists) store.old work.old.nodes lower.0 (λ base. IsResult base (eras_in links.now.lists) lower.0) }
    ensures advances { OnOk result (Advances (eras_in links.now.lists) lower.0 (λ base. IsResult base (eras_in links.now.lists) lower.0) nothing store.old store.new (A.queued agenda.old) (A.queued agenda.new) work.old.nodes work.new.nodes) }
    ensures keeps { KeepsAll store.old store.new (A.room agenda.old) (A.room agenda.new) work.old work.new }
    ensures in_room { WantsNone (eras_in links.now.lists) store.old (A.room agenda.old) work.old lower.0 (λ base. IsResult base (eras_in links.now.lists) lower.0) (IsOk result) }
{
    if let Some(upper) = result_of(links, store, lower) {
        raise_one(work, store, agenda, lower, upper)?;
    }
    Ok(())
}

/// The result of a watch, or None where the node isn't a watch with a member behind it.
fn result_of(links: &Links, store: &Store, node: NodeId) -> Option<NodeId>
    requires apart { AreApart links.now.lists }
    requires there { IsSome (node_at store.now node.0) }
    ensures is { IfSome result (λ upper. IsResult store.now (eras_in links.now.lists) node.0 upper.0) }
    ensures only { IfSome result (λ upper. (other : ℕ) → IsResult store.now (eras_in links.now.lists) node.0 other → other ≡ upper.0) }
    ensures none { result ≡ None → (other : ℕ) → IsResult store.now (eras_in links.now.lists) node.0 other → ⊥ }
{
    if !store.node(node).kind.is_watch() {
        return None;
    }
    let item = node.0 as usize;
    let list = links.list_of(item)?;
    if list == GRAVE {
        return None;
    }
    let next = links.next(item)?;
    Some(NodeId(next as u32))
}

/// Raises what stands above a node.
fn raise_above<A: Agenda>(
    links: &Links,
    work: &mut Work,
    store: &mut Store,
    agenda: &mut A,
    lower: NodeId,
) -> Result<(), AllocError>
    requires apart { AreApart links.now.lists }
    requires live { (era member : ℕ) → IsTrue (has_item (eras_in links.now.lists era) member) → IsSome (node_at store.old member) }
    requires there { IsSome (node_at store.old lower.0) }
    requires queue { AreQueuedRight (A.queued agenda.old) store.old }
    requires goes_on { GoesOn (eras_in links.now.lists) store.old work.old.nodes lower.0 (λ base. IsAbove base (eras_in links.now.lists) lower.0) }
    ensures advances { OnOk result (Advances (eras_in links.now.lists) lower.0 (λ base. IsAbove base (eras_in links.now.lists) lower.0) nothing store.old store.new (A.queued agenda.old) (A.queued agenda.new) work.old.nodes work.new.nodes) }
    ensures keeps { KeepsAll store.old store.new (A.room agenda.old) (A.room agenda.new) work.old work.new }
    ensures in_room { WantsNone (eras_in links.now.lists) store.old (A.room agenda.old) work.old lower.0 (λ base. IsAbove base (eras_in links.now.lists) lower.0) (IsOk result) }
{
    raise_readers(links, work, store, agenda, lower)?;
    raise_members(links, work, store, agenda, lower)?;
    raise_result(links, work, store, agenda, lower)?;
    Ok(())
}

/// Raises all that depends on a node, until every edge leads upwards.
pub fn raise_all<A: Agenda>(
    links: &Links,
    work: &mut Work,
    store: &mut Store,
    agenda: &mut A,
    id: NodeId,
) -> Result<(), AllocError>
    requires apart { AreApart links.now.lists }
    requires live { (era member : ℕ) → IsTrue (has_item (eras_in links.now.lists era) member) → IsSome (node_at store.old member) }
    requires there { IsSome (node_at store.old id.0) }
    requires mild { AreMild store.old }
    requires queue { AreQueuedRight (A.queued agenda.old) store.old }
    requires levelled { AreLevelledBut (IsAbove store.old (eras_in links.now.lists)) (height_at store.old) id.0 }
    requires ordered { (rank : ℕ → ℕ) × RisesAlong (IsAbove store.old (eras_in links.now.lists)) rank }
    ensures raised { OnOk result (AreRaised (IsAbove store.old (eras_in links.now.lists)) (height_at store.old) (height_at store.new) (greatest_height store.old) id.0) }
    ensures queue { OnOk result (QueueFollows (A.queued agenda.old) (A.queued agenda.new) store.new) }
    ensures keeps { KeepsAll store.old store.new (A.room agenda.old) (A.room agenda.new) work.old work.new }
    ensures in_room { HasRoomFor (A.room agenda.old) work.old.room store.old (greatest_height store.old) → IsOk result }
{
    // There are few nodes, so that no height leaves its type.
    let _nodes = store.count();
    work.clear();
    work.note(id.0 as usize)?;
    while let Some(item) = work.take() {
        raise_above(links, work, store, agenda, NodeId(item as u32))?;
    }
    Ok(())
}
