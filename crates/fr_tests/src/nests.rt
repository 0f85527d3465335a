ghost use Rattle.std.specs.Prelude.{◌≡◌, ℕ, true, IfOk, IfSome, IsTrue, OnOk};
ghost use Rattle.fr_eras.specs.Lives.{IsMember, is_era};
ghost use Rattle.fr_tests.specs.Nests.{IsYoung};

use crate::chains::{add_node, lift_first};
use crate::told::Told;
use fr_eras::{Eras, MOST_OWNERS};
use fr_queue::TreeAgenda;
use fr_store::{MakeStop, NodeKind, Store, Variables};
use fr_value::{EraId, Held, NodeId, SiteId};
use sqlite_items::Items;
use std::alloc::{AllocError, Global};

fn watch(alloc: Global) -> Result<NodeKind, AllocError> {
    let held = Variables::of(alloc, Items::new(alloc))?;
    Ok(NodeKind::IfWatch(SiteId(0), held))
}

/// Makes a node that reads none, and makes it the last member of an era.
fn add_member(
    eras: &mut Eras,
    store: &mut Store,
    era: EraId,
    kind: NodeKind,
) -> Result<NodeId, MakeStop>
    requires there { IsTrue (is_era eras.old era.0) }
    requires young { IsYoung eras.old store.old }
    ensures young { OnOk result (IsYoung eras.new store.new) }
    ensures eras { OnOk result ((other : ℕ) → is_era eras.new other ≡ is_era eras.old other) }
    ensures member { IfOk result (λ id. IsMember eras.new id.0) }
    ensures members { OnOk result ((node : ℕ) → IsMember eras.old node → IsMember eras.new node) }
{
    let id = store.make(kind, &[], era, 0, 1, 0)?;
    eras.join(era, id)?;
    Ok(id)
}

/// Begins the era of a node, if it owns none.
fn begin(eras: &mut Eras, store: &Store, owner: NodeId) -> Result<Option<EraId>, AllocError>
    requires young { IsYoung eras.old store.now }
    ensures young { OnOk result (IsYoung eras.new store.now) }
    ensures there { IfOk result (λ begun. IfSome begun (λ era. IsTrue (is_era eras.new era.0))) }
{
    if owner.0 >= MOST_OWNERS {
        return Ok(None);
    }
    match eras.owned(owner) {
        Some(_) => Ok(None),
        None => {
            let era = eras.begin(owner)?;
            Ok(Some(era))
        }
    }
}

/// Makes two members of a new era of a node, the first a watch, which it gives.
fn add_two(
    alloc: Global,
    eras: &mut Eras,
    store: &mut Store,
    out: &mut Told,
    owner: NodeId,
) -> Result<NodeId, MakeStop>
    requires young { IsYoung eras.old store.old }
    ensures young { OnOk result (IsYoung eras.new store.new) }
{
    let Some(era) = begin(eras, store, owner)? else {
        return Ok(owner);
    };
    let first = add_member(eras, store, era, watch(alloc)?)?;
    let second = add_member(eras, store, era, NodeKind::Now)?;
    if eras.next_member(first) == Some(second) && eras.owner(era) == Some(owner) {
        out.number(u64::from(era.0));
    }
    Ok(first)
}

fn tell_grave(out: &mut Told, eras: &Eras) {
    for number in 0..8u32 {
        if eras.in_grave(NodeId(number)) {
            out.number(u64::from(number));
        }
    }
    out.word("|");
}

/// Ends the era of a node, if it owns one, and tells what is in the grave and how many nodes there are before and after.
fn tell_end(
    out: &mut Told,
    eras: &mut Eras,
    store: &mut Store,
    agenda: &mut TreeAgenda,
    owner: NodeId,
)
    requires { IsYoung eras.old store.old }
{
    out.number(u64::from(store.count()));
    if let Some(era) = eras.owned(owner) {
        eras.kill(era, store, agenda);
        tell_grave(out, eras);
        eras.bury(store);
        tell_grave(out, eras);
    }
    out.number(u64::from(store.count()));
}

/// Makes a watch, below it three eras, each that of the first node of the one before, and ends the outermost of the three.
fn tell_nest(alloc: Global, out: &mut Told) -> Result<(), MakeStop> {
    let mut store = Store::new(alloc, 8);
    let mut eras = Eras::new(alloc)?;
    let outermost = add_member(&mut eras, &mut store, EraId(0), watch(alloc)?)?;
    let first = add_two(alloc, &mut eras, &mut store, out, outermost)?;
    let second = add_two(alloc, &mut eras, &mut store, out, first)?;
    add_two(alloc, &mut eras, &mut store, out, second)?;
    for member in eras.in_order(EraId(0)) {
        out.number(u64::from(member.0));
    }
    out.word("|");
    tell_end(
        out,
        &mut eras,
        &mut store,
        &mut TreeAgenda::new(alloc),
        outermost,
    );
    Ok(())
}

fn tell_height(out: &mut Told, store: &Store, id: NodeId) {
    if store.live(id) {
        out.number(u64::try_from(store.node(id).height).unwrap_or(u64::MAX));
    }
}

/// Makes an input, a watch of it, the watch's result and what reads that, and lifts the first to 10.
fn tell_chain(alloc: Global, out: &mut Told) -> Result<(), MakeStop> {
    let mut store = Store::new(alloc, 8);
    let mut eras = Eras::new(alloc)?;
    let input = add_node(&mut eras, &mut store, NodeKind::Input, &[])?;
    let test = add_node(&mut eras, &mut store, watch(alloc)?, &[Held::Signal(input)])?;
    let choice = add_node(&mut eras, &mut store, NodeKind::Result, &[])?;
    let last = add_node(
        &mut eras,
        &mut store,
        NodeKind::Changes,
        &[Held::Signal(choice)],
    )?;
    lift_first(&mut eras, &mut store, &mut TreeAgenda::new(alloc), 10)?;
    for id in [input, test, choice, last] {
        tell_height(out, &store, id);
    }
    Ok(())
}

fn tell_eras(alloc: Global, out: &mut Told) -> Result<(), MakeStop> {
    tell_nest(alloc, out)?;
    tell_chain(alloc, out)
}

#[test]
fn eras_end_with_all_under_them_and_chains_rise(rt: HostRuntime) {
    let mut out = Told::new(rt.alloc());
    if tell_eras(rt.alloc(), &mut out).is_err() {
        out.lacks();
    }
    assert!(rt; out.is("1 2 4 0 | 7 1 2 3 4 5 6 | | 1 10 11 12 13"));
}
