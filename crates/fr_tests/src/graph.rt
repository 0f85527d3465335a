ghost use Rattle.std.specs.Prelude.{◌≡◌, ◌≤◌, None, length};
ghost use Rattle.fr_queue.specs.Queue.{IsEmpty};
ghost use Rattle.fr_queue.specs.Tree.{heights_in};

use crate::told::Told;
use fr_links::Links;
use fr_queue::{Agenda, TreeAgenda};
use fr_value::NodeId;
use std::alloc::{AllocError, Global};

/// What is done with two lists of three items.
#[derive(Clone, Copy)]
enum Step {
    Back(usize, usize),
    Front(usize, usize),
    Move(usize, usize),
    Unlink(usize),
}

/// Steps, and what the two lists hold behind each, with a bar at the end of each list.
const LISTS: &[(Step, &str)] = &[
    (Step::Back(0, 1), "1 | |"),
    (Step::Back(0, 2), "1 2 | |"),
    (Step::Front(0, 0), "0 1 2 | |"),
    (Step::Move(1, 1), "0 2 | 1 |"),
    (Step::Unlink(0), "2 | 1 |"),
    (Step::Move(2, 0), "2 | 1 |"),
    (Step::Front(1, 0), "2 | 0 1 |"),
    (Step::Move(0, 1), "2 | 1 0 |"),
    (Step::Unlink(2), "| 1 0 |"),
];

fn push(links: &mut Links, list: usize, item: usize, in_front: bool)
    requires lists { 2 ≤ length links.old.lists }
    requires items { 3 ≤ links.old.items }
    ensures lists { length links.new.lists ≡ length links.old.lists }
    ensures items { links.new.items ≡ links.old.items }
{
    if list < 2 && item < 3 && links.list_of(item).is_none() {
        if in_front {
            links.push_front(list, item);
        } else {
            links.push_back(list, item);
        }
    }
}

fn take(links: &mut Links, step: Step)
    requires lists { 2 ≤ length links.old.lists }
    requires items { 3 ≤ links.old.items }
    ensures lists { length links.new.lists ≡ length links.old.lists }
    ensures items { links.new.items ≡ links.old.items }
{
    match step {
        Step::Back(list, item) => push(links, list, item, false),
        Step::Front(list, item) => push(links, list, item, true),
        Step::Move(item, list) => {
            if list < 2 && links.list_of(item).is_some() {
                links.move_to(item, list);
            }
        }
        Step::Unlink(item) => {
            if links.list_of(item).is_some() {
                links.unlink(item);
            }
        }
    }
}

fn following(links: &Links, item: usize) -> Option<usize> {
    if links.list_of(item).is_some() {
        links.next(item)
    } else {
        None
    }
}

fn tell_list(out: &mut Told, links: &Links, list: usize) {
    let mut at = links.first(list);
    for _ in 0..4 {
        if let Some(item) = at {
            out.number(item as u64);
            at = following(links, item);
        }
    }
    out.word("|");
}

fn tells(alloc: Global, links: &Links, want: &str) -> bool {
    let mut out = Told::new(alloc);
    tell_list(&mut out, links, 0);
    tell_list(&mut out, links, 1);
    out.is(want)
}

/// The number of the first step behind which the lists hold something else, counted from 1, or 0.
fn wrong_step(alloc: Global, links: &mut Links) -> usize
    requires lists { 2 ≤ length links.old.lists }
    requires items { 3 ≤ links.old.items }
{
    for (at, (step, want)) in LISTS.iter().enumerate() {
        take(links, *step);
        if !tells(alloc, links, want) {
            return at + 1;
        }
    }
    0
}

#[test]
fn lists_hold_what_was_put_in_and_moved(rt: HostRuntime) -> Result<(), AllocError> {
    let mut links = Links::new(rt.alloc());
    links.reserve(2, 3)?;
    let wrong = wrong_step(rt.alloc(), &mut links);
    assert_eq!(rt; wrong, 0);
    assert!(rt; links.list_of(3).is_none() && links.first(2).is_none());
    Ok(())
}

/// Queues three nodes and raises one.
fn queue(agenda: &mut TreeAgenda) -> Result<(), AllocError>
    requires { IsEmpty (heights_in agenda.old) }
{
    agenda.add(NodeId(7), 2)?;
    agenda.add(NodeId(8), 1)?;
    agenda.add(NodeId(9), 1)?;
    agenda.raise(NodeId(8), 3)
}

#[test]
fn the_least_height_is_taken_first(rt: HostRuntime) -> Result<(), AllocError> {
    let mut agenda = TreeAgenda::new(rt.alloc());
    agenda.reserve(10, 4)?;
    queue(&mut agenda)?;
    assert!(rt; agenda.has(NodeId(7)) && !agenda.has(NodeId(6)));
    assert!(rt; agenda.take() == Some(NodeId(9)));
    assert!(rt; agenda.take() == Some(NodeId(7)));
    assert!(rt; agenda.take() == Some(NodeId(8)));
    assert!(rt; agenda.take() == None);
    Ok(())
}
