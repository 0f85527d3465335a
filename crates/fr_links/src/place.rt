// The places of lists and of items, and how rings of them change.
ghost use Rattle.std.specs.Prelude.{◌≡◌, ◌≢◌, ℕ, [], ◌+◌, ◌*◌, ◌/◌, ◌%◌, ◌^◌, ◌<◌, ◌≤◌, Some, None, OnOk, length, slice_set, vec_len};
ghost use Rattle.fr_links.specs.Rings.{ends_at, item_at, item_place, list_place, next_of, previous_of, AreMoreItems, AreMoreLists, Enters, Grows, IsThere, Joins, Leads, LeadsBack, Puts, TakesOut};

use std::alloc::{AllocError, Global};

/// How many lists and how many items there can be.
pub const MOST: usize = 1 << 31;

/// The place of an item.
#[derive(Clone, Copy)]
pub struct Place {
    pub next: u32,
    pub previous: u32,
    /// The place of the list that an item stands in, or its own place where it stands in none.
    pub ring: u32,
}

/// The place of a list.
#[derive(Clone, Copy)]
pub struct Ends {
    pub first: u32,
    pub last: u32,
}

/// The places of lists and of items. A list is a ring of places through its own place: from there on come
/// the places of its items in order, and then its own again. List `l` has the place 2l + 1 and item `i` the place 2i.
#[derive(Drop)]
pub struct Places {
    pub lists: Vec<Ends>,
    pub items: Vec<Place>,
}

/// The place of an item.
pub fn item_place(item: usize) -> u32
    requires { item < 2 ^ 31 }
    ensures { result ≡ item_place item }
{
    2 * item as u32
}

/// The place of a list.
pub fn list_place(list: usize) -> u32
    requires { list < 2 ^ 31 }
    ensures { result ≡ list_place list }
{
    2 * list as u32 + 1
}

/// The number of the list or item at a place, or None where that is the other place.
pub fn number_unless(place: u32, other: u32) -> Option<usize>
    ensures none { place ≡ other → result ≡ None }
    ensures some { place ≢ other → result ≡ Some (place / 2) }
{
    if place == other {
        None
    } else {
        Some(place as usize / 2)
    }
}

impl Places {
    pub fn new(alloc: Global) -> Places
        ensures lists { result.lists.items ≡ [] }
        ensures items { result.items.items ≡ [] }
    {
        Places {
            lists: Vec::new(alloc),
            items: Vec::new(alloc),
        }
    }

    /// Adds places, each a ring by itself, until there are so many of a kind; there may be more already.
    pub fn grow(&mut self, lists: usize, items: usize) -> Result<(), AllocError>
        requires lists { lists ≤ 2 ^ 31 }
        requires items { items ≤ 2 ^ 31 }
        requires few_lists { length self.old.lists.items ≤ 2 ^ 31 }
        requires few_items { length self.old.items.items ≤ 2 ^ 31 }
        ensures grows { Grows self.old self.new }
        ensures lists { OnOk result (lists ≤ length self.new.lists.items) }
        ensures items { OnOk result (items ≤ length self.new.items.items) }
    {
        add_lists(&mut self.lists, lists)?;
        add_items(&mut self.items, items)
    }

    /// The place that follows.
    pub fn next(&self, place: u32) -> u32
        requires { IsThere self.now place }
        ensures { result ≡ next_of self.now place }
    {
        let at = place as usize / 2;
        if place % 2 == 0 {
            self.items[at].next
        } else {
            self.lists[at].first
        }
    }

    /// The place before.
    pub fn previous(&self, place: u32) -> u32
        requires { IsThere self.now place }
        ensures { result ≡ previous_of self.now place }
    {
        let at = place as usize / 2;
        if place % 2 == 0 {
            self.items[at].previous
        } else {
            self.lists[at].last
        }
    }

    /// Makes another place follow a place.
    fn lead(&mut self, place: u32, next: u32)
        requires { IsThere self.old place }
        ensures { Leads self.old self.new place next }
    {
        let at = place as usize / 2;
        if place % 2 == 0 {
            set_next(&mut self.items, at, next);
        } else {
            set_first(&mut self.lists, at, next);
        }
    }

    /// Makes another place the one before a place.
    fn lead_back(&mut self, place: u32, previous: u32)
        requires { IsThere self.old place }
        ensures { LeadsBack self.old self.new place previous }
    {
        let at = place as usize / 2;
        if place % 2 == 0 {
            set_previous(&mut self.items, at, previous);
        } else {
            set_last(&mut self.lists, at, previous);
        }
    }

    /// Puts the place of an item into a ring.
    fn enter(&mut self, place: u32, ring: u32)
        requires there { IsThere self.old place }
        requires item { place % 2 ≡ 0 }
        ensures { Enters self.old self.new place ring }
    {
        set_ring(&mut self.items, place as usize / 2, ring);
    }

    /// Makes one place follow another.
    fn join(&mut self, first: u32, second: u32)
        requires first { IsThere self.old first }
        requires second { IsThere self.old second }
        ensures { Joins self.old self.new first second }
    {
        self.lead(first, second);
        self.lead_back(second, first);
    }

    /// Puts the place of an item into a ring, before a place of it.
    pub fn put_before(&mut self, place: u32, before: u32, ring: u32)
        requires place { IsThere self.old place }
        requires item { place % 2 ≡ 0 }
        requires before { IsThere self.old before }
        requires last { IsThere self.old (previous_of self.old before) }
        requires not_before { place ≢ before }
        requires not_last { place ≢ previous_of self.old before }
        ensures { Puts self.old self.new place before ring }
    {
        let last = self.previous(before);
        self.join(last, place);
        self.join(place, before);
        self.enter(place, ring);
    }

    /// Takes the place of an item out of its ring.
    pub fn take_out(&mut self, place: u32)
        requires place { IsThere self.old place }
        requires item { place % 2 ≡ 0 }
        requires next { IsThere self.old (next_of self.old place) }
        requires previous { IsThere self.old (previous_of self.old place) }
        ensures { TakesOut self.old self.new place }
    {
        let next = self.next(place);
        let previous = self.previous(place);
        self.join(previous, next);
        self.enter(place, place);
    }
}

fn set_next(items: &mut Vec<Place>, at: usize, next: u32)
    requires { at < vec_len items.old }
    ensures { items.new.items ≡ slice_set items.old.items at (record (item_at items.old.items at) { next = next }) }
{
    let place = &mut items[at];
    place.next = next;
}

fn set_previous(items: &mut Vec<Place>, at: usize, previous: u32)
    requires { at < vec_len items.old }
    ensures { items.new.items ≡ slice_set items.old.items at (record (item_at items.old.items at) { previous = previous }) }
{
    let place = &mut items[at];
    place.previous = previous;
}

fn set_ring(items: &mut Vec<Place>, at: usize, ring: u32)
    requires { at < vec_len items.old }
    ensures { items.new.items ≡ slice_set items.old.items at (record (item_at items.old.items at) { ring = ring }) }
{
    let place = &mut items[at];
    place.ring = ring;
}

fn set_first(lists: &mut Vec<Ends>, at: usize, first: u32)
    requires { at < vec_len lists.old }
    ensures { lists.new.items ≡ slice_set lists.old.items at (record (ends_at lists.old.items at) { first = first }) }
{
    let ends = &mut lists[at];
    ends.first = first;
}

fn set_last(lists: &mut Vec<Ends>, at: usize, last: u32)
    requires { at < vec_len lists.old }
    ensures { lists.new.items ≡ slice_set lists.old.items at (record (ends_at lists.old.items at) { last = last }) }
{
    let ends = &mut lists[at];
    ends.last = last;
}

/// Adds places of lists, each a ring by itself, until there are so many; there may be more already.
fn add_lists(lists: &mut Vec<Ends>, many: usize) -> Result<(), AllocError>
    requires few { many ≤ 2 ^ 31 }
    requires were_few { length lists.old.items ≤ 2 ^ 31 }
    ensures more { AreMoreLists lists.old.items lists.new.items }
    ensures few { length lists.new.items ≤ 2 ^ 31 }
    ensures enough { OnOk result (many ≤ length lists.new.items) }
{
    for list in lists.len()..many {
        let place = list_place(list);
        lists.push(Ends {
            first: place,
            last: place,
        })?;
    }
    Ok(())
}

/// Adds places of items, each a ring by itself, until there are so many; there may be more already.
fn add_items(items: &mut Vec<Place>, many: usize) -> Result<(), AllocError>
    requires few { many ≤ 2 ^ 31 }
    requires were_few { length items.old.items ≤ 2 ^ 31 }
    ensures more { AreMoreItems items.old.items items.new.items }
    ensures few { length items.new.items ≤ 2 ^ 31 }
    ensures enough { OnOk result (many ≤ length items.new.items) }
{
    for item in items.len()..many {
        let place = item_place(item);
        items.push(Place {
            next: place,
            previous: place,
            ring: place,
        })?;
    }
    Ok(())
}
