ghost use Rattle.std.specs.Prelude.{◌≡◌, ℕ, ◌+◌, ◌<◌, [], Some, None, IsSome, IsTrue, OnOk, OnErr, length, max, slice_get};
ghost use Rattle.fr_links.specs.Lists.{Linked, has_item, list_at, list_of, with_empty, with_first, with_last, without};

use crate::place::{MOST, Places, item_place, list_place, number_unless};
use std::alloc::{AllocError, Global};
use std::marker::Model;

/// Doubly linked lists of items. Lists and items are numbers that the caller chooses, below those that were reserved, and
/// each item stands in at most one list. Every call but `reserve` takes no memory and a constant time.
///
/// Contracts see the items of each list by the list's number, and below which number items are usable.
#[derive(Drop)]
pub struct Links {
    places: Places,
    lists: usize,
    items: usize,
}

impl Model for Links {
    ghost use Rattle.fr_links.specs.Lists.{Linked};

    ghost Value = { Linked };

    ghost use Rattle.fr_links.specs.Rings.{IsLinked, linked};

    ghost view = { λ links. linked links.places links.lists links.items };

    ghost invariant = { λ links. IsLinked links.places links.lists links.items };
}

impl Links {
    /// No lists and no items. It takes no memory.
    pub fn new(alloc: Global) -> Links
        ensures { result ≡ record { lists = []; items = 0 } }
    {
        Links {
            places: Places::new(alloc),
            lists: 0,
            items: 0,
        }
    }

    /// Makes list numbers below `lists` and item numbers below `items` usable. Those that were usable stay so, and the contents stay.
    /// It fails only where memory is wanting, or where more than 2,147,483,648 numbers of a kind are asked for, and then all is as before.
    pub fn reserve(&mut self, lists: usize, items: usize) -> Result<(), AllocError>
        ensures lists { OnOk result (self.new.lists ≡ with_empty self.old.lists lists) }
        ensures items { OnOk result (self.new.items ≡ max self.old.items items) }
        ensures err { OnErr result (self.new ≡ self.old) }
    {
        let lists = self.lists.max(lists);
        let items = self.items.max(items);
        if lists > MOST || items > MOST {
            return Err(AllocError);
        }
        self.places.grow(lists, items)?;
        self.lists = lists;
        self.items = items;
        Ok(())
    }

    /// Puts an item that stands in no list at the end of a list.
    pub fn push_back(&mut self, list: usize, item: usize)
        requires list { list < length self.old.lists }
        requires item { item < self.old.items }
        requires alone { list_of self.old.lists item ≡ None }
        ensures { self.new ≡ record self.old { lists = with_last self.old.lists list item } }
    {
        let places = &mut self.places;
        let ring = list_place(list);
        places.put_before(item_place(item), ring, ring);
    }

    /// Puts an item that stands in no list at the front of a list.
    pub fn push_front(&mut self, list: usize, item: usize)
        requires list { list < length self.old.lists }
        requires item { item < self.old.items }
        requires alone { list_of self.old.lists item ≡ None }
        ensures { self.new ≡ record self.old { lists = with_first self.old.lists list item } }
    {
        let places = &mut self.places;
        let ring = list_place(list);
        let first = places.next(ring);
        places.put_before(item_place(item), first, ring);
    }

    /// Takes an item out of the list in which it stands.
    pub fn unlink(&mut self, item: usize)
        requires { IsSome (list_of self.old.lists item) }
        ensures { self.new ≡ record self.old { lists = without self.old.lists item } }
    {
        let places = &mut self.places;
        places.take_out(item_place(item));
    }

    /// Makes an item that stands in a list the last of this list, which may be its own.
    pub fn move_to(&mut self, item: usize, list: usize)
        requires item { IsSome (list_of self.old.lists item) }
        requires list { list < length self.old.lists }
        ensures { self.new ≡ record self.old { lists = with_last (without self.old.lists item) list item } }
    {
        let places = &mut self.places;
        let place = item_place(item);
        let ring = list_place(list);
        places.take_out(place);
        places.put_before(place, ring, ring);
    }

    /// The first item of a list, or None exactly where the list is empty or there is none with this number.
    pub fn first(&self, list: usize) -> Option<usize>
        ensures { result ≡ slice_get (list_at self.now.lists list) 0 }
    {
        if list >= self.lists {
            return None;
        }
        let ring = list_place(list);
        number_unless(self.places.next(ring), ring)
    }

    /// The item after one that stands in a list, or None exactly where that is the last of its list.
    pub fn next(&self, item: usize) -> Option<usize>
        requires { IsSome (list_of self.now.lists item) }
        ensures { (list place : ℕ) → slice_get (list_at self.now.lists list) place ≡ Some item → result ≡ slice_get (list_at self.now.lists list) (place + 1) }
    {
        let place = self.places.items[item];
        number_unless(place.next, place.ring)
    }

    /// The list in which an item stands, or None exactly where it stands in none.
    pub fn list_of(&self, item: usize) -> Option<usize>
        ensures value { result ≡ list_of self.now.lists item }
        ensures only { (list : ℕ) → IsTrue (has_item (list_at self.now.lists list) item) → result ≡ Some list }
    {
        if item >= self.items {
            return None;
        }
        let place = item_place(item);
        number_unless(self.places.items[item].ring, place)
    }
}
