ghost use Rattle.std.specs.Prelude.{◌≡◌, ◌≤◌, ◌∷◌, [], ◌++◌, true, length, IfOk, Err};
ghost use Rattle.fr_value.specs.Data.{data_of, data_size, data_depth, datum_of, AreFew, IsMeasured, behind, kids_data, more_data};
ghost use Rattle.fr_value.specs.Limits.{most_size, most_depth};
ghost use Rattle.fr_value.specs.Valid.{are_valid};

mod items;
mod joins;

use crate::bounds::{MAX_DEPTH, MAX_SIZE};
use crate::slices::{joined, measure, measure_few, push_shared, shared};
use crate::tree::{Kids, Tree, tree_of};
use crate::value::Value;
use std::alloc::{AllocError, Global};
use std::marker::Model;
use std::rc::Rc;

// how many items a list keeps in front of its trees at most, and a tree made by `cons` behind its root
const CHUNK: usize = 8;

// how many items a tree made of a vector has at most, beside those of the trees below it
const LEAF: usize = 36;

/// An immutable proper list, of size at most 1,048,576 and depth at most 64.
///
/// Contracts see the list of its items as data. An item is put in front, or the first one left off, in a time that does
/// not grow with the length.
#[cycle(value)]
#[derive(Drop)]
pub struct List {
    // None where the list is empty, so that the empty list takes no memory
    block: Option<Rc<Block>>,
}

// A list is its first items in one vector, and then a row of trees, each of an item and a vector behind it. The first two
// trees are joined under the next one, unless the second is more than twice as long: so each tree behind the first is longer
// than the one before it, by a part of its length, and the row and the trees stay short. No clause rests on the lengths.
/// The first items of a list, and those behind them.
#[cycle(value)]
#[derive(Drop)]
struct Block {
    front: Vec<Value>,
    more: More,
    len: u32,
    // of the whole list: a list is one pointer, so that a value is small
    size: u32,
    depth: u32,
}

/// The items of a tree and then those of a list.
#[cycle(value)]
#[derive(Drop)]
enum More {
    Zero,
    Row(Rc<Tree>, List),
}

impl Model for List {
    ghost use Rattle.std.specs.Prelude.{List as PlainList, ◌+◌, ◌*◌, ◌≤◌, Some, None};
    ghost use Rattle.std.specs.Coded.{coded_list};
    ghost use Rattle.fr_value.specs.declared.value.Datum.{Datum};
    ghost use Rattle.fr_value.specs.contracts.value.Datum as d;

    ghost Value = { PlainList Datum };

    ghost coded = { coded_list d.the_row.coded };

    ghost use Rattle.fr_value.specs.Data.{list_data, data_size, IsKept};
    ghost use Rattle.std.specs.Option.{option_map};

    ghost view = { λ a. list_data (option_map (λ r. r.value) a.block) };

    ghost invariant = { λ a. IsKept (option_map (λ r. r.value) a.block) };

    ghost size = { λ ds. 2 * data_size ds + 1 };

    ghost use Rattle.fr_value.specs.declared.list.List.TheDeep.{deep-List};
    ghost use Rattle.fr_value.specs.DataFalls.{block_falls};
    ghost use Rattle.std.proofs.Common.{arith};

    ghost size_decreases = { λ a h. elim a.block as (λ s. deep-List (record { block = s }) ≤ 2 * data_size (list_data (option_map (λ r. r.value) s)) + 1) [ Some r ↦ omega (arith, block_falls r.value) | None ↦ omega arith ] };
}

/// Why a list was not made.
#[derive(Debug, Drop)]
pub enum ListRefusal {
    /// Memory is wanting.
    Memory(AllocError),
    /// The list's size would be above 1,048,576, or its depth above 64.
    TooBig,
}

impl From<AllocError> for ListRefusal {
    ghost use Rattle.std.specs.Prelude.{◌≡◌};
    ghost use Rattle.fr_value.specs.declared.list.ListRefusal.TheVariants as ListRefusal;

    ghost from_gives = { λ e r. r ≡ ListRefusal.Memory e };

    fn from(e: AllocError) -> ListRefusal {
        ListRefusal::Memory(e)
    }
}

impl List {
    /// The list `()`.
    pub fn empty() -> List
        ensures { result ≡ [] }
    {
        List { block: None }
    }

    /// The number of items.
    pub fn len(&self) -> usize
        ensures { result ≡ length self.now }
    {
        match &self.block {
            Some(b) => b.len as usize,
            None => 0,
        }
    }

    /// 1 and the sizes of the items, which are valid as every value is.
    pub fn size(&self) -> u32
        ensures value { result ≡ data_size self.now }
        ensures small { result ≤ most_size }
        ensures valid { are_valid self.now ≡ true }
    {
        match &self.block {
            Some(b) => b.size,
            None => 1,
        }
    }

    /// 1 and the greatest depth of an item, or 1 where there is none.
    pub fn depth(&self) -> u32
        ensures value { result ≡ data_depth self.now }
        ensures small { result ≤ most_depth }
    {
        match &self.block {
            Some(b) => b.depth,
            None => 1,
        }
    }

    /// The number of items, and the size and depth.
    fn measure(&self) -> (u32, u32, u32)
        ensures { IsMeasured result.0 result.1 result.2 self.now }
    {
        match &self.block {
            Some(b) => (b.len, b.size, b.depth),
            None => (0, 1, 1),
        }
    }

    /// The same list with one more owner of its items.
    pub fn share(&self) -> Result<List, AllocError>
        ensures { IfOk result (λ l. l ≡ self.now) }
    {
        let block = match &self.block {
            Some(b) => Some(b.clone()?),
            None => None,
        };
        Ok(List { block })
    }
}

impl List {
    /// The list of these items, which it takes over.
    ///
    /// `TooBig` comes exactly where the list's size would be above 1,048,576 or its depth above 64.
    pub fn of_vec(alloc: Global, items: Vec<Value>) -> Result<List, ListRefusal>
        ensures ok { IfOk result (λ l. (l ≡ data_of items.items) × AreFew (data_of items.items)) }
        ensures too_big { result ≡ Err ListRefusal.TooBig → AreFew (data_of items.items) → ⊥ }
    {
        match measure(&items) {
            None => Err(ListRefusal::TooBig),
            Some(_) => Ok(laid_out(alloc, items, More::Zero)?),
        }
    }

    /// The list of these items, with one more owner of each.
    ///
    /// `TooBig` comes exactly where the list's size would be above 1,048,576 or its depth above 64.
    pub fn of(alloc: Global, items: &[Value]) -> Result<List, ListRefusal>
        ensures ok { IfOk result (λ l. (l ≡ data_of items.now) × AreFew (data_of items.now)) }
        ensures too_big { result ≡ Err ListRefusal.TooBig → AreFew (data_of items.now) → ⊥ }
    {
        List::of_vec(alloc, shared(alloc, items)?)
    }

    /// The list of an item and then the items of a list, with one more owner of each.
    ///
    /// `TooBig` comes exactly where the list's size would be above 1,048,576 or its depth above 64.
    pub fn cons(alloc: Global, item: &Value, rest: &List) -> Result<List, ListRefusal>
        ensures ok { IfOk result (λ l. (l ≡ datum_of item.now ∷ rest.now) × AreFew (datum_of item.now ∷ rest.now)) }
        ensures too_big { result ≡ Err ListRefusal.TooBig → AreFew (datum_of item.now ∷ rest.now) → ⊥ }
    {
        let (_, size, _) = rest.measure();
        if item.size() > (MAX_SIZE - size) as u64 || item.depth() + 1 > MAX_DEPTH {
            return Err(ListRefusal::TooBig);
        }
        Ok(few_cons(alloc, item.share()?, rest)?)
    }

    /// The list behind the first item; None where there is no item.
    pub fn rest(&self, alloc: Global) -> Result<Option<List>, AllocError>
        ensures { IfOk result (λ r. r ≡ behind self.now) }
    {
        match &self.block {
            None => Ok(None),
            Some(b) => match b.front.split_first() {
                Some((_, tail)) => Ok(Some(block_of(
                    alloc,
                    shared(alloc, tail)?,
                    b.more.share()?,
                )?)),
                None => match &b.more {
                    More::Zero => Ok(None),
                    More::Row(tree, rest) => Ok(Some(without_root(alloc, tree, rest)?)),
                },
            },
        }
    }
}

/// The number of items, and the size and depth of a list of them.
fn more_measure(more: &More) -> (u32, u32, u32)
    requires { AreFew (more_data more.now) }
    ensures { IsMeasured result.0 result.1 result.2 (more_data more.now) }
{
    match more {
        More::Zero => (0, 1, 1),
        More::Row(tree, rest) => {
            let (len, size, depth) = tree.measure();
            let (others, other, deep) = rest.measure();
            (len + others, size + (other - 1), depth.max(deep))
        }
    }
}

impl More {
    /// The same with one more owner of its items.
    fn share(&self) -> Result<More, AllocError>
        ensures { IfOk result (λ m. more_data m ≡ more_data self.now) }
    {
        match self {
            More::Zero => Ok(More::Zero),
            More::Row(tree, rest) => Ok(More::Row(tree.clone()?, rest.share()?)),
        }
    }
}

/// The list of these items, and those behind them.
fn block_of(alloc: Global, front: Vec<Value>, more: More) -> Result<List, AllocError>
    requires { AreFew (data_of front.items ++ more_data more) }
    ensures { IfOk result (λ l. l ≡ data_of front.items ++ more_data more) }
{
    let (len, size, depth) = measure_few(&front);
    let (others, other, deep) = more_measure(&more);
    let len = len + others;
    let size = size + (other - 1);
    let depth = depth.max(deep);
    if len == 0 {
        return Ok(List::empty());
    }
    let block = Rc::new(
        alloc,
        Block {
            front,
            more,
            len,
            size,
            depth,
        },
    )?;
    Ok(List { block: Some(block) })
}

/// The first two trees and the list behind them, unless the second is more than twice as long; else no tree, and the
/// list of all.
fn front_of(alloc: Global, more: More) -> Result<(Kids, List), AllocError>
    requires { AreFew (more_data more) }
    ensures { IfOk result (λ p. kids_data p.0 ++ p.1 ≡ more_data more) }
{
    if let More::Row(a, rest) = &more {
        let rest = rest;
        if let Some(b) = &rest.block {
            if let More::Row(c, behind) = &b.more {
                if b.front.is_empty() && c.len() / 2 <= a.len() {
                    return Ok((Kids::Two(a.clone()?, c.clone()?), behind.share()?));
                }
            }
        }
    }
    Ok((Kids::Zero, block_of(alloc, Vec::new(alloc), more)?))
}

/// An item, then those of a vector, and then more.
fn row_of(alloc: Global, item: Value, chunk: Vec<Value>, more: More) -> Result<More, AllocError>
    requires { AreFew (datum_of item ∷ (data_of chunk.items ++ more_data more)) }
    ensures { IfOk result (λ m. more_data m ≡ datum_of item ∷ (data_of chunk.items ++ more_data more)) }
{
    let (kids, rest) = front_of(alloc, more)?;
    let tree = tree_of(alloc, item, chunk, kids)?;
    Ok(More::Row(tree, rest))
}

/// The items of a tree behind its root, and then those of a list.
fn without_root(alloc: Global, tree: &Tree, rest: &List) -> Result<List, AllocError>
    requires { AreFew (tree.now.1 ++ rest.now) }
    ensures { IfOk result (λ l. l ≡ tree.now.1 ++ rest.now) }
{
    match &tree.kids {
        Kids::Zero => match &rest.block {
            None => laid_out(alloc, shared(alloc, &tree.chunk)?, More::Zero),
            Some(b) => {
                let front = joined(alloc, &tree.chunk, &b.front)?;
                laid_out(alloc, front, b.more.share()?)
            }
        },
        Kids::Two(a, b) => {
            let behind = block_of(alloc, Vec::new(alloc), More::Row(b.clone()?, rest.share()?))?;
            laid_out(
                alloc,
                shared(alloc, &tree.chunk)?,
                More::Row(a.clone()?, behind),
            )
        }
    }
}

/// The list of an item and then the items of a list.
fn few_cons(alloc: Global, item: Value, rest: &List) -> Result<List, AllocError>
    requires { AreFew (datum_of item ∷ rest.now) }
    ensures { IfOk result (λ l. l ≡ datum_of item ∷ rest.now) }
{
    match &rest.block {
        None => block_of(alloc, in_front(alloc, item, &[])?, More::Zero),
        Some(b) => {
            if b.front.len() < CHUNK {
                block_of(alloc, in_front(alloc, item, &b.front)?, b.more.share()?)
            } else {
                let more = row_of(alloc, item, shared(alloc, &b.front)?, b.more.share()?)?;
                block_of(alloc, Vec::new(alloc), more)
            }
        }
    }
}

/// An item, and one more owner of each of the others.
fn in_front(alloc: Global, item: Value, others: &[Value]) -> Result<Vec<Value>, AllocError>
    ensures { IfOk result (λ v. v.items ≡ item ∷ others.now) }
{
    let mut v = Vec::with_capacity(alloc, others.len().saturating_add(1))?;
    v.push(item)?;
    push_shared(&mut v, others)?;
    Ok(v)
}

/// The list of these items, and those behind them.
///
/// The last items are put in trees, until few are left in front.
fn laid_out(alloc: Global, items: Vec<Value>, more: More) -> Result<List, AllocError>
    requires { AreFew (data_of items.items ++ more_data more) }
    ensures { IfOk result (λ l. l ≡ data_of items.items ++ more_data more) }
{
    let mut items = items;
    let mut more = more;
    while items.len() > CHUNK {
        // what is left in front is full, but where a tree would have fewer items than one made by `cons`
        let front = CHUNK.min(items.len() - CHUNK - 1);
        let kept = items.len().saturating_sub(LEAF).max(front);
        let chunk = items.split_off(kept + 1)?;
        match items.pop() {
            Some(item) => {
                more = row_of(alloc, item, chunk, more)?;
            }
            None => unreachable!(),
        }
    }
    if items.capacity() > CHUNK {
        // what was cut off leaves room that no list needs
        items.shrink_to_fit();
    }
    block_of(alloc, items, more)
}
