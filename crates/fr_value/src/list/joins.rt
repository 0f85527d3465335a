//! Lists that are made of the items of others.

ghost use Rattle.std.specs.Prelude.{◌≡◌, ◌++◌, ◌∷◌, reverse, IfOk, Err};
ghost use Rattle.fr_value.specs.Data.{data_of, more_data, AreFew};
ghost use Rattle.fr_value.specs.declared.list.ListRefusal.TheVariants as ListRefusal;

use crate::bounds::MAX_SIZE;
use crate::list::{List, ListRefusal, More, laid_out, row_of};
use crate::slices::push_shared;
use crate::value::Value;
use std::alloc::{AllocError, Global};

impl List {
    /// The list of these items and then those of another, with one more owner of each, in a time that grows with the
    /// number of these alone.
    ///
    /// `TooBig` comes exactly where the list's size would be above 1,048,576.
    pub fn append(&self, alloc: Global, other: &List) -> Result<List, ListRefusal>
        ensures ok { IfOk result (λ l. (l ≡ self.now ++ other.now) × AreFew (self.now ++ other.now)) }
        ensures too_big { result ≡ Err ListRefusal.TooBig → AreFew (self.now ++ other.now) → ⊥ }
    {
        let (_, size, _) = self.measure();
        let (_, others, _) = other.measure();
        if size - 1 > MAX_SIZE - others {
            return Err(ListRefusal::TooBig);
        }
        Ok(few_joined(alloc, self, other)?)
    }

    /// The list of these items from the last to the first, with one more owner of each.
    pub fn reversed(&self, alloc: Global) -> Result<List, AllocError>
        ensures { IfOk result (λ l. l ≡ reverse self.now) }
    {
        // the proof learns by the read that the list is within the limits
        let _ = self.measure();
        let mut front = Vec::new(alloc);
        let mut more = More::Zero;
        let mut at = 0;
        while at < self.len() {
            more = in_tree(alloc, front, more)?;
            let (first, others) = self.run(at);
            front = turned(alloc, first, others)?;
            at += 1 + others.len();
        }
        laid_out(alloc, front, more)
    }
}

/// One more owner of each of these items, from the last to the first.
fn turned(alloc: Global, first: &Value, others: &[Value]) -> Result<Vec<Value>, AllocError>
    ensures { IfOk result (λ v. v.items ≡ reverse (first.now ∷ others.now)) }
{
    let mut items = Vec::with_capacity(alloc, others.len().saturating_add(1))?;
    items.push(first.share()?)?;
    push_shared(&mut items, others)?;
    items.reverse();
    Ok(items)
}

/// The items of a vector in one tree, if there is one, and those behind them.
fn in_tree(alloc: Global, items: Vec<Value>, more: More) -> Result<More, AllocError>
    requires { AreFew (data_of items.items ++ more_data more) }
    ensures { IfOk result (λ m. more_data m ≡ data_of items.items ++ more_data more) }
{
    let mut items = items;
    if items.is_empty() {
        return Ok(more);
    }
    let first = items.remove(0);
    row_of(alloc, first, items, more)
}

/// The items of two lists.
fn few_joined(alloc: Global, first: &List, other: &List) -> Result<List, AllocError>
    requires { AreFew (first.now ++ other.now) }
    ensures { IfOk result (λ l. l ≡ first.now ++ other.now) }
{
    match &other.block {
        None => first.share(),
        Some(b) => {
            let len = first.len().saturating_add(b.front.len());
            let mut items = Vec::with_capacity(alloc, len)?;
            first.shared_into(&mut items)?;
            push_shared(&mut items, &b.front)?;
            laid_out(alloc, items, b.more.share()?)
        }
    }
}
