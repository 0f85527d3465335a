ghost use Rattle.std.specs.Prelude.{◌≡◌, ◌+◌, ◌++◌, IfOk, OnOk, map};
ghost use Rattle.fr_kernel.specs.Numbers.{index_of, before_params, variable_slot, source_slot};
ghost use Rattle.fr_kernel.specs.Placed.{scheme_of, scheme_for};
ghost use Rattle.fr_kernel.specs.Slots.{slot_of_variable, slot_of_source, slots_for};

use crate::naming::{in_order, names_into};
use fr_core::{Core, Slot};
use fr_value::{SrcId, VarId};
use sqlite_items::Items;
use std::alloc::{AllocError, Global};

/// What the slots of a kernel's code stand for: variables around it, then sources, then its parameters.
///
/// The parameters are so many variables from number `first` on. The variables that the expression binds itself are
/// numbered from `first` and `params` together on, and come behind all slots.
#[derive(Drop)]
pub(crate) struct Names {
    pub(crate) first: u32,
    pub(crate) params: u32,
    /// Variables below `first`, each once and in rising order.
    pub(crate) outer: Items<u32>,
    /// Sources, each once and in rising order.
    pub(crate) sources: Items<u32>,
}

/// The index of a number, or the length where it isn't there.
fn index_in(list: &[u32], number: u32) -> usize
    ensures { result ≡ index_of number list.now }
{
    for i in 0..list.len() {
        if number == list[i] {
            return i;
        }
    }
    list.len()
}

/// A sum; more slots than can be counted find no memory.
fn sum(a: usize, b: usize) -> Result<usize, AllocError>
    ensures { IfOk result (λ n. n ≡ a + b) }
{
    match a.checked_add(b) {
        Some(n) => Ok(n),
        None => Err(AllocError),
    }
}

/// A number of a slot; more slots than can be counted find no memory.
fn slot_at(n: usize) -> Result<u32, AllocError>
    ensures { IfOk result (λ k. k ≡ n) }
{
    match u32::try_from(n) {
        Ok(k) => Ok(k),
        Err(_) => Err(AllocError),
    }
}

fn push_variables(slots: &mut Items<Slot>, variables: &[u32]) -> Result<(), AllocError>
    ensures { OnOk result (slots.new ≡ slots.old ++ map slot_of_variable variables.now) }
{
    for variable in variables {
        slots.push(Slot::Var(VarId(*variable)))?;
    }
    Ok(())
}

fn push_sources(slots: &mut Items<Slot>, sources: &[u32]) -> Result<(), AllocError>
    ensures { OnOk result (slots.new ≡ slots.old ++ map slot_of_source sources.now) }
{
    for source in sources {
        slots.push(Slot::Source(SrcId(*source)))?;
    }
    Ok(())
}

impl Names {
    /// What the kernel of an expression reads from its place. It fails only where there is no memory.
    pub(crate) fn of(
        alloc: Global,
        expr: &Core,
        first: u32,
        params: u32,
    ) -> Result<Names, AllocError>
        ensures { IfOk result (λ n. scheme_of n ≡ scheme_for first params expr.now) }
    {
        let mut outer = Vec::new(alloc);
        let mut sources = Vec::new(alloc);
        names_into(&mut outer, &mut sources, first, expr)?;
        Ok(Names {
            first,
            params,
            outer: in_order(outer),
            sources: in_order(sources),
        })
    }

    /// What the slots before the parameters stand for. It fails only where there is no memory.
    pub(crate) fn slots(&self, alloc: Global) -> Result<Items<Slot>, AllocError>
        ensures { IfOk result (λ ss. ss ≡ slots_for self.now.outer self.now.sources) }
    {
        let mut slots = Items::new(alloc);
        push_variables(&mut slots, self.outer.as_slice())?;
        push_sources(&mut slots, self.sources.as_slice())?;
        Ok(slots)
    }

    /// The number of slots before the parameters. It fails only where there are more than can be counted.
    fn before_params(&self) -> Result<usize, AllocError>
        ensures { IfOk result (λ n. n ≡ before_params (scheme_of self.now)) }
    {
        sum(self.outer.len(), self.sources.len())
    }

    /// The slot of a variable. It fails only where there are more slots than can be counted.
    pub(crate) fn variable_slot(&self, variable: u32) -> Result<u32, AllocError>
        ensures { IfOk result (λ k. k ≡ variable_slot (scheme_of self.now) variable) }
    {
        if variable < self.first {
            return slot_at(index_in(self.outer.as_slice(), variable));
        }
        let before = self.before_params()?;
        let around = self.first as usize + self.params as usize;
        if (variable as usize) < around {
            return slot_at(sum((variable - self.first) as usize, before)?);
        }
        let width = sum(before, self.params as usize)?;
        slot_at(sum(variable as usize - around, width)?)
    }

    /// The slot of a source. It fails only where there are more slots than can be counted.
    pub(crate) fn source_slot(&self, source: u32) -> Result<u32, AllocError>
        ensures { IfOk result (λ k. k ≡ source_slot (scheme_of self.now) source) }
    {
        slot_at(sum(self.outer.len(), index_in(self.sources.as_slice(), source))?)
    }
}
