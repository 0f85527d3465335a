//! The variables and sources that an expression names.
ghost use Rattle.std.specs.Prelude.{◌≡◌, ◌++◌, OnOk};
ghost use Rattle.fr_core.specs.declared.core_form.Core.{out-Core};
ghost use Rattle.fr_meaning.specs.Dependence.{own_variable, variables, own_source, sources_of};
ghost use Rattle.fr_kernel.specs.Slots.{all_below, in_order};

use fr_core::Core;
use sqlite_items::Items;
use std::alloc::AllocError;

/// Appends the number of a variable below `first` or of a source where an expression itself is one.
fn own_name_into(
    outer: &mut Vec<u32>,
    sources: &mut Vec<u32>,
    first: u32,
    e: &Core,
) -> Result<(), AllocError>
    ensures variables { OnOk result (outer.new.items ≡ outer.old.items ++ all_below first (own_variable (out-Core e.now))) }
    ensures sources { OnOk result (sources.new.items ≡ sources.old.items ++ own_source (out-Core e.now)) }
{
    match e {
        Core::Var(id) if id.0 < first => outer.push(id.0)?,
        Core::Source(id) => sources.push(id.0)?,
        _ => {}
    }
    Ok(())
}

/// Appends the numbers of the variables below `first` and of the sources that an expression names. It fails only where
/// there is no memory.
pub(crate) fn names_into(
    outer: &mut Vec<u32>,
    sources: &mut Vec<u32>,
    first: u32,
    e: &Core,
) -> Result<(), AllocError>
    ensures variables { OnOk result (outer.new.items ≡ outer.old.items ++ all_below first (variables e.now)) }
    ensures sources { OnOk result (sources.new.items ≡ sources.old.items ++ sources_of e.now) }
{
    own_name_into(outer, sources, first, e)?;
    let mut number = 0;
    while let Some(part) = e.part(number) {
        names_into(outer, sources, first, part)?;
        number += 1;
    }
    Ok(())
}

/// The numbers, each once and in rising order.
pub(crate) fn in_order(numbers: Vec<u32>) -> Items<u32>
    ensures { result ≡ in_order numbers.items }
{
    let mut rising = numbers;
    rising.sort_unstable();
    rising.dedup();
    Items::from_vec(rising)
}
