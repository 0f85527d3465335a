ghost use Rattle.std.specs.Prelude.{◌≡◌, ℕ, ◌++◌, [], length, IfOk, OnOk};
ghost use Rattle.fr_core.specs.declared.core_form.Core.{out-Core};
ghost use Rattle.fr_purity.specs.Calls.{calls_itself, calls};
ghost use Rattle.fr_purity.specs.Removal.{AreCallers, called_by, list_at, with_caller};

use fr_core::{Core, Function};
use sqlite_items::Items;
use std::alloc::{AllocError, Global};

/// Appends the number of the function where an expression itself is a call.
fn own_call_into(called: &mut Vec<u32>, e: &Core) -> Result<(), AllocError>
    ensures { OnOk result (called.new.items ≡ called.old.items ++ calls_itself (out-Core e.now)) }
{
    match e {
        Core::Apply(function, _) => {
            called.push(function.0)?;
            Ok(())
        }
        _ => Ok(()),
    }
}

/// Appends the number of the function of each call in an expression.
pub fn calls_into(called: &mut Vec<u32>, e: &Core) -> Result<(), AllocError>
    ensures { OnOk result (called.new.items ≡ called.old.items ++ calls e.now) }
{
    own_call_into(called, e)?;
    let mut number = 0;
    while let Some(part) = e.part(number) {
        calls_into(called, part)?;
        number += 1;
    }
    Ok(())
}

/// One empty list for each function.
fn empty_lists(alloc: Global, functions: usize) -> Result<Vec<Items<usize>>, AllocError>
    ensures length { IfOk result (λ v. length v.items ≡ functions) }
    ensures empty { IfOk result (λ v. (n : ℕ) → list_at v.items n ≡ []) }
{
    let mut lists = Vec::new(alloc);
    for _function in 0..functions {
        lists.push(Items::new(alloc))?;
    }
    Ok(lists)
}

/// Puts a caller into the list of each function that it calls.
fn add_caller(callers: &mut [Items<usize>], caller: usize, called: &[u32]) -> Result<(), AllocError>
    ensures { OnOk result (callers.new ≡ with_caller callers.old caller called.now) }
{
    for number in called {
        let number = *number as usize;
        if number < callers.len() {
            callers[number].push(caller)?;
        }
    }
    Ok(())
}

/// The callers of each function.
pub fn callers(alloc: Global, functions: &[Function]) -> Result<Vec<Items<usize>>, AllocError>
    ensures { IfOk result (λ v. AreCallers (called_by functions.now) v.items) }
{
    let mut callers = empty_lists(alloc, functions.len())?;
    for (number, function) in functions.iter().enumerate() {
        let mut called = Vec::new(alloc);
        calls_into(&mut called, &function.body)?;
        add_caller(&mut callers, number, &called)?;
    }
    Ok(callers)
}
