ghost use Rattle.std.specs.Prelude.{◌≡◌, length, map, IfOk};
ghost use Rattle.fr_core.specs.Classes.{closed_itself, names_only};
ghost use Rattle.fr_core.specs.declared.core_form.Core.{out-Core};
ghost use Rattle.fr_purity.specs.Marks.{below};

use fr_core::{Core, Function};
use std::alloc::{AllocError, Global};

/// Whether an expression itself is no source, and no call but of a function that is there, of which there are so many.
fn is_no_source(functions: usize, e: &Core) -> bool
    ensures { result ≡ closed_itself (below functions) (out-Core e.now) }
{
    match e {
        Core::Source(_) => false,
        Core::Apply(function, _) => (function.0 as usize) < functions,
        _ => true,
    }
}

/// Whether an expression names no source and calls only functions that are there, of which there are so many.
pub fn names_no_source(functions: usize, e: &Core) -> bool
    ensures { result ≡ names_only (below functions) e.now }
{
    if !is_no_source(functions, e) {
        return false;
    }
    let mut number = 0;
    while let Some(part) = e.part(number) {
        if !names_no_source(functions, part) {
            return false;
        }
        number += 1;
    }
    true
}

/// For each function whether its body names no source and calls only functions that are there.
pub fn sourceless_bodies(alloc: Global, functions: &[Function]) -> Result<Vec<bool>, AllocError>
    ensures { let names = names_only (below (length functions.now)) in
        IfOk result (λ v. v.items ≡ map (λ f. names f.body) functions.now) }
{
    let mut marks = Vec::new(alloc);
    for function in functions {
        marks.push(names_no_source(functions.len(), &function.body))?;
    }
    Ok(marks)
}
