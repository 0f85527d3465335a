//! The names that a form binds: which of them are keywords or stand twice, and their scope.
ghost use Rattle.std.specs.Prelude.{◌≡◌, ◌≤◌, ◌+◌, ◌++◌, false, length, IfOk, OnOk};
ghost use Rattle.std.specs.Str.{bytes_eq};
ghost use Rattle.fr_scope.specs.Meanings.{most_numbered};
ghost use Rattle.fr_expand.specs.Faults.{is_keyword, any_keyword, any_twice, binding_faults, chain_faults, named};
ghost use Rattle.fr_expand.specs.Shapes.{names_of};

use crate::faults::Faults;
use crate::view::Names;
use fr_scope::Scope;
use fr_syntax::keyword_named;
use fr_value::Symbol;
use std::alloc::{AllocError, Global};
use std::collections::BTreeSet;

/// Whether a name is a keyword.
pub(crate) fn is_keyword(name: &Symbol) -> bool
    ensures { result ≡ is_keyword name.now }
{
    keyword_named(name.as_str()).is_some()
}

/// Whether one of these names is a keyword.
fn any_keyword(names: &[Symbol]) -> bool
    ensures { result ≡ any_keyword names.now }
{
    for name in names {
        if is_keyword(name) {
            return true;
        }
    }
    false
}

/// Whether a name stands twice. It takes no time but the sorting of the names.
fn any_twice(alloc: Global, names: &[Symbol]) -> Result<bool, AllocError>
    ensures { IfOk result (λ b. b ≡ any_twice names.now) }
{
    let mut seen = BTreeSet::new(alloc);
    for name in names {
        if !seen.insert(name.as_str())? {
            return Ok(true);
        }
    }
    Ok(false)
}

/// What is wrong with names that are bound together.
pub(crate) fn binding_faults(alloc: Global, names: Names<'_>) -> Result<Faults, AllocError>
    ensures { IfOk result (λ f. f ≡ binding_faults (names_of names.entry)) }
{
    match names {
        Names::One(name) => Ok(bound(is_keyword(name), false)),
        Names::Two(first, second) => Ok(bound(
            is_keyword(first) || is_keyword(second),
            is_same(second, first),
        )),
        Names::Each(names) => Ok(bound(any_keyword(names), any_twice(alloc, names)?)),
    }
}

/// What is wrong with names that are bound, by whether one is a keyword and one stands twice.
fn bound(name: bool, twice: bool) -> Faults
    ensures { result ≡ record { name = name; unbound = false; twice = twice } }
{
    Faults {
        name,
        unbound: false,
        twice,
    }
}

/// What is wrong with names that are bound one after the other.
pub(crate) fn chain_faults(names: &[Symbol]) -> Faults
    ensures { result ≡ chain_faults names.now }
{
    bound(any_keyword(names), false)
}

fn is_same(a: &Symbol, b: &Symbol) -> bool
    ensures { result ≡ bytes_eq a.now b.now }
{
    a.same(b)
}

/// One more variable for each of these names, the last one innermost.
pub(crate) fn bind(scope: &mut Scope, names: Names<'_>) -> Result<(), AllocError>
    requires { length scope.old + length (names_of names) ≤ most_numbered }
    ensures { OnOk result (scope.new ≡ scope.old ++ named (names_of names.entry)) }
{
    match names {
        Names::One(name) => scope.push(name),
        Names::Two(first, second) => {
            scope.push(first)?;
            scope.push(second)
        }
        Names::Each(names) => bind_all(scope, names),
    }
}

/// The same for a list of names.
fn bind_all(scope: &mut Scope, names: &[Symbol]) -> Result<(), AllocError>
    requires { length scope.old + length names.now ≤ most_numbered }
    ensures { OnOk result (scope.new ≡ scope.old ++ named names.now) }
{
    for name in names {
        scope.push(name)?;
    }
    Ok(())
}

/// The variables of a function's parameters.
pub(crate) fn scope_of(alloc: Global, params: &[Symbol]) -> Result<Scope, AllocError>
    requires { length params.now ≤ most_numbered }
    ensures { IfOk result (λ s. s ≡ named params.now) }
{
    let mut scope = Scope::new(alloc);
    bind_all(&mut scope, params)?;
    Ok(scope)
}
