//! The core expression that an expression stands for.
ghost use Rattle.std.specs.Prelude.{◌≡◌, ◌≤◌, ◌+◌, ◌++◌, [], ◌∷◌, map, length, IfOk, OnOk};
ghost use Rattle.fr_core.specs.declared.core_form.Core.TheVariants as core;
ghost use Rattle.fr_syntax.specs.Weights.{weight};
ghost use Rattle.fr_value.specs.Data.{total};
ghost use Rattle.fr_scope.specs.Meanings.{most_numbered};
ghost use Rattle.fr_expand.specs.Faults.{named};
ghost use Rattle.fr_expand.specs.Shapes.{exprs_of, names_of};
ghost use Rattle.fr_expand.specs.Translation.{core_of, each_core, chained_core, cond_core, and_core, or_core};

use crate::bindings::bind;
use crate::cores::{call_core, given_or, truth, value_core};
use crate::view::{Names, Parts, View, view_of};
use fr_core::Core;
use fr_scope::{Globals, Scope};
use fr_syntax::Expr;
use fr_value::{Symbol, VarId};
use sqlite_items::{Boxed, Items};
use std::alloc::{AllocError, Global};

/// The core expression that an expression stands for, where these variables are in scope.
///
/// It takes stack for each level of the core expression, and time in the expression's size.
#[cycle(core)]
#[tactic(auto, using(crate::proofs::Views::core_opens, crate::proofs::Views::weight_opens))]
pub(crate) fn core_in(
    alloc: Global,
    globals: &Globals,
    scope: &mut Scope,
    expr: &Expr,
) -> Result<Core, AllocError>
    requires { length scope.old + weight expr.now ≤ most_numbered }
    ensures made { IfOk result (λ c. c ≡ core_of globals.now expr.now scope.old) }
    ensures scope { OnOk result (scope.new ≡ scope.old) }
{
    match view_of(expr) {
        View::Literal(value) => Ok(Core::Lit(value.share()?)),
        View::Name(name) => Ok(value_core(globals.meaning(scope, name))),
        View::Call(callee, parts) => {
            let args = cores_in(alloc, globals, scope, Parts::Each(parts))?;
            Ok(call_core(globals.meaning(scope, callee), args))
        }
        View::If(test, then, other) => {
            let other = boxed_core(alloc, globals, scope, other)?;
            test_core(alloc, globals, scope, test, then, other)
        }
        View::Chain(names, parts, body) => chained_core(alloc, globals, scope, names, parts, body),
        View::Cond(tests, parts, other) => cond_core(alloc, globals, scope, tests, parts, other),
        View::And(parts) => and_core(alloc, globals, scope, parts),
        View::Or(parts) => or_core(alloc, globals, scope, parts),
        View::Operator(operator, parts) => {
            let parts = cores_in(alloc, globals, scope, parts)?;
            Ok(Core::Operator(operator, parts))
        }
        View::Binding(binding, parts, names, body) => {
            let body = core_under(alloc, globals, scope, names, body)?;
            let parts = cores_in(alloc, globals, scope, parts)?;
            Ok(binding.core(parts, body))
        }
        View::Feedback(name, first, body) => {
            let body = core_under(alloc, globals, scope, Names::One(name), body)?;
            let first = boxed_core(alloc, globals, scope, first)?;
            Ok(Core::Feedback(first, body))
        }
    }
}

#[cycle(core)]
fn boxed_core(
    alloc: Global,
    globals: &Globals,
    scope: &mut Scope,
    expr: &Expr,
) -> Result<Boxed<Core>, AllocError>
    requires { length scope.old + weight expr.now ≤ most_numbered }
    ensures made { IfOk result (λ c. c ≡ core_of globals.now expr.now scope.old) }
    ensures scope { OnOk result (scope.new ≡ scope.old) }
{
    let core = core_in(alloc, globals, scope, expr)?;
    Boxed::new(alloc, core)
}

/// The core expressions of all parts.
#[cycle(core)]
fn cores_in(
    alloc: Global,
    globals: &Globals,
    scope: &mut Scope,
    parts: Parts<'_>,
) -> Result<Items<Core>, AllocError>
    requires { length scope.old + total (map weight (exprs_of parts)) ≤ most_numbered }
    ensures made { IfOk result (λ cs. cs ≡ each_core (map (core_of globals.now) (exprs_of parts.entry)) scope.old) }
    ensures scope { OnOk result (scope.new ≡ scope.old) }
{
    let mut cores = Items::new(alloc);
    add_group(alloc, globals, scope, parts, &mut cores)?;
    Ok(cores)
}

/// The core expressions of all parts, behind others.
#[cycle(core)]
fn add_group(
    alloc: Global,
    globals: &Globals,
    scope: &mut Scope,
    parts: Parts<'_>,
    cores: &mut Items<Core>,
) -> Result<(), AllocError>
    requires { length scope.old + total (map weight (exprs_of parts)) ≤ most_numbered }
    ensures made { OnOk result (cores.new ≡ cores.old ++ each_core (map (core_of globals.now) (exprs_of parts.entry)) scope.old) }
    ensures scope { OnOk result (scope.new ≡ scope.old) }
{
    match parts {
        Parts::One(part) => add_core(alloc, globals, scope, part, cores),
        Parts::Two(first, second) => {
            add_core(alloc, globals, scope, first, cores)?;
            add_core(alloc, globals, scope, second, cores)
        }
        Parts::Each(parts) => {
            for part in parts {
                add_core(alloc, globals, scope, part, cores)?;
            }
            Ok(())
        }
    }
}

/// The core expression of a part, behind others.
#[cycle(core)]
fn add_core(
    alloc: Global,
    globals: &Globals,
    scope: &mut Scope,
    part: &Expr,
    cores: &mut Items<Core>,
) -> Result<(), AllocError>
    requires { length scope.old + weight part.now ≤ most_numbered }
    ensures made { OnOk result (cores.new ≡ cores.old ++ core_of globals.now part.now scope.old ∷ []) }
    ensures scope { OnOk result (scope.new ≡ scope.old) }
{
    let core = core_in(alloc, globals, scope, part)?;
    cores.push(core)
}

/// The core expression of a body that sees a variable more for each of these names.
#[cycle(core)]
fn core_under(
    alloc: Global,
    globals: &Globals,
    scope: &mut Scope,
    names: Names<'_>,
    body: &Expr,
) -> Result<Boxed<Core>, AllocError>
    requires { length scope.old + length (names_of names) + weight body.now ≤ most_numbered }
    ensures made { IfOk result (λ c. c ≡ core_of globals.now body.now (scope.old ++ named (names_of names.entry))) }
    ensures scope { OnOk result (scope.new ≡ scope.old) }
{
    let outer = scope.len();
    bind(scope, names)?;
    let core = boxed_core(alloc, globals, scope, body)?;
    scope.cut(outer);
    Ok(core)
}

/// A test with what follows where it holds, and where it doesn't.
#[cycle(core)]
fn test_core(
    alloc: Global,
    globals: &Globals,
    scope: &mut Scope,
    test: &Expr,
    then: &Expr,
    other: Boxed<Core>,
) -> Result<Core, AllocError>
    requires { length scope.old + weight test.now + weight then.now ≤ most_numbered }
    ensures made { IfOk result (λ c. c ≡ core.If (core_of globals.now test.now scope.old) (core_of globals.now then.now scope.old) other) }
    ensures scope { OnOk result (scope.new ≡ scope.old) }
{
    let then = boxed_core(alloc, globals, scope, then)?;
    let test = boxed_core(alloc, globals, scope, test)?;
    Ok(Core::If(test, then, other))
}

/// A part that is bound to one more variable, and the body that sees it.
#[cycle(core)]
fn let_core(
    alloc: Global,
    globals: &Globals,
    scope: &mut Scope,
    part: &Expr,
    body: Boxed<Core>,
) -> Result<Core, AllocError>
    requires { length scope.old + weight part.now ≤ most_numbered }
    ensures made { IfOk result (λ c. c ≡ core.Let (core_of globals.now part.now scope.old ∷ []) body) }
    ensures scope { OnOk result (scope.new ≡ scope.old) }
{
    let values = cores_in(alloc, globals, scope, Parts::One(part))?;
    Ok(Core::Let(values, body))
}

/// One binding inside another.
#[cycle(core)]
#[tactic(auto, using(crate::proofs::Walks::chained))]
fn chained_core(
    alloc: Global,
    globals: &Globals,
    scope: &mut Scope,
    names: &[Symbol],
    parts: &[Expr],
    body: &Expr,
) -> Result<Core, AllocError>
    requires { length scope.old + length names.now + total (map weight parts.now) + weight body.now ≤ most_numbered }
    ensures made { IfOk result (λ c. c ≡ chained_core names.now (map (core_of globals.now) parts.now) (core_of globals.now body.now) scope.old) }
    ensures scope { OnOk result (scope.new ≡ scope.old) }
{
    let Some((name, names)) = names.split_first() else {
        return core_in(alloc, globals, scope, body);
    };
    let Some((part, parts)) = parts.split_first() else {
        return core_in(alloc, globals, scope, body);
    };
    let outer = scope.len();
    scope.push(name)?;
    let rest = chained_core(alloc, globals, scope, names, parts, body)?;
    scope.cut(outer);
    let rest = Boxed::new(alloc, rest)?;
    let_core(alloc, globals, scope, part, rest)
}

/// One test inside another.
#[cycle(core)]
#[tactic(auto, using(crate::proofs::Walks::chained))]
fn cond_core(
    alloc: Global,
    globals: &Globals,
    scope: &mut Scope,
    tests: &[Expr],
    parts: &[Expr],
    other: &Expr,
) -> Result<Core, AllocError>
    requires { length scope.old + total (map weight tests.now) + total (map weight parts.now) + weight other.now ≤ most_numbered }
    ensures made { IfOk result (λ c. c ≡ cond_core (each_core (map (core_of globals.now) tests.now) scope.old) (each_core (map (core_of globals.now) parts.now) scope.old)
        (core_of globals.now other.now scope.old)) }
    ensures scope { OnOk result (scope.new ≡ scope.old) }
{
    let Some((test, tests)) = tests.split_first() else {
        return core_in(alloc, globals, scope, other);
    };
    let Some((part, parts)) = parts.split_first() else {
        return core_in(alloc, globals, scope, other);
    };
    let rest = cond_core(alloc, globals, scope, tests, parts, other)?;
    let rest = Boxed::new(alloc, rest)?;
    test_core(alloc, globals, scope, test, part, rest)
}

/// All parts but the last as tests.
#[cycle(core)]
fn and_core(
    alloc: Global,
    globals: &Globals,
    scope: &mut Scope,
    parts: &[Expr],
) -> Result<Core, AllocError>
    requires { length scope.old + total (map weight parts.now) ≤ most_numbered }
    ensures made { IfOk result (λ c. c ≡ and_core (each_core (map (core_of globals.now) parts.now) scope.old)) }
    ensures scope { OnOk result (scope.new ≡ scope.old) }
{
    match parts {
        [] => Ok(truth(true)),
        [last] => core_in(alloc, globals, scope, last),
        [first, others @ ..] => {
            let then = and_core(alloc, globals, scope, others)?;
            let then = Boxed::new(alloc, then)?;
            let test = boxed_core(alloc, globals, scope, first)?;
            let other = Boxed::new(alloc, truth(false))?;
            Ok(Core::If(test, then, other))
        }
    }
}

/// All parts but the last bound to a variable without a name, tested, and given where they aren't `#f`.
#[cycle(core)]
fn or_core(
    alloc: Global,
    globals: &Globals,
    scope: &mut Scope,
    parts: &[Expr],
) -> Result<Core, AllocError>
    requires { length scope.old + total (map weight parts.now) ≤ most_numbered }
    ensures made { IfOk result (λ c. c ≡ or_core (map (core_of globals.now) parts.now) scope.old) }
    ensures scope { OnOk result (scope.new ≡ scope.old) }
{
    match parts {
        [] => Ok(truth(false)),
        [last] => core_in(alloc, globals, scope, last),
        [first, others @ ..] => {
            let outer = scope.len();
            scope.push_unnamed()?;
            let other = or_core(alloc, globals, scope, others)?;
            scope.cut(outer);
            let body = given_or(alloc, VarId(outer as u32), other)?;
            let_core(alloc, globals, scope, first, body)
        }
    }
}
