//! What is wrong with the names of an expression.
ghost use Rattle.std.specs.Prelude.{◌≡◌, ◌≤◌, ◌+◌, ◌++◌, map, length, IfOk, OnOk};
ghost use Rattle.fr_syntax.specs.Weights.{weight};
ghost use Rattle.fr_scope.specs.Meanings.{meaning_of, most_numbered};
ghost use Rattle.fr_value.specs.Data.{total};
ghost use Rattle.fr_expand.specs.Faults.{clean, with, value_fault, callee_fault, unless_keyword, is_keyword, binding_faults, chain_faults, named, all_faults, chained_faults, faults};
ghost use Rattle.fr_expand.specs.Shapes.{exprs_of, names_of};

use crate::bindings::{bind, binding_faults, chain_faults, is_keyword};
use crate::view::{Names, Parts, View, view_of};
use fr_scope::{Globals, Meaning, Scope};
use fr_syntax::Expr;
use fr_value::Symbol;
use std::alloc::{AllocError, Global};

/// What is wrong with the names of an expression or of a form.
#[derive(Clone, Copy, Debug, PartialEq, Eq)]
pub struct Faults {
    /// A name stands where what it means may not, or is bound though it is reserved.
    pub name: bool,
    /// A name means nothing.
    pub unbound: bool,
    /// A name is bound or defined twice.
    pub twice: bool,
}

impl Faults {
    ghost use Rattle.std.specs.Prelude.{◌≡◌};
    ghost use Rattle.fr_expand.specs.Faults.{clean, misplaced, meaningless, with};

    /// Nothing is wrong.
    pub(crate) fn clean() -> Faults
        ensures { result ≡ clean }
    {
        Faults {
            name: false,
            unbound: false,
            twice: false,
        }
    }

    /// A name stands where what it means may not.
    pub(crate) fn misplaced() -> Faults
        ensures { result ≡ misplaced }
    {
        Faults {
            name: true,
            unbound: false,
            twice: false,
        }
    }

    /// A name means nothing.
    pub(crate) fn meaningless() -> Faults
        ensures { result ≡ meaningless }
    {
        Faults {
            name: false,
            unbound: true,
            twice: false,
        }
    }

    /// What is wrong with one or the other.
    pub(crate) fn with(self, other: Faults) -> Faults
        ensures { result ≡ with self other }
    {
        Faults {
            name: self.name || other.name,
            unbound: self.unbound || other.unbound,
            twice: self.twice || other.twice,
        }
    }
}

/// What is wrong with a name that stands for a value and means this.
fn value_fault(meaning: Option<Meaning>) -> Faults
    ensures { result ≡ value_fault meaning }
{
    match meaning {
        None => Faults::meaningless(),
        Some(Meaning::Variable(_) | Meaning::Source(_)) => Faults::clean(),
        Some(Meaning::Function(_) | Meaning::Primitive(_)) => Faults::misplaced(),
    }
}

/// What is wrong with a name that is called and means this.
fn callee_fault(meaning: Option<Meaning>) -> Faults
    ensures { result ≡ callee_fault meaning }
{
    match meaning {
        None => Faults::meaningless(),
        Some(Meaning::Variable(_) | Meaning::Source(_)) => Faults::misplaced(),
        Some(Meaning::Function(_) | Meaning::Primitive(_)) => Faults::clean(),
    }
}

/// What is wrong with a name that stands for a value.
fn name_faults(globals: &Globals, scope: &Scope, name: &Symbol) -> Faults
    ensures { result ≡ unless_keyword (is_keyword name.now) (value_fault (meaning_of globals.now scope.now name.now)) }
{
    if is_keyword(name) {
        return Faults::misplaced();
    }
    value_fault(globals.meaning(scope, name))
}

/// What is wrong with the names of an expression, where these variables are in scope.
///
/// It takes time in the expression's size, but for the sorting of names that are bound together.
#[cycle(faults)]
#[tactic(auto, using(crate::proofs::Views::faults_opens, crate::proofs::Views::weight_opens))]
pub(crate) fn faults_in(
    alloc: Global,
    globals: &Globals,
    scope: &mut Scope,
    expr: &Expr,
) -> Result<Faults, AllocError>
    requires { length scope.old + weight expr.now ≤ most_numbered }
    ensures found { IfOk result (λ f. f ≡ faults globals.now expr.now scope.old) }
    ensures scope { OnOk result (scope.new ≡ scope.old) }
{
    match view_of(expr) {
        View::Literal(_) => Ok(Faults::clean()),
        View::Name(name) => Ok(name_faults(globals, scope, name)),
        View::Call(callee, parts) => {
            let called = callee_fault(globals.meaning(scope, callee));
            Ok(called.with(faults_in_each(alloc, globals, scope, parts)?))
        }
        View::If(test, then, other) => {
            let found = faults_in(alloc, globals, scope, test)?;
            let rest = faults_in_group(alloc, globals, scope, Parts::Two(then, other))?;
            Ok(found.with(rest))
        }
        View::Chain(names, parts, body) => {
            faults_in_chain(alloc, globals, scope, names, parts, body)
        }
        View::Cond(tests, parts, other) => {
            let tested = faults_in_each(alloc, globals, scope, tests)?;
            let chosen = faults_in_each(alloc, globals, scope, parts)?;
            let last = faults_in(alloc, globals, scope, other)?;
            Ok(tested.with(chosen.with(last)))
        }
        View::And(parts) | View::Or(parts) => faults_in_each(alloc, globals, scope, parts),
        View::Operator(_, parts) => faults_in_group(alloc, globals, scope, parts),
        View::Binding(_, parts, names, body) => {
            faults_in_binding(alloc, globals, scope, names, parts, body)
        }
        View::Feedback(name, first, body) => {
            let (names, parts) = (Names::One(name), Parts::One(first));
            faults_in_binding(alloc, globals, scope, names, parts, body)
        }
    }
}

/// What is wrong in any.
#[cycle(faults)]
fn faults_in_group(
    alloc: Global,
    globals: &Globals,
    scope: &mut Scope,
    parts: Parts<'_>,
) -> Result<Faults, AllocError>
    requires { length scope.old + total (map weight (exprs_of parts)) ≤ most_numbered }
    ensures found { IfOk result (λ f. f ≡ all_faults (map (faults globals.now) (exprs_of parts.entry)) scope.old) }
    ensures scope { OnOk result (scope.new ≡ scope.old) }
{
    match parts {
        Parts::One(part) => faults_in(alloc, globals, scope, part),
        Parts::Two(first, second) => {
            let found = faults_in(alloc, globals, scope, first)?;
            Ok(found.with(faults_in(alloc, globals, scope, second)?))
        }
        Parts::Each(parts) => faults_in_each(alloc, globals, scope, parts),
    }
}

/// What is wrong in any.
#[cycle(faults)]
fn faults_in_each(
    alloc: Global,
    globals: &Globals,
    scope: &mut Scope,
    parts: &[Expr],
) -> Result<Faults, AllocError>
    requires { length scope.old + total (map weight parts.now) ≤ most_numbered }
    ensures found { IfOk result (λ f. f ≡ all_faults (map (faults globals.now) parts.now) scope.old) }
    ensures scope { OnOk result (scope.new ≡ scope.old) }
{
    let mut found = Faults::clean();
    for part in parts {
        found = found.with(faults_in(alloc, globals, scope, part)?);
    }
    Ok(found)
}

/// What is wrong in what binds names together: in the names, in the parts, which don't see them, and in the body.
#[cycle(faults)]
fn faults_in_binding(
    alloc: Global,
    globals: &Globals,
    scope: &mut Scope,
    names: Names<'_>,
    parts: Parts<'_>,
    body: &Expr,
) -> Result<Faults, AllocError>
    requires { length scope.old + length (names_of names) + total (map weight (exprs_of parts)) + weight body.now ≤ most_numbered }
    ensures found { let bound = names_of names.entry in
        IfOk result (λ f. f ≡ with (binding_faults bound) (with (all_faults (map (faults globals.now) (exprs_of parts.entry)) scope.old) (faults globals.now body.now (scope.old ++ named bound)))) }
    ensures scope { OnOk result (scope.new ≡ scope.old) }
{
    let bound = binding_faults(alloc, names)?;
    let found = faults_in_group(alloc, globals, scope, parts)?;
    let outer = scope.len();
    bind(scope, names)?;
    let below = faults_in(alloc, globals, scope, body)?;
    scope.cut(outer);
    Ok(bound.with(found.with(below)))
}

/// What is wrong in a `let*`: a part sees the names before it, and the body all.
#[cycle(faults)]
fn faults_in_chain(
    alloc: Global,
    globals: &Globals,
    scope: &mut Scope,
    names: &[Symbol],
    parts: &[Expr],
    body: &Expr,
) -> Result<Faults, AllocError>
    requires { length scope.old + length names.now + total (map weight parts.now) + weight body.now ≤ most_numbered }
    ensures found { IfOk result (λ f. f ≡ with (chain_faults names.now) (chained_faults names.now (map (faults globals.now) parts.now) (faults globals.now body.now) scope.old)) }
    ensures scope { OnOk result (scope.new ≡ scope.old) }
{
    let outer = scope.len();
    let mut found = chain_faults(names);
    for at in 0..names.len().min(parts.len()) {
        found = found.with(faults_in(alloc, globals, scope, &parts[at])?);
        scope.push(&names[at])?;
    }
    found = found.with(faults_in(alloc, globals, scope, body)?);
    scope.cut(outer);
    Ok(found)
}
