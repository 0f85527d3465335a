//! Copies of expressions, as they are or over the slots of a kernel.
ghost use Rattle.std.specs.Prelude.{◌≡◌, IfOk, map};
ghost use Rattle.fr_core.specs.declared.core_form.Core.TheVariants as core;
ghost use Rattle.fr_kernel.specs.Placed.{scheme_at, placed};

use crate::names::Names;
use fr_core::Core;
use fr_value::{SrcId, VarId};
use sqlite_items::{Boxed, Items};
use std::alloc::{AllocError, Global};

/// The slot of a variable, or the variable.
#[tactic(auto, using(crate::proofs::Copies::placed_var))]
fn place_variable(names: Option<&Names>, variable: VarId) -> Result<Core, AllocError>
    ensures { IfOk result (λ e. e ≡ placed (scheme_at names.entry) (core.Var variable)) }
{
    match names {
        None => Ok(Core::Var(variable)),
        Some(names) => Ok(Core::Var(VarId(names.variable_slot(variable.0)?))),
    }
}

/// The slot of a source, or the source.
#[tactic(auto, using(crate::proofs::Copies::placed_source))]
fn place_source(names: Option<&Names>, source: SrcId) -> Result<Core, AllocError>
    ensures { IfOk result (λ e. e ≡ placed (scheme_at names.entry) (core.Source source)) }
{
    match names {
        None => Ok(Core::Source(source)),
        Some(names) => Ok(Core::Var(VarId(names.source_slot(source.0)?))),
    }
}

/// A copy of an expression, where these names became slots. It fails only where there is no memory, or where the
/// expression nests deeper than `left`.
#[cycle(place)]
#[tactic(auto, using(crate::proofs::Copies::placed_lit, crate::proofs::Copies::placed_let, crate::proofs::Copies::placed_if, crate::proofs::Copies::placed_apply, crate::proofs::Copies::placed_operator, crate::proofs::Copies::placed_handler, crate::proofs::Copies::placed_loop, crate::proofs::Copies::placed_feedback))]
pub(crate) fn place(
    alloc: Global,
    names: Option<&Names>,
    left: u32,
    expr: &Core,
) -> Result<Core, AllocError>
    ensures { IfOk result (λ e. e ≡ placed (scheme_at names.entry) expr.now) }
{
    if left == 0 {
        return Err(AllocError);
    }
    let below = left - 1;
    match expr {
        Core::Lit(value) => Ok(Core::Lit(value.share()?)),
        Core::Var(id) => place_variable(names, *id),
        Core::Source(id) => place_source(names, *id),
        Core::Let(es, body) => {
            let parts = place_all(alloc, names, below, es.as_slice())?;
            Ok(Core::Let(parts, place_boxed(alloc, names, below, body.get())?))
        }
        Core::If(a, b, c) => {
            let test = place_boxed(alloc, names, below, a.get())?;
            let then = place_boxed(alloc, names, below, b.get())?;
            Ok(Core::If(test, then, place_boxed(alloc, names, below, c.get())?))
        }
        Core::Apply(id, es) => Ok(Core::Apply(*id, place_all(alloc, names, below, es.as_slice())?)),
        Core::Operator(operator, es) => {
            Ok(Core::Operator(*operator, place_all(alloc, names, below, es.as_slice())?))
        }
        Core::Handler(handler, es, body) => {
            let parts = place_all(alloc, names, below, es.as_slice())?;
            let body = place_boxed(alloc, names, below, body.get())?;
            Ok(Core::Handler(*handler, parts, body))
        }
        Core::Loop(looped, es, body) => {
            let parts = place_all(alloc, names, below, es.as_slice())?;
            let body = place_boxed(alloc, names, below, body.get())?;
            Ok(Core::Loop(*looped, parts, body))
        }
        Core::Feedback(a, b) => {
            let first = place_boxed(alloc, names, below, a.get())?;
            Ok(Core::Feedback(first, place_boxed(alloc, names, below, b.get())?))
        }
    }
}

#[cycle(place)]
fn place_boxed(
    alloc: Global,
    names: Option<&Names>,
    left: u32,
    expr: &Core,
) -> Result<Boxed<Core>, AllocError>
    ensures { IfOk result (λ e. e ≡ placed (scheme_at names.entry) expr.now) }
{
    let core = place(alloc, names, left, expr)?;
    Boxed::new(alloc, core)
}

/// Copies of all parts.
#[cycle(place)]
fn place_all(
    alloc: Global,
    names: Option<&Names>,
    left: u32,
    exprs: &[Core],
) -> Result<Items<Core>, AllocError>
    ensures { IfOk result (λ es. es ≡ map (placed (scheme_at names.entry)) exprs.now) }
{
    let mut parts = Items::new(alloc);
    for expr in exprs {
        parts.push(place(alloc, names, left, expr)?)?;
    }
    Ok(parts)
}
