ghost use Rattle.std.specs.Prelude.{◌≡◌, IfOk};
ghost use Rattle.std.specs.Option.{option_map};
ghost use Rattle.fr_syntax.specs.declared.expr.Expr.TheVariants as expr;
ghost use Rattle.fr_value.specs.Data.{datum_of, data_of};
ghost use Rattle.fr_syntax.specs.Shapes.{expr_to, each, both as pair, triple, bindings, clauses};
ghost use Rattle.fr_syntax.specs.Layouts.{filled, bound, clauses_before};

use crate::bindings::binding;
use crate::clauses::{else_part, test_parts};
use crate::expr::Expr;
use crate::layouts::{Layout, cond_with};
use crate::lists::items_of;
use crate::openings::layout_of;
use crate::parts::{both, named, push_both};
use fr_value::{List, Symbol, Value};
use sqlite_items::Items;
use std::alloc::{AllocError, Global};

/// How deep expressions nest: as deep as data, whose leaves stand one level below their deepest lists.
pub(crate) const LEVELS: u32 = 65;

/// The expression that a value is, to a number of nested levels; None where it is none.
#[cycle(expr)]
pub(crate) fn expr(alloc: Global, levels: u32, v: &Value) -> Result<Option<Expr>, AllocError>
    ensures { IfOk result (λ e. e ≡ expr_to levels (datum_of v.now)) }
{
    if levels == 0 {
        return Ok(None);
    }
    let items = items_of(alloc, v)?;
    match layout_of(v, &items) {
        Some(layout) => filled(alloc, levels - 1, layout),
        None => Ok(None),
    }
}

/// The expression of a form, where its parts nest to that number of levels.
#[cycle(expr)]
fn filled(alloc: Global, levels: u32, layout: Layout<'_>) -> Result<Option<Expr>, AllocError>
    ensures { IfOk result (λ e. e ≡ filled (expr_to levels) layout.entry) }
{
    match layout {
        Layout::Literal(v) => literal(v),
        Layout::Name(name) => variable(name),
        Layout::One(form, a) => form.with(alloc, expr(alloc, levels, a)?),
        Layout::Two(form, a, b) => form.with(alloc, pair(alloc, levels, a, b)?),
        Layout::Three(form, a, b, c) => form.with(alloc, triple(alloc, levels, a, b, c)?),
        Layout::Many(form, parts) => form.with(each(alloc, levels, parts)?),
        Layout::Bindings(form, list, body) => form.with(alloc, bound(alloc, levels, list, body)?),
        Layout::Cond(list) => cond_with(alloc, cond_parts(alloc, levels, list)?),
    }
}

/// Two values as expressions.
#[cycle(expr)]
fn pair(
    alloc: Global,
    levels: u32,
    a: &Value,
    b: &Value,
) -> Result<Option<(Expr, Expr)>, AllocError>
    ensures { IfOk result (λ x. x ≡ pair (expr_to levels) (datum_of a.now, datum_of b.now)) }
{
    match expr(alloc, levels, a)? {
        Some(a) => both(a, expr(alloc, levels, b)),
        None => Ok(None),
    }
}

/// Three values as expressions.
#[cycle(expr)]
fn triple(
    alloc: Global,
    levels: u32,
    a: &Value,
    b: &Value,
    c: &Value,
) -> Result<Option<(Expr, Expr, Expr)>, AllocError>
    ensures { IfOk result (λ x. x ≡ triple (expr_to levels) (datum_of a.now, datum_of b.now, datum_of c.now)) }
{
    match pair(alloc, levels, a, b)? {
        Some(ab) => Ok(flat(both(ab, expr(alloc, levels, c))?)),
        None => Ok(None),
    }
}

/// All of these as expressions.
#[cycle(expr)]
fn each(alloc: Global, levels: u32, items: &[Value]) -> Result<Option<Items<Expr>>, AllocError>
    ensures { IfOk result (λ es. es ≡ each (expr_to levels) (data_of items.now)) }
{
    let mut parts = Items::new(alloc);
    for item in items {
        match expr(alloc, levels, item)? {
            Some(part) => parts.push(part)?,
            None => return Ok(None),
        }
    }
    Ok(Some(parts))
}

/// The names and the expressions of bindings.
#[cycle(expr)]
fn bindings(
    alloc: Global,
    levels: u32,
    items: &[Value],
) -> Result<Option<(Items<Symbol>, Items<Expr>)>, AllocError>
    ensures { IfOk result (λ bs. bs ≡ bindings (expr_to levels) (data_of items.now)) }
{
    let mut found = (Items::new(alloc), Items::new(alloc));
    for item in items {
        let Some((name, value)) = binding(item) else {
            return Ok(None);
        };
        match expr(alloc, levels, value)? {
            Some(value) => {
                let (name, value) = named(name, value)?;
                push_both(&mut found, name, value)?;
            }
            None => return Ok(None),
        }
    }
    Ok(Some(found))
}

/// Bindings and a body.
#[cycle(expr)]
fn bound(
    alloc: Global,
    levels: u32,
    list: &List,
    body: &Value,
) -> Result<Option<((Items<Symbol>, Items<Expr>), Expr)>, AllocError>
    ensures { IfOk result (λ x. x ≡ bound (expr_to levels) list.now (datum_of body.now)) }
{
    match bindings(alloc, levels, &list.to_vec(alloc)?)? {
        Some(found) => both(found, expr(alloc, levels, body)),
        None => Ok(None),
    }
}

/// The tests and the expressions of clauses `(TEST EXPR)`.
#[cycle(expr)]
fn tests(
    alloc: Global,
    levels: u32,
    items: &[Value],
) -> Result<Option<(Items<Expr>, Items<Expr>)>, AllocError>
    ensures { IfOk result (λ x. x ≡ clauses_before (expr_to levels) (data_of items.now)) }
{
    let mut found = (Items::new(alloc), Items::new(alloc));
    for item in items {
        let Some((test, part)) = test_parts(item) else {
            return Ok(None);
        };
        match pair(alloc, levels, test, part)? {
            Some((test, part)) => push_both(&mut found, test, part)?,
            None => return Ok(None),
        }
    }
    Ok(Some(found))
}

/// The tests and the expressions of the clauses of a `cond`, and its last expression.
#[cycle(expr)]
fn cond_parts(
    alloc: Global,
    levels: u32,
    items: &[Value],
) -> Result<Option<((Items<Expr>, Items<Expr>), Expr)>, AllocError>
    ensures { IfOk result (λ x. x ≡ clauses (expr_to levels) (data_of items.now)) }
{
    let Some((last, first)) = items.split_last() else {
        return Ok(None);
    };
    let Some(last) = else_part(last) else {
        return Ok(None);
    };
    match tests(alloc, levels, first)? {
        Some(found) => both(found, expr(alloc, levels, last)),
        None => Ok(None),
    }
}

fn literal(v: &Value) -> Result<Option<Expr>, AllocError>
    ensures { IfOk result (λ e. e ≡ Some (expr.Literal v.now)) }
{
    Ok(Some(Expr::Literal(v.share()?)))
}

fn variable(name: &Symbol) -> Result<Option<Expr>, AllocError>
    ensures { IfOk result (λ e. e ≡ Some (expr.Name name.now)) }
{
    Ok(Some(Expr::Name(name.share()?)))
}

/// Two parts and one more as three.
fn flat(parts: Option<((Expr, Expr), Expr)>) -> Option<(Expr, Expr, Expr)>
    ensures { result ≡ option_map (λ x. (x.0.0, x.0.1, x.1)) parts }
{
    match parts {
        Some(((a, b), c)) => Some((a, b, c)),
        None => None,
    }
}
