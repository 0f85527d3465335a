#![tactic(auto, using(crate::proofs::Opened::opened))]

ghost use Rattle.std.specs.Prelude.{◌≡◌, ◌≤◌, IfOk, IfSome};
ghost use Rattle.std.specs.Option.{option_map, option_and_then};
ghost use Rattle.fr_value.specs.Data.{data_of, datum_of, datum_size};
ghost use Rattle.fr_syntax.specs.Outlines.{symbol_of};
ghost use Rattle.fr_syntax.specs.declared.form.Form.TheVariants as form;
ghost use Rattle.fr_syntax.specs.Weights.{form_weight};
ghost use Rattle.fr_syntax.specs.Shapes.{one_in, two_in, expr_of, named_expr as named_as, define_at, define_form, input_form, form_with, form_of as shaped};

use crate::expr::Expr;
use crate::exprs::{LEVELS, expr};
use crate::form::Form;
use crate::functions::function_form;
use crate::keyword::Keyword;
use crate::lists::{one_in, two_in};
use crate::outlines::{keyword_of, symbol_of};
use crate::parts::named;
use fr_value::{Symbol, Value};
use std::alloc::{AllocError, Global};

/// The form that a value is, or None where the value, or an expression in it, has the shape of no form.
///
/// It takes time in the value's size, and makes one more owner of each name and literal. What it gives weighs at most what the
/// value's size is. It fails only where there is no memory.
pub fn form_of(alloc: Global, v: &Value) -> Result<Option<Form>, AllocError>
    ensures shape { IfOk result (λ f. f ≡ shaped (datum_of v.now)) }
    ensures small { IfOk result (λ r. IfSome r (λ f. form_weight f ≤ datum_size (datum_of v.now))) }
{
    let Value::List(list) = v else {
        return Ok(None);
    };
    let items = list.to_vec(alloc)?;
    let Some((head, rest)) = items.split_first() else {
        return Ok(None);
    };
    form_with(alloc, keyword_of(head), rest)
}

/// The form that begins with this keyword.
fn form_with(
    alloc: Global,
    keyword: Option<Keyword>,
    rest: &[Value],
) -> Result<Option<Form>, AllocError>
    ensures { IfOk result (λ f. f ≡ form_with keyword (data_of rest.now)) }
{
    match keyword {
        Some(Keyword::DefineInput) => input_form(rest),
        Some(Keyword::DefineEvent) => event_form(rest),
        Some(Keyword::Define) => define_form(alloc, rest),
        Some(Keyword::Show) => show_form(alloc, rest),
        _ => Ok(None),
    }
}

/// `NAME DATUM`
fn input_form(rest: &[Value]) -> Result<Option<Form>, AllocError>
    ensures { IfOk result (λ f. f ≡ option_and_then input_form (two_in (data_of rest.now))) }
{
    let Some((name, first)) = two_in(rest) else {
        return Ok(None);
    };
    match symbol_of(name) {
        Some(name) => {
            let (name, first) = named(name, first.share()?)?;
            Ok(Some(Form::Input(name, first)))
        }
        None => Ok(None),
    }
}

/// `NAME`
fn event_form(rest: &[Value]) -> Result<Option<Form>, AllocError>
    ensures { IfOk result (λ f. f ≡ form_with (Some Keyword.DefineEvent) (data_of rest.now)) }
{
    let Some(name) = one_in(rest) else {
        return Ok(None);
    };
    match symbol_of(name) {
        Some(name) => Ok(Some(Form::Event(name.share()?))),
        None => Ok(None),
    }
}

/// `NAME EXPR`, or the head and the body of a function
fn define_form(alloc: Global, rest: &[Value]) -> Result<Option<Form>, AllocError>
    ensures { IfOk result (λ f. f ≡ option_and_then define_form (two_in (data_of rest.now))) }
{
    match two_in(rest) {
        Some((head, body)) => defined(alloc, head, body),
        None => Ok(None),
    }
}

fn defined(alloc: Global, head: &Value, body: &Value) -> Result<Option<Form>, AllocError>
    ensures { IfOk result (λ f. f ≡ define_at head.now (datum_of head.now, datum_of body.now)) }
{
    match head {
        Value::List(list) => function_form(alloc, &list.to_vec(alloc)?, body),
        _ => match named_expr(alloc, head, body)? {
            Some((name, value)) => Ok(Some(Form::Define(name, value))),
            None => Ok(None),
        },
    }
}

/// `NAME EXPR`
fn show_form(alloc: Global, rest: &[Value]) -> Result<Option<Form>, AllocError>
    ensures { IfOk result (λ f. f ≡ option_and_then (named_as form.Show) (two_in (data_of rest.now))) }
{
    let Some((name, value)) = two_in(rest) else {
        return Ok(None);
    };
    match named_expr(alloc, name, value)? {
        Some((name, value)) => Ok(Some(Form::Show(name, value))),
        None => Ok(None),
    }
}

/// A name and an expression.
fn named_expr(
    alloc: Global,
    name: &Value,
    value: &Value,
) -> Result<Option<(Symbol, Expr)>, AllocError>
    ensures { IfOk result (λ x. x ≡ option_and_then (λ s. option_map (λ e. (s, e)) (expr_of (datum_of value.now))) (symbol_of name.now)) }
{
    let Some(name) = symbol_of(name) else {
        return Ok(None);
    };
    match expr(alloc, LEVELS, value)? {
        Some(value) => Ok(Some(named(name, value)?)),
        None => Ok(None),
    }
}
