#![tactic(auto, using(crate::proofs::Opened::opened))]

ghost use Rattle.std.specs.Prelude.{◌≡◌, IfOk};
ghost use Rattle.std.specs.Option.{option_and_then};
ghost use Rattle.fr_value.specs.Data.{data_of, datum_of};
ghost use Rattle.fr_syntax.specs.Shapes.{symbols, function_form};

use crate::exprs::{LEVELS, expr};
use crate::form::Form;
use crate::outlines::symbol_of;
use crate::parts::{both, named};
use fr_value::{Symbol, Value};
use sqlite_items::Items;
use std::alloc::{AllocError, Global};

/// The function with this head `(NAME PARAM ...)` and this body.
pub(crate) fn function_form(
    alloc: Global,
    head: &[Value],
    body: &Value,
) -> Result<Option<Form>, AllocError>
    ensures { IfOk result (λ f. f ≡ function_form (data_of head.now) (datum_of body.now)) }
{
    let Some((name, params)) = head.split_first() else {
        return Ok(None);
    };
    let Some(name) = symbol_of(name) else {
        return Ok(None);
    };
    let Some(params) = symbols(alloc, params)? else {
        return Ok(None);
    };
    match both(params, expr(alloc, LEVELS, body))? {
        Some((params, body)) => {
            let (name, (params, body)) = named(name, (params, body))?;
            Ok(Some(Form::Function(name, params, body)))
        }
        None => Ok(None),
    }
}

/// All of these as names.
fn symbols(alloc: Global, items: &[Value]) -> Result<Option<Items<Symbol>>, AllocError>
    ensures { IfOk result (λ ss. ss ≡ symbols (data_of items.now)) }
{
    let mut names = Items::new(alloc);
    for item in items {
        match symbol_of(item) {
            Some(name) => names.push(name.share()?)?,
            None => return Ok(None),
        }
    }
    Ok(Some(names))
}
