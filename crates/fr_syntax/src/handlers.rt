#![tactic(auto, using(crate::proofs::Opened::opened))]

ghost use Rattle.std.specs.Prelude.{◌≡◌};
ghost use Rattle.std.specs.Option.{option_and_then};
ghost use Rattle.fr_value.specs.Data.{datum_of};
ghost use Rattle.fr_value.specs.declared.value.Datum.{Datum};
ghost use Rattle.fr_syntax.specs.Shapes.{Below, lambda_with, lambda_of, one_param, two_params};
ghost use Rattle.fr_syntax.specs.Layouts.{named_in, lambda_in, two_named_in};

use crate::keyword::Keyword;
use crate::lists::{both_of, list_of, lone_of, three_of};
use crate::outlines::{keyword_of, symbol_of};
use fr_value::{List, Symbol, Value};

/// The parameter and the body of a `lambda` of one parameter.
pub(crate) fn one_param(v: &Value) -> Option<(&Symbol, &Value)>
    ensures { (below : Below) → option_and_then (named_in below) result ≡ option_and_then one_param (lambda_of below (datum_of v.now)) }
{
    let (params, body) = lambda_of(v)?;
    Some((symbol_of(lone_of(params)?)?, body))
}

/// The parameters and the body of a `lambda` of two parameters.
pub(crate) fn two_params(v: &Value) -> Option<(&Symbol, &Symbol, &Value)>
    ensures { (below : Below) → option_and_then (two_named_in below) result ≡ option_and_then two_params (lambda_of below (datum_of v.now)) }
{
    let (params, body) = lambda_of(v)?;
    let (payload, state) = both_of(params)?;
    Some((symbol_of(payload)?, symbol_of(state)?, body))
}

/// The list of parameters and the body of `(lambda (PARAM ...) BODY)`.
fn lambda_of(v: &Value) -> Option<(&List, &Value)>
    ensures { (below : Below) → option_and_then (lambda_in below) result ≡ lambda_of below (datum_of v.now) }
{
    let (head, params, body) = three_of(list_of(v)?)?;
    lambda_with(keyword_of(head), params, body)
}

/// The list of parameters and the body behind this keyword, where that is `lambda`.
fn lambda_with<'a>(
    keyword: Option<Keyword>,
    params: &'a Value,
    body: &'a Value,
) -> Option<(&'a List, &'a Value)>
    ensures { (below : Below) → (head : Datum) → option_and_then (lambda_in below) result ≡ lambda_with below keyword (head, datum_of params.now, datum_of body.now) }
{
    match keyword {
        Some(Keyword::Lambda) => Some((list_of(params)?, body)),
        _ => None,
    }
}
