#![tactic(auto, using(crate::proofs::Opened::opened))]

ghost use Rattle.std.specs.Prelude.{◌≡◌};
ghost use Rattle.std.specs.Option.{option_and_then};
ghost use Rattle.fr_value.specs.Data.{datum_of};
ghost use Rattle.fr_syntax.specs.Shapes.{Below, binding, lone_binding};
ghost use Rattle.fr_syntax.specs.Layouts.{named_in};

use crate::lists::{list_of, lone_of, pair_of};
use crate::outlines::symbol_of;
use fr_value::{Symbol, Value};

/// The name and the value of a binding `(NAME EXPR)`.
pub(crate) fn binding(v: &Value) -> Option<(&Symbol, &Value)>
    ensures { (below : Below) → option_and_then (named_in below) result ≡ binding below (datum_of v.now) }
{
    let (name, value) = pair_of(v)?;
    Some((symbol_of(name)?, value))
}

/// The name and the value of the single binding in a list `((NAME EXPR))`.
pub(crate) fn lone_binding(v: &Value) -> Option<(&Symbol, &Value)>
    ensures { (below : Below) → option_and_then (named_in below) result ≡ lone_binding below (datum_of v.now) }
{
    binding(lone_of(list_of(v)?)?)
}
