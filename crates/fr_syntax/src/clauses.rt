#![tactic(auto, using(crate::proofs::Opened::opened))]

ghost use Rattle.std.specs.Prelude.{◌≡◌};
ghost use Rattle.std.specs.Option.{option_and_then};
ghost use Rattle.fr_value.specs.Data.{datum_of};
ghost use Rattle.fr_syntax.specs.Shapes.{Below, else_with, else_clause, test_with, test_clause};
ghost use Rattle.fr_syntax.specs.Layouts.{shaped_at, shaped_both};

use crate::keyword::Keyword;
use crate::lists::pair_of;
use crate::outlines::keyword_of;
use fr_value::Value;

/// The expression of a clause `(else EXPR)`.
pub(crate) fn else_part(v: &Value) -> Option<&Value>
    ensures { (below : Below) → option_and_then (shaped_at below) result ≡ else_clause below (datum_of v.now) }
{
    let (head, part) = pair_of(v)?;
    else_with(keyword_of(head), part)
}

/// The part behind this keyword, where that is `else`.
fn else_with(keyword: Option<Keyword>, part: &Value) -> Option<&Value>
    ensures { (below : Below) → option_and_then (shaped_at below) result ≡ else_with below keyword (datum_of part.now) }
{
    match keyword {
        Some(Keyword::Else) => Some(part),
        _ => None,
    }
}

/// The test and the expression of a clause `(TEST EXPR)`, whose test isn't the word `else`.
pub(crate) fn test_parts(v: &Value) -> Option<(&Value, &Value)>
    ensures { (below : Below) → option_and_then (shaped_both below) result ≡ test_clause below (datum_of v.now) }
{
    let (test, part) = pair_of(v)?;
    test_with(keyword_of(test), test, part)
}

/// A test and the part behind it, where the test isn't the keyword `else`.
fn test_with<'a>(
    keyword: Option<Keyword>,
    test: &'a Value,
    part: &'a Value,
) -> Option<(&'a Value, &'a Value)>
    ensures { (below : Below) → option_and_then (shaped_both below) result ≡ test_with below keyword (datum_of test.now, datum_of part.now) }
{
    match keyword {
        Some(Keyword::Else) => None,
        _ => Some((test, part)),
    }
}
