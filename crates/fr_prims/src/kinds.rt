ghost use Rattle.std.specs.Prelude.{◌≡◌, not};
ghost use Rattle.fr_prims.specs.Integers.{all_pass, number, one, two, truth};
ghost use Rattle.fr_prims.specs.Choices.{kind_of};
ghost use Rattle.fr_prims.specs.Data.{is_true, is_null, is_pair};
ghost use Rattle.fr_value.specs.Same.{is_same};

use fr_value::{Bad, Value, same};

/// A value, or why there is none.
pub(crate) type Answer = Result<Value, Bad>;

/// What a value may be.
#[derive(Clone, Copy, Debug, PartialEq, Eq)]
pub(crate) enum Kind {
    Integer,
    Boolean,
    Symbol,
    String,
    List,
    Null,
    Pair,
}

/// Whether a value is of a kind.
fn is_of(kind: Kind, value: &Value) -> bool
    ensures { result ≡ kind_of kind value.now }
{
    match kind {
        Kind::Integer => matches!(value, Value::Int(_)),
        Kind::Boolean => matches!(value, Value::Bool(_)),
        Kind::Symbol => matches!(value, Value::Sym(_)),
        Kind::String => matches!(value, Value::Str(_)),
        Kind::List => matches!(value, Value::List(_)),
        Kind::Null => is_empty_list(value),
        Kind::Pair => is_longer_list(value),
    }
}

fn is_empty_list(value: &Value) -> bool
    ensures { result ≡ is_null value.now }
{
    match value {
        Value::List(list) => list.len() == 0,
        _ => false,
    }
}

fn is_longer_list(value: &Value) -> bool
    ensures { result ≡ is_pair value.now }
{
    match value {
        Value::List(list) => list.len() != 0,
        _ => false,
    }
}

/// Whether all values are of a kind.
pub(crate) fn all_of(kind: Kind, values: &[Value]) -> bool
    ensures { result ≡ all_pass (kind_of kind) values.now }
{
    for value in values {
        if !is_of(kind, value) {
            return false;
        }
    }
    true
}

/// Whether the one argument is of a kind.
pub(crate) fn test_kind(kind: Kind, args: &[Value]) -> Answer
    ensures { result ≡ one (λ v. truth (kind_of kind v)) args.now }
{
    match args {
        [value] => Ok(Value::Bool(is_of(kind, value))),
        _ => Err(Bad::Arity),
    }
}

/// The integer that a value is, and 0 for anything else.
pub(crate) fn number_in(value: &Value) -> i64
    ensures { result ≡ number value.now }
{
    match value {
        Value::Int(n) => *n,
        _ => 0,
    }
}

/// Whether the one argument is `#f`.
pub(crate) fn negate_truth(args: &[Value]) -> Answer
    ensures { result ≡ one (λ v. truth (not (is_true v))) args.now }
{
    match args {
        [Value::Bool(b)] => Ok(Value::Bool(!*b)),
        [_] => Ok(Value::Bool(false)),
        _ => Err(Bad::Arity),
    }
}

/// Whether the two arguments have the same structure.
pub(crate) fn same_structure(args: &[Value]) -> Answer
    ensures { result ≡ two (λ v w. truth (is_same v w)) args.now }
{
    match args {
        [a, b] => Ok(Value::Bool(same(a, b))),
        _ => Err(Bad::Arity),
    }
}
