ghost use Rattle.std.specs.Prelude.{◌≡◌, IfOk};
ghost use Rattle.std.specs.Option.{option_map, option_and_then};
ghost use Rattle.fr_value.specs.Data.{data_of, datum_of};
ghost use Rattle.fr_syntax.specs.Shapes.{items_of, one_in, two_in, three_in};
ghost use Rattle.fr_syntax.specs.Layouts.{datum_at, listed_at, two_at, three_at, AreItems};

use fr_value::{List, Value};
use std::alloc::{AllocError, Global};

/// The list that a value is.
pub(crate) fn list_of(v: &Value) -> Option<&List>
    ensures { option_map listed_at result ≡ items_of v.now }
{
    match v {
        Value::List(list) => Some(list),
        _ => None,
    }
}

/// One more owner of each item of a list; nothing for anything else.
pub(crate) fn items_of(alloc: Global, v: &Value) -> Result<Vec<Value>, AllocError>
    ensures { IfOk result (λ vs. AreItems v.now vs.items) }
{
    match v {
        Value::List(list) => list.to_vec(alloc),
        _ => Ok(Vec::new(alloc)),
    }
}

/// The only item of a list.
pub(crate) fn lone_of(list: &List) -> Option<&Value>
    ensures { option_map datum_at result ≡ one_in list.now }
{
    if list.len() != 1 {
        return None;
    }
    list.get(0)
}

/// The items of a list of two.
pub(crate) fn both_of(list: &List) -> Option<(&Value, &Value)>
    ensures { option_map two_at result ≡ two_in list.now }
{
    if list.len() != 2 {
        return None;
    }
    Some((list.get(0)?, list.get(1)?))
}

/// The items of a list of three.
pub(crate) fn three_of(list: &List) -> Option<(&Value, &Value, &Value)>
    ensures { option_map three_at result ≡ three_in list.now }
{
    if list.len() != 3 {
        return None;
    }
    Some((list.get(0)?, list.get(1)?, list.get(2)?))
}

/// The only item.
pub(crate) fn one_in(items: &[Value]) -> Option<&Value>
    ensures { option_map datum_at result ≡ one_in (data_of items.now) }
{
    match items {
        [a] => Some(a),
        _ => None,
    }
}

/// The items where there are two.
pub(crate) fn two_in(items: &[Value]) -> Option<(&Value, &Value)>
    ensures { option_map two_at result ≡ two_in (data_of items.now) }
{
    match items {
        [a, b] => Some((a, b)),
        _ => None,
    }
}

/// The items where there are three.
pub(crate) fn three_in(items: &[Value]) -> Option<(&Value, &Value, &Value)>
    ensures { option_map three_at result ≡ three_in (data_of items.now) }
{
    match items {
        [a, b, c] => Some((a, b, c)),
        _ => None,
    }
}

/// The items of a list of two.
pub(crate) fn pair_of(v: &Value) -> Option<(&Value, &Value)>
    ensures { option_map two_at result ≡ option_and_then two_in (items_of v.now) }
{
    both_of(list_of(v)?)
}
