ghost use Rattle.std.specs.Prelude.{◌≡◌, ◌++◌, ◌∷◌, IfOk, Ok, Err, pos, length, reverse, slice_get};
ghost use Rattle.std.specs.List.{flat_map};
ghost use Rattle.fr_value.specs.Data.{data_of, datum_of, AreFew};
ghost use Rattle.fr_value.specs.declared.list.ListRefusal.TheVariants as ListRefusal;
ghost use Rattle.fr_value.specs.declared.value.Value.TheVariants as value;
ghost use Rattle.fr_prims.specs.Integers.{one, two, on_integer};
ghost use Rattle.fr_prims.specs.Data.{list_answer, on_list, car as car_of, cdr as cdr_of, list_ref, item_answer, items_of, appended};

use crate::kinds::{Answer, Kind, all_of};
use fr_value::{Bad, List, ListRefusal, Value};
use std::alloc::{AllocError, Global};

/// The list of the arguments.
pub(crate) fn list(alloc: Global, args: &[Value]) -> Result<Answer, AllocError>
    ensures { IfOk result (λ r. r ≡ list_answer (data_of args.now)) }
{
    match List::of(alloc, args) {
        Ok(list) => Ok(Ok(Value::List(list))),
        Err(ListRefusal::TooBig) => Ok(Err(Bad::TooBig)),
        Err(ListRefusal::Memory(e)) => Err(e),
    }
}

fn put_first(alloc: Global, item: &Value, rest: &List) -> Result<Answer, AllocError>
    ensures { IfOk result (λ r. r ≡ list_answer (datum_of item.now ∷ rest.now)) }
{
    match List::cons(alloc, item, rest) {
        Ok(list) => Ok(Ok(Value::List(list))),
        Err(ListRefusal::TooBig) => Ok(Err(Bad::TooBig)),
        Err(ListRefusal::Memory(e)) => Err(e),
    }
}

/// The list of the first argument and then the items of the second.
pub(crate) fn cons(alloc: Global, args: &[Value]) -> Result<Answer, AllocError>
    ensures { IfOk result (λ r. r ≡ two (λ v w. on_list (λ ds. list_answer (datum_of v ∷ ds)) w) args.now) }
{
    match args {
        [item, Value::List(rest)] => put_first(alloc, item, rest),
        [_, _] => Ok(Err(Bad::WrongType)),
        _ => Ok(Err(Bad::Arity)),
    }
}

/// The same value as an answer.
fn shared(value: &Value) -> Result<Answer, AllocError>
    ensures { IfOk result (λ r. r ≡ Ok value.now) }
{
    Ok(Ok(value.share()?))
}

fn first_item(list: &List) -> Result<Answer, AllocError>
    ensures { IfOk result (λ r. r ≡ car_of list.now) }
{
    let Some(first) = list.get(0) else {
        return Ok(Err(Bad::Empty));
    };
    shared(first)
}

/// The first item of the one argument.
pub(crate) fn car(args: &[Value]) -> Result<Answer, AllocError>
    ensures { IfOk result (λ r. r ≡ one (on_list car_of) args.now) }
{
    match args {
        [Value::List(list)] => first_item(list),
        [_] => Ok(Err(Bad::WrongType)),
        _ => Ok(Err(Bad::Arity)),
    }
}

fn other_items(alloc: Global, list: &List) -> Result<Answer, AllocError>
    ensures { IfOk result (λ r. r ≡ cdr_of list.now) }
{
    match list.rest(alloc)? {
        None => Ok(Err(Bad::Empty)),
        Some(rest) => Ok(Ok(Value::List(rest))),
    }
}

/// The list behind the first item of the one argument.
pub(crate) fn cdr(alloc: Global, args: &[Value]) -> Result<Answer, AllocError>
    ensures { IfOk result (λ r. r ≡ one (on_list cdr_of) args.now) }
{
    match args {
        [Value::List(list)] => other_items(alloc, list),
        [_] => Ok(Err(Bad::WrongType)),
        _ => Ok(Err(Bad::Arity)),
    }
}

fn count(list: &List) -> i64
    ensures { result ≡ pos (length list.now) }
{
    // a list has fewer items than its size, which is within a limit
    let _ = list.size();
    list.len() as i64
}

/// The number of items of the one argument.
pub(crate) fn length_of(args: &[Value]) -> Answer
    ensures { result ≡ one (on_list (λ ds. Ok (value.Int (pos (length ds))))) args.now }
{
    match args {
        [Value::List(list)] => Ok(Value::Int(count(list))),
        [_] => Err(Bad::WrongType),
        _ => Err(Bad::Arity),
    }
}

/// The list of a list's items and then those of another; only these for anything else than a list.
fn joined_before(alloc: Global, value: &Value, others: &List) -> Result<List, ListRefusal>
    ensures ok { IfOk result (λ l. l ≡ items_of value.now ++ others.now) }
    ensures too_big { result ≡ Err ListRefusal.TooBig → AreFew (items_of value.now ++ others.now) → ⊥ }
{
    match value {
        Value::List(list) => list.append(alloc, others),
        _ => Ok(others.share()?),
    }
}

/// A list as an answer.
fn kept(list: List) -> Answer
    ensures { result ≡ list_answer list }
{
    // the proof learns by the reads that the list is within the limits
    let _ = list.size();
    let _ = list.depth();
    Ok(Value::List(list))
}

/// The lists joined, the last two first, so that the items of the last are shared and not copied.
fn join_lists(alloc: Global, lists: &[Value]) -> Result<Answer, AllocError>
    ensures { IfOk result (λ r. r ≡ list_answer (flat_map items_of lists.now)) }
{
    let mut all = List::empty();
    let mut at = lists.len();
    while 0 < at {
        at -= 1;
        match joined_before(alloc, &lists[at], &all) {
            Ok(list) => {
                all = list;
            }
            Err(ListRefusal::TooBig) => return Ok(Err(Bad::TooBig)),
            Err(ListRefusal::Memory(e)) => return Err(e),
        }
    }
    Ok(kept(all))
}

/// The lists that are the arguments, joined.
pub(crate) fn append(alloc: Global, args: &[Value]) -> Result<Answer, AllocError>
    ensures { IfOk result (λ r. r ≡ appended args.now) }
{
    if all_of(Kind::List, args) {
        join_lists(alloc, args)
    } else {
        Ok(Err(Bad::WrongType))
    }
}

fn turned(alloc: Global, list: &List) -> Result<Answer, AllocError>
    ensures { IfOk result (λ r. r ≡ Ok (value.List (reverse list.now))) }
{
    Ok(Ok(Value::List(list.reversed(alloc)?)))
}

/// The items of the one argument from the last to the first.
pub(crate) fn reverse(alloc: Global, args: &[Value]) -> Result<Answer, AllocError>
    ensures { IfOk result (λ r. r ≡ one (on_list (λ ds. Ok (value.List (reverse ds)))) args.now) }
{
    match args {
        [Value::List(list)] => turned(alloc, list),
        [_] => Ok(Err(Bad::WrongType)),
        _ => Ok(Err(Bad::Arity)),
    }
}

fn item_from(list: &List, at: usize) -> Result<Answer, AllocError>
    ensures { IfOk result (λ r. r ≡ item_answer (slice_get list.now at)) }
{
    match list.get(at) {
        None => Ok(Err(Bad::Range)),
        Some(item) => shared(item),
    }
}

fn item_at(list: &List, at: i64) -> Result<Answer, AllocError>
    ensures { IfOk result (λ r. r ≡ list_ref list.now at) }
{
    if at < 0 {
        Ok(Err(Bad::Range))
    } else {
        item_from(list, at as usize)
    }
}

/// The item of the first argument at the index that is the second.
pub(crate) fn item(args: &[Value]) -> Result<Answer, AllocError>
    ensures { IfOk result (λ r. r ≡ two (λ v w. on_list (λ ds. on_integer (list_ref ds) w) v) args.now) }
{
    match args {
        [Value::List(list), Value::Int(at)] => item_at(list, *at),
        [_, _] => Ok(Err(Bad::WrongType)),
        _ => Ok(Err(Bad::Arity)),
    }
}
