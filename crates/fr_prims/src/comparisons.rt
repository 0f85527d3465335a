ghost use Rattle.std.specs.Prelude.{◌≡◌};
ghost use Rattle.fr_prims.specs.Integers.{neighbours, chosen, compared, extreme, tested};
ghost use Rattle.fr_prims.specs.Choices.{stands_of, sign_of};

use crate::kinds::{Answer, Kind, all_of, number_in};
use fr_value::{Bad, Value};

/// How two integers may stand to one another.
#[derive(Clone, Copy, Debug, PartialEq, Eq)]
pub(crate) enum Relation {
    Equal,
    Less,
    Greater,
    AtMost,
    AtLeast,
}

/// What may be asked of one integer.
#[derive(Clone, Copy, Debug, PartialEq, Eq)]
pub(crate) enum Sign {
    Zero,
    Positive,
    Negative,
    Even,
    Odd,
}

fn stands(relation: Relation, a: i64, b: i64) -> bool
    ensures { result ≡ stands_of relation a b }
{
    match relation {
        Relation::Equal => a == b,
        Relation::Less => a < b,
        Relation::Greater => a > b,
        Relation::AtMost => a <= b,
        Relation::AtLeast => a >= b,
    }
}

/// Whether each integer stands so to the next, from one on.
fn all_stand(relation: Relation, first: i64, values: &[Value]) -> bool
    ensures { result ≡ neighbours (stands_of relation) first values.now }
{
    let mut last = first;
    for value in values {
        let next = number_in(value);
        if !stands(relation, last, next) {
            return false;
        }
        last = next;
    }
    true
}

/// Whether each neighbouring pair of the arguments stands so.
pub(crate) fn compare(relation: Relation, args: &[Value]) -> Answer
    ensures { result ≡ compared (stands_of relation) args.now }
{
    match args {
        [] => Err(Bad::Arity),
        [first, others @ ..] => {
            if all_of(Kind::Integer, args) {
                Ok(Value::Bool(all_stand(relation, number_in(first), others)))
            } else {
                Err(Bad::WrongType)
            }
        }
    }
}

/// The one of these integers and those of the values that stands so to the others.
fn choose(relation: Relation, first: i64, values: &[Value]) -> i64
    ensures { result ≡ chosen (stands_of relation) first values.now }
{
    let mut best = first;
    for value in values {
        let next = number_in(value);
        if stands(relation, next, best) {
            best = next;
        }
    }
    best
}

/// The one of the arguments that stands so to the others.
pub(crate) fn extremum(relation: Relation, args: &[Value]) -> Answer
    ensures { result ≡ extreme (stands_of relation) args.now }
{
    match args {
        [] => Err(Bad::Arity),
        [first, others @ ..] => {
            if all_of(Kind::Integer, args) {
                Ok(Value::Int(choose(relation, number_in(first), others)))
            } else {
                Err(Bad::WrongType)
            }
        }
    }
}

fn passes(sign: Sign, n: i64) -> bool
    ensures { result ≡ sign_of sign n }
{
    match sign {
        Sign::Zero => n == 0,
        Sign::Positive => n > 0,
        Sign::Negative => n < 0,
        Sign::Even => n % 2 == 0,
        Sign::Odd => n % 2 != 0,
    }
}

/// Whether the one argument, an integer, is so.
pub(crate) fn test_sign(sign: Sign, args: &[Value]) -> Answer
    ensures { result ≡ tested (sign_of sign) args.now }
{
    match args {
        [Value::Int(n)] => Ok(Value::Bool(passes(sign, *n))),
        [_] => Err(Bad::WrongType),
        _ => Err(Bad::Arity),
    }
}
