ghost use Rattle.std.specs.Prelude.{◌≡◌, neg_ℤ, pos, unsigned_abs, int_div, int_rem};
ghost use Rattle.fr_prims.specs.Integers.{fitting, given, in_range, running, folded, subtracted, one, two, on_integer, on_integers, divided, int_mod};
ghost use Rattle.fr_prims.specs.Choices.{op_of, division_of};

use crate::kinds::{Answer, Kind, all_of, number_in};
use fr_value::{Bad, Value};

/// An operation that is applied from the left.
#[derive(Clone, Copy, Debug, PartialEq, Eq)]
pub(crate) enum Operation {
    Add,
    Multiply,
    Subtract,
}

/// The result of an operation, where it fits in 64 bits.
fn applied(operation: Operation, a: i64, b: i64) -> Option<i64>
    ensures { result ≡ fitting (op_of operation a b) }
{
    match operation {
        Operation::Add => a.checked_add(b),
        Operation::Multiply => a.checked_mul(b),
        Operation::Subtract => a.checked_sub(b),
    }
}

/// The operation from the left on integers; Range where a partial result leaves 64 bits.
fn run(operation: Operation, start: i64, values: &[Value]) -> Answer
    ensures { result ≡ running (op_of operation) start values.now }
{
    let mut so_far = start;
    for value in values {
        match applied(operation, so_far, number_in(value)) {
            Some(n) => so_far = n,
            None => return Err(Bad::Range),
        }
    }
    Ok(Value::Int(so_far))
}

/// The operation from the left on the arguments.
pub(crate) fn fold(operation: Operation, start: i64, args: &[Value]) -> Answer
    ensures { result ≡ folded (op_of operation) start args.now }
{
    if all_of(Kind::Integer, args) {
        run(operation, start, args)
    } else {
        Err(Bad::WrongType)
    }
}

/// The negation of an argument, or the differences of several from the left.
pub(crate) fn subtract(args: &[Value]) -> Answer
    ensures { result ≡ subtracted args.now }
{
    match args {
        [] => Err(Bad::Arity),
        [value] => negate(value),
        [first, others @ ..] => {
            if all_of(Kind::Integer, args) {
                run(Operation::Subtract, number_in(first), others)
            } else {
                Err(Bad::WrongType)
            }
        }
    }
}

/// An integer as a value; Range where there is none.
fn or_range(n: Option<i64>) -> Answer
    ensures { result ≡ given n }
{
    match n {
        Some(n) => Ok(Value::Int(n)),
        None => Err(Bad::Range),
    }
}

fn negated(n: i64) -> Option<i64>
    ensures { result ≡ fitting (neg_ℤ n) }
{
    n.checked_neg()
}

fn negate(value: &Value) -> Answer
    ensures { result ≡ on_integer (λ n. in_range (neg_ℤ n)) value.now }
{
    match value {
        Value::Int(n) => or_range(negated(*n)),
        _ => Err(Bad::WrongType),
    }
}

fn absolute(n: i64) -> Option<i64>
    ensures { result ≡ fitting (pos (unsigned_abs n)) }
{
    n.checked_abs()
}

/// The argument without its sign.
pub(crate) fn without_sign(args: &[Value]) -> Answer
    ensures { result ≡ one (on_integer (λ n. in_range (pos (unsigned_abs n)))) args.now }
{
    match args {
        [Value::Int(n)] => or_range(absolute(*n)),
        [_] => Err(Bad::WrongType),
        _ => Err(Bad::Arity),
    }
}

/// A division of two integers.
#[derive(Clone, Copy, Debug, PartialEq, Eq)]
pub(crate) enum Division {
    /// The truncated quotient.
    Quotient,
    /// The remainder with the dividend's sign.
    Remainder,
    /// The remainder with the divisor's sign.
    Modulo,
}

fn quotient(a: i64, b: i64) -> Option<i64>
    requires { (b ≡ pos 0) → ⊥ }
    ensures { result ≡ fitting (int_div a b) }
{
    a.checked_div(b)
}

fn remainder(a: i64, b: i64) -> i64
    requires { (b ≡ pos 0) → ⊥ }
    ensures { result ≡ int_rem a b }
{
    // the machine's division of the least integer by -1 leaves 64 bits
    if b == -1 { 0 } else { a % b }
}

fn modulo(a: i64, b: i64) -> i64
    requires { (b ≡ pos 0) → ⊥ }
    ensures { result ≡ int_mod a b }
{
    let r = remainder(a, b);
    if r != 0 && (r < 0) != (b < 0) {
        r + b
    } else {
        r
    }
}

/// The division's result; Zero where the divisor is 0, and Range where the result leaves 64 bits.
fn divided_by(division: Division, a: i64, b: i64) -> Answer
    ensures { result ≡ divided (division_of division) a b }
{
    if b == 0 {
        return Err(Bad::Zero);
    }
    match division {
        Division::Quotient => or_range(quotient(a, b)),
        Division::Remainder => Ok(Value::Int(remainder(a, b))),
        Division::Modulo => Ok(Value::Int(modulo(a, b))),
    }
}

/// The division of the first argument by the second.
pub(crate) fn divide(division: Division, args: &[Value]) -> Answer
    ensures { result ≡ two (on_integers (divided (division_of division))) args.now }
{
    match args {
        [Value::Int(a), Value::Int(b)] => divided_by(division, *a, *b),
        [_, _] => Err(Bad::WrongType),
        _ => Err(Bad::Arity),
    }
}
