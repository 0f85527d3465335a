//! The table of primitives: what each gives for its arguments.
ghost use Rattle.std.specs.Prelude.{◌≡◌, IfOk, IfErr, Ok, Err};
ghost use Rattle.fr_value.specs.declared.now.Bad.{Bad as KindOfBad};
ghost use Rattle.fr_prims.specs.declared.table.PrimStop.TheVariants as PrimStop;
ghost use Rattle.fr_value.specs.declared.now.Bad.TheVariants.{Raised as raised};
ghost use Rattle.fr_prims.specs.Integers.{one};
ghost use Rattle.fr_prims.specs.Table.{prim_on};

use crate::comparisons::{Relation, Sign, compare, extremum, test_sign};
use crate::integers::{Division, Operation, divide, fold, subtract, without_sign};
use crate::kinds::{Answer, Kind, negate_truth, same_structure, test_kind};
use crate::lists::{append, car, cdr, cons, item, length_of, list, reverse};
use crate::strings::{
    number_to_string, string_append, string_equal, string_length, symbol_to_string,
};
use fr_value::{Bad, Primitive, Value};
use std::alloc::{AllocError, Global};
use thiserror::Error;

/// Why a primitive gave no value.
#[derive(Debug, Drop, Error)]
pub enum PrimStop {
    /// Memory is wanting.
    #[error("memory is wanting")]
    Memory(AllocError),
    /// The primitive gives no value for these arguments.
    #[error("the primitive gives no value")]
    Bad(Bad),
}

impl From<AllocError> for PrimStop {
    ghost use Rattle.std.specs.Prelude.{◌≡◌};
    ghost use Rattle.fr_prims.specs.declared.table.PrimStop.TheVariants as PrimStop;

    ghost from_gives = { λ e r. r ≡ PrimStop.Memory e };

    fn from(e: AllocError) -> PrimStop {
        PrimStop::Memory(e)
    }
}

/// Refuses its one argument, as the program asked for.
fn raise(args: &[Value]) -> Answer
    ensures { result ≡ one (λ v. Err raised) args.now }
{
    match args {
        [_] => Err(Bad::Raised),
        _ => Err(Bad::Arity),
    }
}

/// What a primitive gives: each line calls what the table says for it.
fn answer(alloc: Global, prim: Primitive, args: &[Value]) -> Result<Answer, AllocError>
    ensures { IfOk result (λ r. r ≡ prim_on prim args.now) }
{
    match prim {
        Primitive::Add => Ok(fold(Operation::Add, 0, args)),
        Primitive::Mul => Ok(fold(Operation::Multiply, 1, args)),
        Primitive::Sub => Ok(subtract(args)),
        Primitive::Quotient => Ok(divide(Division::Quotient, args)),
        Primitive::Remainder => Ok(divide(Division::Remainder, args)),
        Primitive::Modulo => Ok(divide(Division::Modulo, args)),
        Primitive::Abs => Ok(without_sign(args)),
        Primitive::Min => Ok(extremum(Relation::Less, args)),
        Primitive::Max => Ok(extremum(Relation::Greater, args)),
        Primitive::Equal => Ok(compare(Relation::Equal, args)),
        Primitive::Less => Ok(compare(Relation::Less, args)),
        Primitive::Greater => Ok(compare(Relation::Greater, args)),
        Primitive::AtMost => Ok(compare(Relation::AtMost, args)),
        Primitive::AtLeast => Ok(compare(Relation::AtLeast, args)),
        Primitive::IsZero => Ok(test_sign(Sign::Zero, args)),
        Primitive::IsPositive => Ok(test_sign(Sign::Positive, args)),
        Primitive::IsNegative => Ok(test_sign(Sign::Negative, args)),
        Primitive::IsEven => Ok(test_sign(Sign::Even, args)),
        Primitive::IsOdd => Ok(test_sign(Sign::Odd, args)),
        Primitive::Not => Ok(negate_truth(args)),
        Primitive::Same => Ok(same_structure(args)),
        Primitive::IsInteger => Ok(test_kind(Kind::Integer, args)),
        Primitive::IsBoolean => Ok(test_kind(Kind::Boolean, args)),
        Primitive::IsSymbol => Ok(test_kind(Kind::Symbol, args)),
        Primitive::IsString => Ok(test_kind(Kind::String, args)),
        Primitive::IsList => Ok(test_kind(Kind::List, args)),
        Primitive::IsNull => Ok(test_kind(Kind::Null, args)),
        Primitive::IsPair => Ok(test_kind(Kind::Pair, args)),
        Primitive::List => list(alloc, args),
        Primitive::Cons => cons(alloc, args),
        Primitive::Car => car(args),
        Primitive::Cdr => cdr(alloc, args),
        Primitive::Length => Ok(length_of(args)),
        Primitive::Append => append(alloc, args),
        Primitive::Reverse => reverse(alloc, args),
        Primitive::ListRef => item(args),
        Primitive::StringLength => Ok(string_length(args)),
        Primitive::StringAppend => string_append(alloc, args),
        Primitive::StringEqual => Ok(string_equal(args)),
        Primitive::SymbolToString => symbol_to_string(args),
        Primitive::NumberToString => number_to_string(alloc, args),
        Primitive::Raise => Ok(raise(args)),
    }
}

/// The value of a primitive applied to these arguments.
///
/// A wrong number of arguments is refused as `Arity` before anything else is looked at, and an argument of a wrong type
/// as `WrongType` before the rest: `Zero` for a division by 0, `Range` for an integer that leaves 64 bits or an index
/// with no item, `Empty` for the first item or the rest of an empty list, `TooBig` for a list or string beyond the
/// limits on size and depth, and `Raised` for `raise`. The arguments are unchanged.
pub fn apply(alloc: Global, prim: Primitive, args: &[Value]) -> Result<Value, PrimStop>
    ensures value { IfOk result (λ v. prim_on prim args.now ≡ Ok v) }
    ensures bad { IfErr result (λ e. (b : KindOfBad) → e ≡ PrimStop.Bad b → prim_on prim args.now ≡ Err b) }
{
    match answer(alloc, prim, args)? {
        Ok(value) => Ok(value),
        Err(bad) => Err(PrimStop::Bad(bad)),
    }
}
