ghost use Rattle.std.specs.Prelude.{◌≡◌, ◌++◌, ◌+◌, IfOk, OnOk, Ok, pos, length, ◌<◌};
ghost use Rattle.std.specs.Fmt.{signed_decimal};
ghost use Rattle.std.specs.Str.{chars};
ghost use Rattle.std.specs.String.{string_bytes};
ghost use Rattle.std.specs.List.{flat_map};
ghost use Rattle.fr_value.specs.Bytes.{is_short};
ghost use Rattle.fr_value.specs.Limits.{integer_bound};
ghost use Rattle.fr_value.specs.declared.value.Value.TheVariants as value;
ghost use Rattle.fr_prims.specs.Integers.{one, on_integer};
ghost use Rattle.fr_prims.specs.Strings.{on_string, on_symbol, text_of, string_answer, strings_appended, all_same, strings_equal};

use crate::kinds::{Answer, Kind, all_of};
use fr_value::{Bad, MAX_TEXT_BYTES, Text, Value, same};
use itoa::Buffer;
use std::alloc::{AllocError, Global};

fn characters(text: &str) -> usize
    ensures value { result ≡ length (chars text.now) }
    ensures small { result < integer_bound }
{
    text.chars().count()
}

/// The number of characters of the one argument.
pub(crate) fn string_length(args: &[Value]) -> Answer
    ensures { result ≡ one (on_string (λ s. Ok (value.Int (pos (length (chars s)))))) args.now }
{
    match args {
        [Value::Str(text)] => Ok(Value::Int(characters(text.as_str()) as i64)),
        [_] => Err(Bad::WrongType),
        _ => Err(Bad::Arity),
    }
}

/// The number of bytes of a string, and 0 for anything else.
fn text_len(value: &Value) -> usize
    ensures { result ≡ length (text_of value.now) }
{
    match value {
        Value::Str(text) => text.len(),
        _ => 0,
    }
}

/// Whether the strings make one that is short.
///
/// It is asked before any byte is copied, so that no more memory is taken than a string may have.
fn are_short(strings: &[Value]) -> bool
    ensures { result ≡ is_short (flat_map text_of strings.now) }
{
    let mut size: usize = 0;
    for value in strings {
        let len = text_len(value);
        if len > MAX_TEXT_BYTES - size {
            return false;
        }
        size += len;
    }
    true
}

/// Appends each string.
fn push_strings(text: &mut String, strings: &[Value]) -> Result<(), AllocError>
    ensures { OnOk result (string_bytes text.new ≡ string_bytes text.old ++ flat_map text_of strings.now) }
{
    for value in strings {
        if let Value::Str(part) = value {
            text.push_str(part.as_str())?;
        }
    }
    Ok(())
}

fn join_strings(alloc: Global, strings: &[Value]) -> Result<Answer, AllocError>
    ensures { IfOk result (λ r. r ≡ string_answer (flat_map text_of strings.now)) }
{
    if !are_short(strings) {
        return Ok(Err(Bad::TooBig));
    }
    let mut text = String::new(alloc);
    push_strings(&mut text, strings)?;
    Ok(Ok(Value::Str(Text::from_str(alloc, text.as_str())?)))
}

/// The strings that are the arguments, joined.
pub(crate) fn string_append(alloc: Global, args: &[Value]) -> Result<Answer, AllocError>
    ensures { IfOk result (λ r. r ≡ strings_appended args.now) }
{
    if all_of(Kind::String, args) {
        join_strings(alloc, args)
    } else {
        Ok(Err(Bad::WrongType))
    }
}

/// Whether all values have the structure of one.
fn all_like(first: &Value, others: &[Value]) -> bool
    ensures { result ≡ all_same first.now others.now }
{
    for value in others {
        if !same(first, value) {
            return false;
        }
    }
    true
}

/// Whether the arguments are equal strings.
pub(crate) fn string_equal(args: &[Value]) -> Answer
    ensures { result ≡ strings_equal args.now }
{
    match args {
        [] => Err(Bad::Arity),
        [first, others @ ..] => {
            if all_of(Kind::String, args) {
                Ok(Value::Bool(all_like(first, others)))
            } else {
                Err(Bad::WrongType)
            }
        }
    }
}

/// The one argument's name as a string.
pub(crate) fn symbol_to_string(args: &[Value]) -> Result<Answer, AllocError>
    ensures { IfOk result (λ r. r ≡ one (on_symbol (λ s. Ok (value.Str s))) args.now) }
{
    match args {
        [Value::Sym(name)] => Ok(Ok(Value::Str(Text::of_symbol(name)?))),
        [_] => Ok(Err(Bad::WrongType)),
        _ => Ok(Err(Bad::Arity)),
    }
}

/// The one argument's decimal text.
pub(crate) fn number_to_string(alloc: Global, args: &[Value]) -> Result<Answer, AllocError>
    ensures { IfOk result (λ r. r ≡ one (on_integer (λ n. Ok (value.Str (signed_decimal n)))) args.now) }
{
    match args {
        [Value::Int(n)] => {
            let text = Text::from_str(alloc, Buffer::new().format(*n))?;
            Ok(Ok(Value::Str(text)))
        }
        [_] => Ok(Err(Bad::WrongType)),
        _ => Ok(Err(Bad::Arity)),
    }
}
