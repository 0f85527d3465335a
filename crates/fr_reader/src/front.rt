//! The datum at the front of a text.

ghost use Rattle.std.specs.Prelude.{◌≡◌, ◌⊎◌, ◌+◌, ◌≤◌, ℕ, List as PlainList, [], ◌∷◌, length, IfOk, OnOk, ◌++◌, Err};
ghost use Rattle.fr_value.specs.declared.value.Datum.{Datum};
ghost use Rattle.fr_value.specs.declared.value.Datum.TheVariants as datum;
ghost use Rattle.fr_value.specs.Bytes.{atom, past_atom};
ghost use Rattle.fr_value.specs.Data.{datum_of, data_of, AreFew};
ghost use Rattle.fr_value.specs.Grammar.{begins, NoStart, IsList, IsQuoted, IsString, IsAtom, quoted};
ghost use Rattle.fr_reader.specs.declared.reader.OneStop.TheVariants as OneStop;

use crate::atoms::atom_value;
use crate::bytes::{atom, past_gap, string_bytes};
use crate::reader::OneStop;
use fr_value::{List, ListRefusal, MAX_TEXT_BYTES, Symbol, Text, Value};
use std::alloc::{AllocError, Global};

/// Appends an item.
pub fn push(items: &mut Vec<Value>, item: Value) -> Result<(), AllocError>
    ensures { OnOk result (items.new.items ≡ items.old.items ++ item ∷ []) }
{
    items.push(item)?;
    Ok(())
}

/// A list of these items.
fn listed(alloc: Global, items: Vec<Value>) -> Result<Value, OneStop>
    ensures found { IfOk result (λ v. (datum_of v ≡ datum.Seq (data_of items.items)) × AreFew (data_of items.items)) }
    ensures none { result ≡ Err OneStop.Refused → AreFew (data_of items.items) → ⊥ }
{
    match List::of_vec(alloc, items) {
        Ok(list) => Ok(Value::List(list)),
        Err(ListRefusal::Memory(e)) => Err(OneStop::Memory(e)),
        Err(ListRefusal::TooBig) => Err(OneStop::Refused),
    }
}

/// The datum at the front of a text, in at most as many levels, and what is left behind it.
#[cycle(datum)]
pub fn datum(alloc: Global, levels: u32, bytes: &[u8]) -> Result<(Value, &[u8]), OneStop>
    ensures found { IfOk result (λ x. begins levels bytes.now (datum_of x.0) x.1.now) }
    ensures none { result ≡ Err OneStop.Refused → NoStart (begins levels) bytes.now }
    ensures less { IfOk result (λ x. length x.1.now + 1 ≤ length bytes.now) }
{
    let Some((b, tail)) = bytes.split_first() else {
        return Err(OneStop::Refused);
    };
    if levels == 0 {
        return Err(OneStop::Refused);
    }
    if *b == b'(' {
        list(alloc, levels - 1, b')', tail)
    } else if *b == b'[' {
        list(alloc, levels - 1, b']', tail)
    } else if *b == b'\'' {
        quoted(alloc, levels - 1, tail)
    } else if *b == b'"' {
        string(alloc, tail)
    } else {
        leaf(alloc, bytes)
    }
}

/// The list behind its opening bracket.
#[cycle(datum)]
fn list(alloc: Global, levels: u32, close: u8, bytes: &[u8]) -> Result<(Value, &[u8]), OneStop>
    requires { (close ≡ 41) ⊎ (close ≡ 93) }
    ensures found { IfOk result (λ x. IsList (begins levels) close bytes.now (datum_of x.0) x.1.now) }
    ensures none { result ≡ Err OneStop.Refused → (d : Datum) (rest : PlainList ℕ) → IsList (begins levels) close bytes.now d rest → ⊥ }
    ensures less { IfOk result (λ x. length x.1.now + 1 ≤ length bytes.now) }
{
    let mut items = Vec::new(alloc);
    let mut rest = past_gap(bytes);
    while let Some((b, tail)) = rest.split_first() {
        if *b == close {
            return match listed(alloc, items) {
                Ok(list) => Ok((list, tail)),
                Err(e) => Err(e),
            };
        }
        let (item, after) = match datum(alloc, levels, rest) {
            Ok(found) => found,
            Err(e) => return Err(e),
        };
        push(&mut items, item)?;
        rest = past_gap(after);
    }
    Err(OneStop::Refused)
}

/// The datum behind a quote, as a list.
#[cycle(datum)]
fn quoted(alloc: Global, levels: u32, bytes: &[u8]) -> Result<(Value, &[u8]), OneStop>
    ensures found { IfOk result (λ x. IsQuoted (begins levels) bytes.now (datum_of x.0) x.1.now) }
    ensures none { result ≡ Err OneStop.Refused → (d : Datum) (rest : PlainList ℕ) → IsQuoted (begins levels) bytes.now d rest → ⊥ }
    ensures less { IfOk result (λ x. length x.1.now + 1 ≤ length bytes.now) }
{
    let (item, rest) = datum(alloc, levels, past_gap(bytes))?;
    match with_quote(alloc, item) {
        Ok(list) => Ok((list, rest)),
        Err(e) => Err(e),
    }
}

/// The list of `quote` and a value.
fn with_quote(alloc: Global, item: Value) -> Result<Value, OneStop>
    ensures found { IfOk result (λ v. (datum_of v ≡ datum.Seq (quoted (datum_of item))) × AreFew (quoted (datum_of item))) }
    ensures none { result ≡ Err OneStop.Refused → AreFew (quoted (datum_of item)) → ⊥ }
{
    let mut items = Vec::new(alloc);
    items
        .push(Value::Sym(Symbol::from_str(alloc, "quote")?))
        .map_err(AllocError::from)?;
    items.push(item).map_err(AllocError::from)?;
    listed(alloc, items)
}

/// The string behind its first quotation mark.
fn string(alloc: Global, bytes: &[u8]) -> Result<(Value, &[u8]), OneStop>
    ensures found { IfOk result (λ x. IsString bytes.now (datum_of x.0) x.1.now) }
    ensures none { result ≡ Err OneStop.Refused → (d : Datum) (rest : PlainList ℕ) → IsString bytes.now d rest → ⊥ }
    ensures less { IfOk result (λ x. length x.1.now + 1 ≤ length bytes.now) }
{
    match string_bytes(alloc, bytes)? {
        None => Err(OneStop::Refused),
        Some((content, rest)) => {
            if content.len() > MAX_TEXT_BYTES {
                return Err(OneStop::Refused);
            }
            match str::from_utf8(&content) {
                Ok(text) => Ok((Value::Str(Text::from_str(alloc, text)?), rest)),
                Err(_) => Err(OneStop::Refused),
            }
        }
    }
}

/// A datum without parts.
fn leaf(alloc: Global, bytes: &[u8]) -> Result<(Value, &[u8]), OneStop>
    ensures found { IfOk result (λ x. IsAtom (atom bytes.now) (datum_of x.0) × (x.1.now ≡ past_atom bytes.now)) }
    ensures none { result ≡ Err OneStop.Refused → (d : Datum) → IsAtom (atom bytes.now) d → ⊥ }
    ensures less { IfOk result (λ x. length x.1.now + 1 ≤ length bytes.now) }
{
    let (text, rest) = atom(bytes);
    if text.is_empty() {
        return Err(OneStop::Refused);
    }
    Ok((atom_value(alloc, text)?, rest))
}
