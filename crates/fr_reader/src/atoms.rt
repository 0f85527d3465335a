ghost use Rattle.std.specs.Prelude.{◌≡◌, ◌==◌, ◌||◌, true, false, IfOk, Err, MatchOption};
ghost use Rattle.std.specs.Str.Parse.{signed_digits_value};
ghost use Rattle.fr_value.specs.declared.value.Datum.{Datum};
ghost use Rattle.fr_value.specs.Data.{datum_of};
ghost use Rattle.fr_value.specs.Grammar.{IsAtom, is_integer, is_true, is_false};
ghost use Rattle.fr_reader.specs.declared.reader.OneStop.TheVariants as OneStop;

use crate::reader::OneStop;
use fr_value::{Symbol, SymbolRefusal, Value};
use std::alloc::Global;

/// The datum that an atom is; `Refused` where it is none.
#[tactic(auto, unfolding(fr_value::specs::Grammar::IsAtom))]
pub fn atom_value(alloc: Global, bytes: &[u8]) -> Result<Value, OneStop>
    ensures found { IfOk result (λ v. IsAtom bytes.now (datum_of v)) }
    ensures none { result ≡ Err OneStop.Refused → (d : Datum) → IsAtom bytes.now d → ⊥ }
{
    if is_true(bytes) {
        return Ok(Value::Bool(true));
    }
    if is_false(bytes) {
        return Ok(Value::Bool(false));
    }
    match Symbol::from_bytes(alloc, bytes) {
        Ok(name) => Ok(Value::Sym(name)),
        Err(SymbolRefusal::Memory(e)) => Err(OneStop::Memory(e)),
        Err(SymbolRefusal::TooLong) => Err(OneStop::Refused),
        Err(SymbolRefusal::NoSymbol) => match integer(bytes) {
            Some(n) => Ok(Value::Int(n)),
            None => Err(OneStop::Refused),
        },
    }
}

/// The integer that bytes write; None where they write none in the signed 64-bit range.
#[tactic(auto, using(crate::proofs::Ascii::no_integer))]
fn integer(bytes: &[u8]) -> Option<i64>
    ensures { MatchOption result (is_integer bytes.now ≡ false) (λ n. (is_integer bytes.now ≡ true) × (n ≡ signed_digits_value 10 bytes.now)) }
{
    match str::from_utf8(bytes) {
        Ok(text) => text.parse::<i64>().ok(),
        Err(_) => None,
    }
}

/// Whether an atom is the true value.
#[tactic(auto, unfolding(fr_value::specs::Grammar::is_true))]
fn is_true(bytes: &[u8]) -> bool
    ensures { result ≡ is_true bytes.now }
{
    bytes == b"#t".as_slice() || bytes == b"#true".as_slice()
}

/// Whether an atom is the false value.
#[tactic(auto, unfolding(fr_value::specs::Grammar::is_false))]
fn is_false(bytes: &[u8]) -> bool
    ensures { result ≡ is_false bytes.now }
{
    bytes == b"#f".as_slice() || bytes == b"#false".as_slice()
}
