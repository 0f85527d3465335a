//! What a form sees of the values of its parts.
ghost use Rattle.std.specs.Prelude.{◌≡◌, IfOk};
ghost use Rattle.std.specs.Option.{option_copied};
ghost use Rattle.fr_meaning.specs.Words.{part, on_ok, event_of, datum_in, test_of};
ghost use Rattle.fr_forms.specs.Lent.{lent};

use fr_value::{Bad, Now, Value};
use std::alloc::AllocError;

/// A plain value, the state of an event, or Bad with its kind.
pub type Seen = Result<Now, Bad>;

/// The same, with one more owner of its value. It fails only where there is no memory.
pub fn share_seen(value: &Seen) -> Result<Seen, AllocError>
    ensures { IfOk result (λ v. v ≡ value.now) }
{
    match value {
        Ok(now) => Ok(Ok(now.share()?)),
        Err(bad) => Ok(Err(*bad)),
    }
}

/// The value at an index, which counts from 0, with one more owner; Bad where there is none. It fails only where there
/// is no memory.
pub fn share_part(parts: &[Seen], at: usize) -> Result<Seen, AllocError>
    ensures { IfOk result (λ v. v ≡ part parts.now at) }
{
    match parts.get(at) {
        Some(value) => share_seen(value),
        None => Ok(Err(Bad::Deep)),
    }
}

/// Whether a test holds, or why that can't be told.
pub fn test_in(value: &Seen) -> Result<bool, Bad>
    ensures { result ≡ test_of value.now }
{
    match value {
        Err(bad) => Err(*bad),
        Ok(Now::Occ(_)) => Err(Bad::WrongType),
        Ok(Now::Plain(Value::Bool(b))) => Ok(*b),
        Ok(Now::Plain(_)) => Ok(true),
    }
}

/// An event's payload where it occurs, or why it is no event.
pub fn event_in(value: &Seen) -> Result<Option<&Value>, Bad>
    ensures { on_ok option_copied result ≡ event_of value.now }
{
    match value {
        Err(bad) => Err(*bad),
        Ok(Now::Plain(_)) => Err(Bad::NotEvent),
        Ok(Now::Occ(None)) => Ok(None),
        Ok(Now::Occ(Some(payload))) => Ok(Some(payload)),
    }
}

/// A plain value, or why there is none.
pub fn plain_in(value: &Seen) -> Result<&Value, Bad>
    ensures { on_ok lent result ≡ datum_in value.now }
{
    match value {
        Err(bad) => Err(*bad),
        Ok(Now::Plain(value)) => Ok(value),
        Ok(Now::Occ(_)) => Err(Bad::NotData),
    }
}

/// The payload of the event at an index, or why there is none.
pub fn event_at(parts: &[Seen], at: usize) -> Result<Option<&Value>, Bad>
    ensures { on_ok option_copied result ≡ event_of (part parts.now at) }
{
    match parts.get(at) {
        Some(value) => event_in(value),
        None => Err(Bad::Deep),
    }
}

/// The plain value at an index, or why there is none.
pub fn plain_at(parts: &[Seen], at: usize) -> Result<&Value, Bad>
    ensures { on_ok lent result ≡ datum_in (part parts.now at) }
{
    match parts.get(at) {
        Some(value) => plain_in(value),
        None => Err(Bad::Deep),
    }
}

/// The same, with one more owner. It fails only where there is no memory.
pub fn share_option(value: Option<&Value>) -> Result<Option<Value>, AllocError>
    ensures { IfOk result (λ v. v ≡ option_copied value.entry) }
{
    match value {
        None => Ok(None),
        Some(value) => Ok(Some(value.share()?)),
    }
}
