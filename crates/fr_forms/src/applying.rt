//! Primitives over the values of parts.
ghost use Rattle.std.specs.Prelude.{◌≡◌, ◌∷◌, [], Some, IfOk};
ghost use Rattle.fr_meaning.specs.Primitives.{first_bad, plain_values, on_values, applied};

use crate::seen::Seen;
use fr_prims::{PrimStop, apply};
use fr_value::{Bad, Now, Primitive, Value};
use sqlite_items::Items;
use std::alloc::{AllocError, Global};

/// The first Bad among arguments.
fn bad_among(args: &[Seen]) -> Option<Bad>
    ensures { result ≡ first_bad args.now }
{
    for arg in args {
        if let Err(bad) = arg {
            return Some(*bad);
        }
    }
    None
}

/// The arguments as values, where all are plain. It fails only where there is no memory.
fn values_of(alloc: Global, args: &[Seen]) -> Result<Option<Items<Value>>, AllocError>
    ensures { IfOk result (λ o. o ≡ plain_values args.now) }
{
    let mut values = Items::new(alloc);
    for arg in args {
        match arg {
            Ok(Now::Plain(value)) => values.push(value.share()?)?,
            _ => return Ok(None),
        }
    }
    Ok(Some(values))
}

/// What the table of primitives says of these values. It fails only where there is no memory.
fn apply_to(alloc: Global, prim: Primitive, values: &[Value]) -> Result<Seen, AllocError>
    ensures { IfOk result (λ v. v ≡ on_values prim (Some values.now)) }
{
    match apply(alloc, prim, values) {
        Ok(value) => Ok(Ok(Now::Plain(value))),
        Err(PrimStop::Bad(bad)) => Ok(Err(bad)),
        Err(PrimStop::Memory(e)) => Err(e),
    }
}

/// What a primitive gives for any number of arguments. It fails only where there is no memory.
#[tactic(auto, unfolding(fr_meaning::specs::Primitives::applied))]
fn apply_to_all(alloc: Global, prim: Primitive, args: &[Seen]) -> Result<Seen, AllocError>
    ensures { IfOk result (λ v. v ≡ applied prim args.now) }
{
    if let Some(bad) = bad_among(args) {
        return Ok(Err(bad));
    }
    match values_of(alloc, args)? {
        None => Ok(Err(Bad::WrongType)),
        Some(values) => apply_to(alloc, prim, values.as_slice()),
    }
}

/// What a primitive gives for one plain argument. It fails only where there is no memory.
fn apply_to_one(alloc: Global, prim: Primitive, a: &Value) -> Result<Seen, AllocError>
    ensures { IfOk result (λ v. v ≡ on_values prim (Some (a.now ∷ []))) }
{
    let values = [a.share()?];
    apply_to(alloc, prim, &values)
}

/// What a primitive gives for two plain arguments. It fails only where there is no memory.
fn apply_to_two(alloc: Global, prim: Primitive, a: &Value, b: &Value) -> Result<Seen, AllocError>
    ensures { IfOk result (λ v. v ≡ on_values prim (Some (a.now ∷ b.now ∷ []))) }
{
    let values = [a.share()?, b.share()?];
    apply_to(alloc, prim, &values)
}

/// What a primitive gives for these arguments. One or two are handed on from the stack. It fails only where there is no
/// memory.
#[tactic(auto, unfolding(fr_meaning::specs::Primitives::applied))]
pub fn apply_primitive(alloc: Global, prim: Primitive, args: &[Seen]) -> Result<Seen, AllocError>
    ensures { IfOk result (λ v. v ≡ applied prim args.now) }
{
    match args {
        [Ok(Now::Plain(a))] => apply_to_one(alloc, prim, a),
        [Ok(Now::Plain(a)), Ok(Now::Plain(b))] => apply_to_two(alloc, prim, a, b),
        _ => apply_to_all(alloc, prim, args),
    }
}
