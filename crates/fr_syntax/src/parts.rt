ghost use Rattle.std.specs.Prelude.{◌≡◌, ◌++◌, ◌∷◌, [], IfOk, OnOk};
ghost use Rattle.fr_syntax.specs.Parts.{beside};

use fr_value::Symbol;
use sqlite_items::{Boxed, Items};
use std::alloc::{AllocError, Global};

/// What is there already, with a second part where there is one.
pub(crate) fn both<A: Drop, B: Drop>(
    first: A,
    second: Result<Option<B>, AllocError>,
) -> Result<Option<(A, B)>, AllocError>
    ensures { result ≡ beside first second }
{
    match second {
        Ok(Some(second)) => Ok(Some((first, second))),
        Ok(None) => Ok(None),
        Err(e) => Err(e),
    }
}

/// Two parts, each in a box.
pub(crate) fn two_boxed<T: Drop>(
    alloc: Global,
    a: T,
    b: T,
) -> Result<(Boxed<T>, Boxed<T>), AllocError>
    ensures { IfOk result (λ x. (x.0 ≡ a) × (x.1 ≡ b)) }
{
    let a = Boxed::new(alloc, a)?;
    let b = Boxed::new(alloc, b)?;
    Ok((a, b))
}

/// Three parts, each in a box.
pub(crate) fn three_boxed<T: Drop>(
    alloc: Global,
    a: T,
    b: T,
    c: T,
) -> Result<(Boxed<T>, Boxed<T>, Boxed<T>), AllocError>
    ensures { IfOk result (λ x. (x.0 ≡ a) × (x.1 ≡ b) × (x.2 ≡ c)) }
{
    let (a, b) = two_boxed(alloc, a, b)?;
    let c = Boxed::new(alloc, c)?;
    Ok((a, b, c))
}

/// One more owner of a name, beside these parts.
pub(crate) fn named<P: Drop>(name: &Symbol, parts: P) -> Result<(Symbol, P), AllocError>
    ensures { IfOk result (λ x. (x.0 ≡ name.now) × (x.1 ≡ parts)) }
{
    Ok((name.share()?, parts))
}

/// One more owner of each of two names, beside these parts.
pub(crate) fn named_twice<P: Drop>(
    first: &Symbol,
    second: &Symbol,
    parts: P,
) -> Result<(Symbol, (Symbol, P)), AllocError>
    ensures { IfOk result (λ x. (x.0 ≡ first.now) × (x.1.0 ≡ second.now) × (x.1.1 ≡ parts)) }
{
    named(first, named(second, parts)?)
}

/// A part in a box, beside these.
pub(crate) fn boxed_beside<P: Drop, T: Drop>(
    alloc: Global,
    parts: P,
    last: T,
) -> Result<(P, Boxed<T>), AllocError>
    ensures { IfOk result (λ x. (x.0 ≡ parts) × (x.1 ≡ last)) }
{
    let last = Boxed::new(alloc, last)?;
    Ok((parts, last))
}

/// Appends to each of two lists.
pub(crate) fn push_both<A: Drop, B: Drop>(
    lists: &mut (Items<A>, Items<B>),
    a: A,
    b: B,
) -> Result<(), AllocError>
    ensures { OnOk result ((lists.new.0 ≡ lists.old.0 ++ a ∷ []) × (lists.new.1 ≡ lists.old.1 ++ b ∷ [])) }
{
    lists.0.push(a)?;
    lists.1.push(b)
}
