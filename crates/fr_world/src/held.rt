//! Copies of held parts.
ghost use Rattle.std.specs.Prelude.{◌≡◌, IfOk};

use fr_value::Held;
use sqlite_items::Items;
use std::alloc::{AllocError, Global};

/// The same parts, with one more owner of each value.
pub(crate) fn shared(alloc: Global, parts: &[Held]) -> Result<Items<Held>, AllocError>
    ensures { IfOk result (λ held. held ≡ parts.now) }
{
    let mut held = Vec::with_capacity(alloc, parts.len())?;
    for part in parts {
        let part = share(part)?;
        held.push(part)?;
    }
    Ok(Items::from_vec(held))
}

fn share(part: &Held) -> Result<Held, AllocError>
    ensures { IfOk result (λ held. held ≡ part.now) }
{
    match part {
        Held::Steady(value) => Ok(Held::Steady(value.share()?)),
        Held::Signal(id) => Ok(Held::Signal(*id)),
    }
}
