ghost use Rattle.std.specs.Prelude.{IfOk};
ghost use Rattle.fr_lower.specs.Making.{outside, part_seen, CanClose, IsReady, AreReady, WasWhole, WasClosed, WereClosed};

use crate::making::{Made, add_kernel};
use crate::outside::{Part, part_outside, widened};
use fr_core::{Core, Low};
use sqlite_items::Items;
use std::alloc::{AllocError, Global};
use std::collections::VecDeque;

/// A leaf as it is, or the kernel of a pure expression.
pub(crate) fn close(
    alloc: Global,
    made: &mut Made,
    variables: u32,
    e: &Core,
) -> Result<Low, AllocError>
    requires { CanClose made.old.table.functions e.now }
    ensures { IfOk result (λ l. WasWhole variables made.old made.new e.now l) }
{
    match e {
        Core::Lit(value) => Ok(Low::Lit(value.share()?)),
        Core::Var(variable) => Ok(Low::Var(*variable)),
        Core::Source(source) => Ok(Low::Source(*source)),
        _ => {
            let (kernel, slots) = add_kernel(alloc, made, e, variables, 0)?;
            Ok(Low::Collapse(kernel, slots))
        }
    }
}

/// A part as it was lowered, or closed where nothing was made of it.
fn closed(
    alloc: Global,
    made: &mut Made,
    variables: u32,
    part: Part<'_>,
    lowered: Option<Low>,
) -> Result<Low, AllocError>
    requires { IsReady made.old.table.functions part.expr.now lowered }
    ensures { IfOk result (λ l. WasClosed variables made.old made.new (part_seen part.entry) lowered l) }
{
    match lowered {
        Some(low) => Ok(low),
        None => {
            let inside = widened(variables, part.binds)?;
            close(alloc, made, inside, part.expr)
        }
    }
}

/// The parts of an expression, each as it was lowered, or closed where nothing was made of it.
pub(crate) fn close_parts(
    alloc: Global,
    made: &mut Made,
    variables: u32,
    e: &Core,
    mut found: VecDeque<Option<Low>>,
) -> Result<Items<Low>, AllocError>
    requires { AreReady made.old.table.functions (outside e.now) found.items }
    ensures { IfOk result (λ ls. WereClosed variables made.old made.new (outside e.now) found.items ls) }
{
    let mut parts = Items::new(alloc);
    let mut number = 0;
    while let Some(part) = part_outside(e, number) {
        let Some(lowered) = found.pop_front() else {
            unreachable!()
        };
        parts.push(closed(alloc, made, variables, part, lowered)?)?;
        number += 1;
    }
    Ok(parts)
}
