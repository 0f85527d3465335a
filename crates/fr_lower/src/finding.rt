ghost use Rattle.std.specs.Prelude.{◌≡◌, not, IfOk};
ghost use Rattle.fr_core.specs.declared.core_form.Core.{out-Core};
ghost use Rattle.fr_core.specs.Classes.{IsFitExpr};
ghost use Rattle.fr_kernel.specs.Erasure.{is_compound};
ghost use Rattle.fr_lower.specs.Making.{given, AreGiven, joins_itself, WasFound, WasMade};

use crate::building::build;
use crate::closing::{close, close_parts};
use crate::making::Made;
use crate::outside::{part_outside, widened};
use fr_core::{Core, Low, Program};
use fr_purity::{Classes, is_pure_over_parts};
use std::alloc::{AllocError, Global};
use std::collections::VecDeque;

fn is_leaf(e: &Core) -> bool
    ensures { result ≡ not (is_compound e.now) }
{
    match e {
        Core::Lit(_) | Core::Var(_) | Core::Source(_) => true,
        _ => false,
    }
}

/// Whether an expression itself may be a part of what is computed as a whole: a pure one where the classes are given,
/// and else a leaf alone.
fn joins_itself(program: &Program, classes: Option<&Classes>, e: &Core) -> bool
    ensures { result ≡ joins_itself program.now (given classes.entry) (out-Core e.now) }
{
    match classes {
        Some(classes) => is_pure_over_parts(program, classes, e),
        None => is_leaf(e),
    }
}

/// The lowered expression; None where it may be a part of what is computed as a whole. Nothing was made of it then, so
/// that each expression is judged once, from its parts.
pub(crate) fn find(
    alloc: Global,
    program: &Program,
    classes: Option<&Classes>,
    made: &mut Made,
    variables: u32,
    e: &Core,
) -> Result<Option<Low>, AllocError>
    requires classes { AreGiven program.now (given classes) }
    requires table { made.old.table.functions ≡ program.now.functions }
    requires fit { IsFitExpr program.now e.now }
    ensures { IfOk result (λ f. WasFound program.now (given classes.entry) variables made.old made.new e.now f) }
{
    let mut found = VecDeque::new(alloc);
    let mut joins = joins_itself(program, classes, e);
    let mut number = 0;
    while let Some(part) = part_outside(e, number) {
        let inside = widened(variables, part.binds)?;
        let lowered = find(alloc, program, classes, made, inside, part.expr)?;
        joins = joins && lowered.is_none();
        found.push_back(lowered)?;
        number += 1;
    }
    if joins {
        return Ok(None);
    }
    let parts = close_parts(alloc, made, variables, e, found)?;
    Ok(Some(build(alloc, made, variables, e, parts)?))
}

/// The lowered expression of one that is no part of another.
pub(crate) fn lowered_whole(
    alloc: Global,
    program: &Program,
    classes: Option<&Classes>,
    made: &mut Made,
    variables: u32,
    e: &Core,
) -> Result<Low, AllocError>
    requires classes { AreGiven program.now (given classes) }
    requires table { made.old.table.functions ≡ program.now.functions }
    requires fit { IsFitExpr program.now e.now }
    ensures { IfOk result (λ l. WasMade program.now (given classes.entry) variables made.old made.new e.now l) }
{
    match find(alloc, program, classes, made, variables, e)? {
        Some(low) => Ok(low),
        None => close(alloc, made, variables, e),
    }
}
