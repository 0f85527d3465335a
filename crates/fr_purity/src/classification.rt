ghost use Rattle.std.specs.Prelude.{IfOk};
ghost use Rattle.fr_purity.specs.Marks.{AreClasses};

use crate::calling::callers;
use crate::judging::judge_bodies;
use crate::naming::sourceless_bodies;
use crate::removal::take_callers;
use fr_core::Program;
use std::alloc::{AllocError, Global};

/// Which functions of a program are closed and which are pure: one truth value for each function, in their order.
#[derive(Debug, Drop)]
pub struct Classes {
    /// Whether the function names only its own variables, primitives and closed functions, and no source.
    pub closed: Vec<bool>,
    /// Whether the function is closed and its body is a pure expression.
    pub pure: Vec<bool>,
}

/// Finds the closed functions and the pure functions of a program, each the greatest set of its kind.
///
/// Any program will do. It takes time and memory in proportion to the program, and calls itself as deep as an expression
/// nests. It fails only where there is no memory.
pub fn classify(alloc: Global, program: &Program) -> Result<Classes, AllocError>
    ensures { IfOk result (λ c. AreClasses program.now c.closed.items c.pure.items) }
{
    let functions = program.functions.as_slice();
    let callers = callers(alloc, functions)?;
    let mut closed = sourceless_bodies(alloc, functions)?;
    take_callers(alloc, &mut closed, &callers)?;
    let mut pure = judge_bodies(alloc, program, &closed)?;
    take_callers(alloc, &mut pure, &callers)?;
    Ok(Classes { closed, pure })
}
