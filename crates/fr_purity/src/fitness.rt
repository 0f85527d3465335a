ghost use Rattle.std.specs.Prelude.{◌≡◌, ◌↔◌, IsTrue};
ghost use Rattle.fr_core.specs.Classes.{IsPureExpr, IsFitExpr, calls_of, pure_itself};
ghost use Rattle.fr_core.specs.declared.core_form.Core.{out-Core};
ghost use Rattle.fr_purity.specs.Marks.{AreClasses, set_of};

use crate::classification::Classes;
use crate::judging::{is_pure_itself, judge};
use fr_core::{Core, Program};

/// Whether an expression of the program is pure: it has only literals, variables, sources, primitive applications, `if`,
/// `let`, loops, and calls of pure functions with the right number of arguments.
///
/// The classes are those of the program, as `classify` gives them. It takes no memory, and calls itself as deep as the
/// expression nests.
pub fn is_pure(program: &Program, classes: &Classes, expr: &Core) -> bool
    requires { AreClasses program.now classes.now.closed.items classes.now.pure.items }
    ensures { IsTrue result ↔ IsPureExpr program.now expr.now }
{
    judge(program, &classes.pure, expr).pure
}

/// Whether the bodies of all handlers and loops in an expression of the program are pure.
///
/// The classes are those of the program, as `classify` gives them. It takes no memory, and calls itself as deep as the
/// expression nests.
pub fn is_fit(program: &Program, classes: &Classes, expr: &Core) -> bool
    requires { AreClasses program.now classes.now.closed.items classes.now.pure.items }
    ensures { IsTrue result ↔ IsFitExpr program.now expr.now }
{
    judge(program, &classes.pure, expr).fit
}

/// Whether an expression is pure where its parts are: it is neither a form with a state nor one of an event, and where it
/// is a call it is of a pure function with the right number of arguments. It takes no memory, and looks at no part.
pub fn is_pure_over_parts(program: &Program, classes: &Classes, expr: &Core) -> bool
    ensures { result ≡ pure_itself (calls_of program.now (set_of classes.now.pure.items)) (out-Core expr.now) }
{
    is_pure_itself(program, &classes.pure, expr)
}
