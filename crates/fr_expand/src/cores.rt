//! The core expressions of truth values and of names.
ghost use Rattle.std.specs.Prelude.{◌≡◌, IfOk};
ghost use Rattle.fr_core.specs.declared.core_form.Core.TheVariants as core;
ghost use Rattle.fr_expand.specs.Translation.{truth, value_core, call_core};

use fr_core::{Core, Operator};
use fr_scope::Meaning;
use fr_value::{Primitive, Value, VarId};
use sqlite_items::{Boxed, Items};
use std::alloc::{AllocError, Global};

/// The literal of a truth value.
pub(crate) fn truth(value: bool) -> Core
    ensures { result ≡ truth value }
{
    Core::Lit(Value::Bool(value))
}

/// The core expression of a name that stands for a value and means this.
pub(crate) fn value_core(meaning: Option<Meaning>) -> Core
    ensures { result ≡ value_core meaning }
{
    match meaning {
        Some(Meaning::Variable(variable)) => Core::Var(variable),
        Some(Meaning::Source(source)) => Core::Source(source),
        _ => truth(false),
    }
}

/// The core expression of a call of a name that means this.
pub(crate) fn call_core(meaning: Option<Meaning>, args: Items<Core>) -> Core
    ensures { result ≡ call_core meaning args }
{
    match meaning {
        Some(Meaning::Function(function)) => Core::Apply(function, args),
        Some(Meaning::Primitive(primitive)) => Core::Operator(Operator::Prim(primitive), args),
        _ => Core::Operator(Operator::Prim(Primitive::List), args),
    }
}

/// What a variable has, where that isn't `#f`, and what is given else.
pub(crate) fn given_or(
    alloc: Global,
    variable: VarId,
    other: Core,
) -> Result<Boxed<Core>, AllocError>
    ensures { IfOk result (λ c. c ≡ core.If (core.Var variable) (core.Var variable) other) }
{
    let other = Boxed::new(alloc, other)?;
    let test = Boxed::new(alloc, Core::Var(variable))?;
    let then = Boxed::new(alloc, Core::Var(variable))?;
    Boxed::new(alloc, Core::If(test, then, other))
}
