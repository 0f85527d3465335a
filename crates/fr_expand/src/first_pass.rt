//! The first pass over the forms: each is looked at by itself, behind those before it.
ghost use Rattle.std.specs.Prelude.{◌≡◌, ◌+◌, ◌≤◌, ◌<◌, ℕ, List, Some, map, nat_lt, length, IfOk, OnOk};
ghost use Rattle.fr_value.specs.Data.{total};
ghost use Rattle.fr_core.specs.WellFormed.{deepest_nesting};
ghost use Rattle.fr_syntax.specs.Outlines.{Global as GlobalName};
ghost use Rattle.fr_syntax.specs.Weights.{form_weight};
ghost use Rattle.fr_scope.specs.Meanings.{most_numbered};
ghost use Rattle.fr_expand.specs.Expansion.{most_weight};
ghost use Rattle.fr_expand.specs.Items.{form_core};
ghost use Rattle.fr_expand.specs.Passes.{fault_kind, form_kind, nests, nothing_yet, refusal_from};
ghost use Rattle.fr_expand.specs.Shaped.{earlier_of, AreNamed};

use crate::depth::depth;
use crate::earlier::EarlierNames;
use crate::faults::Faults;
use crate::refusal::{Kind, Refusal};
use fr_scope::Globals;
use fr_syntax::Form;
use std::alloc::{AllocError, Global};

/// How deep an expression may nest.
const NESTING_LIMIT: u32 = 500;

/// The first refusal of forms that have a shape, looked at for names and nesting.
pub(crate) fn first_refusal(
    alloc: Global,
    globals: &Globals,
    forms: &[Form],
) -> Result<Option<Refusal>, AllocError>
    requires { total (map form_weight forms.now) ≤ most_weight }
    ensures { IfOk result (λ r. r ≡ refusal_from globals.now 1 nothing_yet (map Some forms.now)) }
{
    let mut earlier = EarlierNames::none(alloc);
    refusal_behind(alloc, globals, &mut earlier, forms)
}

/// The first refusal of forms behind earlier ones that gave these names. They are numbered from 1.
fn refusal_behind<'a>(
    alloc: Global,
    globals: &Globals,
    earlier: &mut EarlierNames<'a>,
    forms: &'a [Form],
) -> Result<Option<Refusal>, AllocError>
    requires named { AreNamed earlier.old.values }
    requires few { length earlier.old.values ≤ most_weight }
    requires small { total (map form_weight forms.now) ≤ most_weight }
    ensures { IfOk result (λ r. r ≡ refusal_from globals.now 1 (earlier_of earlier.old) (map Some forms.now)) }
{
    for (at, form) in forms.iter().enumerate() {
        if let Some(kind) = form_kind(alloc, globals, earlier, form)? {
            return Ok(Some(Refusal::at(at, kind)));
        }
        earlier.add(form)?;
    }
    Ok(None)
}

/// Why a form is refused, if it is.
fn form_kind(
    alloc: Global,
    globals: &Globals,
    earlier: &mut EarlierNames<'_>,
    form: &Form,
) -> Result<Option<Kind>, AllocError>
    requires named { AreNamed earlier.old.values }
    requires few { length earlier.old.values + form_weight form.now ≤ most_numbered }
    ensures found { IfOk result (λ k. k ≡ form_kind globals.now (earlier_of earlier.old) form.now) }
    ensures unchanged { OnOk result (earlier.new ≡ earlier.old) }
{
    let faults = earlier.form_faults(alloc, globals, form)?;
    match fault_kind(faults) {
        Some(kind) => Ok(Some(kind)),
        None if nests_too_deep(form) => Ok(Some(Kind::Nesting)),
        None => Ok(None),
    }
}

/// The first kind of these faults.
fn fault_kind(faults: Faults) -> Option<Kind>
    ensures { result ≡ fault_kind faults }
{
    if faults.name {
        Some(Kind::Name)
    } else if faults.unbound {
        Some(Kind::Unbound)
    } else if faults.twice {
        Some(Kind::Twice)
    } else {
        None
    }
}

/// Whether the core expression of a form nests too deep.
fn nests_too_deep(form: &Form) -> bool
    ensures { (globals : List GlobalName) → (values : List (List ℕ)) → result ≡ nat_lt deepest_nesting (nests (form_core globals values form.now)) }
{
    match form {
        Form::Input(..) | Form::Event(_) => false,
        Form::Function(_, _, expr) | Form::Define(_, expr) | Form::Show(_, expr) => {
            depth(expr) > NESTING_LIMIT
        }
    }
}
