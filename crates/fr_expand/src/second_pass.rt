//! The second pass over the forms: whether the bodies of all handlers and loops are pure.
ghost use Rattle.std.specs.Prelude.{◌≡◌, ◌+◌, ◌<◌, ◌↔◌, ◌∷◌, ℕ, List, [], length, IfSome, IsTrue, MatchOption};
ghost use Rattle.std.specs.Option.{option_copied};
ghost use Rattle.std.specs.Slice.Iter.{iter_rest};
ghost use Rattle.fr_purity.specs.Marks.{AreClasses};
ghost use Rattle.fr_syntax.specs.Outlines.{Global as GlobalName};
ghost use Rattle.fr_syntax.specs.declared.form.Form.{Form as PlainForm};
ghost use Rattle.fr_expand.specs.Cores.{expr_of, AreGiven};
ghost use Rattle.fr_expand.specs.Expansion.{cores_from, program_in, AreFit, IsFirstUnfit, IsFitForm};
ghost use Rattle.fr_expand.specs.Items.{form_core, values_behind};

use fr_core::{Core, Function, Item, Program};
use fr_purity::{Classes, is_fit};
use fr_syntax::Form;
use std::slice::Iter;

/// The place of the first form, counted from 0, in which the body of a handler or a loop isn't pure, where the program is the
/// one that the forms are. The classes are the program's.
pub(crate) fn first_unfit(program: &Program, classes: &Classes, forms: &[Form]) -> Option<usize>
    requires { AreClasses program.now classes.now.closed.items classes.now.pure.items }
    ensures within { IfSome result (λ at. at < length forms.now) }
    ensures found { (globals : List GlobalName) → program.now ≡ program_in globals forms.now → let cores = cores_from globals [] forms.now in
        MatchOption result (AreFit program.now cores) (λ at. IsFirstUnfit program.now cores (at + 1)) }
{
    let mut functions = program.functions.as_slice().iter();
    let mut items = program.body.as_slice().iter();
    for (at, form) in forms.iter().enumerate() {
        let core = core_of_form(form, &mut functions, &mut items);
        if !is_fit_form(program, classes, core) {
            return Some(at);
        }
    }
    None
}

/// The core expression of a form, if it has one, where it and the forms behind it give these functions and items: it is that
/// of the next function or of the next item. What the forms behind it give is left.
fn core_of_form<'a>(
    form: &Form,
    functions: &mut Iter<'a, Function>,
    items: &mut Iter<'a, Item>,
) -> Option<&'a Core>
    ensures { (globals : List GlobalName) (values : List (List ℕ)) (forms : List PlainForm) → AreGiven globals values (form.now ∷ forms) (iter_rest functions.old) (iter_rest items.old)
        → (option_copied result ≡ form_core globals values form.now) × AreGiven globals (values_behind values form.now) forms (iter_rest functions.new) (iter_rest items.new) }
{
    match form {
        Form::Function(..) => match functions.next() {
            Some(function) => Some(&function.body),
            None => None,
        },
        Form::Define(..) | Form::Show(..) => match items.next() {
            Some(item) => Some(expr_of(item)),
            None => None,
        },
        Form::Input(..) | Form::Event(_) => None,
    }
}

/// The expression of an item.
fn expr_of(item: &Item) -> &Core
    ensures { result.now ≡ expr_of item.now }
{
    match item {
        Item::Define(expr) | Item::Show(_, expr) => expr,
    }
}

/// Whether the handlers and loops in a form's core expression, if it has one, have pure bodies.
fn is_fit_form(program: &Program, classes: &Classes, core: Option<&Core>) -> bool
    requires { AreClasses program.now classes.now.closed.items classes.now.pure.items }
    ensures { IsTrue result ↔ IsFitForm program.now (option_copied core.entry) }
{
    match core {
        Some(core) => is_fit(program, classes, core),
        None => true,
    }
}
