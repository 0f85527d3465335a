//! The program that forms are, where none of them is refused in the first pass.
ghost use Rattle.std.specs.Prelude.{◌≡◌, ◌+◌, ◌<◌, ◌≤◌, [], map, length, IfOk, OnOk};
ghost use Rattle.fr_value.specs.Data.{total};
ghost use Rattle.fr_syntax.specs.Weights.{form_weight, weight};
ghost use Rattle.fr_scope.specs.Meanings.{most_numbered};
ghost use Rattle.fr_expand.specs.Expansion.{events_from, functions_in, inputs_from, items_from, most_weight, program_in};
ghost use Rattle.fr_expand.specs.Faults.{named};
ghost use Rattle.fr_expand.specs.Items.{item_of, values_behind};
ghost use Rattle.fr_expand.specs.Shaped.{names_in, AreNamed};
ghost use Rattle.fr_expand.specs.Translation.{core_of};

use crate::bindings::scope_of;
use crate::translation::core_in;
use fr_core::{Core, Event, Function, Input, Item, Program};
use fr_scope::{Globals, Scope};
use fr_syntax::{Expr, Form};
use fr_value::{SrcId, Symbol};
use sqlite_items::Items;
use std::alloc::{AllocError, Global};

/// The program that forms are which the first pass doesn't refuse.
pub(crate) fn program_in(
    alloc: Global,
    globals: &Globals,
    forms: &[Form],
) -> Result<Program, AllocError>
    requires { total (map form_weight forms.now) ≤ most_weight }
    ensures { IfOk result (λ p. p ≡ program_in globals.now forms.now) }
{
    let (inputs, events) = sources_in(alloc, forms)?;
    let functions = functions_in(alloc, globals, forms)?;
    let body = items_in(alloc, globals, forms)?;
    Ok(Program {
        inputs,
        events,
        functions,
        body,
    })
}

/// The inputs and the events, which are numbered together, from 1.
fn sources_in(alloc: Global, forms: &[Form]) -> Result<(Items<Input>, Items<Event>), AllocError>
    requires { total (map form_weight forms.now) ≤ most_weight }
    ensures inputs { IfOk result (λ s. s.0 ≡ inputs_from 1 forms.now) }
    ensures events { IfOk result (λ s. s.1 ≡ events_from 1 forms.now) }
{
    let mut inputs = Items::new(alloc);
    let mut events = Items::new(alloc);
    let mut next: u32 = 1;
    for form in forms {
        match form {
            Form::Input(name, first) => {
                inputs.push(Input {
                    source: SrcId(next),
                    name: name.share()?,
                    first: first.share()?,
                })?;
                next += 1;
            }
            Form::Event(name) => {
                events.push(Event {
                    source: SrcId(next),
                    name: name.share()?,
                })?;
                next += 1;
            }
            Form::Function(..) | Form::Define(..) | Form::Show(..) => {}
        }
    }
    Ok((inputs, events))
}

/// The functions.
fn functions_in(
    alloc: Global,
    globals: &Globals,
    forms: &[Form],
) -> Result<Items<Function>, AllocError>
    requires { total (map form_weight forms.now) ≤ most_weight }
    ensures { IfOk result (λ fs. fs ≡ functions_in globals.now forms.now) }
{
    let mut functions = Items::new(alloc);
    for form in forms {
        match form {
            Form::Function(name, params, body) => {
                functions.push(function_of(alloc, globals, name, params.as_slice(), body)?)?;
            }
            Form::Input(..) | Form::Event(_) | Form::Define(..) | Form::Show(..) => {}
        }
    }
    Ok(functions)
}

/// A function. Its body sees its parameters and no values of the program.
fn function_of(
    alloc: Global,
    globals: &Globals,
    name: &Symbol,
    params: &[Symbol],
    body: &Expr,
) -> Result<Function, AllocError>
    requires { length params.now + weight body.now ≤ most_numbered }
    ensures { IfOk result (λ f. f ≡ record { name = name.now; params = length params.now; body = core_of globals.now body.now (named params.now) }) }
{
    let name = name.share()?;
    let body = body_of(alloc, globals, params, body)?;
    Ok(Function {
        name,
        params: params.len() as u32,
        body,
    })
}

/// The core expression of a function's body.
fn body_of(
    alloc: Global,
    globals: &Globals,
    params: &[Symbol],
    body: &Expr,
) -> Result<Core, AllocError>
    requires { length params.now + weight body.now ≤ most_numbered }
    ensures { IfOk result (λ c. c ≡ core_of globals.now body.now (named params.now)) }
{
    let mut scope = scope_of(alloc, params)?;
    core_in(alloc, globals, &mut scope, body)
}

/// The items of the body. Each sees the values before it.
fn items_in(alloc: Global, globals: &Globals, forms: &[Form]) -> Result<Items<Item>, AllocError>
    requires { total (map form_weight forms.now) ≤ most_weight }
    ensures { IfOk result (λ is. is ≡ items_from globals.now [] forms.now) }
{
    let mut values = Scope::new(alloc);
    let mut items = Items::new(alloc);
    for form in forms {
        if let Some(item) = item_of(alloc, globals, &mut values, form)? {
            items.push(item)?;
        }
        add_value(&mut values, form)?;
    }
    Ok(items)
}

/// The item that a form is, if it is one, where these are the values before it.
fn item_of(
    alloc: Global,
    globals: &Globals,
    values: &mut Scope,
    form: &Form,
) -> Result<Option<Item>, AllocError>
    requires named { AreNamed values.old }
    requires few { length values.old + form_weight form.now ≤ most_numbered }
    ensures made { IfOk result (λ i. i ≡ item_of globals.now (names_in values.old) form.now) }
    ensures values { OnOk result (values.new ≡ values.old) }
{
    match form {
        Form::Define(_, expr) => Ok(Some(Item::Define(core_in(alloc, globals, values, expr)?))),
        Form::Show(name, expr) => {
            let name = name.share()?;
            Ok(Some(Item::Show(name, core_in(alloc, globals, values, expr)?)))
        }
        Form::Input(..) | Form::Event(_) | Form::Function(..) => Ok(None),
    }
}

/// The values behind a form.
fn add_value(values: &mut Scope, form: &Form) -> Result<(), AllocError>
    requires named { AreNamed values.old }
    requires few { length values.old < most_numbered }
    ensures added { OnOk result (names_in values.new ≡ values_behind (names_in values.old) form.now) }
    ensures named { OnOk result (AreNamed values.new) }
    ensures few { OnOk result (length values.new ≤ length values.old + 1) }
{
    match form {
        Form::Define(name, _) => values.push(name),
        Form::Input(..) | Form::Event(_) | Form::Function(..) | Form::Show(..) => Ok(()),
    }
}
