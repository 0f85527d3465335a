//! What earlier forms of a program define, and what is wrong with the names of a form behind them.
ghost use Rattle.std.specs.Prelude.{◌≡◌, ◌+◌, ◌≤◌, ◌<◌, false, length, IfOk, OnOk};
ghost use Rattle.fr_syntax.specs.Weights.{form_weight, weight};
ghost use Rattle.fr_scope.specs.Meanings.{most_numbered};
ghost use Rattle.fr_expand.specs.Faults.{faults, named};
ghost use Rattle.fr_expand.specs.Passes.{behind, definition_faults, form_faults, is_reserved, nothing_yet, show_faults};
ghost use Rattle.fr_expand.specs.Shaped.{earlier_of, is_taken, AreNamed};

use crate::bindings::{binding_faults, scope_of};
use crate::faults::{Faults, faults_in};
use crate::name_set::NameSet;
use crate::view::Names;
use fr_prims::prim_named;
use fr_scope::{Globals, Scope};
use fr_syntax::{Expr, Form, keyword_named};
use fr_value::Symbol;
use std::alloc::{AllocError, Global};

/// The names that earlier forms gave.
#[derive(Drop)]
pub(crate) struct EarlierNames<'a> {
    /// What they defined.
    defined: NameSet<'a>,
    /// The values among these, which are the variables of later forms.
    values: Scope,
    /// The names of shows.
    shown: NameSet<'a>,
}

impl<'a> EarlierNames<'a> {
    /// Before the first form.
    pub(crate) fn none(alloc: Global) -> EarlierNames<'a>
        ensures none { earlier_of result ≡ nothing_yet }
        ensures named { AreNamed result.values }
        ensures few { length result.values ≡ 0 }
    {
        EarlierNames {
            defined: NameSet::new(alloc),
            values: Scope::new(alloc),
            shown: NameSet::new(alloc),
        }
    }

    /// What is wrong with a name that a form defines.
    fn definition_faults(&self, name: &Symbol) -> Faults
        ensures { result ≡ definition_faults (earlier_of self.now) name.now }
    {
        Faults {
            name: is_reserved(name),
            unbound: false,
            twice: self.defined.has(name),
        }
    }

    /// What is wrong with the name of a show.
    fn show_faults(&self, name: &Symbol) -> Faults
        ensures { result ≡ show_faults (earlier_of self.now) name.now }
    {
        Faults {
            name: false,
            unbound: false,
            twice: self.shown.has(name),
        }
    }

    /// What is wrong with the names of a form, the names in its expression among them.
    pub(crate) fn form_faults(
        &mut self,
        alloc: Global,
        globals: &Globals,
        form: &Form,
    ) -> Result<Faults, AllocError>
        requires named { AreNamed self.old.values }
        requires few { length self.old.values + form_weight form.now ≤ most_numbered }
        ensures found { IfOk result (λ f. f ≡ form_faults globals.now (earlier_of self.old) form.now) }
        ensures unchanged { OnOk result (self.new ≡ self.old) }
    {
        match form {
            Form::Input(name, _) | Form::Event(name) => Ok(self.definition_faults(name)),
            Form::Function(name, params, body) => {
                let bound = binding_faults(alloc, Names::Each(params.as_slice()))?;
                let inside = body_faults(alloc, globals, params.as_slice(), body)?;
                Ok(self.definition_faults(name).with(bound.with(inside)))
            }
            Form::Define(name, expr) => {
                let inside = faults_in(alloc, globals, &mut self.values, expr)?;
                Ok(self.definition_faults(name).with(inside))
            }
            Form::Show(name, expr) => {
                let inside = faults_in(alloc, globals, &mut self.values, expr)?;
                Ok(self.show_faults(name).with(inside))
            }
        }
    }

    /// The names for the forms behind this one.
    pub(crate) fn add(&mut self, form: &'a Form) -> Result<(), AllocError>
        requires fresh { is_taken (earlier_of self.old) form.now ≡ false }
        requires named { AreNamed self.old.values }
        requires few { length self.old.values < most_numbered }
        ensures added { OnOk result (earlier_of self.new ≡ behind (earlier_of self.old) form.now) }
        ensures named { OnOk result (AreNamed self.new.values) }
        ensures few { OnOk result (length self.new.values ≤ length self.old.values + 1) }
    {
        match form {
            Form::Input(name, _) | Form::Event(name) | Form::Function(name, _, _) => {
                self.defined.add(name)
            }
            Form::Define(name, _) => {
                self.defined.add(name)?;
                self.values.push(name)
            }
            Form::Show(name, _) => self.shown.add(name),
        }
    }
}

/// Whether a name may not be defined at top level: it is a keyword, a primitive's name, or `now`.
fn is_reserved(name: &Symbol) -> bool
    ensures { result ≡ is_reserved name.now }
{
    let text = name.as_str();
    keyword_named(text).is_some() || prim_named(text).is_some() || text == "now"
}

/// What is wrong with the names in the body of a function with these parameters. It sees no values of the program.
fn body_faults(
    alloc: Global,
    globals: &Globals,
    params: &[Symbol],
    body: &Expr,
) -> Result<Faults, AllocError>
    requires { length params.now + weight body.now ≤ most_numbered }
    ensures { IfOk result (λ f. f ≡ faults globals.now body.now (named params.now)) }
{
    let mut scope = scope_of(alloc, params)?;
    faults_in(alloc, globals, &mut scope, body)
}
