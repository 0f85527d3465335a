//! The global names that forms give.
ghost use Rattle.std.specs.Prelude.{◌≡◌, ◌+◌, ◌<◌, ◌≤◌, Some, None, if◌then◌else◌, ℕ, List, map, IfOk, OnOk, length};
ghost use Rattle.std.specs.Option.{option_or};
ghost use Rattle.std.specs.HashMap.{get_by_text};
ghost use Rattle.std.specs.Str.{bytes_eq};
ghost use Rattle.fr_value.specs.Data.{data_of};
ghost use Rattle.fr_scope.specs.Given.{global_of};
ghost use Rattle.fr_scope.specs.Meanings.{built_in, functions_behind, given_as, global, globals_in, meaning_of, sources_behind, most_numbered};

use crate::meaning::Meaning;
use crate::scope::Scope;
use fr_prims::prim_named;
use fr_syntax::{Outline, Sort, outline_of};
use fr_value::{FunId, SrcId, Symbol, Value};
use std::alloc::{AllocError, Global};
use std::collections::HashMap;
use std::marker::Model;

/// The global names that a program's forms give. Contracts see them in the order of the forms.
#[derive(Drop)]
pub struct Globals {
    /// The names in the order of the forms: what contracts see.
    names: Vec<Given>,
    /// What the first form that gives a name makes of it.
    meanings: HashMap<String, Meaning>,
}

/// A name that a form gives.
#[derive(Drop)]
struct Given {
    name: Symbol,
    sort: Sort,
}

impl Model for Globals {
    ghost use Rattle.std.specs.Prelude.{◌≡◌, ℕ, List, map};
    ghost use Rattle.std.specs.HashMap.{get_by_text};
    ghost use Rattle.fr_syntax.specs.Outlines.{Global};
    ghost use Rattle.fr_scope.specs.Meanings.{global};
    ghost use Rattle.fr_scope.specs.Given.{global_of};

    ghost Value = { List Global };

    ghost view = { λ g. map global_of g.names.items };

    ghost invariant = { λ g. (name : List ℕ) → get_by_text g.meanings name ≡ global name 1 0 (map global_of g.names.items) };
}

impl Globals {
    /// The global names of these forms, well formed or not. It makes one more owner of each name, and a copy of its text.
    pub fn of(alloc: Global, forms: &[Value]) -> Result<Globals, AllocError>
        requires { length forms.now < most_numbered }
        ensures { IfOk result (λ g. g ≡ globals_in (data_of forms.now)) }
    {
        let names = names_of(alloc, forms)?;
        let meanings = meanings_of(alloc, &names)?;
        Ok(Globals { names, meanings })
    }

    /// What a name means where these variables are in scope, or None where it means nothing. It takes no memory, and no time
    /// in the number of names or variables.
    pub fn meaning(&self, scope: &Scope, name: &Symbol) -> Option<Meaning>
        ensures { result ≡ meaning_of self.now scope.now name.now }
    {
        if let Some(variable) = scope.variable(name) {
            return Some(Meaning::Variable(variable));
        }
        match self.meanings.get(name.as_str()) {
            Some(meaning) => Some(*meaning),
            None => built_in(name),
        }
    }
}

/// The names that these forms give, in order.
fn names_of(alloc: Global, forms: &[Value]) -> Result<Vec<Given>, AllocError>
    ensures names { IfOk result (λ names. map global_of names.items ≡ globals_in (data_of forms.now)) }
    ensures few { IfOk result (λ names. length names.items ≤ length forms.now) }
{
    let mut names = Vec::new(alloc);
    for form in forms {
        if let Some(Outline { name, sort }) = outline_of(form) {
            let name = name.share()?;
            names.push(Given { name, sort })?;
        }
    }
    Ok(names)
}

/// What the first of these that gives a name makes of it. Sources count from 1, and functions from 0.
fn meanings_of(alloc: Global, names: &[Given]) -> Result<HashMap<String, Meaning>, AllocError>
    requires { length names.now < most_numbered }
    ensures { IfOk result (λ m. (name : List ℕ) → get_by_text m name ≡ global name 1 0 (map global_of names.now)) }
{
    let mut meanings = HashMap::new(alloc);
    let mut sources = 1;
    let mut functions = 0;
    for given in names {
        let meaning = given_as(given.sort, sources, functions);
        note(alloc, &mut meanings, given.name.as_str(), meaning)?;
        sources = sources_behind(given.sort, sources);
        functions = functions_behind(given.sort, functions);
    }
    Ok(meanings)
}

/// Notes what a name means, unless it means something already.
fn note(
    alloc: Global,
    meanings: &mut HashMap<String, Meaning>,
    name: &str,
    meaning: Meaning,
) -> Result<(), AllocError>
    ensures { OnOk result ((q : List ℕ) → get_by_text meanings.new q ≡ option_or (get_by_text meanings.old q) (if bytes_eq name.now q then Some meaning else None)) }
{
    if !meanings.contains_key(name) {
        let key = String::from_str(alloc, name)?;
        meanings.insert(key, meaning)?;
    }
    Ok(())
}

/// What a name of this sort is, where so many sources and functions stand before it.
fn given_as(sort: Sort, sources: u32, functions: u32) -> Meaning
    ensures { result ≡ given_as sort sources functions }
{
    match sort {
        Sort::Function => Meaning::Function(FunId(functions)),
        Sort::Input | Sort::Event => Meaning::Source(SrcId(sources)),
    }
}

/// The number of sources behind a name of this sort.
fn sources_behind(sort: Sort, sources: u32) -> u32
    requires { sources < most_numbered }
    ensures counted { result ≡ sources_behind sort sources }
    ensures at_most { result ≤ sources + 1 }
{
    match sort {
        Sort::Function => sources,
        Sort::Input | Sort::Event => sources + 1,
    }
}

/// The number of functions behind a name of this sort.
fn functions_behind(sort: Sort, functions: u32) -> u32
    requires { functions < most_numbered }
    ensures counted { result ≡ functions_behind sort functions }
    ensures at_most { result ≤ functions + 1 }
{
    match sort {
        Sort::Function => functions + 1,
        Sort::Input | Sort::Event => functions,
    }
}

/// `now` or a primitive.
fn built_in(name: &Symbol) -> Option<Meaning>
    ensures { result ≡ built_in name.now }
{
    let text = name.as_str();
    if text == "now" {
        return Some(Meaning::Source(SrcId(0)));
    }
    match prim_named(text) {
        Some(primitive) => Some(Meaning::Primitive(primitive)),
        None => None,
    }
}
