ghost use Rattle.std.specs.Prelude.{◌≡◌};
ghost use Rattle.std.specs.Option.{option_map};
ghost use Rattle.fr_syntax.specs.Outlines.{symbol_of, keyword_of, head_symbol, given, outline_of as outlined, told};

use crate::keyword::{Keyword, keyword_named};
use fr_value::{Symbol, Value};

/// What a global name is.
#[derive(Clone, Copy, Debug, PartialEq, Eq)]
pub enum Sort {
    Input,
    Event,
    Function,
}

/// A global name that a form gives, and what it is.
pub struct Outline<'a> {
    pub name: &'a Symbol,
    pub sort: Sort,
}

/// The global name that a form gives by its first two items, whether it is well formed or not: the name of
/// `(define-input NAME ..)`, `(define-event NAME ..)` or `(define (NAME ..) ..)`. It takes no memory.
pub fn outline_of(form: &Value) -> Option<Outline<'_>>
    ensures { option_map told result ≡ outlined form.now }
{
    let Value::List(list) = form else {
        return None;
    };
    match (list.get(0), list.get(1)) {
        (Some(head), Some(second)) => given(keyword_of(head), second),
        _ => None,
    }
}

/// The name that a form with this keyword and this second item gives.
fn given(keyword: Option<Keyword>, second: &Value) -> Option<Outline<'_>>
    ensures { option_map told result ≡ given keyword second.now }
{
    match keyword {
        Some(Keyword::DefineInput) => outlined(symbol_of(second), Sort::Input),
        Some(Keyword::DefineEvent) => outlined(symbol_of(second), Sort::Event),
        Some(Keyword::Define) => outlined(head_symbol(second), Sort::Function),
        _ => None,
    }
}

fn outlined(name: Option<&Symbol>, sort: Sort) -> Option<Outline<'_>>
    ensures { option_map told result ≡ option_map (λ n. (n.now, sort)) name.entry }
{
    match name {
        Some(name) => Some(Outline { name, sort }),
        None => None,
    }
}

/// The symbol that a value is, if it is one.
pub(crate) fn symbol_of(v: &Value) -> Option<&Symbol>
    ensures { option_map (λ n. n.now) result ≡ symbol_of v.now }
{
    match v {
        Value::Sym(name) => Some(name),
        _ => None,
    }
}

/// The keyword that a value is, if it is one.
pub(crate) fn keyword_of(v: &Value) -> Option<Keyword>
    ensures { result ≡ keyword_of v.now }
{
    match v {
        Value::Sym(name) => keyword_named(name.as_str()),
        _ => None,
    }
}

/// The symbol that a list begins with.
fn head_symbol(v: &Value) -> Option<&Symbol>
    ensures { option_map (λ n. n.now) result ≡ head_symbol v.now }
{
    match v {
        Value::List(list) => match list.get(0) {
            Some(head) => symbol_of(head),
            None => None,
        },
        _ => None,
    }
}
