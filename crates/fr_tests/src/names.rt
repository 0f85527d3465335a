use crate::calls::{Call, Lines, tells};
use crate::told::Told;
use fr_reader::{read_all, read_one};
use fr_scope::{Globals, Meaning, Scope};
use fr_syntax::{Form, Keyword, Outline, Sort, form_of, keyword_named, outline_of};
use fr_value::{Symbol, SymbolRefusal, Value};
use std::alloc::{AllocError, Global};

/// The symbol that a text is, if it is one.
fn symbol_of(alloc: Global, text: &str) -> Result<Option<Symbol>, AllocError> {
    match Symbol::from_bytes(alloc, text.as_bytes()) {
        Ok(symbol) => Ok(Some(symbol)),
        Err(SymbolRefusal::Memory(e)) => Err(e),
        Err(_) => Ok(None),
    }
}

/// One step: `_` is a variable without a name, `<2` leaves the scope of all but two variables, and a name is a variable.
fn step(alloc: Global, scope: &mut Scope, text: &str) -> Result<(), AllocError> {
    if let Some(digits) = text.strip_prefix('<') {
        scope.cut(digits.parse::<usize>().unwrap_or(0));
        return Ok(());
    }
    if scope.len() > 9 {
        return Ok(());
    }
    if text == "_" {
        return scope.push_unnamed();
    }
    match symbol_of(alloc, text)? {
        Some(name) => scope.push(&name),
        None => Ok(()),
    }
}

/// The variables in scope behind steps with spaces between them, at most ten.
fn scope(alloc: Global, text: &str) -> Result<Scope, AllocError> {
    let mut scope = Scope::new(alloc);
    for part in text.split_ascii_whitespace() {
        step(alloc, &mut scope, part)?;
    }
    Ok(scope)
}

fn tell(out: &mut Told, meaning: Option<Meaning>) {
    match meaning {
        Some(Meaning::Variable(variable)) => out.number(u64::from(variable.0)),
        Some(Meaning::Source(source)) => {
            out.word("source");
            out.number(u64::from(source.0));
        }
        Some(Meaning::Function(function)) => {
            out.word("function");
            out.number(u64::from(function.0));
        }
        Some(Meaning::Primitive(_)) => out.word("primitive"),
        None => out.word("none"),
    }
}

fn globals(alloc: Global, forms: Vec<Value>) -> Result<Globals, AllocError> {
    let mut forms = forms;
    forms.truncate(9);
    Globals::of(alloc, &forms)
}

fn meaning(
    alloc: Global,
    forms: Vec<Value>,
    scope: &Scope,
    name: &str,
) -> Result<Option<Meaning>, AllocError> {
    let globals = globals(alloc, forms)?;
    Ok(match symbol_of(alloc, name)? {
        Some(name) => globals.meaning(scope, &name),
        None => None,
    })
}

fn tell_in(alloc: Global, out: &mut Told, forms: Vec<Value>, scope: &Scope, name: &str) {
    out.number(scope.len() as u64);
    match meaning(alloc, forms, scope, name) {
        Ok(found) => tell(out, found),
        Err(_) => out.lacks(),
    }
}

/// The number of variables in scope behind steps, and what a name means there where at most nine forms stand.
pub(crate) fn tell_meaning(alloc: Global, out: &mut Told, text: &[u8], steps: &str, name: &str) {
    if text.len() > 2_000_000_000 {
        return;
    }
    match (read_all(alloc, text), scope(alloc, steps)) {
        (Ok(forms), Ok(scope)) => tell_in(alloc, out, forms, &scope, name),
        _ => out.lacks(),
    }
}

/// Forms; and steps of a scope, a name behind `? `, and the number of variables there and what the name means.
const MEANINGS: &[(&str, Lines)] = &[
    (
        "",
        &[
            "? x => 0 none",
            "x ? x => 1 0",
            "x y ? y => 2 1",
            "x y ? z => 2 none",
            "x y x ? x => 3 2",
            "x y x <2 ? x => 2 0",
            "x y x <2 ? y => 2 1",
            "x y x <1 ? y => 1 none",
            "x y x <0 ? x => 0 none",
            "x y x <7 ? x => 3 2",
            "x x x <2 ? x => 2 1",
            "x y x <2 z x ? x => 4 3",
            "x y x <1 z y <2 ? y => 2 none",
            "_ x _ ? x => 3 1",
            "x _ x <2 ? x => 2 0",
            "x _ ? _ => 2 none",
            "x X ? x => 2 0",
            "xx x ? xx => 2 0",
        ],
    ),
    (
        "(define-input x 1) (define-event e) (define (f n) n)",
        &[
            "? x => 0 source 1",
            "? e => 0 source 2",
            "? f => 0 function 0",
            "? n => 0 none",
            "? now => 0 source 0",
            "? car => 0 primitive",
            "? first => 0 primitive",
            "y x ? x => 2 1",
            "y x <1 ? x => 1 source 1",
            "f ? f => 1 0",
            "now car ? now => 2 0",
            "now car ? car => 2 1",
            "now car ? first => 2 primitive",
        ],
    ),
    (
        "(define-input car 1) (define (now) 1)",
        &[
            "? car => 0 source 1",
            "? first => 0 primitive",
            "? now => 0 function 0",
        ],
    ),
    (
        "(define (f) 1) (define-input f 2) (define-input g 3)",
        &["? f => 0 function 0", "? g => 0 source 2"],
    ),
    (
        "(define-event f) (define (f) 1) (define (g) 2)",
        &["? f => 0 source 1", "? g => 0 function 1"],
    ),
    ("(define-input x)", &["? x => 0 source 1"]),
    ("(define-event x 1 2)", &["? x => 0 source 1"]),
    ("(define (f 1 2))", &["? f => 0 function 0"]),
    (
        "(define-input 5 1) (define-input x 1)",
        &["? x => 0 source 1"],
    ),
    ("(define-event (x) 1)", &["? x => 0 none"]),
    (
        "(define-input) (define-event)",
        &["? define-input => 0 none"],
    ),
    ("(define () 1)", &["? define => 0 none"]),
    ("(define (5 f) 1)", &["? f => 0 none"]),
    ("(define f 1)", &["? f => 0 none"]),
    ("(show a 1)", &["? a => 0 none"]),
    ("(input x 1)", &["? x => 0 none"]),
    ("x", &["? x => 0 none"]),
];

/// Whether a name means what a line says, where these forms stand.
fn means(alloc: Global, forms: &str, line: &'static str) -> bool {
    let Some((steps, rest)) = line.split_once("? ") else {
        return false;
    };
    match rest.split_once(" => ") {
        Some((name, want)) => tells(alloc, Call::Meaning(steps, name), forms.as_bytes(), want),
        None => false,
    }
}

/// The first of these lines that says something else, if there is one.
fn wrong_meaning(alloc: Global, forms: &str, lines: Lines) -> Option<&'static str> {
    for line in lines {
        if !means(alloc, forms, line) {
            return Some(*line);
        }
    }
    None
}

#[test]
fn names_mean_the_innermost_variable_or_the_first_form(rt: HostRuntime) {
    for (forms, lines) in MEANINGS {
        assert_eq!(rt; wrong_meaning(rt.alloc(), forms, lines), None);
    }
}

/// The global name that a form gives, behind what it is.
pub(crate) fn tell_outline(out: &mut Told, form: &Value) {
    match outline_of(form) {
        Some(Outline { name, sort }) => {
            out.word(match sort {
                Sort::Input => "input",
                Sort::Event => "event",
                Sort::Function => "function",
            });
            out.word(name.as_str());
        }
        None => out.word("none"),
    }
}

/// Forms, and the global name that each gives by its first two items.
pub(crate) const OUTLINES: Lines = &[
    "(define-input x 1) => input x",
    "(define-input x) => input x",
    "(define-input if 1 2 3) => input if",
    "(define-event e) => event e",
    "(define-event e ()) => event e",
    "(define (f a) a) => function f",
    "(define (f 1)) => function f",
    "(define (f)) => function f",
    "(define x 1) => none",
    "(define () 1) => none",
    "(define (1) 2) => none",
    "(define ((f)) 2) => none",
    "(define) => none",
    "(define-input) => none",
    "(define-input (x) 1) => none",
    "(define-input 1 2) => none",
    "(define-event (e)) => none",
    "(show x 1) => none",
    "(f x) => none",
    "((define-input) x) => none",
    "() => none",
    "x => none",
];

// It takes the form by value, since letting one go in an arm of a match is very dear to prove.
fn is_event(form: Option<Form>, want: &str) -> bool {
    match &form {
        Some(Form::Event(name)) => name.as_str() == want,
        _ => false,
    }
}

fn is_event_of(alloc: Global, datum: &Value, want: &str) -> bool {
    match form_of(alloc, datum) {
        Ok(form) => is_event(form, want),
        Err(_) => false,
    }
}

fn reads_as_event(alloc: Global, text: &[u8], want: &str) -> bool {
    match read_one(alloc, text) {
        Ok(datum) => is_event_of(alloc, &datum, want),
        Err(_) => false,
    }
}

#[test]
fn a_form_and_a_keyword_are_found(rt: HostRuntime) {
    assert!(rt; reads_as_event(rt.alloc(), b"(define-event hit)", "hit"));
    assert!(rt; keyword_named("let*") == Some(Keyword::LetStar));
}
