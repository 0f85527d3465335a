use crate::calls::{Call, Lines};
use crate::names::tell_outline;
use crate::told::Told;
use fr_prims::{PrimStop, apply, prim_named};
use fr_reader::{OneStop, ReadStop, one_reading, printed_text_reads, read_all, read_one};
use fr_value::{List, ListRefusal, Now, Primitive, Text, Value, same, symbol};
use std::alloc::{AllocError, Global};

fn tell_refused(out: &mut Told, number: u32) {
    out.word("refused");
    out.number(u64::from(number));
}

fn tell_each(out: &mut Told, data: &[Value]) {
    for datum in data {
        out.value(datum);
    }
}

/// What `read_all` answers: the data or their number, or the number that is refused.
pub(crate) fn tell_all(alloc: Global, out: &mut Told, call: Call, text: &[u8]) {
    if text.len() > 2_000_000_000 {
        return;
    }
    match read_all(alloc, text) {
        Ok(data) => match call {
            Call::Count => out.number(data.len() as u64),
            _ => tell_each(out, &data),
        },
        Err(ReadStop::Refused(number)) => tell_refused(out, number),
        Err(ReadStop::Memory(_)) => out.lacks(),
    }
}

/// What is told of the datum that `read_one` answers, or that there is none.
pub(crate) fn tell_one(alloc: Global, out: &mut Told, call: Call, text: &[u8]) {
    match read_one(alloc, text) {
        Ok(datum) => tell_datum(alloc, out, call, &datum),
        Err(OneStop::Refused) => out.word("refused"),
        Err(OneStop::Memory(_)) => out.lacks(),
    }
}

fn tell_datum(alloc: Global, out: &mut Told, call: Call, datum: &Value) {
    match call {
        Call::Measures => tell_measures(alloc, out, datum),
        Call::Made => tell_made(alloc, out, datum),
        Call::Applied => tell_application(alloc, out, datum),
        Call::Outline => tell_outline(out, datum),
        _ => out.value(datum),
    }
}

pub(crate) fn tell_symbol(out: &mut Told, text: &[u8]) {
    out.word(symbol(text).unwrap_or("none"));
}

fn tell_size(out: &mut Told, value: &Value) {
    out.number(value.size());
    out.number(u64::from(value.depth()));
}

fn tell_measures(alloc: Global, out: &mut Told, value: &Value) {
    tell_size(out, value);
    match value.share() {
        Ok(shared) => out.value(&shared),
        Err(_) => out.lacks(),
    }
    if let Value::List(list) = value {
        tell_parts(alloc, out, list);
        tell_rest(alloc, out, list);
    }
}

fn tell_item(out: &mut Told, item: Option<&Value>) {
    match item {
        Some(value) => out.value(value),
        None => out.word("none"),
    }
}

/// The number of items of a list, and the first and the third.
fn tell_parts(alloc: Global, out: &mut Told, list: &List) {
    out.number(list.len() as u64);
    match list.to_vec(alloc) {
        Ok(items) => out.number(items.len() as u64),
        Err(_) => out.lacks(),
    }
    tell_item(out, list.get(0));
    tell_item(out, list.get(2));
}

fn tell_list(out: &mut Told, list: &List) {
    out.number(u64::from(list.size()));
    out.number(u64::from(list.depth()));
}

fn tell_rest(alloc: Global, out: &mut Told, list: &List) {
    match list.rest(alloc) {
        Ok(Some(rest)) => tell_list(out, &rest),
        Ok(None) => out.word("none"),
        Err(_) => out.lacks(),
    }
}

fn tell_list_made(out: &mut Told, made: Result<List, ListRefusal>) {
    match &made {
        Ok(list) => tell_list(out, list),
        Err(ListRefusal::TooBig) => out.word("too big"),
        Err(ListRefusal::Memory(_)) => out.lacks(),
    }
}

fn tell_made_of(alloc: Global, out: &mut Told, items: Vec<Value>) {
    tell_list_made(out, List::of(alloc, &items));
    tell_list_made(out, List::of_vec(alloc, items));
}

fn items_of(alloc: Global, item: &Value) -> Result<Vec<Value>, AllocError> {
    let mut items = Vec::new(alloc);
    items.push(item.share()?)?;
    Ok(items)
}

fn tell_made(alloc: Global, out: &mut Told, item: &Value) {
    tell_list_made(out, List::cons(alloc, item, &List::empty()));
    match items_of(alloc, item) {
        Ok(items) => tell_made_of(alloc, out, items),
        Err(_) => out.lacks(),
    }
}

/// For each item a word with one sign for each item of the other list.
fn tell_pairs(out: &mut Told, a: &[Value], b: &[Value]) {
    for x in a {
        out.word("");
        for y in b {
            out.end(if same(x, y) { "=" } else { "." });
        }
    }
}

pub(crate) fn tell_same(alloc: Global, out: &mut Told, text: &[u8]) {
    match (read_one(alloc, text), read_one(alloc, text)) {
        (Ok(Value::List(a)), Ok(Value::List(b))) => match (a.to_vec(alloc), b.to_vec(alloc)) {
            (Ok(a), Ok(b)) => tell_pairs(out, &a, &b),
            _ => out.lacks(),
        },
        _ => out.lacks(),
    }
}

fn tell_applied(alloc: Global, out: &mut Told, prim: Primitive, args: &[Value]) {
    match apply(alloc, prim, args) {
        Ok(value) => out.value(&value),
        Err(PrimStop::Bad(bad)) => out.bad(bad),
        Err(PrimStop::Memory(_)) => out.lacks(),
    }
}

fn tell_application(alloc: Global, out: &mut Told, datum: &Value) {
    let Value::List(list) = datum else {
        return;
    };
    let Ok(items) = list.to_vec(alloc) else {
        out.lacks();
        return;
    };
    if let Some((Value::Sym(name), args)) = items.split_first() {
        match prim_named(name.as_str()) {
            Some(prim) => tell_applied(alloc, out, prim, args),
            None => out.word("no primitive"),
        }
    }
}

/// Texts, and their data or the number that is refused.
pub(crate) const TEXTS: Lines = &[
    "1 -2 +3 007 -0 #true 'x ;c\n [a \"\\n\"] => 1 -2 3 7 0 #t (quote x) (a \"\\n\")",
    "x (a (b \"c) d) e => refused 2",
];

/// Texts of one datum, and others.
pub(crate) const SINGLE: Lines = &[
    "a => a",
    " [1 'x] ; c => (1 (quote x))",
    " => refused",
    "; a => refused",
    "1 2 => refused",
    "1 ) => refused",
    "( => refused",
];

/// Texts, and the symbol that each is.
pub(crate) const SYMBOLS: Lines = &["set-it! => set-it!", "-.5 => none", "\u{e9} => none"];

#[test]
fn laws_of_readings_are_called() {
    printed_text_reads(&Value::Bool(true));
    one_reading();
}

#[test]
fn refusals_are_shown(rt: HostRuntime) -> Result<(), AllocError> {
    let shown = format!(in rt.alloc(); "{}; {}", ReadStop::Refused(3), OneStop::Refused)?;
    assert_eq!(rt;
        shown.as_str(),
        "datum 3 of the text does not read; the text is not one datum"
    );
    Ok(())
}

/// Values, and sizes, depths and texts; of a list also the number of items, the first and the third, and the rest's
/// size and depth.
pub(crate) const VALUES: Lines = &[
    "0 => 1 0 0",
    "-42 => 1 0 -42",
    "-9223372036854775808 => 1 0 -9223372036854775808",
    "#t => 1 0 #t",
    "#f => 1 0 #f",
    "set-it! => 8 0 set-it!",
    "\"\" => 1 0 \"\"",
    "\"a\\\"b\\\\c\\nd\\te\\rf;\u{e9} \" => 16 0 \"a\\\"b\\\\c\\nd\\te\\rf;\u{e9} \"",
    "((())) => 3 3 ((())) 1 1 (()) none 1 1",
    "(7 (()) x) => 6 3 (7 (()) x) 3 3 7 x 5 3",
    "((()) x) => 5 3 ((()) x) 2 2 (()) none 3 1",
    "(x) => 3 1 (x) 1 1 x none 1 1",
    "() => 1 1 () 0 0 none none none",
];

/// Items of a list, and for each a sign for every item of the same list, read again.
pub(crate) const SAME: Lines = &[
    "(1 2 #t #f ab \"ab\" \"ba\" () (()) (1) (2) (\"ab\")) => \
         =........... .=.......... ..=......... ...=........ ....=....... .....=...... \
         ......=..... .......=.... ........=... .........=.. ..........=. ...........=",
];

fn is_occurrence(now: &Now) -> bool {
    matches!(now, Now::Occ(Some(Value::Bool(true))))
}

fn is_shared(now: Now) -> bool {
    match now.share() {
        Ok(shared) => is_occurrence(&shared),
        Err(_) => false,
    }
}

#[test]
fn states_and_texts_are_shared(rt: HostRuntime) -> Result<(), AllocError> {
    assert!(rt; is_shared(Now::Occ(Some(Value::Bool(true)))));
    assert!(rt; !is_shared(Now::Occ(None)));
    assert!(rt; !is_shared(Now::Plain(Value::Bool(true))));
    let text = Text::from_str(rt.alloc(), "\u{e9}")?;
    assert_eq!(rt; text.len(), 2);
    assert_eq!(rt; text.share()?.as_str(), "\u{e9}");
    assert!(rt; text.same(&text.share()?));
    Ok(())
}

/// What two primitives answer, and what primitives refuse, with the kind.
pub(crate) const APPLICATIONS: Lines = &[
    "(append (1) () (2 3)) => (1 2 3)",
    "(first (a)) => a",
    "(+ 9223372036854775807 1) => Range",
    "(+ 9223372036854775807 1 -1) => Range",
    "(+ 9223372036854775807 1 #t) => WrongType",
    "(* 4611686018427387904 2) => Range",
    "(-) => Arity",
    "(- -9223372036854775808) => Range",
    "(- -9223372036854775808 1) => Range",
    "(- a) => WrongType",
    "(quotient 7 0) => Zero",
    "(quotient -9223372036854775808 -1) => Range",
    "(quotient a) => Arity",
    "(quotient a 0) => WrongType",
    "(remainder 1 0) => Zero",
    "(modulo 1 0) => Zero",
    "(abs -9223372036854775808) => Range",
    "(abs) => Arity",
    "(min) => Arity",
    "(max 1 #f) => WrongType",
    "(=) => Arity",
    "(< 2 1 a) => WrongType",
    "(even? a) => WrongType",
    "(zero? a b) => Arity",
    "(not) => Arity",
    "(equal? 1) => Arity",
    "(raise 1) => Raised",
    "(raise) => Arity",
    "(second (1)) => no primitive",
    "(cons 1 2) => WrongType",
    "(cons 1) => Arity",
    "(first ()) => Empty",
    "(cdr ()) => Empty",
    "(car 1) => WrongType",
    "(length a) => WrongType",
    "(append (1) 2) => WrongType",
    "(list-ref (1 2) 2) => Range",
    "(list-ref (1 2) -1) => Range",
    "(list-ref 1 0) => WrongType",
    "(list-ref (1) a) => WrongType",
    "(string-length a) => WrongType",
    "(string-append \"a\" a) => WrongType",
    "(string=?) => Arity",
    "(string=? \"a\" 1) => WrongType",
    "(symbol->string \"a\") => WrongType",
    "(number->string a) => WrongType",
];
