use crate::calls::Lines;
use crate::told::Told;
use fr_core::{Core, Function, Item, Program};
use fr_purity::{Classes, classify, is_fit, is_pure};
use fr_value::{FunId, Symbol};
use sqlite_items::Items;
use std::alloc::{AllocError, Global};

/// The names before a shown expression: `f` is pure, `g` has a state, `h` names a source.
pub(crate) const NAMES: &str =
    "(define-input a 0)(define-input b 0)(define (f a b) (+ (* a a) (* b b)))\
    (define (g a b) (collect-b a b (lambda (v s) s)))(define (h p q) a)";

fn sign(marked: bool) -> &'static str {
    if marked { "1" } else { "0" }
}

fn tell_marks(out: &mut Told, marks: &[bool]) {
    for marked in marks {
        out.end(sign(*marked));
    }
}

fn tell_found(out: &mut Told, classes: &Classes) {
    out.end("closed ");
    tell_marks(out, classes.closed.as_slice());
    out.end(", pure ");
    tell_marks(out, classes.pure.as_slice());
}

/// Which functions are closed, and which are pure.
pub(crate) fn tell_classes(alloc: Global, out: &mut Told, program: &Program) {
    match classify(alloc, program) {
        Ok(classes) => tell_found(out, &classes),
        Err(_) => out.lacks(),
    }
}

/// Whether the first show's expression is pure and whether it is fit.
pub(crate) fn tell_fitness(alloc: Global, out: &mut Told, program: &Program) {
    if let Some(Item::Show(_, expr)) = program.body.as_slice().first() {
        match classify(alloc, program) {
            Ok(classes) => {
                out.word(sign(is_pure(program, &classes, expr)));
                out.word(sign(is_fit(program, &classes, expr)));
            }
            Err(_) => out.lacks(),
        }
    }
}

/// Programs, and for each function whether it is closed, and whether pure.
pub(crate) const CLASSES: Lines = &[
    "(show y 1) => closed , pure ",
    "(define (f a b) (+ (* a a) (* b b))) => closed 1, pure 1",
    "(define (f a b) (collect-b a b (lambda (v s) s)))(define (g a b) (f a b))(define (h a b) (+ (* a a) (* b b))) => closed 111, pure 001",
    "(define (f a b) (f a b)) => closed 1, pure 1",
    "(define (f a b) (g a b))(define (g a b) (f a b)) => closed 11, pure 11",
    "(define (f a b) (+ (* a a) (* b b)))(define (g a b) (f a))(define (h a b) (f a b a)) => closed 111, pure 100",
    "(define (f a b) (not a b)) => closed 1, pure 1",
    "(define-input x 0)(define (f a b) (g a b))(define (g a b) x) => closed 00, pure 00",
    "(define (f a b) (+ (* a a) (* b b)))(define (g a b) (f a b))(define (h a b) (i a b))(define (i a b) (j a b))(define (j a b) (delay a b)) => closed 11111, pure 11000",
    "(define-input x 0)(define (f a b) (g a b))(define (g a b) (+ (f a b) (h a b)))(define (h a b) (collect-b a b (lambda (v s) s)))(define (i a b) (+ (j a b) (i a b)))(define (j a b) x) => closed 11100, pure 00000",
    "(define (f a b) (+ (g a b) (f a b)))(define (g a b) (+ (f a b) (h a b)))(define (h a b) 1) => closed 111, pure 111",
];

/// Expressions behind the names, and whether each is pure, and whether fit.
pub(crate) const FITNESS: Lines = &[
    "1 => 1 1",
    "a => 1 1",
    "(+ (* a a) (* b b)) => 1 1",
    "(not a b) => 1 1",
    "(f a b) => 1 1",
    "(+ (f a b) (f a b)) => 1 1",
    "(let ((p a) (q b)) p) => 1 1",
    "(if a b b) => 1 1",
    "(f a) => 0 1",
    "(g a b) => 0 1",
    "(h a b) => 0 1",
    "(collect-b a b (lambda (v s) s)) => 0 1",
    "(merge-e a b) => 0 1",
    "(hold a b) => 0 1",
    "(changes a) => 0 1",
    "(once-e a) => 0 1",
    "(delay a b) => 0 1",
    "(delay-e a) => 0 1",
    "(feedback (m a) b) => 0 1",
    "(abs (+ (* a a) (* b b)) a) => 1 1",
    "(f (+ (* a a) (* b b)) a) => 1 1",
    "(let ((p (+ (* a a) (* b b))) (q a)) p) => 1 1",
    "(merge-e (+ (* a a) (* b b)) a) => 0 1",
    "(if (+ (* a a) (* b b)) a b) => 1 1",
    "(for/fold ((s (+ (* a a) (* b b)))) ((t a)) b) => 1 1",
    "(map-e (lambda (v) b) (+ (* a a) (* b b))) => 0 1",
    "(collect-b (+ (* a a) (* b b)) a (lambda (v s) s)) => 0 1",
    "(let ((p a)) (+ (* a a) (* b b))) => 1 1",
    "(if a b (+ (* a a) (* b b))) => 1 1",
    "(for/fold ((s a)) ((t b)) (+ (* a a) (* b b))) => 1 1",
    "(repeat (s a) b (+ (* a a) (* b b))) => 1 1",
    "(map-e (lambda (v) (+ (* a a) (* b b))) a) => 0 1",
    "(filter-e (lambda (v) (+ (* a a) (* b b))) a) => 0 1",
    "(collect-b a b (lambda (v s) (+ (* a a) (* b b)))) => 0 1",
    "(collect-e a b (lambda (v s) (+ (* a a) (* b b)))) => 0 1",
    "(abs (delay a b) a) => 0 1",
    "(f (delay a b) a) => 0 1",
    "(let ((p (delay a b)) (q a)) p) => 0 1",
    "(merge-e (delay a b) a) => 0 1",
    "(if (delay a b) a b) => 0 1",
    "(for/fold ((s (delay a b))) ((t a)) b) => 0 1",
    "(map-e (lambda (v) b) (delay a b)) => 0 1",
    "(collect-b (delay a b) a (lambda (v s) s)) => 0 1",
    "(let ((p a)) (delay a b)) => 0 1",
    "(if a b (delay a b)) => 0 1",
];

fn caller(alloc: Global, next: u32) -> Result<Function, AllocError> {
    Ok(Function {
        name: Symbol::from_str(alloc, "f")?,
        params: 0,
        body: Core::Apply(FunId(next), Items::new(alloc)),
    })
}

/// Functions of which each calls the next, and the last one that isn't there.
fn chain(alloc: Global, length: u32) -> Result<Items<Function>, AllocError> {
    let mut functions = Items::new(alloc);
    for next in 0..length {
        functions.push(caller(alloc, next.wrapping_add(1))?)?;
    }
    Ok(functions)
}

fn has_none(program: &Program, classes: &Classes) -> bool {
    classes.closed.len() == program.functions.as_slice().len()
        && !classes.closed.contains(&true)
        && !classes.pure.contains(&true)
}

/// Whether none of the functions of a chain is closed.
fn is_open(alloc: Global, length: u32) -> Result<bool, AllocError> {
    let program = Program {
        inputs: Items::new(alloc),
        events: Items::new(alloc),
        functions: chain(alloc, length)?,
        body: Items::new(alloc),
    };
    match classify(alloc, &program) {
        Ok(classes) => Ok(has_none(&program, &classes)),
        Err(e) => Err(e),
    }
}

#[test]
fn callers_of_a_function_that_is_not_there_are_not_closed(
    rt: HostRuntime,
) -> Result<(), AllocError> {
    assert!(rt; is_open(rt.alloc(), 1)?);
    assert!(rt; is_open(rt.alloc(), 50_000)?);
    Ok(())
}
