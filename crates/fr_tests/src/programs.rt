ghost use Rattle.fr_core.specs.WellFormed.{IsWellFormed};

use crate::calls::{Call, Lines, tells};
use crate::errors::tell_error;
use crate::kernels::tell_kernel;
use crate::purity::{tell_classes, tell_fitness};
use crate::scripts::tell_turns;
use crate::told::Told;
use fr_core::{Program, core_text};
use fr_show::accept;
use std::alloc::{AllocError, Global};

/// The names before a shown expression: `x`, `a`, `b`, `c`, `n` and `xs` are the sources 1 to 6, `e` is 7, `f` is the
/// function 0 and `d` the variable 0.
pub(crate) const NAMES: &str =
    "(define-input x 0)(define-input a 0)(define-input b 0)(define-input c 0)(define-input n 0)\
    (define-input xs ())(define-event e)(define (f v) v)(define d 3)";

/// The text of the names.
const NAMES_TOLD: &str =
    "(input 1 x 0)\n(input 2 a 0)\n(input 3 b 0)\n(input 4 c 0)\n(input 5 n 0)\n(input 6 xs ())\n\
    (event 7 e)\n(function f 1 (var 0))\n(define (lit 3))\n";

fn tell_core(alloc: Global, out: &mut Told, program: &Program) {
    match core_text(alloc, program) {
        Ok(text) => out.bytes(&text),
        Err(_) => out.lacks(),
    }
}

/// The text of the program without that of the names.
fn tell_shown(alloc: Global, out: &mut Told, program: &Program) {
    match core_text(alloc, program) {
        Ok(text) => out.bytes(text.get(NAMES_TOLD.len()..).unwrap_or(b"")),
        Err(_) => out.lacks(),
    }
}

fn tell_program(alloc: Global, out: &mut Told, call: Call, program: Program)
    requires { IsWellFormed program }
{
    match call {
        Call::Error(script) => tell_error(alloc, out, program, script),
        Call::Turns(first, second, third) => {
            tell_turns(alloc, out, &program, [first, second, third]);
        }
        Call::Classes => tell_classes(alloc, out, &program),
        Call::Fitness => tell_fitness(alloc, out, &program),
        Call::Kernel(nest, left) => tell_kernel(alloc, out, &program, false, nest, left),
        Call::Looped(nest, left) => tell_kernel(alloc, out, &program, true, nest, left),
        Call::Shown => tell_shown(alloc, out, &program),
        _ => tell_core(alloc, out, &program),
    }
}

/// What is told of the program that a text is.
pub(crate) fn tell_text(alloc: Global, out: &mut Told, call: Call, text: &[u8]) {
    match accept(alloc, text) {
        Ok(program) => tell_program(alloc, out, call, program),
        Err(_) => out.word("refused"),
    }
}

/// Some forms, and a show `y` of an expression.
fn shown(alloc: Global, forms: &str, text: &[u8]) -> Result<Vec<u8>, AllocError> {
    let mut whole = Vec::from_slice(alloc, forms.as_bytes())?;
    whole.extend_from_slice(b"(show y ")?;
    whole.extend_from_slice(text)?;
    whole.push(b')')?;
    Ok(whole)
}

/// What is told of a program of some forms and a show `y` of an expression.
pub(crate) fn tell_behind(alloc: Global, out: &mut Told, call: Call, forms: &str, text: &[u8]) {
    match shown(alloc, forms, text) {
        Ok(whole) => tell_text(alloc, out, call, &whole),
        Err(_) => out.lacks(),
    }
}

/// Programs and their core texts.
pub(crate) const FORMS: Lines = &[
    "(define-input x -5)(define-event e)(define (f a) (+ a x))(define d 3)(show y d) => \
        (input 1 x -5)\n\
        (event 2 e)\n\
        (function f 1 (prim + (var 0) (source 1)))\n\
        (define (lit 3))\n\
        (show y (var 0))\n",
    "(define-input x -1) => (input 1 x -1)\n",
    "(define-input x (if #t () \"a\")) => (input 1 x (if #t () \"a\"))\n",
    "(define-event hit) => (event 1 hit)\n",
    "(define (f a b) (+ a b 2)) => (function f 2 (prim + (var 0) (var 1) (lit 2)))\n",
    "(define (f) 1) => (function f 0 (lit 1))\n",
    "(define x (f))(define (f) 1) => (function f 0 (lit 1))\n(define (call 0))\n",
    "(show x #f) => (show x (lit #f))\n",
];

/// Expressions behind the names, and the core text of their show, with the parts in their order.
pub(crate) const EXPRESSIONS: Lines = &[
    "7 => (show y (lit 7))\n",
    "#t => (show y (lit #t))\n",
    "\"a\" => (show y (lit \"a\"))\n",
    "x => (show y (source 1))\n",
    "(quote (a 1)) => (show y (lit (a 1)))\n",
    "(quote x) => (show y (lit x))\n",
    "(if a 1 c) => (show y (if (source 2) (lit 1) (source 4)))\n",
    "(let ((x 1) (y a)) (f x)) => (show y (let (lit 1) (source 2) (call 0 (var 1))))\n",
    "(let () b) => (show y (let (source 3)))\n",
    "(let* ((x 1) (x x)) b) => (show y (let (lit 1) (let (var 1) (source 3))))\n",
    "(cond (a 1) ((f) 2) (else 3)) => (show y (if (source 2) (lit 1) (if (call 0) (lit 2) (lit 3))))\n",
    "(cond (else x)) => (show y (source 1))\n",
    "(and) => (show y (lit #t))\n",
    "(and a) => (show y (source 2))\n",
    "(or a 2 c) => (show y (let (source 2) (if (var 1) (var 1) (let (lit 2) (if (var 2) (var 2) (source 4))))))\n",
    "(or) => (show y (lit #f))\n",
    "(for/fold ((a 0)) ((x xs)) (+ a x)) => (show y (fold (lit 0) (source 6) (prim + (var 1) (var 2))))\n",
    "(repeat (a 0) n (f a)) => (show y (repeat (lit 0) (source 5) (call 0 (var 1))))\n",
    "(map-e (lambda (v) (f v)) e) => (show y (map-e (source 7) (call 0 (var 1))))\n",
    "(filter-e (lambda (v) #t) e) => (show y (filter-e (source 7) (lit #t)))\n",
    "(merge-e a b) => (show y (merge-e (source 2) (source 3)))\n",
    "(merge-e a b c) => (show y (merge-e (source 2) (source 3) (source 4)))\n",
    "(hold e 0) => (show y (hold (source 7) (lit 0)))\n",
    "(collect-b e 0 (lambda (v a) (+ v a))) => (show y (collect-b (source 7) (lit 0) (prim + (var 1) (var 2))))\n",
    "(collect-e e 0 (lambda (v a) a)) => (show y (collect-e (source 7) (lit 0) (var 2)))\n",
    "(changes b) => (show y (changes (source 3)))\n",
    "(once-e e) => (show y (once-e (source 7)))\n",
    "(delay 0 b) => (show y (delay (lit 0) (source 3)))\n",
    "(delay-e e) => (show y (delay-e (source 7)))\n",
    "(feedback (x 0) (+ x 1)) => (show y (feedback (lit 0) (prim + (var 1) (lit 1))))\n",
    "(f) => (show y (call 0))\n",
    "(f (f x) 1) => (show y (call 0 (call 0 (source 1)) (lit 1)))\n",
    "(let ((p d) (q c)) 1) => (show y (let (var 0) (source 4) (lit 1)))\n",
    "(f d c) => (show y (call 0 (var 0) (source 4)))\n",
    "(+ d c) => (show y (prim + (var 0) (source 4)))\n",
    "(merge-e d c) => (show y (merge-e (var 0) (source 4)))\n",
    "(changes 1) => (show y (changes (lit 1)))\n",
    "(once-e 1) => (show y (once-e (lit 1)))\n",
    "(delay-e 1) => (show y (delay-e (lit 1)))\n",
    "(map-e (lambda (v) 2) 1) => (show y (map-e (lit 1) (lit 2)))\n",
    "(filter-e (lambda (v) 2) 1) => (show y (filter-e (lit 1) (lit 2)))\n",
    "(hold 1 2) => (show y (hold (lit 1) (lit 2)))\n",
    "(delay 1 2) => (show y (delay (lit 1) (lit 2)))\n",
    "(feedback (v 1) 2) => (show y (feedback (lit 1) (lit 2)))\n",
    "(if 1 2 3) => (show y (if (lit 1) (lit 2) (lit 3)))\n",
    "(for/fold ((v 1)) ((w 2)) 3) => (show y (fold (lit 1) (lit 2) (lit 3)))\n",
    "(repeat (v 1) 2 3) => (show y (repeat (lit 1) (lit 2) (lit 3)))\n",
    "(collect-b 1 2 (lambda (v w) 3)) => (show y (collect-b (lit 1) (lit 2) (lit 3)))\n",
    "(collect-e 1 2 (lambda (v w) 3)) => (show y (collect-e (lit 1) (lit 2) (lit 3)))\n",
];

#[test]
fn names_have_their_core_text(rt: HostRuntime) {
    assert!(rt; tells(rt.alloc(), Call::Core, NAMES.as_bytes(), NAMES_TOLD));
}
