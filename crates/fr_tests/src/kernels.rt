ghost use Rattle.std.specs.Prelude.{◌≡◌, ◌+◌, ◌∷◌, [], IfOk, OnOk, IsTrue, length};
ghost use Rattle.fr_core.specs.Classes.{IsPureExpr};
ghost use Rattle.fr_kernel.specs.Kernels.{kernel_for};
ghost use Rattle.fr_kernel.specs.Slots.{slots_of};

use crate::calls::{Call, Row, wrong};
use crate::told::Told;
use fr_core::{Core, Item, Loop, Program, Slot};
use fr_kernel::{Fuel, KernStop, KernTable, Machine, run_fold, run_kern, run_repeat};
use fr_purity::{classify, is_pure};
use fr_value::{KernId, Now, SrcId, Value};
use sqlite_items::Items;
use std::alloc::{AllocError, Global};

/// The names before a shown expression: the variable 0 is 5, `x` and `l` are the sources 1 and 2, and the event `e`
/// doesn't occur.
pub(crate) const NAMES: &str =
    "(define-input x 3)(define-input l (1 2 3))(define-event e)(define (f n) (+ n 1))\
    (define (count n) (if (= n 0) 0 (count (- n 1))))(define d 5)";

fn bound() -> Now {
    Now::Plain(Value::Int(5))
}

fn source_value(program: &Program, source: SrcId) -> Result<Now, AllocError> {
    for input in program.inputs.as_slice() {
        if input.source.0 == source.0 {
            return Ok(Now::Plain(input.first.share()?));
        }
    }
    Ok(Now::Occ(None))
}

/// The value of a literal, a source or the variable 0.
fn leaf_value(program: &Program, leaf: &Core) -> Result<Now, AllocError> {
    match leaf {
        Core::Lit(value) => Ok(Now::Plain(value.share()?)),
        Core::Source(source) => source_value(program, *source),
        _ => Ok(bound()),
    }
}

/// Puts the values of slots behind others.
fn push_values(values: &mut Items<Now>, program: &Program, slots: &[Slot]) -> Result<(), AllocError>
    ensures { OnOk result (length values.new ≡ length values.old + length slots.now) }
{
    for slot in slots {
        values.push(match slot {
            Slot::Var(_) => bound(),
            Slot::Source(source) => source_value(program, *source)?,
        })?;
    }
    Ok(())
}

/// A table with the kernel of an expression alone.
fn table_of(
    alloc: Global,
    program: &Program,
    expr: &Core,
    first: u32,
    params: u32,
) -> Result<(KernTable, KernId, Items<Slot>), AllocError>
    requires pure { IsPureExpr program.now expr.now }
    ensures table { IfOk result (λ made. made.0.kernels ≡ kernel_for first params expr.now ∷ []) }
    ensures number { IfOk result (λ made. made.1.0 ≡ 0) }
    ensures slots { IfOk result (λ made. made.2 ≡ slots_of first expr.now) }
{
    let mut table = KernTable::new(alloc, program)?;
    let (id, slots) = table.add(alloc, expr, first, params)?;
    Ok((table, id, slots))
}

/// What the kernel of an expression gives whose parameter is the variable 0.
fn kernel_gives(
    alloc: Global,
    program: &Program,
    expr: &Core,
    nest: u32,
    fuel: &mut Fuel,
) -> Result<Result<Now, KernStop>, AllocError>
    requires pure { IsPureExpr program.now expr.now }
{
    let (table, id, slots) = table_of(alloc, program, expr, 0, 1)?;
    let mut inputs = Items::new(alloc);
    inputs.push(bound())?;
    push_values(&mut inputs, program, slots.as_slice())?;
    let mut machine = Machine::new(alloc);
    Ok(run_kern(
        alloc,
        &table,
        id,
        inputs.as_slice(),
        nest,
        &mut machine,
        fuel,
    ))
}

/// What a loop gives over the values of its two parts and the kernel of its body, which reads the variable 0.
fn loop_gives(
    alloc: Global,
    program: &Program,
    looped: Loop,
    parts: (&Core, &Core),
    body: &Core,
    nest: u32,
    fuel: &mut Fuel,
) -> Result<Result<Now, KernStop>, AllocError>
    requires pure { IsPureExpr program.now body.now }
{
    let mut inputs = Items::new(alloc);
    inputs.push(leaf_value(program, parts.0)?)?;
    inputs.push(leaf_value(program, parts.1)?)?;
    let mut machine = Machine::new(alloc);
    match looped {
        Loop::Fold => {
            let (table, id, slots) = table_of(alloc, program, body, 1, 2)?;
            push_values(&mut inputs, program, slots.as_slice())?;
            Ok(run_fold(
                alloc,
                &table,
                id,
                inputs.as_slice(),
                nest,
                &mut machine,
                fuel,
            ))
        }
        Loop::Repeat => {
            let (table, id, slots) = table_of(alloc, program, body, 1, 1)?;
            push_values(&mut inputs, program, slots.as_slice())?;
            Ok(run_repeat(
                alloc,
                &table,
                id,
                inputs.as_slice(),
                nest,
                &mut machine,
                fuel,
            ))
        }
    }
}

fn tell_answer(out: &mut Told, answer: &Result<Result<Now, KernStop>, AllocError>, fuel: &Fuel) {
    match answer {
        Ok(Ok(Now::Plain(value))) => {
            out.value(value);
            out.number(fuel.left);
        }
        Ok(Ok(Now::Occ(None))) => out.word("none"),
        Ok(Ok(Now::Occ(Some(payload)))) => out.value(payload),
        Ok(Err(KernStop::Bad(bad))) => out.bad(*bad),
        Ok(Err(KernStop::Fuel)) => out.word("Fuel"),
        Ok(Err(KernStop::Memory(_))) | Err(_) => out.lacks(),
    }
}

/// What is told of a kernel of a shown expression, or of a loop over the kernel of its body, at a nest with so much fuel:
/// its value and what is left, or why there is none.
pub(crate) fn tell_kernel(
    alloc: Global,
    out: &mut Told,
    program: &Program,
    by_body: bool,
    nest: u32,
    left: u64,
) {
    if let Some(Item::Show(_, expr)) = program.body.as_slice().last() {
        let mut fuel = Fuel { left };
        if by_body {
            tell_loop(alloc, out, program, expr, nest, &mut fuel);
        } else {
            tell_whole(alloc, out, program, expr, nest, &mut fuel);
        }
    }
}

fn is_pure_here(alloc: Global, program: &Program, expr: &Core) -> bool
    ensures { IsTrue result → IsPureExpr program.now expr.now }
{
    match classify(alloc, program) {
        Ok(classes) => is_pure(program, &classes, expr),
        Err(_) => false,
    }
}

fn tell_whole(
    alloc: Global,
    out: &mut Told,
    program: &Program,
    expr: &Core,
    nest: u32,
    fuel: &mut Fuel,
) {
    if is_pure_here(alloc, program, expr) {
        let answer = kernel_gives(alloc, program, expr, nest, fuel);
        tell_answer(out, &answer, fuel);
    }
}

fn tell_loop(
    alloc: Global,
    out: &mut Told,
    program: &Program,
    expr: &Core,
    nest: u32,
    fuel: &mut Fuel,
) {
    if let Core::Loop(looped, parts, body) = expr {
        let body = body.get();
        if let [first, over] = parts.as_slice() {
            if is_pure_here(alloc, program, body) {
                let answer = loop_gives(alloc, program, *looped, (first, over), body, nest, fuel);
                tell_answer(out, &answer, fuel);
            }
        }
    }
}

const KERNELS: &[Row] = &[
    (Call::Kernel(1, 9), "'(1 a)", "(1 a) 9"),
    (Call::Kernel(1, 9), "d", "5 9"),
    (Call::Kernel(1, 9), "x", "3 9"),
    (Call::Kernel(1, 9), "e", "none"),
    (Call::Kernel(1, 9), "(- (- x d) (- d x) (length l))", "-7 9"),
    (
        Call::Kernel(1, 9),
        "(list (+ 1 2 3) (* 2 3 4) (- 9 4) (quotient -7 2) (remainder -7 2) (modulo -7 2) (abs -3) (min 3 1 2) (max 3 1 2))",
        "(6 24 5 -3 -1 1 3 1 3) 9",
    ),
    (
        Call::Kernel(1, 9),
        "(list (= 1 1) (< 1 2) (> 1 2) (<= 2 2) (>= 1 2) (zero? 0) (positive? -1) (negative? -1) (even? 3) (odd? 3))",
        "(#t #t #f #t #f #t #f #t #f #t) 9",
    ),
    (
        Call::Kernel(1, 9),
        "(list (not #f) (equal? '(1 a) '(1 a)) (integer? 1) (boolean? 1) (symbol? 'a) (string? \"a\") (list? '()) (null? '()) (pair? '()))",
        "(#t #t #t #f #t #t #t #t #f) 9",
    ),
    (
        Call::Kernel(1, 9),
        "(list (cons 1 '(2)) (car '(1 2)) (cdr '(1 2)) (length '(1 2)) (append '(1) '(2)) (reverse '(1 2)) (list-ref '(1 2) 1) (list))",
        "((1 2) 1 (2) 2 (1 2) (2 1) 2 ()) 9",
    ),
    (
        Call::Kernel(1, 9),
        "(list (string-length \"ab\") (string-append \"a\" \"b\") (string=? \"a\" \"b\") (symbol->string 'a) (number->string 12))",
        "(2 \"ab\" #f \"a\" \"12\") 9",
    ),
    (Call::Kernel(1, 9), "(+ 9223372036854775807 1)", "Range"),
    (Call::Kernel(1, 9), "(quotient d 0)", "Zero"),
    (Call::Kernel(1, 9), "(+ 1 e)", "WrongType"),
    (Call::Kernel(1, 9), "(not 1 2)", "Arity"),
    (Call::Kernel(1, 9), "(if x 1 (raise 0))", "1 9"),
    (Call::Kernel(1, 9), "(if #f (raise 0) 2)", "2 9"),
    (Call::Kernel(1, 9), "(if e 1 2)", "WrongType"),
    (Call::Kernel(1, 9), "(if (car '()) 1 2)", "Empty"),
    (
        Call::Kernel(1, 9),
        "(let ((a x) (b d)) (list a b (- b a)))",
        "(3 5 2) 9",
    ),
    (Call::Kernel(1, 9), "(let ((a (raise 1))) 4)", "Raised"),
    (Call::Kernel(1, 9), "(* (f d) (f x))", "24 7"),
    (Call::Kernel(1, 3), "(count 2)", "0 0"),
    (Call::Kernel(1, 2), "(count 2)", "Fuel"),
    (
        Call::Kernel(1, 9),
        "(for/fold ((a 0)) ((i l)) (+ (* a d) (f i)))",
        "69 3",
    ),
    (Call::Kernel(1, 9), "(repeat (a d) x (* a 2))", "40 6"),
    (Call::Kernel(1, 2), "(repeat (a d) x (* a 2))", "Fuel"),
    (
        Call::Kernel(1, 9),
        "(for/fold ((a 0)) ((i d)) i)",
        "WrongType",
    ),
    (Call::Kernel(2000, 9), "x", "3 9"),
    (Call::Kernel(2000, 9), "(f x)", "Deep"),
    (Call::Kernel(2001, 9), "x", "Deep"),
];

#[test]
fn kernels_give_value_and_cost(rt: HostRuntime) {
    assert_eq!(rt; wrong(rt.alloc(), KERNELS), 0);
}

const LOOPS: &[Row] = &[
    (
        Call::Looped(1, 9),
        "(for/fold ((a 0)) ((i l)) (- i a))",
        "2 6",
    ),
    (
        Call::Looped(1, 9),
        "(for/fold ((a x)) ((i l)) (+ (* a d) (- i x)))",
        "320 6",
    ),
    (
        Call::Looped(1, 9),
        "(for/fold ((a 0)) ((i l)) (+ a (f i)))",
        "9 3",
    ),
    (
        Call::Looped(1, 9),
        "(for/fold ((a x)) ((i '())) (raise i))",
        "3 9",
    ),
    (
        Call::Looped(1, 9),
        "(for/fold ((a 0)) ((i x)) a)",
        "WrongType",
    ),
    (
        Call::Looped(1, 9),
        "(for/fold ((a 1)) ((i '(1 0))) (quotient a i))",
        "Zero",
    ),
    (Call::Looped(1, 9), "(repeat (a 1) x (* a d))", "125 6"),
    (Call::Looped(1, 3), "(repeat (a 1) x (* a d))", "125 0"),
    (Call::Looped(1, 2), "(repeat (a 1) x (* a d))", "Fuel"),
    (Call::Looped(1, 9), "(repeat (a 0) -1 a)", "Range"),
    (Call::Looped(1, 9), "(repeat (a 0) l a)", "WrongType"),
    (Call::Looped(1999, 9), "(repeat (a x) 2 a)", "3 7"),
    (Call::Looped(2000, 9), "(repeat (a x) 2 a)", "Deep"),
];

#[test]
fn loops_give_value_and_cost(rt: HostRuntime) {
    assert_eq!(rt; wrong(rt.alloc(), LOOPS), 0);
}
