ghost use Rattle.std.specs.Prelude.{IfSome};
ghost use Rattle.fr_core.specs.Classes.{IsFit};

use crate::calls::Lines;
use crate::told::Told;
use fr_core::{Low, LowItem, Lowered, Program};
use fr_expand::expand;
use fr_lower::{lower, plain};
use fr_purity::classify;
use fr_show::read_forms;
use std::alloc::{AllocError, Global};

/// How many regions are computed as a whole, and at how many places a test is a site.
#[derive(Clone, Copy)]
struct Found {
    regions: u64,
    sites: u64,
}

fn look(found: &mut Found, e: &Low) {
    match e {
        Low::Collapse(_, _) => found.regions = found.regions.saturating_add(1),
        Low::If(_, _, _, _) => found.sites = found.sites.saturating_add(1),
        _ => {}
    }
    let mut number = 0;
    while let Some(part) = e.part(number) {
        look(found, part);
        number += 1;
    }
}

fn tell_found(out: &mut Told, lowered: &Lowered) {
    let mut found = Found {
        regions: 0,
        sites: 0,
    };
    for function in lowered.functions.as_slice() {
        look(&mut found, &function.body);
    }
    for item in lowered.body.as_slice() {
        match item {
            LowItem::Define(e) | LowItem::Show(_, e) => look(&mut found, e),
        }
    }
    out.number(found.regions);
    out.number(found.sites);
}

/// The program that a text is, whose handlers and loops have pure bodies.
fn fit_program(alloc: Global, text: &[u8]) -> Option<Program>
    ensures { IfSome result IsFit }
{
    match read_forms(alloc, text) {
        Ok(forms) => match expand(alloc, &forms) {
            Ok(program) => Some(program),
            Err(_) => None,
        },
        Err(_) => None,
    }
}

fn tell_both(alloc: Global, out: &mut Told, program: &Program) -> Result<(), AllocError>
    requires { IsFit program.now }
{
    let (unlowered, _) = plain(alloc, program)?;
    tell_found(out, &unlowered);
    let classes = classify(alloc, program)?;
    let (lowered, _) = lower(alloc, program, &classes)?;
    tell_found(out, &lowered);
    Ok(())
}

/// How many regions and sites the program has that a text is, by `plain` and by `lower`.
pub(crate) fn tell_lowered(alloc: Global, out: &mut Told, text: &[u8]) {
    match fit_program(alloc, text) {
        Some(program) => {
            if tell_both(alloc, out, &program).is_err() {
                out.lacks();
            }
        }
        None => out.word("refused"),
    }
}

/// Programs, and how many regions and sites each has by `plain` and then by `lower`. A region is a compound pure expression that is no
/// part of a larger one and in no body of a handler or loop; a site is an `if` outside such bodies and regions.
pub(crate) const LOWERED: Lines = &[
    "(define (f a b) (+ (* a a) (* b b)))(define-input x 1)(define-input y 2)(show r (f x y)) => 0 0 2 0",
    "(define-event e)(show r (if (hold e #t) (+ 1 2) (if #t 1 2))) => 0 2 2 1",
    "(define-event e)(show r (map-e (lambda (v) (if v (+ v 1) 2)) e)) => 0 0 0 0",
    "(show r (for/fold ((a (if #t 1 2))) ((i (quote (1)))) (if #t i a))) => 0 1 1 0",
    "(define-event e)(show r (collect-b e (+ 1 2) (lambda (v a) (+ v a)))) => 0 0 1 0",
    "(define x (+ 1 2))(show r x) => 0 0 1 0",
];
