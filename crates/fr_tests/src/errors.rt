ghost use Rattle.std.specs.Prelude.{◌≤◌, IfOk, IfSome};
ghost use Rattle.fr_core.specs.WellFormed.{IsWellFormed};
ghost use Rattle.fr_core.specs.Sets.{greatest_time};
ghost use Rattle.fr_afresh.specs.Stands.{evaluated_program};

use crate::calls::{Call, Lines, is_told, wrong_line};
use crate::told::Told;
use fr_afresh::{Afresh, AfreshStop, FirstBad};
use fr_core::{Inputs, Path, Program, Sets};
use fr_script::{ScriptReader, Turn};
use std::alloc::{AllocError, Global};

/// The greatest time of a script's line.
const MOST_TIME: u64 = 9_223_372_036_854_775_807;

/// The parts of a path with points between them; of a long one only how many they are.
fn tell_path(out: &mut Told, path: &Path) {
    if path.len() > 9 {
        out.number(path.len() as u64);
        out.word("parts");
        return;
    }
    for step in 0..path.len() {
        out.end(if step == 0 { " " } else { "." });
        out.digits(path.part(step).unwrap_or(0) as u64);
    }
}

/// `TIME: PATH KIND`.
fn tell_first(out: &mut Told, error: &FirstBad) {
    out.digits(error.time);
    out.end(":");
    tell_path(out, &error.path);
    out.bad(error.bad);
}

fn tell_stop(out: &mut Told, stop: &AfreshStop) {
    match stop {
        AfreshStop::First(error) => tell_first(out, error),
        AfreshStop::Memory(_) => out.lacks(),
    }
}

/// The next instant of a reader, where its time is in range.
fn instant_of(reader: &mut ScriptReader) -> Result<Option<Inputs>, AllocError>
    ensures { IfOk result (λ next. IfSome next (λ i. i.time ≤ greatest_time)) }
{
    match reader.next() {
        Ok(Turn::Instant(inputs)) if inputs.time <= MOST_TIME => Ok(Some(inputs)),
        Ok(_) => Ok(None),
        Err(e) => Err(e),
    }
}

/// The stop at the instants that a reader still gives, of which there are at most ten.
fn stop_behind(mut at: Afresh, reader: &mut ScriptReader) -> Option<AfreshStop>
    requires well_formed { IsWellFormed (evaluated_program at) }
{
    'instants: for _ in 0..10 {
        match instant_of(reader) {
            Ok(Some(inputs)) => match at.instant(&inputs) {
                Ok(next) => at = next,
                Err(stop) => return Some(stop),
            },
            Ok(None) => return None,
            Err(e) => return Some(AfreshStop::Memory(e)),
        }
    }
    None
}

/// The stop of a program at instant 0 or over the instants that a reader gives.
fn stop_over(alloc: Global, program: Program, reader: &mut ScriptReader) -> Option<AfreshStop>
    requires well_formed { IsWellFormed program }
{
    let first = Inputs {
        time: 0,
        sets: Sets::new(alloc),
    };
    match Afresh::start(alloc, program, &first) {
        Ok(at) => stop_behind(at, reader),
        Err(stop) => Some(stop),
    }
}

/// A reader of a whole script for a program.
fn reader_of(alloc: Global, program: &Program, script: &str) -> Result<ScriptReader, AllocError> {
    let mut reader = ScriptReader::new(alloc, program)?;
    match reader.feed(script.as_bytes()) {
        Ok(()) => {
            reader.end();
            Ok(reader)
        }
        Err(e) => Err(e),
    }
}

fn tell_over(alloc: Global, out: &mut Told, program: Program, reader: &mut ScriptReader)
    requires well_formed { IsWellFormed program }
{
    match stop_over(alloc, program, reader) {
        Some(stop) => tell_stop(out, &stop),
        None => out.word("none"),
    }
}

/// The first error of a program over a script of at most ten instants.
pub(crate) fn tell_error(alloc: Global, out: &mut Told, program: Program, script: &str)
    requires well_formed { IsWellFormed program }
{
    match reader_of(alloc, &program, script) {
        Ok(mut reader) => tell_over(alloc, out, program, &mut reader),
        Err(_) => out.lacks(),
    }
}

/// Programs over an empty script, and the time, the path and the kind of the first error.
const ERRORS: Lines = &[
    "(define a (car '()))(show b 1) => 0: 0 Empty",
    "(show a (car '()))(show b (quotient 1 0)) => 0: 0 Empty",
    "(show a (let ((y (car '())) (z (quotient 1 0))) 1)) => 0: 0.0 Empty",
    "(show a (let ((y 1) (z (quotient 1 0))) (car y))) => 0: 0.1 Zero",
    "(show a (let ((y 1)) (car y))) => 0: 0.1 WrongType",
    "(show a (if (car '()) 1 2)) => 0: 0.0 Empty",
    "(show a (if 0 (car '()) 1)) => 0: 0.1 Empty",
    "(show a (if #f 1 (car '()))) => 0: 0.2 Empty",
    "(define-event e)(show a (if e 1 2)) => 0: 0 WrongType",
    "(define (f a) a)(show r (f 1 2)) => 0: 0 Arity",
    "(define (f a) 1)(show r (f (car '()))) => 0: 0.0 Empty",
    "(define (f a) (car a))(show r (f '())) => 0: 0.1 Empty",
    "(define-event e)(show a (+ 1 e)) => 0: 0 WrongType",
    "(define-event e)(show a (not e e)) => 0: 0 WrongType",
    "(show a (not 1 2)) => 0: 0 Arity",
    "(show a (+ (car '()) (quotient 1 0))) => 0: 0.0 Empty",
    "(show a (+ 9223372036854775807 1)) => 0: 0 Range",
    "(show a (raise 1)) => 0: 0 Raised",
    "(show s (for/fold ((a 0)) ((x 5)) a)) => 0: 0 WrongType",
    "(show s (for/fold ((a 12)) ((x '(2 0 3))) (quotient a x))) => 0: 0.2.1 Zero",
    "(show s (for/fold ((a (car '()))) ((x '(1))) a)) => 0: 0.0 Empty",
    "(show s (for/fold ((a 0)) ((x (car '()))) a)) => 0: 0.1 Empty",
    "(show p (repeat (a 1) -1 a)) => 0: 0 Range",
    "(show p (repeat (a 1) 1048577 a)) => 0: 0 Range",
    "(show p (repeat (a 1) \"x\" a)) => 0: 0 WrongType",
    "(show p (repeat (a 2) 5 (quotient 1 (- a 1)))) => 0: 0.2.1 Zero",
    "(show m (map-e (lambda (v) v) 5)) => 0: 0 NotEvent",
    "(show m (map-e (lambda (v) v) (car '()))) => 0: 0.0 Empty",
    "(show f (filter-e (lambda (v) #t) 1)) => 0: 0 NotEvent",
    "(define-event a)(show m (merge-e a 1)) => 0: 0 NotEvent",
    "(show m (merge-e (car '()) (quotient 1 0))) => 0: 0.0 Empty",
    "(define-event e)(define-event d)(show h (hold e d)) => 0: 0 NotData",
    "(define-event d)(show h (hold 1 d)) => 0: 0 NotEvent",
    "(show c (collect-b 1 0 (lambda (v a) a))) => 0: 0 NotEvent",
    "(define-event e)(show c (collect-b e e (lambda (v a) a))) => 0: 0 NotData",
    "(show c (collect-e 1 0 (lambda (v a) a))) => 0: 0 NotEvent",
    "(define-event e)(show c (changes e)) => 0: 0 NotData",
    "(show c (changes (car '()))) => 0: 0.0 Empty",
    "(show o (once-e 5)) => 0: 0 NotEvent",
    "(define-event e)(show p (delay 0 e)) => 0: 0 NotData",
    "(define-event e)(show p (+ (delay 0 e) (car '()))) => 0: 0.0 NotData",
    "(define-event e)(show p (delay e 0)) => 0: 0 NotData",
    "(show p (delay 0 (car '()))) => 0: 0.1 Empty",
    "(show d (delay-e 5)) => 0: 0 NotEvent",
    "(show d (delay-e (car '()))) => 0: 0.0 Empty",
    "(define-event e)(show f (feedback (n 0) e)) => 0: 0 NotData",
    "(define-event e)(show f (feedback (n e) (car '()))) => 0: 0.1 Empty",
    "(define-event e)(show f (feedback (n e) 1)) => 0: 0 NotData",
    "(show f (feedback (n (car '())) 1)) => 0: 0.0 Empty",
    "(define (f n) (f n))(show y (f 1)) => 0: 2001 parts Deep",
    "(define (f n) (if #t (f n) n))(show y (f 1)) => 0: 2001 parts Deep",
    "(define (f n) (feedback (m 0) (f m)))(show y (f 1)) => 0: 2001 parts Deep",
    "(define (f n) (let ((a n)) (for/fold ((acc a)) ((x '(1))) (f acc))))(show y (f 1)) => 0: 2667 parts Deep",
    "(show v (let ((s (repeat (s \"a\") 19 (string-append s s)))) (string-append s s))) => 0: 0.1 TooBig",
    "(show v (let ((s (repeat (s \"a\") 19 (string-append s s)))) (list s s))) => 0: 0.1 TooBig",
    "(show v (let ((s (repeat (s \"a\") 19 (string-append s s)))) (append (list s) (list s)))) => 0: 0.1 TooBig",
    "(show v (let ((s (repeat (s \"a\") 19 (string-append s s)))) (cons s (list s)))) => 0: 0.1 TooBig",
];

/// Scripts, programs behind ` | `, and their first error.
const OVER_SCRIPTS: Lines = &[
    "1 e (7)\n2 e () | (define-event e)(show m (map-e (lambda (v) (car v)) e)) => 2: 0.1 Empty",
    "1 b 1\n2 a 1 | (define-event a)(define-event b)(show m (map-e (lambda (v) b) a)) => 2: 0 NotData",
    "1 a 1 | (define-event a)(define-event b)(show f (filter-e (lambda (v) b) a)) => 1: 0 WrongType",
    "1 e a | (define-event e)(show f (filter-e (lambda (v) (zero? v)) e)) => 1: 0.1 WrongType",
    "1 i 0 | (define-event e)(define-input i 5)(show h (hold e (quotient 10 i))) => 1: 0.1 Zero",
    "1 e 5\n2 e 0 | (define-event e)(show c (collect-b e 10 (lambda (v a) (quotient a v)))) => 2: 0.2 Zero",
    "1 a 1 | (define-event a)(define-event b)(show c (collect-b a 0 (lambda (v s) b))) => 1: 0 NotData",
    "1 e 5\n2 e 0 | (define-event e)(show c (collect-e e 10 (lambda (v a) (quotient a v)))) => 2: 0.2 Zero",
    "1 x 2 | (define-input x 1)(show y (+ x 1)) => none",
];

/// The first of these lines of which something else is told, if there is one.
fn wrong_over_script(alloc: Global) -> Option<&'static str> {
    for line in OVER_SCRIPTS {
        match line.split_once(" | ") {
            Some((script, row)) if is_told(alloc, Call::Error(script), row) => {}
            _ => return Some(*line),
        }
    }
    None
}

#[test]
fn first_errors_have_their_time_path_and_kind(rt: HostRuntime) {
    assert_eq!(rt; wrong_line(rt.alloc(), Call::Error(""), ERRORS), None);
    assert_eq!(rt; wrong_over_script(rt.alloc()), None);
}
