//! The walk over an expression: one function for each shape of a pure form.
ghost use Rattle.std.specs.Prelude.{◌≡◌, ◌≤◌, ◌∷◌, ◌+◌, [], true, false, MatchOption, length, slice_get};
ghost use Rattle.std.specs.Option.{option_copied, option_or};
ghost use Rattle.fr_core.specs.Classes.{is_prim};
ghost use Rattle.fr_core.specs.declared.kept.Kept.{Kept};
ghost use Rattle.fr_core.specs.declared.core_form.Operator.TheVariants as operator;
ghost use Rattle.fr_value.specs.declared.value.Value.TheVariants as value;
ghost use Rattle.fr_meaning.specs.Primitives.{applied};
ghost use Rattle.fr_meaning.specs.Words.{own, part, plain};
ghost use Rattle.fr_meaning.specs.Cells.{child};
ghost use Rattle.fr_meaning.specs.States.{no_call, of_operator};
ghost use Rattle.fr_meaning.specs.Evaluation.{parts, let_done, choose, switch_done, call_done, body_for, body_with, turns, all_turns, rounds, loop_done, state_done};
ghost use Rattle.fr_forms.specs.Lent.{bound};
ghost use Rattle.fr_forms.specs.Rounds.{number_of, rounds_left};
ghost use Rattle.fr_kernel.specs.Purity.{IsPureOver, ArePureOver, IsPureCall};
ghost use Rattle.fr_kernel.specs.Answers.{here, scope, Answers, Tells, HoldsOr};

use crate::fuel::KernStop;
use crate::integers::{apply_second, leaf_int, literal, on_ints, slot};
use crate::machine::{
    Kind, Machine, apply_held, bind_held, bind_turn, cut_slots, give, hold, int, spend, stopped,
    take_held, tested, value_of,
};
use fr_core::{Core, Function, Loop, Operator};
use fr_forms::{Round, Rounds, Seen, rounds_of, share_part};
use fr_value::{Bad, Primitive, Value};
use std::alloc::Global;

/// The body of a function that has so many parameters.
fn function_body(functions: &[Function], at: u32, args: usize) -> Option<&Core>
    ensures { option_copied result ≡ body_for (slice_get functions.now at) args }
{
    match functions.get(at as usize) {
        None => None,
        Some(function) => {
            if function.params as usize == args {
                Some(&function.body)
            } else {
                None
            }
        }
    }
}

/// The primitive that an operator is.
fn primitive_of(operator: Operator) -> Option<Primitive>
    ensures { MatchOption result (is_prim operator ≡ false) (λ p. operator ≡ Operator.Prim p) }
{
    match operator {
        Operator::Prim(prim) => Some(prim),
        _ => None,
    }
}

/// The parts of a form that has two.
#[inline(always)]
fn pair_of(exprs: &[Core]) -> Option<(&Core, &Core)>
    ensures { MatchOption result (Unit {0}) (λ p. exprs.now ≡ p.0.now ∷ p.1.now ∷ []) }
{
    match exprs {
        [a, b] => Some((a, b)),
        _ => None,
    }
}

/// Evaluates an expression that nests at most `left` levels deep, whose variables are the slots from `base` on.
#[cycle(walk)]
pub(crate) fn walk(
    alloc: Global,
    functions: &[Function],
    left: u32,
    m: &mut Machine,
    base: usize,
    expr: &Core,
) -> Kind
    requires slots { base ≤ length m.old.slots }
    requires pure { IsPureOver functions.now expr.now }
    ensures { (k : Kept) → Tells result m.old m.new (here functions.now left expr.now (scope base m.old) k) }
{
    if left == 0 {
        return stopped(m, KernStop::Bad(Bad::Deep));
    }
    let below = left - 1;
    match expr {
        Core::Lit(value) => literal(m, value),
        Core::Var(id) => slot(m, base, id.0),
        Core::Source(_) => stopped(m, KernStop::Bad(Bad::Deep)),
        Core::If(test, a, b) => walk_if(
            alloc,
            functions,
            below,
            m,
            base,
            test.get(),
            a.get(),
            b.get(),
        ),
        Core::Operator(operator, exprs) => {
            walk_operator(
                alloc,
                functions,
                below,
                m,
                base,
                *operator,
                exprs.as_slice(),
            )
        }
        Core::Let(exprs, body) => walk_let(
            alloc,
            functions,
            below,
            m,
            base,
            exprs.as_slice(),
            body.get(),
        ),
        Core::Apply(id, args) => {
            walk_call(alloc, functions, below, m, base, id.0, args.as_slice())
        }
        Core::Loop(looped, exprs, body) => walk_loop(
            alloc,
            functions,
            below,
            m,
            base,
            *looped,
            exprs.as_slice(),
            body.get(),
        ),
        Core::Handler(_, _, _) => unreachable!(),
        Core::Feedback(_, _) => unreachable!(),
    }
}

/// Evaluates parts from left to right, and holds their values; false where one has none.
#[cycle(walk)]
#[inline(never)]
fn walk_parts(
    alloc: Global,
    functions: &[Function],
    left: u32,
    m: &mut Machine,
    base: usize,
    exprs: &[Core],
) -> bool
    requires slots { base ≤ length m.old.slots }
    requires pure { ArePureOver functions.now exprs.now }
    ensures { (k : Kept) → let ps = parts (here functions.now left) (scope base m.old) k 0 exprs.now in HoldsOr result m.old m.new ps.values ps.cost ps.first }
{
    for i in 0..exprs.len() {
        let kind = walk(alloc, functions, left, m, base, &exprs[i]);
        if !hold(m, kind) {
            return false;
        }
    }
    true
}

#[cycle(walk)]
#[inline(always)]
fn walk_if(
    alloc: Global,
    functions: &[Function],
    left: u32,
    m: &mut Machine,
    base: usize,
    test: &Core,
    a: &Core,
    b: &Core,
) -> Kind
    requires slots { base ≤ length m.old.slots }
    requires test { IsPureOver functions.now test.now }
    requires first { IsPureOver functions.now a.now }
    requires second { IsPureOver functions.now b.now }
    ensures { (k : Kept) → let t = here functions.now left test.now (scope base m.old) (child k 0) in Tells result m.old m.new (switch_done (here functions.now left) (scope base m.old) k t (choose a.now b.now t.value)) }
{
    let kind = walk(alloc, functions, left, m, base, test);
    match tested(m, kind) {
        None => Kind::Stop,
        Some(true) => walk(alloc, functions, left, m, base, a),
        Some(false) => walk(alloc, functions, left, m, base, b),
    }
}

/// A primitive; no other operator is pure.
#[cycle(walk)]
#[inline(always)]
fn walk_operator(
    alloc: Global,
    functions: &[Function],
    left: u32,
    m: &mut Machine,
    base: usize,
    operator: Operator,
    exprs: &[Core],
) -> Kind
    requires slots { base ≤ length m.old.slots }
    requires primitive { is_prim operator ≡ true }
    requires pure { ArePureOver functions.now exprs.now }
    ensures { (k : Kept) → Tells result m.old m.new (state_done (here functions.now left) (scope base m.old) k (of_operator operator) exprs.now no_call) }
{
    match primitive_of(operator) {
        Some(prim) => walk_prim(alloc, functions, left, m, base, prim, exprs),
        None => unreachable!(),
    }
}

#[cycle(walk)]
#[inline(always)]
fn walk_prim(
    alloc: Global,
    functions: &[Function],
    left: u32,
    m: &mut Machine,
    base: usize,
    prim: Primitive,
    exprs: &[Core],
) -> Kind
    requires slots { base ≤ length m.old.slots }
    requires pure { ArePureOver functions.now exprs.now }
    ensures { (k : Kept) → Tells result m.old m.new (state_done (here functions.now left) (scope base m.old) k (of_operator (operator.Prim prim)) exprs.now no_call) }
{
    match pair_of(exprs) {
        Some(pair) => walk_two(alloc, functions, left, m, base, prim, pair.0, pair.1),
        None => walk_many(alloc, functions, left, m, base, prim, exprs),
    }
}

/// A primitive over two parts: integers are neither held nor copied.
#[cycle(walk)]
#[inline(always)]
fn walk_two(
    alloc: Global,
    functions: &[Function],
    left: u32,
    m: &mut Machine,
    base: usize,
    prim: Primitive,
    a: &Core,
    b: &Core,
) -> Kind
    requires slots { base ≤ length m.old.slots }
    requires first { IsPureOver functions.now a.now }
    requires second { IsPureOver functions.now b.now }
    ensures { (k : Kept) → Tells result m.old m.new (state_done (here functions.now left) (scope base m.old) k (of_operator (operator.Prim prim)) (a.now ∷ b.now ∷ []) no_call) }
{
    let held = m.held.len();
    let first = operand(alloc, functions, left, m, base, a);
    if let Kind::Int = first {
        let x = m.int;
        return walk_second(alloc, functions, left, m, base, prim, x, b);
    }
    if !hold(m, first) {
        return Kind::Stop;
    }
    let second = operand(alloc, functions, left, m, base, b);
    if !hold(m, second) {
        return Kind::Stop;
    }
    apply_held(alloc, m, prim, held)
}

/// The second part of a primitive whose first is an integer, and the primitive over both.
#[cycle(walk)]
#[inline(always)]
fn walk_second(
    alloc: Global,
    functions: &[Function],
    left: u32,
    m: &mut Machine,
    base: usize,
    prim: Primitive,
    x: i64,
    b: &Core,
) -> Kind
    requires slots { base ≤ length m.old.slots }
    requires pure { IsPureOver functions.now b.now }
    ensures { (k : Kept) → let d = here functions.now left b.now (scope base m.old) k in let v = applied prim (plain (value.Int x) ∷ d.value ∷ []) in Answers result m.old m.new v d.cost (option_or d.first (own v)) }
{
    let second = operand(alloc, functions, left, m, base, b);
    match second {
        Kind::Int => {
            let y = m.int;
            on_ints(alloc, m, prim, x, y)
        }
        _ => apply_second(alloc, m, prim, x, second),
    }
}

/// A part that may be an integer that is read in place.
#[cycle(walk)]
#[inline(always)]
fn operand(
    alloc: Global,
    functions: &[Function],
    left: u32,
    m: &mut Machine,
    base: usize,
    expr: &Core,
) -> Kind
    requires slots { base ≤ length m.old.slots }
    requires pure { IsPureOver functions.now expr.now }
    ensures { (k : Kept) → Tells result m.old m.new (here functions.now left expr.now (scope base m.old) k) }
{
    match leaf_int(left, m.slots.as_slice(), base, expr) {
        Some(n) => int(m, n),
        None => walk(alloc, functions, left, m, base, expr),
    }
}

#[cycle(walk)]
#[inline(never)]
fn walk_many(
    alloc: Global,
    functions: &[Function],
    left: u32,
    m: &mut Machine,
    base: usize,
    prim: Primitive,
    exprs: &[Core],
) -> Kind
    requires slots { base ≤ length m.old.slots }
    requires pure { ArePureOver functions.now exprs.now }
    ensures { (k : Kept) → Tells result m.old m.new (state_done (here functions.now left) (scope base m.old) k (of_operator (operator.Prim prim)) exprs.now no_call) }
{
    let held = m.held.len();
    if !walk_parts(alloc, functions, left, m, base, exprs) {
        return Kind::Stop;
    }
    apply_held(alloc, m, prim, held)
}

#[cycle(walk)]
#[inline(never)]
fn walk_let(
    alloc: Global,
    functions: &[Function],
    left: u32,
    m: &mut Machine,
    base: usize,
    exprs: &[Core],
    body: &Core,
) -> Kind
    requires slots { base ≤ length m.old.slots }
    requires parts { ArePureOver functions.now exprs.now }
    requires body { IsPureOver functions.now body.now }
    ensures { (k : Kept) → Tells result m.old m.new (let_done (here functions.now left) (scope base m.old) k (length exprs.now) (parts (here functions.now left) (scope base m.old) k 0 exprs.now) body.now) }
{
    let held = m.held.len();
    if !walk_parts(alloc, functions, left, m, base, exprs) {
        return Kind::Stop;
    }
    let outer = m.slots.len();
    if !bind_held(m, held) {
        return Kind::Stop;
    }
    let kind = walk(alloc, functions, left, m, base, body);
    cut_slots(m, outer);
    kind
}

#[cycle(walk)]
#[inline(never)]
fn walk_call(
    alloc: Global,
    functions: &[Function],
    left: u32,
    m: &mut Machine,
    base: usize,
    function: u32,
    args: &[Core],
) -> Kind
    requires slots { base ≤ length m.old.slots }
    requires args { ArePureOver functions.now args.now }
    requires body { IsPureCall functions.now function (length args.now) }
    ensures { (k : Kept) → Tells result m.old m.new (call_done (here functions.now left) k (length args.now) (parts (here functions.now left) (scope base m.old) k 0 args.now) (body_for (slice_get functions.now function) (length args.now))) }
{
    let held = m.held.len();
    if !walk_parts(alloc, functions, left, m, base, args) {
        return Kind::Stop;
    }
    let Some(body) = function_body(functions, function, args.len()) else {
        return stopped(m, KernStop::Bad(Bad::Arity));
    };
    if !spend(m) {
        return Kind::Stop;
    }
    let inner = m.slots.len();
    if !bind_held(m, held) {
        return Kind::Stop;
    }
    let kind = walk(alloc, functions, left, m, inner, body);
    cut_slots(m, inner);
    kind
}

#[cycle(walk)]
#[inline(never)]
fn walk_loop(
    alloc: Global,
    functions: &[Function],
    left: u32,
    m: &mut Machine,
    base: usize,
    looped: Loop,
    exprs: &[Core],
    body: &Core,
) -> Kind
    requires slots { base ≤ length m.old.slots }
    requires parts { ArePureOver functions.now exprs.now }
    requires body { IsPureOver functions.now body.now }
    ensures { (k : Kept) → Tells result m.old m.new (loop_done (here functions.now left) (scope base m.old) looped (length exprs.now) (parts (here functions.now left) (scope base m.old) k 0 exprs.now) body.now) }
{
    let held = m.held.len();
    if !walk_parts(alloc, functions, left, m, base, exprs) {
        return Kind::Stop;
    }
    match take_held(alloc, m, held) {
        Err(e) => stopped(m, KernStop::Memory(e)),
        Ok(values) => walk_rounds(
            alloc,
            functions,
            left,
            m,
            base,
            looped,
            values.as_slice(),
            body,
        ),
    }
}

/// The turns of a loop over the values of its parts.
#[cycle(walk)]
#[inline(never)]
pub(crate) fn walk_rounds(
    alloc: Global,
    functions: &[Function],
    left: u32,
    m: &mut Machine,
    base: usize,
    looped: Loop,
    values: &[Seen],
    body: &Core,
) -> Kind
    requires slots { base ≤ length m.old.slots }
    requires pure { IsPureOver functions.now body.now }
    ensures { let ts = all_turns (body_with (here functions.now left) (scope base m.old) body.now) (part values.now 0) (rounds looped (part values.now 1)) in Answers result m.old m.new ts.value ts.cost (option_or ts.first (own ts.value)) }
{
    match rounds_of(looped, values) {
        Err(bad) => stopped(m, KernStop::Bad(bad)),
        Ok(rounds) => match share_part(values, 0) {
            Err(e) => stopped(m, KernStop::Memory(e)),
            Ok(init) => walk_turns(alloc, functions, left, m, base, body, init, rounds),
        },
    }
}

/// A turn for each round that is left.
#[cycle(walk)]
fn walk_turns(
    alloc: Global,
    functions: &[Function],
    left: u32,
    m: &mut Machine,
    base: usize,
    body: &Core,
    init: Seen,
    rounds: Rounds<'_>,
) -> Kind
    requires slots { base ≤ length m.old.slots }
    requires pure { IsPureOver functions.now body.now }
    ensures { let ts = turns (body_with (here functions.now left) (scope base m.old) body.now) (number_of rounds.entry) init (rounds_left rounds.entry) in Answers result m.old m.new ts.value ts.cost (option_or ts.first (own ts.value)) }
{
    let mut acc = init;
    let mut rest = rounds;
    while let Some(
        Round {
            number: _,
            item,
            behind,
        },
    ) = rest.next()
    {
        let kind = walk_turn(alloc, functions, left, m, base, body, acc, item);
        let Some(value) = value_of(m, kind) else {
            return Kind::Stop;
        };
        acc = value;
        rest = behind;
    }
    give(m, acc)
}

/// One turn.
#[cycle(walk)]
fn walk_turn(
    alloc: Global,
    functions: &[Function],
    left: u32,
    m: &mut Machine,
    base: usize,
    body: &Core,
    acc: Seen,
    item: Option<&Value>,
) -> Kind
    requires slots { base ≤ length m.old.slots }
    requires pure { IsPureOver functions.now body.now }
    ensures { let d = body_with (here functions.now left) (scope base m.old) body.now (acc ∷ bound item.entry) in Answers result m.old m.new d.value (d.cost + 1) d.first }
{
    if !spend(m) {
        return Kind::Stop;
    }
    let outer = m.slots.len();
    if !bind_turn(m, acc, item) {
        return Kind::Stop;
    }
    let kind = walk(alloc, functions, left, m, base, body);
    cut_slots(m, outer);
    kind
}
