//! The evaluation of expressions: one function for each shape of form, and no more than the forms' own order.
ghost use Rattle.std.specs.Prelude.{◌≡◌, ◌++◌, ◌∷◌, ◌+◌, List, None, IfOk, OnOk, length, slice_get};
ghost use Rattle.fr_meaning.specs.Words.{Env, plain, part};
ghost use Rattle.fr_meaning.specs.Cells.{child};
ghost use Rattle.fr_meaning.specs.States.{no_call, of_operator, of_handler, of_feedback};
ghost use Rattle.fr_meaning.specs.Evaluation.{eval_to, leaf, source_seen, parts, let_done, choose, switch_done, call_done, body_for, body_with, handler as called, turns, loop_done, state_done, behind_cell, feedback_done as fed_done};
ghost use Rattle.fr_forms.specs.Lent.{bound};
ghost use Rattle.fr_forms.specs.Begins.{args_of};
ghost use Rattle.fr_forms.specs.Rounds.{number_of, rounds_left};
ghost use Rattle.fr_afresh.specs.Trees.{tree};
ghost use Rattle.fr_afresh.specs.Outcomes.{without_cost, parts_without_cost, turns_on};

use crate::joining::{
    Done, Parts, Turns, choice_done, ended, feedback_done, handled, last_done, leaf_of, line_done,
    no_parts, operator_done, part_behind, test_behind, too_deep, turned, turns_done, untested,
};
use crate::places::{Choice, bind_args, bind_turn, choice_by, cut};
use crate::trees::{form_kept, kept_part, kept_under};
use crate::world::World;
use fr_core::{Core, Handler, Kept, Loop, Operator};
use fr_forms::{
    Begun, CallArgs, CellKind, Round, Rounds, Seen, begin_handler, fed_value, handler_cell,
    operator_cell, rounds_of, share_part,
};
use fr_value::{Bad, FunId, Now, SrcId, Value, VarId};
use sqlite_items::Items;
use std::alloc::AllocError;

/// A literal. It fails only where there is no memory.
#[inline(never)]
fn eval_literal(world: &World<'_>, value: &Value) -> Result<Done, AllocError>
    ensures { IfOk result (λ d. d ≡ without_cost (leaf (plain value.now))) }
{
    Ok(leaf_of(world.alloc(), Ok(Now::Plain(value.share()?))))
}

/// A variable, over the values of those in scope. It fails only where there is no memory.
#[inline(never)]
fn eval_variable(world: &World<'_>, env: &[Seen], id: VarId) -> Result<Done, AllocError>
    ensures { IfOk result (λ d. d ≡ without_cost (leaf (part env.now id.0))) }
{
    Ok(leaf_of(world.alloc(), share_part(env, id.0 as usize)?))
}

/// A source. It fails only where there is no memory.
#[inline(never)]
fn eval_source(world: &World<'_>, id: SrcId) -> Result<Done, AllocError>
    ensures { IfOk result (λ d. d ≡ without_cost
        (leaf (source_seen (slice_get world.now.sources id.0)))) }
{
    Ok(leaf_of(world.alloc(), world.source(id)?))
}

/// Evaluates an expression that nests at most `left` levels deep, over the values of the variables in scope and what was
/// kept. It fails only where there is no memory; otherwise the variables are as before.
#[cycle(eval)]
pub fn eval(
    world: &World<'_>,
    left: u32,
    env: &mut Items<Seen>,
    expr: &Core,
    kept: Option<&Kept>,
) -> Result<Done, AllocError>
    ensures value { IfOk result (λ d. d ≡
        without_cost (eval_to left world.now expr.now env.old (tree kept.entry))) }
    ensures env { OnOk result (env.new ≡ env.old) }
{
    if left == 0 {
        return Ok(too_deep(world.alloc()));
    }
    let below = left - 1;
    match expr {
        Core::Lit(value) => eval_literal(world, value),
        Core::Var(id) => eval_variable(world, env.as_slice(), *id),
        Core::Source(id) => eval_source(world, *id),
        Core::Let(exprs, body) => eval_let(world, below, env, exprs.as_slice(), body.get(), kept),
        Core::If(test, a, b) => eval_if(world, below, env, test.get(), a.get(), b.get(), kept),
        Core::Apply(id, args) => eval_call(world, below, env, *id, args.as_slice(), kept),
        Core::Operator(operator, exprs) => eval_operator(
            world,
            below,
            env,
            *operator,
            exprs.as_slice(),
            kept,
        ),
        Core::Handler(handler, exprs, body) => eval_handler(
            world,
            below,
            env,
            *handler,
            exprs.as_slice(),
            body.get(),
            kept,
        ),
        Core::Loop(looped, exprs, body) => eval_loop(
            world,
            below,
            env,
            *looped,
            exprs.as_slice(),
            body.get(),
            kept,
        ),
        Core::Feedback(init, body) => eval_feedback(
            world,
            below,
            env,
            init.get(),
            body.get(),
            kept,
        ),
    }
}

/// Evaluates parts from left to right.
#[inline(never)]
#[cycle(eval)]
fn eval_parts(
    world: &World<'_>,
    left: u32,
    env: &mut Items<Seen>,
    exprs: &[Core],
    kept: Option<&Kept>,
) -> Result<Parts, AllocError>
    ensures value { IfOk result (λ p. p ≡
        parts_without_cost (parts (eval_to left world.now) env.old (tree kept.entry) 0 exprs.now)) }
    ensures env { OnOk result (env.new ≡ env.old) }
{
    let mut so_far = no_parts(world.alloc());
    for i in 0..exprs.len() {
        let part = eval(world, left, env, &exprs[i], kept_part(kept, i))?;
        so_far = part_behind(so_far, i, part)?;
    }
    Ok(so_far)
}

/// Evaluates a body with further values.
#[cycle(eval)]
fn eval_with(
    world: &World<'_>,
    left: u32,
    env: &mut Items<Seen>,
    body: &Core,
    args: Items<Seen>,
    kept: Option<&Kept>,
) -> Result<Done, AllocError>
    ensures value { IfOk result (λ d. d ≡
        without_cost (eval_to left world.now body.now (env.old ++ args) (tree kept.entry))) }
    ensures env { OnOk result (env.new ≡ env.old) }
{
    let outer = env.len();
    env.append(args)?;
    let done = eval(world, left, env, body, kept)?;
    cut(env, outer);
    Ok(done)
}

#[inline(never)]
#[cycle(eval)]
fn eval_let(
    world: &World<'_>,
    left: u32,
    env: &mut Items<Seen>,
    exprs: &[Core],
    body: &Core,
    kept: Option<&Kept>,
) -> Result<Done, AllocError>
    ensures value { IfOk result (λ d. d ≡
        without_cost (let_done (eval_to left world.now) env.old (tree kept.entry) (length exprs.now)
        (parts (eval_to left world.now) env.old (tree kept.entry) 0 exprs.now) body.now)) }
    ensures env { OnOk result (env.new ≡ env.old) }
{
    let Parts { values, around } = eval_parts(world, left, env, exprs, kept)?;
    let number = exprs.len();
    let last = eval_with(world, left, env, body, values, kept_part(kept, number))?;
    last_done(world.alloc(), around, number, last)
}

#[inline(never)]
#[cycle(eval)]
fn eval_if(
    world: &World<'_>,
    left: u32,
    env: &mut Items<Seen>,
    test: &Core,
    a: &Core,
    b: &Core,
    kept: Option<&Kept>,
) -> Result<Done, AllocError>
    ensures value { IfOk result (λ d. d ≡
        without_cost (let t = eval_to left world.now test.now env.old (child (tree kept.entry) 0) in
        switch_done (eval_to left world.now) env.old (tree kept.entry) t
        (choose a.now b.now t.value))) }
    ensures env { OnOk result (env.new ≡ env.old) }
{
    let tested = eval(world, left, env, test, kept_part(kept, 0))?;
    let choice = choice_by(a, b, &tested.value);
    let around = test_behind(world.alloc(), tested)?;
    match choice {
        Err(bad) => untested(world.alloc(), around, bad),
        Ok(Choice { key, number, expr }) => {
            let before = kept_under(kept_part(kept, 1), &key);
            let done = eval(world, left, env, expr, before)?;
            choice_done(world.alloc(), around, key, number, done)
        }
    }
}

#[inline(never)]
#[cycle(eval)]
fn eval_call(
    world: &World<'_>,
    left: u32,
    env: &mut Items<Seen>,
    function: FunId,
    args: &[Core],
    kept: Option<&Kept>,
) -> Result<Done, AllocError>
    ensures value { IfOk result (λ d. d ≡
        without_cost (call_done (eval_to left world.now) (tree kept.entry) (length args.now)
        (parts (eval_to left world.now) env.old (tree kept.entry) 0 args.now)
        (body_for (slice_get world.now.functions function.0) (length args.now)))) }
    ensures env { OnOk result (env.new ≡ env.old) }
{
    let Parts { mut values, around } = eval_parts(world, left, env, args, kept)?;
    let number = args.len();
    match world.body(function, number) {
        None => Ok(ended(world.alloc(), Err(Bad::Arity), around)),
        Some(body) => {
            let last = eval(world, left, &mut values, body, kept_part(kept, number))?;
            last_done(world.alloc(), around, number, last)
        }
    }
}

#[inline(never)]
#[cycle(eval)]
fn eval_operator(
    world: &World<'_>,
    left: u32,
    env: &mut Items<Seen>,
    operator: Operator,
    exprs: &[Core],
    kept: Option<&Kept>,
) -> Result<Done, AllocError>
    ensures value { IfOk result (λ d. d ≡
        without_cost (state_done (eval_to left world.now) env.old (tree kept.entry)
        (of_operator operator) exprs.now no_call)) }
    ensures env { OnOk result (env.new ≡ env.old) }
{
    let before = form_kept(operator_cell(operator), kept);
    let parts = eval_parts(world, left, env, exprs, before.parts)?;
    operator_done(world.alloc(), operator, before.cell, parts)
}

#[inline(never)]
#[cycle(eval)]
fn eval_handler(
    world: &World<'_>,
    left: u32,
    env: &mut Items<Seen>,
    handler: Handler,
    exprs: &[Core],
    body: &Core,
    kept: Option<&Kept>,
) -> Result<Done, AllocError>
    ensures value { IfOk result (λ d. d ≡
        without_cost (state_done (eval_to left world.now) env.old (tree kept.entry)
        (of_handler handler) exprs.now (called (eval_to left world.now) env.old
        (length exprs.now) body.now))) }
    ensures env { OnOk result (env.new ≡ env.old) }
{
    let before = form_kept(handler_cell(handler), kept);
    let Parts { values, around } = eval_parts(world, left, env, exprs, before.parts)?;
    match begin_handler(handler, before.cell, values.as_slice())? {
        Begun::Gives(line) => line_done(world.alloc(), around, line),
        Begun::Asks(args) => {
            let done = eval_called(world, left, env, body, args)?;
            handled(world.alloc(), handler, around, exprs.len(), args, done)
        }
    }
}

/// A handler's body, called with these arguments.
#[inline(never)]
#[cycle(eval)]
fn eval_called(
    world: &World<'_>,
    left: u32,
    env: &mut Items<Seen>,
    body: &Core,
    args: CallArgs<'_>,
) -> Result<Done, AllocError>
    ensures value { IfOk result (λ d. d ≡
        without_cost (body_with (eval_to left world.now) env.old body.now (args_of args.entry))) }
    ensures env { OnOk result (env.new ≡ env.old) }
{
    let outer = env.len();
    bind_args(env, args)?;
    let done = eval(world, left, env, body, None)?;
    cut(env, outer);
    Ok(done)
}

#[inline(never)]
#[cycle(eval)]
fn eval_loop(
    world: &World<'_>,
    left: u32,
    env: &mut Items<Seen>,
    looped: Loop,
    exprs: &[Core],
    body: &Core,
    kept: Option<&Kept>,
) -> Result<Done, AllocError>
    ensures value { IfOk result (λ d. d ≡
        without_cost (loop_done (eval_to left world.now) env.old looped (length exprs.now)
        (parts (eval_to left world.now) env.old (tree kept.entry) 0 exprs.now) body.now)) }
    ensures env { OnOk result (env.new ≡ env.old) }
{
    let Parts { values, around } = eval_parts(world, left, env, exprs, kept)?;
    match rounds_of(looped, values.as_slice()) {
        Err(bad) => Ok(ended(world.alloc(), Err(bad), around)),
        Ok(rounds) => {
            let init = share_part(values.as_slice(), 0)?;
            let turns = eval_turns(world, left, env, body, init, rounds)?;
            turns_done(world.alloc(), around, exprs.len(), turns)
        }
    }
}

/// A turn for each round that is left.
#[cycle(eval)]
fn eval_turns(
    world: &World<'_>,
    left: u32,
    env: &mut Items<Seen>,
    body: &Core,
    init: Seen,
    rounds: Rounds<'_>,
) -> Result<Turns, AllocError>
    ensures value { IfOk result (λ t. t ≡ turns_on (record { value = init; first = None })
        (turns (body_with (eval_to left world.now) env.old body.now) (number_of rounds.entry) init
        (rounds_left rounds.entry))) }
    ensures env { OnOk result (env.new ≡ env.old) }
{
    let mut so_far = Turns {
        value: init,
        first: None,
    };
    let mut rest = rounds;
    while let Some(
        Round {
            number,
            item,
            behind,
        },
    ) = rest.next()
    {
        so_far = eval_turn(world, left, env, body, number, so_far, item)?;
        rest = behind;
    }
    Ok(so_far)
}

/// One turn more, which has this number.
#[cycle(eval)]
fn eval_turn(
    world: &World<'_>,
    left: u32,
    env: &mut Items<Seen>,
    body: &Core,
    number: usize,
    so_far: Turns,
    item: Option<&Value>,
) -> Result<Turns, AllocError>
    ensures value { IfOk result (λ t. (rest : List Env) →
        let body = body_with (eval_to left world.now) env.old body.now in
        turns_on t (turns body (number + 1) t.value rest) ≡
        turns_on so_far (turns body number so_far.value (bound item.entry ∷ rest))) }
    ensures env { OnOk result (env.new ≡ env.old) }
{
    let Turns { value, first } = so_far;
    let outer = env.len();
    bind_turn(env, value, item)?;
    let turn = eval(world, left, env, body, None)?;
    cut(env, outer);
    turned(number, first, turn)
}

#[inline(never)]
#[cycle(eval)]
fn eval_feedback(
    world: &World<'_>,
    left: u32,
    env: &mut Items<Seen>,
    init: &Core,
    body: &Core,
    kept: Option<&Kept>,
) -> Result<Done, AllocError>
    ensures value { IfOk result (λ d. d ≡
        without_cost (fed_done (eval_to left world.now) env.old (tree kept.entry)
        (eval_to left world.now init.now env.old
        (child (behind_cell of_feedback (tree kept.entry)) 0)) body.now)) }
    ensures env { OnOk result (env.new ≡ env.old) }
{
    let before = form_kept(CellKind::KeepsDatum, kept);
    let started = eval(world, left, env, init, kept_part(before.parts, 0))?;
    let outer = env.len();
    env.push(fed_value(before.cell, &started.value)?)?;
    let done = eval(world, left, env, body, kept_part(before.parts, 1))?;
    cut(env, outer);
    feedback_done(world.alloc(), before.cell, started, done)
}
