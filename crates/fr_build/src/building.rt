//! The walk over an expression: one function for each shape of form.
ghost use Rattle.std.specs.Prelude.{◌≡◌, ◌+◌, ◌++◌, ◌<◌, ◌≤◌, ℕ, suc, Some, IfOk, IfErr, OnOk, length, take, slice_get};
ghost use Rattle.fr_core.specs.declared.lowered.Low.TheVariants as low;
ghost use Rattle.fr_meaning.specs.Words.{plain};
ghost use Rattle.fr_nodes.specs.Kinds.{Sites, part_of, parts_of};
ghost use Rattle.fr_build.specs.Ready.{IsGround, IsPlanReady, IsReady, AreReady};
ghost use Rattle.fr_build.specs.Builds.{BuildsExpr, ExprStops, Chooses, MayBuild, ExprOutcome, PartsOutcome};

use crate::plan::{Plan, Runner, Setting};
use crate::stops::BuildStop;
use crate::works::{
    build_handler_node, build_loop_node, build_operator_node, build_region, share_held,
};
use fr_core::{Handler, Loop, Low, Operator, Slot};
use fr_nodes::Nodes;
use fr_store::NodeKind;
use fr_value::{Bad, EraId, FunId, Held, KernId, NodeId, SiteId, Value, VarId};
use sqlite_items::Items;
use std::alloc::AllocError;

/// Makes the nodes of an expression, which nests at most `left` levels deep, as the last members of an era, over what
/// stands for the variables in scope, and gives what stands for it.
///
/// No signal's value is read. What never changes is computed here, and 1 is spent for each call of a function. `Bad` comes
/// only where evaluating the expression refuses a part that never changes; after any error the graph is of no use.
pub fn build<N: Nodes>(
    plan: &Plan<'_>,
    left: u32,
    env: &mut Items<Held>,
    expr: &Low,
    era: EraId,
    runner: &mut Runner,
    nodes: &mut N,
) -> Result<Held, BuildStop>
    requires left { left ≤ 2001 }
    requires plan { IsPlanReady plan.now }
    requires ready { IsReady plan.now (length env.old) expr.now }
    requires ground { IsGround (N.way nodes.old) (N.has_era nodes.old) era.0
        (parts_of env.old) plan.now.sources }
    ensures env { OnOk result (env.new ≡ env.old) }
    ensures builds { IfOk result (λ held. (sites : Sites) →
        BuildsExpr sites (N.way nodes.old sites) (N.way nodes.new sites) plan.now era.0 left
        expr.now (parts_of env.old) (part_of held)) }
    ensures eras { OnOk result ((x : ℕ) → N.has_era nodes.new x ≡ N.has_era nodes.old x) }
    ensures stops { IfErr result (λ stop.
        ExprStops plan.now left expr.now (parts_of env.old) stop) }
{
    let setting = Setting {
        plan,
        below: left,
        era,
    };
    build_expr(&setting, env, expr, runner, nodes)
}

/// An expression on as many levels as the setting has left.
#[cycle(build)]
#[tactic(none)]
fn build_expr<N: Nodes>(
    setting: &Setting<'_>,
    env: &mut Items<Held>,
    expr: &Low,
    runner: &mut Runner,
    nodes: &mut N,
) -> Result<Held, BuildStop>
    requires { MayBuild 2001 setting.now.plan.now setting.now.below setting.now.era.0
        (N.way nodes.old) (N.has_era nodes.old) (parts_of env.old)
        (IsReady setting.now.plan.now (length env.old) expr.now) }
    ensures { ExprOutcome setting.now.plan.now setting.now.era.0 setting.now.below expr.now
        env.old env.new (N.way nodes.old) (N.way nodes.new) (N.has_era nodes.old)
        (N.has_era nodes.new) result }
{
    if setting.below == 0 {
        return Err(BuildStop::Bad(Bad::Deep));
    }
    let inner = Setting {
        below: setting.below - 1,
        ..*setting
    };
    match expr {
        Low::Lit(value) => Ok(Held::Steady(value.share()?)),
        Low::Var(id) => Ok(build_variable(env.as_slice(), *id)?),
        Low::Source(id) => Ok(Held::Signal(NodeId(id.0))),
        Low::Let(exprs, body) => {
            build_let(&inner, env, exprs.as_slice(), body.get(), runner, nodes)
        }
        Low::If(site, test, yes, no) => build_if(
            &inner,
            env,
            *site,
            test.get(),
            yes.get(),
            no.get(),
            runner,
            nodes,
        ),
        Low::Apply(id, args) => build_call(&inner, env, *id, args.as_slice(), runner, nodes),
        Low::Operator(operator, exprs) => {
            build_operator(&inner, env, *operator, exprs.as_slice(), runner, nodes)
        }
        Low::Handler(handler, exprs, body, slots) => build_handler(
            &inner,
            env,
            *handler,
            exprs.as_slice(),
            *body,
            slots.as_slice(),
            runner,
            nodes,
        ),
        Low::Loop(looped, exprs, body, slots) => build_loop(
            &inner,
            env,
            *looped,
            exprs.as_slice(),
            *body,
            slots.as_slice(),
            runner,
            nodes,
        ),
        Low::Feedback(init, body) => {
            build_feedback(&inner, env, init.get(), body.get(), runner, nodes)
        }
        Low::Collapse(id, slots) => build_region(
            &inner,
            env.as_slice(),
            *id,
            slots.as_slice(),
            runner,
            nodes,
        ),
    }
}

/// What stands for a variable.
fn build_variable(env: &[Held], id: VarId) -> Result<Held, AllocError>
    requires { id.0 < length env.now }
    ensures { IfOk result (λ held. slice_get (parts_of env.now) id.0 ≡ Some (part_of held)) }
{
    match env.get(id.0 as usize) {
        Some(held) => share_held(held),
        None => unreachable!(),
    }
}

/// Parts from left to right.
#[cycle(build)]
fn build_parts<N: Nodes>(
    setting: &Setting<'_>,
    env: &mut Items<Held>,
    exprs: &[Low],
    runner: &mut Runner,
    nodes: &mut N,
) -> Result<Items<Held>, BuildStop>
    requires { MayBuild 2000 setting.now.plan.now setting.now.below setting.now.era.0
        (N.way nodes.old) (N.has_era nodes.old) (parts_of env.old)
        (AreReady setting.now.plan.now (length env.old) exprs.now) }
    ensures { PartsOutcome setting.now.plan.now setting.now.era.0 setting.now.below exprs.now
        env.old env.new (N.way nodes.old) (N.way nodes.new) (N.has_era nodes.old)
        (N.has_era nodes.new) result }
{
    let mut parts = Items::new(setting.plan.alloc());
    for expr in exprs {
        let part = build_expr(setting, env, expr, runner, nodes)?;
        parts.push(part)?;
    }
    Ok(parts)
}

/// What the value of a test chooses.
fn choice<'a>(value: &Value, yes: &'a Low, no: &'a Low) -> &'a Low
    ensures { Chooses (plain value.now) yes.now no.now result.now }
{
    match value {
        Value::Bool(false) => no,
        _ => yes,
    }
}

/// Leaves so many parts in scope.
fn cut(env: &mut Items<Held>, many: usize)
    requires { many ≤ length env.old }
    ensures { env.new ≡ take many env.old }
{
    while env.len() > many {
        let _last = env.pop();
    }
}

#[cycle(build)]
#[tactic(none)]
fn build_let<N: Nodes>(
    setting: &Setting<'_>,
    env: &mut Items<Held>,
    exprs: &[Low],
    body: &Low,
    runner: &mut Runner,
    nodes: &mut N,
) -> Result<Held, BuildStop>
    requires { MayBuild 2000 setting.now.plan.now setting.now.below setting.now.era.0
        (N.way nodes.old) (N.has_era nodes.old) (parts_of env.old)
        (IsReady setting.now.plan.now (length env.old) (low.Let exprs.now body.now)) }
    ensures { ExprOutcome setting.now.plan.now setting.now.era.0 (suc setting.now.below) (low.Let exprs.now body.now)
        env.old env.new (N.way nodes.old) (N.way nodes.new) (N.has_era nodes.old)
        (N.has_era nodes.new) result }
{
    let parts = build_parts(setting, env, exprs, runner, nodes)?;
    let outer = env.len();
    env.append(parts)?;
    let held = build_expr(setting, env, body, runner, nodes)?;
    cut(env, outer);
    Ok(held)
}

/// The choice of a switch whose test never changes is built in place; where the test varies, a watch and a result are made.
#[cycle(build)]
#[tactic(none)]
fn build_if<N: Nodes>(
    setting: &Setting<'_>,
    env: &mut Items<Held>,
    site: SiteId,
    test: &Low,
    yes: &Low,
    no: &Low,
    runner: &mut Runner,
    nodes: &mut N,
) -> Result<Held, BuildStop>
    requires { MayBuild 2000 setting.now.plan.now setting.now.below setting.now.era.0
        (N.way nodes.old) (N.has_era nodes.old) (parts_of env.old)
        (IsReady setting.now.plan.now (length env.old) (low.If site test.now yes.now no.now)) }
    ensures { ExprOutcome setting.now.plan.now setting.now.era.0 (suc setting.now.below) (low.If site test.now yes.now no.now)
        env.old env.new (N.way nodes.old) (N.way nodes.new) (N.has_era nodes.old)
        (N.has_era nodes.new) result }
{
    match build_expr(setting, env, test, runner, nodes)? {
        Held::Steady(value) => {
            let chosen = choice(&value, yes, no);
            let held = build_expr(setting, env, chosen, runner, nodes)?;
            Ok(held)
        }
        Held::Signal(id) => {
            let nest = 2000 - setting.below;
            let made = nodes.make_switch(site, env.as_slice(), id, setting.era, nest)?;
            Ok(Held::Signal(made.result))
        }
    }
}

/// The body of a function over its arguments, in place.
#[cycle(build)]
#[tactic(none)]
fn build_call<N: Nodes>(
    setting: &Setting<'_>,
    env: &mut Items<Held>,
    function: FunId,
    args: &[Low],
    runner: &mut Runner,
    nodes: &mut N,
) -> Result<Held, BuildStop>
    requires { MayBuild 2000 setting.now.plan.now setting.now.below setting.now.era.0
        (N.way nodes.old) (N.has_era nodes.old) (parts_of env.old)
        (IsReady setting.now.plan.now (length env.old) (low.Apply function args.now)) }
    ensures { ExprOutcome setting.now.plan.now setting.now.era.0 (suc setting.now.below) (low.Apply function args.now)
        env.old env.new (N.way nodes.old) (N.way nodes.new) (N.has_era nodes.old)
        (N.has_era nodes.new) result }
{
    let mut parts = build_parts(setting, env, args, runner, nodes)?;
    let Some(body) = setting.plan.body(function, args.len()) else {
        return Err(BuildStop::Bad(Bad::Arity));
    };
    if !runner.fuel.spend() {
        return Err(BuildStop::Fuel);
    }
    let held = build_expr(setting, &mut parts, body, runner, nodes)?;
    Ok(held)
}

#[cycle(build)]
#[tactic(none)]
fn build_operator<N: Nodes>(
    setting: &Setting<'_>,
    env: &mut Items<Held>,
    operator: Operator,
    exprs: &[Low],
    runner: &mut Runner,
    nodes: &mut N,
) -> Result<Held, BuildStop>
    requires { MayBuild 2000 setting.now.plan.now setting.now.below setting.now.era.0
        (N.way nodes.old) (N.has_era nodes.old) (parts_of env.old)
        (IsReady setting.now.plan.now (length env.old) (low.Operator operator exprs.now)) }
    ensures { ExprOutcome setting.now.plan.now setting.now.era.0 (suc setting.now.below) (low.Operator operator exprs.now)
        env.old env.new (N.way nodes.old) (N.way nodes.new) (N.has_era nodes.old)
        (N.has_era nodes.new) result }
{
    let parts = build_parts(setting, env, exprs, runner, nodes)?;
    let held = build_operator_node(setting, operator, parts.as_slice(), runner, nodes)?;
    Ok(held)
}

#[cycle(build)]
#[tactic(none)]
fn build_handler<N: Nodes>(
    setting: &Setting<'_>,
    env: &mut Items<Held>,
    handler: Handler,
    exprs: &[Low],
    body: KernId,
    slots: &[Slot],
    runner: &mut Runner,
    nodes: &mut N,
) -> Result<Held, BuildStop>
    requires { MayBuild 2000 setting.now.plan.now setting.now.below setting.now.era.0
        (N.way nodes.old) (N.has_era nodes.old) (parts_of env.old)
        (IsReady setting.now.plan.now (length env.old) (low.Handler handler exprs.now body slots.now)) }
    ensures { ExprOutcome setting.now.plan.now setting.now.era.0 (suc setting.now.below) (low.Handler handler exprs.now body slots.now)
        env.old env.new (N.way nodes.old) (N.way nodes.new) (N.has_era nodes.old)
        (N.has_era nodes.new) result }
{
    let parts = build_parts(setting, env, exprs, runner, nodes)?;
    let held = build_handler_node(setting, env.as_slice(), handler, parts, body, slots, nodes)?;
    Ok(held)
}

#[cycle(build)]
#[tactic(none)]
fn build_loop<N: Nodes>(
    setting: &Setting<'_>,
    env: &mut Items<Held>,
    looped: Loop,
    exprs: &[Low],
    body: KernId,
    slots: &[Slot],
    runner: &mut Runner,
    nodes: &mut N,
) -> Result<Held, BuildStop>
    requires { MayBuild 2000 setting.now.plan.now setting.now.below setting.now.era.0
        (N.way nodes.old) (N.has_era nodes.old) (parts_of env.old)
        (IsReady setting.now.plan.now (length env.old) (low.Loop looped exprs.now body slots.now)) }
    ensures { ExprOutcome setting.now.plan.now setting.now.era.0 (suc setting.now.below) (low.Loop looped exprs.now body slots.now)
        env.old env.new (N.way nodes.old) (N.way nodes.new) (N.has_era nodes.old)
        (N.has_era nodes.new) result }
{
    let parts = build_parts(setting, env, exprs, runner, nodes)?;
    let scope = env.as_slice();
    let held = build_loop_node(setting, scope, looped, parts, body, slots, runner, nodes)?;
    Ok(held)
}

/// The node that the name is bound to stands between the nodes of INIT and those of BODY, and its cell takes BODY's value.
#[cycle(build)]
#[tactic(none)]
fn build_feedback<N: Nodes>(
    setting: &Setting<'_>,
    env: &mut Items<Held>,
    init: &Low,
    body: &Low,
    runner: &mut Runner,
    nodes: &mut N,
) -> Result<Held, BuildStop>
    requires { MayBuild 2000 setting.now.plan.now setting.now.below setting.now.era.0
        (N.way nodes.old) (N.has_era nodes.old) (parts_of env.old)
        (IsReady setting.now.plan.now (length env.old) (low.Feedback init.now body.now)) }
    ensures { ExprOutcome setting.now.plan.now setting.now.era.0 (suc setting.now.below) (low.Feedback init.now body.now)
        env.old env.new (N.way nodes.old) (N.way nodes.new) (N.has_era nodes.old)
        (N.has_era nodes.new) result }
{
    let first = build_expr(setting, env, init, runner, nodes)?;
    let nest = 2000 - setting.below;
    let name = nodes.make(NodeKind::Feedback, &[first], setting.era, nest)?;
    let outer = env.len();
    env.push(Held::Signal(name))?;
    let held = build_expr(setting, env, body, runner, nodes)?;
    cut(env, outer);
    let last = share_held(&held)?;
    nodes.tie(name, last);
    Ok(held)
}
