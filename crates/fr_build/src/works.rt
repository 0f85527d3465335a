//! The node of a work, or its value where it never changes.
ghost use Rattle.std.specs.Prelude.{◌≡◌, ◌+◌, ◌++◌, ◌≤◌, ℕ, true, Some, IfOk, IfErr, IsSome, IsTrue, length};
ghost use Rattle.fr_events.specs.Works.{work_of, HasKernel};
ghost use Rattle.fr_graph.specs.Graph.{Work, works, operates, handles, loops, runs, is_plain};
ghost use Rattle.fr_graph.specs.Walk.{steady_values as values_of, slot_part as slot_stands, slot_parts};
ghost use Rattle.fr_nodes.specs.Kinds.{Sites, part_of, parts_of, kind_of};
ghost use Rattle.fr_nodes.specs.Makes.{AreThere};
ghost use Rattle.fr_build.specs.Ready.{plan_of, IsSlotIn, AreSlotsIn, IsPlanReady, LiveAreTaken};
ghost use Rattle.fr_build.specs.Builds.{BuildsWork, BuildsNode, WorkStops};
ghost use Rattle.fr_build.specs.Stops.{StopsWhere, CostsMore};
ghost use Rattle.fr_sums.specs.Spent.{build_work};
ghost use Rattle.fr_build.specs.Works.{ArePlain, AreSteadyValues, behind_of, inputs_with, IsLineValue, IsUnclean, line_cost};
ghost use Rattle.fr_core.specs.Shapes.{operator_takes};
ghost use Rattle.std.specs.Option.{option_map, option_copied};

use crate::plan::{Plan, Runner, Setting};
use crate::stops::BuildStop;
use fr_core::{Handler, Loop, Operator, Slot};
use fr_events::{Stepped, step};
use fr_forms::Seen;
use fr_nodes::Nodes;
use fr_store::{Code, NodeKind};
use fr_value::{Held, KernId, NodeId, Now};
use sqlite_items::Items;
use std::alloc::{AllocError, Global};

/// The kind of an operator's node.
fn operator_kind(operator: Operator) -> NodeKind
    ensures { work_of result ≡ Some (operates operator) }
{
    match operator {
        Operator::Prim(prim) => NodeKind::Kernel(Code::Prim(prim)),
        Operator::MergeE => NodeKind::MergeE,
        Operator::Hold => NodeKind::Hold,
        Operator::Changes => NodeKind::Changes,
        Operator::OnceE => NodeKind::OnceE,
        Operator::Delay => NodeKind::Delay,
        Operator::DelayE => NodeKind::DelayE,
    }
}

/// The kind of the node of a form with a handler.
fn handler_kind(handler: Handler, body: KernId) -> NodeKind
    ensures { work_of result ≡ Some (handles handler body.0) }
{
    match handler {
        Handler::MapE => NodeKind::MapE(body),
        Handler::FilterE => NodeKind::FilterE(body),
        Handler::CollectB => NodeKind::CollectB(body),
        Handler::CollectE => NodeKind::CollectE(body),
    }
}

/// The kind of a loop's node.
fn loop_kind(looped: Loop, body: KernId) -> NodeKind
    ensures { work_of result ≡ Some (loops looped body.0) }
{
    match looped {
        Loop::Fold => NodeKind::Kernel(Code::Fold(body)),
        Loop::Repeat => NodeKind::Kernel(Code::Repeat(body)),
    }
}

/// One more owner of a part.
pub(crate) fn share_held(held: &Held) -> Result<Held, AllocError>
    ensures { IfOk result (λ h. h ≡ held.now) }
{
    match held {
        Held::Steady(value) => Ok(Held::Steady(value.share()?)),
        Held::Signal(id) => Ok(Held::Signal(*id)),
    }
}

/// The values of parts, where none of them varies. It fails only where there is no memory.
fn steady_values(alloc: Global, parts: &[Held]) -> Result<Option<Items<Seen>>, AllocError>
    ensures { IfOk result (λ found. AreSteadyValues (parts_of parts.now) found) }
{
    let mut values = Items::new(alloc);
    for part in parts {
        match part {
            Held::Steady(value) => values.push(Ok(Now::Plain(value.share()?)))?,
            Held::Signal(_) => return Ok(None),
        }
    }
    Ok(Some(values))
}

/// What stands for a slot of a kernel.
fn slot_part(plan: &Plan<'_>, env: &[Held], slot: Slot) -> Result<Held, AllocError>
    requires { IsSlotIn (length env.now) plan.now.sources slot }
    ensures { IfOk result (λ held. part_of held ≡
        slot_stands (plan_of plan.now) (parts_of env.now) slot) }
{
    match slot {
        Slot::Var(id) => match env.get(id.0 as usize) {
            Some(held) => share_held(held),
            None => unreachable!(),
        },
        Slot::Source(id) => Ok(Held::Signal(NodeId(id.0))),
    }
}

/// The parts with what stands for the slots of a kernel behind them.
fn with_slots(
    plan: &Plan<'_>,
    mut parts: Items<Held>,
    env: &[Held],
    slots: &[Slot],
) -> Result<Items<Held>, AllocError>
    requires { AreSlotsIn (length env.now) plan.now.sources slots.now }
    ensures { IfOk result (λ all. parts_of all ≡
        parts_of parts ++ slot_parts (plan_of plan.now) (parts_of env.now) slots.now) }
{
    for slot in slots {
        parts.push(slot_part(plan, env, *slot)?)?;
    }
    Ok(parts)
}

/// The value of a plain work whose inputs never change.
fn compute_steady(
    setting: &Setting<'_>,
    kind: &NodeKind,
    values: &[Seen],
    runner: &mut Runner,
) -> Result<Held, BuildStop>
    requires below { setting.now.below ≤ 2000 }
    requires plan { IsPlanReady setting.now.plan.now }
    requires work { IsSome (work_of kind.now) }
    requires plain { (w : Work) → work_of kind.now ≡ Some w → is_plain w ≡ true }
    requires kernel { (w : Work) → work_of kind.now ≡ Some w →
        HasKernel setting.now.plan.now.table w }
    requires values { ArePlain values.now }
    ensures value { IfOk result (λ held. (w : Work) → work_of kind.now ≡ Some w →
        IsLineValue setting.now.plan.now setting.now.below w values.now (part_of held)) }
    ensures stops { IfErr result (λ stop. (w : Work) → work_of kind.now ≡ Some w →
        StopsWhere stop (IsUnclean setting.now.plan.now setting.now.below w values.now)) }
    ensures paid { IfOk result (λ held. (w : Work) → work_of kind.now ≡ Some w →
        runner.new.fuel.left + line_cost setting.now.plan.now setting.now.below w values.now
        ≡ runner.old.fuel.left) }
    ensures fuel { IfErr result (λ stop. (w : Work) → work_of kind.now ≡ Some w →
        CostsMore stop runner.old.fuel.left
        (line_cost setting.now.plan.now setting.now.below w values.now)) }
{
    let Stepped { value, cell: _ } = step(
        setting.plan.alloc(),
        kind,
        None,
        values,
        setting.plan.table(),
        2000 - setting.below,
        &mut runner.machine,
        &mut runner.fuel,
    )?;
    match value {
        Now::Plain(plain) => Ok(Held::Steady(plain)),
        Now::Occ(_) => unreachable!(),
    }
}

/// What stands for a plain work over these inputs.
fn plain_work<N: Nodes>(
    setting: &Setting<'_>,
    kind: NodeKind,
    inputs: &[Held],
    runner: &mut Runner,
    nodes: &mut N,
) -> Result<Held, BuildStop>
    requires below { setting.now.below ≤ 2000 }
    requires plan { IsPlanReady setting.now.plan.now }
    requires era { IsTrue (N.has_era nodes.old setting.now.era.0) }
    requires taken { (sites : Sites) → LiveAreTaken (N.way nodes.old sites) }
    requires there { (sites : Sites) → AreThere (N.way nodes.old sites) (parts_of inputs.now) }
    requires work { IsSome (work_of kind) }
    requires plain { (w : Work) → work_of kind ≡ Some w → is_plain w ≡ true }
    requires kernel { (w : Work) → work_of kind ≡ Some w →
        HasKernel setting.now.plan.now.table w }
    ensures builds { IfOk result (λ held. (sites : Sites) (w : Work) → work_of kind ≡ Some w →
        BuildsWork (N.way nodes.old sites) (N.way nodes.new sites) setting.now.plan.now
        setting.now.era.0 setting.now.below w (parts_of inputs.now) (part_of held)) }
    ensures eras { (x : ℕ) → N.has_era nodes.new x ≡ N.has_era nodes.old x }
    ensures stops { IfErr result (λ stop. (w : Work) → work_of kind ≡ Some w →
        WorkStops setting.now.plan.now setting.now.below w (parts_of inputs.now) stop) }
    ensures paid { IfOk result (λ held. (w : Work) → work_of kind ≡ Some w →
        runner.new.fuel.left + build_work (plan_of setting.now.plan.now) setting.now.below w
        (parts_of inputs.now) ≡ runner.old.fuel.left) }
    ensures fuel { IfErr result (λ stop. (w : Work) → work_of kind ≡ Some w →
        CostsMore stop runner.old.fuel.left (build_work (plan_of setting.now.plan.now)
        setting.now.below w (parts_of inputs.now))) }
{
    let Some(values) = steady_values(setting.plan.alloc(), inputs)? else {
        let id = nodes.make(kind, inputs, setting.era, 2000 - setting.below)?;
        return Ok(Held::Signal(id));
    };
    let held = compute_steady(setting, &kind, values.as_slice(), runner)?;
    Ok(held)
}

/// The node of a work that always varies. Its cell takes the last part behind the instant, where that is told apart.
fn varying_work<N: Nodes>(
    setting: &Setting<'_>,
    kind: NodeKind,
    inputs: &[Held],
    last: Option<&Held>,
    nodes: &mut N,
) -> Result<Held, BuildStop>
    requires below { setting.now.below ≤ 2000 }
    requires era { IsTrue (N.has_era nodes.old setting.now.era.0) }
    requires taken { (sites : Sites) → LiveAreTaken (N.way nodes.old sites) }
    requires there { (sites : Sites) → AreThere (N.way nodes.old sites) (parts_of inputs.now) }
    requires behind { (sites : Sites) → AreThere (N.way nodes.old sites) (behind_of last) }
    requires work { IsSome (work_of kind) }
    ensures builds { IfOk result (λ held. (sites : Sites) (w : Work) → work_of kind ≡ Some w →
        BuildsNode (N.way nodes.old sites) (N.way nodes.new sites) setting.now.era.0
        setting.now.below (works w) (parts_of inputs.now ++ behind_of last.entry)
        (parts_of inputs.now) (option_map part_of (option_copied last.entry)) (part_of held)) }
    ensures eras { (x : ℕ) → N.has_era nodes.new x ≡ N.has_era nodes.old x }
    ensures stops { IfErr result (λ stop. StopsWhere stop ⊥) }
    ensures fuel { IfErr result (λ stop. (left : ℕ) → CostsMore stop left 0) }
{
    let id = nodes.make(kind, inputs, setting.era, 2000 - setting.below)?;
    let Some(last) = last else {
        return Ok(Held::Signal(id));
    };
    nodes.tie(id, share_held(last)?);
    Ok(Held::Signal(id))
}

/// What stands for an operator over its parts.
pub(crate) fn build_operator_node<N: Nodes>(
    setting: &Setting<'_>,
    operator: Operator,
    parts: &[Held],
    runner: &mut Runner,
    nodes: &mut N,
) -> Result<Held, BuildStop>
    requires below { setting.now.below ≤ 2000 }
    requires plan { IsPlanReady setting.now.plan.now }
    requires era { IsTrue (N.has_era nodes.old setting.now.era.0) }
    requires taken { (sites : Sites) → LiveAreTaken (N.way nodes.old sites) }
    requires there { (sites : Sites) → AreThere (N.way nodes.old sites) (parts_of parts.now) }
    requires takes { operator_takes operator (length parts.now) ≡ true }
    ensures builds { IfOk result (λ held. (sites : Sites) →
        BuildsWork (N.way nodes.old sites) (N.way nodes.new sites) setting.now.plan.now
        setting.now.era.0 setting.now.below (operates operator) (parts_of parts.now)
        (part_of held)) }
    ensures eras { (x : ℕ) → N.has_era nodes.new x ≡ N.has_era nodes.old x }
    ensures stops { IfErr result (λ stop. WorkStops setting.now.plan.now setting.now.below
        (operates operator) (parts_of parts.now) stop) }
    ensures paid { IfOk result (λ held. runner.new.fuel.left + build_work
        (plan_of setting.now.plan.now) setting.now.below (operates operator)
        (parts_of parts.now) ≡ runner.old.fuel.left) }
    ensures fuel { IfErr result (λ stop. CostsMore stop runner.old.fuel.left (build_work
        (plan_of setting.now.plan.now) setting.now.below (operates operator)
        (parts_of parts.now))) }
{
    let kind = operator_kind(operator);
    match operator {
        Operator::Prim(_) => plain_work(setting, kind, parts, runner, nodes),
        Operator::Delay => varying_work(setting, kind, &parts[..1], parts.get(1), nodes),
        Operator::DelayE => varying_work(setting, kind, &[], parts.first(), nodes),
        _ => varying_work(setting, kind, parts, None, nodes),
    }
}

/// What stands for a form with a handler, over its parts and the slots of the handler.
pub(crate) fn build_handler_node<N: Nodes>(
    setting: &Setting<'_>,
    env: &[Held],
    handler: Handler,
    parts: Items<Held>,
    body: KernId,
    slots: &[Slot],
    nodes: &mut N,
) -> Result<Held, BuildStop>
    requires below { setting.now.below ≤ 2000 }
    requires plan { IsPlanReady setting.now.plan.now }
    requires era { IsTrue (N.has_era nodes.old setting.now.era.0) }
    requires taken { (sites : Sites) → LiveAreTaken (N.way nodes.old sites) }
    requires there { (sites : Sites) → AreThere (N.way nodes.old sites)
        (inputs_with setting.now.plan.now env.now parts slots.now) }
    requires slots { AreSlotsIn (length env.now) setting.now.plan.now.sources slots.now }
    requires kernel { HasKernel setting.now.plan.now.table (handles handler body.0) }
    ensures builds { IfOk result (λ held. (sites : Sites) →
        BuildsWork (N.way nodes.old sites) (N.way nodes.new sites) setting.now.plan.now
        setting.now.era.0 setting.now.below (handles handler body.0)
        (inputs_with setting.now.plan.now env.now parts slots.now) (part_of held)) }
    ensures eras { (x : ℕ) → N.has_era nodes.new x ≡ N.has_era nodes.old x }
    ensures stops { IfErr result (λ stop. WorkStops setting.now.plan.now setting.now.below
        (handles handler body.0) (inputs_with setting.now.plan.now env.now parts slots.now) stop) }
    ensures fuel { IfErr result (λ stop. (left : ℕ) → CostsMore stop left 0) }
{
    let inputs = with_slots(setting.plan, parts, env, slots)?;
    let kind = handler_kind(handler, body);
    varying_work(setting, kind, inputs.as_slice(), None, nodes)
}

/// What stands for a loop, over its parts and the slots of its body.
pub(crate) fn build_loop_node<N: Nodes>(
    setting: &Setting<'_>,
    env: &[Held],
    looped: Loop,
    parts: Items<Held>,
    body: KernId,
    slots: &[Slot],
    runner: &mut Runner,
    nodes: &mut N,
) -> Result<Held, BuildStop>
    requires below { setting.now.below ≤ 2000 }
    requires plan { IsPlanReady setting.now.plan.now }
    requires era { IsTrue (N.has_era nodes.old setting.now.era.0) }
    requires taken { (sites : Sites) → LiveAreTaken (N.way nodes.old sites) }
    requires there { (sites : Sites) → AreThere (N.way nodes.old sites)
        (inputs_with setting.now.plan.now env.now parts slots.now) }
    requires slots { AreSlotsIn (length env.now) setting.now.plan.now.sources slots.now }
    requires kernel { HasKernel setting.now.plan.now.table (loops looped body.0) }
    ensures builds { IfOk result (λ held. (sites : Sites) →
        BuildsWork (N.way nodes.old sites) (N.way nodes.new sites) setting.now.plan.now
        setting.now.era.0 setting.now.below (loops looped body.0)
        (inputs_with setting.now.plan.now env.now parts slots.now) (part_of held)) }
    ensures eras { (x : ℕ) → N.has_era nodes.new x ≡ N.has_era nodes.old x }
    ensures stops { IfErr result (λ stop. WorkStops setting.now.plan.now setting.now.below
        (loops looped body.0) (inputs_with setting.now.plan.now env.now parts slots.now) stop) }
    ensures paid { IfOk result (λ held. runner.new.fuel.left + build_work
        (plan_of setting.now.plan.now) setting.now.below (loops looped body.0)
        (inputs_with setting.now.plan.now env.now parts slots.now) ≡ runner.old.fuel.left) }
    ensures fuel { IfErr result (λ stop. CostsMore stop runner.old.fuel.left (build_work
        (plan_of setting.now.plan.now) setting.now.below (loops looped body.0)
        (inputs_with setting.now.plan.now env.now parts slots.now))) }
{
    let inputs = with_slots(setting.plan, parts, env, slots)?;
    let kind = loop_kind(looped, body);
    plain_work(setting, kind, inputs.as_slice(), runner, nodes)
}

/// What stands for a pure expression that is computed as a whole.
pub(crate) fn build_region<N: Nodes>(
    setting: &Setting<'_>,
    env: &[Held],
    id: KernId,
    slots: &[Slot],
    runner: &mut Runner,
    nodes: &mut N,
) -> Result<Held, BuildStop>
    requires below { setting.now.below ≤ 2000 }
    requires plan { IsPlanReady setting.now.plan.now }
    requires era { IsTrue (N.has_era nodes.old setting.now.era.0) }
    requires taken { (sites : Sites) → LiveAreTaken (N.way nodes.old sites) }
    requires there { (sites : Sites) → AreThere (N.way nodes.old sites)
        (slot_parts (plan_of setting.now.plan.now) (parts_of env.now) slots.now) }
    requires slots { AreSlotsIn (length env.now) setting.now.plan.now.sources slots.now }
    requires kernel { HasKernel setting.now.plan.now.table (runs id.0) }
    ensures builds { IfOk result (λ held. (sites : Sites) →
        BuildsWork (N.way nodes.old sites) (N.way nodes.new sites) setting.now.plan.now
        setting.now.era.0 setting.now.below (runs id.0)
        (slot_parts (plan_of setting.now.plan.now) (parts_of env.now) slots.now)
        (part_of held)) }
    ensures eras { (x : ℕ) → N.has_era nodes.new x ≡ N.has_era nodes.old x }
    ensures stops { IfErr result (λ stop. WorkStops setting.now.plan.now setting.now.below
        (runs id.0) (slot_parts (plan_of setting.now.plan.now) (parts_of env.now) slots.now) stop) }
    ensures paid { IfOk result (λ held. runner.new.fuel.left + build_work
        (plan_of setting.now.plan.now) setting.now.below (runs id.0)
        (slot_parts (plan_of setting.now.plan.now) (parts_of env.now) slots.now)
        ≡ runner.old.fuel.left) }
    ensures fuel { IfErr result (λ stop. CostsMore stop runner.old.fuel.left (build_work
        (plan_of setting.now.plan.now) setting.now.below (runs id.0)
        (slot_parts (plan_of setting.now.plan.now) (parts_of env.now) slots.now))) }
{
    let inputs = with_slots(setting.plan, Items::new(setting.plan.alloc()), env, slots)?;
    let kind = NodeKind::Kernel(Code::Kern(id));
    plain_work(setting, kind, inputs.as_slice(), runner, nodes)
}
