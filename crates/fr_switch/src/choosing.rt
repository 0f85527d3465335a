//! The building of a switch's choice over what its watch holds.
ghost use Rattle.std.specs.Prelude.{◌≡◌, ◌≤◌, ℕ, IfOk, IfErr, IsTrue, OnOk, length, if◌then◌else◌};
ghost use Rattle.fr_graph.specs.Fails.{Fails};
ghost use Rattle.fr_nodes.specs.Kinds.{Sites, part_of, parts_of};
ghost use Rattle.fr_build.specs.Builds.{BuildsExpr, FailsBehind};
ghost use Rattle.fr_build.specs.Ready.{IsGround, IsPlanReady, IsReady, PlanMatches, plan_of};
ghost use Rattle.fr_engine.specs.Stops.{StopsWhere};
ghost use Rattle.fr_ready.specs.Seen.{branches_seen};
ghost use Rattle.fr_ready.specs.Switches.{sites_by};
ghost use Rattle.fr_switch.specs.Fit.{IsBuildable};
ghost use Rattle.fr_switch.specs.Stops.{stop_of};

use fr_build::{BuildStop, Plan, Runner, build};
use fr_core::Low;
use fr_engine::{Choices, RunStop};
use fr_kernel::{Fuel, KernTable, Machine};
use fr_nodes::Signals;
use fr_ready::{Branches, ChoicesAt};
use fr_value::{EraId, Held, NodeId, SiteId};
use sqlite_items::Items;
use std::alloc::{AllocError, Global};
use std::marker::Model;
use std::mem::replace;

/// The most levels below an expression of a body.
const MOST_LEVELS: u32 = 2000;

/// A lowered program whose switches' choices can be built: its functions and kernels, and the choices at each site.
/// Contracts see the plan and what was found at each site.
#[derive(Drop)]
pub struct ProgramChoices<'a> {
    plan: Plan<'a>,
    choices: ChoicesAt<'a>,
}

impl<'a> Model for ProgramChoices<'a> {
    ghost use Rattle.fr_switch.specs.Program.{Program, program_code};

    ghost Value = { Program };

    ghost coded = { program_code };

    ghost view = { λ c. record { planned = c.plan; found = c.choices } };

    ghost use Rattle.fr_switch.specs.Program.{IsWhole};

    ghost invariant = { λ c. IsWhole c.plan c.choices };
}

impl<'a> ProgramChoices<'a> {
    /// The program of a plan, with the choices at its sites.
    pub fn of(plan: Plan<'a>, choices: ChoicesAt<'a>) -> ProgramChoices<'a>
        requires ready { IsPlanReady plan }
        requires matches { PlanMatches (sites_by choices) plan }
        ensures plan { result.planned ≡ plan.entry }
        ensures choices { result.found ≡ choices.entry }
    {
        ProgramChoices { plan, choices }
    }
}

/// A part, with one more owner of its value.
fn shared(part: &Held) -> Result<Held, AllocError>
    ensures { IfOk result (λ held. held ≡ part.now) }
{
    match part {
        Held::Steady(value) => Ok(Held::Steady(value.share()?)),
        Held::Signal(id) => Ok(Held::Signal(*id)),
    }
}

/// Parts, with one more owner of each value.
fn all_shared(alloc: Global, parts: &[Held]) -> Result<Items<Held>, AllocError>
    ensures { IfOk result (λ items. items ≡ parts.now) }
{
    let mut items = Items::new(alloc);
    for part in parts {
        items.push(shared(part)?)?;
    }
    Ok(items)
}

/// The choice that a key chooses.
fn chosen(branches: Branches<'_>, holds: bool) -> &Low
    ensures { result.now ≡ (if holds then (branches_seen branches.entry).yes else (branches_seen branches.entry).no) }
{
    if holds { branches.yes } else { branches.no }
}

/// A stop of building as one of a run.
fn run_stop(stop: BuildStop) -> RunStop
    ensures { result ≡ stop_of stop }
{
    match stop {
        BuildStop::Memory(e) => RunStop::Memory(e),
        BuildStop::Bad(bad) => RunStop::Bad(bad),
        BuildStop::Fuel => RunStop::Fuel,
        BuildStop::TooMany => RunStop::TooMany,
    }
}

/// Builds an expression on a machine and fuel that are lent. The errors are those of building.
fn build_on<N: Signals>(
    plan: &Plan<'_>,
    left: u32,
    mut env: Items<Held>,
    expr: &Low,
    era: EraId,
    machine: &mut Machine,
    fuel: &mut Fuel,
    nodes: &mut N,
) -> Result<Held, RunStop>
    requires left { left ≤ 2001 }
    requires plan { IsPlanReady plan.now }
    requires ready { IsReady plan.now (length env) expr.now }
    requires ground { IsGround (N.way nodes.old) (N.has_era nodes.old) era.0 (parts_of env) plan.now.sources }
    ensures builds { IfOk result (λ held. (sites : Sites) →
        BuildsExpr sites (N.way nodes.old sites) (N.way nodes.new sites) plan.now era.0 left
        expr.now (parts_of env) (part_of held)) }
    ensures eras { OnOk result ((x : ℕ) → N.has_era nodes.new x ≡ N.has_era nodes.old x) }
    ensures stops { IfErr result (λ stop. StopsWhere stop
        (FailsBehind (Fails (plan_of plan.now) left expr.now (parts_of env)))) }
{
    let mut runner = Runner {
        machine: replace(machine, Machine::new(plan.alloc())),
        fuel: *fuel,
    };
    let built = build(plan, left, &mut env, expr, era, &mut runner, nodes);
    *fuel = runner.fuel;
    *machine = runner.machine;
    match built {
        Ok(held) => Ok(held),
        Err(stop) => Err(run_stop(stop)),
    }
}

impl<'a, N: Signals> Choices<N> for ProgramChoices<'a> {
    ghost plan = { λ c. plan_of c.planned };

    ghost sites = { λ c. sites_by c.found };

    ghost many = { λ c. c.planned.sources };

    ghost can = { λ c a b scope. IsBuildable c.planned (sites_by c.found) a b scope };

    fn alloc(&self) -> Global {
        self.plan.alloc()
    }

    fn table(&self) -> &KernTable {
        self.plan.table()
    }

    fn build(
        &self,
        nodes: &mut N,
        site: SiteId,
        holds: bool,
        held: &[Held],
        watch: NodeId,
        era: EraId,
        nest: u32,
        machine: &mut Machine,
        fuel: &mut Fuel,
        late: &mut Vec<NodeId>,
    ) -> Result<Held, RunStop> {
        nodes.is_sound();
        let env = all_shared(self.plan.alloc(), held)?;
        let expr = chosen(self.choices.choices(site), holds);
        let left = MOST_LEVELS - nest;
        let part = build_on(&self.plan, left, env, expr, era, machine, fuel, nodes)?;
        nodes.list_late(era, late)?;
        Ok(part)
    }
}
