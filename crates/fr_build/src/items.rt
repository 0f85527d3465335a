//! The building of the items of a program's body.
ghost use Rattle.std.specs.Prelude.{◌≡◌, ◌++◌, ◌∷◌, ℕ, [], IfOk, IfErr, OnOk};
ghost use Rattle.fr_nodes.specs.Kinds.{Sites, parts_of};
ghost use Rattle.fr_ready.specs.Planning.{ItemsReady};
ghost use Rattle.fr_build.specs.Ready.{IsGround, IsPlanReady};
ghost use Rattle.fr_build.specs.Items.{BuildsItems, ItemsMade, ItemsStop, StandsNext};

use crate::building::build;
use crate::plan::{Plan, Runner};
use crate::stops::BuildStop;
use fr_core::LowItem;
use fr_nodes::Nodes;
use fr_value::{EraId, Held};
use sqlite_items::Items;

/// How many levels are left at an item's expression, which stands one level below the program.
const LEVELS: u32 = 2000;

/// Builds an item: a definition binds a variable for the items behind it, and a show is shown.
fn build_item<N: Nodes>(
    plan: &Plan<'_>,
    item: &LowItem,
    env: &mut Items<Held>,
    shown: &mut Items<Held>,
    runner: &mut Runner,
    nodes: &mut N,
) -> Result<(), BuildStop>
    requires { StandsNext plan.now item.now (N.way nodes.old) (N.has_era nodes.old) env.old shown.old }
    ensures made { OnOk result ((next : StandsNext plan.now item.now (N.way nodes.old)
        (N.has_era nodes.old) env.old shown.old) → ItemsMade plan.now (next.done ++ item.now ∷ [])
        next.was (N.way nodes.new) next.had (N.has_era nodes.new) env.new shown.new) }
    ensures stops { IfErr result (λ stop. (next : StandsNext plan.now item.now (N.way nodes.old)
        (N.has_era nodes.old) env.old shown.old) →
        ItemsStop plan.now (next.done ++ item.now ∷ next.rest) stop) }
{
    match item {
        LowItem::Define(e) => {
            let held = build(plan, LEVELS, env, e, EraId(0), runner, nodes)?;
            env.push(held)?;
        }
        LowItem::Show(_, e) => {
            let held = build(plan, LEVELS, env, e, EraId(0), runner, nodes)?;
            shown.push(held)?;
        }
    }
    Ok(())
}

/// Makes the nodes of the items of a program's body, one after the other, in the program's era, and gives what stands for
/// each show, in program order.
///
/// What never changes is computed here, and 1 is spent for each call of a function. `Bad` comes only where evaluating the
/// body refuses a part that never changes; after any error the graph is of no use.
pub fn build_items<N: Nodes>(
    plan: &Plan<'_>,
    items: &[LowItem],
    runner: &mut Runner,
    nodes: &mut N,
) -> Result<Items<Held>, BuildStop>
    requires plan { IsPlanReady plan.now }
    requires ready { ItemsReady plan.now 0 items.now }
    requires ground { IsGround (N.way nodes.old) (N.has_era nodes.old) 0 [] plan.now.sources }
    ensures builds { IfOk result (λ shown. (sites : Sites) → BuildsItems sites
        (N.way nodes.old sites) (N.way nodes.new sites) plan.now items.now (parts_of shown)) }
    ensures eras { OnOk result ((x : ℕ) → N.has_era nodes.new x ≡ N.has_era nodes.old x) }
    ensures stops { IfErr result (ItemsStop plan.now items.now) }
{
    let mut env = Items::new(plan.alloc());
    let mut shown = Items::new(plan.alloc());
    for item in items {
        build_item(plan, item, &mut env, &mut shown, runner, nodes)?;
    }
    Ok(shown)
}
