//! The items of a program's body, one after the other.
ghost use Rattle.std.specs.Prelude.{◌≡◌, ◌≤◌, ◌+◌, List, [], ◌∷◌, IfOk};
ghost use Rattle.fr_core.specs.declared.program.Item.{Item as BodyItem};
ghost use Rattle.fr_core.specs.Sets.{greatest_time};
ghost use Rattle.fr_core.specs.WellFormed.{AreNumbered};
ghost use Rattle.fr_meaning.specs.Evaluation.{eval_to, most_levels};
ghost use Rattle.fr_meaning.specs.Afresh.{items as all_items, sources_at, body};
ghost use Rattle.fr_meaning.specs.Dependence.{item_expr};
ghost use Rattle.fr_afresh.specs.Bodies.{behind_item, whole, all_good};
ghost use Rattle.fr_afresh.specs.Progress.{IsProgressOf, IsClean};

use crate::evaluation::eval;
use crate::joining::{Around, Done, nothing_around, with_kept};
use crate::sources::source_values;
use crate::trees::kept_part;
use crate::world::World;
use fr_core::{Core, Inputs, Item, Kept, Program};
use fr_forms::Seen;
use fr_value::{Now, Value};
use sqlite_items::Items;
use std::alloc::{AllocError, Global};

/// The items that were evaluated so far: the values that they bound, the values of shows, and what they leave beside.
#[derive(Drop)]
pub struct Progress {
    pub env: Items<Seen>,
    pub shown: Items<Seen>,
    pub around: Around,
}

/// The levels that an item's expression may nest.
const LEVELS: u32 = 2000;

fn expr_of(item: &Item) -> &Core
    ensures { result.now ≡ item_expr item.now }
{
    match item {
        Item::Define(expr) => expr,
        Item::Show(_, expr) => expr,
    }
}

/// The items so far, and behind them the one of this number. It fails only where there is no memory.
fn item_behind(
    so_far: Progress,
    number: usize,
    item: &Item,
    done: Done,
) -> Result<Progress, AllocError>
    ensures { IfOk result (λ p. p ≡ behind_item so_far number item.now done) }
{
    let Progress {
        mut env,
        mut shown,
        around,
    } = so_far;
    let Done { value, kept, first } = done;
    let around = with_kept(around, number, kept, first)?;
    match item {
        Item::Define(_) => env.push(value)?,
        Item::Show(_, _) => shown.push(value)?,
    }
    Ok(Progress { env, shown, around })
}

/// Evaluates one item more.
fn next_item(
    world: &World<'_>,
    number: usize,
    so_far: Progress,
    item: &Item,
    kept: &Kept,
) -> Result<Progress, AllocError>
    ensures { IfOk result (λ p. (is : List BodyItem) →
        whole (eval_to most_levels world.now) kept.now (number + 1) p is ≡
        whole (eval_to most_levels world.now) kept.now number so_far (item.now ∷ is)) }
{
    let Progress {
        mut env,
        shown,
        around,
    } = so_far;
    let before = kept_part(Some(kept), number);
    let done = eval(world, LEVELS, &mut env, expr_of(item), before)?;
    let next = item_behind(Progress { env, shown, around }, number, item, done)?;
    Ok(next)
}

/// Evaluates all items, over what they kept. It fails only where there is no memory.
pub fn eval_items(world: &World<'_>, items: &[Item], kept: &Kept) -> Result<Progress, AllocError>
    ensures { IfOk result (λ p. IsProgressOf p
        (all_items (eval_to most_levels world.now) [] kept.now 0 items.now)) }
{
    let mut so_far = Progress {
        env: Items::new(world.alloc()),
        shown: Items::new(world.alloc()),
        around: nothing_around(world.alloc()),
    };
    for i in 0..items.len() {
        so_far = next_item(world, i, so_far, &items[i], kept)?;
    }
    Ok(so_far)
}

/// The values, with one more owner each, where none of them is Bad. It fails only where there is no memory.
pub fn good_values(alloc: Global, values: &[Seen]) -> Result<Option<Items<Now>>, AllocError>
    ensures { IfOk result (λ o. o ≡ all_good values.now) }
{
    let mut good = Items::new(alloc);
    for value in values {
        match value {
            Ok(now) => good.push(now.share()?)?,
            Err(_) => return Ok(None),
        }
    }
    Ok(Some(good))
}

/// Evaluates a program's body at an instant, over the values of its inputs and what it kept. It fails where there is no
/// memory; a program of more than 4,294,967,294 inputs and events has no room.
pub fn eval_body(
    alloc: Global,
    program: &Program,
    values: &[Value],
    kept: &Kept,
    inputs: &Inputs,
) -> Result<Progress, AllocError>
    requires numbered { AreNumbered program.now }
    requires time { inputs.now.time ≤ greatest_time }
    ensures evaluated { IfOk result (λ p. IsProgressOf p
        (body program.now (sources_at program.now values.now inputs.now) kept.now)) }
    ensures clean { IfOk result (λ p. IsClean p) }
{
    let sources = source_values(alloc, program, values, inputs)?;
    let world = World::of(alloc, program, sources.as_slice());
    eval_items(&world, program.body.as_slice(), kept)
}
