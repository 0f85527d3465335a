//! The values of inputs and sources at an instant.
ghost use Rattle.std.specs.Prelude.{◌≡◌, ◌≤◌, ◌<◌, ◌+◌, ◌∷◌, ℕ, suc, true, pos, map, drop, unwrap_or, IfOk, length, slice_get, None};
ghost use Rattle.fr_core.specs.Sets.{value_in, greatest_time};
ghost use Rattle.fr_core.specs.WellFormed.{last_source, AreNumbered, most_entries};
ghost use Rattle.fr_meaning.specs.Afresh.{latest, source_now, sources_at};
ghost use Rattle.fr_afresh.specs.Walks.{AreBehind, begins_with, left_from};
ghost use Rattle.fr_value.specs.declared.value.Value.TheVariants as value;

use fr_core::{Input, Inputs, Program, Sets};
use fr_forms::share_option;
use fr_value::{Now, SrcId, Value};
use sqlite_items::Items;
use std::alloc::{AllocError, Global};

/// The first values of the inputs. It fails only where there is no memory.
pub fn first_values(alloc: Global, inputs: &[Input]) -> Result<Items<Value>, AllocError>
    ensures { IfOk result (λ vs. vs ≡ map (λ i. i.first) inputs.now) }
{
    let mut values = Items::new(alloc);
    for input in inputs {
        values.push(input.first.share()?)?;
    }
    Ok(values)
}

fn value_after(sets: &Sets, source: SrcId, value: &Value) -> Result<Value, AllocError>
    ensures { IfOk result (λ v. v ≡ unwrap_or (value_in source sets.now) value.now) }
{
    match sets.value_of(source) {
        Some(new) => new.share(),
        None => value.share(),
    }
}

/// The values of the inputs, where each that is set has its new one. It fails only where there is no memory.
pub fn latest_values(
    alloc: Global,
    inputs: &[Input],
    values: &[Value],
    sets: &Sets,
) -> Result<Items<Value>, AllocError>
    ensures { IfOk result (λ vs. vs ≡ latest inputs.now values.now sets.now) }
{
    let mut new = Items::new(alloc);
    for i in 0..inputs.len() {
        match values.get(i) {
            None => return Ok(new),
            Some(value) => new.push(value_after(sets, inputs[i].source, value)?)?,
        }
    }
    Ok(new)
}

/// What an event source has: an occurrence where it is set.
fn event_now(sets: &Sets, source: SrcId) -> Result<Now, AllocError>
    ensures { IfOk result (λ n. n ≡ source_now None (value_in source sets.now)) }
{
    Ok(Now::Occ(share_option(sets.value_of(source))?))
}

/// What an input has: the value at an index. Where there is none, it is as an event source.
fn input_now(values: &[Value], at: usize, sets: &Sets, source: SrcId) -> Result<Now, AllocError>
    ensures { IfOk result (λ n. n ≡ source_now (slice_get values.now at)
        (value_in source sets.now)) }
{
    match values.get(at) {
        Some(value) => Ok(Now::Plain(value.share()?)),
        None => event_now(sets, source),
    }
}

const MOST_SOURCES: usize = 4_294_967_294;

/// The number of the last source. It fails where that isn't below 4,294,967,295: a program of so many sources has no room.
fn last_source_of(program: &Program) -> Result<u32, AllocError>
    ensures ok { IfOk result (λ n. n ≡ last_source program.now) }
    ensures few { IfOk result (λ n. n < most_entries) }
{
    let inputs = program.inputs.len();
    let events = program.events.len();
    if inputs > MOST_SOURCES || events > MOST_SOURCES - inputs {
        return Err(AllocError);
    }
    Ok((inputs + events) as u32)
}

/// The time of an instant, as `now` has it.
fn time_value(time: u64) -> Value
    requires { time ≤ greatest_time }
    ensures { result ≡ value.Int (pos time) }
{
    Value::Int(time as i64)
}

/// What a source has, and the number of inputs that come no later than it in the order of sources.
#[derive(Drop)]
struct Step {
    now: Now,
    next: usize,
}

/// Whether the input at an index is source number `source`.
fn is_source(inputs: &[Input], at: usize, source: u32) -> bool
    ensures value { result ≡ begins_with source (drop at inputs.now) }
    ensures there { result ≡ true → at < length inputs.now }
{
    match inputs.get(at) {
        Some(input) => input.source.0 == source,
        None => false,
    }
}

/// Goes on from source number `before` to the next one. The inputs from the one at index `next` on are those that come
/// behind `before`. It fails only where there is no memory.
fn walk_on(
    inputs: &[Input],
    values: &[Value],
    sets: &Sets,
    next: usize,
    before: u32,
) -> Result<Step, AllocError>
    requires few { before < most_entries }
    requires behind { AreBehind before (drop next inputs.now) }
    ensures behind { IfOk result (λ s. AreBehind (before + 1) (drop s.next inputs.now)) }
    ensures left { IfOk result (λ s. (more : ℕ) → s.now ∷
        left_from inputs.now values.now sets.now s.next (before + 1 + 1) more ≡
        left_from inputs.now values.now sets.now next (before + 1) (suc more)) }
{
    let source = before + 1;
    if is_source(inputs, next, source) {
        let now = input_now(values, next, sets, SrcId(source))?;
        Ok(Step {
            now,
            next: next + 1,
        })
    } else {
        let now = event_now(sets, SrcId(source))?;
        Ok(Step { now, next })
    }
}

/// The values of the sources at an instant, over those of the inputs, in one walk over the inputs. It fails where there
/// is no memory; a program of more than 4,294,967,294 inputs and events has no room.
pub fn source_values(
    alloc: Global,
    program: &Program,
    values: &[Value],
    inputs: &Inputs,
) -> Result<Items<Now>, AllocError>
    requires numbered { AreNumbered program.now }
    requires time { inputs.now.time ≤ greatest_time }
    ensures { IfOk result (λ ns. ns ≡ sources_at program.now values.now inputs.now) }
{
    let last = last_source_of(program)?;
    let mut sources = Items::new(alloc);
    sources.push(Now::Plain(time_value(inputs.time)))?;
    let mut next = 0;
    for i in 0..last {
        let Step { now, next: after } = walk_on(
            program.inputs.as_slice(),
            values,
            &inputs.sets,
            next,
            i,
        )?;
        sources.push(now)?;
        next = after;
    }
    Ok(sources)
}
