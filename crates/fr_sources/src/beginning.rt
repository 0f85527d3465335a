//! The values of sources at the first instant.
ghost use Rattle.std.specs.Prelude.{◌≡◌, ◌+◌, IfOk, OnOk, None, replicate};
ghost use Rattle.fr_core.specs.WellFormed.{last_source};
ghost use Rattle.fr_value.specs.declared.now.Now.TheVariants as now;
ghost use Rattle.fr_sources.specs.Writes.{firsts_put};

use crate::writing::put;
use fr_core::{Input, Program};
use fr_value::Now;
use std::alloc::{AllocError, Global};

const MOST_SOURCES: usize = 4_294_967_294;

/// The number of the last source. It fails where a program has more than 4,294,967,294 inputs and events.
pub(crate) fn last_source_of(program: &Program) -> Result<u32, AllocError>
    ensures { IfOk result (λ n. n ≡ last_source program.now) }
{
    let inputs = program.inputs.len();
    let events = program.events.len();
    if inputs > MOST_SOURCES || events > MOST_SOURCES - inputs {
        return Err(AllocError);
    }
    Ok((inputs + events) as u32)
}

/// As many sources as the number of the last one calls for, all of them events that don't occur. It fails only where there
/// is no memory.
pub(crate) fn silent(alloc: Global, last: u32) -> Result<Vec<Now>, AllocError>
    ensures { IfOk result (λ v. v.items ≡ replicate (last + 1) (now.Occ None)) }
{
    let mut values = Vec::new(alloc);
    values.push(Now::Occ(None))?;
    for _i in 0..last {
        values.push(Now::Occ(None))?;
    }
    Ok(values)
}

/// Puts the first value of each input. It fails only where there is no memory.
pub(crate) fn put_firsts(values: &mut Vec<Now>, inputs: &[Input]) -> Result<(), AllocError>
    ensures { OnOk result (values.new.items ≡ firsts_put inputs.now values.old.items) }
{
    for input in inputs {
        put(values, input.source, Now::Plain(input.first.share()?));
    }
    Ok(())
}
