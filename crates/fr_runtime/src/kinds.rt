//! What each source of a program is.
ghost use Rattle.std.specs.Prelude.{◌≡◌, IfOk, length};

use fr_core::{Input, Lowered};
use fr_world::Source;
use std::alloc::{AllocError, Global};

/// Marks the sources that are inputs.
fn mark_inputs(kinds: &mut [Source], inputs: &[Input])
    ensures { length kinds.new ≡ length kinds.old }
{
    for input in inputs {
        if let Some(kind) = kinds.get_mut(input.source.0 as usize) {
            *kind = Source::Input;
        }
    }
}

/// What each of so many sources of a program is, by its number: `now`, an input or an event. It fails only where there is
/// no memory.
pub(crate) fn source_kinds(
    alloc: Global,
    lowered: &Lowered,
    many: u32,
) -> Result<Vec<Source>, AllocError>
    ensures { IfOk result (λ kinds. length kinds.items ≡ many) }
{
    let mut kinds = Vec::new(alloc);
    for number in 0..many {
        kinds.push(if number == 0 {
            Source::Now
        } else {
            Source::Event
        })?;
    }
    mark_inputs(&mut kinds, lowered.inputs.as_slice());
    Ok(kinds)
}
