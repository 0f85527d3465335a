ghost use Rattle.std.specs.Prelude.{◌≡◌, IfOk};

use fr_core::{Event, Input};
use sqlite_items::Items;
use std::alloc::{AllocError, Global};

fn copy_input(input: &Input) -> Result<Input, AllocError>
    ensures { IfOk result (λ i. i ≡ input.now) }
{
    Ok(Input {
        source: input.source,
        name: input.name.share()?,
        first: input.first.share()?,
    })
}

pub(crate) fn copy_inputs(alloc: Global, inputs: &[Input]) -> Result<Items<Input>, AllocError>
    ensures { IfOk result (λ is. is ≡ inputs.now) }
{
    let mut copies = Items::new(alloc);
    for input in inputs {
        copies.push(copy_input(input)?)?;
    }
    Ok(copies)
}

fn copy_event(event: &Event) -> Result<Event, AllocError>
    ensures { IfOk result (λ e. e ≡ event.now) }
{
    Ok(Event {
        source: event.source,
        name: event.name.share()?,
    })
}

pub(crate) fn copy_events(alloc: Global, events: &[Event]) -> Result<Items<Event>, AllocError>
    ensures { IfOk result (λ es. es ≡ events.now) }
{
    let mut copies = Items::new(alloc);
    for event in events {
        copies.push(copy_event(event)?)?;
    }
    Ok(copies)
}
