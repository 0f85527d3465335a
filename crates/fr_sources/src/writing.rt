//! Writing the values of sources. A number of no source is passed over.
ghost use Rattle.std.specs.Prelude.{◌≡◌};
ghost use Rattle.fr_sources.specs.Writes.{all_cleared, cleared, event_at, with_at, written};

use fr_value::{Now, SrcId, Value};

/// Whether the source is an event.
pub(crate) fn is_event(values: &[Now], source: SrcId) -> bool
    ensures { result ≡ event_at values.now source.0 }
{
    match values.get(source.0 as usize) {
        Some(Now::Occ(_)) => true,
        Some(Now::Plain(_)) => false,
        None => false,
    }
}

/// Puts what a source has.
pub(crate) fn put(values: &mut Vec<Now>, source: SrcId, now: Now)
    ensures { values.new.items ≡ with_at (λ _. now) source.0 values.old.items }
{
    let at = source.0 as usize;
    if at < values.len() {
        values[at] = now;
    }
}

/// An event that occurs occurs no longer; an input stays as it is.
fn clear(values: &mut Vec<Now>, source: SrcId)
    ensures { values.new.items ≡ with_at cleared source.0 values.old.items }
{
    if is_event(values, source) {
        put(values, source, Now::Occ(None));
    }
}

/// The events among these sources occur no longer.
pub(crate) fn clear_all(values: &mut Vec<Now>, sources: &[SrcId])
    ensures { values.new.items ≡ all_cleared sources.now values.old.items }
{
    for source in sources {
        clear(values, *source);
    }
}

/// Gives an input a new value, or an event an occurrence.
pub(crate) fn write(values: &mut Vec<Now>, source: SrcId, value: Value)
    ensures { values.new.items ≡ with_at (written value) source.0 values.old.items }
{
    if is_event(values, source) {
        put(values, source, Now::Occ(Some(value)));
    } else {
        put(values, source, Now::Plain(value));
    }
}
