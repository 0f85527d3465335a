//! The sources that a script may set, by name.

ghost use Rattle.std.specs.Prelude.{◌≡◌, ◌++◌, ℕ, List, [], ◌∷◌, map, IfOk, OnOk};
ghost use Rattle.indexmap.specs.IndexMap.{get_by_text};
ghost use Rattle.fr_script.specs.Sources.{named, AddsNames, input_source, event_source, sources};

use fr_core::{Event, Input, Program};
use fr_value::SrcId;
use indexmap::IndexMap;
use std::alloc::{AllocError, Global};

/// How a script sets a source.
#[derive(Clone, Copy, Debug, PartialEq, Eq)]
pub enum SourceKind {
    /// A line gives it its value from then on.
    Input,
    /// A line is an occurrence.
    Event,
}

/// A source that a script may set.
#[derive(Clone, Copy, Debug, PartialEq, Eq)]
pub struct Source {
    /// Its number in the program.
    pub source: SrcId,
    pub kind: SourceKind,
}

/// Adds a name, unless it means a source already.
fn add(
    alloc: Global,
    names: &mut IndexMap<String, Source>,
    name: &str,
    source: Source,
) -> Result<(), AllocError>
    ensures { OnOk result (AddsNames (get_by_text names.old) ((name.now, source) ∷ []) (get_by_text names.new)) }
{
    if !names.contains_key(name) {
        names.insert(String::from_str(alloc, name)?, source)?;
    }
    Ok(())
}

fn add_inputs(
    alloc: Global,
    names: &mut IndexMap<String, Source>,
    inputs: &[Input],
) -> Result<(), AllocError>
    ensures { OnOk result (AddsNames (get_by_text names.old) (map input_source inputs.now) (get_by_text names.new)) }
{
    for input in inputs {
        let source = Source {
            source: input.source,
            kind: SourceKind::Input,
        };
        add(alloc, names, input.name.as_str(), source)?;
    }
    Ok(())
}

fn add_events(
    alloc: Global,
    names: &mut IndexMap<String, Source>,
    events: &[Event],
) -> Result<(), AllocError>
    ensures { OnOk result (AddsNames (get_by_text names.old) (map event_source events.now) (get_by_text names.new)) }
{
    for event in events {
        let source = Source {
            source: event.source,
            kind: SourceKind::Event,
        };
        add(alloc, names, event.name.as_str(), source)?;
    }
    Ok(())
}

/// The sources of a program by name.
pub fn names_of(alloc: Global, program: &Program) -> Result<IndexMap<String, Source>, AllocError>
    ensures { IfOk result (λ names. (q : List ℕ) → get_by_text names q ≡ named (sources program.now) q) }
{
    let mut names = IndexMap::new(alloc);
    add_inputs(alloc, &mut names, program.inputs.as_slice())?;
    add_events(alloc, &mut names, program.events.as_slice())?;
    Ok(names)
}
