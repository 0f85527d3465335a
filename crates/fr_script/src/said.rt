//! What one line of a script says.

ghost use Rattle.std.specs.Prelude.{◌≡◌, ℕ, min, IfOk};
ghost use Rattle.std.specs.Option.{option_copied};
ghost use Rattle.indexmap.specs.IndexMap.{get_by_text};
ghost use Rattle.fr_script.specs.Limits.{greatest_number};
ghost use Rattle.fr_script.specs.Kinds.{says, says_source, says_value, says_at};
ghost use Rattle.fr_script.specs.Reading.{reading};

use crate::lines::{LineFields, fields, is_blank_line};
use crate::progress::Progress;
use crate::sources::Source;
use crate::turn::LineKind;
use fr_core::Entry;
use fr_reader::{OneStop, read_one};
use fr_value::SrcId;
use indexmap::IndexMap;
use std::alloc::{AllocError, Global};

/// What a line says.
#[derive(Drop)]
pub enum Said {
    /// Nothing.
    Blank,
    /// A value for a source at a time.
    Sets(u64, Entry),
    /// It is bad.
    Bad(LineKind),
}

fn said_value(alloc: Global, time: u64, source: SrcId, text: &[u8]) -> Result<Said, AllocError>
    ensures { IfOk result (λ s. s ≡ says_value time source (reading text.now)) }
{
    match read_one(alloc, text) {
        Ok(value) => Ok(Said::Sets(time, Entry { source, value })),
        Err(OneStop::Refused) => Ok(Said::Bad(LineKind::Value)),
        Err(OneStop::Memory(e)) => Err(e),
    }
}

fn said_source(
    alloc: Global,
    past: &Progress,
    time: u64,
    text: &[u8],
    source: Option<&Source>,
) -> Result<Said, AllocError>
    ensures { IfOk result (λ s. s ≡ says_source past.now time text.now (option_copied source.entry)) }
{
    let Some(source) = source else {
        return Ok(Said::Bad(LineKind::Name));
    };
    if past.stands(time, source.source) {
        return Ok(Said::Bad(LineKind::Twice));
    }
    said_value(alloc, time, source.source, text)
}

fn said_at(
    alloc: Global,
    names: &IndexMap<String, Source>,
    past: &Progress,
    line: LineFields<'_>,
) -> Result<Said, AllocError>
    ensures { IfOk result (λ s. (digits : ℕ) → line.entry.time ≡ min digits greatest_number
        → s ≡ says_at (get_by_text names.now) past.now digits line.entry.name.now line.entry.rest.now) }
{
    if past.is_full(line.time) {
        return Ok(Said::Bad(LineKind::Many));
    }
    if past.is_wrong(line.time) {
        return Ok(Said::Bad(LineKind::Time));
    }
    said_source(alloc, past, line.time, line.rest, names.get(line.name))
}

/// What a line says behind the lines before it, which have so many bytes with the newline that ends it.
#[tactic(auto, unfolding(crate::specs::Kinds::says))]
pub fn said_line(
    alloc: Global,
    names: &IndexMap<String, Source>,
    past: &Progress,
    line: &[u8],
    n: u64,
) -> Result<Said, AllocError>
    ensures { IfOk result (λ s. s ≡ says (get_by_text names.now) past.now line.now n) }
{
    if past.is_long(line) {
        return Ok(Said::Bad(LineKind::Long));
    }
    if past.is_beyond(n) {
        return Ok(Said::Bad(LineKind::Many));
    }
    if is_blank_line(line) {
        return Ok(Said::Blank);
    }
    match fields(line) {
        Some(line) => said_at(alloc, names, past, line),
        None => Ok(Said::Bad(LineKind::Grammar)),
    }
}
