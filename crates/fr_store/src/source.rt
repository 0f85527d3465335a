ghost use Rattle.std.specs.Prelude.{◌≡◌, None, Some};
ghost use Rattle.std.specs.Option.{option_map};
ghost use Rattle.fr_store.specs.Rows.{held_of};

use crate::inputs::Input;
use fr_value::{Held, NodeId, Value};
use std::marker::Model;

/// What a node shows one instant later, if that was said. Contracts see the option of it, which would take more memory.
#[derive(Drop)]
pub struct Source {
    row: SourceRow,
}

/// The source by what it is.
#[derive(Drop)]
enum SourceRow {
    Nothing,
    Steady(Value),
    Signal(NodeId),
}

impl Model for Source {
    ghost use Rattle.std.specs.Prelude.{Option};
    ghost use Rattle.std.specs.Coded.{coded_option};
    ghost use Rattle.fr_value.specs.declared.now.Held.{Held};
    ghost use Rattle.fr_value.specs.contracts.now.Held as held;

    ghost Value = { Option Held };

    ghost coded = { coded_option held.the_row.coded };

    ghost use Rattle.fr_store.specs.Rows.{source_in};

    ghost view = { λ it. source_in it.row };
}

impl Source {
    /// No source.
    pub(crate) fn none() -> Source
        ensures { result ≡ None }
    {
        Source {
            row: SourceRow::Nothing,
        }
    }

    pub(crate) fn some(source: Held) -> Source
        ensures { result ≡ Some source }
    {
        let row = match source {
            Held::Steady(value) => SourceRow::Steady(value),
            Held::Signal(id) => SourceRow::Signal(id),
        };
        Source { row }
    }

    /// The source, or None exactly where there is none.
    pub fn get(&self) -> Option<Input<'_>>
        ensures { option_map held_of result ≡ self.now }
    {
        match &self.row {
            SourceRow::Nothing => None,
            SourceRow::Steady(value) => Some(Input::Steady(value)),
            SourceRow::Signal(id) => Some(Input::Signal(*id)),
        }
    }
}
