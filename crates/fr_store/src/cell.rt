ghost use Rattle.std.specs.Prelude.{◌≡◌, None, Some};
ghost use Rattle.std.specs.Option.{option_map};
ghost use Rattle.fr_store.specs.Rows.{cell_of};

use fr_value::Value;
use std::marker::Model;

/// What a node keeps from one instant to the next.
#[derive(Drop)]
pub enum Cell {
    /// A datum.
    Kept(Value),
    /// An event's state.
    Payload(Option<Value>),
}

/// The cell of a node, if it has one. Contracts see the option of it, which would take more memory.
#[derive(Drop)]
pub struct NodeCell {
    row: CellRow,
}

/// The cell by what is in it.
#[derive(Drop)]
enum CellRow {
    Nothing,
    Kept(Value),
    /// The state of an event that doesn't occur.
    Silent,
    /// The state of an event that occurs.
    Payload(Value),
}

/// A cell as it is read.
#[derive(Clone, Copy)]
pub enum SeenCell<'a> {
    /// A datum.
    Kept(&'a Value),
    /// The state of an event that doesn't occur.
    Silent,
    /// The state of an event that occurs.
    Payload(&'a Value),
}

impl Model for NodeCell {
    ghost use Rattle.std.specs.Prelude.{Option};
    ghost use Rattle.std.specs.Coded.{coded_option};
    ghost use Rattle.fr_store.specs.declared.cell.Cell.{Cell};
    ghost use Rattle.fr_store.specs.contracts.cell.Cell as cell;

    ghost Value = { Option Cell };

    ghost coded = { coded_option cell.the_row.coded };

    ghost use Rattle.fr_store.specs.Rows.{cell_in};

    ghost view = { λ it. cell_in it.row };
}

impl NodeCell {
    /// No cell.
    pub(crate) fn none() -> NodeCell
        ensures { result ≡ None }
    {
        NodeCell {
            row: CellRow::Nothing,
        }
    }

    pub(crate) fn some(cell: Cell) -> NodeCell
        ensures { result ≡ Some cell }
    {
        let row = match cell {
            Cell::Kept(value) => CellRow::Kept(value),
            Cell::Payload(None) => CellRow::Silent,
            Cell::Payload(Some(value)) => CellRow::Payload(value),
        };
        NodeCell { row }
    }

    pub(crate) fn of(cell: Option<Cell>) -> NodeCell
        ensures { result ≡ cell }
    {
        match cell {
            None => NodeCell::none(),
            Some(cell) => NodeCell::some(cell),
        }
    }

    /// The cell, or None exactly where there is none.
    pub fn get(&self) -> Option<SeenCell<'_>>
        ensures { option_map cell_of result ≡ self.now }
    {
        match &self.row {
            CellRow::Nothing => None,
            CellRow::Kept(value) => Some(SeenCell::Kept(value)),
            CellRow::Silent => Some(SeenCell::Silent),
            CellRow::Payload(value) => Some(SeenCell::Payload(value)),
        }
    }
}
