//! What a form gives, and what it keeps in its cell.
ghost use Rattle.std.specs.Prelude.{◌≡◌, IfOk, Err, None};
ghost use Rattle.fr_meaning.specs.States.{gives, keeps, stays, cell_kind, of_operator, of_handler};
ghost use Rattle.fr_forms.specs.Lent.{next_of, form_line, kind_of};

use crate::seen::Seen;
use fr_core::{Handler, Operator};
use fr_value::{Bad, Now, Value};
use std::alloc::AllocError;

/// What a form's cell holds.
#[derive(Drop)]
pub enum Cell {
    /// A datum.
    Datum(Value),
    /// An event's state.
    Payload(Option<Value>),
}

/// What a form's cell holds, borrowed from who keeps it.
#[derive(Clone, Copy)]
pub enum LentCell<'a> {
    /// A datum.
    Datum(&'a Value),
    /// An event's state: its payload, where it occurs.
    Payload(Option<&'a Value>),
}

/// The kind of cell that a form has.
#[derive(Clone, Copy, Debug, PartialEq, Eq)]
pub enum CellKind {
    /// No cell.
    KeepsNone,
    /// A datum.
    KeepsDatum,
    /// An event's state.
    KeepsPayload,
}

/// What a form gives: its value now, its cell next, and the refusal of a part beside a value that isn't Bad.
#[derive(Drop)]
pub struct Line {
    pub value: Seen,
    pub next: Option<Cell>,
    pub refusal: Option<Bad>,
}

/// The kind of an operator's cell.
pub fn operator_cell(operator: Operator) -> CellKind
    ensures { kind_of result ≡ cell_kind (of_operator operator) }
{
    match operator {
        Operator::Prim(_) => CellKind::KeepsNone,
        Operator::MergeE => CellKind::KeepsNone,
        Operator::DelayE => CellKind::KeepsPayload,
        Operator::Hold => CellKind::KeepsDatum,
        Operator::Changes => CellKind::KeepsDatum,
        Operator::OnceE => CellKind::KeepsDatum,
        Operator::Delay => CellKind::KeepsDatum,
    }
}

/// The kind of a handler's cell.
pub fn handler_cell(handler: Handler) -> CellKind
    ensures { kind_of result ≡ cell_kind (of_handler handler) }
{
    match handler {
        Handler::MapE => CellKind::KeepsNone,
        Handler::FilterE => CellKind::KeepsNone,
        Handler::CollectB => CellKind::KeepsDatum,
        Handler::CollectE => CellKind::KeepsDatum,
    }
}

/// A line that refuses no part.
pub fn plain_line(value: Seen, next: Option<Cell>) -> Line
    ensures { form_line result ≡ gives value (next_of next) }
{
    Line {
        value,
        next,
        refusal: None,
    }
}

/// A line that is Bad.
pub fn bad_line(bad: Bad) -> Line
    ensures { form_line result ≡ gives (Err bad) None }
{
    plain_line(Err(bad), None)
}

/// A line with a plain value that its cell keeps. It fails only where there is no memory.
pub fn keeping_line(value: &Value) -> Result<Line, AllocError>
    ensures { IfOk result (λ l. form_line l ≡ keeps value.now) }
{
    let next = Some(Cell::Datum(value.share()?));
    Ok(plain_line(Ok(Now::Plain(value.share()?)), next))
}

/// A line without an occurrence, whose cell keeps this. It fails only where there is no memory.
pub fn staying_line(base: &Value) -> Result<Line, AllocError>
    ensures { IfOk result (λ l. form_line l ≡ stays base.now) }
{
    Ok(plain_line(Ok(Now::Occ(None)), Some(Cell::Datum(base.share()?))))
}
