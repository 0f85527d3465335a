//! What a node of the store is in the graph of signals.
ghost use Rattle.std.specs.Prelude.{◌≡◌};
ghost use Rattle.std.specs.Option.{option_map};
ghost use Rattle.fr_forms.specs.Lent.{cell_of as form_cell, next_of, earlier};
ghost use Rattle.fr_events.specs.Works.{code_work, work_of as node_work_of, is_late_in, graph_work, cell_of, cell_at};

use fr_core::{Handler, Loop, Operator};
use fr_forms::LentCell;
use fr_store::{Cell, Code, NodeKind, SeenCell};
use fr_value::KernId;

/// What a node computes from the values of its inputs.
#[derive(Clone, Copy)]
pub(crate) enum NodeWork {
    /// An operator.
    Operates(Operator),
    /// A form with a handler, whose body is this kernel.
    Handles(Handler, KernId),
    /// A loop, whose body is this kernel.
    Loops(Loop, KernId),
    /// A kernel as a whole.
    Runs(KernId),
    /// What the name of a `feedback` is bound to.
    Feeds,
}

fn work_of_code(code: Code) -> NodeWork
    ensures { graph_work result ≡ code_work code }
{
    match code {
        Code::Prim(prim) => NodeWork::Operates(Operator::Prim(prim)),
        Code::Kern(id) => NodeWork::Runs(id),
        Code::Fold(id) => NodeWork::Loops(Loop::Fold, id),
        Code::Repeat(id) => NodeWork::Loops(Loop::Repeat, id),
    }
}

/// The work of a node; None for a source, a watch and the result of one.
pub(crate) fn work_of(kind: &NodeKind) -> Option<NodeWork>
    ensures { option_map graph_work result ≡ node_work_of kind.now }
{
    match kind {
        NodeKind::Now => None,
        NodeKind::Input => None,
        NodeKind::Event => None,
        NodeKind::IfWatch(_, _) => None,
        NodeKind::Result => None,
        NodeKind::Kernel(code) => Some(work_of_code(*code)),
        NodeKind::MapE(id) => Some(NodeWork::Handles(Handler::MapE, *id)),
        NodeKind::FilterE(id) => Some(NodeWork::Handles(Handler::FilterE, *id)),
        NodeKind::CollectB(id) => Some(NodeWork::Handles(Handler::CollectB, *id)),
        NodeKind::CollectE(id) => Some(NodeWork::Handles(Handler::CollectE, *id)),
        NodeKind::MergeE => Some(NodeWork::Operates(Operator::MergeE)),
        NodeKind::Hold => Some(NodeWork::Operates(Operator::Hold)),
        NodeKind::Changes => Some(NodeWork::Operates(Operator::Changes)),
        NodeKind::OnceE => Some(NodeWork::Operates(Operator::OnceE)),
        NodeKind::Delay => Some(NodeWork::Operates(Operator::Delay)),
        NodeKind::DelayE => Some(NodeWork::Operates(Operator::DelayE)),
        NodeKind::Feedback => Some(NodeWork::Feeds),
    }
}

/// Whether a node takes its last part's value behind the instant.
pub fn is_late(kind: &NodeKind) -> bool
    ensures { result ≡ is_late_in (node_work_of kind.now) }
{
    match kind {
        NodeKind::Delay | NodeKind::DelayE | NodeKind::Feedback => true,
        _ => false,
    }
}

/// A node's cell as the lines of forms read it.
pub(crate) fn lent_cell(cell: Option<SeenCell<'_>>) -> Option<LentCell<'_>>
    ensures { earlier result ≡ cell_at cell.entry }
{
    match cell {
        None => None,
        Some(SeenCell::Kept(value)) => Some(LentCell::Datum(value)),
        Some(SeenCell::Silent) => Some(LentCell::Payload(None)),
        Some(SeenCell::Payload(value)) => Some(LentCell::Payload(Some(value))),
    }
}

/// A form's cell as a node keeps it.
pub(crate) fn kept_cell(cell: fr_forms::Cell) -> Cell
    ensures { cell_of result ≡ form_cell cell }
{
    match cell {
        fr_forms::Cell::Datum(value) => Cell::Kept(value),
        fr_forms::Cell::Payload(payload) => Cell::Payload(payload),
    }
}

/// A form's next cell, if it has one, as a node keeps it.
pub(crate) fn kept_next(next: Option<fr_forms::Cell>) -> Option<Cell>
    ensures { option_map cell_of result ≡ next_of next }
{
    match next {
        None => None,
        Some(cell) => Some(kept_cell(cell)),
    }
}
