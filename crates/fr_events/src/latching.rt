//! What the cell of a late work takes behind the instant.
ghost use Rattle.std.specs.Prelude.{◌≡◌, Some, Ok, IsSome, Result};
ghost use Rattle.std.specs.Option.{option_map};
ghost use Rattle.fr_value.specs.declared.now.Bad.{Bad as BadKind};
ghost use Rattle.fr_meaning.specs.Words.{datum_in, event_of};
ghost use Rattle.fr_meaning.specs.Cells.{Cell as FormCell};
ghost use Rattle.fr_meaning.specs.States.{datum_next, payload_next};
ghost use Rattle.fr_forms.specs.Lent.{form_line};
ghost use Rattle.fr_graph.specs.Graph.{Work, operates};
ghost use Rattle.fr_graph.specs.Known.{latch};
ghost use Rattle.fr_events.specs.Works.{work_of as node_work_of, graph_work};
ghost use Rattle.fr_events.specs.Steps.{Latched, Leaves};

use crate::works::{NodeWork, kept_cell, work_of};
use fr_core::Operator;
use fr_forms::{Line, Seen, feedback_line, operator_line};
use fr_store::{Cell, NodeKind};
use fr_value::{Bad, Now};
use std::alloc::{AllocError, Global};

/// Why a cell takes nothing.
#[derive(Clone, Copy, Debug)]
pub enum LatchStop {
    /// Memory is wanting.
    Memory(AllocError),
    /// The value is refused with this kind.
    Bad(Bad),
}

/// The next cell of a line, or why it has none.
fn next_of(line: Line) -> Result<Cell, LatchStop>
    ensures { (r : Result FormCell BadKind) → Leaves (form_line line) r → Latched result r }
{
    let Line {
        value: _value,
        next,
        refusal,
    } = line;
    match next {
        Some(cell) => Ok(kept_cell(cell)),
        None => Err(LatchStop::Bad(refusal.unwrap_or(Bad::Deep))),
    }
}

/// The cell that keeps a datum, as that of a `feedback` does its body's.
fn datum_latched(source: &Seen) -> Result<Cell, LatchStop>
    ensures { Latched result (datum_next (datum_in source.now)) }
{
    match feedback_line(None, source, source) {
        Err(e) => Err(LatchStop::Memory(e)),
        Ok(line) => next_of(line),
    }
}

/// The cell that keeps an event's state.
fn payload_latched(alloc: Global, source: Seen) -> Result<Cell, LatchStop>
    ensures { Latched result (payload_next (event_of source)) }
{
    match operator_line(alloc, Operator::DelayE, None, &[source]) {
        Err(e) => Err(LatchStop::Memory(e)),
        Ok(line) => next_of(line),
    }
}

/// What the cell of a `delay`, a `delay-e` or a `feedback` takes behind the instant from the value of its last part. It
/// fails where that is refused, or where there is no memory; any other work takes nothing.
pub fn latched(alloc: Global, kind: &NodeKind, source: &Now) -> Result<Cell, LatchStop>
    requires { IsSome (node_work_of kind.now) }
    ensures { (w : Work) → node_work_of kind.now ≡ Some w → Latched result (latch w (Ok source.now)) }
{
    match source.share() {
        Err(e) => Err(LatchStop::Memory(e)),
        Ok(source) => latched_by(alloc, work_of(kind), Ok(source)),
    }
}

fn latched_by(alloc: Global, work: Option<NodeWork>, source: Seen) -> Result<Cell, LatchStop>
    ensures { (w : Work) → option_map graph_work work ≡ Some w → Latched result (latch w source) }
{
    match work {
        None => Err(LatchStop::Bad(Bad::Deep)),
        Some(work) => work_latched(alloc, work, source),
    }
}

fn work_latched(alloc: Global, work: NodeWork, source: Seen) -> Result<Cell, LatchStop>
    ensures { Latched result (latch (graph_work work) source) }
{
    match work {
        NodeWork::Operates(operator) => operator_latched(alloc, operator, source),
        NodeWork::Feeds => datum_latched(&source),
        NodeWork::Handles(_, _) => Err(LatchStop::Bad(Bad::Deep)),
        NodeWork::Loops(_, _) => Err(LatchStop::Bad(Bad::Deep)),
        NodeWork::Runs(_) => Err(LatchStop::Bad(Bad::Deep)),
    }
}

fn operator_latched(alloc: Global, operator: Operator, source: Seen) -> Result<Cell, LatchStop>
    ensures { Latched result (latch (operates operator) source) }
{
    match operator {
        Operator::Delay => datum_latched(&source),
        Operator::DelayE => payload_latched(alloc, source),
        Operator::Prim(_) => Err(LatchStop::Bad(Bad::Deep)),
        Operator::MergeE => Err(LatchStop::Bad(Bad::Deep)),
        Operator::Hold => Err(LatchStop::Bad(Bad::Deep)),
        Operator::Changes => Err(LatchStop::Bad(Bad::Deep)),
        Operator::OnceE => Err(LatchStop::Bad(Bad::Deep)),
    }
}
