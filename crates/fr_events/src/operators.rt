//! Nodes of operators and of the names of `feedback`.
ghost use Rattle.std.specs.Prelude.{◌≡◌, ℕ, IfOk, None};
ghost use Rattle.fr_meaning.specs.States.{gives};
ghost use Rattle.fr_forms.specs.Lent.{earlier, form_line};
ghost use Rattle.fr_kernel.specs.Kernels.{Kernels};
ghost use Rattle.fr_graph.specs.Graph.{operates, feeds, is_late as work_is_late, operator_early, work_line};
ghost use Rattle.fr_events.specs.Steps.{StepRan};

use crate::lines::{Stepped, line_stepped};
use fr_core::Operator;
use fr_forms::{LentCell, Line, Seen, operator_line};
use fr_kernel::KernStop;
use std::alloc::{AllocError, Global};

/// Whether a node of this operator takes its last part's value behind the instant.
fn is_late(operator: Operator) -> bool
    ensures { result ≡ work_is_late (operates operator) }
{
    match operator {
        Operator::Delay => true,
        Operator::DelayE => true,
        Operator::Prim(_) => false,
        Operator::MergeE => false,
        Operator::Hold => false,
        Operator::Changes => false,
        Operator::OnceE => false,
    }
}

/// The line with its value alone.
fn value_alone(line: Line) -> Line
    ensures { form_line result ≡ gives line.value None }
{
    Line {
        value: line.value,
        next: None,
        refusal: None,
    }
}

/// The line of an operator before its cell takes its last part's value, which isn't among the inputs. It fails only where
/// there is no memory.
fn early_line(
    alloc: Global,
    operator: Operator,
    cell: Option<LentCell<'_>>,
    inputs: &[Seen],
) -> Result<Line, AllocError>
    ensures { IfOk result (λ l. form_line l ≡ operator_early operator (earlier cell.entry) inputs.now) }
{
    let line = operator_line(alloc, operator, cell, inputs)?;
    if is_late(operator) {
        Ok(value_alone(line))
    } else {
        Ok(line)
    }
}

/// Computes a node of an operator.
pub(crate) fn step_operator(
    alloc: Global,
    operator: Operator,
    cell: Option<LentCell<'_>>,
    inputs: &[Seen],
) -> Result<Stepped, KernStop>
    ensures { (left : ℕ) → StepRan result left left (operator_early operator (earlier cell.entry) inputs.now) }
{
    match early_line(alloc, operator, cell, inputs) {
        Err(e) => Err(KernStop::Memory(e)),
        Ok(line) => line_stepped(line),
    }
}

/// Computes the node of a `feedback`'s name, over its cell and the value of INIT: what a `delay` shows over these.
pub(crate) fn step_feeds(
    alloc: Global,
    cell: Option<LentCell<'_>>,
    inputs: &[Seen],
) -> Result<Stepped, KernStop>
    ensures { (left : ℕ) (t : Kernels) (n : ℕ) → StepRan result left left (work_line t n feeds (earlier cell.entry) inputs.now) }
{
    step_operator(alloc, Operator::Delay, cell, inputs)
}
