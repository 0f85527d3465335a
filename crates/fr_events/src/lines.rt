//! What becomes of a node by a line.
ghost use Rattle.std.specs.Prelude.{◌≡◌, ℕ, Ok, Err, None, MatchResult};
ghost use Rattle.fr_forms.specs.Lent.{form_line};
ghost use Rattle.fr_events.specs.Steps.{StepRan};

use crate::works::kept_next;
use fr_forms::Line;
use fr_kernel::KernStop;
use fr_store::Cell;
use fr_value::Now;

/// What a node has at an instant: its value, and its next cell where it has one. What the cell of a work takes behind the
/// instant isn't told.
#[derive(Drop)]
pub struct Stepped {
    pub value: Now,
    pub cell: Option<Cell>,
}

/// What a line makes of a node.
pub(crate) fn line_stepped(line: Line) -> Result<Stepped, KernStop>
    ensures { (left : ℕ) → StepRan result left left (form_line line) }
{
    let Line {
        value,
        next,
        refusal,
    } = line;
    match value {
        Err(bad) => Err(KernStop::Bad(bad)),
        Ok(value) => match refusal {
            Some(bad) => Err(KernStop::Bad(bad)),
            None => Ok(Stepped {
                value,
                cell: kept_next(next),
            }),
        },
    }
}

/// A node without a cell by what a kernel gave.
pub(crate) fn run_stepped(run: Result<Now, KernStop>) -> Result<Stepped, KernStop>
    ensures { MatchResult result (λ s. (run ≡ Ok s.value) × (s.cell ≡ None)) (λ e. run ≡ Err e) }
{
    match run {
        Err(stop) => Err(stop),
        Ok(value) => Ok(Stepped { value, cell: None }),
    }
}
