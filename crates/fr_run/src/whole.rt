//! Evaluation of the whole program afresh at every instant.

ghost use Rattle.std.specs.Prelude.{◌≡◌, ℕ, List, IfOk, IfErr};
ghost use Rattle.fr_meaning.specs.Afresh.{Instant};
ghost use Rattle.fr_afresh.specs.Stands.{shown_of, Leaves, ErrsBy};
ghost use Rattle.fr_core.specs.WellFormed.{IsWellFormed};
ghost use Rattle.fr_run.specs.Standing.{IsBehind, NamesChanges, IsCause, WasBegun};
ghost use Rattle.fr_run.specs.Whole.{standing_of, IsItsState};

use crate::evaluator::{Evaluator, InstantStop};
use fr_afresh::{Afresh, AfreshStop};
use fr_core::{Inputs, Program, Sets};
use fr_show::all_numbers;
use fr_value::Now;
use std::alloc::{AllocError, Global};

/// A program of which the whole is evaluated at every instant, with the values of its shows, any of
/// which may have changed.
#[derive(Drop)]
pub struct WholeEvaluator {
    alloc: Global,
    afresh: Afresh,
    shown: Vec<Now>,
    changed: Vec<usize>,
}

/// The values of all shows, in program order.
fn shown_values(alloc: Global, afresh: &Afresh) -> Result<Vec<Now>, AllocError>
    ensures { IfOk result (λ values. values.items ≡ shown_of afresh.now) }
{
    let mut values = Vec::new(alloc);
    for show in 0..afresh.shows() {
        values.push(afresh.shown(show)?)?;
    }
    Ok(values)
}

/// Why the evaluation stopped, of which a session tells nothing but the time.
fn stop_of(stop: AfreshStop) -> InstantStop
    ensures { (time : ℕ) (n : Instant) → ErrsBy stop time n → IsCause result n }
{
    match stop {
        AfreshStop::Memory(e) => InstantStop::Memory(e),
        AfreshStop::First(_first) => InstantStop::Errs,
    }
}

/// The evaluator behind what was evaluated, with the values of its shows.
fn stand_behind(
    alloc: Global,
    evaluated: Result<Afresh, AfreshStop>,
) -> Result<WholeEvaluator, InstantStop>
    ensures ok { IfOk result (λ e. (p : Program) (n : Instant) →
        IfOk evaluated (λ a. Leaves a p n) → IsBehind (IsItsState e) (standing_of e) p n) }
    ensures changed { IfOk result (λ e. (before : List Now) →
        NamesChanges before (standing_of e).shown (standing_of e).changed) }
    ensures err { IfErr result (λ stop. (time : ℕ) (n : Instant) →
        IfErr evaluated (λ s. ErrsBy s time n) → IsCause stop n) }
{
    let afresh = match evaluated {
        Ok(afresh) => afresh,
        Err(stop) => return Err(stop_of(stop)),
    };
    let shown = shown_values(alloc, &afresh)?;
    let changed = all_numbers(alloc, shown.len())?;
    Ok(WholeEvaluator {
        alloc,
        afresh,
        shown,
        changed,
    })
}

impl WholeEvaluator {
    /// Evaluates instant 0 of a program, which has time 0 and sets nothing. It fails with `Errs` only where that instant
    /// errs, and is never Ok there; with `Memory` where there is no memory. After an error nothing is left to go on with.
    pub fn start(alloc: Global, program: Program) -> Result<WholeEvaluator, InstantStop>
        requires well_formed { IsWellFormed program }
        ensures { WasBegun IsItsState standing_of program result }
    {
        let first = Inputs {
            time: 0,
            sets: Sets::new(alloc),
        };
        stand_behind(alloc, Afresh::start(alloc, program, &first))
    }
}

impl Evaluator for WholeEvaluator {
    ghost use Rattle.fr_run.specs.Whole.{standing_of, IsItsState};

    ghost standing = { standing_of };

    ghost stands_for = { IsItsState };

    fn instant(self, inputs: &Inputs) -> Result<WholeEvaluator, InstantStop> {
        let WholeEvaluator {
            alloc,
            afresh,
            shown: _shown,
            changed: _changed,
        } = self;
        stand_behind(alloc, afresh.instant(inputs))
    }

    fn shown(&self) -> &[Now] {
        self.shown.as_slice()
    }

    fn changed(&self) -> &[usize] {
        self.changed.as_slice()
    }

    fn program(&self) -> &Program {
        self.afresh.program()
    }
}
