//! What evaluates a program, instant by instant.

ghost use Rattle.std.specs.Prelude.{◌≡◌, ◌≤◌, IfOk, IfErr};
ghost use Rattle.fr_core.specs.Sets.{greatest_time};
ghost use Rattle.fr_core.specs.WellFormed.{IsWellFormed};
ghost use Rattle.fr_meaning.specs.Afresh.{State, instant as instant_after};
ghost use Rattle.fr_run.specs.Standing.{Standing, IsBehind, NamesChanges, IsCause, StandsForSome};

use fr_core::{Inputs, Program};
use fr_value::Now;
use std::alloc::AllocError;

/// Why an instant wasn't evaluated to its end.
#[derive(Drop)]
pub enum InstantStop {
    /// There was no memory.
    Memory(AllocError),
    /// The instant errs.
    Errs,
}

impl From<AllocError> for InstantStop {
    ghost use Rattle.std.specs.Prelude.{◌≡◌};
    ghost use Rattle.fr_run.specs.declared.evaluator.InstantStop.TheVariants as InstantStop;

    ghost from_gives = { λ e r. r ≡ InstantStop.Memory e };

    fn from(e: AllocError) -> InstantStop {
        InstantStop::Memory(e)
    }
}

/// A program that is evaluated instant by instant. It stands behind its last instant, in which nothing erred.
pub trait Evaluator: Drop {
    /// What it shows: the program, the values of the shows at its last instant, and the numbers of
    /// those that may have changed.
    ghost standing: { Self → Standing };

    /// The states that it stands for. What its last instant hands on when that is evaluated afresh
    /// is one of them, but an evaluator needn't tell which.
    ghost stands_for: { Self → State → Type 0 };

    /// Evaluates the next instant, over what the last one handed on, whichever of its states that
    /// is: it is Ok only where the instant errs over none of them, and fails with `Errs` only where
    /// it errs over each, with `Memory` where there is no memory. The time is at most
    /// 9,223,372,036,854,775,807, the greatest integer of the language. After an error nothing is
    /// left to go on with.
    fn instant(self, inputs: &Inputs) -> Result<Self, InstantStop>
        requires well_formed { IsWellFormed (standing self).program }
        requires stands { StandsForSome (stands_for self) }
        requires time { inputs.now.time ≤ greatest_time }
        ensures ok { IfOk result (λ e. (s : State) → stands_for self s →
            let p = (standing self).program in
            IsBehind (stands_for e) (standing e) p (instant_after p s inputs.now)) }
        ensures changed { IfOk result (λ e.
            NamesChanges (standing self).shown (standing e).shown (standing e).changed) }
        ensures err { IfErr result (λ stop. (s : State) → stands_for self s →
            IsCause stop (instant_after (standing self).program s inputs.now)) };

    /// The values of the shows at the last instant, in program order.
    fn shown(&self) -> &[Now]
        ensures { result.now ≡ (standing self.now).shown };

    /// The numbers of shows, counted from 0 and in rising order, among which are all whose value
    /// differs from that at the instant before, and all that occur. At instant 0 they are all.
    fn changed(&self) -> &[usize]
        ensures { result.now ≡ (standing self.now).changed };

    /// The program that is evaluated.
    fn program(&self) -> &Program
        ensures { result.now ≡ (standing self.now).program };
}
