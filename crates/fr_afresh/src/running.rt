//! A program that is evaluated afresh, from one instant to the next.
ghost use Rattle.std.specs.Prelude.{◌≡◌, ◌<◌, ◌≤◌, length, slice_get, IfOk, IfErr, Some};
ghost use Rattle.fr_core.specs.Sets.{greatest_time};
ghost use Rattle.fr_core.specs.WellFormed.{IsWellFormed};
ghost use Rattle.fr_meaning.specs.Afresh.{Instant, beginning, first_instant, instant as instant_after};
ghost use Rattle.fr_afresh.specs.Stands.{evaluated_program, state_of, shown_of, Leaves, ErrsBy};
ghost use Rattle.fr_afresh.specs.Progress.{IsProgressOf, IsClean};

use crate::bodies::{Progress, eval_body, good_values};
use crate::joining::Around;
use crate::sources::{first_values, latest_values};
use fr_core::{Inputs, Kept, Path, Program};
use fr_forms::Seen;
use fr_value::{Bad, Now, Value};
use sqlite_items::Items;
use std::alloc::{AllocError, Global};

/// The first error of an instant.
#[derive(Drop)]
pub struct FirstBad {
    /// The time of the instant.
    pub time: u64,
    /// The way to the expression that errs first. Its first part is the number of the item in the program's body.
    pub path: Path,
    pub bad: Bad,
}

/// Why an instant wasn't evaluated to its end.
#[derive(Drop)]
pub enum AfreshStop {
    /// There was no memory; or the program has more than 4,294,967,294 inputs and events, which have no room.
    Memory(AllocError),
    /// The instant errs.
    First(FirstBad),
}

impl From<AllocError> for AfreshStop {
    ghost use Rattle.std.specs.Prelude.{◌≡◌};
    ghost use Rattle.fr_afresh.specs.declared.running.AfreshStop.TheVariants as AfreshStop;

    ghost from_gives = { λ e r. r ≡ AfreshStop.Memory e };

    fn from(e: AllocError) -> AfreshStop {
        AfreshStop::Memory(e)
    }
}

/// A program that is evaluated afresh at each instant. It stands behind its last instant, in which nothing erred.
#[derive(Drop)]
pub struct Afresh {
    alloc: Global,
    program: Program,
    // the values of the inputs
    values: Items<Value>,
    kept: Kept,
    // the values of the shows
    shown: Items<Now>,
}

fn drop_shown(shown: Items<Now>) {
    let _gone = shown;
}

fn drop_values(values: Items<Seen>) {
    let _gone = values;
}

/// What stands behind an instant, over the values of the inputs at it.
fn stand_behind(
    alloc: Global,
    program: Program,
    values: Items<Value>,
    done: Progress,
    time: u64,
) -> Result<Afresh, AfreshStop>
    requires clean { IsClean done }
    ensures ok { IfOk result (λ a. (n : Instant) → n.values ≡ values →
        IsProgressOf done n.evaluated → Leaves a program n) }
    ensures err { IfErr result (λ stop. (n : Instant) → IsProgressOf done n.evaluated →
        ErrsBy stop time n) }
{
    let Progress { env, shown, around } = done;
    drop_values(env);
    let Around { kepts, first } = around;
    match first {
        Some((path, bad)) => Err(AfreshStop::First(FirstBad { time, path, bad })),
        None => match good_values(alloc, shown.as_slice())? {
            Some(shown) => Ok(Afresh {
                alloc,
                program,
                values,
                kept: Kept::Group(kepts),
                shown,
            }),
            None => unreachable!(),
        },
    }
}

impl Afresh {
    /// Evaluates instant 0 of a program, which has time 0 and sets nothing. It fails with `First` only where that instant
    /// errs, and is never Ok there; it fails with `Memory` where there is no memory. After an error nothing is left to go
    /// on with.
    pub fn start(alloc: Global, program: Program, first: &Inputs) -> Result<Afresh, AfreshStop>
        requires well_formed { IsWellFormed program }
        requires first { first.now ≡ first_instant }
        ensures ok { IfOk result (λ a. Leaves a program
            (instant_after program (beginning program) first_instant)) }
        ensures err { IfErr result (λ stop.
            ErrsBy stop 0 (instant_after program (beginning program) first_instant)) }
    {
        let values = first_values(alloc, program.inputs.as_slice())?;
        let before = Afresh {
            alloc,
            program,
            values,
            kept: Kept::Nothing,
            shown: Items::new(alloc),
        };
        before.instant(first)
    }

    /// Evaluates the next instant, over what the last one kept. Its time is at most 9,223,372,036,854,775,807, the greatest
    /// integer of the language. It fails with `First` only where that instant errs, and
    /// is never Ok there; it fails with `Memory` where there is no memory. After an error nothing is left to go on with.
    pub fn instant(self, inputs: &Inputs) -> Result<Afresh, AfreshStop>
        requires well_formed { IsWellFormed (evaluated_program self) }
        requires time { inputs.now.time ≤ greatest_time }
        ensures ok { IfOk result (λ a. Leaves a (evaluated_program self)
            (instant_after (evaluated_program self) (state_of self) inputs.now)) }
        ensures err { IfErr result (λ stop. ErrsBy stop inputs.now.time
            (instant_after (evaluated_program self) (state_of self) inputs.now)) }
    {
        let Afresh {
            alloc,
            program,
            values,
            kept,
            shown,
        } = self;
        drop_shown(shown);
        let values = latest_values(
            alloc,
            program.inputs.as_slice(),
            values.as_slice(),
            &inputs.sets,
        )?;
        let done = eval_body(alloc, &program, values.as_slice(), &kept, inputs)?;
        stand_behind(alloc, program, values, done, inputs.time)
    }

    /// The number of the program's shows.
    pub fn shows(&self) -> usize
        ensures { result ≡ length (shown_of self.now) }
    {
        self.shown.len()
    }

    /// The value of a show, with one more owner. Shows count from 0 in program order. It fails only where there is no
    /// memory.
    pub fn shown(&self, show: usize) -> Result<Now, AllocError>
        requires there { show < length (shown_of self.now) }
        ensures { IfOk result (λ n. slice_get (shown_of self.now) show ≡ Some n) }
    {
        match self.shown.get(show) {
            Some(now) => now.share(),
            None => unreachable!(),
        }
    }

    /// The program that it runs.
    pub fn program(&self) -> &Program
        ensures { result.now ≡ evaluated_program self.now }
    {
        &self.program
    }
}
