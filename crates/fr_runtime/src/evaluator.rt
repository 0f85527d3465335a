//! A program's graph as an evaluator of instants.
ghost use Rattle.std.specs.Prelude.{◌≡◌, ℕ, List, IfOk, IfErr, map};
ghost use Rattle.fr_value.specs.declared.now.Now.{Now};
ghost use Rattle.fr_meaning.specs.Afresh.{Instant};
ghost use Rattle.fr_nodes.specs.Kinds.{parts_of};
ghost use Rattle.fr_engine.specs.Stops.{StopsWhere};
ghost use Rattle.fr_run.specs.Standing.{IsBehind, IsCause, NamesChanges, Standing};
ghost use Rattle.fr_runtime.specs.States.{ComesTo, DoesErr, ShowsState};

use crate::engine::Engine;
use fr_core::{Inputs, Program};
use fr_engine::{Choices, RunStop};
use fr_kernel::Fuel;
use fr_nodes::Signals;
use fr_run::{Evaluator, InstantStop};
use fr_show::all_numbers;
use fr_value::Now;
use fr_way::what_is_shown_lives;
use std::alloc::{AllocError, Global};

/// A program of which what is due is computed at every instant, with the values of its shows, any of which may have changed.
#[derive(Drop)]
pub struct GraphEvaluator<'a, N: Signals + Drop, C: Choices<N> + Drop> {
    pub(crate) alloc: Global,
    pub(crate) program: &'a Program,
    pub(crate) choices: C,
    pub(crate) engine: Engine<N>,
    pub(crate) shown: Vec<Now>,
    pub(crate) changed: Vec<usize>,
}

/// Why the instant stopped, of which a session tells nothing but the time. No fuel is wanting, and want of nodes is told as
/// want of memory.
pub(crate) fn stop_of(stop: RunStop) -> InstantStop
    ensures { (n : Instant) → StopsWhere stop (DoesErr n) → IsCause result n }
{
    match stop {
        RunStop::Memory(e) => InstantStop::Memory(e),
        RunStop::Bad(_bad) => InstantStop::Errs,
        RunStop::Fuel => InstantStop::Memory(AllocError),
        RunStop::TooMany => InstantStop::Memory(AllocError),
    }
}

/// The fuel of an instant: more than an instant that ends could spend.
pub(crate) fn most_fuel() -> Fuel {
    Fuel { left: u64::MAX }
}

/// The evaluator behind an instant that a graph has come to.
pub(crate) fn stand_behind<'a, N: Signals + Drop, C: Choices<N> + Drop>(
    alloc: Global,
    program: &'a Program,
    choices: C,
    engine: Engine<N>,
) -> Result<GraphEvaluator<'a, N, C>, InstantStop>
    requires { (n : Instant) × ComesTo (C.can choices) program.now (C.plan choices) (C.many choices)
        engine.sources (parts_of engine.parts) engine.notes.wakes.items engine.late.items
        (N.way engine.nodes (C.sites choices)) n }
    ensures behind { IfOk result (λ e. (n : Instant) → ComesTo (C.can choices) program.now
        (C.plan choices) (C.many choices) engine.sources (parts_of engine.parts)
        engine.notes.wakes.items engine.late.items (N.way engine.nodes (C.sites choices)) n
        → IsBehind (λ s. ShowsState (C.can e.choices) e.program.now (C.plan e.choices) (C.many e.choices)
        e.engine.sources (parts_of e.engine.parts) e.engine.notes.wakes.items e.engine.late.items
        (N.way e.engine.nodes (C.sites e.choices)) e.shown.items s)
        (record { program = e.program.now; shown = e.shown.items; changed = e.changed.items }) program.now n) }
    ensures changed { IfOk result (λ e. (before : List Now) → NamesChanges before e.shown.items e.changed.items) }
    ensures memory { IfErr result (λ stop. (n : Instant) → IsCause stop n) }
{
    engine.nodes.is_sound();
    what_is_shown_lives();
    let shown = engine.shown()?;
    let changed = all_numbers(alloc, shown.len())?;
    Ok(GraphEvaluator {
        alloc,
        program,
        choices,
        engine,
        shown,
        changed,
    })
}

impl<'a, N: Signals + Drop, C: Choices<N> + Drop> Evaluator for GraphEvaluator<'a, N, C> {
    ghost standing = { λ e. record { program = e.program.now; shown = e.shown.items; changed = e.changed.items } };

    ghost stands_for = { λ e s. ShowsState (C.can e.choices) e.program.now (C.plan e.choices) (C.many e.choices)
        e.engine.sources (parts_of e.engine.parts) e.engine.notes.wakes.items e.engine.late.items
        (N.way e.engine.nodes (C.sites e.choices)) e.shown.items s };

    fn instant(self, inputs: &Inputs) -> Result<GraphEvaluator<'a, N, C>, InstantStop> {
        let GraphEvaluator {
            alloc,
            program,
            choices,
            mut engine,
            shown: _shown,
            changed: _changed,
        } = self;
        match engine.advance(&choices, inputs, most_fuel()) {
            Ok(()) => stand_behind(alloc, program, choices, engine),
            Err(stop) => Err(stop_of(stop)),
        }
    }

    fn shown(&self) -> &[Now] {
        self.shown.as_slice()
    }

    fn changed(&self) -> &[usize] {
        self.changed.as_slice()
    }

    fn program(&self) -> &Program {
        self.program
    }
}
