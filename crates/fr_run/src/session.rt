//! The run of a program over a script, by an evaluator of instants.
ghost use Rattle.std.specs.Prelude.{◌≡◌, ◌≢◌, ◌≤◌, List, ℕ, [], ◌∷◌, true, length, None, IfOk, IfErr, OnOk, IsErrOf};
ghost use Rattle.std.specs.Io.KnownBytes.{Appends};
ghost use Rattle.fr_io.specs.Faults.{FailsAs, Counts};
ghost use Rattle.fr_io.specs.Shelves.{Reads};
ghost use Rattle.fr_core.specs.Sets.{greatest_time};
ghost use Rattle.fr_core.specs.WellFormed.{IsWellFormed};
ghost use Rattle.fr_core.specs.declared.program.Program.{Program};
ghost use Rattle.fr_meaning.specs.Texts.{instant_text, next_each};
ghost use Rattle.fr_meaning.specs.Afresh.{State, beginning, first_instant, instant as instant_after};
ghost use Rattle.fr_show.specs.Ends.{EndsThere, StopSays, Begins};
ghost use Rattle.fr_show.specs.Output.{program_course};
ghost use Rattle.fr_show.specs.Shows.{AreAllPrinted};
ghost use Rattle.fr_run.specs.Scripts.{IsFedSome};
ghost use Rattle.fr_run.specs.Standing.{HasBegun, StandsForSome, WasBegun, seen_of, unfinished};
ghost use Rattle.fr_run.specs.Written.{AreShowsOf, HaveTextsOf, Wrote, CutShort, StopsIn};
ghost use Rattle.fr_run.specs.Session.{OnAhead, OnScript, OnProgram, IsReadToEnd};

use crate::evaluator::{Evaluator, InstantStop};
use crate::turns::{SCRIPT_LIMIT, next_instant, reader_of};
use fr_core::Inputs;
use fr_io::{FileStop, Shelf, Sink, read_up_to, write_all};
use fr_script::ScriptReader;
use fr_show::{Shows, Stop};
use std::alloc::Global;

/// Writes the text of the instant of this time that an evaluator stands behind. Only shows that may
/// have changed are looked at.
fn write_text<E: Evaluator, O: Sink>(
    evaluator: &E,
    time: u64,
    shows: &mut Shows,
    out: &mut O,
) -> Result<(), Stop>
    requires one_each { length (E.standing evaluator.now).shown ≡ length shows.old }
    requires all { let e = E.standing evaluator.now in
        AreAllPrinted time shows.old e.shown e.changed }
    ensures ok { OnOk result (let seen = seen_of (E.standing evaluator.now) in
        Appends (O.written out.old) (O.written out.new) (instant_text time shows.old seen)) }
    ensures after { OnOk result (shows.new ≡
        next_each shows.old (seen_of (E.standing evaluator.now))) }
    ensures err { IfErr result (λ stop. let seen = seen_of (E.standing evaluator.now) in
        CutShort stop (instant_text time shows.old seen) (O.written out.old) (O.written out.new)) }
    ensures no_read { IsErrOf result Stop.Read → ⊥ }
    ensures counts { Counts (FailsAs result Stop.Write) (O.faults out.old) (O.faults out.new) }
{
    let text = match shows.text(time, evaluator.shown(), evaluator.changed()) {
        Ok(text) => text,
        Err(e) => return Err(Stop::Memory(e)),
    };
    match write_all(out, &text) {
        Ok(()) => Ok(()),
        Err(_) => Err(Stop::Write),
    }
}

/// The stop of an instant of this time that wasn't evaluated to its end.
fn stop_at(stop: InstantStop, time: u64) -> Stop
    ensures value { result ≡ unfinished stop time }
    ensures no_read { result ≢ Stop.Read }
    ensures no_write { result ≢ Stop.Write }
{
    match stop {
        InstantStop::Memory(e) => Stop::Memory(e),
        InstantStop::Errs => Stop::Evaluation(time),
    }
}

/// Writes the text of instant 0, behind which an evaluator stands.
fn write_first<E: Evaluator, O: Sink>(
    evaluator: &E,
    shows: &mut Shows,
    out: &mut O,
) -> Result<(), Stop>
    requires begun { HasBegun (E.stands_for evaluator.now) (E.standing evaluator.now) }
    requires one_each { AreShowsOf shows.old (E.standing evaluator.now).program }
    ensures ok { OnOk result (let p = (E.standing evaluator.now).program in
        let n = instant_after p (beginning p) first_instant in
        Wrote (E.stands_for evaluator.now) (E.standing evaluator.now) p n 0 shows.old shows.new
        (O.written out.old) (O.written out.new)) }
    ensures err { IfErr result (λ stop. let p = (E.standing evaluator.now).program in
        StopsIn stop p (beginning p) first_instant shows.old (O.written out.old) (O.written out.new)) }
    ensures no_read { IsErrOf result Stop.Read → ⊥ }
    ensures counts { Counts (FailsAs result Stop.Write) (O.faults out.old) (O.faults out.new) }
{
    match write_text(evaluator, 0, shows, out) {
        Ok(()) => Ok(()),
        Err(stop) => Err(stop),
    }
}

/// Runs one instant, and writes its text once the whole instant is done.
fn step<E: Evaluator, O: Sink>(
    evaluator: E,
    inputs: &Inputs,
    shows: &mut Shows,
    out: &mut O,
) -> Result<E, Stop>
    requires well_formed { IsWellFormed (E.standing evaluator).program }
    requires time { inputs.now.time ≤ greatest_time }
    requires stands { StandsForSome (E.stands_for evaluator) }
    requires one_each { AreShowsOf shows.old (E.standing evaluator).program }
    requires texts { HaveTextsOf shows.old (E.standing evaluator) }
    ensures ok { IfOk result (λ next. (s : State) → E.stands_for evaluator s →
        let p = (E.standing evaluator).program in
        let n = instant_after p s inputs.now in
        Wrote (E.stands_for next) (E.standing next) p n inputs.now.time shows.old shows.new
        (O.written out.old) (O.written out.new)) }
    ensures err { IfErr result (λ stop. (s : State) → E.stands_for evaluator s →
        StopsIn stop (E.standing evaluator).program s inputs.now shows.old
        (O.written out.old) (O.written out.new)) }
    ensures no_read { IsErrOf result Stop.Read → ⊥ }
    ensures counts { Counts (FailsAs result Stop.Write) (O.faults out.old) (O.faults out.new) }
{
    let next = match evaluator.instant(inputs) {
        Ok(next) => next,
        Err(stop) => return Err(stop_at(stop, inputs.time)),
    };
    match write_text(&next, inputs.time, shows, out) {
        Ok(()) => Ok(next),
        Err(stop) => Err(stop),
    }
}

/// Runs the instants that a reader still gives, and writes the text of each.
fn run_on<E: Evaluator, O: Sink>(
    mut evaluator: E,
    reader: &mut ScriptReader,
    shows: &mut Shows,
    out: &mut O,
) -> Result<(), Stop>
    requires well_formed { IsWellFormed (E.standing evaluator).program }
    requires stands { StandsForSome (E.stands_for evaluator) }
    requires one_each { AreShowsOf shows.old (E.standing evaluator).program }
    requires texts { HaveTextsOf shows.old (E.standing evaluator) }
    requires fed { IsFedSome reader.old }
    ensures ok { OnOk result (OnAhead reader.old (E.stands_for evaluator)
        (E.standing evaluator).program shows.old
        (λ c. EndsThere None c (O.written out.old) (O.written out.new))) }
    ensures err { IfErr result (λ stop. OnAhead reader.old (E.stands_for evaluator)
        (E.standing evaluator).program shows.old
        (λ c. StopSays stop c (O.written out.old) (O.written out.new))) }
    ensures no_read { IsErrOf result Stop.Read → ⊥ }
    ensures counts { Counts (FailsAs result Stop.Write) (O.faults out.old) (O.faults out.new) }
{
    'instants: loop {
        let inputs = match next_instant(reader) {
            Ok(Some(inputs)) => inputs,
            Ok(None) => return Ok(()),
            Err(stop) => return Err(stop),
        };
        evaluator = match step(evaluator, &inputs, shows, out) {
            Ok(next) => next,
            Err(stop) => return Err(stop),
        };
    }
}

/// Reads the script to its end, and runs its instants. Nothing is written where it can't be read.
fn run_script<E: Evaluator, S: Shelf, O: Sink>(
    alloc: Global,
    evaluator: E,
    script: &str,
    shows: &mut Shows,
    shelf: &mut S,
    out: &mut O,
) -> Result<(), Stop>
    requires well_formed { IsWellFormed (E.standing evaluator).program }
    requires stands { StandsForSome (E.stands_for evaluator) }
    requires one_each { AreShowsOf shows.old (E.standing evaluator).program }
    requires texts { HaveTextsOf shows.old (E.standing evaluator) }
    ensures ok { OnOk result (OnScript (S.holds shelf.old script.now) (E.stands_for evaluator)
        (E.standing evaluator).program shows.old
        (λ c. EndsThere None c (O.written out.old) (O.written out.new))) }
    ensures err { IfErr result (λ stop. OnScript (S.holds shelf.old script.now)
        (E.stands_for evaluator) (E.standing evaluator).program shows.old
        (λ c. StopSays stop c (O.written out.old) (O.written out.new))) }
    ensures to_end { OnOk result (IsReadToEnd script.now (S.holds shelf.old)
        (S.reached shelf.old) (S.reached shelf.new)) }
    ensures unread { FailsAs result Stop.Read → O.written out.new ≡ O.written out.old }
    ensures shelf { Reads (script.now ∷ []) (FailsAs result Stop.Read)
        (S.holds shelf.old) (S.holds shelf.new) (S.reached shelf.old) (S.reached shelf.new)
        (S.faults shelf.old) (S.faults shelf.new) }
    ensures counts { Counts (FailsAs result Stop.Write) (O.faults out.old) (O.faults out.new) }
{
    let bytes = match read_up_to(alloc, shelf, script, SCRIPT_LIMIT) {
        Ok(bytes) => bytes,
        Err(FileStop::Memory(e)) => return Err(Stop::Memory(e)),
        Err(FileStop::Failed) => return Err(Stop::Read),
    };
    let mut reader = match reader_of(alloc, evaluator.program(), &bytes) {
        Ok(reader) => reader,
        Err(e) => return Err(Stop::Memory(e)),
    };
    match run_on(evaluator, &mut reader, shows, out) {
        Ok(()) => Ok(()),
        Err(stop) => Err(stop),
    }
}

/// Runs a program over a script from where an evaluator stands behind instant 0.
fn run_from<E: Evaluator, S: Shelf, O: Sink>(
    alloc: Global,
    evaluator: E,
    script: &str,
    shelf: &mut S,
    out: &mut O,
) -> Result<(), Stop>
    requires well_formed { IsWellFormed (E.standing evaluator).program }
    requires begun { HasBegun (E.stands_for evaluator) (E.standing evaluator) }
    ensures ok { OnOk result (OnProgram (S.holds shelf.old script.now)
        (E.standing evaluator).program
        (λ c. EndsThere None c (O.written out.old) (O.written out.new))) }
    ensures err { IfErr result (λ stop. OnProgram (S.holds shelf.old script.now)
        (E.standing evaluator).program
        (λ c. StopSays stop c (O.written out.old) (O.written out.new))) }
    ensures to_end { OnOk result (IsReadToEnd script.now (S.holds shelf.old)
        (S.reached shelf.old) (S.reached shelf.new)) }
    ensures began { FailsAs result Stop.Read → (file : List ℕ) →
        Begins (program_course (E.standing evaluator).program file true)
        (O.written out.old) (O.written out.new) }
    ensures shelf { Reads (script.now ∷ []) (FailsAs result Stop.Read)
        (S.holds shelf.old) (S.holds shelf.new) (S.reached shelf.old) (S.reached shelf.new)
        (S.faults shelf.old) (S.faults shelf.new) }
    ensures counts { Counts (FailsAs result Stop.Write) (O.faults out.old) (O.faults out.new) }
{
    let mut shows = match Shows::new(alloc, evaluator.program()) {
        Ok(shows) => shows,
        Err(e) => return Err(Stop::Memory(e)),
    };
    match write_first(&evaluator, &mut shows, out) {
        Ok(()) => {}
        Err(stop) => return Err(stop),
    }
    match run_script(alloc, evaluator, script, &mut shows, shelf, out) {
        Ok(()) => Ok(()),
        Err(stop) => Err(stop),
    }
}

/// Runs a program over a script, where instant 0 was evaluated, or stopped: it writes the text of instant 0, reads the
/// script to its end, and runs its instants, each written once the whole instant is done.
///
/// After `Ok` all texts of the program's course were appended to `out`, and the script was read to its end. `Stop::Script`
/// comes behind the whole instants before the bad line, and `Stop::Evaluation` behind those before the instant that errs.
/// After `Stop::Read`, which comes exactly where the script's count of faults rose, exactly the text of instant 0 was
/// written; after `Stop::Write`, which comes exactly where the count of `out` rose, some first bytes of the course's
/// texts, but not all; after `Stop::Memory` a whole number of texts. No other file is read.
pub fn run_begun<E: Evaluator, S: Shelf, O: Sink>(
    alloc: Global,
    begun: Result<E, InstantStop>,
    script: &str,
    shelf: &mut S,
    out: &mut O,
) -> Result<(), Stop>
    requires { (p : Program) × WasBegun E.stands_for E.standing p begun }
    ensures ok { OnOk result ((p : Program) → WasBegun E.stands_for E.standing p begun →
        OnProgram (S.holds shelf.old script.now) p
        (λ c. EndsThere None c (O.written out.old) (O.written out.new))) }
    ensures err { IfErr result (λ stop. (p : Program) → WasBegun E.stands_for E.standing p begun →
        OnProgram (S.holds shelf.old script.now) p
        (λ c. StopSays stop c (O.written out.old) (O.written out.new))) }
    ensures to_end { OnOk result (IsReadToEnd script.now (S.holds shelf.old)
        (S.reached shelf.old) (S.reached shelf.new)) }
    ensures began { FailsAs result Stop.Read → (p : Program) →
        WasBegun E.stands_for E.standing p begun → (file : List ℕ) →
        Begins (program_course p file true) (O.written out.old) (O.written out.new) }
    ensures shelf { Reads (script.now ∷ []) (FailsAs result Stop.Read)
        (S.holds shelf.old) (S.holds shelf.new) (S.reached shelf.old) (S.reached shelf.new)
        (S.faults shelf.old) (S.faults shelf.new) }
    ensures counts { Counts (FailsAs result Stop.Write) (O.faults out.old) (O.faults out.new) }
{
    let evaluator = match begun {
        Ok(evaluator) => evaluator,
        Err(stop) => return Err(stop_at(stop, 0)),
    };
    match run_from(alloc, evaluator, script, shelf, out) {
        Ok(()) => Ok(()),
        Err(stop) => Err(stop),
    }
}
