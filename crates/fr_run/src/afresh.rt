//! The run of a program that is evaluated afresh.
ghost use Rattle.std.specs.Prelude.{List, ℕ, [], ◌∷◌, Option, None, IfErr, OnOk};
ghost use Rattle.fr_io.specs.Faults.{FailsAs, Counts};
ghost use Rattle.fr_io.specs.Shelves.{Reads};
ghost use Rattle.fr_show.specs.Ends.{EndsThere, Begins};
ghost use Rattle.fr_run.specs.Session.{OnText, TextSays, IsReadToEnd};

use crate::session::run_begun;
use crate::whole::WholeEvaluator;
use fr_io::{Shelf, Sink};
use fr_show::{Stop, accept};
use std::alloc::Global;

/// Accepts the program that a text is, and runs it over a script by evaluating the whole of it afresh at every instant.
///
/// `program` is the text, or its first bytes where they are more than 1,048,576. Instant 0 is run and its text written
/// before the script is first read; then the script is read to its end, and each of its instants is run, its text
/// written once the whole instant is done. After `Ok` all texts of the program's course were appended to `out`, and the
/// script was read to its end. `Stop::Program` comes before anything is written. `Stop::Script` comes behind the whole
/// instants before the bad line, and `Stop::Evaluation` behind those before the instant that errs. After `Stop::Read`,
/// which comes exactly where the script's count of faults rose, the program is accepted and exactly the text of instant
/// 0 was written; after `Stop::Write`, which comes exactly where the count of `out` rose, some first bytes of the
/// course's texts, but not all; after `Stop::Memory` a whole number of texts. No other file is read.
pub fn run_afresh<S: Shelf, O: Sink>(
    alloc: Global,
    program: &[u8],
    script: &str,
    shelf: &mut S,
    out: &mut O,
) -> Result<(), Stop>
    ensures ok { OnOk result (OnText (S.holds shelf.old script.now) program.now
        (λ c. EndsThere None c (O.written out.old) (O.written out.new))) }
    ensures err { IfErr result (λ stop. TextSays stop (S.holds shelf.old script.now) program.now
        (O.written out.old) (O.written out.new)) }
    ensures to_end { OnOk result (IsReadToEnd script.now (S.holds shelf.old)
        (S.reached shelf.old) (S.reached shelf.new)) }
    ensures began { FailsAs result Stop.Read → (any : Option (List ℕ)) →
        OnText any program.now (λ c. Begins c (O.written out.old) (O.written out.new)) }
    ensures shelf { Reads (script.now ∷ []) (FailsAs result Stop.Read)
        (S.holds shelf.old) (S.holds shelf.new) (S.reached shelf.old) (S.reached shelf.new)
        (S.faults shelf.old) (S.faults shelf.new) }
    ensures counts { Counts (FailsAs result Stop.Write) (O.faults out.old) (O.faults out.new) }
{
    let program = match accept(alloc, program) {
        Ok(program) => program,
        Err(stop) => return Err(stop.into_stop()),
    };
    let begun = WholeEvaluator::start(alloc, program);
    match run_begun(alloc, begun, script, shelf, out) {
        Ok(()) => Ok(()),
        Err(stop) => Err(stop),
    }
}
