//! The instants of a script that was read whole.

ghost use Rattle.std.specs.Prelude.{◌≡◌, ◌<◌, ℕ, List, IfOk, IfErr, IfSome, IsErrOf};
ghost use Rattle.fr_script.specs.Sources.{Named, sources};
ghost use Rattle.fr_script.specs.Stands.{left};
ghost use Rattle.fr_run.specs.Scripts.{IsFed, Gives, EndsAt, script_front};

use fr_core::{Inputs, Program};
use fr_script::{LineKind, ScriptReader, Turn};
use fr_show::Stop;
use std::alloc::{AllocError, Global};

/// The most bytes of a script.
pub(crate) const SCRIPT_LIMIT: usize = 1_099_511_627_776;

/// A reader of a script of which all bytes were read, or one more than it may have.
pub(crate) fn reader_of(
    alloc: Global,
    program: &Program,
    bytes: &[u8],
) -> Result<ScriptReader, AllocError>
    ensures file { IfOk result (λ reader. (file : List ℕ) → bytes.now ≡ script_front file →
        IsFed reader (sources program.now) file 0) }
    ensures fed { IfOk result (λ reader. IsFed reader (sources program.now) bytes.now 0) }
{
    let mut reader = ScriptReader::new(alloc, program)?;
    reader.feed(bytes)?;
    if bytes.len() <= SCRIPT_LIMIT {
        reader.end();
    }
    Ok(reader)
}

/// Gives the script's next instant, or none at its end.
pub(crate) fn next_instant(reader: &mut ScriptReader) -> Result<Option<Inputs>, Stop>
    ensures ok { IfOk result (λ next. (ss : List Named) (script : List ℕ) (given : ℕ) →
        IsFed reader.old ss script given → Gives next reader.new ss script given) }
    ensures err { IfErr result (λ stop. (ss : List Named) (script : List ℕ) (given : ℕ) →
        IsFed reader.old ss script given → EndsAt stop ss script given) }
    ensures falls { IfOk result (λ next. IfSome next (λ _. left reader.new < left reader.old)) }
    ensures no_read { IsErrOf result Stop.Read → ⊥ }
    ensures no_write { IsErrOf result Stop.Write → ⊥ }
{
    match reader.next() {
        Ok(Turn::Instant(inputs)) => Ok(Some(inputs)),
        Ok(Turn::More) => Ok(None),
        Ok(Turn::End) => Ok(None),
        Ok(Turn::Refused { line, kind }) => Err(Stop::Script { line, kind }),
        Err(e) => Err(Stop::Memory(e)),
    }
}
