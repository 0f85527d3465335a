//! How a failure is told: its status and its line.
ghost use Rattle.std.specs.Prelude.{◌≡◌, ◌++◌, OnOk, OnErr, IsErr, decimal};
ghost use Rattle.std.specs.Io.KnownBytes.{Appends};
ghost use Rattle.fr_io.specs.Faults.{Counts};
ghost use Rattle.fr_io.specs.Files.{AppendsSome};
ghost use Rattle.fr_cli.specs.Lines.{status_of, failure_line, refusal_end, program_word, line_word};
ghost use Rattle.fr_cli.specs.Lines.{WritesLine};

use fr_io::{Failed, Sink, write_all};
use fr_script::LineKind;
use fr_show::{ProgramKind, Stop};
use itoa::Buffer;

/// Why the top call ends with a status other than 0.
#[derive(Debug, Drop)]
pub enum Failure {
    /// The words are no command.
    Usage,
    /// The command stopped before its end.
    Stopped(Stop),
}

/// The exit status of a failure.
pub fn status(failure: &Failure) -> u8
    ensures { result ≡ status_of failure.now }
{
    match failure {
        Failure::Usage => 1,
        Failure::Stopped(Stop::Program { form: _, kind: _ }) => 2,
        Failure::Stopped(Stop::Script { line: _, kind: _ }) => 3,
        Failure::Stopped(Stop::Evaluation(_)) => 4,
        Failure::Stopped(Stop::Read) => 6,
        Failure::Stopped(Stop::Write) => 7,
        Failure::Stopped(Stop::Memory(_)) => 8,
    }
}

/// Writes the line of a failure, as far as that goes. It asks for no memory, so that only a fault can cut the line.
pub fn tell<E: Sink>(failure: &Failure, err: &mut E)
    ensures { WritesLine (failure_line failure.now) (E.written err.old) (E.written err.new)
        (E.faults err.old) (E.faults err.new) }
{
    let _ = write_line(failure, err);
}

/// Writes the line of a failure.
#[tactic(auto, unfolding(crate::specs::Lines::failure_line))]
fn write_line<E: Sink>(failure: &Failure, err: &mut E) -> Result<(), Failed>
    ensures ok { OnOk result (Appends (E.written err.old) (E.written err.new)
        (failure_line failure.now)) }
    ensures err { OnErr result (AppendsSome (E.written err.old) (E.written err.new)
        (failure_line failure.now)) }
    ensures counts { Counts (IsErr result) (E.faults err.old) (E.faults err.new) }
{
    match failure {
        Failure::Usage => write_all(err, b"usage\n"),
        Failure::Stopped(stop) => write_stop(stop, err),
    }
}

/// Writes the line of a stop.
#[tactic(auto, unfolding(crate::specs::Lines::failure_line))]
fn write_stop<E: Sink>(stop: &Stop, err: &mut E) -> Result<(), Failed>
    ensures ok { OnOk result (Appends (E.written err.old) (E.written err.new)
        (failure_line (Failure.Stopped stop.now))) }
    ensures err { OnErr result (AppendsSome (E.written err.old) (E.written err.new)
        (failure_line (Failure.Stopped stop.now))) }
    ensures counts { Counts (IsErr result) (E.faults err.old) (E.faults err.new) }
{
    match stop {
        Stop::Program { form, kind } => {
            write_place(
                err,
                b"program refused at form ",
                *form as u64,
                program_end(*kind),
            )
        }
        Stop::Script { line, kind } => {
            write_place(err, b"script refused at line ", *line, script_end(*kind))
        }
        Stop::Evaluation(time) => write_place(err, b"evaluation error at time ", *time, b"\n"),
        Stop::Read => write_all(err, b"read fault\n"),
        Stop::Write => write_all(err, b"write fault\n"),
        Stop::Memory(_) => write_all(err, b"no memory\n"),
    }
}

/// Writes a line that names a place by its number.
fn write_place<E: Sink>(
    err: &mut E,
    before: &[u8],
    number: u64,
    behind: &[u8],
) -> Result<(), Failed>
    ensures ok { OnOk result (Appends (E.written err.old) (E.written err.new)
        (before.now ++ decimal number ++ behind.now)) }
    ensures err { OnErr result (AppendsSome (E.written err.old) (E.written err.new)
        (before.now ++ decimal number ++ behind.now)) }
    ensures counts { Counts (IsErr result) (E.faults err.old) (E.faults err.new) }
{
    let mut buffer = Buffer::new();
    match write_all(err, before) {
        Ok(()) => {}
        Err(fault) => return Err(fault),
    }
    match write_all(err, buffer.format(number).as_bytes()) {
        Ok(()) => {}
        Err(fault) => return Err(fault),
    }
    match write_all(err, behind) {
        Ok(()) => Ok(()),
        Err(fault) => Err(fault),
    }
}

/// How the line of a refused program ends.
fn program_end(kind: ProgramKind) -> &'static [u8]
    ensures { result.now ≡ refusal_end (program_word kind) }
{
    match kind {
        ProgramKind::Length => b": length\n",
        ProgramKind::Text => b": text\n",
        ProgramKind::Form => b": form\n",
        ProgramKind::Name => b": name\n",
        ProgramKind::Unbound => b": unbound\n",
        ProgramKind::Twice => b": twice\n",
        ProgramKind::Handler => b": handler\n",
        ProgramKind::Nesting => b": nesting\n",
    }
}

/// How the line of a refused script ends.
fn script_end(kind: LineKind) -> &'static [u8]
    ensures { result.now ≡ refusal_end (line_word kind) }
{
    match kind {
        LineKind::Grammar => b": grammar\n",
        LineKind::Name => b": name\n",
        LineKind::Twice => b": twice\n",
        LineKind::Time => b": time\n",
        LineKind::Value => b": value\n",
        LineKind::Long => b": long\n",
        LineKind::Many => b": many\n",
    }
}
