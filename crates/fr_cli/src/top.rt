//! The top call, which does what the words ask for over a shelf and two sinks.
ghost use Rattle.std.specs.Prelude.{◌≡◌, ◌≢◌, ◌≤◌, ◌↔◌, ◌⊎◌, ◌∷◌, ℕ, List, [], length, None, Some, IfOk, IfErr, IfSome};
ghost use Rattle.std.specs.Io.KnownBytes.{Appends};
ghost use Rattle.fr_io.specs.Faults.{Rose, AnyRose, FailsAs, NoneFalls, NoneMoves};
ghost use Rattle.fr_io.specs.Files.{AppendsSome, ReachesFront};
ghost use Rattle.fr_io.specs.Shelves.{OthersUnread, OthersStay, Reads};
ghost use Rattle.fr_show.specs.Accepted.{program_front};
ghost use Rattle.fr_show.specs.Course.{all_bytes};
ghost use Rattle.fr_show.specs.Ends.{EndsThere, RefusesProgram, RefusesScript, Errs};
ghost use Rattle.fr_cli.specs.Command.{asked, script_command, check as check_of, files_in};
ghost use Rattle.fr_cli.specs.Command.{OnCommand, WritesWhole, AllRead, FailsToRead, Answers, IsQuiet};
ghost use Rattle.fr_cli.specs.Lines.{CallsFor, StandsFor};
ghost use Rattle.fr_cli.specs.Obeyed.{IsUnread, Obeys};
ghost use Rattle.fr_cli.specs.Requests.{command_in};

use crate::command::{Request, request_of};
use crate::telling::{Failure, status, tell};
use fr_io::{FileStop, Shelf, Sink, read_up_to, write_all};
use fr_run::run_afresh;
use fr_show::{PROGRAM_LIMIT, Stop, accept};
use std::alloc::Global;

/// Reads a program's file, up to one byte past the limit.
fn read_program<S: Shelf>(alloc: Global, program: &str, shelf: &mut S) -> Result<Vec<u8>, Stop>
    ensures text { IfOk result (λ text. IfSome (S.holds shelf.old program.now)
        (λ file. text.items ≡ program_front file)) }
    ensures reached { IfOk result (λ text. ReachesFront (S.reached shelf.old program.now)
        (S.reached shelf.new program.now) (length text.items)) }
    ensures err { IfErr result IsUnread }
    ensures shelf { Reads (program.now ∷ []) (FailsAs result Stop.Read)
        (S.holds shelf.old) (S.holds shelf.new) (S.reached shelf.old) (S.reached shelf.new)
        (S.faults shelf.old) (S.faults shelf.new) }
{
    match read_up_to(alloc, shelf, program, PROGRAM_LIMIT) {
        Ok(text) => Ok(text),
        Err(FileStop::Memory(e)) => Err(Stop::Memory(e)),
        Err(FileStop::Failed) => Err(Stop::Read),
    }
}

/// Reads the program, and runs it over the script by evaluating the whole of it afresh at every instant.
fn run<S: Shelf, O: Sink>(
    alloc: Global,
    program: &str,
    script: &str,
    shelf: &mut S,
    out: &mut O,
) -> Result<(), Failure>
    ensures { (word : List ℕ) → Obeys (Some (script_command word program.now script.now)) result
        (S.holds shelf.old) (S.holds shelf.new)
        (S.reached shelf.old) (S.reached shelf.new) (S.faults shelf.old) (S.faults shelf.new)
        (O.written out.old) (O.written out.new) (O.faults out.old) (O.faults out.new) }
{
    let text = match read_program(alloc, program, shelf) {
        Ok(text) => text,
        Err(stop) => return Err(Failure::Stopped(stop)),
    };
    match run_afresh(alloc, &text, script, shelf, out) {
        Ok(()) => Ok(()),
        Err(stop) => Err(Failure::Stopped(stop)),
    }
}

/// Reads and judges the program, and writes that it is accepted.
fn check<S: Shelf, O: Sink>(
    alloc: Global,
    program: &str,
    shelf: &mut S,
    out: &mut O,
) -> Result<(), Failure>
    ensures { Obeys (Some (check_of program.now)) result (S.holds shelf.old) (S.holds shelf.new)
        (S.reached shelf.old) (S.reached shelf.new) (S.faults shelf.old) (S.faults shelf.new)
        (O.written out.old) (O.written out.new) (O.faults out.old) (O.faults out.new) }
{
    let text = match read_program(alloc, program, shelf) {
        Ok(text) => text,
        Err(stop) => return Err(Failure::Stopped(stop)),
    };
    match accept(alloc, &text) {
        Ok(_program) => {}
        Err(stop) => return Err(Failure::Stopped(stop.into_stop())),
    }
    match write_all(out, b"accepted\n") {
        Ok(()) => Ok(()),
        Err(_) => Err(Failure::Stopped(Stop::Write)),
    }
}

/// Does what is asked for.
fn fulfil<S: Shelf, O: Sink>(
    alloc: Global,
    request: Request<'_>,
    shelf: &mut S,
    out: &mut O,
) -> Result<(), Failure>
    ensures { Obeys (Some (command_in request.entry)) result (S.holds shelf.old) (S.holds shelf.new)
        (S.reached shelf.old) (S.reached shelf.new) (S.faults shelf.old) (S.faults shelf.new)
        (O.written out.old) (O.written out.new) (O.faults out.old) (O.faults out.new) }
{
    match request {
        Request::Run { program, script } => run(alloc, program, script, shelf, out),
        Request::Afresh { program, script } => run(alloc, program, script, shelf, out),
        Request::Check { program } => check(alloc, program, shelf, out),
    }
}

/// Does what the words ask for.
fn obey<S: Shelf, O: Sink>(
    alloc: Global,
    words: &[String],
    shelf: &mut S,
    out: &mut O,
) -> Result<(), Failure>
    ensures { Obeys (asked words.now) result (S.holds shelf.old) (S.holds shelf.new)
        (S.reached shelf.old) (S.reached shelf.new) (S.faults shelf.old) (S.faults shelf.new)
        (O.written out.old) (O.written out.new) (O.faults out.old) (O.faults out.new) }
{
    match request_of(words) {
        None => Err(Failure::Usage),
        Some(request) => fulfil(alloc, request, shelf, out),
    }
}

/// The top call. `words` are the words after the program's name. `run PROGRAM SCRIPT` runs the program in the first file
/// over the script in the second, and appends to `out`, at instant 0 and at each instant of the script, the displayed
/// values that have changed. It uses no graph yet: as `afresh PROGRAM SCRIPT` does, it evaluates the whole program
/// afresh at every instant. `check PROGRAM` appends `accepted` and a newline where the program in the file is accepted.
/// The answer is the exit status; for each but 0, one line on `err` tells why:
///
/// | Status | Line | Comes |
/// |---|---|---|
/// | 0 | none | only where every file was read to its end, and everything run and written |
/// | 1 | `usage` | exactly where the words are no command |
/// | 2 | `program refused at form K: KIND` | only where the program is refused so |
/// | 3 | `script refused at line L: KIND` | only where the script is refused so, and no instant before that line errs |
/// | 4 | `evaluation error at time T` | only where that instant is the first that errs, and no line before it is bad |
/// | 6 | `read fault` | exactly where the count of a file that the words name rose |
/// | 7 | `write fault` | exactly where the count of `out` rose, and then bytes are missing |
/// | 8 | `no memory` | where there was none, of which no clause speaks |
///
/// Where none of these counts rose, the status is the one of 0 to 4 that the words, the program and the script call for, or 8:
/// only a fault or want of memory can come before it.
///
/// After a read fault of the program nothing was written, and after one of the script exactly the text of instant 0.
/// Nothing that was written is taken back, and an instant's text is written only when the whole instant is done. The
/// files stay as they are, and no file is read that the words don't name.
pub fn frtime<S: Shelf, O: Sink, E: Sink>(
    alloc: Global,
    words: &[String],
    shelf: &mut S,
    out: &mut O,
    err: &mut E,
) -> u8
    // The headline: at status 0 exactly the bytes of evaluating the whole program afresh at every instant were written,
    // over the whole script.
    ensures headline { result ≡ 0 → OnCommand (asked words.now) (S.holds shelf.old)
        (λ c. EndsThere None c (O.written out.old) (O.written out.new)) }
    ensures read_to_end { result ≡ 0 → AllRead (files_in (asked words.now)) (S.holds shelf.old)
        (S.reached shelf.old) (S.reached shelf.new) }
    ensures silent { result ≡ 0 → err.new ≡ err.old }
    // Where no file that the words name and not `out` fails, the status is the one that the words and the files call for,
    // or there was no memory.
    ensures complete { (AnyRose (files_in (asked words.now))
        (S.faults shelf.old) (S.faults shelf.new) → ⊥) →
        (Rose (O.faults out.old) (O.faults out.new) → ⊥) →
        CallsFor (asked words.now) (S.holds shelf.old) result ⊎ (result ≡ 8) }

    // The cause of each other status. Where the status isn't 6 no file's count moved, and where it isn't 7 not that
    // of `out`.
    ensures usage { (result ≡ 1) ↔ (asked words.now ≡ None) }
    ensures program_refused { result ≡ 2 → OnCommand (asked words.now) (S.holds shelf.old)
        (λ c. RefusesProgram c (O.written out.old) (O.written out.new)) }
    ensures script_refused { result ≡ 3 → OnCommand (asked words.now) (S.holds shelf.old)
        (λ c. RefusesScript c (O.written out.old) (O.written out.new)) }
    ensures evaluation_error { result ≡ 4 → OnCommand (asked words.now) (S.holds shelf.old)
        (λ c. Errs c (O.written out.old) (O.written out.new)) }
    ensures read_fault { result ≡ 6 → FailsToRead (asked words.now) (S.holds shelf.old)
        (S.faults shelf.old) (S.faults shelf.new) (O.written out.old) (O.written out.new) }
    ensures no_read_fault { result ≢ 6 → NoneMoves (S.faults shelf.old) (S.faults shelf.new) }
    ensures write_fault { result ≡ 7 → Rose (O.faults out.old) (O.faults out.new) }
    ensures no_write_fault { result ≢ 7 → O.faults out.new ≡ O.faults out.old }
    ensures answers { Answers (asked words.now) result }

    // What was written: the texts of a whole number of instants, and after a write fault some first bytes, but not all.
    ensures whole_instants { result ≢ 7 → WritesWhole (asked words.now) (S.holds shelf.old)
        (O.written out.old) (O.written out.new) }
    ensures first_bytes { result ≡ 7 → OnCommand (asked words.now) (S.holds shelf.old)
        (λ c. AppendsSome (O.written out.old) (O.written out.new) (all_bytes c.texts)) }
    // Where `check` stops it has written nothing, but for a write fault.
    ensures quiet { IsQuiet (asked words.now) → result ≢ 0 → result ≢ 7 →
        Appends (O.written out.old) (O.written out.new) [] }

    // The files stay, those that the words don't name are left alone, and no count falls.
    ensures files { (name : List ℕ) → S.holds shelf.new name ≡ S.holds shelf.old name }
    ensures others_unread { OthersUnread (files_in (asked words.now))
        (S.reached shelf.old) (S.reached shelf.new) }
    ensures others_stay { OthersStay (files_in (asked words.now)) (S.holds shelf.old)
        (S.faults shelf.old) (S.faults shelf.new) }
    ensures shelf_counts { NoneFalls (S.faults shelf.old) (S.faults shelf.new) }
    ensures out_counts { O.faults out.old ≤ O.faults out.new }
    ensures err_counts { E.faults err.old ≤ E.faults err.new }

    // Each status but 0 is that of a failure, which says of the course how it ends or what of it was written, and `err`
    // got its line, or where it fails some first bytes of it.
    ensures stopped { result ≢ 0 → StandsFor result (asked words.now) (S.holds shelf.old)
        (O.written out.old) (O.written out.new) (E.written err.old) (E.written err.new)
        (E.faults err.old) (E.faults err.new) }
{
    match obey(alloc, words, shelf, out) {
        Ok(()) => 0,
        Err(failure) => {
            tell(&failure, err);
            status(&failure)
        }
    }
}

#[cfg(test)]
mod tests;
