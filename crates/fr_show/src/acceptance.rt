//! Judges texts: the program that a text is, or why it is refused.
ghost use Rattle.std.specs.Prelude.{◌≡◌, ◌≢◌, IfOk, IfErr};
ghost use Rattle.fr_value.specs.Data.{data_of};
ghost use Rattle.fr_core.specs.WellFormed.{IsWellFormed};
ghost use Rattle.fr_show.specs.Accepted.{IsForms, AreSmall, IsProgram};
ghost use Rattle.fr_show.specs.Stops.{Explains, kind_of, unaccepted};
ghost use Rattle.fr_show.specs.declared.acceptance.AcceptStop.TheVariants as AcceptStop;
ghost use Rattle.fr_show.specs.declared.stop.Stop.TheVariants as Stop;

use crate::stop::{ProgramKind, Stop};
use fr_core::Program;
use fr_expand::{ExpandStop, Kind, expand};
use fr_reader::{ReadStop, read_all};
use fr_value::Value;
use std::alloc::{AllocError, Global};

/// The greatest length of a program in bytes.
pub const PROGRAM_LIMIT: usize = 1_048_576;

/// Why a text isn't accepted.
#[derive(Debug, Drop)]
pub enum AcceptStop {
    /// There was no memory.
    Memory(AllocError),
    /// The text is refused at this form, counted from 1; form 0 is the text as a whole.
    Refused { form: u32, kind: ProgramKind },
}

impl From<AllocError> for AcceptStop {
    ghost use Rattle.std.specs.Prelude.{◌≡◌};
    ghost use Rattle.fr_show.specs.declared.acceptance.AcceptStop.TheVariants as AcceptStop;

    ghost from_gives = { λ e r. r ≡ AcceptStop.Memory e };

    fn from(e: AllocError) -> AcceptStop {
        AcceptStop::Memory(e)
    }
}

impl AcceptStop {
    /// The stop of a command whose program isn't accepted.
    pub fn into_stop(self) -> Stop
        ensures value { result ≡ unaccepted self }
        ensures no_read { result ≢ Stop.Read }
        ensures no_write { result ≢ Stop.Write }
    {
        match self {
            AcceptStop::Memory(e) => Stop::Memory(e),
            AcceptStop::Refused { form, kind } => Stop::Program { form, kind },
        }
    }
}

/// The program that a text of at most 1,048,576 bytes is.
///
/// `Refused` is the text's one verdict: at form 0 with `Length` where it is longer, at the form from which on it doesn't read
/// with `Text`, and else at the first form that is refused, with its first kind. `Memory` tells nothing of the text.
/// The program is well formed.
pub fn accept(alloc: Global, bytes: &[u8]) -> Result<Program, AcceptStop>
    ensures accepted { IfOk result (IsProgram bytes.now) }
    ensures well_formed { IfOk result IsWellFormed }
    ensures refused { IfErr result (Explains bytes.now) }
{
    let forms = match read_forms(alloc, bytes) {
        Ok(forms) => forms,
        Err(stop) => return Err(stop),
    };
    program_from(alloc, bytes, &forms)
}

/// The forms that a text of at most 1,048,576 bytes reads as, or why it is refused before its forms are looked at.
pub fn read_forms(alloc: Global, bytes: &[u8]) -> Result<Vec<Value>, AcceptStop>
    ensures read { IfOk result (λ forms. IsForms bytes.now (data_of forms.items)) }
    ensures small { IfOk result (λ forms. AreSmall (data_of forms.items)) }
    ensures refused { IfErr result (Explains bytes.now) }
{
    if bytes.len() > PROGRAM_LIMIT {
        return Err(refusal(0, ProgramKind::Length));
    }
    match read_all(alloc, bytes) {
        Ok(forms) => Ok(forms),
        Err(ReadStop::Memory(e)) => Err(AcceptStop::Memory(e)),
        Err(ReadStop::Refused(form)) => Err(refusal(form, ProgramKind::Text)),
    }
}

/// The program that the forms of a text are.
pub fn program_from(alloc: Global, bytes: &[u8], forms: &[Value]) -> Result<Program, AcceptStop>
    requires read { IsForms bytes.now (data_of forms.now) }
    requires small { AreSmall (data_of forms.now) }
    ensures accepted { IfOk result (IsProgram bytes.now) }
    ensures well_formed { IfOk result IsWellFormed }
    ensures refused { IfErr result (Explains bytes.now) }
{
    match expand(alloc, forms) {
        Ok(program) => Ok(program),
        Err(ExpandStop::Memory(e)) => Err(AcceptStop::Memory(e)),
        Err(ExpandStop::Refused(r)) => Err(refusal(r.form, kind_of(r.kind))),
    }
}

fn refusal(form: u32, kind: ProgramKind) -> AcceptStop
    ensures { result ≡ AcceptStop.Refused form kind }
{
    AcceptStop::Refused { form, kind }
}

/// A kind of refused forms as one of refused texts.
fn kind_of(kind: Kind) -> ProgramKind
    ensures { result ≡ kind_of kind }
{
    match kind {
        Kind::Form => ProgramKind::Form,
        Kind::Name => ProgramKind::Name,
        Kind::Unbound => ProgramKind::Unbound,
        Kind::Twice => ProgramKind::Twice,
        Kind::Nesting => ProgramKind::Nesting,
        Kind::Handler => ProgramKind::Handler,
    }
}
