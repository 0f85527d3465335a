//! Why a command stops.
use fr_script::LineKind;
use std::alloc::AllocError;

/// Why a program is refused.
#[derive(Clone, Copy, Debug, PartialEq, Eq)]
pub enum ProgramKind {
    /// The text has more than 1,048,576 bytes. The form is 0.
    Length,
    /// The text doesn't read as data from this form on.
    Text,
    /// The form, or an expression in it, has the shape of no form of the language.
    Form,
    /// A name stands where what it means may not, or is bound or defined though it is reserved.
    Name,
    /// A name means nothing.
    Unbound,
    /// A name is defined, shown or bound twice.
    Twice,
    /// The body of a handler or a loop isn't pure.
    Handler,
    /// An expression nests above 500.
    Nesting,
}

/// Why a command stopped before its end.
#[derive(Debug, Drop)]
pub enum Stop {
    /// The program is refused at this form, counted from 1; form 0 is the text as a whole.
    Program { form: u32, kind: ProgramKind },
    /// The script is refused at this line, counted from 1.
    Script { line: u64, kind: LineKind },
    /// The instant of this time errs.
    Evaluation(u64),
    /// A file couldn't be read.
    Read,
    /// The output couldn't be written.
    Write,
    /// There was no memory.
    Memory(AllocError),
}
