//! Why forms are no program.
ghost use Rattle.std.specs.Prelude.{◌≡◌, ◌+◌, ◌<◌};
ghost use Rattle.fr_core.specs.WellFormed.{most_entries};

/// Why a form is refused. Where several hold of a form, the first of these is told.
#[derive(Clone, Copy, Debug, PartialEq, Eq)]
pub enum Kind {
    /// The form, or an expression in it, has the shape of no form of the language.
    Form,
    /// A name stands where what it means may not, or is bound or defined though it is reserved.
    Name,
    /// A name means nothing.
    Unbound,
    /// A name is defined, shown or bound twice.
    Twice,
    /// The expression nests above 500.
    Nesting,
    /// The body of a handler or a loop isn't pure. It is looked for where no form is refused for anything else.
    Handler,
}

/// The first form that is refused, and why.
#[derive(Clone, Copy, Debug, PartialEq, Eq)]
pub struct Refusal {
    /// The form's number, counted from 1.
    pub form: u32,
    pub kind: Kind,
}

impl Refusal {
    /// The refusal of the form at a place, counted from 0.
    pub(crate) fn at(place: usize, kind: Kind) -> Refusal
        requires { place < most_entries }
        ensures { result ≡ record { form = place + 1; kind = kind } }
    {
        Refusal {
            form: place as u32 + 1,
            kind,
        }
    }
}
