ghost use Rattle.std.specs.Prelude.{◌≡◌, ◌<◌, slice_get, OnSome};
ghost use Rattle.std.specs.Option.{option_copied};
ghost use Rattle.fr_core.specs.Shapes.{parts_of};

use fr_value::{FunId, Primitive, SrcId, Value, VarId};
use sqlite_items::{Boxed, Items, at};

/// A form whose value follows from the values of its parts, and from its cell where it keeps one.
#[derive(Clone, Copy, Debug, PartialEq, Eq)]
pub enum Operator {
    /// A primitive, applied to its arguments.
    Prim(Primitive),
    /// The leftmost occurrence among events.
    MergeE,
    /// An event, whose last payload it is, and the value before any.
    Hold,
    /// The value whose changes occur.
    Changes,
    /// The event of which only the first occurrence is kept.
    OnceE,
    /// The value at the first instant, and the value that shows one instant later.
    Delay,
    /// The event that occurs one instant later.
    DelayE,
}

/// A form with a body that is evaluated once for each occurrence of an event.
#[derive(Clone, Copy, Debug, PartialEq, Eq)]
pub enum Handler {
    /// An event; the body binds the payload and gives the new one.
    MapE,
    /// An event; the body binds the payload and tells whether the event goes on.
    FilterE,
    /// An event and the first state; the body binds the payload and the state and gives the next state, which is the
    /// value.
    CollectB,
    /// An event and the first state; the body binds the payload and the state and gives the next state, with which it
    /// occurs.
    CollectE,
}

/// A form with a body that is evaluated once for each turn.
#[derive(Clone, Copy, Debug, PartialEq, Eq)]
pub enum Loop {
    /// The first accumulator and the list; the body binds the accumulator and the item.
    Fold,
    /// The first accumulator and the count; the body binds the accumulator.
    Repeat,
}

/// An expression of the core language, one case for each shape of a form.
///
/// The parts of a form stand in the order in which they are evaluated; a body stands behind them. The body of a handler
/// or a loop isn't evaluated as a part: it is evaluated once for each occurrence or turn. A variable is numbered from
/// the outermost binding of its function, or of its item of the program's body; what a form binds for its body comes
/// behind the variables of its place, in the order that is told here.
#[derive(Drop)]
pub enum Core {
    /// A literal.
    Lit(Value),
    /// The value of a variable.
    Var(VarId),
    /// The value of a source at this instant.
    Source(SrcId),
    /// The expressions, each over the outer variables, and then the body, for which each of them binds a variable.
    Let(Items<Core>, Boxed<Core>),
    /// The test; then the second part where the test isn't `#f`, and else the third.
    If(Boxed<Core>, Boxed<Core>, Boxed<Core>),
    /// A call of a function of the program with these arguments.
    Apply(FunId, Items<Core>),
    /// An operator and its parts.
    Operator(Operator, Items<Core>),
    /// A handler, its parts and its body.
    Handler(Handler, Items<Core>, Boxed<Core>),
    /// A loop, its parts and its body.
    Loop(Loop, Items<Core>, Boxed<Core>),
    /// The value that its variable has at the first instant, and the body, which binds that variable; at a later
    /// instant the variable has the body's value of the instant before.
    Feedback(Boxed<Core>, Boxed<Core>),
}

impl Core {
    /// The part of a number, which counts from 0 in the order of the parts, a body last; None where there is none.
    pub fn part(&self, number: usize) -> Option<&Core>
        ensures value { option_copied result ≡ slice_get (parts_of self.now) number }
        ensures within { OnSome result (number < usize.MAX) }
    {
        match self {
            Core::Lit(_) | Core::Var(_) | Core::Source(_) => None,
            Core::Apply(_, es) | Core::Operator(_, es) => at(es.as_slice(), number),
            Core::Let(es, body) | Core::Handler(_, es, body) | Core::Loop(_, es, body) => {
                let entries = es.as_slice();
                if number == entries.len() {
                    Some(body.get())
                } else {
                    at(entries, number)
                }
            }
            Core::If(a, b, c) => [a.get(), b.get(), c.get()].get(number).copied(),
            Core::Feedback(a, b) => [a.get(), b.get()].get(number).copied(),
        }
    }
}
