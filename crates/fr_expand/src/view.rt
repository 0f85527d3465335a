//! Expressions by their shapes: the parts, the names and what is bound where.
ghost use Rattle.std.specs.Prelude.{◌≡◌};
ghost use Rattle.fr_expand.specs.Shapes.{seen, shape_of};

use fr_core::{Core, Handler, Loop, Operator};
use fr_syntax::Expr;
use fr_value::{Symbol, Value};
use sqlite_items::{Boxed, Items};

/// An expression by its shape, with its parts in the order in which they are evaluated.
#[derive(Clone, Copy)]
pub(crate) enum View<'a> {
    /// The value itself.
    Literal(&'a Value),
    /// A name that stands for a value.
    Name(&'a Symbol),
    /// The name that is called, and the arguments.
    Call(&'a Symbol, &'a [Expr]),
    /// The test, what follows where it holds, and what follows where it doesn't.
    If(&'a Expr, &'a Expr, &'a Expr),
    /// Names, the parts that they are bound to one after the other, and the body.
    Chain(&'a [Symbol], &'a [Expr], &'a Expr),
    /// The tests, the expressions behind them, and the last expression.
    Cond(&'a [Expr], &'a [Expr], &'a Expr),
    /// The parts of an `and`.
    And(&'a [Expr]),
    /// The parts of an `or`.
    Or(&'a [Expr]),
    /// An operator of the core language and its parts.
    Operator(Operator, Parts<'a>),
    /// What binds names for a body: its parts, which don't see them, the names, and the body.
    Binding(Binding, Parts<'a>, Names<'a>, &'a Expr),
    /// The name, the first value, which doesn't see it, and the body.
    Feedback(&'a Symbol, &'a Expr, &'a Expr),
}

/// Parts that see the same variables.
#[derive(Clone, Copy)]
pub(crate) enum Parts<'a> {
    One(&'a Expr),
    Two(&'a Expr, &'a Expr),
    Each(&'a [Expr]),
}

/// Names that are bound together.
#[derive(Clone, Copy)]
pub(crate) enum Names<'a> {
    One(&'a Symbol),
    Two(&'a Symbol, &'a Symbol),
    Each(&'a [Symbol]),
}

/// A form of the core language that has a body behind its parts.
#[derive(Clone, Copy)]
pub(crate) enum Binding {
    Let,
    Handler(Handler),
    Loop(Loop),
}

impl Binding {
    ghost use Rattle.std.specs.Prelude.{◌≡◌};
    ghost use Rattle.fr_expand.specs.Translation.{binding_core};

    /// The core expression of this form with its parts and its body.
    pub(crate) fn core(self, parts: Items<Core>, body: Boxed<Core>) -> Core
        ensures { result ≡ binding_core self parts body }
    {
        match self {
            Binding::Let => Core::Let(parts, body),
            Binding::Handler(handler) => Core::Handler(handler, parts, body),
            Binding::Loop(turns) => Core::Loop(turns, parts, body),
        }
    }
}

/// The shape of an expression.
#[tactic(auto, using(crate::proofs::Opened::opened))]
pub(crate) fn view_of(expr: &Expr) -> View<'_>
    ensures { seen result ≡ shape_of expr.now }
{
    match expr {
        Expr::Literal(value) => View::Literal(value),
        Expr::Name(name) => View::Name(name),
        Expr::If(a, b, c) => View::If(a.get(), b.get(), c.get()),
        Expr::Let(names, parts, body) => View::Binding(
            Binding::Let,
            Parts::Each(parts.as_slice()),
            Names::Each(names.as_slice()),
            body.get(),
        ),
        Expr::LetStar(names, parts, body) => {
            View::Chain(names.as_slice(), parts.as_slice(), body.get())
        }
        Expr::Cond(tests, parts, other) => {
            View::Cond(tests.as_slice(), parts.as_slice(), other.get())
        }
        Expr::And(parts) => View::And(parts.as_slice()),
        Expr::Or(parts) => View::Or(parts.as_slice()),
        Expr::Fold(x, y, a, b, body) => View::Binding(
            Binding::Loop(Loop::Fold),
            Parts::Two(a.get(), b.get()),
            Names::Two(x, y),
            body.get(),
        ),
        Expr::Repeat(x, a, b, body) => View::Binding(
            Binding::Loop(Loop::Repeat),
            Parts::Two(a.get(), b.get()),
            Names::One(x),
            body.get(),
        ),
        Expr::MapE(x, body, a) => View::Binding(
            Binding::Handler(Handler::MapE),
            Parts::One(a.get()),
            Names::One(x),
            body.get(),
        ),
        Expr::FilterE(x, body, a) => View::Binding(
            Binding::Handler(Handler::FilterE),
            Parts::One(a.get()),
            Names::One(x),
            body.get(),
        ),
        Expr::MergeE(parts) => View::Operator(Operator::MergeE, Parts::Each(parts.as_slice())),
        Expr::Hold(a, b) => View::Operator(Operator::Hold, Parts::Two(a.get(), b.get())),
        Expr::CollectB(a, b, x, y, body) => View::Binding(
            Binding::Handler(Handler::CollectB),
            Parts::Two(a.get(), b.get()),
            Names::Two(x, y),
            body.get(),
        ),
        Expr::CollectE(a, b, x, y, body) => View::Binding(
            Binding::Handler(Handler::CollectE),
            Parts::Two(a.get(), b.get()),
            Names::Two(x, y),
            body.get(),
        ),
        Expr::Changes(a) => View::Operator(Operator::Changes, Parts::One(a.get())),
        Expr::OnceE(a) => View::Operator(Operator::OnceE, Parts::One(a.get())),
        Expr::Delay(a, b) => View::Operator(Operator::Delay, Parts::Two(a.get(), b.get())),
        Expr::DelayE(a) => View::Operator(Operator::DelayE, Parts::One(a.get())),
        Expr::Feedback(x, a, body) => View::Feedback(x, a.get(), body.get()),
        Expr::Call(callee, parts) => View::Call(callee, parts.as_slice()),
    }
}
