ghost use Rattle.std.specs.Prelude.{◌≡◌, IfOk};
ghost use Rattle.std.specs.Option.{option_map};
ghost use Rattle.fr_syntax.specs.declared.expr.Expr.TheVariants as expr;
ghost use Rattle.fr_syntax.specs.Layouts.{single_of, handler_of, double_of, collector_of, triple_of, many_of, binder_of};

use crate::expr::Expr;
use crate::parts::{boxed_beside, named, named_twice, three_boxed, two_boxed};
use fr_value::{List, Symbol, Value};
use sqlite_items::{Boxed, Items};
use std::alloc::{AllocError, Global};

/// What an expression is by its outermost list, whose names are found: the values in it are yet to be made expressions.
#[derive(Clone, Copy)]
pub(crate) enum Layout<'a> {
    /// The value itself.
    Literal(&'a Value),
    /// A name that stands for a value.
    Name(&'a Symbol),
    /// A form of one expression.
    One(Single, &'a Value),
    /// A form of two expressions.
    Two(Double<'a>, &'a Value, &'a Value),
    /// A form of three expressions.
    Three(Triple<'a>, &'a Value, &'a Value, &'a Value),
    /// A form of any number of expressions.
    Many(Many<'a>, &'a [Value]),
    /// Bindings and a body.
    Bindings(Binder, &'a List, &'a Value),
    /// The clauses of a `cond`.
    Cond(&'a [Value]),
}

/// A form of one expression.
#[derive(Clone, Copy)]
pub(crate) enum Single {
    Changes,
    OnceE,
    DelayE,
}

/// A form with a handler of one parameter.
#[derive(Clone, Copy)]
pub(crate) enum Handler {
    MapE,
    FilterE,
}

/// A form of two expressions, with the name that it binds.
#[derive(Clone, Copy)]
pub(crate) enum Double<'a> {
    Hold,
    Delay,
    Handler(Handler, &'a Symbol),
    Feedback(&'a Symbol),
}

/// A form with a handler of two parameters.
#[derive(Clone, Copy)]
pub(crate) enum Collector {
    CollectB,
    CollectE,
}

/// A form of three expressions, with the names that it binds.
#[derive(Clone, Copy)]
pub(crate) enum Triple<'a> {
    If,
    Fold(&'a Symbol, &'a Symbol),
    Repeat(&'a Symbol),
    Collector(Collector, &'a Symbol, &'a Symbol),
}

/// A form of any number of expressions.
#[derive(Clone, Copy)]
pub(crate) enum Many<'a> {
    And,
    Or,
    MergeE,
    Call(&'a Symbol),
}

/// A form that binds a list of names.
#[derive(Clone, Copy)]
pub(crate) enum Binder {
    Let,
    LetStar,
}

impl Single {
    /// The expression of this form with its part, where that is there.
    pub(crate) fn with(self, alloc: Global, part: Option<Expr>) -> Result<Option<Expr>, AllocError>
        ensures { IfOk result (λ e. e ≡ option_map (single_of self) part) }
    {
        match part {
            Some(a) => Ok(Some(self.of(Boxed::new(alloc, a)?))),
            None => Ok(None),
        }
    }

    fn of(self, a: Boxed<Expr>) -> Expr
        ensures { result ≡ single_of self a }
    {
        match self {
            Single::Changes => Expr::Changes(a),
            Single::OnceE => Expr::OnceE(a),
            Single::DelayE => Expr::DelayE(a),
        }
    }
}

impl Handler {
    /// The expression of this form with its parameter, its body and its event.
    fn of(self, payload: Symbol, body: Boxed<Expr>, event: Boxed<Expr>) -> Expr
        ensures { result ≡ handler_of self payload body event }
    {
        match self {
            Handler::MapE => Expr::MapE(payload, body, event),
            Handler::FilterE => Expr::FilterE(payload, body, event),
        }
    }
}

impl Double<'_> {
    /// The expression of this form with its parts, where they are there.
    pub(crate) fn with(
        self,
        alloc: Global,
        parts: Option<(Expr, Expr)>,
    ) -> Result<Option<Expr>, AllocError>
        ensures { IfOk result (λ e. e ≡ option_map (λ x. double_of self.entry x.0 x.1) parts) }
    {
        match parts {
            Some((a, b)) => Ok(Some(self.of(alloc, a, b)?)),
            None => Ok(None),
        }
    }

    fn of(self, alloc: Global, a: Expr, b: Expr) -> Result<Expr, AllocError>
        ensures { IfOk result (λ e. e ≡ double_of self.entry a b) }
    {
        let (a, b) = two_boxed(alloc, a, b)?;
        Ok(match self {
            Double::Hold => Expr::Hold(a, b),
            Double::Delay => Expr::Delay(a, b),
            Double::Handler(handler, payload) => {
                let (payload, (a, b)) = named(payload, (a, b))?;
                handler.of(payload, a, b)
            }
            Double::Feedback(name) => {
                let (name, (a, b)) = named(name, (a, b))?;
                Expr::Feedback(name, a, b)
            }
        })
    }
}

impl Collector {
    /// The expression of this form with its event, its first state, its parameters and its body.
    fn of(
        self,
        event: Boxed<Expr>,
        first: Boxed<Expr>,
        payload: Symbol,
        state: Symbol,
        body: Boxed<Expr>,
    ) -> Expr
        ensures { result ≡ collector_of self event first payload state body }
    {
        match self {
            Collector::CollectB => Expr::CollectB(event, first, payload, state, body),
            Collector::CollectE => Expr::CollectE(event, first, payload, state, body),
        }
    }
}

impl Triple<'_> {
    /// The expression of this form with its parts, where they are there.
    pub(crate) fn with(
        self,
        alloc: Global,
        parts: Option<(Expr, Expr, Expr)>,
    ) -> Result<Option<Expr>, AllocError>
        ensures { IfOk result (λ e. e ≡ option_map (λ x. triple_of self.entry x.0 x.1 x.2) parts) }
    {
        match parts {
            Some((a, b, c)) => Ok(Some(self.of(alloc, a, b, c)?)),
            None => Ok(None),
        }
    }

    fn of(self, alloc: Global, a: Expr, b: Expr, c: Expr) -> Result<Expr, AllocError>
        ensures { IfOk result (λ e. e ≡ triple_of self.entry a b c) }
    {
        let (a, b, c) = three_boxed(alloc, a, b, c)?;
        Ok(match self {
            Triple::If => Expr::If(a, b, c),
            Triple::Fold(acc, item) => {
                let (acc, (item, (a, b, c))) = named_twice(acc, item, (a, b, c))?;
                Expr::Fold(acc, item, a, b, c)
            }
            Triple::Repeat(acc) => {
                let (acc, (a, b, c)) = named(acc, (a, b, c))?;
                Expr::Repeat(acc, a, b, c)
            }
            Triple::Collector(collector, payload, state) => {
                let (payload, (state, (a, b, c))) = named_twice(payload, state, (a, b, c))?;
                collector.of(a, b, payload, state, c)
            }
        })
    }
}

impl Many<'_> {
    /// The expression of this form with its parts, where they are there.
    pub(crate) fn with(self, parts: Option<Items<Expr>>) -> Result<Option<Expr>, AllocError>
        ensures { IfOk result (λ e. e ≡ option_map (many_of self.entry) parts) }
    {
        match parts {
            Some(parts) => Ok(Some(self.of(parts)?)),
            None => Ok(None),
        }
    }

    fn of(self, parts: Items<Expr>) -> Result<Expr, AllocError>
        ensures { IfOk result (λ e. e ≡ many_of self.entry parts) }
    {
        Ok(match self {
            Many::And => Expr::And(parts),
            Many::Or => Expr::Or(parts),
            Many::MergeE => Expr::MergeE(parts),
            Many::Call(name) => {
                let (name, parts) = named(name, parts)?;
                Expr::Call(name, parts)
            }
        })
    }
}

impl Binder {
    /// The expression of this form with its bindings and its body, where they are there.
    pub(crate) fn with(
        self,
        alloc: Global,
        parts: Option<((Items<Symbol>, Items<Expr>), Expr)>,
    ) -> Result<Option<Expr>, AllocError>
        ensures { IfOk result (λ e. e ≡ option_map (λ x. binder_of self x.0.0 x.0.1 x.1) parts) }
    {
        match parts {
            Some((bindings, body)) => {
                let ((names, values), body) = boxed_beside(alloc, bindings, body)?;
                Ok(Some(self.of(names, values, body)))
            }
            None => Ok(None),
        }
    }

    fn of(self, names: Items<Symbol>, values: Items<Expr>, body: Boxed<Expr>) -> Expr
        ensures { result ≡ binder_of self names values body }
    {
        match self {
            Binder::Let => Expr::Let(names, values, body),
            Binder::LetStar => Expr::LetStar(names, values, body),
        }
    }
}

/// The `cond` with these tests, the expressions behind them and its last expression, where they are there.
pub(crate) fn cond_with(
    alloc: Global,
    parts: Option<((Items<Expr>, Items<Expr>), Expr)>,
) -> Result<Option<Expr>, AllocError>
    ensures { IfOk result (λ e. e ≡ option_map (λ x. expr.Cond x.0.0 x.0.1 x.1) parts) }
{
    match parts {
        Some((clauses, last)) => {
            let ((tests, exprs), last) = boxed_beside(alloc, clauses, last)?;
            Ok(Some(Expr::Cond(tests, exprs, last)))
        }
        None => Ok(None),
    }
}
