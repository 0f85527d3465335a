use fr_value::{Symbol, Value};
use sqlite_items::{Boxed, Items};

/// An expression with its parts, in the order of its text. Its names aren't looked up.
#[derive(Drop)]
pub enum Expr {
    /// An integer, a truth value, a string, or the datum of `(quote DATUM)`.
    Literal(Value),
    /// A name that stands for a value.
    Name(Symbol),
    /// `(if TEST THEN ELSE)`.
    If(Boxed<Expr>, Boxed<Expr>, Boxed<Expr>),
    /// `(let ((NAME EXPR) ...) BODY)`: the names, their expressions, and the body.
    Let(Items<Symbol>, Items<Expr>, Boxed<Expr>),
    /// `(let* ((NAME EXPR) ...) BODY)`: the names, their expressions, and the body.
    LetStar(Items<Symbol>, Items<Expr>, Boxed<Expr>),
    /// `(cond (TEST EXPR) ... (else EXPR))`: the tests, the expressions behind them, and the last expression.
    Cond(Items<Expr>, Items<Expr>, Boxed<Expr>),
    /// `(and EXPR ...)`.
    And(Items<Expr>),
    /// `(or EXPR ...)`.
    Or(Items<Expr>),
    /// `(for/fold ((ACC INIT)) ((ITEM LIST)) BODY)`: the two names, and then the three expressions.
    Fold(Symbol, Symbol, Boxed<Expr>, Boxed<Expr>, Boxed<Expr>),
    /// `(repeat (ACC INIT) COUNT BODY)`.
    Repeat(Symbol, Boxed<Expr>, Boxed<Expr>, Boxed<Expr>),
    /// `(map-e (lambda (PAYLOAD) BODY) EVENT)`: the name, the body, and the event.
    MapE(Symbol, Boxed<Expr>, Boxed<Expr>),
    /// `(filter-e (lambda (PAYLOAD) BODY) EVENT)`: the name, the body, and the event.
    FilterE(Symbol, Boxed<Expr>, Boxed<Expr>),
    /// `(merge-e EVENT EVENT ...)`, two or more.
    MergeE(Items<Expr>),
    /// `(hold EVENT INIT)`.
    Hold(Boxed<Expr>, Boxed<Expr>),
    /// `(collect-b EVENT INIT (lambda (PAYLOAD STATE) BODY))`: the event, the first state, the two names, and the body.
    CollectB(Boxed<Expr>, Boxed<Expr>, Symbol, Symbol, Boxed<Expr>),
    /// `(collect-e EVENT INIT (lambda (PAYLOAD STATE) BODY))`: the event, the first state, the two names, and the body.
    CollectE(Boxed<Expr>, Boxed<Expr>, Symbol, Symbol, Boxed<Expr>),
    /// `(changes BEHAVIOUR)`.
    Changes(Boxed<Expr>),
    /// `(once-e EVENT)`.
    OnceE(Boxed<Expr>),
    /// `(delay INIT BEHAVIOUR)`.
    Delay(Boxed<Expr>, Boxed<Expr>),
    /// `(delay-e EVENT)`.
    DelayE(Boxed<Expr>),
    /// `(feedback (NAME INIT) BODY)`.
    Feedback(Symbol, Boxed<Expr>, Boxed<Expr>),
    /// `(NAME EXPR ...)`, where the name is no keyword.
    Call(Symbol, Items<Expr>),
}
