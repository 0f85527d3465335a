use crate::expr::Expr;
use fr_value::{Symbol, Value};
use sqlite_items::Items;

/// A form of a program. Its names aren't looked up.
#[derive(Drop)]
pub enum Form {
    /// `(define-input NAME DATUM)`: a behaviour that the script sets, and its first value.
    Input(Symbol, Value),
    /// `(define-event NAME)`: an event stream whose occurrences the script gives.
    Event(Symbol),
    /// `(define (NAME PARAM ...) BODY)`: a function, its parameters and its body.
    Function(Symbol, Items<Symbol>, Expr),
    /// `(define NAME EXPR)`: a value for the forms behind it.
    Define(Symbol, Expr),
    /// `(show NAME EXPR)`: a displayed value.
    Show(Symbol, Expr),
}
