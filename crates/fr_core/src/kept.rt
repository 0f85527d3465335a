use fr_value::Value;
use sqlite_items::{Boxed, Items};

/// What a switch chose by: where it is the same as at the instant before, what the choice kept goes on.
#[derive(Clone, Copy, Debug, PartialEq, Eq)]
pub enum Key {
    /// Whether the value of an `if`'s test isn't `#f`.
    Test(bool),
}

/// What an evaluation keeps for the next instant, a tree named by the parts of the expression.
#[derive(Drop)]
pub enum Kept {
    /// Nothing is kept.
    Nothing,
    /// What the parts keep, each at its place.
    Group(Items<Kept>),
    /// The datum of a form's cell, and what the form's parts keep.
    Datum(Value, Boxed<Kept>),
    /// The event's state in a form's cell, and what the form's parts keep.
    Payload(Option<Value>, Boxed<Kept>),
    /// What a switch chose by, and what the choice keeps.
    Switch(Key, Boxed<Kept>),
}
