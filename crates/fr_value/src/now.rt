ghost use Rattle.std.specs.Prelude.{◌≡◌, IfOk};

use crate::ids::NodeId;
use crate::value::Value;
use std::alloc::AllocError;

/// Why an expression has no value.
#[derive(Clone, Copy, Debug, PartialEq, Eq)]
pub enum Bad {
    /// An argument is of another type than the one that is wanted, or an event.
    WrongType,
    /// A number leaves 64 bits, or names no item or turn.
    Range,
    /// A division by 0.
    Zero,
    /// The first item or the rest of an empty list.
    Empty,
    /// A wrong number of arguments.
    Arity,
    /// A list or string beyond the limits on size and depth.
    TooBig,
    /// An event where plain data is wanted.
    NotData,
    /// Plain data where an event is wanted.
    NotEvent,
    /// An evaluation that nests too deep.
    Deep,
    /// The program said so by `raise`.
    Raised,
}

/// What an expression has at an instant.
#[derive(Drop)]
pub enum Now {
    /// A plain value.
    Plain(Value),
    /// An event's state: an occurrence with its payload, or none.
    Occ(Option<Value>),
}

/// What a part of a graph gives.
#[derive(Drop)]
pub enum Held {
    /// A value that never changes.
    Steady(Value),
    /// The value of a node, which may change at each instant.
    Signal(NodeId),
}

impl Now {
    /// The same state, with one more owner of its value.
    pub fn share(&self) -> Result<Now, AllocError>
        ensures { IfOk result (λ n. n ≡ self.now) }
    {
        match self {
            Now::Plain(v) => Ok(Now::Plain(v.share()?)),
            Now::Occ(None) => Ok(Now::Occ(None)),
            Now::Occ(Some(v)) => Ok(Now::Occ(Some(v.share()?))),
        }
    }
}
