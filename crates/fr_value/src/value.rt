ghost use Rattle.std.specs.Prelude.{◌≡◌, ◌≤◌, true, IfOk};
ghost use Rattle.fr_value.specs.Data.{datum_of, value_size, value_depth};
ghost use Rattle.fr_value.specs.Limits.{most_size, most_depth};
ghost use Rattle.fr_value.specs.Valid.{is_valid};

use crate::list::List;
use crate::string_text::Text;
use crate::symbols::Symbol;
use sqlite_items::Items;
use std::alloc::AllocError;

/// What contracts see of a value: plain data. No code makes one.
#[derive(Drop)]
pub enum Datum {
    /// An integer.
    Int(i64),
    /// A truth value.
    Bool(bool),
    /// A symbol.
    Sym(Symbol),
    /// A string.
    Str(Text),
    /// A proper list of data.
    Seq(Items<Datum>),
}

/// A value of the language. Dropping one nests as deep as its lists do, and for each by the logarithm of its length.
#[cycle(value)]
#[derive(Drop)]
pub enum Value {
    /// An integer.
    Int(i64),
    /// A truth value.
    Bool(bool),
    /// A symbol.
    Sym(Symbol),
    /// A string.
    Str(Text),
    /// A proper list.
    List(List),
}

impl Value {
    /// The same value with one more owner of its parts.
    pub fn share(&self) -> Result<Value, AllocError>
        ensures { IfOk result (λ v. v ≡ self.now) }
    {
        match self {
            Value::Int(n) => Ok(Value::Int(*n)),
            Value::Bool(b) => Ok(Value::Bool(*b)),
            Value::Sym(s) => Ok(Value::Sym(s.share()?)),
            Value::Str(s) => Ok(Value::Str(s.share()?)),
            Value::List(l) => Ok(Value::List(l.share()?)),
        }
    }

    /// 1 for an integer or a truth value, 1 and the number of bytes for a symbol or a string, and a list's own size.
    ///
    /// Every value is valid: its integers fit 64 bits, its symbols are symbols, its strings are UTF-8, and both are short.
    #[tactic(auto, using(crate::proofs::Validity::valid_of))]
    pub fn size(&self) -> u64
        ensures value { result ≡ value_size self.now }
        ensures small { result ≤ most_size }
        ensures valid { is_valid (datum_of self.now) ≡ true }
    {
        match self {
            Value::Int(n) => {
                // the proof learns by the read that the integer fits
                let _n = *n;
                1
            }
            Value::Bool(_) => 1,
            Value::Sym(s) => 1 + s.len() as u64,
            Value::Str(s) => 1 + s.len() as u64,
            Value::List(l) => l.size() as u64,
        }
    }

    /// A list's own depth, and 0 for anything else.
    pub fn depth(&self) -> u32
        ensures value { result ≡ value_depth self.now }
        ensures small { result ≤ most_depth }
    {
        match self {
            Value::List(l) => l.depth(),
            _ => 0,
        }
    }
}
