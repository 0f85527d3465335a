ghost use Rattle.std.specs.Prelude.{◌≡◌, ◌≤◌, IfOk, length, IsTrue, ◌↔◌, true, false, Err};
ghost use Rattle.fr_value.specs.Bytes.{is_name, is_short};
ghost use Rattle.fr_value.specs.Limits.{most_bytes};

use crate::bounds::MAX_TEXT_BYTES;
use crate::names::symbol;
use crate::string_text::Text;
use std::alloc::{AllocError, Global};
use std::marker::Model;

/// A symbol of at most `MAX_TEXT_BYTES` bytes, as the name of a variable. Contracts see its bytes.
#[derive(Debug, Drop)]
pub struct Symbol {
    text: Text,
}

impl Model for Symbol {
    ghost use Rattle.std.specs.Prelude.{List, ℕ, IsTrue};
    ghost use Rattle.fr_value.specs.Bytes.{is_name};

    ghost Value = { List ℕ };

    ghost view = { λ s. s.text };

    ghost invariant = { λ s. IsTrue (is_name s.text) };
}

/// Why a symbol was not made.
#[derive(Debug, Drop)]
pub enum SymbolRefusal {
    /// Memory is wanting.
    Memory(AllocError),
    /// The bytes are no symbol.
    NoSymbol,
    /// They are one of more than `MAX_TEXT_BYTES` bytes.
    TooLong,
}

impl From<AllocError> for SymbolRefusal {
    ghost use Rattle.std.specs.Prelude.{◌≡◌};
    ghost use Rattle.fr_value.specs.declared.symbols.SymbolRefusal.TheVariants as SymbolRefusal;

    ghost from_gives = { λ e r. r ≡ SymbolRefusal.Memory e };

    fn from(e: AllocError) -> SymbolRefusal {
        SymbolRefusal::Memory(e)
    }
}

impl Symbol {
    /// The symbol that these bytes are.
    ///
    /// `NoSymbol` comes exactly where they are none, however long, and `TooLong` exactly where they are one and more than
    /// `MAX_TEXT_BYTES`.
    pub fn from_bytes(alloc: Global, bytes: &[u8]) -> Result<Symbol, SymbolRefusal>
        ensures ok { IfOk result (λ s. (s ≡ bytes.now) × (is_name bytes.now ≡ true) × (length bytes.now ≤ most_bytes)) }
        ensures no_symbol { result ≡ Err SymbolRefusal.NoSymbol → is_name bytes.now ≡ false }
        ensures too_long { result ≡ Err SymbolRefusal.TooLong → (is_name bytes.now ≡ true) × (is_short bytes.now ≡ false) }
    {
        let Some(name) = symbol(bytes) else {
            return Err(SymbolRefusal::NoSymbol);
        };
        if bytes.len() > MAX_TEXT_BYTES {
            return Err(SymbolRefusal::TooLong);
        }
        Ok(Symbol::from_str(alloc, name)?)
    }

    /// The symbol that holds a copy of a text that is one.
    pub fn from_str(alloc: Global, text: &str) -> Result<Symbol, AllocError>
        requires symbol { is_name text.now ≡ true }
        requires small { length text.now ≤ most_bytes }
        ensures { IfOk result (λ s. s ≡ text.now) }
    {
        Ok(Symbol {
            text: Text::from_str(alloc, text)?,
        })
    }

    /// One more owner of the same symbol.
    pub fn share(&self) -> Result<Symbol, AllocError>
        ensures { IfOk result (λ s. s ≡ self.now) }
    {
        Ok(Symbol {
            text: self.text.share()?,
        })
    }

    /// The number of its bytes, which are a symbol and at most `MAX_TEXT_BYTES`.
    pub fn len(&self) -> usize
        ensures value { result ≡ length self.now }
        ensures small { result ≤ most_bytes }
        ensures symbol { is_name self.now ≡ true }
    {
        self.text.len()
    }

    /// The text of the symbol.
    pub fn as_str(&self) -> &str
        ensures { result.now ≡ self.now }
    {
        self.text.as_str()
    }

    /// Whether both are one symbol.
    pub fn same(&self, other: &Symbol) -> bool
        ensures { IsTrue result ↔ (self.now ≡ other.now) }
    {
        self.text.same(&other.text)
    }
}

impl Text {
    /// The text of a symbol, with one more owner.
    pub fn of_symbol(symbol: &Symbol) -> Result<Text, AllocError>
        ensures { IfOk result (λ t. t ≡ symbol.now) }
    {
        symbol.text.share()
    }
}
