//! Sets of names.
ghost use Rattle.std.specs.Prelude.{◌≡◌, ◌∷◌, ◌++◌, [], false, OnOk};
ghost use Rattle.fr_expand.specs.Faults.{is_among};

use fr_value::Symbol;
use indexmap::IndexSet;
use std::alloc::{AllocError, Global};
use std::marker::Model;

/// Different names, in the order in which they came. Contracts see the list of them.
#[derive(Drop)]
pub(crate) struct NameSet<'a> {
    names: IndexSet<&'a str>,
}

impl<'a> Model for NameSet<'a> {
    ghost use Rattle.std.specs.Prelude.{ℕ, List, map};

    ghost Value = { List (List ℕ) };

    ghost view = { λ s. map (λ n. n.now) s.names.keys };
}

impl<'a> NameSet<'a> {
    /// No names.
    pub(crate) fn new(alloc: Global) -> NameSet<'a>
        ensures { result ≡ [] }
    {
        NameSet {
            names: IndexSet::new(alloc),
        }
    }

    /// Whether the name is among these. It takes no memory, and no time in their number.
    pub(crate) fn has(&self, name: &Symbol) -> bool
        ensures { result ≡ is_among name.now self.now }
    {
        self.names.contains(name.as_str())
    }

    /// One more name, the last.
    pub(crate) fn add(&mut self, name: &'a Symbol) -> Result<(), AllocError>
        requires { is_among name.now self.old ≡ false }
        ensures { OnOk result (self.new ≡ self.old ++ name.now ∷ []) }
    {
        self.names.insert(name.as_str())?;
        Ok(())
    }
}
