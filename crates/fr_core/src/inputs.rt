ghost use Rattle.std.specs.Prelude.{◌≡◌, ℕ, [], None, length, slice_get, OnOk, OnErr};
ghost use Rattle.std.specs.Option.{option_copied, option_map};
ghost use Rattle.fr_core.specs.Sets.{AreRising, value_in, place_in, placed};

use fr_value::{SrcId, Value};
use std::alloc::{AllocError, Global};
use std::marker::Model;

/// A value for a source.
#[derive(Drop)]
pub struct Entry {
    pub source: SrcId,
    pub value: Value,
}

/// Values for sources, each source once. Contracts see the list of entries, in rising order of source.
#[derive(Drop)]
pub struct Sets {
    entries: Vec<Entry>,
}

impl Model for Sets {
    ghost use Rattle.std.specs.Prelude.{List};
    ghost use Rattle.std.specs.Coded.{coded_list};
    ghost use Rattle.fr_core.specs.declared.inputs.Entry.{Entry};
    ghost use Rattle.fr_core.specs.contracts.inputs.Entry as entry;
    ghost use Rattle.fr_core.specs.Sets.{AreRising};

    ghost Value = { List Entry };

    ghost coded = { coded_list entry.the_row.coded };

    ghost view = { λ s. s.entries.items };

    ghost invariant = { λ s. AreRising s.entries.items };
}

/// What the script says of one instant: its time and what it sets.
#[derive(Drop)]
pub struct Inputs {
    pub time: u64,
    pub sets: Sets,
}

/// The number of entries whose sources come before a new one, found by halving.
fn place_of(entries: &[Entry], source: SrcId) -> usize
    requires { AreRising entries.now }
    ensures { result ≡ place_in source entries.now }
{
    entries.partition_point(|entry| entry.source.0 <= source.0)
}

/// The value of the entry for a source, found by halving.
fn find(entries: &[Entry], source: SrcId) -> Option<&Value>
    requires { AreRising entries.now }
    ensures { option_copied result ≡ value_in source entries.now }
{
    match entries.binary_search_by_key(&source.0, |entry| entry.source.0) {
        Ok(at) => Some(&entries[at].value),
        Err(_) => None,
    }
}

impl Sets {
    /// No entries. It takes no memory.
    pub fn new(alloc: Global) -> Sets
        ensures { result ≡ [] }
    {
        Sets {
            entries: Vec::new(alloc),
        }
    }

    /// The number of entries.
    pub fn len(&self) -> usize
        ensures value { result ≡ length self.now }
        ensures rising { AreRising self.now }
    {
        self.entries.len()
    }

    /// The source of the entry at an index, which counts from 0; None where there is no such entry.
    pub fn source_at(&self, at: usize) -> Option<SrcId>
        ensures { result ≡ option_map (λ e. e.source) (slice_get self.now at) }
    {
        self.entries.get(at).map(|entry| entry.source)
    }

    /// The value for a source; None where the source isn't in it.
    pub fn value_of(&self, source: SrcId) -> Option<&Value>
        ensures { option_copied result ≡ value_in source self.now }
    {
        find(&self.entries, source)
    }

    /// Puts a value for a source in its place. It fails only where there is no memory, and then nothing was put.
    pub fn put(&mut self, source: SrcId, value: Value) -> Result<(), AllocError>
        requires { value_in source self.old ≡ None }
        ensures ok { OnOk result (self.new ≡ placed (record { source = source; value = value }) self.old) }
        ensures err { OnErr result (self.new ≡ self.old) }
    {
        let at = place_of(&self.entries, source);
        self.entries.insert(at, Entry { source, value })?;
        Ok(())
    }
}
