//! A shelf and a sink that never fail.
ghost use Rattle.std.specs.Prelude.{◌≡◌, ◌≢◌, ◌≤◌, ◌<◌, ◌-◌, ℕ, List, [], None, Some, Ok, length, min, unwrap_or, IsOk, IfOk, OnErr};

use crate::named_files::NamedFiles;
use crate::{Failed, Shelf, Sink};
use std::alloc::{AllocError, Global};

/// Files in memory whose reads never fail: a name that isn't there is an empty file. Of two files
/// with one name the first counts. Its counts of faults are always 0.
#[derive(Drop)]
pub struct SureShelf {
    files: NamedFiles,
}

impl SureShelf {
    ghost use Rattle.fr_io.specs.NamedFiles.{file_of};
    ghost use Rattle.fr_io.specs.SureShelf.{held_file, reached_position};

    /// A shelf of these files, of which nothing was read yet. Takes the room for what it keeps of
    /// each file, and fails only where that can't be had.
    pub fn new(alloc: Global, files: Vec<(String, Vec<u8>)>) -> Result<SureShelf, AllocError>
        ensures held { IfOk result (λ shelf. (name : List ℕ) → held_file shelf name ≡ unwrap_or (file_of files.items name) []) }
        ensures reached { IfOk result (λ shelf. (name : List ℕ) → reached_position shelf name ≡ 0) }
    {
        let files = NamedFiles::new(alloc, files)?;
        Ok(SureShelf { files })
    }
}

impl Shelf for SureShelf {
    ghost use Rattle.fr_io.specs.Faults.{Rose, NoneFalls};
    ghost use Rattle.fr_io.specs.Files.{GivesFrom, Reaches};
    ghost use Rattle.fr_io.specs.SureShelf.{held_file, reached_position};

    ghost holds = { λ shelf name. Some (held_file shelf name) };

    ghost reached = { λ shelf name. Some (reached_position shelf name) };

    ghost faults = { λ _ _. 0 };

    fn read(&mut self, name: &str, position: u64, buf: &mut [u8]) -> Result<usize, Failed>
        ensures within { IfOk result (λ n. n ≤ length buf.new) }
        ensures given { IfOk result (λ n. GivesFrom (held_file self.old name.now) position n buf.new) }
        ensures files { (other : List ℕ) → Some (held_file self.new other) ≡ Some (held_file self.old other) }
        ensures reaches { IfOk result (λ n. Reaches (Some (reached_position self.old name.now)) (Some (reached_position self.new name.now)) position n) }
        ensures reaches_not { OnErr result (Some (reached_position self.new name.now) ≡ Some (reached_position self.old name.now)) }
        ensures others { (other : List ℕ) → other ≢ name.now → Some (reached_position self.new other) ≡ Some (reached_position self.old other) }
        ensures counts { NoneFalls (λ _. 0) (λ _. 0) }
        ensures cause { OnErr result (Rose 0 0) }

        // What this shelf alone says: it never fails, and gives as much as fits.
        ensures sure { IsOk result }
        ensures amount { IfOk result (λ n. n ≡ min (length buf.old) (length (held_file self.old name.now) - position)) }
    {
        match self.files.place_of(name) {
            Some(at) => Ok(self.files.read_at(at, position, buf)),
            None => Ok(0),
        }
    }
}

/// Takes every piece whole, keeps nothing and tells nothing of it, and never fails. Its count of
/// faults is always 0.
#[derive(Clone, Copy, Debug, Drop)]
pub struct SureSink;

impl SureSink {
    /// A sink that takes everything.
    pub fn new() -> SureSink {
        SureSink
    }
}

impl Sink for SureSink {
    ghost use Rattle.std.specs.Io.KnownBytes.{WriteAppends};
    ghost use Rattle.fr_io.specs.Faults.{Rose};

    ghost written = { λ _. None };

    ghost faults = { λ _. 0 };

    fn write(&mut self, bytes: &[u8]) -> Result<usize, Failed>
        ensures within { IfOk result (λ n. n ≤ length bytes.now) }
        ensures some { IfOk result (λ n. 0 < length bytes.now → 0 < n) }
        ensures written { WriteAppends None None result bytes.now }
        ensures counts { 0 ≤ 0 }
        ensures cause { OnErr result (Rose 0 0) }

        // What this sink alone says: it takes every piece whole.
        ensures sure { result ≡ Ok (length bytes.now) }
    {
        Ok(bytes.len())
    }
}
