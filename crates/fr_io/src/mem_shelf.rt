//! A shelf in memory whose reads can be made to fail.
ghost use Rattle.std.specs.Prelude.{◌≡◌, ◌≢◌, ◌↔◌, ◌∷◌, [], ◌≤◌, ◌+◌, ◌-◌, ℕ, List, length, min, set, option_map, IsErr, IfOk, IfSome, OnErr, OnOk, Vec};

use crate::calls::Calls;
use crate::named_files::NamedFiles;
use crate::{Failed, Shelf};
use std::alloc::{AllocError, Global};

/// Files in memory. The calls of `read` whose numbers, counted from 1, are listed fail, and so does
/// each read of a name that isn't there.
///
/// Of two files with one name the first counts. There is one count of faults for each file, and one
/// more for all other names. The number of calls and each count stand still at `u64::MAX`.
#[derive(Drop)]
pub struct MemShelf {
    files: NamedFiles,
    faults: Vec<u64>,
    calls: Calls,
    ghost faults_each: { length faults.items ≡ length files.files.items + 1 },
}

impl MemShelf {
    ghost use Rattle.fr_io.specs.NamedFiles.{file_of};
    ghost use Rattle.fr_io.specs.MemShelf.{held_file, reached_position, fault_count, call_count, failing_calls};

    /// A shelf of these files, of which nothing was read yet. Takes the room for what it keeps of
    /// each file, and fails only where that can't be had.
    pub fn new(
        alloc: Global,
        files: Vec<(String, Vec<u8>)>,
        failing: Vec<u64>,
    ) -> Result<MemShelf, AllocError>
        ensures held { IfOk result (λ shelf. (name : List ℕ) → held_file shelf name ≡ file_of files.items name) }
        ensures reached { IfOk result (λ shelf. (name : List ℕ) → reached_position shelf name ≡ option_map (λ _. 0) (file_of files.items name)) }
        ensures faults { IfOk result (λ shelf. (name : List ℕ) → fault_count shelf name ≡ 0) }
        ensures calls { IfOk result (λ shelf. call_count shelf ≡ 0) }
        ensures failing { IfOk result (λ shelf. failing_calls shelf ≡ failing.items) }
    {
        let files = NamedFiles::new(alloc, files)?;
        let faults = Vec::from_elem(alloc, 0, files.len() + 1)?;
        let calls = Calls::new(failing);
        Ok(MemShelf {
            files,
            faults,
            calls,
        })
    }
}

impl Shelf for MemShelf {
    ghost use Rattle.fr_io.specs.Faults.{one_more, Rose, NoneFalls, NoneMoves};
    ghost use Rattle.fr_io.specs.Shelves.{OthersStay};
    ghost use Rattle.fr_io.specs.Files.{GivesFrom, Reaches};
    ghost use Rattle.fr_io.specs.MemShelf.{held_file, reached_position, fault_counts, fault_count, count_place, call_count, failing_calls, FailsNext};

    ghost holds = { held_file };

    ghost reached = { reached_position };

    ghost faults = { fault_count };

    fn read(&mut self, name: &str, position: u64, buf: &mut [u8]) -> Result<usize, Failed>
        ensures within { IfOk result (λ n. n ≤ length buf.new) }
        ensures given { IfOk result (λ n. IfSome (held_file self.old name.now) (λ file. GivesFrom file position n buf.new)) }
        ensures files { (other : List ℕ) → held_file self.new other ≡ held_file self.old other }
        ensures reaches { IfOk result (λ n. Reaches (reached_position self.old name.now) (reached_position self.new name.now) position n) }
        ensures reaches_not { OnErr result (reached_position self.new name.now ≡ reached_position self.old name.now) }
        ensures others { (other : List ℕ) → other ≢ name.now → reached_position self.new other ≡ reached_position self.old other }
        ensures counts { NoneFalls (fault_count self.old) (fault_count self.new) }
        ensures counts_stay { OnOk result
            (NoneMoves (fault_count self.old) (fault_count self.new)) }
        ensures others_stay { OthersStay (name.now ∷ []) (held_file self.old)
            (fault_count self.old) (fault_count self.new) }
        ensures cause { OnErr result (Rose (fault_count self.old name.now) (fault_count self.new name.now)) }

        // What this shelf alone says: which calls fail, how much the others give, and what is counted.
        ensures fails { IsErr result ↔ FailsNext self.old name.now }
        ensures amount { IfOk result (λ n. IfSome (held_file self.old name.now) (λ file. n ≡ min (length buf.old) (length file - position))) }
        ensures counts_one { OnErr result (fault_counts self.new ≡ set (fault_counts self.old) (count_place self.old name.now) (one_more (fault_count self.old name.now))) }
        ensures counts_none { OnOk result (fault_counts self.new ≡ fault_counts self.old) }
        ensures calls { call_count self.new ≡ one_more (call_count self.old) }
        ensures failing { failing_calls self.new ≡ failing_calls self.old }
    {
        let fails = self.calls.begin();
        match self.files.place_of(name) {
            Some(at) if !fails => Ok(self.files.read_at(at, position, buf)),
            place => {
                let at = place.unwrap_or(self.files.len());
                self.faults[at] = self.faults[at].saturating_add(1);
                Err(Failed)
            }
        }
    }
}
