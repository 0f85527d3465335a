//! Files that are read by position.
ghost use Rattle.std.specs.Prelude.{◌≡◌, ◌≢◌, ℕ, ◌≤◌, ◌+◌, List, [], ◌∷◌, length, take, OnOk, OnErr, IfOk, IfSome, Option};
ghost use Rattle.fr_io.specs.Faults.{Rose, FailsAs, NoneFalls, NoneMoves};
ghost use Rattle.fr_io.specs.Shelves.{OthersStay, Reads};
ghost use Rattle.fr_io.specs.Files.{GivesFrom, Reaches, ReachesFront};

use crate::Failed;
use std::alloc::{AllocError, Global};

/// A set of files, read by position. For each name it has a count of the reads that failed, which
/// never falls and stands still at `u64::MAX`.
///
/// A shelf may tell what a file holds and how far it was read, or not: what it doesn't tell, no
/// clause speaks of.
pub trait Shelf {
    /// The bytes of the file of a name, where that is told.
    ghost holds: { Self → List ℕ → Option (List ℕ) };

    /// The greatest position, counted from 1, of a byte that a read has given, and 0 before any, where that is told.
    ghost reached: { Self → List ℕ → Option ℕ };

    /// How often reads of a name have failed: the count of that file.
    ghost faults: { Self → List ℕ → ℕ };

    /// Puts bytes of a file, from a position on, at the front of the buffer, and says how many.
    /// Positions begin at 0. It answers 0 exactly at or past the end of the file, or where the
    /// buffer is empty, and may otherwise give fewer bytes than there is room for.
    ///
    /// Fails only where the count of the name rose or stands at its greatest value; the buffer may
    /// then hold anything, and the counts of other files stay where those are told. A read that
    /// doesn't fail leaves all counts. The files themselves never change, and it takes no memory of
    /// the caller.
    fn read(&mut self, name: &str, position: u64, buf: &mut [u8]) -> Result<usize, Failed>
        ensures within { IfOk result (λ n. n ≤ length buf.new) }
        ensures given { IfOk result (λ n. IfSome (holds self.old name.now) (λ file. GivesFrom file position n buf.new)) }
        ensures files { (other : List ℕ) → holds self.new other ≡ holds self.old other }
        ensures reaches { IfOk result (λ n. Reaches (reached self.old name.now) (reached self.new name.now) position n) }
        ensures reaches_not { OnErr result (reached self.new name.now ≡ reached self.old name.now) }
        ensures others { (other : List ℕ) → other ≢ name.now → reached self.new other ≡ reached self.old other }
        ensures counts { NoneFalls (faults self.old) (faults self.new) }
        ensures counts_stay { OnOk result (NoneMoves (faults self.old) (faults self.new)) }
        ensures others_stay { OthersStay (name.now ∷ []) (holds self.old)
            (faults self.old) (faults self.new) }
        ensures cause { OnErr result (Rose (faults self.old name.now) (faults self.new name.now)) };
}

/// Why a file couldn't be read whole.
#[derive(Clone, Copy, Debug)]
pub enum FileStop {
    /// There was no memory for its bytes.
    Memory(AllocError),
    /// A read failed.
    Failed,
}

/// All bytes of a file, or, where it has more than `limit`, its first `limit + 1`, so that the
/// caller sees that it is too long. It reads in pieces of at most 4,096 bytes, up to the end or to
/// that many bytes.
///
/// `FileStop::Failed` comes only where the count of the name rose or stands at its greatest value,
/// and else all counts stay. No other file is read. After either error some pieces were read.
pub fn read_up_to<S: Shelf>(
    alloc: Global,
    shelf: &mut S,
    name: &str,
    limit: usize,
) -> Result<Vec<u8>, FileStop>
    ensures bytes { IfOk result (λ bytes. IfSome (S.holds shelf.old name.now) (λ file. bytes.items ≡ take (limit + 1) file)) }
    ensures reached { IfOk result (λ bytes. ReachesFront (S.reached shelf.old name.now) (S.reached shelf.new name.now) (length bytes.items)) }
    ensures shelf { Reads (name.now ∷ []) (FailsAs result FileStop.Failed)
        (S.holds shelf.old) (S.holds shelf.new) (S.reached shelf.old) (S.reached shelf.new)
        (S.faults shelf.old) (S.faults shelf.new) }
{
    let mut bytes = Vec::new(alloc);
    let mut buf = [0u8; 4096];
    while bytes.len() <= limit {
        let room = (limit - bytes.len()).min(4095) + 1;
        let n = match shelf.read(name, bytes.len() as u64, &mut buf[..room]) {
            Ok(n) => n,
            Err(_) => return Err(FileStop::Failed),
        };
        if n == 0 {
            break;
        }
        match bytes.extend_from_slice(&buf[..n]) {
            Ok(()) => {}
            Err(e) => return Err(FileStop::Memory(e)),
        }
    }
    Ok(bytes)
}
