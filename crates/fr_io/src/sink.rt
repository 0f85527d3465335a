//! Sinks of bytes.
ghost use Rattle.std.specs.Prelude.{ℕ, ◌≡◌, ◌≤◌, ◌<◌, List, [], length, OnOk, OnErr, IfOk, IsErr, Option};
ghost use Rattle.std.specs.Io.KnownBytes.{Appends, WriteAppends};
ghost use Rattle.fr_io.specs.Faults.{Rose, Counts};
ghost use Rattle.fr_io.specs.Files.{AppendsSome};

/// The fault of every read and write.
#[derive(Clone, Copy, Debug, PartialEq, Eq)]
pub struct Failed;

/// Takes bytes. It has a count of the writes that failed, which never falls and stands still at
/// `u64::MAX`.
///
/// A sink may tell what was written, or not: what it doesn't tell, no clause speaks of.
pub trait Sink {
    /// All that was written, where that is told.
    ghost written: { Self → Option (List ℕ) };

    /// How often writes have failed.
    ghost faults: { Self → ℕ };

    /// Takes bytes from the front of a piece, at least one of a piece that isn't empty, and says how
    /// many.
    ///
    /// Fails only where the count rose or stands at its greatest value, and then nothing was
    /// written. A write that doesn't fail leaves the count. It takes no memory.
    fn write(&mut self, bytes: &[u8]) -> Result<usize, Failed>
        ensures within { IfOk result (λ n. n ≤ length bytes.now) }
        ensures some { IfOk result (λ n. 0 < length bytes.now → 0 < n) }
        ensures written { WriteAppends (written self.old) (written self.new) result bytes.now }
        ensures counts { faults self.old ≤ faults self.new }
        ensures counts_stay { OnOk result (faults self.new ≡ faults self.old) }
        ensures cause { OnErr result (Rose (faults self.old) (faults self.new)) };
}

/// Writes a piece whole, in as many writes as the sink needs. An empty piece takes no write, and
/// leaves the sink as it is.
///
/// Fails only where the sink's count rose or stands at its greatest value, and then some first bytes
/// of the piece were written, but not all. It takes no memory.
pub fn write_all<O: Sink>(sink: &mut O, bytes: &[u8]) -> Result<(), Failed>
    ensures ok { OnOk result (Appends (O.written sink.old) (O.written sink.new) bytes.now) }
    ensures err { OnErr result (AppendsSome (O.written sink.old) (O.written sink.new) bytes.now) }
    ensures nothing { bytes.now ≡ [] → sink.new ≡ sink.old }
    ensures counts { Counts (IsErr result) (O.faults sink.old) (O.faults sink.new) }
{
    let mut at = 0;
    while at < bytes.len() {
        let taken = sink.write(&bytes[at..])?;
        at += taken;
    }
    Ok(())
}
