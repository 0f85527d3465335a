//! Real files and streams, which tell nothing of content.
ghost use Rattle.std.specs.Prelude.{◌≡◌, ◌≤◌, ◌<◌, None, length, IfOk, OnOk, OnErr};
ghost use Rattle.std.specs.Io.{ReadsAtMost};
ghost use Rattle.fr_io.specs.Faults.{one_more};

use crate::{Failed, Shelf, Sink};
use std::alloc::Global;
use std::fs::File;
use std::io::{self, Read, Seek, SeekFrom, Stderr, Stdout, Write};
use std::rt::Files;

/// An open file under the name that it was asked by, and the position where it stands, where that
/// is known.
#[derive(Drop)]
struct KeptFile<F: Drop> {
    name: String,
    file: F,
    stands_at: Option<u64>,
}

impl<F: Read + Seek + Drop> KeptFile<F> {
    /// Reads from a position on, and seeks only where the file stands elsewhere. After a fault it
    /// isn't known where it stands, so the next read seeks.
    fn read_at(&mut self, position: u64, buf: &mut [u8]) -> io::Result<usize>
        ensures { ReadsAtMost result buf.new }
    {
        if self.stands_at.take() != Some(position) {
            self.file.seek(SeekFrom::Start(position))?;
        }
        let n = self.file.read(buf)?;
        self.stands_at = position.checked_add(n as u64);
        Ok(n)
    }
}

/// Files of the system, by their paths. It tells nothing of what they hold. One count of faults
/// serves all names: each read that fails counts, and the count stands still at `u64::MAX`.
///
/// A file is opened at the first read of its name and kept open as long as the shelf, so at most as
/// many are open as names were read. A read at the position where the last one of that name ended
/// reads on. Any other seeks, and fails where that isn't possible: a pipe is read once, from its
/// front to its end. A file that is replaced meanwhile is read on as it was; one that grows or
/// shrinks is seen as each read finds it.
///
/// Keeping a file takes memory for its name: where there is none, the read fails and counts.
#[derive(Drop)]
pub struct DirShelf<R: Files> {
    rt: R,
    alloc: Global,
    kept: Vec<KeptFile<R::File>>,
    faults: u64,
}

impl<R: Files + AllocGlobal> DirShelf<R> {
    ghost use Rattle.fr_io.specs.Real.{shelf_faults};

    /// A shelf over the files of a runtime, with no file open and no fault yet.
    pub fn new(rt: R) -> DirShelf<R>
        ensures { shelf_faults result ≡ 0 }
    {
        let alloc = rt.alloc();
        let kept = Vec::new(alloc);
        DirShelf {
            rt,
            alloc,
            kept,
            faults: 0,
        }
    }
}

impl<R: Files> DirShelf<R> {
    ghost use Rattle.fr_io.specs.Real.{shelf_faults};

    /// The place of a file among those that are kept. It is opened where it isn't there yet.
    fn place_of(&mut self, name: &str) -> io::Result<usize>
        ensures place { IfOk result (λ at. at < length self.new.kept.items) }
        ensures faults { shelf_faults self.new ≡ shelf_faults self.old }
    {
        if let Some(at) = self.kept.iter().position(|it| it.name.as_str() == name) {
            return Ok(at);
        }
        let opened = KeptFile {
            name: String::from_str(self.alloc, name)?,
            file: File::open(&self.rt, name)?,
            stands_at: Some(0),
        };
        self.kept.push(opened)?;
        Ok(self.kept.len() - 1)
    }

    fn read_at(&mut self, name: &str, position: u64, buf: &mut [u8]) -> io::Result<usize>
        ensures amount { ReadsAtMost result buf.new }
        ensures faults { shelf_faults self.new ≡ shelf_faults self.old }
    {
        let at = self.place_of(name)?;
        self.kept[at].read_at(position, buf)
    }
}

impl<R: Files> Shelf for DirShelf<R> {
    ghost use Rattle.fr_io.specs.Real.{shelf_faults};

    ghost holds = { λ _ _. None };

    ghost reached = { λ _ _. None };

    ghost faults = { λ shelf _. shelf_faults shelf };

    fn read(&mut self, name: &str, position: u64, buf: &mut [u8]) -> Result<usize, Failed>
        ensures within { IfOk result (λ n. n ≤ length buf.new) }
        ensures counts { shelf_faults self.old ≤ shelf_faults self.new }
        ensures counts_stay { OnOk result (shelf_faults self.new ≡ shelf_faults self.old) }
        ensures counts_one { OnErr result (shelf_faults self.new ≡ one_more (shelf_faults self.old)) }
    {
        match self.read_at(name, position, buf) {
            Ok(n) => Ok(n),
            Err(_) => {
                self.faults = self.faults.saturating_add(1);
                Err(Failed)
            }
        }
    }
}

/// A writer of the system, mostly a standard stream. It tells nothing of what was written. Each
/// write that fails counts as a fault, and so does one that took no byte of a piece that isn't
/// empty; the count stands still at `u64::MAX`.
#[derive(Drop)]
pub struct StdSink<W: Write + Drop> {
    writer: W,
    faults: u64,
}

impl StdSink<Stdout> {
    ghost use Rattle.fr_io.specs.Real.{sink_faults};

    /// A sink over the standard output, with no fault yet.
    pub fn output(stream: Stdout) -> StdSink<Stdout>
        ensures { sink_faults result ≡ 0 }
    {
        StdSink::over(stream)
    }
}

impl StdSink<Stderr> {
    ghost use Rattle.fr_io.specs.Real.{sink_faults};

    /// A sink over the standard error, with no fault yet.
    pub fn errors(stream: Stderr) -> StdSink<Stderr>
        ensures { sink_faults result ≡ 0 }
    {
        StdSink::over(stream)
    }
}

impl<W: Write + Drop> StdSink<W> {
    ghost use Rattle.fr_io.specs.Real.{sink_faults};

    /// A sink over any writer, with no fault yet.
    pub fn over(writer: W) -> StdSink<W>
        ensures { sink_faults result ≡ 0 }
    {
        StdSink { writer, faults: 0 }
    }
}

impl<W: Write + Drop> Sink for StdSink<W> {
    ghost use Rattle.fr_io.specs.Real.{sink_faults};

    ghost written = { λ _. None };

    ghost faults = { sink_faults };

    fn write(&mut self, bytes: &[u8]) -> Result<usize, Failed>
        ensures within { IfOk result (λ n. n ≤ length bytes.now) }
        ensures some { IfOk result (λ n. 0 < length bytes.now → 0 < n) }
        ensures counts { sink_faults self.old ≤ sink_faults self.new }
        ensures counts_stay { OnOk result (sink_faults self.new ≡ sink_faults self.old) }
        ensures counts_one { OnErr result (sink_faults self.new ≡ one_more (sink_faults self.old)) }
    {
        match self.writer.write(bytes) {
            Ok(n) if n > 0 || bytes.is_empty() => Ok(n),
            _ => {
                self.faults = self.faults.saturating_add(1);
                Err(Failed)
            }
        }
    }
}
