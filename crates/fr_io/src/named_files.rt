//! Files in memory, found by name.
ghost use Rattle.std.specs.Prelude.{◌≡◌, ◌<◌, ◌+◌, ◌-◌, ◌==◌, if◌then◌else◌, IfOk, length, take, drop, min, max, set, replicate, slice_index};
ghost use Rattle.fr_io.specs.NamedFiles.{place, bytes_at};

use std::alloc::{AllocError, Global};

/// Files by name, each with the greatest position, counted from 1, of a byte that was read.
#[derive(Drop)]
pub(crate) struct NamedFiles {
    files: Vec<(String, Vec<u8>)>,
    reached: Vec<u64>,
    ghost reached_each: { length reached.items ≡ length files.items },
}

impl NamedFiles {
    /// Nothing was read yet. Takes the room for what is kept of each file.
    pub(crate) fn new(
        alloc: Global,
        files: Vec<(String, Vec<u8>)>,
    ) -> Result<NamedFiles, AllocError>
        ensures files { IfOk result (λ made. made.files ≡ files) }
        ensures reached { IfOk result (λ made. made.reached.items ≡ replicate (length files.items) 0) }
    {
        let reached = Vec::from_elem(alloc, 0, files.len())?;
        Ok(NamedFiles { files, reached })
    }

    pub(crate) fn len(&self) -> usize
        ensures { result ≡ length self.now.files.items }
    {
        self.files.len()
    }

    /// The place of the first file of a name.
    pub(crate) fn place_of(&self, name: &str) -> Option<usize>
        ensures { result ≡ place self.now.files.items name.now }
    {
        self.files.iter().position(|file| file.0.as_str() == name)
    }

    /// Copies bytes of the file at a place, from a position on, to the front of the buffer, as many
    /// as fit, and says how many.
    pub(crate) fn read_at(&mut self, at: usize, position: u64, buf: &mut [u8]) -> usize
        requires { at < length self.old.files.items }
        ensures amount { result ≡ min (length buf.old) (length (bytes_at self.old.files.items at) - position) }
        ensures bytes { take result buf.new ≡ take result (drop position (bytes_at self.old.files.items at)) }
        ensures files { self.new.files ≡ self.old.files }
        ensures reached { self.new.reached.items ≡ set self.old.reached.items at (if result == 0 then slice_index self.old.reached.items at else max (slice_index self.old.reached.items at) (position + result)) }
    {
        let bytes = &self.files[at].1;
        let start = position.min(bytes.len() as u64) as usize;
        let n = buf.len().min(bytes.len() - start);
        buf[..n].copy_from_slice(&bytes[start..start + n]);
        if n > 0 {
            self.reached[at] = self.reached[at].max(position + n as u64);
        }
        n
    }
}
