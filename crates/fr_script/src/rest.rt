//! The bytes of a script that were not taken yet.

ghost use Rattle.std.specs.Prelude.{◌≡◌, ◌≤◌, ◌<◌, ◌+◌, ◌++◌, [], None, IfSome, length, take, drop, OnOk, OnErr};
ghost use Rattle.fr_script.specs.Lines.{line_end};

use std::alloc::{AllocError, Global};
use std::marker::Model;

/// Bytes that were fed and not taken yet. Contracts see these bytes.
#[derive(Drop)]
pub struct Rest {
    bytes: Vec<u8>,
    // where what is left begins
    at: usize,
    // the number of its first bytes among which there is no newline
    seen: usize,
}

impl Model for Rest {
    ghost use Rattle.std.specs.Prelude.{◌≡◌, ◌-◌, ◌≤◌, List, ℕ, None, take, drop, length};
    ghost use Rattle.fr_script.specs.Lines.{line_end};

    ghost Value = { List ℕ };

    ghost view = { λ r. drop r.at r.bytes.items };

    ghost invariant = { λ r.
        (r.at ≤ length r.bytes.items)
        × (r.seen ≤ length (drop r.at r.bytes.items))
        × (line_end (take r.seen (drop r.at r.bytes.items)) ≡ None) };
}

/// The number of bytes before the first newline.
fn newline(bytes: &[u8]) -> Option<usize>
    ensures value { result ≡ line_end bytes.now }
    ensures within { IfSome result (λ n. n < length bytes.now) }
{
    for (i, b) in bytes.iter().enumerate() {
        if *b == b'\n' {
            return Some(i);
        }
    }
    None
}

/// The number of bytes before the first newline, which is none of the first ones.
fn newline_behind(bytes: &[u8], seen: usize) -> Option<usize>
    requires within { seen ≤ length bytes.now }
    requires clear { line_end (take seen bytes.now) ≡ None }
    ensures value { result ≡ line_end bytes.now }
    ensures within { IfSome result (λ n. n < length bytes.now) }
    ensures before { IfSome result (λ n. line_end (take n bytes.now) ≡ None) }
{
    match newline(&bytes[seen..]) {
        Some(n) => Some(seen + n),
        None => None,
    }
}

/// Drops the first bytes.
fn drop_front(bytes: &mut Vec<u8>, n: usize)
    requires { n ≤ length bytes.old.items }
    ensures { bytes.new.items ≡ drop n bytes.old.items }
{
    let left = bytes.len() - n;
    bytes.copy_within(n.., 0);
    bytes.truncate(left);
}

impl Rest {
    /// No bytes.
    pub fn new(alloc: Global) -> Rest
        ensures { result ≡ [] }
    {
        Rest {
            bytes: Vec::new(alloc),
            at: 0,
            seen: 0,
        }
    }

    pub fn len(&self) -> usize
        ensures { result ≡ length self.now }
    {
        self.bytes.len() - self.at
    }

    /// Appends a piece. After want of memory nothing was appended.
    ///
    /// Bytes that were taken are dropped once they are half of all, so that no more bytes are moved than were taken.
    pub fn feed(&mut self, piece: &[u8]) -> Result<(), AllocError>
        ensures ok { OnOk result (self.new ≡ self.old ++ piece.now) }
        ensures err { OnErr result (self.new ≡ self.old) }
    {
        if self.at >= self.bytes.len() - self.at {
            drop_front(&mut self.bytes, self.at);
            self.at = 0;
        }
        self.bytes.extend_from_slice(piece)
    }

    /// The number of bytes before the first newline. What it has passed over is never searched again.
    pub fn line_end(&mut self) -> Option<usize>
        ensures value { result ≡ line_end self.old }
        ensures fits { IfSome result (λ n. n < usize.MAX) }
        ensures same { self.new ≡ self.old }
    {
        let found = newline_behind(&self.bytes[self.at..], self.seen);
        self.seen = match found {
            Some(n) => n,
            None => self.len(),
        };
        found
    }

    /// The first bytes.
    pub fn front(&self, n: usize) -> &[u8]
        requires { n ≤ length self.now }
        ensures { result.now ≡ take n self.now }
    {
        &self.bytes[self.at..self.at + n]
    }

    /// Takes the first bytes.
    pub fn take(&mut self, n: usize)
        requires { n ≤ length self.old }
        ensures { self.new ≡ drop n self.old }
    {
        self.at += n;
        self.seen = 0;
    }
}
