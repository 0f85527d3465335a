//! The reader of a script that comes in pieces, line by line.

ghost use Rattle.std.specs.Prelude.{◌≡◌, ◌≤◌, ◌<◌, ◌+◌, ℕ, List, [], Some, None, true, false, length, take, IfOk, OnOk, OnErr};
ghost use Rattle.indexmap.specs.IndexMap.{get_by_text};
ghost use Rattle.fr_script.specs.Lines.{line_end};
ghost use Rattle.fr_script.specs.Sources.{Named, sources};
ghost use Rattle.fr_script.specs.Kinds.{says};
ghost use Rattle.fr_script.specs.Stands.{Stands, StandsBehind, TurnStands, is_told, left, Falls};
ghost use Rattle.fr_script.specs.Steps.{turn_of, behind_line, Steps, TurnGoes, StepFalls};
ghost use Rattle.fr_script.specs.Settled.{unless_turn, next_line, settled};

use crate::progress::Progress;
use crate::rest::Rest;
use crate::said::{Said, said_line};
use crate::sources::{Source, names_of};
use crate::turn::{LineKind, Turn};
use fr_core::Program;
use indexmap::IndexMap;
use std::alloc::{AllocError, Global};

/// What a script reader holds: the names of the sources, the bytes behind the last line that it took, and the instant
/// that isn't whole yet.
#[derive(Drop)]
pub struct LineReader {
    alloc: Global,
    names: IndexMap<String, Source>,
    past: Progress,
    rest: Rest,
    ended: bool,
    // the bad line that was met, by its number
    bad: Option<(u64, LineKind)>,
}

impl LineReader {
    /// A reader before the script's first byte.
    pub fn new(alloc: Global, program: &Program) -> Result<LineReader, AllocError>
        ensures stands { IfOk result (λ r. Stands (settled r) (sources program.now) [] 0) }
        ensures told { IfOk result (λ r. is_told (settled r) ≡ false) }
    {
        let names = names_of(alloc, program)?;
        Ok(LineReader {
            alloc,
            names,
            past: Progress::new(),
            rest: Rest::new(alloc),
            ended: false,
            bad: None,
        })
    }

    /// Appends a piece to the script. Nothing is kept of what follows a bad line that was met.
    pub fn feed(&mut self, piece: &[u8]) -> Result<(), AllocError>
        requires { is_told (settled self.old) ≡ false }
        ensures stands { OnOk result (StandsBehind (settled self.old) piece.now (settled self.new)) }
        ensures told { is_told (settled self.new) ≡ false }
        ensures err { OnErr result (self.new ≡ self.old) }
    {
        if self.bad.is_some() {
            return Ok(());
        }
        self.rest.feed(piece)
    }

    /// Tells that the script has ended.
    pub fn end(&mut self)
        ensures stands { (ss : List Named) (fed : List ℕ) (given : ℕ)
            → Stands (settled self.old) ss fed given → Stands (settled self.new) ss fed given }
        ensures told { is_told (settled self.new) ≡ true }
    {
        self.ended = true;
    }

    fn refuse(&mut self, kind: LineKind) -> Turn
        ensures turn { result ≡ Turn.Refused (self.old.past.lines + 1) kind }
        ensures after { self.new ≡ record self.old { bad = Some (self.old.past.lines + 1, kind) } }
    {
        let line = self.past.line();
        self.bad = Some((line, kind));
        Turn::Refused { line, kind }
    }

    /// Takes a line, which has so many bytes with the newline that ends it.
    fn take_line(&mut self, n: usize, bytes: usize) -> Result<Option<Turn>, AllocError>
        requires some { 0 < bytes }
        requires line { n ≤ length self.old.rest }
        requires within { bytes ≤ length self.old.rest }
        ensures ok { IfOk result (λ t.
            let s = says (get_by_text self.old.names) self.old.past (take n self.old.rest) bytes in
            (t ≡ turn_of s self.old.past) × (self.new ≡ behind_line s self.old bytes)) }
        ensures err { OnErr result (self.new ≡ self.old) }
    {
        match said_line(
            self.alloc,
            &self.names,
            &self.past,
            self.rest.front(n),
            bytes as u64,
        )? {
            Said::Blank => {
                self.rest.take(bytes);
                self.past.pass(bytes as u64);
                Ok(None)
            }
            Said::Sets(time, entry) => {
                let closed = self.past.set(self.alloc, time, entry)?;
                self.rest.take(bytes);
                self.past.pass(bytes as u64);
                Ok(closed.map(Turn::Instant))
            }
            Said::Bad(kind) => Ok(Some(self.refuse(kind))),
        }
    }

    /// What follows the last newline is a line too, and the end makes the last instant whole.
    fn finish(&mut self) -> Result<Option<Turn>, AllocError>
        requires told { is_told self.old ≡ true }
        requires good { self.old.bad ≡ None }
        requires rest { line_end self.old.rest ≡ None }
        ensures ok { IfOk result (λ t. Steps t self.old self.new) }
        ensures falls { IfOk result (λ t. StepFalls t (left self.old) (left self.new)) }
        ensures passes { IfOk result (λ t. next_line self.old ≡ unless_turn t self.new) }
        ensures err { OnErr result (self.new ≡ self.old) }
    {
        let n = self.rest.len();
        if n > 0 {
            return self.take_line(n, n);
        }
        match self.past.take() {
            Some(last) => Ok(Some(Turn::Instant(last))),
            None => Ok(Some(Turn::End)),
        }
    }

    /// What follows the last newline is no line yet, but may be too long already.
    fn pause(&mut self) -> Turn
        requires told { is_told self.old ≡ false }
        requires good { self.old.bad ≡ None }
        requires rest { line_end self.old.rest ≡ None }
        ensures goes { TurnGoes result self.old self.new }
        ensures falls { Falls result (left self.old) (left self.new) }
    {
        let left = self.rest.len();
        if left == 0 {
            return Turn::More;
        }
        if self.past.is_long(self.rest.front(left)) {
            return self.refuse(LineKind::Long);
        }
        if self.past.is_beyond(left as u64) {
            return self.refuse(LineKind::Many);
        }
        Turn::More
    }

    /// Takes one line, or tells what there is without one.
    fn step(&mut self) -> Result<Option<Turn>, AllocError>
        ensures ok { IfOk result (λ t. Steps t self.old self.new) }
        ensures falls { IfOk result (λ t. StepFalls t (left self.old) (left self.new)) }
        ensures passes { IfOk result (λ t. next_line self.old ≡ unless_turn t self.new) }
        ensures err { OnErr result (self.new ≡ self.old) }
    {
        if let Some((line, kind)) = self.bad {
            return Ok(Some(Turn::Refused { line, kind }));
        }
        match self.rest.line_end() {
            Some(n) => self.take_line(n, n + 1),
            None => {
                if self.ended {
                    self.finish()
                } else {
                    Ok(Some(self.pause()))
                }
            }
        }
    }

    /// Gives the next turn. After want of memory it may have passed lines that give no turn, so that it settles where it
    /// settled before.
    pub fn next(&mut self) -> Result<Turn, AllocError>
        ensures ok { IfOk result (λ t. TurnStands t (settled self.old) (settled self.new)) }
        ensures falls { IfOk result (λ t. Falls t (left (settled self.old)) (left (settled self.new))) }
        ensures told { is_told (settled self.new) ≡ is_told (settled self.old) }
        ensures err { OnErr result (settled self.new ≡ settled self.old) }
    {
        'lines: loop {
            match self.step() {
                Ok(Some(turn)) => return Ok(turn),
                Ok(None) => {}
                Err(e) => return Err(e),
            }
        }
    }
}
