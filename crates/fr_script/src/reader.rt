//! The reader of a script that comes in pieces, as its callers see it.

ghost use Rattle.std.specs.Prelude.{◌≡◌, ℕ, List, [], true, false, IfOk, OnOk, OnErr};
ghost use Rattle.fr_script.specs.Sources.{Named, sources};
ghost use Rattle.fr_script.specs.Stands.{Stands, StandsBehind, TurnStands, is_told, left, Falls};

use crate::line_reader::LineReader;
use crate::turn::Turn;
use fr_core::Program;
use std::alloc::{AllocError, Global};
use std::marker::Model;

/// Reads a script that comes in pieces, and gives its instants in order.
///
/// It keeps the names of the sources, the bytes behind the last line that it took, and the instant that isn't whole yet.
/// Contracts see it behind every line that it takes before it has a turn to give. Which of these lines it took already,
/// no call tells.
#[derive(Drop)]
pub struct ScriptReader {
    lines: LineReader,
}

impl Model for ScriptReader {
    ghost use Rattle.fr_script.specs.declared.line_reader.LineReader.{LineReader};
    ghost use Rattle.fr_script.specs.contracts.line_reader.LineReader as line_reader;
    ghost use Rattle.fr_script.specs.Settled.{settled};

    ghost Value = { LineReader };

    ghost coded = { line_reader.the_row.coded };

    ghost view = { λ r. settled r.lines };
}

impl ScriptReader {
    /// A reader of a script for this program, before its first byte. It fails only for want of memory.
    pub fn new(alloc: Global, program: &Program) -> Result<ScriptReader, AllocError>
        ensures stands { IfOk result (λ r. Stands r (sources program.now) [] 0) }
        ensures told { IfOk result (λ r. is_told r ≡ false) }
    {
        let lines = LineReader::new(alloc, program)?;
        Ok(ScriptReader { lines })
    }

    /// Appends a piece to the script, whose end was not told yet. After want of memory the reader is unchanged.
    ///
    /// Nothing is kept of what follows a bad line that was met.
    pub fn feed(&mut self, piece: &[u8]) -> Result<(), AllocError>
        requires { is_told self.old ≡ false }
        ensures stands { OnOk result (StandsBehind self.old piece.now self.new) }
        ensures told { is_told self.new ≡ false }
        ensures err { OnErr result (self.new ≡ self.old) }
    {
        self.lines.feed(piece)
    }

    /// Tells that the script has ended. It takes no memory.
    pub fn end(&mut self)
        ensures stands { (ss : List Named) (fed : List ℕ) (given : ℕ)
            → Stands self.old ss fed given → Stands self.new ss fed given }
        ensures told { is_told self.new ≡ true }
    {
        self.lines.end();
    }

    /// Gives the next instant; or, where all whole instants were given, the bad line, the end, or `More` where the script
    /// may go on. After want of memory the reader is unchanged.
    ///
    /// An instant leaves less before the reader and no turn leaves more, so that a caller who takes turns comes to an end.
    pub fn next(&mut self) -> Result<Turn, AllocError>
        ensures ok { IfOk result (λ t. TurnStands t self.old self.new) }
        ensures falls { IfOk result (λ t. Falls t (left self.old) (left self.new)) }
        ensures told { is_told self.new ≡ is_told self.old }
        ensures err { OnErr result (self.new ≡ self.old) }
    {
        self.lines.next()
    }
}
