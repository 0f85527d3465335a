ghost use Rattle.std.specs.Prelude.{◌≡◌, [], ◌∷◌, length, slice_get, OnOk};

use std::alloc::{AllocError, Global};
use std::marker::Model;

/// The way from an expression to one of its parts. Contracts see the numbers of the parts, the outermost first.
#[derive(Drop)]
pub struct Path {
    // the innermost part first, so that a part further out is put at the end
    from_within: Vec<usize>,
}

impl Model for Path {
    ghost use Rattle.std.specs.Prelude.{ℕ, List, reverse};

    ghost Value = { List ℕ };

    ghost view = { λ p. reverse p.from_within.items };
}

impl Path {
    /// The way to the expression itself. It takes no memory.
    pub fn empty(alloc: Global) -> Path
        ensures { result ≡ [] }
    {
        Path {
            from_within: Vec::new(alloc),
        }
    }

    /// The number of parts that are entered on the way.
    pub fn len(&self) -> usize
        ensures { result ≡ length self.now }
    {
        self.from_within.len()
    }

    /// The number of the part that is entered at a step, which counts from 0; None where the way has no such step.
    pub fn part(&self, step: usize) -> Option<usize>
        ensures { result ≡ slice_get self.now step }
    {
        self.from_within.iter().rev().nth(step).copied()
    }

    /// Makes it the way from an expression of which the one that it leads from is part number `part`. It fails only
    /// where there is no memory.
    pub fn enter_from(&mut self, part: usize) -> Result<(), AllocError>
        ensures { OnOk result (self.new ≡ part ∷ self.old) }
    {
        self.from_within.push(part)?;
        Ok(())
    }
}
