ghost use Rattle.std.specs.Prelude.{◌≡◌, ◌-◌, ◌<◌, ◌↔◌, IsTrue};

use fr_value::Bad;
use std::alloc::AllocError;

/// How many calls of functions and of handlers and turns of loops are left for an instant.
#[derive(Clone, Copy, Debug, PartialEq, Eq)]
pub struct Fuel {
    pub left: u64,
}

impl Fuel {
    /// Takes one where one is left; otherwise it answers false and changes nothing.
    pub fn spend(&mut self) -> bool
        ensures some { IsTrue result ↔ (0 < self.old.left) }
        ensures left { self.new.left ≡ self.old.left - 1 }
    {
        if self.left == 0 {
            return false;
        }
        self.left -= 1;
        true
    }
}

/// Why a run of a kernel gave no value.
#[derive(Clone, Copy, Debug)]
pub enum KernStop {
    /// Memory is wanting.
    Memory(AllocError),
    /// The first error of the evaluation is of this kind.
    Bad(Bad),
    /// The evaluation costs more than what was left.
    Fuel,
}
