ghost use Rattle.std.specs.Prelude.{◌≡◌, [], IfOk};

use fr_value::Held;
use sqlite_items::Items;
use std::alloc::{AllocError, Global};
use std::marker::Model;

/// What the variables of a watch's place hold. Contracts see the list. It lies apart, so that the kinds of nodes are small.
#[derive(Drop)]
pub struct Variables {
    held: Box<Items<Held>>,
}

impl Model for Variables {
    ghost use Rattle.std.specs.Prelude.{List};
    ghost use Rattle.std.specs.Coded.{coded_list};
    ghost use Rattle.fr_value.specs.declared.now.Held.{Held};
    ghost use Rattle.fr_value.specs.contracts.now.Held as part;

    ghost Value = { List Held };

    ghost coded = { coded_list part.the_row.coded };

    ghost view = { λ it. it.held.value };
}

impl Variables {
    /// Puts what the variables hold, in their order, into a place apart. It fails only where there is no memory.
    pub fn of(alloc: Global, held: Items<Held>) -> Result<Variables, AllocError>
        ensures { IfOk result (λ it. it ≡ held) }
    {
        Ok(Variables {
            held: Box::new(alloc, held)?,
        })
    }

    /// What the variables hold, in their order.
    pub fn as_slice(&self) -> &[Held]
        ensures { result.now ≡ self.now }
    {
        self.held.as_slice()
    }

    /// Lets go of all that they hold.
    pub(crate) fn clear(&mut self, alloc: Global)
        ensures { self.new ≡ [] }
    {
        *self.held = Items::new(alloc);
    }
}
