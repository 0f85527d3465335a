//! What building goes by, and what it runs kernels on.
ghost use Rattle.std.specs.Prelude.{◌≡◌, slice_get};
ghost use Rattle.std.specs.Option.{option_copied};
ghost use Rattle.fr_graph.specs.Walk.{low_body};

use fr_core::{Low, LowFunction};
use fr_kernel::{Fuel, KernTable, Machine};
use fr_value::{EraId, FunId};
use std::alloc::Global;
use std::marker::Model;

/// The functions and kernels of a lowered program, the number of its sources, and what memory is taken from. Contracts see
/// all but the last.
#[derive(Drop)]
pub struct Plan<'a> {
    alloc: Global,
    functions: &'a [LowFunction],
    table: &'a KernTable,
    sources: u32,
}

impl<'a> Model for Plan<'a> {
    ghost use Rattle.fr_build.specs.Ready.{Planned, planned_code};

    ghost Value = { Planned };

    ghost coded = { planned_code };

    ghost view = { λ p. record { functions = p.functions.now; table = p.table.now; sources = p.sources } };
}

impl<'a> Plan<'a> {
    /// The functions of a lowered program, its kernels and the number of its sources.
    pub fn of(
        alloc: Global,
        functions: &'a [LowFunction],
        table: &'a KernTable,
        sources: u32,
    ) -> Plan<'a>
        ensures functions { result.functions ≡ functions.now }
        ensures table { result.table ≡ table.now }
        ensures sources { result.sources ≡ sources }
    {
        Plan {
            alloc,
            functions,
            table,
            sources,
        }
    }

    /// What memory is taken from.
    pub fn alloc(&self) -> Global {
        self.alloc
    }

    /// The kernels.
    pub fn table(&self) -> &'a KernTable
        ensures { result.now ≡ self.now.table }
    {
        self.table
    }

    /// The body of a function that has so many parameters.
    pub fn body(&self, id: FunId, args: usize) -> Option<&'a Low>
        ensures { option_copied result ≡ low_body (slice_get self.now.functions id.0) args }
    {
        match self.functions.get(id.0 as usize) {
            None => None,
            Some(function) => {
                if function.params as usize == args {
                    Some(&function.body)
                } else {
                    None
                }
            }
        }
    }
}

/// Where what is built stands: so many levels are left below its expression, and its nodes are members of this era.
#[derive(Clone, Copy)]
pub(crate) struct Setting<'a> {
    pub(crate) plan: &'a Plan<'a>,
    pub(crate) below: u32,
    pub(crate) era: EraId,
}

/// What kernels are run on, and what is left to be spent at an instant.
#[derive(Drop)]
pub struct Runner {
    pub machine: Machine,
    pub fuel: Fuel,
}
