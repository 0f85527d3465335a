//! What an evaluation is over: the functions of a program and the values of its sources.
ghost use Rattle.std.specs.Prelude.{◌≡◌, slice_get, IfOk};
ghost use Rattle.std.specs.Option.{option_copied};
ghost use Rattle.fr_meaning.specs.Evaluation.{world_of, source_seen, body_for};

use fr_core::{Core, Function, Program};
use fr_forms::Seen;
use fr_value::{Bad, FunId, Now, SrcId};
use std::alloc::{AllocError, Global};
use std::marker::Model;

/// What is the same for every part at an instant: the program's functions and the values of its sources, and what memory
/// is taken from. Contracts see the functions and the values.
#[derive(Drop)]
pub struct World<'a> {
    alloc: Global,
    functions: &'a [Function],
    sources: &'a [Now],
}

impl<'a> Model for World<'a> {
    ghost use Rattle.fr_meaning.specs.Evaluation.{World as AtInstant};
    ghost use Rattle.fr_afresh.specs.Worlds.{world_code};

    ghost Value = { AtInstant };

    ghost coded = { world_code };

    ghost view = { λ w. record { functions = w.functions.now; sources = w.sources.now } };
}

impl<'a> World<'a> {
    /// The functions of a program, where its sources have these values.
    pub fn of(alloc: Global, program: &'a Program, sources: &'a [Now]) -> World<'a>
        ensures { result ≡ world_of program.now sources.now }
    {
        World {
            alloc,
            functions: program.functions.as_slice(),
            sources,
        }
    }

    /// What memory is taken from.
    pub fn alloc(&self) -> Global {
        self.alloc
    }

    /// The value of a source. It fails only where there is no memory.
    pub fn source(&self, id: SrcId) -> Result<Seen, AllocError>
        ensures { IfOk result (λ v. v ≡ source_seen (slice_get self.now.sources id.0)) }
    {
        match self.sources.get(id.0 as usize) {
            Some(now) => Ok(Ok(now.share()?)),
            None => Ok(Err(Bad::Deep)),
        }
    }

    /// The body of a function that has so many parameters.
    pub fn body(&self, id: FunId, args: usize) -> Option<&'a Core>
        ensures { option_copied result ≡ body_for (slice_get self.now.functions id.0) args }
    {
        match self.functions.get(id.0 as usize) {
            None => None,
            Some(function) => {
                if function.params as usize == args {
                    Some(&function.body)
                } else {
                    None
                }
            }
        }
    }
}
