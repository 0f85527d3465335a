ghost use Rattle.std.specs.Prelude.{◌≡◌, ◌+◌, ◌<◌, ◌≤◌, IfOk, IfErr, map, Ok};
ghost use Rattle.fr_value.specs.Data.{data_of, datum_size, total};
ghost use Rattle.fr_core.specs.WellFormed.{count, roots, IsWellFormed, most_entries};
ghost use Rattle.fr_syntax.specs.Weights.{form_weight};
ghost use Rattle.fr_expand.specs.Expansion.{IsExpansion, expression_limit, most_weight};
ghost use Rattle.fr_expand.specs.Stops.{Decides, IsStopOf};
ghost use Rattle.fr_expand.specs.declared.expansion.ExpandStop.TheVariants.{Refused};

use crate::building::program_in;
use crate::first_pass::first_refusal;
use crate::refusal::{Kind, Refusal};
use crate::second_pass::first_unfit;
use crate::shaping::shaped_forms;
use fr_core::Program;
use fr_purity::classify;
use fr_scope::Globals;
use fr_syntax::Form;
use fr_value::Value;
use std::alloc::{AllocError, Global};

/// Why forms are no program.
#[derive(Debug, Drop)]
pub enum ExpandStop {
    /// Memory is wanting.
    Memory(AllocError),
    /// The first form that is refused, and why.
    Refused(Refusal),
}

impl From<AllocError> for ExpandStop {
    ghost use Rattle.std.specs.Prelude.{◌≡◌};
    ghost use Rattle.fr_expand.specs.declared.expansion.ExpandStop.TheVariants as ExpandStop;

    ghost from_gives = { λ e r. r ≡ ExpandStop.Memory e };

    fn from(e: AllocError) -> ExpandStop {
        ExpandStop::Memory(e)
    }
}

/// The program that these forms are. Their sizes are together at most 8,388,608.
///
/// The program is well formed, and has fewer than 268,435,456 expressions.
///
/// `Refused` is the forms' one refusal. `Memory` tells nothing of the forms.
pub fn expand(alloc: Global, forms: &[Value]) -> Result<Program, ExpandStop>
    requires { total (map datum_size (data_of forms.now)) ≤ most_weight }
    ensures expanded { IfOk result (λ p. IsExpansion (data_of forms.now) (Ok p)) }
    ensures well_formed { IfOk result IsWellFormed }
    ensures few { IfOk result (λ p. total (map (λ r. count r.expr) (roots p)) < expression_limit) }
    ensures refused { IfErr result (IsStopOf (data_of forms.now)) }
{
    let globals = Globals::of(alloc, forms)?;
    let shapes = shaped_forms(alloc, forms)?;
    let shaped = shapes.as_slice();
    if let Some(refusal) = first_refusal(alloc, &globals, shaped)? {
        return Err(ExpandStop::Refused(refusal));
    }
    if shaped.len() < forms.len() {
        return Err(refused(shaped.len(), Kind::Form));
    }
    fit_program(alloc, &globals, shaped)
}

/// The program that forms are which the first pass doesn't refuse, where the bodies of its handlers and loops are pure.
fn fit_program(alloc: Global, globals: &Globals, forms: &[Form]) -> Result<Program, ExpandStop>
    requires { total (map form_weight forms.now) ≤ most_weight }
    ensures { Decides globals.now forms.now result }
{
    let program = program_in(alloc, globals, forms)?;
    let classes = classify(alloc, &program)?;
    match first_unfit(&program, &classes, forms) {
        Some(at) => Err(refused(at, Kind::Handler)),
        None => Ok(program),
    }
}

/// The form at a place, counted from 0, is refused.
fn refused(place: usize, kind: Kind) -> ExpandStop
    requires { place < most_entries }
    ensures { result ≡ Refused (record { form = place + 1; kind = kind }) }
{
    ExpandStop::Refused(Refusal::at(place, kind))
}
