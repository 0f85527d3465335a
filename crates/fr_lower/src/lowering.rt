ghost use Rattle.std.specs.Prelude.{◌≡◌, None, IfOk};
ghost use Rattle.fr_core.specs.Classes.{IsFit};
ghost use Rattle.fr_core.specs.Sites.{HasSitesOnce};
ghost use Rattle.fr_kernel.specs.Erasure.{erased, AllFit, CollapsesRegions, CollapsesNothing};
ghost use Rattle.fr_purity.specs.Marks.{AreClasses};
ghost use Rattle.fr_lower.specs.Making.{given, AreGiven, HasSoundKernels};
ghost use Rattle.fr_lower.specs.Tops.{IsLowered};

use crate::copying::{copy_events, copy_inputs};
use crate::making::Made;
use crate::tops::{lowered_functions, lowered_items};
use fr_core::{Lowered, Program};
use fr_kernel::KernTable;
use fr_purity::Classes;
use std::alloc::{AllocError, Global};

/// The lowered program, where regions are computed as a whole if the classes are given.
fn lowered_with(
    alloc: Global,
    program: &Program,
    classes: Option<&Classes>,
) -> Result<(Lowered, KernTable), AllocError>
    requires classes { AreGiven program.now (given classes) }
    requires fit { IsFit program.now }
    ensures { IfOk result (λ r. IsLowered program.now (given classes.entry) r.0 r.1) }
{
    let mut made = Made {
        table: KernTable::new(alloc, program)?,
        sites: 0,
    };
    let functions = lowered_functions(alloc, program, classes, &mut made)?;
    let body = lowered_items(alloc, program, classes, &mut made)?;
    let inputs = copy_inputs(alloc, program.inputs.as_slice())?;
    let events = copy_events(alloc, program.events.as_slice())?;
    let lowered = Lowered {
        inputs,
        events,
        functions,
        body,
    };
    Ok((lowered, made.table))
}

/// Lowers a program without its regions: only the body of each handler and loop becomes a kernel, and nothing is
/// computed as a whole.
///
/// The bodies of the program's handlers and loops are pure. The kernels come with the program's functions. It takes time
/// and memory in proportion to the program, calls itself as deep as an expression nests, and fails only where there is no
/// memory.
pub fn plain(alloc: Global, program: &Program) -> Result<(Lowered, KernTable), AllocError>
    requires { IsFit program.now }
    ensures erasure { IfOk result (λ r. erased r.1.kernels r.0 ≡ program.now) }
    ensures functions { IfOk result (λ r. r.1.functions ≡ program.now.functions) }
    ensures kernels { IfOk result (λ r. AllFit r.1.kernels r.0) }
    ensures sound { IfOk result (λ r. HasSoundKernels r.1) }
    ensures regions { IfOk result (λ r. CollapsesNothing r.0) }
    ensures sites { IfOk result (λ r. HasSitesOnce r.0) }
{
    lowered_with(alloc, program, None)
}

/// Lowers a program: the body of each handler and loop becomes a kernel, and so does each region, which is then computed
/// as a whole.
///
/// A region is a compound pure expression that is no part of a larger one, and that is neither the body of a handler or
/// loop nor a part of one. The bodies of the program's handlers and loops are pure, and the classes are the program's, as
/// `classify` gives them. The kernels come with the program's functions. It takes time and memory in proportion to the
/// program, calls itself as deep as an expression nests, and fails only where there is no memory.
pub fn lower(
    alloc: Global,
    program: &Program,
    classes: &Classes,
) -> Result<(Lowered, KernTable), AllocError>
    requires fit { IsFit program.now }
    requires classes { AreClasses program.now classes.now.closed.items classes.now.pure.items }
    ensures erasure { IfOk result (λ r. erased r.1.kernels r.0 ≡ program.now) }
    ensures functions { IfOk result (λ r. r.1.functions ≡ program.now.functions) }
    ensures kernels { IfOk result (λ r. AllFit r.1.kernels r.0) }
    ensures sound { IfOk result (λ r. HasSoundKernels r.1) }
    ensures regions { IfOk result (λ r. CollapsesRegions program.now r.1.kernels r.0) }
    ensures sites { IfOk result (λ r. HasSitesOnce r.0) }
{
    lowered_with(alloc, program, Some(classes))
}
