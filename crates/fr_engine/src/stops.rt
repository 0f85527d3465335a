//! Why an instant doesn't come to its end.
use fr_value::Bad;
use std::alloc::AllocError;

/// Why a run over the graph stopped.
#[derive(Debug, Drop)]
pub enum RunStop {
    /// Memory is wanting.
    Memory(AllocError),
    /// Evaluating errs, with this kind.
    Bad(Bad),
    /// The instant costs more than what was left.
    Fuel,
    /// There are as many nodes as the limit.
    TooMany,
}

impl From<AllocError> for RunStop {
    ghost use Rattle.std.specs.Prelude.{◌≡◌};
    ghost use Rattle.fr_engine.specs.declared.stops.RunStop.TheVariants as RunStop;

    ghost from_gives = { λ e r. r ≡ RunStop.Memory e };

    fn from(e: AllocError) -> RunStop {
        RunStop::Memory(e)
    }
}
