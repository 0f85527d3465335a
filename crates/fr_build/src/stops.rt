//! Why building stops.
use fr_kernel::KernStop;
use fr_store::MakeStop;
use fr_value::Bad;
use std::alloc::AllocError;

/// Why nodes were not made.
#[derive(Debug, Drop)]
pub enum BuildStop {
    /// Memory is wanting.
    Memory(AllocError),
    /// Evaluating refuses a part that never changes.
    Bad(Bad),
    /// What never changes costs more than what was left.
    Fuel,
    /// There are as many nodes as the limit.
    TooMany,
}

impl From<AllocError> for BuildStop {
    ghost use Rattle.std.specs.Prelude.{◌≡◌};
    ghost use Rattle.fr_build.specs.declared.stops.BuildStop.TheVariants as BuildStop;

    ghost from_gives = { λ e r. r ≡ BuildStop.Memory e };

    fn from(e: AllocError) -> BuildStop {
        BuildStop::Memory(e)
    }
}

impl From<MakeStop> for BuildStop {
    ghost use Rattle.std.specs.Prelude.{◌≡◌};
    ghost use Rattle.fr_build.specs.Stops.{made_stop};

    ghost from_gives = { λ e r. r ≡ made_stop e };

    fn from(e: MakeStop) -> BuildStop {
        match e {
            MakeStop::Memory(e) => BuildStop::Memory(e),
            MakeStop::TooMany => BuildStop::TooMany,
        }
    }
}

impl From<KernStop> for BuildStop {
    ghost use Rattle.std.specs.Prelude.{◌≡◌};
    ghost use Rattle.fr_build.specs.Stops.{run_stop};

    ghost from_gives = { λ e r. r ≡ run_stop e };

    fn from(e: KernStop) -> BuildStop {
        match e {
            KernStop::Memory(e) => BuildStop::Memory(e),
            KernStop::Bad(bad) => BuildStop::Bad(bad),
            KernStop::Fuel => BuildStop::Fuel,
        }
    }
}
