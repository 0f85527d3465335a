//! The number of sources of a lowered program.
ghost use Rattle.std.specs.Prelude.{◌≡◌, ◌≤◌, ◌^◌, MatchOption};
ghost use Rattle.fr_ready.specs.Planning.{many_sources};

use fr_core::Lowered;

/// The number of a lowered program's sources, `now` among them; None where it has 2^32 sources or more.
pub fn count_sources(lowered: &Lowered) -> Option<u32>
    ensures { MatchOption result (2 ^ 32 ≤ many_sources lowered.now) (λ many. many ≡ many_sources lowered.now) }
{
    let inputs = u32::try_from(lowered.inputs.len()).ok()?;
    let events = u32::try_from(lowered.events.len()).ok()?;
    inputs.checked_add(events)?.checked_add(1)
}
