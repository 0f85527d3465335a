ghost use Rattle.fr_core.specs.declared.lowered.Lowered.{Lowered};
ghost use Rattle.fr_core.specs.declared.program.Program.{Program};
ghost use Rattle.fr_core.specs.WellFormed.{IsWellFormed};
ghost use Rattle.fr_graph.specs.Items.{AreLowered};
ghost use Rattle.fr_kernel.specs.Kernels.{Kernels};
ghost use Rattle.fr_ready.specs.Planning.{IsLoweredFrom, planned_of, ItemsReady};
ghost use Rattle.fr_ready.specs.Ready.{IsPlanReady, PlanMatches, plan_of};
ghost use Rattle.fr_ready.specs.Switches.{Found, HasFoundAll, ItemsMatch, sites_by};

/// What lowering gives for a well-formed program is the lowered form of that program that the laws of graphs speak of, and
/// its functions and items can be built.
pub fn what_is_lowered_can_be_built()
    ensures lowered { (p : Program) (l : Lowered) (t : Kernels) → IsWellFormed p → IsLoweredFrom p l t → AreLowered p (plan_of (planned_of l t)) l.body }
    ensures plan { (p : Program) (l : Lowered) (t : Kernels) → IsWellFormed p → IsLoweredFrom p l t → IsPlanReady (planned_of l t) }
    ensures items { (p : Program) (l : Lowered) (t : Kernels) → IsWellFormed p → IsLoweredFrom p l t → ItemsReady (planned_of l t) 0 l.body }
{}

/// Where the choices of every switch were found at its site, the choices at the sites of all functions and items are those
/// of their switches.
pub fn choices_are_those_of_the_switches()
    ensures plan { (l : Lowered) (t : Kernels) (found : Found) → HasFoundAll l found → PlanMatches (sites_by found) (planned_of l t) }
    ensures items { (l : Lowered) (found : Found) → HasFoundAll l found → ItemsMatch (sites_by found) 0 l.body }
{}
